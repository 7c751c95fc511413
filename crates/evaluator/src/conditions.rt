// A condition by its number, and a from-value by its row, once the request is read: 20, then what a walk needs, and the walk over its bytes.
ghost use Rattle.std.specs.Prelude.{◌≡◌, ℕ, ◌<◌};
ghost use Rattle.wire.specs.Limits.{max_statements};
ghost use Rattle.wire.specs.Options.{option_of};
ghost use Rattle.grammar.specs.Demands.{Octets};
ghost use Rattle.meaning.specs.Evaluated.{Evaluates};
ghost use Rattle.evaluator.specs.AfterReading.{AfterReading, RowsRead, from_place};
ghost use Rattle.meaning.specs.ValueEvaluated.{ValueEvaluates};

use crate::answers::{answer_of, value_answer};
use crate::prepared::{Given, prepare};
use crate::walk::{Walk, note};
use grammar::Refusal;
use inputs::noted::NOTED_TABLE;
use meaning::{Evaluation, ValueEvaluation};
use surroundings::bindings::{BINDING_ROW, BINDING_TABLE};
use wire::blr;
use wire::limits::{MAX_DEPTH, STATEMENT_ROW};
use wire::refused::Refused;
use wire::rows::{STATEMENT_CODE, STATEMENT_PLACE};
use wire::table::number_at;

// The condition of a number, of a request that was read: the tables hold its parameters and contexts, and the places.
pub(crate) fn evaluate_read(x: Given, places: &[u32], number: usize) -> Evaluation
    requires read { AfterReading x.request.now x.dictionary.now x.parameters.now x.contexts.now places.now
        x.counts.parameters x.counts.contexts }
    requires bytes { Octets x.runs.now }
    ensures { Evaluates x.entry.request.now x.entry.dictionary.now number x.entry.images.now x.entry.records.now x.entry.runs.now result }
{
    let at = number_at(places, number) as usize;
    if at == 0 {
        return Err(Refused::new(Refusal::NoBoolean, 0));
    }
    let mut bindings = [0u32; BINDING_TABLE];
    let n = prepare(x, at, &mut bindings)?;
    let slices = x.slices(&bindings[..n * BINDING_ROW]);
    let mut fields = [0u32; NOTED_TABLE];
    note(slices, at, &mut fields);
    let walk = Walk {
        slices,
        fields: &fields,
    };
    answer_of(walk.bool_at(MAX_DEPTH, at))
}

// Where the from-value of a row's statement stands, if the statement is an assignment.
#[tactic(auto, unfolding(crate::specs::AfterReading::from_place))]
fn from_value(statements: &[u32], row: usize) -> Option<usize>
    requires { row < max_statements }
    ensures { result ≡ option_of (from_place statements.now row) }
{
    let start = row * STATEMENT_ROW;
    if number_at(statements, start + STATEMENT_CODE) != blr::ASSIGNMENT as u32 {
        return None;
    }
    Some(number_at(statements, start + STATEMENT_PLACE) as usize + 1)
}

// The from-value of a row, of a request that was read: the table has the rows of its statements.
pub(crate) fn evaluate_row(x: Given, statements: &[u32], row: usize) -> ValueEvaluation
    requires read { RowsRead x.request.now x.dictionary.now x.parameters.now x.contexts.now statements.now
        x.counts.statements x.counts.parameters x.counts.contexts }
    requires bytes { Octets x.runs.now }
    ensures { ValueEvaluates x.entry.request.now x.entry.dictionary.now row x.entry.images.now x.entry.records.now x.entry.runs.now result }
{
    if x.counts.statements <= row {
        return Err(Refused::new(Refusal::NoBoolean, 0));
    }
    let Some(at) = from_value(statements, row) else {
        return Err(Refused::new(Refusal::NoBoolean, 0));
    };
    let mut bindings = [0u32; BINDING_TABLE];
    let n = prepare(x, at, &mut bindings)?;
    let slices = x.slices(&bindings[..n * BINDING_ROW]);
    let mut fields = [0u32; NOTED_TABLE];
    note(slices, at, &mut fields);
    let walk = Walk {
        slices,
        fields: &fields,
    };
    value_answer(slices.lent(), walk.value_at(MAX_DEPTH, at))
}
