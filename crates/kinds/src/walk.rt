// A walk over the bytes of a value that gives its kind.
ghost use Rattle.std.specs.Prelude.{◌≡◌, ◌+◌, ◌*◌, ◌≤◌, ◌<◌, length};
ghost use Rattle.grammar.specs.Kinds.{negated_kind};
ghost use Rattle.grammar.specs.Internal.Steps.{kind_in};
ghost use Rattle.surroundings.specs.Bindings.{binding_row_numbers, cell};
ghost use Rattle.kinds.specs.Spans.{spans_in, span_coded};
ghost use Rattle.kinds.specs.KindAt.{kinded, joined_kinds, count_at};
ghost use Rattle.kinds.specs.Promises.{kinded_is, value_in, inside_in};

use crate::leaves::{literal_kind, reference_kind};
use crate::{KindInputs, KindStep};
use classes::{Code, version_of};
use grammar::Kind;
use scopes::kinds::{arithmetic_fit, negated_fit};
use surroundings::bindings::{BINDING_AFTER, BINDING_END, BINDING_ROW, row_coded};
use wire::bytes::byte_at;
use wire::codes::{Operator, ValueCode, Version};
use wire::table::number_at;

// Two values with an operator.
#[tactic(auto, using(crate::proofs::Returns::kind_fit))]
fn joined(v: Version, o: Operator, x: KindStep, y: KindStep) -> KindStep
    ensures { kinded_is result ≡ joined_kinds v o (kinded_is x) (kinded_is y) }
{
    KindStep {
        kind: arithmetic_fit(v, o, x.kind, y.kind),
        end: y.end,
    }
}

// A value that has to be a number, and the place after all of it.
#[tactic(auto, using(crate::proofs::Returns::kind_fit))]
fn numeric(x: KindStep, end: usize) -> KindStep
    ensures { kinded_is result ≡ kinded (negated_kind (kind_in x.kind)) end }
{
    KindStep {
        kind: negated_fit(x.kind),
        end,
    }
}

// Kept: a table of numbers, as in note.rt; the bounds of row and column keep the place in the table.
// The place that a column of a row has.
fn place_in(bindings: &[u32], row: usize, column: usize) -> usize
    requires { (row * binding_row_numbers + binding_row_numbers ≤ length bindings.now) × (column < binding_row_numbers) }
    ensures { result ≡ cell bindings.now row column }
{
    number_at(bindings, row * BINDING_ROW + column) as usize
}

// Kept: as above.
// A count whose code stands at a place.
#[tactic(auto, using(crate::proofs::Returns::coded_row, crate::proofs::Returns::coded_some, crate::proofs::Returns::coded_none))]
fn count_kind(bindings: &[u32], at: usize) -> KindStep
    ensures { kinded_is result ≡ count_at (span_coded (spans_in bindings.now) at) at }
{
    match row_coded(bindings, at) {
        Some(row) => KindStep {
            kind: Some(Kind::Number(0)),
            end: place_in(bindings, row, BINDING_END),
        },
        None => KindStep::none(at),
    }
}

// The value at a place, with so many levels left.
#[cycle(walk)]
#[tactic(auto, using(crate::proofs::Walks::no_level, crate::proofs::Walks::no_code))]
pub(crate) fn kind_at(x: KindInputs, levels: usize, at: usize) -> KindStep
    ensures { kinded_is result ≡ value_in x.entry levels at }
{
    if levels == 0 || x.request.len() <= at {
        return KindStep::none(at);
    }
    match ValueCode::of(byte_at(x.request, at)) {
        Ok(code) => kind_under(x, levels - 1, at, code),
        Err(_) => KindStep::none(at),
    }
}

// Kept: a place before the end, as in leaves.rt.
// What stands under a value's code at a place, with so many levels left for its operands.
#[cycle(walk)]
#[tactic(auto, unfolding(crate::specs::KindAt::kind_under), using(crate::proofs::Returns::coded_row))]
fn kind_under(x: KindInputs, levels: usize, at: usize, code: ValueCode) -> KindStep
    requires { at < length x.request.now }
    ensures { kinded_is result ≡ inside_in x.entry levels at code }
{
    let v = version_of(byte_at(x.request, 0));
    match code {
        ValueCode::Literal => literal_kind(x.request, at + 1),
        ValueCode::Reference(c) => reference_kind(x, v, at, c),
        ValueCode::Arithmetic(o) => {
            let first = kind_at(x, levels, at + 1);
            let second = kind_at(x, levels, first.end);
            joined(v, o, first, second)
        }
        ValueCode::Negate => {
            let operand = kind_at(x, levels, at + 1);
            numeric(operand, operand.end)
        }
        ValueCode::Statistic(_) => match row_coded(x.bindings, at) {
            Some(row) => {
                let number = place_in(x.bindings, row, BINDING_AFTER);
                let operand = kind_at(x, levels, number);
                numeric(operand, place_in(x.bindings, row, BINDING_END))
            }
            None => KindStep::none(at),
        },
        ValueCode::Count => count_kind(x.bindings, at),
    }
}
