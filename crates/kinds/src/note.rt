// The kinds of the numbers of statistics, noted in the rows of bindings.
ghost use Rattle.std.specs.Prelude.{◌≡◌, ◌+◌, ◌*◌, ◌≤◌, min, length};
ghost use Rattle.wire.specs.Limits.{max_parameters};
ghost use Rattle.wire.specs.Classes.{value_class};
ghost use Rattle.grammar.specs.Internal.Steps.{kind_in};
ghost use Rattle.surroundings.specs.Bindings.{binding_row_numbers, rows_in};
ghost use Rattle.kinds.specs.KindAt.{scale_number, kind_number, takes_number, row_noted, kinds_noted};

use crate::KindInputs;
use crate::walk::kind_at;
use classes::Code;
use grammar::Kind;
use surroundings::bindings::{
    BINDING_AFTER, BINDING_CODE, BINDING_KIND, BINDING_ROW, DATE_KIND, TEXT_KIND,
};
use wire::bytes::byte_at;
use wire::codes::ValueCode;
use wire::limits::{MAX_DEPTH, MIN_ARITHMETIC_SCALE};
use wire::table::{number_at, put};

// Kept: a column of the table of bindings has this number, as kind_number of specs/KindAt.antt; From would say no more.
// A scale as a number of a row.
#[tactic(auto, unfolding(crate::specs::KindAt::scale_number))]
fn scale_number(scale: i8) -> u32
    ensures { result ≡ scale_number scale }
{
    if (MIN_ARITHMETIC_SCALE..=0).contains(&scale) {
        1 + u32::from(scale.unsigned_abs())
    } else {
        0
    }
}

// Kept: as above; neither Option nor u32 is of this crate, so that no From can stand here.
// A kind as a number of a row.
#[tactic(auto, unfolding(crate::specs::KindAt::kind_number))]
fn kind_number(kind: Option<Kind>) -> u32
    ensures { result ≡ kind_number (kind_in kind) }
{
    match kind {
        Some(Kind::Number(scale)) => scale_number(scale),
        Some(Kind::Text) => TEXT_KIND,
        Some(Kind::Date) => DATE_KIND,
        None => 0,
    }
}

// Kept: a test of one code that is asked once.
// Whether a byte is the code of an average, a maximum, a minimum or a total, which takes a number.
fn takes_number(byte: u8) -> bool
    ensures { result ≡ takes_number (value_class byte) }
{
    matches!(ValueCode::of(byte), Ok(ValueCode::Statistic(_)))
}

// Kept: the rows of bindings are numbers of a lent table (surroundings, bindings.rt), here and below.
// The kind of the number of a row's statistic.
#[tactic(auto, unfolding(crate::specs::KindAt::row_noted))]
fn note_kind(
    request: &[u8],
    dictionary: &[u8],
    parameters: &[u32],
    rows: usize,
    bindings: &mut [u32],
    row: usize,
)
    requires { row * binding_row_numbers + binding_row_numbers ≤ length bindings.old }
    ensures { bindings.new ≡ row_noted dictionary.now parameters.now (min rows max_parameters)
        request.now bindings.old row }
{
    let at = row * BINDING_ROW;
    let code = number_at(bindings, at + BINDING_CODE) as usize;
    if takes_number(byte_at(request, code)) {
        let number = number_at(bindings, at + BINDING_AFTER) as usize;
        let inputs = KindInputs {
            request,
            dictionary,
            parameters,
            rows,
            bindings,
        };
        let kind = kind_at(inputs, MAX_DEPTH, number).kind;
        put(bindings, at + BINDING_KIND, kind_number(kind));
    }
}

// Kept: as above.
// For each row of an average, a maximum, a minimum or a total the kind of its number.
pub fn note_kinds(
    request: &[u8],
    dictionary: &[u8],
    parameters: &[u32],
    rows: usize,
    bindings: &mut [u32],
)
    ensures { bindings.new ≡ kinds_noted dictionary.now parameters.now (min rows max_parameters)
        request.now (rows_in bindings.old) 0 bindings.old }
{
    let count = bindings.len() / BINDING_ROW;
    for row in 0..count {
        note_kind(request, dictionary, parameters, rows, bindings, row);
    }
}
