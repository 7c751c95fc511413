// Numbers that stand in a request as a literal or as a field by its id, by value and scale: a test or an operation on two of them needs no walk.
// What is missing, and what is no number, is not among them.
ghost use Rattle.std.specs.Prelude.{◌≡◌, false, ℕ, ◌+◌, ◌<◌, length};
ghost use Rattle.wire.specs.Words.{byte_at, word_at};
ghost use Rattle.wire.specs.declared.codes.FieldType.TheVariants.{Reading};
ghost use Rattle.dictionary.specs.Naming.{numbered};
ghost use Rattle.dictionary.specs.Internal.Walk.{relation_at};
ghost use Rattle.meaning.specs.Inputs.{field_in};
ghost use Rattle.walking.specs.Walk.{literal_at};
ghost use Rattle.surroundings.specs.Bindings.{rows_in, bound_value};
ghost use Rattle.inputs.specs.Answers.{row_field};
ghost use Rattle.inputs.specs.Noted.{Noted};
ghost use Rattle.inputs.specs.Singles.{single_of, Fetches, Walks, held_in, SingleAt, TwoAt};

use crate::fields::Bound;
use crate::noted::located;
use crate::numbers::integer_at;
use classes::Code;
use dictionary::entries::type_at;
use dictionary::format::width_bytes;
use records::missing::missing_bit;
use surroundings::bindings::{
    BINDING_CODE, BINDING_RECORD, BINDING_RELATION, BINDING_ROW, binding_of,
};
use wire::blr;
use wire::bytes::{byte_at, byte_on, signed_byte, word_at};
use wire::codes::{DataType, FieldType, LiteralType, Width};
use wire::entries::FIELD_SCALE;
use wire::limits::MISSING_READING;
use wire::numbers::ContextNumber;
use wire::table::number_at;

// A number and the place after it.
#[derive(Clone, Copy)]
pub struct Single {
    pub value: i64,
    pub scale: i8,
    pub after: usize,
}

// Two of them, and the place after the second.
#[derive(Clone, Copy)]
pub struct Two {
    pub first: i64,
    pub first_scale: i8,
    pub second: i64,
    pub second_scale: i8,
    pub after: usize,
}

// The number of a value and a scale byte, which ends before a place.
fn single_of(value: i64, scale: u8, after: usize) -> Single
    ensures { result ≡ single_of value scale after }
{
    Single {
        value,
        scale: signed_byte(scale),
        after,
    }
}

// The literal whose code stands at a place. Kept: that the place lies in the request is one test of the caller, and a type for it is no plainer.
fn literal_single(request: &[u8], at: usize) -> Option<Single>
    requires { at < length request.now }
    ensures { Walks result (literal_at request.now (at + 1)) }
{
    match LiteralType::of(byte_at(request, at + 1)) {
        Ok(LiteralType::NumberLiteral(w)) => {
            let value = integer_at(w, request, at + 3);
            let scale = byte_at(request, at + 2);
            Some(single_of(value, scale, at + 3 + width_bytes(w)))
        }
        Ok(LiteralType::TextLiteral) | Err(_) => None,
    }
}

// A house reading of a scale byte, whose bytes stand at a place.
fn reading(scale: u8, s: &[u8], at: usize, after: usize) -> Option<Single>
    ensures { (n : ℕ) → Fetches result after (held_in (record { type = Reading; scale = scale; size = n }) s.now at) }
{
    let word = word_at(s, at);
    if word == MISSING_READING {
        return None;
    }
    Some(single_of(i64::from(word), scale, after))
}

// The number of a format whose bytes stand at a place, in a field whose bit is clear.
fn held(t: FieldType, scale: u8, s: &[u8], at: usize, after: usize) -> Option<Single>
    ensures { (n : ℕ) → Fetches result after (held_in (record { type = t; scale = scale; size = n }) s.now at) }
{
    match t {
        FieldType::Plain(DataType::Number(w)) => {
            Some(single_of(integer_at(w, s, at), scale, after))
        }
        FieldType::Plain(DataType::Date | DataType::Chars(_)) => None,
        FieldType::Reading => reading(scale, s, at, after),
    }
}

// Field i of a relation, in the record at p. Kept: its parameters as in fields.rt, and the table of fields as in noted.rt.
fn field_in(
    d: &[u8],
    fields: &[u32],
    relation: usize,
    s: &[u8],
    p: usize,
    i: usize,
    after: usize,
) -> Option<Single>
    requires { p < 4294967296 }
    ensures { Noted d.now fields.now →
        Fetches result after (field_in (relation_at d.now relation) s.now p i) }
{
    if missing_bit(s, p, i) {
        return None;
    }
    let l = located(d, fields, relation, i)?;
    let scale = byte_on(d, l.entry, FIELD_SCALE);
    held(type_at(d, l.entry), scale, s, p + l.offset, after)
}

// Field i of the record that a row binds.
fn field_at(x: Bound<'_>, fields: &[u32], row: usize, i: usize, after: usize) -> Option<Single>
    requires { row < rows_in x.bindings.now }
    ensures { Noted x.entry.dictionary.now fields.now →
        Fetches result after
        (row_field x.entry.dictionary.now x.entry.bindings.now x.entry.records.now x.entry.runs.now row i) }
{
    let b = row * BINDING_ROW;
    let relation = number_at(x.bindings, b + BINDING_RELATION) as usize;
    let p = number_at(x.bindings, b + BINDING_RECORD) as usize;
    if number_at(x.bindings, b + BINDING_CODE) == 0 {
        return field_in(x.dictionary, fields, relation, x.records, p, i, after);
    }
    field_in(x.dictionary, fields, relation, x.runs, p, i, after)
}

// The field of an id, of the context of a number.
fn field_single(
    x: Bound<'_>,
    fields: &[u32],
    context: ContextNumber,
    id: usize,
    after: usize,
) -> Option<Single>
    ensures { Noted x.entry.dictionary.now fields.now →
        Fetches result after
        (bound_value x.entry.dictionary.now x.entry.bindings.now x.entry.records.now x.entry.runs.now context.0 (numbered id)) }
{
    let row = binding_of(x.bindings, context)?;
    field_at(x, fields, row, id, after)
}

// Kept: a public function, which keeps its parameters.
// The number at a place. An answer that is a number is what the walk gives there; one that is none leaves it to the walk.
pub fn single_at(
    request: &[u8],
    d: &[u8],
    bindings: &[u32],
    fields: &[u32],
    records: &[u8],
    runs: &[u8],
    at: usize,
) -> Option<Single>
    ensures { Noted d.now fields.now →
        SingleAt request.now d.now bindings.now records.now runs.now at result }
{
    if request.len() <= at {
        return None;
    }
    match request[at] {
        blr::FID => {
            let bound = Bound {
                dictionary: d,
                bindings,
                records,
                runs,
            };
            let context = ContextNumber(byte_at(request, at + 1));
            let id = word_at(request, at + 2) as usize;
            field_single(bound, fields, context, id, at + 4)
        }
        blr::LITERAL => literal_single(request, at),
        _ => None,
    }
}

// Kept: a public function, which keeps its parameters.
// The two numbers from a place on. An answer that is two numbers is what the walk gives there; one that is not leaves it to the walk.
pub fn two_at(
    request: &[u8],
    d: &[u8],
    bindings: &[u32],
    fields: &[u32],
    records: &[u8],
    runs: &[u8],
    at: usize,
) -> Option<Two>
    ensures { Noted d.now fields.now →
        TwoAt request.now d.now bindings.now records.now runs.now at result }
{
    let x = single_at(request, d, bindings, fields, records, runs, at)?;
    let y = single_at(request, d, bindings, fields, records, runs, x.after)?;
    Some(Two {
        first: x.value,
        first_scale: x.scale,
        second: y.value,
        second_scale: y.scale,
        after: y.after,
    })
}
