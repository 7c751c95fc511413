// The answers of operators, from the kinds of their operands, which were read: the fit is tested last.
ghost use Rattle.std.specs.Prelude.{◌≡◌};
ghost use Rattle.grammar.specs.Kinds.{arithmetic_kind, negated_kind};
ghost use Rattle.grammar.specs.Internal.Steps.{kind_in};
ghost use Rattle.expressions.specs.Promises.{kind_answer, test_answer, count_answer};

use grammar::{Cursor, Kind, Passed, Read, Refusal};
use scopes::kinds::{arithmetic_fit, negated_fit};
use wire::codes::{Operator, Version};
use wire::refused::Refused;

// A value of a kind, or that its parts do not fit.
fn fitted(k: Option<Kind>, at: usize, c: Cursor) -> Read<Option<Kind>>
    ensures { result ≡ kind_answer (kind_in k) at c }
{
    match k {
        None => Err(Refused::new(Refusal::Unfit, at)),
        Some(_) => Ok((k, c)),
    }
}

// A test that is met has no kind.
pub fn tested(holds: bool, at: usize, c: Cursor) -> Read<Option<Kind>>
    ensures { result ≡ test_answer holds at c }
{
    if holds {
        Ok((None, c))
    } else {
        Err(Refused::new(Refusal::Unfit, at))
    }
}

pub(crate) fn arithmetic(
    v: Version,
    o: Operator,
    x: Option<Kind>,
    y: Option<Kind>,
    at: usize,
    c: Cursor,
) -> Read<Option<Kind>>
    ensures { result ≡ kind_answer (arithmetic_kind v o (kind_in x) (kind_in y)) at c }
{
    fitted(arithmetic_fit(v, o, x, y), at, c)
}

pub(crate) fn negation(x: Option<Kind>, at: usize, c: Cursor) -> Read<Option<Kind>>
    ensures { result ≡ kind_answer (negated_kind (kind_in x)) at c }
{
    fitted(negated_fit(x), at, c)
}

// A count of what was read.
pub(crate) fn counted(r: Passed) -> Read<Option<Kind>>
    ensures { result ≡ count_answer r }
{
    Ok((Some(Kind::Number(0)), r?))
}
