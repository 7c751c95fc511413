// Truth values; and, or.
ghost use Rattle.std.specs.Prelude.{◌≡◌};
ghost use Rattle.meaning.specs.Data as Data;
ghost use Rattle.values.specs.Promises.{Connected};

use crate::Tested;
use meaning::Truth;
use wire::codes::Connective;

fn both(a: Truth, b: Truth) -> Truth
    ensures { result ≡ Data.both a b }
{
    match a {
        Truth::True => b,
        Truth::False => Truth::False,
        Truth::Missing(w) => match b {
            Truth::False => Truth::False,
            Truth::True | Truth::Missing(_) => Truth::Missing(w),
        },
    }
}

fn either(a: Truth, b: Truth) -> Truth
    ensures { result ≡ Data.either a b }
{
    match a {
        Truth::True => Truth::True,
        Truth::False => b,
        Truth::Missing(w) => match b {
            Truth::True => Truth::True,
            Truth::False | Truth::Missing(_) => Truth::Missing(w),
        },
    }
}

// Two truth values by a connective.
#[tactic(auto, unfolding(meaning::specs::Data::connected))]
pub fn connection(c: Connective, a: Truth, b: Truth) -> Truth
    ensures { result ≡ Data.connected c a b }
{
    match c {
        Connective::Or => either(a, b),
        Connective::And => both(a, b),
    }
}

pub fn connected(c: Connective, a: Tested, b: Tested) -> Tested
    ensures { Connected c a b result }
{
    let (x, _) = a?;
    let (y, end) = b?;
    Ok((connection(c, x, y), end))
}
