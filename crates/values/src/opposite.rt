// Not.
ghost use Rattle.std.specs.Prelude.{◌≡◌};
ghost use Rattle.meaning.specs.Data as Data;
ghost use Rattle.values.specs.Promises.{Opposite};

use crate::Tested;
use meaning::Truth;

// The truth value with a not before it.
pub fn reversed(a: Truth) -> Truth
    ensures { result ≡ Data.opposite a }
{
    match a {
        Truth::True => Truth::False,
        Truth::False => Truth::True,
        Truth::Missing(w) => Truth::Missing(w),
    }
}

// Kept: a public function over what a boolean comes out as; std's Not would be on the truth value alone.
pub fn opposite(a: Tested) -> Tested
    ensures { Opposite a result }
{
    let (x, end) = a?;
    Ok((reversed(x), end))
}
