// Whether a value is missing: true or false, never missing.
ghost use Rattle.values.specs.Outcomes.{MissingOf};
ghost use Rattle.values.specs.Promises.{TestedMissing};

use crate::{Tested, Value, Valued};
use meaning::Truth;

fn missing_of(x: Value) -> Truth
    ensures { MissingOf x result }
{
    Truth::from(matches!(x, Value::Missing(_, _)))
}

pub fn is_missing(a: Valued) -> Tested
    ensures { TestedMissing a result }
{
    let (x, end) = a?;
    Ok((missing_of(x), end))
}
