// Which side of an and or an or settles it.
ghost use Rattle.std.specs.Prelude.{◌≡◌};
ghost use Rattle.explanation.specs.Explanation.{settles as settlesSo};

use meaning::Truth;
use wire::codes::Connective;

// An and is false if a side of it is, and an or true.
pub(crate) fn settles(code: Connective, truth: Truth) -> bool
    ensures { result ≡ settlesSo code truth }
{
    match code {
        Connective::Or => matches!(truth, Truth::True),
        Connective::And => matches!(truth, Truth::False),
    }
}
