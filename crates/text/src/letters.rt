// Letters of either case.
ghost use Rattle.std.specs.Prelude.{◌≡◌};
ghost use Rattle.text.specs.Tests.{same_letter};

// Whether two bytes are the same letter of either case, or the same byte. Kept: std's method, under the equation that contracts cite.
#[tactic(auto, unfolding(crate::specs::Tests::lower_case))]
pub(crate) fn same_letter(x: u8, y: u8) -> bool
    ensures { result ≡ same_letter x y }
{
    x.eq_ignore_ascii_case(&y)
}
