// The text that a value holds: a part of one of the lent slices.
ghost use Rattle.std.specs.Prelude.{◌≡◌, ◌-◌, take, drop};
ghost use Rattle.values.specs.Values.{lent_in, source_in, held_in, text_in};

use crate::{Held, Lent};
use meaning::Source;
use text::value::text_of;

// The bytes from a start up to an end, as far as the slice has them. Kept: the two places of a Held, which may lie past the slice.
pub(crate) fn part<'a>(s: &'a [u8], start: usize, end: usize) -> &'a [u8]
    ensures { result.now ≡ take (end - start) (drop start s.now) }
{
    let end = end.min(s.len());
    if end <= start {
        return &s[0..0];
    }
    &s[start..end]
}

impl<'a> Lent<'a> {
    // The slice that a text stands in.
    pub fn slice(self, source: Source) -> &'a [u8]
        ensures { result.now ≡ source_in (lent_in self.entry) source }
    {
        match source {
            Source::Request => self.request,
            Source::Images => self.images,
            Source::Records => self.records,
            Source::Runs => self.runs,
        }
    }

    // The bytes that hold a text.
    #[tactic(auto, unfolding(crate::specs::Values::held_in))]
    fn held(self, held: Held) -> &'a [u8]
        ensures { result.now ≡ held_in (lent_in self.entry) held }
    {
        part(self.slice(held.source), held.start, held.end)
    }

    // The text in them. Kept: a part of the slice, which nothing converts.
    #[tactic(auto, unfolding(crate::specs::Values::text_in))]
    pub(crate) fn text(self, held: Held) -> &'a [u8]
        ensures { result.now ≡ text_in (lent_in self.entry) held }
    {
        text_of(held.of, self.held(held))
    }
}
