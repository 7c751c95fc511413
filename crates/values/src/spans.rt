// Where the text that a value holds stands.
ghost use Rattle.std.specs.Prelude.{◌≡◌};
ghost use Rattle.values.specs.Values.{lent_in, text_in};
ghost use Rattle.values.specs.Spans.{span_in};

use crate::texts::part;
use crate::{Held, Lent, Span};
use text::value::text_part;

// The text that a value holds, without trailing blanks: where it stands.
pub fn span(m: Lent<'_>, held: Held) -> Span
    ensures { span_in (lent_in m.entry) result ≡ text_in (lent_in m.entry) held }
{
    let s = m.slice(held.source);
    let (start, end) = text_part(held.of, part(s, held.start, held.end)).unwrap_or((0, 0));
    Span {
        source: held.source,
        start: held.start + start,
        end: held.start + end,
    }
}
