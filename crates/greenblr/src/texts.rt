// Where a text stands, with both places inside what holds it: a caller takes its bytes without a test.
ghost use Rattle.greenblr.specs.Inside.{TextIn, PutInside};

use meaning::{Source, ValueAnswer, ValueEvaluation};
use values::Lent;

// The bytes of a slice from a start up to an end, as a text; what would stand after the slice is left out.
// Kept: C is told the two places, and not the bytes.
#[tactic(auto, using(crate::proofs::Parts::places))]
fn text_in(s: &[u8], source: Source, start: usize, end: usize) -> ValueAnswer
    ensures { TextIn s.now source start end result }
{
    let length = s.len();
    if length <= start {
        return ValueAnswer::Text(source, length, length);
    }
    if end <= start {
        return ValueAnswer::Text(source, start, start);
    }
    if length < end {
        return ValueAnswer::Text(source, start, length);
    }
    ValueAnswer::Text(source, start, end)
}

// The same answer, with a text's places inside what it stands in.
pub(crate) fn inside(lent: Lent, value: ValueEvaluation) -> ValueEvaluation
    ensures { PutInside lent.entry.request.now lent.entry.images.now lent.entry.records.now lent.entry.runs.now value result }
{
    match value {
        Ok(ValueAnswer::Text(source, start, end)) => {
            Ok(text_in(lent.slice(source), source, start, end))
        }
        _ => value,
    }
}
