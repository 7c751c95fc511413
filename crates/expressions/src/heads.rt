// Codes of values, booleans and clauses, with a level below them.
ghost use Rattle.std.specs.Prelude.{◌≡◌};
ghost use Rattle.wire.specs.Classes.{direction_class};
ghost use Rattle.grammar.specs.Reader.{coded};
ghost use Rattle.grammar.specs.Internal.Steps.{answer_of, cursor_of, same};
ghost use Rattle.expressions.specs.Promises.{leveled, clause_coded, clause_due};

use classes::Code;
use grammar::{Cursor, Passed, Read, Refusal};
use steps::next_code;
use wire::codes::{ClauseCode, Direction};
use wire::refused::Refused;

// The code of a value or a boolean that is due, with so many levels left for it.
#[tactic(auto, unfolding(crate::specs::Promises::leveled))]
pub(crate) fn code_at<T: Code>(request: &[u8], c: Cursor, levels: usize) -> Read<T>
    ensures { result ≡ answer_of same (leveled T.class levels request.now c) }
{
    let (k, first) = next_code::<T>(request, c)?;
    if levels == 0 {
        return Err(Refused::new(Refusal::TooGreat, c.at));
    }
    Ok((k, first))
}

// The direction of a sort's value.
pub(crate) fn direction_at(request: &[u8], c: Cursor) -> Passed
    ensures { result ≡ cursor_of (coded direction_class request.now c) }
{
    let (_, first) = next_code::<Direction>(request, c)?;
    Ok(first)
}

// Whether a clause may stand, where a boolean or a sort may have stood before. Kept: the flags say what has stood, not what to do.
fn clause_due(k: ClauseCode, such: bool, sorted: bool) -> bool
    ensures { result ≡ clause_due k such sorted }
{
    match k {
        ClauseCode::Boolean => !such,
        ClauseCode::Sort => !sorted,
        ClauseCode::End => true,
    }
}

// The code of a clause, so many at most, where a boolean or a sort may have stood before.
#[tactic(auto, unfolding(crate::specs::Promises::clause_coded))]
pub(crate) fn clause_at(
    request: &[u8],
    c: Cursor,
    most: usize,
    such: bool,
    sorted: bool,
) -> Read<ClauseCode>
    ensures { result ≡ answer_of same (clause_coded most such sorted request.now c) }
{
    if most == 0 {
        return Err(Refused::new(Refusal::TooGreat, c.at));
    }
    let (k, first) = next_code::<ClauseCode>(request, c)?;
    if !clause_due(k, such, sorted) {
        return Err(Refused::new(Refusal::NotDue, c.at));
    }
    Ok((k, first))
}
