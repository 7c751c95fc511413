// The code of a statement, and what may stand in its place: an end.
ghost use Rattle.std.specs.Prelude.{◌≡◌, List, ℕ};
ghost use Rattle.grammar.specs.Reader.{peek};
ghost use Rattle.grammar.specs.Internal.Steps.{cursor_of};
ghost use Rattle.tables.specs.Tables.{result_of};
ghost use Rattle.openings.specs.Heads.{entered, statement_coded, coded_at, ending_of};

use grammar::{Cursor, Passed, Refusal};
use steps::{next_byte, next_code};
use wire::blr::END;
use wire::codes::StatementCode;
use wire::limits::MAX_STATEMENTS;
use wire::refused::Refused;

// A statement's code, its place, and the cursor after it, where the statement is counted.
#[derive(Clone, Copy)]
pub struct Coded {
    pub code: StatementCode,
    pub at: usize,
    pub after: Cursor,
}

// A statement whose code stands at a place: a level for it, and one statement more.
#[tactic(auto, unfolding(crate::specs::Heads::entered, grammar::specs::Reader::count_statement))]
pub(crate) fn enter(c: Cursor, at: usize, levels: usize) -> Passed
    ensures { (s : List ℕ) → result ≡ cursor_of (entered levels at s c) }
{
    if levels == 0 || MAX_STATEMENTS <= c.statements as usize {
        return Err(Refused::new(Refusal::TooGreat, at));
    }
    let mut next = c;
    next.statements = c.statements + 1;
    Ok(next)
}

// The code of a statement that is due, with so many levels left for the statement.
#[tactic(auto, unfolding(crate::specs::Heads::statement_coded, crate::specs::Heads::entered))]
pub fn statement_at(request: &[u8], c: Cursor, levels: usize) -> Result<Coded, Refused<Refusal>>
    ensures { result ≡ result_of (coded_at c.at) (statement_coded levels request.now c) }
{
    let (code, first) = next_code::<StatementCode>(request, c)?;
    let after = enter(first, c.at, levels)?;
    Ok(Coded {
        code,
        at: c.at,
        after,
    })
}

// An end, with the cursor after it, or none where another code stands, which stays.
#[tactic(auto, unfolding(grammar::specs::Reader::peek, grammar::specs::Reader::taken))]
pub fn ending_at(request: &[u8], c: Cursor) -> Result<Option<Cursor>, Refused<Refusal>>
    ensures { result ≡ ending_of (peek request.now c) }
{
    let (x, first) = next_byte(request, c)?;
    if x == END {
        return Ok(Some(first));
    }
    Ok(None)
}
