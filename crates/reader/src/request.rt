// A whole request: version, the outer begin, messages, statements, the end, and nothing more.
ghost use Rattle.std.specs.Prelude.{◌≡◌, []};
ghost use Rattle.grammar.specs.Reader.{count_statement as countStatementAt};
ghost use Rattle.grammar.specs.Reading.{request as request_of, version as version_at, start};
ghost use Rattle.grammar.specs.Internal.Steps.{answer_of, cursor_of, same};
ghost use Rattle.openings.specs.Streams.{relations};
ghost use Rattle.reader.specs.Lent.{Kept, tables_in};
ghost use Rattle.reader.specs.Request.{Requested, Begun, Beside as BesideIt, head_of, body_of, end_of};

use crate::rows::Rows;
use crate::statements::{Level, read_statements};
use classes::version_of;
use grammar::{Cursor, Passed, Read, Refusal};
use messages::declared::{AROUND, row_count};
use messages::reading::read_messages;
use openings::beside::Beside;
use scopes::scope::SCOPE;
use steps::{due_code, next_byte};
use tables::statements::{put_boolean, put_statement};
use wire::blr::{BEGIN, EOC, VERSION4, VERSION5};
use wire::codes::Version;
use wire::limits::{MAX_DEPTH, MAX_STATEMENTS};
use wire::refused::Refused;

// The outer begin is counted as a statement.
#[tactic(auto, unfolding(grammar::specs::Reader::count_statement))]
fn count_statement(at: usize, c: Cursor) -> Passed
    ensures { result ≡ cursor_of (countStatementAt at [] c) }
{
    if MAX_STATEMENTS <= c.statements as usize {
        return Err(Refused::new(Refusal::TooGreat, at));
    }
    let mut next = c;
    next.statements = c.statements + 1;
    Ok(next)
}

// The first byte: 4 or 5.
#[tactic(auto, unfolding(grammar::specs::Reading::version, grammar::specs::Reader::tested, wire::specs::Versions::is_version))]
fn read_version(request: &[u8], c: Cursor) -> Read<Version>
    ensures { result ≡ answer_of same (version_at request.now c) }
{
    let (b, after) = next_byte(request, c)?;
    if b != VERSION4 && b != VERSION5 {
        return Err(Refused::new(Refusal::BadVersion, c.at));
    }
    Ok((version_of(b), after))
}

// The version and the outer begin.
#[tactic(auto, unfolding(crate::specs::Request::head_of, grammar::specs::Reader::count_statement))]
fn head(request: &[u8]) -> Read<Version>
    ensures { result ≡ answer_of same (head_of request.now start) }
{
    let first = Cursor {
        at: 0,
        statements: 0,
        contexts: 0,
        conditions: 0,
    };
    let (version, c) = read_version(request, first)?;
    let after = due_code(request, c, BEGIN, Refusal::NotDue)?;
    Ok((version, count_statement(c.at, after)?))
}

// The end of a request, and nothing more.
#[tactic(auto, unfolding(crate::specs::Request::end_of, grammar::specs::Reading::nothing_more))]
fn end(request: &[u8], c: Cursor) -> Passed
    ensures { result ≡ cursor_of (end_of request.now c) }
{
    let after = due_code(request, c, EOC, Refusal::NotDue)?;
    if after.at != request.len() {
        return Err(Refused::new(Refusal::BytesAfterEnd, after.at));
    }
    Ok(after)
}

// Messages, statements and the end, after the head of a request of a version: the rows of parameters.
fn body(
    request: &[u8],
    dictionary: &[u8],
    parameters: &mut [u32],
    rows: &mut Rows,
    c: Cursor,
    v: Version,
) -> Read<usize>
    requires { Begun request.now dictionary.now parameters.old c }
    ensures kept { Kept rows.old rows.new }
    ensures read { Requested (body_of v (relations dictionary.now) request.now c)
        dictionary.now parameters.old parameters.new (tables_in rows.old) (tables_in rows.new) result }
{
    let mut around = [0u32; AROUND];
    let nothing = [0u16; SCOPE];
    let first = read_messages(request, parameters, &mut around, c, v)?;
    let beside = Beside {
        request,
        dictionary,
        around: &around,
    };
    let outer = Level {
        left: MAX_DEPTH - 1,
        parent: 1,
    };
    put_boolean(rows.statements, 0, 0);
    let last = read_statements(&beside, &nothing, rows, first, outer)?;
    put_statement(rows.statements, 0, 1, BEGIN, 0, last.at);
    let after = end(request, last)?;
    Ok((row_count(&around), after))
}

// A request, with its rows in the tables: the rows of parameters.
pub(crate) fn read_whole(
    request: &[u8],
    dictionary: &[u8],
    parameters: &mut [u32],
    rows: &mut Rows,
) -> Read<usize>
    requires { BesideIt request.now dictionary.now parameters.old }
    ensures kept { Kept rows.old rows.new }
    ensures read { Requested (request_of (relations dictionary.now) request.now start)
        dictionary.now parameters.old parameters.new (tables_in rows.old) (tables_in rows.new) result }
{
    let (version, c) = head(request)?;
    body(request, dictionary, parameters, rows, c, version)
}
