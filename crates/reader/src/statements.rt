// Statements: one cycle of calls. A refusal is handed back as it is.
// Kept in all that follow: what Given says ties scope, cursor and level, which change at each call, so that a struct of them, and with
// this fact, would be made and proved anew for each: no plainer. The tables of numbers are those of C, and a scope is an array of
// numbers, since nothing is on the heap.
ghost use Rattle.std.specs.Prelude.{◌≡◌, true, ℕ, ◌+◌, ◌-◌, ◌<◌, ◌≤◌};
ghost use Rattle.wire.specs.Limits.{max_statements};
ghost use Rattle.expressions.specs.Promises.{Ready};
ghost use Rattle.reader.specs.Given.{Given, Inside, Below, opens_scope};
ghost use Rattle.reader.specs.Lent.{Kept, tables_in, environment_in, scope_in};
ghost use Rattle.reader.specs.Readers.{level_below, StatementRead, StatementsRead, CodedRead, HeadingRead, AssignmentRead, IfRead, SelectRead};

use crate::rows::Rows;
use expressions::booleans::read_boolean;
use expressions::clauses::read_clauses;
use expressions::fits::tested;
use expressions::values::read_value;
use grammar::{Cursor, Passed, Read, Refusal};
use openings::beside::Beside;
use openings::heads::{Coded, ending_at, statement_at};
use openings::opening::{read_opened, read_plain};
use openings::parts::{MESSAGE_NUMBERS, erase, leave, receive_at};
use references::reference::read_target;
use scopes::kinds::one_kind;
use scopes::scope::SCOPE;
use steps::due_code;
use tables::conditions::note;
use tables::contexts::close;
use tables::statements::{finish, put_boolean};
use wire::blr::END;
use wire::codes::StatementCode;
use wire::limits::MAX_STATEMENTS;
use wire::refused::Refused;

// A statement's level: how many levels are left for it, and the row of the statement around it plus one.
#[derive(Clone, Copy)]
pub(crate) struct Level {
    pub left: usize,
    pub parent: usize,
}

// The level of a statement under another, which is counted.
fn below(c: Cursor, level: Level) -> Level
    requires { 0 < level.left }
    ensures { result ≡ level_below c level }
{
    Level {
        left: level.left - 1,
        parent: c.statements as usize,
    }
}

// Statements up to an end, so many at most.
#[cycle(statements)]
pub(crate) fn read_statements(
    beside: &Beside,
    scope: &[u16; SCOPE],
    rows: &mut Rows,
    c: Cursor,
    level: Level,
) -> Passed
    requires { (Given beside.now.request.now beside.now.dictionary.now scope.now c level.left) × (level.parent ≤ max_statements) }
    ensures kept { Kept rows.old rows.new }
    ensures read { StatementsRead level (environment_in beside.now)
        (scope_in beside.now scope.now) beside.now.request.now c
        (tables_in rows.old) (tables_in rows.new) result }
{
    let mut at = c;
    for _ in 0..MAX_STATEMENTS {
        if let Some(after) = ending_at(beside.request, at)? {
            return Ok(after);
        }
        at = read_statement(beside, scope, rows, at, level)?;
    }
    due_code(beside.request, at, END, Refusal::TooGreat)
}

// A statement: its code, a level for it, what stands under the code, and its row.
#[cycle(statements)]
fn read_statement(
    beside: &Beside,
    scope: &[u16; SCOPE],
    rows: &mut Rows,
    c: Cursor,
    level: Level,
) -> Passed
    requires { (Given beside.now.request.now beside.now.dictionary.now scope.now c level.left) × (level.parent ≤ max_statements) }
    ensures kept { Kept rows.old rows.new }
    ensures read { StatementRead level (environment_in beside.now)
        (scope_in beside.now scope.now) beside.now.request.now c
        (tables_in rows.old) (tables_in rows.new) result }
{
    let x = statement_at(beside.request, c, level.left)?;
    put_boolean(rows.statements, c.statements as usize, 0);
    let under = read_coded(beside, scope, rows, x, level);
    finish(beside.request, rows.statements, c, level.parent, under);
    under
}

// A statement after its code, which is counted.
#[cycle(statements)]
fn read_coded(
    beside: &Beside,
    scope: &[u16; SCOPE],
    rows: &mut Rows,
    x: Coded,
    level: Level,
) -> Passed
    requires { Inside beside.now.request.now beside.now.dictionary.now scope.now x level.left }
    ensures kept { Kept rows.old rows.new }
    ensures read { CodedRead (level.left - 1) (environment_in beside.now)
        (scope_in beside.now scope.now) beside.now.request.now x
        (tables_in rows.old) (tables_in rows.new) result }
{
    let k = x.code;
    let c = x.after;
    let inner = below(c, level);
    match k {
        StatementCode::Assignment => read_assignment(beside, scope, rows.contexts, x, inner.left),
        StatementCode::Erase => erase(beside.request, scope, x.at, c),
        StatementCode::Leave => leave(beside.request, scope, x.at, c),
        StatementCode::Begin => read_statements(beside, scope, rows, c, inner),
        StatementCode::If => read_if(beside, scope, rows, c, inner),
        StatementCode::Select => read_select(beside, scope, rows, c, inner),
        StatementCode::Loop | StatementCode::Handler | StatementCode::Receive => {
            let first = read_plain(beside.request, beside.around, scope, x)?;
            read_statement(beside, scope, rows, first, inner)
        }
        _ => read_opening(beside, scope, rows, x, inner),
    }
}

// An assignment: a value, and a target of its kind. In a frame of its own: what it works with would stand in that of each statement.
#[inline(never)]
fn read_assignment(
    beside: &Beside,
    scope: &[u16; SCOPE],
    contexts: &mut [u32],
    x: Coded,
    levels: usize,
) -> Passed
    requires { (Ready beside.now.request.now beside.now.dictionary.now scope.now x.after levels) × (x.after.at ≡ x.at + 1) }
    ensures { AssignmentRead levels (environment_in beside.now)
        (scope_in beside.now scope.now) beside.now.request.now x
        contexts.old contexts.new result }
{
    let (a, second) = read_value(beside, scope, contexts, x.after, levels)?;
    let (b, after) = read_target(
        beside.request,
        beside.dictionary,
        beside.around,
        scope,
        x.at,
        second,
    )?;
    let (_, last) = tested(one_kind(a, b), x.at, after)?;
    Ok(last)
}

// A heading, or the streams of a for with its clauses, whose boolean gets a number. What is read is where its scope begins; then stands
// its statement. In a frame of its own, as above.
#[inline(never)]
fn read_heading(
    beside: &Beside,
    rows: &mut Rows,
    inside: &mut [u16; SCOPE],
    x: Coded,
    levels: usize,
) -> Read<Cursor>
    requires { (Inside beside.now.request.now beside.now.dictionary.now inside.old x (levels + 1)) × (opens_scope x.code ≡ true) }
    ensures kept { Kept rows.old rows.new }
    ensures read { HeadingRead levels (environment_in beside.now) beside.now.request.now
        beside.now.dictionary.now x (tables_in rows.old) (tables_in rows.new) inside.old inside.new result }
{
    let k = x.code;
    let c = x.after;
    let first = read_opened(beside, rows.contexts, inside, x)?;
    let StatementCode::For = k else {
        return Ok((first, first));
    };
    let (such, second) = read_clauses(beside, inside, rows.contexts, first, levels)?;
    let at = note(
        rows.statements,
        rows.conditions,
        c.statements as usize - 1,
        second,
        such,
    );
    Ok((first, at))
}

// A statement that opens a scope: a for, a modify, a store, a send or a label. The rows of its contexts get their scope at its end.
#[cycle(statements)]
fn read_opening(
    beside: &Beside,
    scope: &[u16; SCOPE],
    rows: &mut Rows,
    x: Coded,
    level: Level,
) -> Passed
    requires { (Below beside.now.request.now beside.now.dictionary.now scope.now x level) × (opens_scope x.code ≡ true) }
    ensures kept { Kept rows.old rows.new }
    ensures read { CodedRead level.left (environment_in beside.now)
        (scope_in beside.now scope.now) beside.now.request.now x
        (tables_in rows.old) (tables_in rows.new) result }
{
    let mut inside = *scope;
    let (first, at) = read_heading(beside, rows, &mut inside, x, level.left)?;
    let under = read_statement(beside, &inside, rows, at, level);
    close(rows.contexts, x.after.contexts as usize, first, under);
    under
}

// An if: its condition, a statement, and an end or a second statement.
#[cycle(statements)]
fn read_if(
    beside: &Beside,
    scope: &[u16; SCOPE],
    rows: &mut Rows,
    c: Cursor,
    level: Level,
) -> Passed
    requires { (Given beside.now.request.now beside.now.dictionary.now scope.now c level.left) × ((level.parent ≡ c.statements) × (c.conditions < c.statements)) }
    ensures kept { Kept rows.old rows.new }
    ensures read { (p : ℕ) → c.at ≡ p + 1 → IfRead level.left (environment_in beside.now)
        (scope_in beside.now scope.now) beside.now.request.now p c
        (tables_in rows.old) (tables_in rows.new) result }
{
    let first = read_boolean(beside, scope, rows.contexts, c, level.left)?;
    let noted = note(
        rows.statements,
        rows.conditions,
        c.statements as usize - 1,
        first,
        Some(c.at),
    );
    let second = read_statement(beside, scope, rows, noted, level)?;
    match ending_at(beside.request, second)? {
        Some(after) => Ok(after),
        None => read_statement(beside, scope, rows, second, level),
    }
}

// The receives of a select up to its end, so many at most: each of another message.
#[cycle(statements)]
fn read_select(
    beside: &Beside,
    scope: &[u16; SCOPE],
    rows: &mut Rows,
    c: Cursor,
    level: Level,
) -> Passed
    requires { (Given beside.now.request.now beside.now.dictionary.now scope.now c level.left) × (level.parent ≤ max_statements) }
    ensures kept { Kept rows.old rows.new }
    ensures read { SelectRead level (environment_in beside.now)
        (scope_in beside.now scope.now) beside.now.request.now c
        (tables_in rows.old) (tables_in rows.new) result }
{
    let mut seen = [false; MESSAGE_NUMBERS];
    let mut at = c;
    for _ in 0..MAX_STATEMENTS {
        let (m, first) = receive_at(beside.request, beside.around, scope, &seen, at, level.left)?;
        put_boolean(rows.statements, at.statements as usize, 0);
        let one = read_statement(beside, scope, rows, first, below(first, level));
        finish(beside.request, rows.statements, at, level.parent, one);
        at = one?;
        seen[m.0 as usize] = true;
        if let Some(after) = ending_at(beside.request, at)? {
            return Ok(after);
        }
    }
    Err(Refused::new(Refusal::TooGreat, at.at))
}
