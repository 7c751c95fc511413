// Statements that hold no other, and the receives of a select up to their message.
// Kept, here and below: public functions, which keep their parameters; they have no dictionary, so that they take no Beside.
ghost use Rattle.std.specs.Prelude.{◌≡◌, List, ℕ};
ghost use Rattle.grammar.specs.Statements.{erase_under, leave_under};
ghost use Rattle.grammar.specs.Internal.Steps.{cursor_of};
ghost use Rattle.references.specs.Promises.{environment_of};
ghost use Rattle.scopes.specs.Scopes.{scope_of};
ghost use Rattle.openings.specs.Headings.{message_answer};
ghost use Rattle.openings.specs.Selected.{Holds, selected, receive_coded};

use crate::heads::enter;
use crate::opening::{exchanged_message, for_context};
use grammar::{Cursor, Passed, Read, Refusal};
use messages::declared::AROUND;
use scopes::scope::{SCOPE, has_label};
use steps::{due_code, next_number};
use wire::blr::RECEIVE;
use wire::numbers::MessageNumber;
use wire::refused::Refused;

// A message number is a byte.
pub const MESSAGE_NUMBERS: usize = 256;

// An erase after its code at a place.
pub fn erase(request: &[u8], scope: &[u16; SCOPE], at: usize, c: Cursor) -> Passed
    ensures { (d : List ℕ) → result ≡ cursor_of (erase_under (scope_of d scope.now) at request.now c) }
{
    let (_, next) = for_context(request, scope, at, c)?;
    Ok(next)
}

// A leave after its code at a place.
#[tactic(auto, unfolding(grammar::specs::Statements::leave_under, scopes::specs::Scopes::scope_of))]
pub fn leave(request: &[u8], scope: &[u16; SCOPE], at: usize, c: Cursor) -> Passed
    ensures { (d : List ℕ) → result ≡ cursor_of (leave_under (scope_of d scope.now) at request.now c) }
{
    let (n, next) = next_number(request, c)?;
    if !has_label(scope, n) {
        return Err(Refused::new(Refusal::Misplaced, at));
    }
    Ok(next)
}

// The message of a receive whose code stands at a place: declared, and not yet selected.
fn selected_message(
    request: &[u8],
    around: &[u32; AROUND],
    scope: &[u16; SCOPE],
    seen: &[bool; MESSAGE_NUMBERS],
    at: usize,
    c: Cursor,
) -> Read<MessageNumber>
    ensures { (d ms : List ℕ) → Holds seen.now ms →
        result ≡ message_answer (selected (environment_of d around.now) (scope_of d scope.now) ms at
        request.now c) }
{
    let (m, next) = exchanged_message(request, around, scope, at, c)?;
    if seen[m.0 as usize] {
        return Err(Refused::new(Refusal::BadMessage, c.at));
    }
    Ok((m, next))
}

// A receive of a select up to its message, with so many levels left for it, beside the messages of those before.
#[tactic(auto, unfolding(crate::specs::Selected::receive_coded, crate::specs::Selected::selected, crate::specs::Heads::entered, grammar::specs::Reader::code, grammar::specs::Reader::tested))]
pub fn receive_at(
    request: &[u8],
    around: &[u32; AROUND],
    scope: &[u16; SCOPE],
    seen: &[bool; MESSAGE_NUMBERS],
    c: Cursor,
    levels: usize,
) -> Read<MessageNumber>
    ensures { (d ms : List ℕ) → Holds seen.now ms →
        result ≡ message_answer (receive_coded levels (environment_of d around.now) (scope_of d scope.now) ms
        request.now c) }
{
    let first = due_code(request, c, RECEIVE, Refusal::NotDue)?;
    let counted = enter(first, c.at, levels)?;
    selected_message(request, around, scope, seen, c.at, counted)
}
