// Parameters, by the message that they belong to.
ghost use Rattle.std.specs.Prelude.{ℕ, ◌≡◌, List};
ghost use Rattle.references.specs.Promises.{parameter_in, flag_in, ParameterMessage};

use crate::role::{allowed, target_place};
use grammar::{Cursor, Kind, Read, Refusal, Role};
use messages::declared::{AROUND, find, parameter_fit};
use scopes::scope::{SCOPE, has_send};
use steps::{next_number, next_word};
use wire::refused::Refused;

// The word of a parameter of a message.
pub(crate) fn read_word(
    request: &[u8],
    around: &[u32; AROUND],
    x: usize,
    c: Cursor,
) -> Read<Option<Kind>>
    ensures { result ≡ parameter_in around.now x request.now c }
{
    let (i, after) = next_word(request, c)?;
    let fit = parameter_fit(around, x, i);
    if fit.is_none() {
        return Err(Refused::new(Refusal::NoParameter, c.at));
    }
    Ok((fit, after))
}

// The flag word after a parameter of a kind, of the reference whose code stands at a place.
#[tactic(auto, unfolding(crate::specs::Promises::flag_in))]
pub(crate) fn read_flag(
    request: &[u8],
    around: &[u32; AROUND],
    x: usize,
    fit: Option<Kind>,
    at: usize,
    c: Cursor,
) -> Read<Option<Kind>>
    ensures { result ≡ flag_in around.now x fit at request.now c }
{
    match read_word(request, around, x, c)? {
        (Some(Kind::Number(_)), after) => Ok((fit, after)),
        _ => Err(Refused::new(Refusal::Unfit, at)),
    }
}

// The message of a parameter after its code: its index. It is the same beside any dictionary, with a flag or without.
pub(crate) fn read_message(
    request: &[u8],
    around: &[u32; AROUND],
    scope: &[u16; SCOPE],
    role: Role,
    c: Cursor,
) -> Read<usize>
    ensures { (d : List ℕ) → ParameterMessage d around.now scope.now role request.now c result }
{
    let (m, first) = next_number(request, c)?;
    let Some(x) = find(around, m) else {
        return Err(Refused::new(Refusal::BadMessage, c.at));
    };
    // a parameter target stands inside a send of its message
    if !allowed(role, has_send(scope, m)) {
        return Err(Refused::new(Refusal::Misplaced, target_place(role)));
    }
    Ok((x, first))
}
