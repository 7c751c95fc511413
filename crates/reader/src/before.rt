// What is judged before the request's first byte: room in the tables, the length, and the dictionary.
ghost use Rattle.std.specs.Prelude.{◌≡◌};
ghost use Rattle.reader.specs.Request.{before_of};

use dictionary::check::check;
use grammar::Refusal;
use wire::limits::{CONTEXT_TABLE, MAX_REQUEST_BYTES, PARAMETER_TABLE, STATEMENT_TABLE};
use wire::refused::Refused;

// Of three tables that hold so many numbers.
#[tactic(auto, unfolding(crate::specs::Request::before_of))]
pub(crate) fn judge(
    request: &[u8],
    dictionary: &[u8],
    statements: usize,
    parameters: usize,
    contexts: usize,
) -> Result<(), Refused<Refusal>>
    ensures { result ≡ before_of request.now dictionary.now statements parameters contexts }
{
    if statements < STATEMENT_TABLE || parameters < PARAMETER_TABLE || contexts < CONTEXT_TABLE {
        return Err(Refused::new(Refusal::TablesTooShort, 0));
    }
    if MAX_REQUEST_BYTES < request.len() {
        return Err(Refused::new(Refusal::RequestTooLong, 0));
    }
    check(dictionary).map_err(|p| Refused::new(Refusal::BadDictionary, p))
}
