// References: what a value or a target names.
ghost use Rattle.std.specs.Prelude.{◌≡◌};
ghost use Rattle.grammar.specs.Internal.Steps.{answer_of};
ghost use Rattle.grammar.specs.Values.{read_target};
ghost use Rattle.scopes.specs.Scopes.{scope_of};
ghost use Rattle.references.specs.Promises.{environment_of, reference_fit, reference_step};

use crate::field::{read_context, read_named, read_numbered};
use crate::parameter::{read_flag, read_message, read_word};
use grammar::{Cursor, Kind, Read, Role};
use messages::declared::{AROUND, version};
use scopes::scope::SCOPE;
use steps::next_code;
use wire::codes::ReferenceCode;

// A reference whose code stands at a place.
pub fn read_reference(
    request: &[u8],
    dictionary: &[u8],
    around: &[u32; AROUND],
    scope: &[u16; SCOPE],
    role: Role,
    at: usize,
    code: ReferenceCode,
    c: Cursor,
) -> Read<Option<Kind>>
    ensures { result ≡ reference_step (environment_of dictionary.now around.now)
        (scope_of dictionary.now scope.now) role at code request.now c }
{
    match code {
        ReferenceCode::Field => {
            let (relation, first) = read_context(request, scope, role, c)?;
            return read_named(request, dictionary, relation, version(around), at, first);
        }
        ReferenceCode::Fid => {
            let (relation, first) = read_context(request, scope, role, c)?;
            return read_numbered(request, dictionary, relation, version(around), at, first);
        }
        ReferenceCode::Parameter => {
            let (x, first) = read_message(request, around, scope, role, c)?;
            return read_word(request, around, x, first);
        }
        ReferenceCode::Parameter2 => {
            let (x, first) = read_message(request, around, scope, role, c)?;
            let (fit, second) = read_word(request, around, x, first)?;
            return read_flag(request, around, x, fit, at, second);
        }
    }
}

// The target of the assignment at a place. Request, dictionary and array are no struct: each arm above takes two of the three.
#[tactic(auto, unfolding(grammar::specs::Values::read_target, crate::specs::Promises::reference_step))]
pub fn read_target(
    request: &[u8],
    dictionary: &[u8],
    around: &[u32; AROUND],
    scope: &[u16; SCOPE],
    at: usize,
    c: Cursor,
) -> Read<Option<Kind>>
    ensures { result ≡ answer_of (reference_fit (environment_of dictionary.now around.now)
        (scope_of dictionary.now scope.now))
        (read_target (environment_of dictionary.now around.now)
        (scope_of dictionary.now scope.now) at request.now c) }
{
    let (code, first) = next_code(request, c)?;
    read_reference(
        request,
        dictionary,
        around,
        scope,
        Role::AsTarget(at),
        c.at,
        code,
        first,
    )
}
