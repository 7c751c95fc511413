// Booleans, and the tests of values in them.
// Kept, here and below: the scope changes below a head and contexts are written: a struct of both with what is read would be made anew at
// each call: no plainer.
ghost use Rattle.std.specs.Prelude.{◌≡◌, true, ◌+◌};
ghost use Rattle.references.specs.Promises.{environment_of};
ghost use Rattle.scopes.specs.Scopes.{scope_of};
ghost use Rattle.grammar.specs.Bytes.{quantifier_code};
ghost use Rattle.expressions.specs.Promises.{Ready, tests_values, TestRead, BooleanRead};

use crate::fits::tested;
use crate::heads::code_at;
use crate::rses::read_rse;
use crate::values::read_value;
use grammar::{Cursor, Kind, Passed, Read};
use openings::beside::Beside;
use scopes::kinds::{all_one_kind, both_text, one_kind};
use scopes::scope::SCOPE;
use wire::blr::{ANY, UNIQUE};
use wire::codes::{BooleanCode, Quantifier};

// The values of a boolean that tests values, whose code stands at a place: one, two or three, each with so many levels left.
#[cycle(reading)]
fn read_test(
    beside: &Beside,
    scope: &[u16; SCOPE],
    contexts: &mut [u32],
    k: BooleanCode,
    at: usize,
    c: Cursor,
    levels: usize,
) -> Read<Option<Kind>>
    requires { (tests_values k ≡ true) × (c.at ≡ at + 1) }
    ensures { Ready beside.now.request.now beside.now.dictionary.now scope.now c levels →
        TestRead levels (environment_of beside.now.dictionary.now beside.now.around.now)
        (scope_of beside.now.dictionary.now scope.now) at k beside.now.request.now c
        contexts.old contexts.new result }
{
    let (x, second) = read_value(beside, scope, contexts, c, levels)?;
    if let BooleanCode::Missing = k {
        return Ok((None, second));
    }
    let (y, third) = read_value(beside, scope, contexts, second, levels)?;
    match k {
        BooleanCode::Search(_) => tested(both_text(x, y), at, third),
        BooleanCode::Between => {
            let (z, after) = read_value(beside, scope, contexts, third, levels)?;
            tested(all_one_kind(x, y, z), at, after)
        }
        _ => tested(one_kind(x, y), at, third),
    }
}

// Kept: the byte is a definition of grammar and the enum is of wire, so that no `From` for u8 can stand here.
fn quantifier_code(q: Quantifier) -> u8
    ensures { result ≡ quantifier_code q }
{
    match q {
        Quantifier::Any => ANY,
        Quantifier::Unique => UNIQUE,
    }
}

// A boolean, with so many levels left for it.
#[cycle(reading)]
pub fn read_boolean(
    beside: &Beside,
    scope: &[u16; SCOPE],
    contexts: &mut [u32],
    c: Cursor,
    levels: usize,
) -> Passed
    ensures { Ready beside.now.request.now beside.now.dictionary.now scope.now c levels →
        BooleanRead levels (environment_of beside.now.dictionary.now beside.now.around.now)
        (scope_of beside.now.dictionary.now scope.now) beside.now.request.now c contexts.old contexts.new result }
{
    let (k, first) = code_at::<BooleanCode>(beside.request, c, levels)?;
    let below = levels - 1;
    match k {
        BooleanCode::Connect(_) => {
            let second = read_boolean(beside, scope, contexts, first, below)?;
            read_boolean(beside, scope, contexts, second, below)
        }
        BooleanCode::Not => read_boolean(beside, scope, contexts, first, below),
        BooleanCode::Quantify(q) => {
            read_rse(beside, scope, contexts, quantifier_code(q), first, below)
        }
        _ => {
            let (_, after) = read_test(beside, scope, contexts, k, c.at, first, below)?;
            Ok(after)
        }
    }
}
