// Fields, by the context that they stand in.
ghost use Rattle.std.specs.Prelude.{ℕ, ◌≡◌, List};
ghost use Rattle.dictionary.specs.Internal.Walk.{relation_at};
ghost use Rattle.grammar.specs.Values.{by_name, by_number};
ghost use Rattle.references.specs.Promises.{entry_step, field_in, FieldContext};

use crate::role::{allowed, target_place};
use classes::field_due;
use dictionary::field::{described, field_entry, named_entry};
use dictionary::names::name_at;
use grammar::{Cursor, Kind, Read, Refusal, Role};
use scopes::kinds::type_fit;
use scopes::scope::{SCOPE, find, is_target, relation_at};
use steps::{next_number, next_word, skip_name};
use wire::codes::Version;
use wire::refused::Refused;

// The field whose entry was looked up for a name: its kind, or a refusal at its code where the version may not name it.
#[tactic(auto, unfolding(grammar::specs::Kinds::format_kind))]
fn found_field(
    dictionary: &[u8],
    found: Option<usize>,
    v: Version,
    named: usize,
    at: usize,
    after: Cursor,
) -> Read<Option<Kind>>
    ensures { result ≡ entry_step v dictionary.now found named at after }
{
    let Some(q) = found else {
        return Err(Refused::new(Refusal::Unknown, named));
    };
    let x = described(dictionary, q);
    if !field_due(v, x.data_type) {
        return Err(Refused::new(Refusal::Unfit, at));
    }
    Ok((Some(type_fit(x.data_type, x.scale)), after))
}

// The counted name of a field of a relation, whose code stands at a place.
pub(crate) fn read_named(
    request: &[u8],
    dictionary: &[u8],
    relation: usize,
    v: Version,
    at: usize,
    c: Cursor,
) -> Read<Option<Kind>>
    ensures { result ≡ field_in v (relation_at dictionary.now relation) by_name at request.now c }
{
    let after = skip_name(request, c)?;
    let found = named_entry(dictionary, relation, name_at(request, c.at));
    found_field(dictionary, found, v, c.at, at, after)
}

// The id word of a field of a relation, whose code stands at a place.
pub(crate) fn read_numbered(
    request: &[u8],
    dictionary: &[u8],
    relation: usize,
    v: Version,
    at: usize,
    c: Cursor,
) -> Read<Option<Kind>>
    ensures { result ≡ field_in v (relation_at dictionary.now relation) by_number at request.now c }
{
    let (i, after) = next_word(request, c)?;
    let found = field_entry(dictionary, relation, i as usize);
    found_field(dictionary, found, v, c.at, at, after)
}

// The context of a field after its code: the place of its relation's entry. It is the same beside any messages and for a name or an id.
pub(crate) fn read_context(
    request: &[u8],
    scope: &[u16; SCOPE],
    role: Role,
    c: Cursor,
) -> Read<usize>
    ensures { (d : List ℕ) → FieldContext d scope.now role request.now c result }
{
    let (n, first) = next_number(request, c)?;
    let Some(i) = find(scope, n) else {
        return Err(Refused::new(Refusal::BadContext, c.at));
    };
    // a field target names the context of the nearest store or modify around
    if !allowed(role, is_target(scope, n)) {
        return Err(Refused::new(Refusal::Misplaced, target_place(role)));
    }
    Ok((relation_at(scope, i), first))
}
