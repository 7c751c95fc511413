// What a target asks beyond a value.
ghost use Rattle.std.specs.Prelude.{◌≡◌};
ghost use Rattle.references.specs.Promises.{allowed_by, place_of};

use grammar::Role;

// The place of the assignment; a value has none.
pub(crate) fn target_place(role: Role) -> usize
    ensures { result ≡ place_of role }
{
    match role {
        Role::AsValue => 0,
        Role::AsTarget(p) => p,
    }
}

// Whether a role allows what a target may name or not; a value may name anything.
pub(crate) fn allowed(role: Role, target: bool) -> bool
    ensures { result ≡ allowed_by role target }
{
    match role {
        Role::AsValue => true,
        Role::AsTarget(_) => target,
    }
}
