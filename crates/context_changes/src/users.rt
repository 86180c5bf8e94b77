//! When two users are one. Sessions of one user share what its context is told.

ghost use Rattle.std.specs.Prelude.{◌≡◌, ◌↔◌, IsTrue};
ghost use Rattle.context_changes.specs.Users.{same_access, same_user};

use cell_types::CellText;
use doc_model::User;

fn same_access(left: &Option<CellText>, right: &Option<CellText>) -> bool
    ensures { result ≡ same_access left.now right.now }
{
    match (left, right) {
        (None, None) => true,
        (Some(left), Some(right)) => left.as_str() == right.as_str(),
        _ => false,
    }
}

/// Whether two users are equal in all fields.
///
/// Memory: none.
pub fn same_user(left: &User, right: &User) -> bool
    ensures value { result ≡ same_user left.now right.now }
    ensures exact { IsTrue result ↔ (left.now ≡ right.now) }
{
    left.token.as_str() == right.token.as_str()
        && same_access(&left.access, &right.access)
        && left.email.as_str() == right.email.as_str()
        && left.name.as_str() == right.name.as_str()
        && left.id == right.id
}
