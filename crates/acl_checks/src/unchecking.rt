//! Contexts in which nothing is denied.

ghost use Rattle.std.specs.Prelude.{◌≡◌, codes, ◌||◌};
ghost use Rattle.acl_rules.specs.Decided.{is_access};
ghost use Rattle.acl_checks.specs.Unchecked.{are_unchecked};

use acl_rules::Ctx;
use doc_model::User;

// Whether the user may do everything where no rule decides.
fn may_all(user: &User) -> bool
    ensures { result ≡ (is_access user.now.access (codes "owners")
        || is_access user.now.access (codes "editors")) }
{
    match &user.access {
        Some(access) => matches!(access.as_str(), "owners" | "editors"),
        None => false,
    }
}

/// Whether there is no rule, and the user may do everything without one. Then no check is denied.
///
/// Memory: none.
pub fn are_unchecked(ctx: &Ctx) -> bool
    ensures { result ≡ are_unchecked ctx.now }
{
    ctx.book.is_empty() && may_all(&ctx.user.user)
}
