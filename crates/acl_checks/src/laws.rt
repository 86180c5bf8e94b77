//! Laws of checks.

ghost use Rattle.acl_checks.specs.Unchecked.{UncheckedLaw};

/// Where there is no rule, and the user may do everything without one, nothing is denied.
pub fn unchecked_law()
    ensures { UncheckedLaw }
{}
