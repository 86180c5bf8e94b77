//! A law of free ids.

ghost use Rattle.name_rules.specs.FreshLaw.{FreshLaw};

/// What `free_name` makes of a name is a name and is free, beside fewer than 2^60 ids.
pub fn fresh_law()
    ensures { FreshLaw }
{}
