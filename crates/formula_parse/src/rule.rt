//! What only rule formulas ask for: the user's level and attributes, and the row before and after.

use cell_types::Name;

/// An atom of rule formulas. It stands in no formula of a column.
#[derive(Drop)]
pub enum RuleAtom {
    /// `OWNER`
    Owner,
    /// `EDITOR`
    Editor,
    /// `VIEWER`
    Viewer,
    /// `user.NAME`
    User(Name),
    /// `user.NAME.NAME`
    UserAttribute(Name, Name),
    /// `rec.NAME`
    Rec(Name),
    /// `newRec.NAME`
    NewRec(Name),
}

/// What an atom asks, before the name of what is asked for.
#[derive(Clone, Copy)]
pub enum Subject {
    User,
    Rec,
    NewRec,
}
