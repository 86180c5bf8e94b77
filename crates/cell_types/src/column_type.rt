//! Types of columns.

use crate::{Name, Same};

/// What a column's cells are fitted to. The table that a reference names need not exist.
#[derive(Clone, Debug, Drop)]
pub enum ColType {
    Any,
    Text,
    Int,
    Bool,
    Date,
    Ref(Name),
    RefList(Name),
}

impl Same for ColType {
    fn same_as(&self, other: &ColType) -> bool {
        match (self, other) {
            (ColType::Any, ColType::Any) => true,
            (ColType::Text, ColType::Text) => true,
            (ColType::Int, ColType::Int) => true,
            (ColType::Bool, ColType::Bool) => true,
            (ColType::Date, ColType::Date) => true,
            (ColType::Ref(left), ColType::Ref(right)) => left.same_as(right),
            (ColType::RefList(left), ColType::RefList(right)) => left.same_as(right),
            _ => false,
        }
    }
}
