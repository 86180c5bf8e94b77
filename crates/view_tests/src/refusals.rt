//! Plan: that `refuse` finds memory, and that its table of objections means what is meant, where no
//! table is in the view (`names_the_first_objection`). The names were worked out by hand.

ghost use Rattle.doc_model.specs.Changes.{IsView};

use crate::asking::{Asked, actions_of};
use Asked::{AddData, AddLong, AddTable, RemoveTable, Update};
use doc_model::{Refusal, UserAction, UserActionList, View, ViewTableList};
use std::alloc::{AllocError, Global};
use user_objections::refuse;

// Actions, and the names of their refusals; empty where there is none.
static ASKED: [(Asked, &str); 17] = [
    (Update("_grist_Tables"), "MetaTable"),
    (Update("_grist_ACLRules"), "NoSuchTable"),
    (Update("Nope"), "NoSuchTable"),
    (RemoveTable("_grist_ACLRules"), "MetaTable"),
    (RemoveTable("Nope"), "NoSuchTable"),
    (AddTable("_grist_Tables", "in", "Int", ""), "MetaTable"),
    (AddTable("Work", "A", "Int", ""), ""),
    (AddTable("1x", "A", "Nope", ""), "BadName"),
    (AddTable("Work", "in", "Nope", ""), "BadName"),
    (AddTable("Work", "A", "Nope", ""), "BadValue"),
    (AddTable("Work", "A", "Ref:in", ""), "BadValue"),
    (AddTable("Work", "A", "RefList:Work", ""), ""),
    (AddTable("Work", "A", "Ref:Nope", "$A +"), ""),
    (AddData(""), ""),
    (AddData("$A"), "BadValue"),
    (AddLong(65536), ""),
    (AddLong(65537), "BadValue"),
];

fn empty(alloc: Global) -> View
    ensures { IsView result.tables }
{
    View {
        tables: ViewTableList::new(alloc),
    }
}

// Whether this is the name of the refusal, or empty and there is none.
fn is_name(answer: Result<Option<Refusal>, AllocError>, want: &str) -> bool {
    match answer {
        Ok(None) => want.is_empty(),
        Ok(Some(refusal)) => refusal.name() == want,
        Err(_) => false,
    }
}

// Whether the action was made, and is refused by this name.
fn is_refused(alloc: Global, actions: &Result<UserActionList, AllocError>, want: &str) -> bool {
    let Ok(actions) = actions else {
        return false;
    };
    let Some(action) = actions.as_slice().first() else {
        return false;
    };
    is_name(refuse(alloc, &empty(alloc), action), want)
}

fn refuses(alloc: Global, asked: Asked, want: &str) -> bool {
    is_refused(alloc, &actions_of(alloc, asked), want)
}

#[test]
fn names_the_first_objection(rt: HostRuntime) {
    for (index, row) in ASKED.iter().enumerate() {
        assert!(rt;
            refuses(rt.alloc(), row.0, row.1),
            "not {} at {index}",
            row.1
        );
    }
}
