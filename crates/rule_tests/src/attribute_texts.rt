//! Texts that say an attribute of users.
//!
//! `attribute_texts_say_an_attribute` has the forms, and texts that say none, worked out by hand.

use UserProperty::{Email, Name, UserId};
use std::alloc::{AllocError, Global};
use user_attrs::{AttributeRule, UserProperty, read_attribute};

// The name, the table, the column and the property that a text says, if it says an attribute.
type Said = Option<(&'static str, &'static str, &'static str, UserProperty)>;

static TEXTS: [(&str, Said); 20] = [
    (
        r#"{"charId":"Email","lookupColId":"Mail","name":"Person","tableId":"People"}"#,
        Some(("Person", "People", "Mail", Email)),
    ),
    (
        r#" {"tableId": "T", "name": "P", "lookupColId": "C", "charId": "UserID"} "#,
        Some(("P", "T", "C", UserId)),
    ),
    (
        r#"{"charId":"Name","lookupColId":"C","name":"A","name":"B","tableId":"T"}"#,
        Some(("B", "T", "C", Name)),
    ),
    (
        r#"{"charId":"Name","lookupColId":"C","name":"Email","tableId":"T"}"#,
        Some(("Email", "T", "C", Name)),
    ),
    ("", None),
    (" ", None),
    ("null", None),
    (r#"["Email","C","P","T"]"#, None),
    (r#"{"lookupColId":"C","name":"P","tableId":"T"}"#, None),
    (r#"{"charId":"Email","name":"P","tableId":"T"}"#, None),
    (
        r#"{"charId":"Email","lookupColId":"C","tableId":"T"}"#,
        None,
    ),
    (r#"{"charId":"Email","lookupColId":"C","name":"P"}"#, None),
    (
        r#"{"charId":"Email","lookupColId":"C","name":"P","tableId":"T","z":"Z"}"#,
        None,
    ),
    (
        r#"{"charId":"Email","lookupColId":"C","more":1,"name":"P","tableId":"T"}"#,
        None,
    ),
    (
        r#"{"charId":"Access","lookupColId":"C","name":"P","tableId":"T"}"#,
        None,
    ),
    (
        r#"{"charId":"email","lookupColId":"C","name":"P","tableId":"T"}"#,
        None,
    ),
    (
        r#"{"charId":"Email","lookupColId":"id","name":"P","tableId":"T"}"#,
        None,
    ),
    (
        r#"{"charId":"Email","lookupColId":"C","name":"P Q","tableId":"T"}"#,
        None,
    ),
    (
        r#"{"charId":"Email","lookupColId":"C","name":"P","tableId":1}"#,
        None,
    ),
    (
        r#"{"charId":"Email","lookupColId":"C","name":"P","tableId":"T"} {}"#,
        None,
    ),
];

fn is_said(read: &Option<AttributeRule>, said: Said) -> bool {
    match (read, said) {
        (None, None) => true,
        (Some(rule), Some((name, table, column, property))) => {
            rule.name.as_str() == name
                && rule.table.as_str() == table
                && rule.column.as_str() == column
                && rule.property == property
        }
        _ => false,
    }
}

// The first text that says another thing.
fn wrong(alloc: Global) -> Result<&'static str, AllocError> {
    for (text, said) in &TEXTS {
        if !is_said(&read_attribute(alloc, *text)?, *said) {
            return Ok(*text);
        }
    }
    Ok("none")
}

#[test]
fn attribute_texts_say_an_attribute(rt: HostRuntime) {
    assert!(rt; matches!(wrong(rt.alloc()), Ok("none")));
}
