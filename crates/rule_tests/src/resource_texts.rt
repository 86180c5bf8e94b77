//! Texts of resources.
//!
//! `resource_texts_say_what_a_rule_is_about` has the forms, and texts that do not read.

use acl_rules::{Columns, Resource, read_resource};
use cell_types::Name;
use std::alloc::Global;

// What two texts say: nothing, the document, or a table with all its columns or with listed ones.
#[derive(Clone, Copy)]
enum Said {
    Nothing,
    Document,
    All,
    These(&'static str, &'static str),
}

// The text of the table, that of its columns, and what they say.
static TEXTS: [(&str, &str, Said); 14] = [
    ("*", "*", Said::Document),
    ("*", "A", Said::Nothing),
    ("*", "", Said::Nothing),
    ("T", "*", Said::All),
    ("T", "A", Said::These("A", "A")),
    ("T", "B,A", Said::These("B", "A")),
    ("T", "A,A", Said::These("A", "A")),
    ("T", "", Said::Nothing),
    ("T", "A,", Said::Nothing),
    ("T", ",A", Said::Nothing),
    ("T", "A, B", Said::Nothing),
    ("T", "*,A", Said::Nothing),
    ("", "*", Said::Nothing),
    ("_grist_Tables", "*", Said::Nothing),
];

fn is_last(names: &[Name], name: &str) -> bool {
    match names.last() {
        Some(last) => last.as_str() == name,
        None => false,
    }
}

fn is_first(names: &[Name], name: &str) -> bool {
    match names.first() {
        Some(first) => first.as_str() == name,
        None => false,
    }
}

fn are(columns: &Columns, said: Said) -> bool {
    match (columns, said) {
        (Columns::All, Said::All) => true,
        (Columns::These(names), Said::These(first, last)) => {
            is_first(names.as_slice(), first) && is_last(names.as_slice(), last)
        }
        _ => false,
    }
}

fn says(read: &Option<Resource>, table: &str, said: Said) -> bool {
    match read {
        Some(Resource::Table(id, columns)) => id.as_str() == table && are(columns, said),
        Some(Resource::Document) => matches!(said, Said::Document),
        None => matches!(said, Said::Nothing),
    }
}

fn reads_so(alloc: Global, table: &str, columns: &str, said: Said) -> bool {
    match read_resource(alloc, table, columns) {
        Ok(read) => says(&read, table, said),
        Err(_) => false,
    }
}

#[test]
fn resource_texts_say_what_a_rule_is_about(rt: HostRuntime) {
    for row in &TEXTS {
        assert!(rt;
            reads_so(rt.alloc(), row.0, row.1, row.2),
            "not {} {}",
            row.0,
            row.1
        );
    }
}
