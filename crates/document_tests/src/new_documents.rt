//! Plan: that a new document is made and told (`a_new_document_has_one_plain_table`), which no
//! clause says; the traps of order are computed in the proofs of `doc_model`.

use doc_model::DocReader;
use row_tables::RowTables;
use std::alloc::{AllocError, Global};

// Whether the document has one plain table, of this id and three columns.
fn is_new(document: &RowTables, id: &str) -> bool {
    match document.table(4) {
        Some(first) => {
            first.as_str() == id
                && document.table(5).is_none()
                && document.column(first, 2).is_some()
                && document.column(first, 3).is_none()
                && document.rows(first).is_some()
        }
        None => false,
    }
}

fn is_made(document: &Result<RowTables, AllocError>, id: &str) -> bool {
    match document {
        Ok(document) => is_new(document, id),
        Err(_) => false,
    }
}

fn makes_one(alloc: Global) -> bool {
    is_made(&RowTables::new_document(alloc), "Table1")
}

#[test]
fn a_new_document_has_one_plain_table(rt: HostRuntime) {
    assert!(rt; makes_one(rt.alloc()));
}
