//! Plan: the script of a generated run of three rows, entry by entry, beside the lines that spell
//! its requests (`scripts_ask_by_these_lines`), and the users of such runs
//! (`scripts_have_these_users`). What is drawn from 3 was worked out by Python 3.

use crate::requests::is_shown_user;
use crate::texts::is_text;
use cell_types::Name;
use doc_model::{Entry, Request, User};
use grist_json::{Frame, read_frame};
use run_generator::{Generator, generated_users};
use std::alloc::{AllocError, Global};

const SCRIPT: &str = concat!(
    r#"{"line":{"method":"openDoc","token":"g1"},"session":"s1"}
{"line":{"method":"openDoc","token":"g2"},"session":"s2"}
{"line":{"actions":[["AddTable","Work",[{"id":"N","type":"Int"},{"id":"K","type":"Int"},"#,
    r#"{"formula":"$N // 3","id":"Q","type":"Int"},"#,
    r#"{"formula":"SUM(Work.lookupRecords(K=$K).N)","id":"S","type":"Int"}]]],"#,
    r#""method":"applyUserActions"},"session":"s1"}
{"line":{"actions":[["AddRecord","_grist_ACLResources",null,{"colIds":"*","tableId":"Work"}],"#,
    r#"["AddRecord","_grist_ACLRules",null,{"aclFormula":"user.Access == EDITOR and rec.N < 0","#,
    r#""memo":"negative","permissionsText":"-U","resource":1}]],"#,
    r#""method":"applyUserActions"},"session":"s1"}
{"line":{"actions":[["BulkAddRecord","Work",[null,null,null],{"K":[61,95,89],"#,
    r#""N":[-68,202,480]}]],"method":"applyUserActions"},"session":"s1"}
{"line":{"actions":[["UpdateRecord","Work",1,{"N":-210}]],"#,
    r#""method":"applyUserActions"},"session":"s2"}
{"line":{"actions":[["UpdateRecord","Work",2,{"N":319}]],"#,
    r#""method":"applyUserActions"},"session":"s2"}
{"line":{"actions":[["UpdateRecord","Work",3,{"N":-428}]],"#,
    r#""method":"applyUserActions"},"session":"s2"}
{"line":{"method":"sync"},"session":"s1"}
{"line":{"method":"sync"},"session":"s2"}"#,
);

// Name, email, number, token and access.
static USERS: [&str; 2] = ["g1 g1@x.org 1 g1 owners", "g2 g2@x.org 2 g2 editors"];

fn shown(alloc: Global, session: &Name, request: &Request) -> Result<String, AllocError> {
    format!(in alloc; "{} {request:?}", session.as_str())
}

fn is_asked(alloc: Global, entry: &Entry, frame: &Frame) -> bool {
    match shown(alloc, &frame.session, &frame.request) {
        Ok(want) => is_text(&shown(alloc, &entry.session, &entry.request), want.as_str()),
        Err(_) => false,
    }
}

// Whether the entry is of no line, was kept, and asks for what this line spells.
fn is_spelled(alloc: Global, entry: &Entry, line: &str) -> bool {
    match read_frame(alloc, line.as_bytes()) {
        Ok(Some(frame)) => entry.size == 0 && entry.kept && is_asked(alloc, entry, &frame),
        _ => false,
    }
}

fn is_next(alloc: Global, script: &mut Generator, line: &str) -> bool {
    match script.next(alloc) {
        Ok(Some(entry)) => is_spelled(alloc, &entry, line),
        _ => false,
    }
}

// The first line that is not the next of the script, or that the script goes on behind the last.
fn wrong(alloc: Global) -> &'static str {
    let mut script = Generator::new(3);
    for line in SCRIPT.lines() {
        if !is_next(alloc, &mut script, line) {
            return line;
        }
    }
    match script.next(alloc) {
        Ok(None) => "none",
        _ => "it goes on",
    }
}

#[test]
fn scripts_ask_by_these_lines(rt: HostRuntime) {
    assert!(rt; wrong(rt.alloc()) == "none");
}

fn are_users(alloc: Global, users: &[User]) -> bool {
    users.len() == USERS.len()
        && users
            .iter()
            .zip(USERS.iter())
            .all(|(user, want)| is_shown_user(alloc, user, *want))
}

fn has_users(alloc: Global) -> Result<bool, AllocError> {
    let users = generated_users(alloc)?;
    Ok(are_users(alloc, users.as_slice()))
}

#[test]
fn scripts_have_these_users(rt: HostRuntime) {
    assert!(rt; matches!(has_users(rt.alloc()), Ok(true)));
}
