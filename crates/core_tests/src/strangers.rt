//! Plan: two inputs that differ only in what the owner does to what rules hide from a viewer: a
//! table, a column, the rows of one kind, single cells and the texts of formulas. In one of them he
//! changes, renames and removes all of that, and undoes; in the other he does nothing. The viewer,
//! who opens, syncs, fetches, and tries what is hidden and what is not there, is given the same
//! bytes (`a_stranger_is_given_the_same`). That the owner's bundles are accepted is counted, since
//! the test would show nothing where they are refused.

use crate::runs::{lines_behind, no_watchers};
use doc_keeper::SureKeeper;
use grist_run::run;
use io_edges::{MemSink, MemSource};
use std::alloc::{AllocError, Global};
use std::test::Fail;
use std::thread::Threads;

// Ann makes the tables and the rules, and Vic opens the document.
static START: &str = r#"
> {"user":{"access":"owners","email":"ann@x.org","id":1,"name":"Ann","token":"ta"}}
> {"user":{"access":"viewers","email":"vic@x.org","id":3,"name":"Vic","token":"tv"}}
> {"line":{"method":"openDoc","token":"ta"},"session":"s1"}
> {"line":{"actions":[["AddTable","Secret",[{"id":"X"}]],["AddTable","T",[{"id":"K","type":"Int"},{"id":"B"},{"id":"C"},{"formula":"$K + 1","id":"F","isFormula":true}]],["BulkAddRecord","T",[null,null,null],{"B":["b0","b1","b2"],"C":["c0","c1","c2"],"K":[0,1,2]}],["AddRecord","Secret",null,{"X":1}]],"method":"applyUserActions"},"session":"s1"}
> {"line":{"actions":[["BulkAddRecord","_grist_ACLResources",[null,null,null,null],{"colIds":["*","B","C","*"],"tableId":["Secret","T","T","T"]}],["BulkAddRecord","_grist_ACLRules",[null,null,null,null],{"aclFormula":["user.Access == VIEWER","user.Access == VIEWER","user.Access == VIEWER and rec.K == 2","user.Access == VIEWER and rec.K == 1"],"permissionsText":["-R","-R","-R","-R"],"resource":[1,2,3,4]}]],"method":"applyUserActions"},"session":"s1"}
> {"line":{"method":"openDoc","token":"tv"},"session":"s9"}"#;

// What Vic asks, again and again.
static TRIES: &str = r#"
> {"line":{"method":"sync"},"session":"s9"}
> {"line":{"method":"fetchTable","table":"Secret"},"session":"s9"}
> {"line":{"method":"fetchTable","table":"T"},"session":"s9"}
> {"line":{"actions":[["UpdateRecord","T",2,{"C":1}]],"method":"applyUserActions"},"session":"s9"}
> {"line":{"actions":[["UpdateRecord","T",77,{"C":1}]],"method":"applyUserActions"},"session":"s9"}
> {"line":{"actions":[["UpdateRecord","T",1,{"B":1}]],"method":"applyUserActions"},"session":"s9"}
> {"line":{"actions":[["UpdateRecord","T",1,{"Q":1}]],"method":"applyUserActions"},"session":"s9"}"#;

// What Ann does to what is hidden from Vic.
static HIDDEN: &str = r#"
> {"line":{"actions":[["UpdateRecord","T",1,{"B":"x"}]],"method":"applyUserActions"},"session":"s1"}
> {"line":{"actions":[["UpdateRecord","T",2,{"B":"z","C":"y"}]],"method":"applyUserActions"},"session":"s1"}
> {"line":{"actions":[["UpdateRecord","T",3,{"C":"q"}]],"method":"applyUserActions"},"session":"s1"}
> {"line":{"actions":[["AddRecord","Secret",null,{"X":2}]],"method":"applyUserActions"},"session":"s1"}
> {"line":{"actions":[["AddColumn","Secret","Y",{}]],"method":"applyUserActions"},"session":"s1"}
> {"line":{"actions":[["RenameTable","Secret","Hid"]],"method":"applyUserActions"},"session":"s1"}
> {"line":{"actions":[["RemoveRecord","T",2]],"method":"applyUserActions"},"session":"s1"}
> {"line":{"bundle":9,"method":"undo"},"session":"s1"}
> {"line":{"actions":[["ModifyColumn","T","F",{"formula":"1 + $K"}]],"method":"applyUserActions"},"session":"s1"}
> {"line":{"actions":[["RenameColumn","T","B","B9"]],"method":"applyUserActions"},"session":"s1"}
> {"line":{"actions":[["AddRecord","_grist_ACLResources",null,{"colIds":"*","tableId":"Hid"}]],"method":"applyUserActions"},"session":"s1"}"#;

const OWNER: &str = r#""session":"s1"}"#;

const VIEWER: &str = r#""session":"s9"}"#;

const ACCEPTED: &str = r#"{"line":{"ok":{"bundle":"#;

// The input in which Ann does all that, or nothing of it. Vic tries behind each of her lines, and
// before the first, since the text begins with an empty one.
fn input_of(alloc: Global, does: bool) -> Result<Vec<u8>, AllocError> {
    let tries = lines_behind(alloc, "> ", TRIES)?;
    let mut input = lines_behind(alloc, "> ", START)?;
    for line in HIDDEN.lines() {
        if does {
            input.extend_from_slice(lines_behind(alloc, "> ", line)?.as_slice())?;
        }
        input.extend_from_slice(tries.as_slice())?;
    }
    Ok(input)
}

// What is written for it.
fn written<R: Threads + Sync>(rt: &R, alloc: Global, does: bool) -> Result<Vec<u8>, AllocError> {
    let words = vec![in alloc; String::from_str(alloc, "replay")?]?;
    let mut input = MemSource::new(input_of(alloc, does)?, Vec::new(alloc));
    let mut out = MemSink::new(alloc, 262_144, Vec::new(alloc))?;
    run(
        rt,
        alloc,
        words.as_slice(),
        &mut input,
        &mut out,
        SureKeeper::new(alloc),
        no_watchers(alloc),
    );
    Vec::from_slice(alloc, out.bytes())
}

// The lines that are given to a session.
fn lines_of(alloc: Global, written: &[u8], session: &str) -> Result<String, Fail> {
    let mut lines = String::new(alloc);
    for line in str::from_utf8(written)?.lines() {
        if line.ends_with(session) {
            lines.push_str(line)?;
            lines.push_str("\n")?;
        }
    }
    Ok(lines)
}

// Whether the viewer is given so many lines, the same in both.
fn is_same<R: Threads + Sync>(rt: &R, alloc: Global, lines: usize) -> Result<bool, Fail> {
    let busy = lines_of(alloc, written(rt, alloc, true)?.as_slice(), VIEWER)?;
    let still = lines_of(alloc, written(rt, alloc, false)?.as_slice(), VIEWER)?;
    Ok(busy == still && busy.lines().count() == lines)
}

// How many bundles of the owner are accepted.
fn accepted<R: Threads + Sync>(rt: &R, alloc: Global) -> Result<usize, Fail> {
    let lines = lines_of(alloc, written(rt, alloc, true)?.as_slice(), OWNER)?;
    Ok(
        lines
            .lines()
            .filter(|line| line.starts_with(ACCEPTED))
            .count(),
    )
}

#[test]
fn a_stranger_is_given_the_same(rt: HostRuntime) -> Result<(), Fail> {
    assert!(rt; is_same(&rt, rt.alloc(), 85)?);
    assert!(rt; accepted(&rt, rt.alloc())? == 13);
    Ok(())
}
