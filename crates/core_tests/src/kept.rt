//! Plan: runs over a keeper that fails, or that has a record already. Of a script, a line behind
//! `> ` comes, one behind `< ` is given, and one behind `+ ` is a record that the keeper has
//! afterwards. A bundle whose record is not kept is refused, be it the first, the second or the
//! third, and the next one is kept (`keeps_what_is_accepted`, where both forms of a record are read
//! too); what keeps a document from being opened, `ready` and each `load` that fail among it
//! (`ends_where_no_document_opens`); and a keeper that is handed on to the next run
//! (`opens_again_what_was_kept`). The lines are worked out by hand.

use crate::runs::{lines_behind, no_watchers};
use doc_keeper::{Keeper, MemKeeper, SureKeeper};
use grist_run::{Outcome, Status, run};
use io_edges::{MemSink, MemSource};
use std::alloc::{AllocError, Global};
use std::test::Fail;
use std::thread::Threads;

// A run over a keeper that fails at its call of this number and, where one is told, has a record.
// Keeping that one is call 0; then come `ready` and a `load` for each record and one behind them.
#[derive(Clone, Copy)]
struct Case {
    fails: u64,
    record: &'static str,
    script: &'static str,
    end: Status,
    at: u64,
}

fn keeper_of(alloc: Global, case: &Case) -> Result<MemKeeper, AllocError> {
    let mut keeper = MemKeeper::new(alloc, vec![in alloc; case.fails]?);
    if case.record.is_empty() {
        return Ok(keeper);
    }
    match keeper.keep(0, case.record.as_bytes()) {
        Ok(()) => Ok(keeper),
        Err(_) => Err(AllocError),
    }
}

// What a run of the script came to, and what it wrote.
fn ran_over<R: Threads + Sync, K: Keeper>(
    rt: &R,
    alloc: Global,
    keeper: K,
    script: &str,
) -> Result<(Outcome<K>, Vec<u8>), AllocError> {
    let words = vec![in alloc; String::from_str(alloc, "replay")?]?;
    let lines = lines_behind(alloc, "> ", script)?;
    let mut input = MemSource::new(lines, vec![in alloc; 99]?);
    let mut out = MemSink::new(alloc, 65_536, vec![in alloc; 99]?)?;
    let outcome = run(
        rt,
        alloc,
        words.as_slice(),
        &mut input,
        &mut out,
        keeper,
        no_watchers(alloc),
    );
    Ok((outcome, Vec::from_slice(alloc, out.bytes())?))
}

// Whether the keeper has these records and no others.
fn has_records<K: Keeper>(keeper: &mut K, script: &str) -> bool {
    let mut number = 0u64;
    for line in script.lines() {
        if let Some(want) = line.strip_prefix("+ ") {
            match keeper.load(number) {
                Ok(Some(bytes)) if bytes.as_slice() == want.as_bytes() => {}
                _ => return false,
            }
            number = number.saturating_add(1);
        }
    }
    matches!(keeper.load(number), Ok(None))
}

// Whether the bytes are the lines of the script that are given.
fn is_given(alloc: Global, written: &[u8], script: &str) -> bool {
    match lines_behind(alloc, "< ", script) {
        Ok(want) => written == want.as_slice(),
        Err(_) => false,
    }
}

fn ends_as_told<R: Threads + Sync>(rt: &R, alloc: Global, case: &Case) -> bool {
    let Ok(keeper) = keeper_of(alloc, case) else {
        return false;
    };
    let Ok((outcome, written)) = ran_over(rt, alloc, keeper, case.script) else {
        return false;
    };
    let mut keeper = outcome.keeper;
    outcome.status == case.end
        && outcome.at == case.at
        && is_given(alloc, written.as_slice(), case.script)
        && has_records(&mut keeper, case.script)
}

const RECORD: &str =
    r#"{"actions":[["BulkAddRecord","Table1",[1],{"A":[5],"B":["x"]}]],"number":0}"#;

static KEPT: [Case; 5] = [
    Case {
        fails: 2,
        record: "",
        script: r#"> {"user":{"access":"editors","email":"e","id":2,"name":"Ed","token":"te"}}
> {"line":{"method":"openDoc","token":"te"},"session":"s2"}
< {"line":{"ok":{"actions":[["AddTable","Table1",[{"formula":"","id":"A","isFormula":false,"type":"Any"},{"formula":"","id":"B","isFormula":false,"type":"Any"},{"formula":"","id":"C","isFormula":false,"type":"Any"}]]]}},"session":"s2"}
> {"line":{"actions":[["AddRecord","Table1",null,{"A":1}]],"method":"applyUserActions"},"session":"s2"}
< {"line":{"error":{"code":19,"name":"StoreFault"}},"session":"s2"}
> {"line":{"actions":[["AddRecord","Table1",null,{"A":2}]],"method":"applyUserActions"},"session":"s2"}
< {"line":{"actions":[["BulkAddRecord","Table1",[1],{"A":[2],"B":[null],"C":[null]}]],"seq":1},"session":"s2"}
< {"line":{"ok":{"bundle":1,"retValues":[1]}},"session":"s2"}
> {"line":{"actions":[["AddRecord","Table1",null,{"A":3}]],"method":"applyUserActions"},"session":"s2"}
< {"line":{"actions":[["BulkAddRecord","Table1",[2],{"A":[3],"B":[null],"C":[null]}]],"seq":2},"session":"s2"}
< {"line":{"ok":{"bundle":2,"retValues":[2]}},"session":"s2"}
+ {"actions":[["BulkAddRecord","Table1",[1],{"A":[2]}]],"number":0,"version":2}
+ {"actions":[["BulkAddRecord","Table1",[2],{"A":[3]}]],"number":1,"version":2}"#,
        end: Status::Done,
        at: 0,
    },
    Case {
        fails: 3,
        record: "",
        script: r#"> {"user":{"access":"editors","email":"e","id":2,"name":"Ed","token":"te"}}
> {"line":{"method":"openDoc","token":"te"},"session":"s2"}
< {"line":{"ok":{"actions":[["AddTable","Table1",[{"formula":"","id":"A","isFormula":false,"type":"Any"},{"formula":"","id":"B","isFormula":false,"type":"Any"},{"formula":"","id":"C","isFormula":false,"type":"Any"}]]]}},"session":"s2"}
> {"line":{"actions":[["AddRecord","Table1",null,{"A":1}]],"method":"applyUserActions"},"session":"s2"}
< {"line":{"actions":[["BulkAddRecord","Table1",[1],{"A":[1],"B":[null],"C":[null]}]],"seq":1},"session":"s2"}
< {"line":{"ok":{"bundle":1,"retValues":[1]}},"session":"s2"}
> {"line":{"actions":[["AddRecord","Table1",null,{"A":2}]],"method":"applyUserActions"},"session":"s2"}
< {"line":{"error":{"code":19,"name":"StoreFault"}},"session":"s2"}
> {"line":{"actions":[["AddRecord","Table1",null,{"A":3}]],"method":"applyUserActions"},"session":"s2"}
< {"line":{"actions":[["BulkAddRecord","Table1",[2],{"A":[3],"B":[null],"C":[null]}]],"seq":2},"session":"s2"}
< {"line":{"ok":{"bundle":2,"retValues":[2]}},"session":"s2"}
+ {"actions":[["BulkAddRecord","Table1",[1],{"A":[1]}]],"number":0,"version":2}
+ {"actions":[["BulkAddRecord","Table1",[2],{"A":[3]}]],"number":1,"version":2}"#,
        end: Status::Done,
        at: 0,
    },
    Case {
        fails: 4,
        record: "",
        script: r#"> {"user":{"access":"editors","email":"e","id":2,"name":"Ed","token":"te"}}
> {"line":{"method":"openDoc","token":"te"},"session":"s2"}
< {"line":{"ok":{"actions":[["AddTable","Table1",[{"formula":"","id":"A","isFormula":false,"type":"Any"},{"formula":"","id":"B","isFormula":false,"type":"Any"},{"formula":"","id":"C","isFormula":false,"type":"Any"}]]]}},"session":"s2"}
> {"line":{"actions":[["AddRecord","Table1",null,{"A":1}]],"method":"applyUserActions"},"session":"s2"}
< {"line":{"actions":[["BulkAddRecord","Table1",[1],{"A":[1],"B":[null],"C":[null]}]],"seq":1},"session":"s2"}
< {"line":{"ok":{"bundle":1,"retValues":[1]}},"session":"s2"}
> {"line":{"actions":[["AddRecord","Table1",null,{"A":2}]],"method":"applyUserActions"},"session":"s2"}
< {"line":{"actions":[["BulkAddRecord","Table1",[2],{"A":[2],"B":[null],"C":[null]}]],"seq":2},"session":"s2"}
< {"line":{"ok":{"bundle":2,"retValues":[2]}},"session":"s2"}
> {"line":{"actions":[["AddRecord","Table1",null,{"A":3}]],"method":"applyUserActions"},"session":"s2"}
< {"line":{"error":{"code":19,"name":"StoreFault"}},"session":"s2"}
+ {"actions":[["BulkAddRecord","Table1",[1],{"A":[1]}]],"number":0,"version":2}
+ {"actions":[["BulkAddRecord","Table1",[2],{"A":[2]}]],"number":1,"version":2}"#,
        end: Status::Done,
        at: 0,
    },
    Case {
        fails: 99,
        record: RECORD,
        script: r#"> {"user":{"access":"editors","email":"e","id":2,"name":"Ed","token":"te"}}
> {"line":{"method":"openDoc","token":"te"},"session":"s2"}
< {"line":{"ok":{"actions":[["AddTable","Table1",[{"formula":"","id":"A","isFormula":false,"type":"Any"},{"formula":"","id":"B","isFormula":false,"type":"Any"},{"formula":"","id":"C","isFormula":false,"type":"Any"}]],["BulkAddRecord","Table1",[1],{"A":[5],"B":["x"],"C":[null]}]]}},"session":"s2"}
> {"line":{"actions":[["RemoveRecord","Table1",1]],"method":"applyUserActions"},"session":"s2"}
< {"line":{"actions":[["BulkRemoveRecord","Table1",[1]]],"seq":1},"session":"s2"}
< {"line":{"ok":{"bundle":1,"retValues":[null]}},"session":"s2"}
> {"line":{"bundle":1,"method":"undo"},"session":"s2"}
< {"line":{"actions":[["BulkAddRecord","Table1",[1],{"A":[5],"B":["x"],"C":[null]}]],"seq":2},"session":"s2"}
< {"line":{"ok":{"bundle":2}},"session":"s2"}
+ {"actions":[["BulkAddRecord","Table1",[1],{"A":[5],"B":["x"]}]],"number":0}
+ {"actions":[["BulkRemoveRecord","Table1",[1]]],"number":1,"version":2}
+ {"actions":[["BulkAddRecord","Table1",[1],{"A":[5],"B":["x"],"C":[null]}]],"number":2,"version":2}"#,
        end: Status::Done,
        at: 0,
    },
    Case {
        fails: 99,
        record: concat!(
            r#"{"actions":[["BulkAddRecord","Table1",[1],{"A":[["d",5]]}]],"#,
            r#""number":0,"version":2}"#,
        ),
        script: r#"> {"user":{"access":"editors","email":"e","id":2,"name":"Ed","token":"te"}}
> {"line":{"method":"openDoc","token":"te"},"session":"s2"}
< {"line":{"ok":{"actions":[["AddTable","Table1",[{"formula":"","id":"A","isFormula":false,"type":"Any"},{"formula":"","id":"B","isFormula":false,"type":"Any"},{"formula":"","id":"C","isFormula":false,"type":"Any"}]],["BulkAddRecord","Table1",[1],{"A":[["d",5]],"B":[null],"C":[null]}]]}},"session":"s2"}
+ {"actions":[["BulkAddRecord","Table1",[1],{"A":[["d",5]]}]],"number":0,"version":2}"#,
        end: Status::Done,
        at: 0,
    },
];

#[test]
fn keeps_what_is_accepted(rt: HostRuntime) -> Result<(), Fail> {
    for case in &KEPT {
        assert!(rt; ends_as_told(&rt, rt.alloc(), case));
    }
    Ok(())
}

const UNANSWERED: &str =
    r#"> {"user":{"access":"editors","email":"e","id":2,"name":"Ed","token":"te"}}
> {"line":{"method":"openDoc","token":"te"},"session":"s2"}"#;

const UNANSWERED_KEPT: &str =
    r#"> {"user":{"access":"editors","email":"e","id":2,"name":"Ed","token":"te"}}
> {"line":{"method":"openDoc","token":"te"},"session":"s2"}
+ {"actions":[["BulkAddRecord","Table1",[1],{"A":[5],"B":["x"]}]],"number":0}"#;

// What keeps a document from being opened; a bad user line comes before that. Where there is a
// record, it stays: `ready` fails, the load of the record, and the one behind it.
static UNOPENED: [Case; 6] = [
    Case {
        fails: 0,
        record: "",
        script: UNANSWERED,
        end: Status::StoreFault,
        at: 0,
    },
    Case {
        fails: 1,
        record: "",
        script: UNANSWERED,
        end: Status::StoreFault,
        at: 0,
    },
    Case {
        fails: 1,
        record: "",
        script: r#"> {"user":{"access":"editors","email":"e","id":2,"name":"Ed","token":"te"}}
> {"user":1}"#,
        end: Status::BadUsers { line: 2 },
        at: 2,
    },
    Case {
        fails: 1,
        record: RECORD,
        script: UNANSWERED_KEPT,
        end: Status::StoreFault,
        at: 0,
    },
    Case {
        fails: 2,
        record: RECORD,
        script: UNANSWERED_KEPT,
        end: Status::StoreFault,
        at: 0,
    },
    Case {
        fails: 3,
        record: RECORD,
        script: UNANSWERED_KEPT,
        end: Status::StoreFault,
        at: 0,
    },
];

// Records that are bad as the first one: no record, one of another number, a table that is not
// there, a date in the first form, and an action that is not valid behind the one before it.
static BAD: [&str; 5] = [
    "{}",
    r#"{"actions":[],"number":1}"#,
    r#"{"actions":[["RemoveTable","Nope"]],"number":0,"version":2}"#,
    r#"{"actions":[["BulkAddRecord","Table1",[1],{"A":[["d",5]]}]],"number":0}"#,
    concat!(
        r#"{"actions":[["BulkAddRecord","Table1",[1],{"A":[5]}],"#,
        r#"["BulkAddRecord","Table1",[1],{"A":[6]}]],"number":0,"version":2}"#,
    ),
];

// Whether a run over that record alone ends at it, and leaves it.
fn is_refused<R: Threads + Sync>(rt: &R, alloc: Global, record: &'static str) -> bool {
    let case = Case {
        fails: 99,
        record,
        script: UNANSWERED,
        end: Status::BadStore { number: 0 },
        at: 0,
    };
    let Ok(keeper) = keeper_of(alloc, &case) else {
        return false;
    };
    let Ok((outcome, written)) = ran_over(rt, alloc, keeper, UNANSWERED) else {
        return false;
    };
    let mut keeper = outcome.keeper;
    outcome.status == case.end
        && outcome.at == 0
        && written.is_empty()
        && matches!(keeper.load(0), Ok(Some(bytes)) if bytes.as_slice() == record.as_bytes())
        && matches!(keeper.load(1), Ok(None))
}

#[test]
fn ends_where_no_document_opens(rt: HostRuntime) -> Result<(), Fail> {
    for case in &UNOPENED {
        assert!(rt; ends_as_told(&rt, rt.alloc(), case));
    }
    for record in BAD {
        assert!(rt; is_refused(&rt, rt.alloc(), record));
    }
    Ok(())
}

const ADDED: &str = r#"> {"user":{"access":"editors","email":"e","id":2,"name":"Ed","token":"te"}}
> {"line":{"method":"openDoc","token":"te"},"session":"s2"}
> {"line":{"actions":[["AddColumn","Table1","D",{"formula":"$A + 1"}],["AddRecord","Table1",null,{"A":4}]],"method":"applyUserActions"},"session":"s2"}
> {"line":{"bundle":1,"method":"undo"},"session":"s2"}
> {"line":{"bundle":2,"method":"undo"},"session":"s2"}"#;

const SEEN: &str = r#"> {"user":{"access":"editors","email":"e","id":2,"name":"Ed","token":"te"}}
> {"line":{"method":"openDoc","token":"te"},"session":"s2"}
< {"line":{"ok":{"actions":[["AddTable","Table1",[{"formula":"","id":"A","isFormula":false,"type":"Any"},{"formula":"","id":"B","isFormula":false,"type":"Any"},{"formula":"","id":"C","isFormula":false,"type":"Any"},{"formula":"$A + 1","id":"D","isFormula":true,"type":"Any"}]],["BulkAddRecord","Table1",[1],{"A":[4],"B":[null],"C":[null],"D":[5]}]]}},"session":"s2"}
> {"line":{"actions":[["UpdateRecord","Table1",1,{"A":8}]],"method":"applyUserActions"},"session":"s2"}
< {"line":{"actions":[["BulkUpdateRecord","Table1",[1],{"A":[8]}],["BulkUpdateRecord","Table1",[1],{"D":[9]}]],"seq":1},"session":"s2"}
< {"line":{"ok":{"bundle":1,"retValues":[null]}},"session":"s2"}"#;

// A bundle of a column and a row, its undo, and the undo of that.
fn sees_what_was_added<R: Threads + Sync>(rt: &R, alloc: Global) -> bool {
    let Ok((first, _)) = ran_over(rt, alloc, SureKeeper::new(alloc), ADDED) else {
        return false;
    };
    let Ok((second, written)) = ran_over(rt, alloc, first.keeper, SEEN) else {
        return false;
    };
    let mut keeper = second.keeper;
    second.status == Status::Done
        && is_given(alloc, written.as_slice(), SEEN)
        && matches!(keeper.load(3), Ok(Some(_)))
        && matches!(keeper.load(4), Ok(None))
}

#[test]
fn opens_again_what_was_kept(rt: HostRuntime) -> Result<(), Fail> {
    assert!(rt; sees_what_was_added(&rt, rt.alloc()));
    Ok(())
}
