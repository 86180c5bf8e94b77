//! Plan: whole runs of `replay`, each a script: a line behind `> ` comes, a line behind `< ` is
//! given. What a run answers where it finds memory, which no clause says
//! (`answers_as_the_protocol_says`), bundles that are done, refused, denied and undone among them,
//! and formula cells that change; and how it ends at its words, its users and the faults of what it
//! was handed (`ends_at_the_first_event`). The lines are those of the protocol, worked out by hand.

ghost use Rattle.std.specs.Prelude.{◌≡◌, vec_len};

use doc_keeper::SureKeeper;
use grist_run::{Status, WatchedSession, run};
use io_edges::{MemSink, MemSource};
use std::alloc::{AllocError, Global};
use std::test::Fail;
use std::thread::Threads;
use watch_box::SureWatcher;

// A run: its word, the numbers of its first read and write that fail, its script and its end.
#[derive(Clone, Copy)]
struct Case {
    word: &'static str,
    read: u64,
    write: u64,
    script: &'static str,
    end: Status,
}

// The lines of a script behind this mark.
pub(crate) fn lines_behind(alloc: Global, mark: &str, script: &str) -> Result<Vec<u8>, AllocError> {
    let mut text = String::new(alloc);
    for line in script.lines() {
        if let Some(rest) = line.strip_prefix(mark) {
            text.push_str(rest)?;
            text.push_str("\n")?;
        }
    }
    Ok(text.into_bytes())
}

/// Nobody watches a session.
pub(crate) fn no_watchers(alloc: Global) -> Vec<WatchedSession<SureWatcher>>
    ensures { vec_len result ≡ 0 }
{
    Vec::new(alloc)
}

// How a run of the case ended, and what it wrote.
fn ran<R: Threads + Sync>(
    rt: &R,
    alloc: Global,
    case: &Case,
) -> Result<(Status, Vec<u8>), AllocError> {
    let words = vec![in alloc; String::from_str(alloc, case.word)?]?;
    let lines = lines_behind(alloc, "> ", case.script)?;
    let mut input = MemSource::new(lines, vec![in alloc; case.read]?);
    let mut out = MemSink::new(alloc, 65_536, vec![in alloc; case.write]?)?;
    let keeper = SureKeeper::new(alloc);
    let outcome = run(
        rt,
        alloc,
        words.as_slice(),
        &mut input,
        &mut out,
        keeper,
        no_watchers(alloc),
    );
    Ok((outcome.status, Vec::from_slice(alloc, out.bytes())?))
}

// Whether a run of the case ends as it says, and writes the lines that it gives.
fn ends_as_told<R: Threads + Sync>(rt: &R, alloc: Global, case: &Case) -> bool {
    let Ok((end, written)) = ran(rt, alloc, case) else {
        return false;
    };
    let Ok(want) = lines_behind(alloc, "< ", case.script) else {
        return false;
    };
    end == case.end && written.as_slice() == want.as_slice()
}

static ANSWERED: [&str; 4] = [
    "",
    r#"> {"user":{"access":"owners","email":"a","id":1,"name":"Ann","token":"ta"}}
>    
> {"line":{"method":"sync"},"session":"s"}
< {"line":{"error":{"code":3,"name":"NotOpen"}},"session":"s"}
> {"line":{"method":"fetchTable","table":"Table1"},"session":"é"}
< {"line":{"error":{"code":3,"name":"NotOpen"}},"session":"é"}
> no
< {"line":{"error":{"code":1,"name":"BadLine"}},"session":"_"}"#,
    r#"> {"user":{"access":"owners","email":"a","id":1,"name":"Ann","token":"ta"}}
> {"line":{"method":"openDoc","token":"ta"},"session":"s1"}
< {"line":{"ok":{"actions":[["AddTable","Table1",[{"formula":"","id":"A","isFormula":false,"type":"Any"},{"formula":"","id":"B","isFormula":false,"type":"Any"},{"formula":"","id":"C","isFormula":false,"type":"Any"}]],["AddTable","_grist_ACLResources",[{"formula":"","id":"colIds","isFormula":false,"type":"Text"},{"formula":"","id":"tableId","isFormula":false,"type":"Text"}]],["AddTable","_grist_ACLRules",[{"formula":"","id":"aclFormula","isFormula":false,"type":"Text"},{"formula":"","id":"memo","isFormula":false,"type":"Text"},{"formula":"","id":"permissionsText","isFormula":false,"type":"Text"},{"formula":"","id":"resource","isFormula":false,"type":"Ref:_grist_ACLResources"},{"formula":"","id":"rulePos","isFormula":false,"type":"Int"},{"formula":"","id":"userAttributes","isFormula":false,"type":"Text"}]]]}},"session":"s1"}
> {"line":{"actions":[["BulkAddRecord","Table1",[null,null],{"A":[1,2]}],["UpdateRecord","Table1",1,{"A":"x"}],["RemoveRecord","Table1",2]],"method":"applyUserActions"},"session":"s1"}
< {"line":{"actions":[["BulkAddRecord","Table1",[1],{"A":["x"],"B":[null],"C":[null]}]],"seq":1},"session":"s1"}
< {"line":{"ok":{"bundle":1,"retValues":[[1,null],null,null]}},"session":"s1"}
> {"line":{"actions":[["UpdateRecord","Table1",1,{"C":"7"}]],"method":"applyUserActions"},"session":"s1"}
< {"line":{"actions":[["BulkUpdateRecord","Table1",[1],{"C":["7"]}]],"seq":2},"session":"s1"}
< {"line":{"ok":{"bundle":2,"retValues":[null]}},"session":"s1"}
> {"line":{"actions":[["ModifyColumn","Table1","C",{"type":"Int"}]],"method":"applyUserActions"},"session":"s1"}
< {"line":{"actions":[["ModifyColumn","Table1","C",{"formula":"","isFormula":false,"type":"Int"}],["BulkUpdateRecord","Table1",[1],{"C":[7]}]],"seq":3},"session":"s1"}
< {"line":{"ok":{"bundle":3,"retValues":[null]}},"session":"s1"}
> {"line":{"actions":[["RenameColumn","Table1","A","B"]],"method":"applyUserActions"},"session":"s1"}
< {"line":{"actions":[["RemoveColumn","Table1","A"],["AddColumn","Table1","B2",{"formula":"","isFormula":false,"type":"Any"}],["BulkUpdateRecord","Table1",[1],{"B2":["x"]}]],"seq":4},"session":"s1"}
< {"line":{"ok":{"bundle":4,"retValues":["B2"]}},"session":"s1"}
> {"line":{"actions":[["RenameTable","Table1","Table1"]],"method":"applyUserActions"},"session":"s1"}
< {"line":{"ok":{"bundle":5,"retValues":["Table1"]}},"session":"s1"}
> {"line":{"actions":[["AddTable","T",[]],["AddRecord","Nope",null,{}]],"method":"applyUserActions"},"session":"s1"}
< {"line":{"error":{"action":1,"code":6,"name":"NoSuchTable"}},"session":"s1"}
> {"line":{"actions":[["AddTable","T",[{"id":"Q"},{"id":"P","type":"Int"}]],["AddRecord","T",null,{"Q":1}]],"method":"applyUserActions"},"session":"s1"}
< {"line":{"actions":[["AddTable","T",[{"formula":"","id":"P","isFormula":false,"type":"Int"},{"formula":"","id":"Q","isFormula":false,"type":"Any"}]],["BulkAddRecord","T",[1],{"P":[0],"Q":[1]}]],"seq":5},"session":"s1"}
< {"line":{"ok":{"bundle":6,"retValues":["T",1]}},"session":"s1"}
> {"line":{"actions":[],"method":"applyUserActions"},"session":"s1"}
< {"line":{"ok":{"bundle":7,"retValues":[]}},"session":"s1"}
> {"line":{"actions":[["AddTable","P",[{"id":"N","type":"Int"}]],["BulkAddRecord","P",[null,null],{"N":[7,2]}]],"method":"applyUserActions"},"session":"s1"}
< {"line":{"actions":[["AddTable","P",[{"formula":"","id":"N","isFormula":false,"type":"Int"}]],["BulkAddRecord","P",[1,2],{"N":[7,2]}]],"seq":6},"session":"s1"}
< {"line":{"ok":{"bundle":8,"retValues":["P",[1,2]]}},"session":"s1"}
> {"line":{"actions":[["AddTable","V",[{"id":"R","type":"Ref:P"},{"formula":"$R.N * 2","id":"D","type":"Int"}]],["BulkAddRecord","V",[null,null],{"R":[1,2]}]],"method":"applyUserActions"},"session":"s1"}
< {"line":{"actions":[["AddTable","V",[{"formula":"$R.N * 2","id":"D","isFormula":true,"type":"Int"},{"formula":"","id":"R","isFormula":false,"type":"Ref:P"}]],["BulkAddRecord","V",[1,2],{"D":[14,4],"R":[1,2]}]],"seq":7},"session":"s1"}
< {"line":{"ok":{"bundle":9,"retValues":["V",[1,2]]}},"session":"s1"}
> {"line":{"actions":[["UpdateRecord","P",2,{"N":3}]],"method":"applyUserActions"},"session":"s1"}
< {"line":{"actions":[["BulkUpdateRecord","P",[2],{"N":[3]}],["BulkUpdateRecord","V",[2],{"D":[6]}]],"seq":8},"session":"s1"}
< {"line":{"ok":{"bundle":10,"retValues":[null]}},"session":"s1"}
> {"line":{"actions":[["RemoveRecord","P",1],["UpdateRecord","V",1,{"D":1}]],"method":"applyUserActions"},"session":"s1"}
< {"line":{"error":{"action":1,"code":11,"name":"FormulaColumn"}},"session":"s1"}
> {"line":{"actions":[["UpdateRecord","P",1,{"N":8}]],"method":"applyUserActions"},"session":"s1"}
< {"line":{"actions":[["BulkUpdateRecord","P",[1],{"N":[8]}],["BulkUpdateRecord","V",[1],{"D":[16]}]],"seq":9},"session":"s1"}
< {"line":{"ok":{"bundle":11,"retValues":[null]}},"session":"s1"}
> {"line":{"actions":[["RemoveRecord","P",1]],"method":"applyUserActions"},"session":"s1"}
< {"line":{"actions":[["BulkRemoveRecord","P",[1]],["BulkUpdateRecord","V",[1],{"D":[0]}],["BulkUpdateRecord","V",[1],{"R":[0]}]],"seq":10},"session":"s1"}
< {"line":{"ok":{"bundle":12,"retValues":[null]}},"session":"s1"}
> {"line":{"bundle":12,"method":"undo"},"session":"s1"}
< {"line":{"actions":[["BulkAddRecord","P",[1],{"N":[8]}],["BulkUpdateRecord","V",[1],{"D":[16]}],["BulkUpdateRecord","V",[1],{"R":[1]}]],"seq":11},"session":"s1"}
< {"line":{"ok":{"bundle":13}},"session":"s1"}
> {"line":{"bundle":12,"method":"undo"},"session":"s1"}
< {"line":{"error":{"code":17,"name":"AlreadyUndone"}},"session":"s1"}
> {"line":{"bundle":14,"method":"undo"},"session":"s1"}
< {"line":{"error":{"code":16,"name":"NoSuchBundle"}},"session":"s1"}
> {"line":{"actions":[["AddColumn","V","L",{"formula":"$L"}]],"method":"applyUserActions"},"session":"s1"}
< {"line":{"actions":[["AddColumn","V","L",{"formula":"$L","isFormula":true,"type":"Any"}],["BulkUpdateRecord","V",[1,2],{"L":[["E","CircularRefError"],["E","CircularRefError"]]}]],"seq":12},"session":"s1"}
< {"line":{"ok":{"bundle":14,"retValues":["L"]}},"session":"s1"}
> {"line":{"column":"N","method":"renameColumn","new":"all","table":"P"},"session":"s1"}
< {"line":{"error":{"code":22,"count":1,"name":"Unresolved"}},"session":"s1"}
> {"line":{"column":"N","method":"renameColumn","new":"M","table":"P"},"session":"s1"}
< {"line":{"actions":[["RemoveColumn","P","N"],["AddColumn","P","M",{"formula":"","isFormula":false,"type":"Int"}],["BulkUpdateRecord","P",[1,2],{"M":[8,3]}],["ModifyColumn","V","D",{"formula":"$R.M * 2","isFormula":true,"type":"Int"}]],"seq":13},"session":"s1"}
< {"line":{"ok":{"bundle":15,"retValues":["M",null]}},"session":"s1"}
> {"line":{"method":"closeDoc"},"session":"s1"}
< {"line":{"ok":null},"session":"s1"}
> {"line":{"method":"closeDoc"},"session":"s1"}
< {"line":{"error":{"code":3,"name":"NotOpen"}},"session":"s1"}
> {"line":{"method":"fetchTable","table":"Table1"},"session":"s1"}
< {"line":{"error":{"code":3,"name":"NotOpen"}},"session":"s1"}"#,
    r#"> {"user":{"access":"owners","email":"a","id":1,"name":"Ann","token":"ta"}}
> {"user":{"access":"editors","email":"e","id":2,"name":"Ed","token":"te"}}
> {"line":{"method":"openDoc","token":"ta"},"session":"s1"}
< {"line":{"ok":{"actions":[["AddTable","Table1",[{"formula":"","id":"A","isFormula":false,"type":"Any"},{"formula":"","id":"B","isFormula":false,"type":"Any"},{"formula":"","id":"C","isFormula":false,"type":"Any"}]],["AddTable","_grist_ACLResources",[{"formula":"","id":"colIds","isFormula":false,"type":"Text"},{"formula":"","id":"tableId","isFormula":false,"type":"Text"}]],["AddTable","_grist_ACLRules",[{"formula":"","id":"aclFormula","isFormula":false,"type":"Text"},{"formula":"","id":"memo","isFormula":false,"type":"Text"},{"formula":"","id":"permissionsText","isFormula":false,"type":"Text"},{"formula":"","id":"resource","isFormula":false,"type":"Ref:_grist_ACLResources"},{"formula":"","id":"rulePos","isFormula":false,"type":"Int"},{"formula":"","id":"userAttributes","isFormula":false,"type":"Text"}]]]}},"session":"s1"}
> {"line":{"method":"openDoc","token":"te"},"session":"s2"}
< {"line":{"ok":{"actions":[["AddTable","Table1",[{"formula":"","id":"A","isFormula":false,"type":"Any"},{"formula":"","id":"B","isFormula":false,"type":"Any"},{"formula":"","id":"C","isFormula":false,"type":"Any"}]]]}},"session":"s2"}
> {"line":{"actions":[["AddRecord","Table1",null,{"A":1}],["AddRecord","_grist_ACLResources",null,{"colIds":"*","tableId":"Table1"}],["AddRecord","_grist_ACLRules",null,{"aclFormula":"newRec.A == 2","memo":"no 2","permissionsText":"-U","resource":1}],["AddRecord","_grist_ACLRules",null,{"aclFormula":"rec.A == 3","memo":"no 3","permissionsText":"-C","resource":1}]],"method":"applyUserActions"},"session":"s1"}
< {"line":{"actions":[["BulkAddRecord","Table1",[1],{"A":[1],"B":[null],"C":[null]}],["BulkAddRecord","_grist_ACLResources",[1],{"colIds":["*"],"tableId":["Table1"]}],["BulkAddRecord","_grist_ACLRules",[1,2],{"aclFormula":["newRec.A == 2","rec.A == 3"],"memo":["no 2","no 3"],"permissionsText":["-U","-C"],"resource":[1,1],"rulePos":[0,0],"userAttributes":["",""]}]],"seq":1},"session":"s1"}
< {"line":{"ok":{"bundle":1,"retValues":[1,1,1,2]}},"session":"s1"}
> {"line":{"actions":[["UpdateRecord","Table1",1,{"A":2}]],"method":"applyUserActions"},"session":"s2"}
< {"line":{"actions":[["BulkAddRecord","Table1",[1],{"A":[1],"B":[null],"C":[null]}]],"seq":1},"session":"s2"}
< {"line":{"error":{"action":0,"code":20,"memo":"no 2","name":"Denied","rule":1}},"session":"s2"}
> {"line":{"actions":[["RenameTable","Table1","X"],["UpdateRecord","X",1,{"A":2}]],"method":"applyUserActions"},"session":"s2"}
< {"line":{"error":{"action":1,"code":20,"memo":"no 2","name":"Denied","rule":1}},"session":"s2"}
> {"line":{"actions":[["UpdateRecord","Table1",1,{"A":3}]],"method":"applyUserActions"},"session":"s2"}
< {"line":{"actions":[["BulkUpdateRecord","Table1",[1],{"A":[3]}]],"seq":2},"session":"s2"}
< {"line":{"ok":{"bundle":1,"retValues":[null]}},"session":"s2"}
> {"line":{"actions":[["RemoveRecord","Table1",1]],"method":"applyUserActions"},"session":"s2"}
< {"line":{"actions":[["BulkRemoveRecord","Table1",[1]]],"seq":3},"session":"s2"}
< {"line":{"ok":{"bundle":2,"retValues":[null]}},"session":"s2"}
> {"line":{"bundle":2,"method":"undo"},"session":"s2"}
< {"line":{"error":{"action":0,"code":20,"memo":"no 3","name":"Denied","rule":2}},"session":"s2"}
> {"line":{"method":"sync"},"session":"s1"}
< {"line":{"actions":[["BulkUpdateRecord","Table1",[1],{"A":[3]}]],"seq":2},"session":"s1"}
< {"line":{"actions":[["BulkRemoveRecord","Table1",[1]]],"seq":3},"session":"s1"}
< {"line":{"ok":null},"session":"s1"}"#,
];

#[test]
fn answers_as_the_protocol_says(rt: HostRuntime) -> Result<(), Fail> {
    for script in ANSWERED {
        let case = Case {
            word: "replay",
            read: 99,
            write: 99,
            script,
            end: Status::Done,
        };
        assert!(rt; ends_as_told(&rt, rt.alloc(), &case));
    }
    Ok(())
}

const BAD_LINE: &str =
    r#"> {"user":{"access":"owners","email":"a","id":1,"name":"Ann","token":"ta"}}
> no
< {"line":{"error":{"code":1,"name":"BadLine"}},"session":"_"}"#;

const UNANSWERED: &str =
    r#"> {"user":{"access":"owners","email":"a","id":1,"name":"Ann","token":"ta"}}
> no"#;

// What ends a run before its input does.
static ENDED: [Case; 7] = [
    Case {
        word: "replay",
        read: 99,
        write: 99,
        script: BAD_LINE,
        end: Status::Done,
    },
    Case {
        word: "serve",
        read: 0,
        write: 0,
        script: UNANSWERED,
        end: Status::Usage,
    },
    Case {
        word: "replay",
        read: 99,
        write: 0,
        script: r#"> {"user":{"access":"owners","email":"a","id":1,"name":"Ann","token":"ta"}}
> {"user":{"access":"owners","email":"a","id":1,"name":"Ann","token":"ta"}}"#,
        end: Status::BadUsers { line: 2 },
    },
    Case {
        word: "replay",
        read: 0,
        write: 0,
        script: UNANSWERED,
        end: Status::ReadFault,
    },
    Case {
        word: "replay",
        read: 1,
        write: 99,
        script: BAD_LINE,
        end: Status::ReadFault,
    },
    Case {
        word: "replay",
        read: 99,
        write: 0,
        script: UNANSWERED,
        end: Status::WriteFault,
    },
    Case {
        word: "replay",
        read: 99,
        write: 1,
        script: BAD_LINE,
        end: Status::WriteFault,
    },
];

#[test]
fn ends_at_the_first_event(rt: HostRuntime) -> Result<(), Fail> {
    for case in &ENDED {
        assert!(rt; ends_as_told(&rt, rt.alloc(), case));
    }
    Ok(())
}
