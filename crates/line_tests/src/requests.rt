//! Plan: what lines spell (`spelled_requests`, `lines_that_spell_none`, `spelled_frames`,
//! `spelled_users`), and what is printed (`printed_values`, `printed_columns`, `printed_replies`,
//! `printed_refusals`, `printed_frame`). The expected texts are those of the stored cases and of
//! the protocol, a row a line; what is read is shown as `Debug` shows it.

use crate::texts::{is_line, is_text};
use cell_types::*;
use doc_model::*;
use grist_json::*;
use std::alloc::{AllocError, Global};

const REQUESTS: &str = concat!(
    r#"{"method":"openDoc","token":"ta"} => Open { token: CellText { shared: Some("ta") } }
  {"token":"", "method":"openDoc"}  => Open { token: CellText { shared: None } }
{"method":"sync"} => Sync
{"method":"closeDoc"} => Close
{"method":"fetchTable","table":"Table1"} => Fetch { table: CellText { shared: Some("Table1") } }
{"table":"no name", "method":"fetchTable"} => Fetch { table: CellText { shared: Some("no name") "#,
    r#"} }
{"column":"K","method":"renameColumn","new":"1x","table":""} => Rename { table: CellText { "#,
    r#"shared: None }, column: CellText { shared: Some("K") }, new: CellText { shared: "#,
    r#"Some("1x") } }
{"bundle":0,"method":"undo"} => Undo { bundle: 0 }
{"method":"undo","bundle":9223372036854775807} => Undo { bundle: 9223372036854775807 }
{"actions":[],"method":"applyUserActions"} => Apply { actions: Sequence { items: [] } }
{"method":"applyUserActions","actions":[["AddRecord","T",null,{"A":1.5,"B":7,"A":2}],["RemoveTabl"#,
    r#"e","U"]]} => Apply { actions: Sequence { items: [Add { table: CellText { shared: "#,
    r#"Some("T") }, single: true, count: 1, has_row_ids: false, columns: Sequence { items: "#,
    r#"[UserColumn { id: CellText { shared: Some("A") }, values: Sequence { items: [Int(2)] } }, "#,
    r#"UserColumn { id: CellText { shared: Some("B") }, values: Sequence { items: [Int(7)] } }] "#,
    r#"} }, RemoveTable { table: CellText { shared: Some("U") } }] } }"#,
);

// The first is the empty line.
const NO_REQUESTS: &str = r#"
{"bundle":9223372036854775808,"method":"undo"}
{"bundle":-1,"method":"undo"}
{"bundle":1.5,"method":"undo"}
{"bundle":"1","method":"undo"}
{"bundle":1,"method":"redo"}
{"bundle":1,"method":"undo","x":1}
{"method":"undo"}
{"method":"fetchTable"}
{"method":"fetchTable","table":null}
{"method":"fetchTable","table":"Table1","x":1}
{"method":"fetchTable","token":"ta"}
{"column":"K","method":"renameColumn","new":5,"table":"T"}
{"column":"K","method":"renameColumn","new":"L"}
{"column":"K","method":"renameColumn","new":"L","table":"T","x":1}
{"method":"openDoc","table":"Table1"}
{"method":"sync"} x
{"method":"openDoc","token":"t","x":1e999}
{"method":"openDoc","token":"\ud800"}
{"method":"sync","x":1}
{"method":"Sync"}
{"x":1}
null
{"method":"openDoc","token":5}
{"method":"openDoc","token":"ta","x":1}
{"actions":[],"method":"applyUserActions","x":1}
{"actions":{},"method":"applyUserActions"}
{"actions":[],"method":"apply"}
{"method":"applyUserActions"}
{"method":"closeDoc","x":1}
{"actions":[["RemoveTable","T"],["RemoveTable"]],"method":"applyUserActions"}
{"actions":[["AddRecord","T",null,{"A":-0}]],"method":"applyUserActions"}"#;

const FRAMES: &str = concat!(
    r#"nonsense => -
{"line":{"method":"sync"},"session":"s1","x":1} => -
{"line":{"method":"sync"},"session":"_"} => -
{"line":{"method":"sync"},"session":"1s"} => -
{"line":{"method":"sync"},"session":"rec"} => -
{"line":{"method":"sync"},"session":"ssssssssssssssssssssssssssssssssssssssssssssssssssssssssssss"#,
    r#"sssss"} => -
{"line":{"method":"sync"},"session":"s1"} x => -
{"line":{"method":"sync"},"session":"ssssssssssssssssssssssssssssssssssssssssssssssssssssssssssss"#,
    r#"ssss"} => ssssssssssssssssssssssssssssssssssssssssssssssssssssssssssssssss Sync
{"line":{"method":"sync"},"session":"séance"} => séance Sync
{"line":{"method":"sync"},"session":"٣x"} => -
{"line":{"method":"sync"},"session":"ж"} => ж Sync
{"line":[[[[[[[[[[[[[[[[[[[[[[[[[[[[[[[[[[[[[[[[[[[[[[[[[[[[[[[[[[[[[[[[[[[[[[[[[[[[[[[[[[[[[[[[["#,
    r#"[[[[[[[[[[[[[[[[[[[[[[[[[[[[[[[[[[[[[]]]]]]]]]]]]]]]]]]]]]]]]]]]]]]]]]]]]]]]]]]]]]]]]]]]]]"#,
    r#"]]]]]]]]]]]]]]]]]]]]]]]]]]]]]]]]]]]]]]]]]]]]]]]]]]]]]]]]]]]]]]]]]]]]]]]]],"session":"s1"} "#,
    r#"=> s1 Bad
{"line":[[[[[[[[[[[[[[[[[[[[[[[[[[[[[[[[[[[[[[[[[[[[[[[[[[[[[[[[[[[[[[[[[[[[[[[[[[[[[[[[[[[[[[[[["#,
    r#"[[[[[[[[[[[[[[[[[[[[[[[[[[[[[[[[[[[[[[]]]]]]]]]]]]]]]]]]]]]]]]]]]]]]]]]]]]]]]]]]]]]]]]]]]]"#,
    r#"]]]]]]]]]]]]]]]]]]]]]]]]]]]]]]]]]]]]]]]]]]]]]]]]]]]]]]]]]]]]]]]]]]]]]]]]]]],"session":"s1""#,
    r#"} => -
{"line":5,"session":"s9"} => s9 Bad
{"line":{"method":"sync","method":"openDoc","token":"zz","token":"ta"},"session":"s1"} => s1 "#,
    r#"Open { token: CellText { shared: Some("ta") } }"#,
);

const USERS: &str = concat!(
    r#"{"user":{"access":"owners","email":"ann@x.org","id":1,"name":"Ann","token":"ta"}} => Ann "#,
    r#"ann@x.org 1 ta owners
{"user":5,"user":{"access":"owners","email":"no","email":"ann@x.org","id":1,"name":"Ann","#,
    r#""token":"zz","token":"ta"}} => Ann ann@x.org 1 ta owners
{"user":null} => bad
{"user":{"access":"owners","email":"b@x.org","id":-1,"name":"B","token":"tb"}} => bad
{"user":{"access":"owners","email":"b@x.org","id":2,"name":"B","token":""}} => bad
{"user":{"access":"admins","email":"b@x.org","id":2,"name":"B","token":"tb"}} => bad
{"user":{"access":"null","email":"b@x.org","id":2,"name":"B","token":"tb"}} => bad
{"user":{"access":"","email":"b@x.org","id":2,"name":"B","token":"tb"}} => bad
{"user":{"access":false,"email":"b@x.org","id":2,"name":"B","token":"tb"}} => bad
{"user":{"email":"b@x.org","id":2,"name":"B","token":"tb"}} => bad
{"user":{"access":"owners","email":"b","id":2,"token":"tb"}} => bad
{"user":{"access":"owners","email":"b@x.org","id":2,"name":"B","token":"tb","x":1}} => bad
{"user":{"access":null,"email":"nel@x.org","id":4,"name":"Nel","token":"tn"}} => "#,
    r#"Nel nel@x.org 4 tn -
{"user":{"access":"editors","email":"e","id":1,"name":"E","token":"te"}} => E e 1 te editors
{"user":{"access":"viewers","email":"v","id":1,"name":"V","token":"tv"}} => V v 1 tv viewers
nonsense => -
{"line":{"method":"sync"},"session":"s1"} => -"#,
);

fn is_shown(alloc: Global, request: &Request, want: &str) -> bool {
    is_text(&format!(in alloc; "{request:?}"), want)
}

fn is_request(alloc: Global, line: &str, want: &str) -> bool {
    let Ok(request) = read_request(alloc, line.as_bytes()) else {
        return false;
    };
    is_shown(alloc, &request, want)
}

fn is_request_row(alloc: Global, row: &str) -> bool {
    let Some((line, want)) = row.split_once(" => ") else {
        return false;
    };
    is_request(alloc, line, want)
}

#[test]
fn spelled_requests(rt: HostRuntime) {
    for row in REQUESTS.lines() {
        assert!(rt; is_request_row(rt.alloc(), row), "not {row}");
    }
}

fn is_bad_line(read: &Result<Request, ReadFault>) -> bool {
    match read {
        Err(ReadFault::BadLine) => true,
        _ => false,
    }
}

fn is_bad(alloc: Global, line: &str) -> bool {
    is_bad_line(&read_request(alloc, line.as_bytes()))
}

#[test]
fn lines_that_spell_none(rt: HostRuntime) {
    for line in NO_REQUESTS.lines() {
        assert!(rt; is_bad(rt.alloc(), line), "{line} was read");
    }
}

// Whether these are the session and the request.
fn is_shown_frame(alloc: Global, frame: &Frame, want: &str) -> bool {
    is_text(
        &format!(in alloc; "{} {:?}", frame.session.as_str(), frame.request),
        want,
    )
}

// Whether this frame was read; `-` where none was.
fn is_read_frame(alloc: Global, read: &Result<Option<Frame>, AllocError>, want: &str) -> bool {
    match read {
        Ok(Some(frame)) => is_shown_frame(alloc, frame, want),
        Ok(None) => want == "-",
        Err(_) => false,
    }
}

fn is_frame(alloc: Global, line: &[u8], want: &str) -> bool {
    is_read_frame(alloc, &read_frame(alloc, line), want)
}

fn is_frame_row(alloc: Global, row: &str) -> bool {
    let Some((line, want)) = row.split_once(" => ") else {
        return false;
    };
    is_frame(alloc, line.as_bytes(), want)
}

#[test]
fn spelled_frames(rt: HostRuntime) {
    for row in FRAMES.lines() {
        assert!(rt; is_frame_row(rt.alloc(), row), "not {row}");
    }
    assert!(rt; is_frame(rt.alloc(), &[0xff, 0xfe], "-"));
    assert!(rt; is_frame(rt.alloc(), b"{\"line\":5,\"session\":\"s\x011\"}", "-"));
}

// The access, or `-` where there is none.
fn access_of(user: &User) -> &str {
    match &user.access {
        Some(access) => access.as_str(),
        None => "-",
    }
}

/// Whether the user is the wanted one: name, email, number, token, and access or `-`.
pub fn is_shown_user(alloc: Global, user: &User, want: &str) -> bool {
    let (name, email, token) = (user.name.as_str(), user.email.as_str(), user.token.as_str());
    let access = access_of(user);
    is_text(
        &format!(in alloc; "{name} {email} {} {token} {access}", user.id),
        want,
    )
}

// Whether this was read of a user, in short.
fn is_read_user(alloc: Global, read: &Result<UserLine, AllocError>, want: &str) -> bool {
    match read {
        Ok(UserLine::User(user)) => is_shown_user(alloc, user, want),
        Ok(UserLine::Bad) => want == "bad",
        Ok(UserLine::Other) => want == "-",
        Err(_) => false,
    }
}

fn is_user(alloc: Global, line: &str, want: &str) -> bool {
    is_read_user(alloc, &read_user(alloc, line.as_bytes()), want)
}

fn is_user_row(alloc: Global, row: &str) -> bool {
    let Some((line, want)) = row.split_once(" => ") else {
        return false;
    };
    is_user(alloc, line, want)
}

#[test]
fn spelled_users(rt: HostRuntime) {
    for row in USERS.lines() {
        assert!(rt; is_user_row(rt.alloc(), row), "not {row}");
    }
}

fn name_of(alloc: Global, text: &str) -> Result<Name, AllocError> {
    Name::try_new(CellText::copy_of(alloc, text)?).ok_or(AllocError)
}

fn record_set(alloc: Global) -> Result<CellValue, AllocError> {
    let rows = RowList::from(vec![in alloc; 1u32, 4_294_967_295]?);
    let table = name_of(alloc, "T")?;
    Ok(CellValue::RecSet(RowSet { table, rows }))
}

fn list(alloc: Global) -> Result<CellValue, AllocError> {
    let mut items = CellList::new(alloc);
    items.push(CellItem::Int(-1))?;
    items.push(CellItem::Date(5))?;
    Ok(CellValue::List(items))
}

// A value at each index: five that are numbers or texts, and four that name rows or are lists or
// marks.
fn value_at(alloc: Global, index: usize) -> Result<CellValue, AllocError> {
    match index {
        0 => Ok(CellValue::Null),
        1 => Ok(CellValue::Int(-9_223_372_036_854_775_808)),
        2 => Ok(CellValue::Bool(false)),
        3 => Ok(CellValue::Text(CellText::copy_of(alloc, "\u{1}\u{7f}\n\"\\/é")?)),
        4 => Ok(CellValue::Date(86_400)),
        5 => record_set(alloc),
        6 => list(alloc),
        7 => Ok(CellValue::Err(ErrKind::WrongType)),
        _ => Ok(CellValue::Censored),
    }
}

// The values of these indexes.
fn values(alloc: Global, from: usize, to: usize) -> Result<ValueList, AllocError> {
    let mut values = ValueList::new(alloc);
    for index in from..to {
        values.push(value_at(alloc, index)?)?;
    }
    Ok(values)
}

fn column(alloc: Global, id: &str, from: usize, to: usize) -> Result<CellColumn, AllocError> {
    let values = values(alloc, from, to)?;
    let id = name_of(alloc, id)?;
    Ok(CellColumn { id, values })
}

fn columns(alloc: Global) -> Result<ColumnList, AllocError> {
    let mut columns = ColumnList::new(alloc);
    columns.push(column(alloc, "B", 0, 5)?)?;
    columns.push(column(alloc, "A", 5, 9)?)?;
    Ok(columns)
}

fn added_to(alloc: Global, rows: RowList, columns: ColumnList) -> Result<ViewAction, AllocError> {
    let table = name_of(alloc, "T")?;
    Ok(ViewAction::BulkAdd {
        table,
        rows,
        columns,
    })
}

fn added_rows(alloc: Global) -> Result<ViewAction, AllocError> {
    let rows = RowList::from(vec![in alloc; 1u32, 2]?);
    added_to(alloc, rows, columns(alloc)?)
}

fn formula_column(alloc: Global) -> Result<ViewCol, AllocError> {
    let id = name_of(alloc, "F")?;
    let ty = ColType::Ref(name_of(alloc, "U")?);
    Ok(ViewCol {
        id,
        ty,
        is_formula: true,
        formula: None,
    })
}

fn added_column(alloc: Global) -> Result<ViewAction, AllocError> {
    let column = formula_column(alloc)?;
    let table = name_of(alloc, "T")?;
    Ok(ViewAction::AddColumn { table, column })
}

fn added_table(alloc: Global) -> Result<ViewAction, AllocError> {
    let table = name_of(alloc, "T")?;
    let columns = ViewColList::new(alloc);
    Ok(ViewAction::AddTable { table, columns })
}

// A change that is sent.
#[derive(Clone, Copy)]
enum Sent {
    Rows,
    Column,
    Table,
}

fn change_of(alloc: Global, sent: Sent) -> Result<ViewAction, AllocError> {
    match sent {
        Sent::Rows => added_rows(alloc),
        Sent::Column => added_column(alloc),
        Sent::Table => added_table(alloc),
    }
}

// The change alone.
fn changes_of(alloc: Global, sent: Sent) -> Result<ViewActionList, AllocError> {
    let mut changes = ViewActionList::new(alloc);
    changes.push(change_of(alloc, sent)?)?;
    Ok(changes)
}

fn are_printed(alloc: Global, changes: &Result<ViewActionList, AllocError>, want: &str) -> bool {
    match changes {
        Ok(changes) => is_line(&write_stream(alloc, 7, changes), want),
        Err(_) => false,
    }
}

fn is_sent(alloc: Global, sent: Sent, want: &str) -> bool {
    are_printed(alloc, &changes_of(alloc, sent), want)
}

const SENT_ROWS: &str =
    "{\"actions\":[[\"BulkAddRecord\",\"T\",[1,2],{\"A\":[[\"r\",\"T\",[1,4294967295]],\
    [\"L\",-1,[\"d\",5]],[\"E\",\"TypeError\"],[\"C\"]],\
    \"B\":[null,-9223372036854775808,false,\"\\u0001\u{7f}\\n\\\"\\\\/é\",\
    [\"d\",86400]]}]],\"seq\":7}";

const SENT_COLUMN: &str = concat!(
    r#"{"actions":[["AddColumn","T","F",{"formula":null,"isFormula":true,"type":"Ref:U"}]],"#,
    r#""seq":7}"#,
);

const SENT_TABLE: &str = r#"{"actions":[["AddTable","T",[]]],"seq":7}"#;

#[test]
fn printed_values(rt: HostRuntime) {
    assert!(rt; is_sent(rt.alloc(), Sent::Rows, SENT_ROWS));
}

#[test]
fn printed_columns(rt: HostRuntime) {
    assert!(rt; is_sent(rt.alloc(), Sent::Column, SENT_COLUMN));
    assert!(rt; is_sent(rt.alloc(), Sent::Table, SENT_TABLE));
}

#[derive(Clone, Copy)]
enum Reply {
    Done,
    NoChanges,
    Bundle,
    Undone,
    Unresolved,
    Refused(Refusal, Option<u32>),
    Limited,
    Denied,
}

fn ret_ids(alloc: Global) -> Result<RetValue, AllocError> {
    let ids = vec![in alloc; Some(1u32), None]?;
    Ok(RetValue::Ids(RetIdList::from(ids)))
}

fn ret_value_at(alloc: Global, index: usize) -> Result<RetValue, AllocError> {
    match index {
        0 => Ok(RetValue::Null),
        1 => ret_ids(alloc),
        _ => Ok(RetValue::Name(name_of(alloc, "T2")?)),
    }
}

fn bundle_values(alloc: Global) -> Result<RetValueList, AllocError> {
    let mut values = RetValueList::new(alloc);
    for index in 0..3 {
        values.push(ret_value_at(alloc, index)?)?;
    }
    Ok(values)
}

fn rule_with_memo(alloc: Global) -> Result<RuleRef, AllocError> {
    let memo = CellText::copy_of(alloc, "no")?;
    Ok(RuleRef { row: 2, memo })
}

// The verdict that a reply tells.
fn verdict_of(alloc: Global, reply: Reply) -> Result<Verdict, AllocError> {
    match reply {
        Reply::Done => Ok(Verdict::Done),
        Reply::NoChanges => Ok(Verdict::Changes(ViewActionList::new(alloc))),
        Reply::Bundle => Ok(Verdict::Bundle {
            number: 3,
            values: bundle_values(alloc)?,
        }),
        Reply::Undone => Ok(Verdict::Undone { number: 4 }),
        Reply::Unresolved => Ok(Verdict::Unresolved { count: 7 }),
        Reply::Refused(refusal, action) => Ok(Verdict::Refused { refusal, action }),
        Reply::Limited => Ok(Verdict::Limited {
            what: LimitKind::RowId,
            bound: 4_294_967_295,
            action: Some(2),
        }),
        Reply::Denied => Ok(Verdict::Denied {
            action: 0,
            rule: rule_with_memo(alloc)?,
        }),
    }
}

fn is_printed(alloc: Global, verdict: &Result<Verdict, AllocError>, want: &str) -> bool {
    match verdict {
        Ok(verdict) => is_line(&write_reply(alloc, verdict), want),
        Err(_) => false,
    }
}

fn is_reply(alloc: Global, reply: Reply, want: &str) -> bool {
    is_printed(alloc, &verdict_of(alloc, reply), want)
}

static REPLIES: [(Reply, &str); 4] = [
    (Reply::Done, r#"{"ok":null}"#),
    (Reply::NoChanges, r#"{"ok":{"actions":[]}}"#),
    (Reply::Undone, r#"{"ok":{"bundle":4}}"#),
    (
        Reply::Bundle,
        r#"{"ok":{"bundle":3,"retValues":[null,[1,null],"T2"]}}"#,
    ),
];

#[test]
fn printed_replies(rt: HostRuntime) {
    for row in &REPLIES {
        assert!(rt; is_reply(rt.alloc(), row.0, row.1), "not {}", row.1);
    }
}

static REFUSALS: [(Reply, &str); 7] = [
    (
        Reply::Refused(Refusal::BadLine, None),
        r#"{"error":{"code":1,"name":"BadLine"}}"#,
    ),
    (
        Reply::Refused(Refusal::NoSuchBundle, None),
        r#"{"error":{"code":16,"name":"NoSuchBundle"}}"#,
    ),
    (
        Reply::Refused(Refusal::AlreadyUndone, None),
        r#"{"error":{"code":17,"name":"AlreadyUndone"}}"#,
    ),
    (
        Reply::Refused(Refusal::UndoStale, Some(9)),
        r#"{"error":{"action":9,"code":18,"name":"UndoStale"}}"#,
    ),
    (
        Reply::Limited,
        r#"{"error":{"action":2,"bound":4294967295,"code":15,"name":"Limit","what":"rowId"}}"#,
    ),
    (
        Reply::Unresolved,
        r#"{"error":{"code":22,"count":7,"name":"Unresolved"}}"#,
    ),
    (
        Reply::Denied,
        r#"{"error":{"action":0,"code":20,"memo":"no","name":"Denied","rule":2}}"#,
    ),
];

#[test]
fn printed_refusals(rt: HostRuntime) {
    for row in &REFUSALS {
        assert!(rt; is_reply(rt.alloc(), row.0, row.1), "not {}", row.1);
    }
}

fn is_framed(
    alloc: Global,
    session: &Result<Name, AllocError>,
    line: &Result<Line, AllocError>,
    want: &str,
) -> bool {
    let Ok(session) = session else {
        return false;
    };
    let Ok(line) = line else {
        return false;
    };
    is_line(&write_frame(alloc, session, line), want)
}

fn frames_done(alloc: Global, session: &str, want: &str) -> bool {
    is_framed(
        alloc,
        &name_of(alloc, session),
        &write_reply(alloc, &Verdict::Done),
        want,
    )
}

#[test]
fn printed_frame(rt: HostRuntime) {
    let want = r#"{"line":{"ok":null},"session":"séance"}"#;
    assert!(rt; frames_done(rt.alloc(), "séance", want));
}
