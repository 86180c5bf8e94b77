//! Plan: the action that JSON stands for, in each form (`spelled_actions`), the values in one
//! (`spelled_values`), and JSON that stands for none (`no_actions`). What is expected is written
//! out by hand from the protocol, a row a line, as `Debug` shows it; `-` stands for no actions.

use crate::texts::is_text;
use action_lines::*;
use doc_model::{UserAction, UserActionList};
use serde_json::Value;
use std::alloc::{AllocError, Global};

const ACTIONS: &str = concat!(
    r#"["AddRecord","T",null,{}] => [Add { table: CellText { shared: Some("T") }, single: true, "#,
    r#"count: 1, has_row_ids: false, columns: Sequence { items: [] } }]
["AddRecord","T",-5,{"b":2,"a":1,"b":3}] => [Add { table: CellText { shared: Some("T") }, "#,
    r#"single: true, count: 1, has_row_ids: true, columns: Sequence { items: [UserColumn { id: "#,
    r#"CellText { shared: Some("a") }, values: Sequence { items: [Int(1)] } }, UserColumn { id: "#,
    r#"CellText { shared: Some("b") }, values: Sequence { items: [Int(3)] } }] } }]
["BulkAddRecord","T",[null,7],{"B":[1,2],"A":["x",null]}] => [Add { table: CellText { shared: "#,
    r#"Some("T") }, single: false, count: 2, has_row_ids: true, columns: Sequence { items: "#,
    r#"[UserColumn { id: CellText { shared: Some("A") }, values: Sequence { items: "#,
    r#"[Text(CellText { shared: Some("x") }), Null] } }, UserColumn { id: CellText { shared: "#,
    r#"Some("B") }, values: Sequence { items: [Int(1), Int(2)] } }] } }]
["BulkAddRecord","",[],{"A":[]}] => [Add { table: CellText { shared: None }, single: false, "#,
    r#"count: 0, has_row_ids: false, columns: Sequence { items: [UserColumn { id: CellText { "#,
    r#"shared: Some("A") }, values: Sequence { items: [] } }] } }]
["UpdateRecord","T",3,{"A":false}] => [Update { table: CellText { shared: Some("T") }, single: "#,
    r#"true, rows: Sequence { items: [3] }, columns: Sequence { items: [UserColumn { id: "#,
    r#"CellText { shared: Some("A") }, values: Sequence { items: [Bool(false)] } }] } }]
["BulkUpdateRecord","T",[2,-1],{"A":[5,6]}] => [Update { table: CellText { shared: Some("T") }, "#,
    r#"single: false, rows: Sequence { items: [2, -1] }, columns: Sequence { items: [UserColumn "#,
    r#"{ id: CellText { shared: Some("A") }, values: Sequence { items: [Int(5), Int(6)] } }] } }]
["RemoveRecord","T",3] => [Remove { table: CellText { shared: Some("T") }, single: true, rows: "#,
    r#"Sequence { items: [3] } }]
["BulkRemoveRecord","T",[3,3,0]] => [Remove { table: CellText { shared: Some("T") }, single: "#,
    r#"false, rows: Sequence { items: [3, 3, 0] } }]
["AddTable","T",[{"id":"A"},{"id":"","type":"Int","isFormula":true,"formula":"1"}]] => [AddTable "#,
    r#"{ table: CellText { shared: Some("T") }, columns: Sequence { items: [UserCol { id: "#,
    r#"CellText { shared: Some("A") }, ty: None, is_formula: None, formula: None }, UserCol { "#,
    r#"id: CellText { shared: None }, ty: Some(CellText { shared: Some("Int") }), is_formula: "#,
    r#"Some(true), formula: Some(CellText { shared: Some("1") }) }] } }]
["RemoveTable","T"] => [RemoveTable { table: CellText { shared: Some("T") } }]
["RenameTable","T","U"] => [RenameTable { table: CellText { shared: Some("T") }, new: CellText { "#,
    r#"shared: Some("U") } }]
["AddColumn","T","D",{"type":"Text"}] => [AddColumn { table: CellText { shared: Some("T") }, "#,
    r#"column: UserCol { id: CellText { shared: Some("D") }, ty: Some(CellText { shared: "#,
    r#"Some("Text") }), is_formula: None, formula: None } }]
["RemoveColumn","T","D"] => [RemoveColumn { table: CellText { shared: Some("T") }, column: "#,
    r#"CellText { shared: Some("D") } }]
["RenameColumn","T","D","E"] => [RenameColumn { table: CellText { shared: Some("T") }, column: "#,
    r#"CellText { shared: Some("D") }, new: CellText { shared: Some("E") } }]
["ModifyColumn","T","D",{"formula":"$A","isFormula":false}] => [ModifyColumn { table: CellText { "#,
    r#"shared: Some("T") }, column: UserCol { id: CellText { shared: Some("D") }, ty: None, "#,
    r#"is_formula: Some(false), formula: Some(CellText { shared: Some("$A") }) } }]"#,
);

const NO_ACTIONS: &str = r#"["addRecord","T",null,{}]
["AddRecord"]
["AddRecord","T",null]
["AddRecord","T",null,{},1]
["AddRecord",5,null,{}]
["AddRecord","T",null,[]]
["AddRecord","T",[null],{}]
["AddRecord","T",1.5,{}]
["AddRecord","T",null,{"A":1.5}]
["BulkAddRecord","T",null,{}]
["BulkAddRecord","T",[true],{}]
["BulkAddRecord","T",[null,null],{"A":[1]}]
["BulkAddRecord","T",[null],{"A":[1,2]}]
["BulkAddRecord","T",[null],{"A":1}]
["UpdateRecord","T",null,{}]
["UpdateRecord","T",[1],{}]
["BulkUpdateRecord","T",[null],{"A":[1]}]
["BulkUpdateRecord","T",[1,2],{"A":[1]}]
["RemoveRecord","T",9223372036854775808]
["RemoveRecord","T",1,2]
["BulkRemoveRecord","T",1]
["BulkRemoveRecord","T",["1"]]
["AddTable","T",[{"type":"Int"}]]
["AddTable","T",[{"id":"A","type":null}]]
["AddTable","T",{"id":"A"}]
["AddTable","T",[{"id":"A","label":"a"}]]
["AddColumn","T","D"]
["AddColumn","T","D",{"id":"D"}]
["AddColumn","T","D",{"isFormula":null}]
["AddColumn","T",1,{}]
["ModifyColumn","T","A",{"formula":1}]
["ModifyColumn","T","A",{"zip":"x"}]
["RemoveTable","T",1]
["RenameTable","T",null]
["RemoveColumn","T"]
["RenameColumn","T","D"]
5
[]
{}
[["RemoveTable"]]"#;

const VALUES: &str = concat!(
    r#"null => [Null]
true => [Bool(true)]
-9223372036854775808 => [Int(-9223372036854775808)]
9223372036854775808 => -
-0 => -
1.0 => -
1e3 => -
"é" => [Text(CellText { shared: Some("é") })]
["L",null,1,"a",true,["d",5],["R","U",3]] => [List(Sequence { items: [Null, Int(1), "#,
    r#"Text(CellText { shared: Some("a") }), Bool(true), Date(5), Rec(RowRef { table: Name { "#,
    r#"text: CellText { shared: Some("U") } }, row: 3 })] })]
["L",["L"]] => -
["L",["r","U",[]]] => -
["L",["C"]] => -
["L",1.5] => -
["d",-86400] => [Date(-86400)]
["d",1.0] => -
["d"] => -
["d",1,2] => -
["R","éééééééééééééééééééééééééééééééééééééééééééééééééééééééééééééééé",4294967295] => "#,
    r#"[Rec(RowRef { table: Name { text: CellText { shared: "#,
    r#"Some("éééééééééééééééééééééééééééééééééééééééééééééééééééééééééééééééé") } }, row: "#,
    r#"4294967295 })]
["R","ééééééééééééééééééééééééééééééééééééééééééééééééééééééééééééééééx",1] => -
["R","",1] => -
["R","U",4294967296] => -
["R","U",-1] => -
["R",5,1] => -
["r","U",[2,1,0]] => [RecSet(RowSet { table: Name { text: CellText { shared: Some("U") } }, "#,
    r#"rows: Sequence { items: [2, 1, 0] } })]
["r","U",2] => -
["r","U",[-1]] => -
["E","KeyError"] => [Err(Key)]
["E","SyntaxError"] => [Err(Syntax)]
["E","keyError"] => -
["E"] => -
["C"] => [Censored]
["C",1] => -
["x",1] => -
[] => -
{} => -
{"A":1.5} => -"#,
);

fn are_shown(alloc: Global, actions: &[UserAction], want: &str) -> bool {
    is_text(&format!(in alloc; "{actions:?}"), want)
}

fn are_read(alloc: Global, read: &Result<Option<UserActionList>, AllocError>, want: &str) -> bool {
    match read {
        Ok(Some(actions)) => are_shown(alloc, actions.as_slice(), want),
        Ok(None) => want == "-",
        Err(_) => false,
    }
}

fn are_spelled(alloc: Global, text: &str, want: &str) -> bool {
    let Ok(value) = Value::from_str(alloc, text) else {
        return false;
    };
    are_read(alloc, &read_actions(alloc, &value), want)
}

// Whether the list of this action spells what is wanted.
fn is_spelled(alloc: Global, action: &str, want: &str) -> bool {
    let Ok(text) = format!(in alloc; "[{action}]") else {
        return false;
    };
    are_spelled(alloc, text.as_str(), want)
}

fn is_row_spelled(alloc: Global, row: &str) -> bool {
    let Some((action, want)) = row.split_once(" => ") else {
        return false;
    };
    is_spelled(alloc, action, want)
}

#[test]
fn spelled_actions(rt: HostRuntime) {
    for row in ACTIONS.lines() {
        assert!(rt; is_row_spelled(rt.alloc(), row), "not {row}");
    }
}

#[test]
fn no_actions(rt: HostRuntime) {
    for action in NO_ACTIONS.lines() {
        assert!(rt; is_spelled(rt.alloc(), action, "-"), "at {action}");
    }
}

// The action with this value, as JSON.
fn update(alloc: Global, value: &str) -> Result<String, AllocError> {
    format!(in alloc; "[\"UpdateRecord\",\"T\",1,{{\"A\":{value}}}]")
}

// What `Debug` shows of an action with these values.
fn shown_update(alloc: Global, values: &str) -> Result<String, AllocError> {
    format!(in alloc;
        "[Update {{ table: CellText {{ shared: Some(\"T\") }}, single: true, \
            rows: Sequence {{ items: [1] }}, columns: Sequence {{ items: \
            [UserColumn {{ id: CellText {{ shared: Some(\"A\") }}, \
            values: Sequence {{ items: {values} }} }}] }} }}]"
    )
}

fn is_update(alloc: Global, action: &str, values: &str) -> bool {
    if values == "-" {
        return is_spelled(alloc, action, "-");
    }
    let Ok(want) = shown_update(alloc, values) else {
        return false;
    };
    is_spelled(alloc, action, want.as_str())
}

fn are_values(alloc: Global, value: &str, want: &str) -> bool {
    let Ok(action) = update(alloc, value) else {
        return false;
    };
    is_update(alloc, action.as_str(), want)
}

fn is_value_row(alloc: Global, row: &str) -> bool {
    let Some((value, want)) = row.split_once(" => ") else {
        return false;
    };
    are_values(alloc, value, want)
}

#[test]
fn spelled_values(rt: HostRuntime) {
    for row in VALUES.lines() {
        assert!(rt; is_value_row(rt.alloc(), row), "not {row}");
    }
}
