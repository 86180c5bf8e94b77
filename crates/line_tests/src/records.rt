//! Plan: which records are spelled, in either form, and how each is printed (`printed_records`).
//! A row is what is read and what is printed of it, or `-` where none is spelled.

use crate::texts::is_line;
use record_lines::*;
use std::alloc::Global;

const RECORDS: &str = concat!(
    r#"{"actions":[],"number":0,"version":2} => {"actions":[],"number":0,"version":2}
 {"version":2, "number":9223372036854775807, "actions":[]} => "#,
    r#"{"actions":[],"number":9223372036854775807,"version":2}
{"number":0,"actions":[["BulkAddRecord","Table1",[1],{"B":["x"],"A":[5]}]]} => "#,
    r#"{"actions":[["BulkAddRecord","Table1",[1],{"A":[5],"B":["x"]}]],"number":0,"version":2}
{"actions":[["BulkUpdateRecord","T",[2,1],{"A":[["d",5],["L",1,["d",0]]]}],"#,
    r#"["AddColumn","T","C",{"type":"Date","row":6,"isFormula":false,"formula":""}]],"#,
    r#""number":1,"version":2} => "#,
    r#"{"actions":[["BulkUpdateRecord","T",[2,1],{"A":[["d",5],["L",1,["d",0]]]}],"#,
    r#"["AddColumn","T","C",{"formula":"","isFormula":false,"row":6,"type":"Date"}]],"#,
    r#""number":1,"version":2}
{"actions":[["BulkRemoveRecord","T",[]],["AddTable","T",[{"row":4294967295,"type":"Ref:T","#,
    r#""id":"A","isFormula":false,"formula":""}],2],["RemoveTable","T"],["RenameTable","T","U"],"#,
    r#"["RemoveColumn","T","C"],["RenameColumn","T","A","B"],["ModifyColumn","T","A","#,
    r#"{"formula":"1","isFormula":true,"type":"RefList:U"}]],"number":2} => "#,
    r#"{"actions":[["BulkRemoveRecord","T",[]],["AddTable","T",[{"formula":"","id":"A","#,
    r#""isFormula":false,"row":4294967295,"type":"Ref:T"}],2],["RemoveTable","T"],"#,
    r#"["RenameTable","T","U"],["RemoveColumn","T","C"],["RenameColumn","T","A","B"],"#,
    r#"["ModifyColumn","T","A",{"formula":"1","isFormula":true,"type":"RefList:U"}]],"#,
    r#""number":2,"version":2}
nonsense => -
{"actions":[],"number":0,"version":1} => -
{"actions":[],"number":0,"version":"2"} => -
{"actions":[],"number":0,"version":2,"x":1} => -
{"actions":[],"number":-1} => -
{"actions":[],"number":9223372036854775808} => -
{"actions":[]} => -
{"actions":[["BulkUpdateRecord","T",[1],{"A":[["d",5]]}]],"number":1} => -
{"actions":[["BulkAddRecord","T",[1],{"A":[["L",["d",5]]]}]],"number":1} => -
{"actions":[["AddColumn","T","C",{"formula":"","isFormula":false,"row":6,"type":"Date"}]],"#,
    r#""number":1} => -
{"actions":[["AddRecord","T",1,{"A":5}]],"number":0,"version":2} => -
{"actions":[["BulkAddRecord","T",[1],{"A":[5,6]}]],"number":0,"version":2} => -
{"actions":[["BulkAddRecord","T",[null],{"A":[5]}]],"number":0,"version":2} => -
{"actions":[["RemoveTable",""]],"number":0,"version":2} => -
{"actions":[["RenameTable","T",""]],"number":0,"version":2} => -
{"actions":[["RemoveTable","ttttttttttttttttttttttttttttttttttttttttttttttttttttttttttttttttt"#,
    r#""]],"number":0,"version":2} => -
{"actions":[["AddColumn","T","C",{"formula":"","isFormula":false,"type":"Int"}]],"#,
    r#""number":0} => -
{"actions":[["AddColumn","T","C",{"formula":null,"isFormula":false,"row":6,"type":"Int"}]],"#,
    r#""number":0} => -
{"actions":[["ModifyColumn","T","C",{"formula":"","isFormula":false,"type":"Ref:"}]],"#,
    r#""number":0} => -
{"actions":[["ModifyColumn","T","C",{"formula":"","isFormula":false,"type":"Whole"}]],"#,
    r#""number":0} => -"#,
);

fn is_printed_as(alloc: Global, bytes: &[u8], want: &str) -> bool {
    match read_record(alloc, bytes) {
        Ok(Some(kept)) => is_line(&write_record(alloc, kept.number, &kept.actions), want),
        Ok(None) => want == "-",
        Err(_) => false,
    }
}

fn is_record_row(alloc: Global, row: &str) -> bool {
    let Some((bytes, want)) = row.split_once(" => ") else {
        return false;
    };
    is_printed_as(alloc, bytes.as_bytes(), want)
}

#[test]
fn printed_records(rt: HostRuntime) {
    for row in RECORDS.lines() {
        assert!(rt; is_record_row(rt.alloc(), row), "not {row}");
    }
}
