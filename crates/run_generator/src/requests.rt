//! The requests of a script that do not hang on its number.
ghost use Rattle.std.specs.Prelude.{◌≡◌, ◌∷◌, [], Some, None, IfOk, codes, pos, true, false};
ghost use Rattle.doc_model.specs.WellFormed.{asks_well_formed, is_well_formed};
ghost use Rattle.doc_model.specs.declared.request.Request.TheVariants.{Open, Apply};
ghost use Rattle.run_generator.specs.Script.{adds_memo_rule, adds_record, adds_resource, adds_rule, adds_table, bundle, column, data_column, first_asks, first_session, formula_column, second_asks, second_session, text_column};

use cell_types::{CellText, CellValue, Name, ValueList};
use doc_model::{
    Entry, Request, UserAction, UserActionList, UserCol, UserColList, UserColumn, UserColumnList,
};
use std::alloc::{AllocError, Global};

fn asked(session: Name, request: Request) -> Entry
    ensures { result ≡ record { session = session; request = request; size = 0; kept = true } }
{
    Entry {
        session,
        request,
        size: 0,
        kept: true,
    }
}

/// The owner's session.
pub fn first_session(alloc: Global) -> Result<Name, AllocError>
    ensures { IfOk result (λ n. n ≡ first_session) }
{
    Ok(Name::new(CellText::copy_of(alloc, "s1")?))
}

/// The editor's session.
pub fn second_session(alloc: Global) -> Result<Name, AllocError>
    ensures { IfOk result (λ n. n ≡ second_session) }
{
    Ok(Name::new(CellText::copy_of(alloc, "s2")?))
}

/// The owner's session asks for that.
pub(crate) fn first_asks(alloc: Global, request: Request) -> Result<Entry, AllocError>
    ensures { IfOk result (λ e. e ≡ first_asks request) }
{
    Ok(asked(first_session(alloc)?, request))
}

/// The editor's session asks for that.
pub(crate) fn second_asks(alloc: Global, request: Request) -> Result<Entry, AllocError>
    ensures { IfOk result (λ e. e ≡ second_asks request) }
{
    Ok(asked(second_session(alloc)?, request))
}

/// The document is asked for by a token.
pub(crate) fn opens(alloc: Global, token: &str) -> Result<Request, AllocError>
    ensures { IfOk result (λ r. r ≡ Open token.now) }
{
    Ok(Request::Open {
        token: CellText::copy_of(alloc, token)?,
    })
}

/// A bundle of one action.
pub(crate) fn bundle(alloc: Global, action: UserAction) -> Result<Request, AllocError>
    ensures { IfOk result (λ r. r ≡ bundle action) }
{
    let mut actions = UserActionList::new(alloc);
    actions.push(action)?;
    Ok(Request::Apply { actions })
}

fn data_column(alloc: Global, id: &str) -> Result<UserCol, AllocError>
    ensures { IfOk result (λ c. c ≡ data_column id.now) }
{
    Ok(UserCol {
        id: CellText::copy_of(alloc, id)?,
        ty: Some(CellText::copy_of(alloc, "Int")?),
        is_formula: None,
        formula: None,
    })
}

fn formula_column(alloc: Global, id: &str, formula: &str) -> Result<UserCol, AllocError>
    ensures { IfOk result (λ c. c ≡ formula_column id.now formula.now) }
{
    Ok(UserCol {
        id: CellText::copy_of(alloc, id)?,
        ty: Some(CellText::copy_of(alloc, "Int")?),
        is_formula: None,
        formula: Some(CellText::copy_of(alloc, formula)?),
    })
}

/// The table is added.
pub(crate) fn adds_table(alloc: Global) -> Result<UserAction, AllocError>
    ensures { IfOk result (λ a. a ≡ adds_table) }
{
    let mut columns = UserColList::new(alloc);
    columns.push(data_column(alloc, "N")?)?;
    columns.push(data_column(alloc, "K")?)?;
    columns.push(formula_column(alloc, "Q", "$N // 3")?)?;
    columns.push(formula_column(alloc, "S", "SUM(Work.lookupRecords(K=$K).N)")?)?;
    Ok(UserAction::AddTable {
        table: CellText::copy_of(alloc, "Work")?,
        columns,
    })
}

/// A column with one value.
pub(crate) fn column_of_one(
    alloc: Global,
    id: &str,
    value: CellValue,
) -> Result<UserColumn, AllocError>
    ensures { IfOk result (λ c. c ≡ column id.now (value ∷ [])) }
{
    let mut values = ValueList::new(alloc);
    values.push(value)?;
    Ok(UserColumn {
        id: CellText::copy_of(alloc, id)?,
        values,
    })
}

fn text_column(alloc: Global, id: &str, text: &str) -> Result<UserColumn, AllocError>
    ensures { IfOk result (λ c. c ≡ text_column id.now text.now) }
{
    let value = CellValue::Text(CellText::copy_of(alloc, text)?);
    column_of_one(alloc, id, value)
}

fn adds_record(
    alloc: Global,
    table: &str,
    columns: UserColumnList,
) -> Result<UserAction, AllocError>
    ensures { IfOk result (λ a. a ≡ adds_record table.now columns) }
{
    Ok(UserAction::Add {
        table: CellText::copy_of(alloc, table)?,
        single: true,
        count: 1,
        has_row_ids: false,
        columns,
    })
}

fn adds_resource(alloc: Global) -> Result<UserAction, AllocError>
    ensures { IfOk result (λ a. a ≡ adds_resource) }
{
    let mut columns = UserColumnList::new(alloc);
    columns.push(text_column(alloc, "colIds", "*")?)?;
    columns.push(text_column(alloc, "tableId", "Work")?)?;
    adds_record(alloc, "_grist_ACLResources", columns)
}

fn adds_memo_rule(alloc: Global) -> Result<UserAction, AllocError>
    ensures { IfOk result (λ a. a ≡ adds_memo_rule) }
{
    let formula = "user.Access == EDITOR and rec.N < 0";
    let mut columns = UserColumnList::new(alloc);
    columns.push(text_column(alloc, "aclFormula", formula)?)?;
    columns.push(text_column(alloc, "memo", "negative")?)?;
    columns.push(text_column(alloc, "permissionsText", "-U")?)?;
    columns.push(column_of_one(alloc, "resource", CellValue::Int(1))?)?;
    adds_record(alloc, "_grist_ACLRules", columns)
}

/// The rule is added, with its resource.
pub(crate) fn adds_rule(alloc: Global) -> Result<Request, AllocError>
    ensures { IfOk result (λ r. r ≡ Apply adds_rule) }
{
    let mut actions = UserActionList::new(alloc);
    actions.push(adds_resource(alloc)?)?;
    actions.push(adds_memo_rule(alloc)?)?;
    Ok(Request::Apply { actions })
}
