//! What a rule asks of the user and of the rows.

ghost use Rattle.std.specs.Prelude.{◌≡◌, ℕ, List, Option, Some, None, IfSome, MatchOption, option_map, option_and_then};
ghost use Rattle.std.specs.Borrow.{Bor};
ghost use Rattle.formula_parse.specs.Lexemes.{is_id};
ghost use Rattle.acl_formula.specs.Asked.{asked_by};
ghost use Rattle.acl_formula.specs.Desk.{lent};
ghost use Rattle.acl_formula.specs.DeskRules.{IsLent};
ghost use Rattle.acl_formula.specs.RuleFields.{own_field, is_own, row_field, field_of, found_field, named_field, user_field, cell_in, read};
ghost use Rattle.acl_formula.specs.RuleValue.{atom_value};

use crate::operand::{Operand, operand_of};
use crate::user_info::{Attribute, AttributeRow, NamedCell, RowReader, UserInfo};
use cell_types::{CellValue, Name};
use doc_model::User;
use formula_parse::RuleAtom;

// user.NAME
fn own_field<'a>(user: &'a User, name: &str) -> Option<Operand<'a>>
    ensures value { option_map lent result ≡ own_field user.now name.now }
    ensures lent { IfSome result IsLent }
{
    match name {
        "Access" => match &user.access {
            Some(access) => Some(Operand::Text(access.as_str())),
            None => Some(Operand::Null),
        },
        "Email" => Some(Operand::Text(user.email.as_str())),
        "Name" => Some(Operand::Text(user.name.as_str())),
        "UserID" => Some(Operand::Int(user.id)),
        _ => None,
    }
}

#[tactic(auto, unfolding(formula_parse::specs::Lexemes::id_word))]
fn is_id(name: &str) -> bool
    ensures { result ≡ is_id name.now }
{
    name == "id"
}

// A field of a row.
fn field_of_row<'a, W: RowReader>(row: &'a W, name: &Name) -> Option<Operand<'a>>
    ensures value { option_map lent result ≡ row_field (W.told row.now) name.now }
    ensures lent { IfSome result IsLent }
{
    if is_id(name.as_str()) {
        return Some(Operand::Int(i64::from(row.id())));
    }
    match row.cell(name) {
        Some(cell) => operand_of(cell),
        None => None,
    }
}

// rec.NAME or newRec.NAME
fn row_field<'a, W: RowReader>(row: Option<&'a W>, name: &Name) -> Option<Operand<'a>>
    ensures value { option_map lent result
        ≡ field_of (option_map (λ w. W.told w.now) row.entry) name.now }
    ensures lent { IfSome result IsLent }
{
    match row {
        Some(row) => field_of_row(row, name),
        None => None,
    }
}

fn cell_in<'a>(cells: &'a [NamedCell], name: &Name) -> Option<&'a CellValue>
    ensures { MatchOption result
        (cell_in cells.now name.now ≡ None)
        (λ v. cell_in cells.now name.now ≡ Some v.now) }
{
    for cell in cells {
        if cell.column.as_str() == name.as_str() {
            return Some(&cell.value);
        }
    }
    None
}

impl RowReader for AttributeRow {
    ghost use Rattle.acl_formula.specs.RuleFields.{cell_in};

    ghost told = { λ r. record { id = r.row; cell = λ c. cell_in r.cells c } };

    fn id(&self) -> u32 {
        self.row
    }

    fn cell(&self, column: &Name) -> Option<&CellValue> {
        cell_in(self.cells.as_slice(), column)
    }
}

// A field of the row that an attribute found.
fn found_field<'a>(found: &'a Option<AttributeRow>, name: &Name) -> Option<Operand<'a>>
    ensures value { option_map lent result ≡ found_field found.now name.now }
    ensures lent { IfSome result IsLent }
{
    match found {
        Some(row) => field_of_row(row, name),
        None => Some(Operand::Null),
    }
}

// A field of the attribute of that name.
fn named_field<'a>(attributes: &'a [Attribute], name: &Name, field: &Name) -> Option<Operand<'a>>
    ensures value { option_map lent result ≡ named_field attributes.now name.now field.now }
    ensures lent { IfSome result IsLent }
{
    for attribute in attributes {
        if attribute.name.as_str() == name.as_str() {
            return found_field(&attribute.row, field);
        }
    }
    None
}

// Whether the user has a field of its own of that name.
fn is_own(name: &str) -> bool
    ensures { result ≡ is_own name.now }
{
    name == "Access" || name == "Email" || name == "Name" || name == "UserID"
}

// user.NAME.NAME
fn user_field<'a>(user: &'a UserInfo, name: &Name, field: &Name) -> Option<Operand<'a>>
    ensures value { option_map lent result ≡ user_field user.now name.now field.now }
    ensures lent { IfSome result IsLent }
{
    if is_own(name.as_str()) {
        return None;
    }
    named_field(user.attributes.as_slice(), name, field)
}

// An atom of a rule.
pub(crate) fn atom_value<'a, W: RowReader>(
    atom: &RuleAtom,
    user: &'a UserInfo,
    before: Option<&'a W>,
    after: Option<&'a W>,
) -> Option<Operand<'a>>
    ensures value { option_map lent result
        ≡ atom_value (asked_by W.told user.now before.entry after.entry) atom.now }
    ensures lent { IfSome result IsLent }
{
    match atom {
        RuleAtom::Owner => Some(Operand::Text("owners")),
        RuleAtom::Editor => Some(Operand::Text("editors")),
        RuleAtom::Viewer => Some(Operand::Text("viewers")),
        RuleAtom::User(name) => own_field(&user.user, name.as_str()),
        RuleAtom::UserAttribute(name, field) => user_field(user, name, field),
        RuleAtom::Rec(name) => row_field(before, name),
        RuleAtom::NewRec(name) => row_field(after, name),
    }
}
