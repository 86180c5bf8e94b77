//! The ids that every document has.

ghost use Rattle.std.specs.Prelude.{◌≡◌, IfOk};
ghost use Rattle.cell_types.specs.NameLength.{HasNameLength};
ghost use Rattle.row_tables.specs.Known.{known_text};

use cell_types::{CellText, Name};
use std::alloc::{AllocError, Global};

/// A table or a column that every new document has.
#[derive(Clone, Copy)]
pub(crate) enum Known {
    Tables,
    Columns,
    Resources,
    Rules,
    TableId,
    ParentId,
    ColId,
    Type,
    IsFormula,
    Formula,
    ColIds,
    Resource,
    AclFormula,
    PermissionsText,
    RulePos,
    UserAttributes,
    Memo,
    Table1,
    A,
    B,
    C,
}

/// Its id.
pub(crate) fn name_of(alloc: Global, known: Known) -> Result<Name, AllocError>
    ensures { IfOk result (λ n. n ≡ known_text known) }
{
    Ok(Name::new(CellText::copy_of(alloc, text_of(known))?))
}

#[tactic(auto, unfolding(doc_model::specs::MetadataIds::tables_id, doc_model::specs::MetadataIds::columns_id, doc_model::specs::MetadataIds::resources_id, doc_model::specs::MetadataIds::rules_id))]
fn text_of(known: Known) -> &'static str
    ensures value { result.now ≡ known_text known }
    ensures length { HasNameLength result.now }
{
    match known {
        Known::Tables => "_grist_Tables",
        Known::Columns => "_grist_Tables_column",
        Known::Resources => "_grist_ACLResources",
        Known::Rules => "_grist_ACLRules",
        Known::TableId => "tableId",
        Known::ParentId => "parentId",
        Known::ColId => "colId",
        Known::Type => "type",
        Known::IsFormula => "isFormula",
        Known::Formula => "formula",
        Known::ColIds => "colIds",
        Known::Resource => "resource",
        Known::AclFormula => "aclFormula",
        Known::PermissionsText => "permissionsText",
        Known::RulePos => "rulePos",
        Known::UserAttributes => "userAttributes",
        Known::Memo => "memo",
        Known::Table1 => "Table1",
        Known::A => "A",
        Known::B => "B",
        Known::C => "C",
    }
}
