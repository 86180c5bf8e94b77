//! The ids of the metadata tables.

ghost use Rattle.std.specs.Prelude.{◌≡◌};
ghost use Rattle.doc_model.specs.MetadataIds.{is_acl_id, is_metadata_id, is_schema_id};

/// Whether the id is that of a table that describes the tables or the columns.
#[tactic(auto, unfolding(doc_model::specs::MetadataIds::tables_id, doc_model::specs::MetadataIds::columns_id))]
pub fn is_schema_id(id: &str) -> bool
    ensures { result ≡ is_schema_id id.now }
{
    "_grist_Tables" == id || "_grist_Tables_column" == id
}

/// Whether the id is that of a table of the access rules.
#[tactic(auto, unfolding(doc_model::specs::MetadataIds::resources_id, doc_model::specs::MetadataIds::rules_id))]
pub fn is_acl_id(id: &str) -> bool
    ensures { result ≡ is_acl_id id.now }
{
    "_grist_ACLResources" == id || "_grist_ACLRules" == id
}

/// Whether the id is that of a metadata table.
pub fn is_metadata_id(id: &str) -> bool
    ensures { result ≡ is_metadata_id id.now }
{
    is_schema_id(id) || is_acl_id(id)
}
