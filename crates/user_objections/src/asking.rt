//! The tables that a user action asks for.

ghost use Rattle.std.specs.Prelude.{◌≡◌};
ghost use Rattle.user_actions.specs.Kinds.{is_about_rows};
ghost use Rattle.user_objections.specs.ObjectionLaws.{asks_for, is_about_rules};

use doc_model::UserAction;
use user_actions::table_of;

fn is_about_rows(action: &UserAction) -> bool
    ensures { result ≡ is_about_rows action.now }
{
    matches!(
        action,
        UserAction::Add { .. } | UserAction::Update { .. } | UserAction::Remove { .. }
    )
}

/// Whether the action is about rows of the table of rules.
///
/// Memory: none.
#[tactic(auto, unfolding(doc_model::specs::MetadataIds::rules_id))]
pub fn is_about_rules(action: &UserAction) -> bool
    ensures { result ≡ is_about_rules action.now }
{
    is_about_rows(action) && "_grist_ACLRules" == table_of(action)
}

/// Whether an action asks for the table of this id: the one that it names, and for rules also that
/// of the resources.
///
/// Memory: none.
#[tactic(auto, unfolding(doc_model::specs::MetadataIds::resources_id))]
pub fn asks_for(action: &UserAction, id: &str) -> bool
    ensures { result ≡ asks_for action.now id.now }
{
    id == table_of(action) || (is_about_rules(action) && id == "_grist_ACLResources")
}
