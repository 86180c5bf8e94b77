//! Laws over contexts, each proved as the contract of a function that does nothing.

ghost use Rattle.rule_contexts.specs.ChangedContexts.{FollowedLaw, SameAttributesLaw, SameContextLaw, SameRulesLaw};
ghost use Rattle.rule_contexts.specs.SeenLaws.{AllowedLaw, HiddenSchemaLaw, ViewLaw};

use acl_reading::reading_law;
use bundle_traces::{bundle_law, trace_law};
use censored_view::censored_view_law;
use recalc::laws::{laid_out_law, same_parts_law};
use view_refusals::allowed_view_law;

/// A context hides the schema tables.
pub fn hidden_schema_law()
    ensures { HiddenSchemaLaw }
{
    reading_law();
}

/// What a context shows of a whole document is a view, and the document allows what nothing stands
/// against there.
pub fn seen_law()
    ensures view { ViewLaw }
    ensures allowed { AllowedLaw }
{
    laid_out_law();
    same_parts_law();
    censored_view_law();
    allowed_view_law();
}

/// A bundle of records that is about no table that contexts read leaves the context of each user.
pub fn same_context_law()
    ensures { SameContextLaw }
{
    laid_out_law();
    trace_law();
}

/// Such a bundle leaves the attributes that the rules say, too.
pub fn same_attributes_law()
    ensures { SameAttributesLaw }
{
    laid_out_law();
    trace_law();
}

/// A bundle of records that is about no table of the access rules leaves the rules, and the
/// attributes that they say, whatever tables these look up.
pub fn same_rules_law()
    ensures { SameRulesLaw }
{
    laid_out_law();
    trace_law();
}

/// What the steps of a bundle that leaves contexts tell, in the context of a user, are the changes
/// of what the user sees.
pub fn followed_law()
    ensures { FollowedLaw }
{
    same_context_law();
    bundle_law();
}
