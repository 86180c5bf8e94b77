//! Laws of replays, each on the contract of a function that does nothing.
ghost use Rattle.grist_run.specs.Complete.{CompletenessLaw};

/// Where nothing outside fails, a replay answers all that it is asked, or memory was wanting.
pub fn completeness_law()
    ensures { CompletenessLaw }
{}
