//! Laws over traces, each proved as the contract of a function that does nothing.

ghost use Rattle.bundle_traces.specs.TraceLaws.{BundleLaw, TraceLaw};

use action_censor::steps_law;
use recalc::laws::laid_out_law;

/// A valid record action, with the cells that it loses, is a step of each table of the evaluated
/// document.
pub fn trace_law()
    ensures { TraceLaw }
{}

/// What a context showed before a bundle of records is what it shows of the document that its steps
/// tell of.
pub fn bundle_law()
    ensures { BundleLaw }
{
    laid_out_law();
    steps_law();
}
