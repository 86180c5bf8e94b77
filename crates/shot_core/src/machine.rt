//! What a core with shots answers as a machine.

use bundle_core::Given;
use snap_reads::Mark;

/// What is answered to an event, and the mark of the shot of the last entry, where it was
/// published.
#[derive(Drop)]
pub struct ShotOut {
    pub given: Given,
    pub mark: Option<Mark>,
}
