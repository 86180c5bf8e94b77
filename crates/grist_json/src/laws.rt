//! Laws of lines, each on the contract of a function that does nothing.
ghost use Rattle.grist_json.specs.Laws.{OneReading, FrameLaw};

/// Bytes spell at most one request, at most one frame and at most one user.
pub fn one_reading_law()
    ensures { OneReading }
{}

/// A printed line in its frame is the compact text of the frame.
pub fn frame_law()
    ensures { FrameLaw }
{}
