//! Laws of lines, each on the contract of a function that does nothing.
ghost use Rattle.io_edges.specs.Laws.{StreamLaw, KeptLaw};

/// The lines of whole lines and a rest are those lines, and then the lines of the rest.
pub fn stream_law()
    ensures { StreamLaw }
{}

/// What is kept of a line that is not too long is the line, and its length tells a line that is.
pub fn kept_law()
    ensures { KeptLaw }
{}
