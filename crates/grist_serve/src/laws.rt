//! Laws of connections, each on the contract of a function that does nothing.
ghost use Rattle.grist_serve.specs.Laws.{GivenLaw};

/// What a pass was given in its stretch of a history is what its session is given in all of it,
/// where the session's entries are the pass's own of that stretch.
pub fn given_law()
    ensures { GivenLaw }
{}
