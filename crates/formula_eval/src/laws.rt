//! Laws of evaluation by text.

ghost use Rattle.formula_eval.specs.Laws.{AlikeLaw, NamedLaw, ObeysLaw, ReadsLaw, TextLaw};

/// Readers that tell the same at what a run notes make the same run, but where it stops.
pub fn alike_law()
    ensures { AlikeLaw }
{}

/// Readers that tell the same at what a run reads tell the same at all that it notes.
pub fn reads_law()
    ensures { ReadsLaw }
{}

/// Each cell for which a run stops is needed, and named by its reads.
pub fn named_law()
    ensures { NamedLaw }
{}

/// A value is no error, and what is raised is not the error of a circular cell.
pub fn obeys_law()
    ensures { ObeysLaw }
{}

/// The run of a text is the one of its formula; without one it is a syntax error without a read.
pub fn text_law()
    ensures { TextLaw }
{}
