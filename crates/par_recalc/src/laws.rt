//! What levels mean.

ghost use Rattle.par_recalc.specs.LevelLaws.{LevelLaw};

/// What levels mean, of formula columns in a list and by what they name of them: a column that
/// names none stands in level 0, any other in the level after the greatest among the levels of
/// those that it names; it has one level at most, and none exactly where naming leads from it into
/// a cycle. The places of a level are those of its columns.
pub fn level_law()
    ensures { LevelLaw }
{}
