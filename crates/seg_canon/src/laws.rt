//! What is read in a line that was opened to.

ghost use Rattle.seg_canon.specs.Laws.{LeavesHaveValues, LinesAreStored};

/// The line at an id stands for what the id stands for.
pub fn lines_are_stored()
    ensures { LinesAreStored }
{}

/// The words of a lowest part's line stand for its values.
pub fn leaves_have_values()
    ensures { LeavesHaveValues }
{}
