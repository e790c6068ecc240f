//! Laws on the lines of a memory: which of them arrays and their parts have, when arrays find no room, and what the words
//! that a memory holds tell of it.
#![tactic(auto)]

ghost use Rattle.line_room.specs.MemoryLaws.{HoldsTellMemories};
ghost use Rattle.line_room.specs.PartLaws.{EntriesHaveLines, LinesAreOfEach, LinesInAnyOrder, PartsHaveLines, RootsHaveLines};
ghost use Rattle.line_room.specs.RoomLaws.{ReferencedLinesAreStored, RoomIsByLines, StoredLinesHadRoom, WholeMemoryLacksRoom};

/// Two memories of one layout that hold the same words are the same memory, if their lines are lines of one map and each
/// has counts for the ids of its lines alone.
pub fn holds_tell_memories()
    ensures { HoldsTellMemories }
{}

/// If the root of an array names a line, the line is one of the array's.
pub fn roots_have_lines()
    ensures { RootsHaveLines }
{}

/// If the entry of a part names a line, the line is one of the array's. The parts are those of the array's own height: at
/// a greater one, packed numbers have a line that the array itself has not.
pub fn entries_have_lines()
    ensures { EntriesHaveLines }
{}

/// A part, taken as an array by itself, has no line that the array has not.
pub fn parts_have_lines()
    ensures { PartsHaveLines }
{}

/// A line is one of several arrays' exactly where it is one of the first's or one of the others'.
pub fn lines_are_of_each()
    ensures { LinesAreOfEach }
{}

/// Arrays have together as many lines in whatever order they stand.
pub fn lines_in_any_order()
    ensures { LinesInAnyOrder }
{}

/// A memory with as many lines as its capacity lacks room for arrays of which one line is not there.
pub fn whole_memory_lacks_room()
    ensures { WholeMemoryLacksRoom }
{}

/// If a memory came to store all lines of arrays within its capacity, and lost no line that it had, it had room for them.
pub fn stored_lines_had_room()
    ensures { StoredLinesHadRoom }
{}

/// A memory in which a word references an array stores each of the array's lines.
pub fn referenced_lines_are_stored()
    ensures { ReferencedLinesAreStored }
{}

/// A memory that is balanced for words lacks room for an array exactly where the array and those that the words reference
/// have together more lines than its capacity, a line that several of them have counted once.
pub fn room_is_by_lines()
    ensures { RoomIsByLines }
{}
