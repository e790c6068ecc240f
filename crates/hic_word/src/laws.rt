ghost use Rattle.hic_word.specs.FormLaws.{HeightsAreLeast, SlicesAreParts, PartsAreParts, PartsAreJoined, HighPartsAreEmpty, EntriesAreRaised, PathsAreShort, PathsArePlaces, PacksAreSmall, LinesAreNeeded, LinesTellHeights, RootsTellArrays, VisitsAreWhole};
ghost use Rattle.hic_word.specs.WordLaws.{DigitsAreRead, PacksFit, NodesAreRead};
ghost use Rattle.hic_word.specs.StandingLaws.{NoLineIsBoth, LinesTellValues, WordsTellValues, EntriesTellParts, StandingIsKept, StandingGrows};
ghost use Rattle.hic_word.specs.BalanceLaws.{BalancedIsExact, CountsAreBounded, BalanceIsByCounts};
ghost use Rattle.hic_word.specs.HoldLaws.{StandingWordsAreHeld, StandingWordsAreLive, HoldingIsByCounts, EmptyMemoryHoldsNothing, OneWordMoreIsHeld, HeldWordsAreCounted, HoldsAreGivenUp, LinesOutlastHolds, InternedLineIsHeld};
ghost use Rattle.hic_word.specs.ExchangeLaws.{LiveWordsStandOn, ReachedLinesStay};
ghost use Rattle.hic_word.specs.ArrayLaws.{ArraysAreOrdered, ValuesTellArrays, NextIsLeast, SlicesAreArrays, SlicesNest, SlicesAreChanged};
ghost use Rattle.hic_word.specs.JoinLaws.{ArraysAreParts, LowArraysFit};
ghost use Rattle.hic_word.specs.ChangeLaws.{ChangesAreMade, NothingIsChanged, DifferencesAreExact};
ghost use Rattle.hic_word.specs.Example.{ExampleIsBalanced};

/// The height of an array is the least that has room for it.
pub fn heights_are_least()
    ensures { HeightsAreLeast }
{}

/// The slices that make an entry are the parts of the array.
pub fn slices_are_parts()
    ensures { SlicesAreParts }
{}

/// The entry of an array is joined from those of its parts.
pub fn parts_are_joined()
    ensures { PartsAreJoined }
{}

/// A part past the last offset is empty.
pub fn high_parts_are_empty()
    ensures { HighPartsAreEmpty }
{}

/// A path in a canonical form has at most 31, 15 or 10 numbers, by the width of lines.
pub fn paths_are_short()
    ensures { PathsAreShort }
{}

/// A line value has something that needs a line: a large value, or several entries, or one that is packed.
pub fn lines_are_needed()
    ensures { LinesAreNeeded }
{}

/// The height of a line value follows from it.
pub fn lines_tell_heights()
    ensures { LinesTellHeights }
{}

/// Arrays with one root are equal.
pub fn roots_tell_arrays()
    ensures { RootsTellArrays }
{}

/// The visit of an array has levels enough.
pub fn visits_are_whole()
    ensures { VisitsAreWhole }
{}

/// No line stands for a leaf and for an inner line value.
pub fn no_line_is_both()
    ensures { NoLineIsBoth }
{}

/// A line stands for one line value at most.
pub fn lines_tell_values()
    ensures { LinesTellValues }
{}

/// Among lines that differ, words are equal exactly where what they stand for is.
pub fn words_tell_values()
    ensures { WordsTellValues }
{}

/// Among lines that differ, words are equal exactly where the parts of one height are whose entries they stand for.
pub fn entries_tell_parts()
    ensures { EntriesTellParts }
{}

/// What stands for a value stands for it wherever the lines that are reached are kept.
pub fn standing_is_kept()
    ensures { StandingIsKept }
{}

/// The live ids of a balanced memory are the line values of the arrays that it is held for, with their counts.
pub fn balanced_is_exact()
    ensures { BalancedIsExact }
{}

/// A count is at most the words of all lines and the words that hold.
pub fn counts_are_bounded()
    ensures { CountsAreBounded }
{}

/// What a memory is held for is seen only by how often each id is named.
pub fn balance_is_by_counts()
    ensures { BalanceIsByCounts }
{}

/// There is a balanced memory with two lines.
pub fn example_is_balanced()
    ensures { ExampleIsBalanced }
{}

/// A changed array is valid, and has the values of the changes.
pub fn changes_are_made()
    ensures { ChangesAreMade }
{}

/// Changes that tell what is there change nothing.
pub fn nothing_is_changed()
    ensures { NothingIsChanged }
{}

/// The offsets at which two arrays differ are found, and the values there make the one the other.
pub fn differences_are_exact()
    ensures { DifferencesAreExact }
{}

/// What stands for a value stands for it in any map that has the lines and more.
pub fn standing_grows()
    ensures { StandingGrows }
{}

/// Where each word stands for something, a balanced memory holds the words.
pub fn standing_words_are_held()
    ensures { StandingWordsAreHeld }
{}

/// What a word names that stands for something is live.
pub fn standing_words_are_live()
    ensures { StandingWordsAreLive }
{}

/// What a memory holds is seen only by how often each id is named.
pub fn holding_is_by_counts()
    ensures { HoldingIsByCounts }
{}

/// A memory without a line holds nothing.
pub fn empty_memory_holds_nothing()
    ensures { EmptyMemoryHoldsNothing }
{}

/// One hold more on what a word names holds the word.
pub fn one_word_more_is_held()
    ensures { OneWordMoreIsHeld }
{}

/// The holds of words that a memory holds are there to be given up.
pub fn held_words_are_counted()
    ensures { HeldWordsAreCounted }
{}

/// Giving up the holds of words, and of each line that leaves, ends in a memory that holds the other words.
pub fn holds_are_given_up()
    ensures { HoldsAreGivenUp }
{}

/// Holds that are given up leave the lines as they are.
pub fn lines_outlast_holds()
    ensures { LinesOutlastHolds }
{}

/// A line that was interned is held by the word of its id, in place of its words.
pub fn interned_line_is_held()
    ensures { InternedLineIsHeld }
{}

/// A list of pairs is a valid array where its offsets ascend, and its values are valid and not 0.
pub fn arrays_are_ordered()
    ensures { ArraysAreOrdered }
{}

/// Arrays with the same value at each offset are one array.
pub fn values_tell_arrays()
    ensures { ValuesTellArrays }
{}

/// The next offset is the least with a value that is not 0.
pub fn next_is_least()
    ensures { NextIsLeast }
{}

/// A slice of an array is an array, with the values from the slice's first offset on.
pub fn slices_are_arrays()
    ensures { SlicesAreArrays }
{}

/// A slice of a slice is a slice.
pub fn slices_nest()
    ensures { SlicesNest }
{}

/// A slice of a changed array is the slice, changed by the slice of the changes.
pub fn slices_are_changed()
    ensures { SlicesAreChanged }
{}

/// Numbers in the places of one value are read from it.
pub fn digits_are_read()
    ensures { DigitsAreRead }
{}

/// Packed numbers take 64 bits.
pub fn packs_fit()
    ensures { PacksFit }
{}

/// The id, the path and its length are read from the bits of an entry or a reference.
pub fn nodes_are_read()
    ensures { NodesAreRead }
{}

/// A path in a canonical form has numbers below the width of lines.
pub fn paths_are_places()
    ensures { PathsArePlaces }
{}

/// Packed numbers are as many as a line has words, and small.
pub fn packs_are_small()
    ensures { PacksAreSmall }
{}

/// A part that is the first part of a higher one has that one's entry, raised.
pub fn entries_are_raised()
    ensures { EntriesAreRaised }
{}

/// A part of a part is a part of the height below.
pub fn parts_are_parts()
    ensures { PartsAreParts }
{}

/// Where no id got another line, a live word of a memory that holds words stands for what it stood for.
pub fn live_words_stand_on()
    ensures { LiveWordsStandOn }
{}

/// Where no id got another line, and what a memory held is still live, no line has left.
pub fn reached_lines_stay()
    ensures { ReachedLinesStay }
{}

/// As many arrays as a line has words are the parts of one array, if they fit together.
pub fn arrays_are_parts()
    ensures { ArraysAreParts }
{}

/// At a height with at most 2^32 offsets, valid arrays of the height below fit together.
pub fn low_arrays_fit()
    ensures { LowArraysFit }
{}
