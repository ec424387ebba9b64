ghost use Rattle.index_core.specs.Laws.{NoWordFindsTheList, HitsAreEachOnce, OtherPatchesLeaveRanking};

/// A search for no word finds the documents in the order of their internal ids, where no rule asks for a value of
/// theirs. It does nothing.
pub fn no_word_finds_the_list()
    ensures { NoWordFindsTheList }
{}

/// Each hit of a search stands before those after it, so that none stands twice. It does nothing.
pub fn hits_are_each_once()
    ensures { HitsAreEachOnce }
{}

/// A patch that names no member that says how paths are used leaves what a search sees of documents and the rules that
/// rank them, and reads no document. It does nothing.
pub fn other_patches_leave_ranking()
    ensures { OtherPatchesLeaveRanking }
{}
