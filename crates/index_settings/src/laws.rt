ghost use Rattle.index_settings.specs.Laws.{PrintedGivesBack, PatchIsDoneOnce, TextsNameRules};

/// What is printed of settings, taken as a patch of any others, gives them back. It does nothing.
pub fn printed_gives_back()
    ensures { PrintedGivesBack }
{}

/// A patch that is given again changes nothing. It does nothing.
pub fn patch_is_done_once()
    ensures { PatchIsDoneOnce }
{}

/// A text names a rule exactly where it is that rule's text. It does nothing.
pub fn texts_name_rules()
    ensures { TextsNameRules }
{}
