ghost use Rattle.index_changes.specs.Laws.{KeyStays, PathsStay, IdsAreSpentOnce, DocumentsStay, SettingsReadOnce};

/// What stays of an index whatever change it takes: its primary key, the paths of its registry, and that an internal id
/// is given once. It does nothing.
pub fn changes_keep_key_paths_and_ids()
    ensures key { KeyStays }
    ensures paths { PathsStay }
    ensures ids { IdsAreSpentOnce }
{}

/// A document keeps its internal id over each change that does not take it away. It does nothing.
pub fn documents_stay_under_their_ids()
    ensures { DocumentsStay }
{}

/// New settings read each document of the index at most once. It does nothing.
pub fn settings_read_once()
    ensures { SettingsReadOnce }
{}
