ghost use Rattle.doc_rows.specs.Rows.{TextsStandApart};

/// The first word of a leaf stands eight behind the last word before it in the path, the first word of a path at 0,
/// and the words of one leaf stand from one another as its tokens do. It does nothing.
pub fn texts_stand_apart()
    ensures { TextsStandApart }
{}
