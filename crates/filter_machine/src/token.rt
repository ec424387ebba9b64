use search_base::Word;

/// How an attribute is compared with a value.
#[derive(Clone, Copy, Debug, PartialEq, Eq)]
pub enum Comparison {
    Equal,
    Unequal,
    Above,
    AtLeast,
    Below,
    AtMost,
}

/// A token of a filter. A word that is no keyword, and a quoted text, are texts.
#[derive(Debug, Drop)]
pub enum Token {
    Text(Word),
    And,
    Or,
    Not,
    In,
    To,
    Exists,
    Is,
    Null,
    Empty,
    Compare(Comparison),
    Open,
    Close,
    ListOpen,
    ListClose,
    Comma,
}
