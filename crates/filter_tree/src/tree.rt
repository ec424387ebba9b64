use search_base::Word;

/// A filter. Contracts see it as its tree.
#[derive(Debug, Drop)]
pub enum Filter {
    /// Every document. It stands alone, where no condition is set.
    All,
    /// Each of these holds.
    And(Vec<Filter>),
    /// One of these holds.
    Or(Vec<Filter>),
    /// This does not hold.
    Not(Box<Filter>),
    /// The attribute's values pass the test.
    Test { attribute: Word, test: Test },
}

/// What a value of an attribute is tested for. Whole numbers go from -2^63 to 2^64 - 1.
#[derive(Debug, Drop)]
pub enum Test {
    Equal(Word),
    Above(i128),
    AtLeast(i128),
    Below(i128),
    AtMost(i128),
    /// From the first to the second, both included.
    Between(i128, i128),
    OneOf(Vec<Word>),
    Exists,
    Null,
    Empty,
}
