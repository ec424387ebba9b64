/// What an index uses a path for.
#[derive(Clone, Copy, Debug, Drop, PartialEq, Eq)]
pub struct PathUse {
    /// The rank of the path among those that are searched, 0 the best. None where it is not searched.
    pub rank: Option<u16>,
    /// Whether documents are filtered, sorted or counted by the path.
    pub faceted: bool,
}
