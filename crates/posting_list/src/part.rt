ghost use Rattle.std.specs.Prelude.{◌≡◌};
ghost use Rattle.std.specs.Bool.{OnTrue};
ghost use Rattle.posting_list.specs.Sets.{path_of, is_first, is_part};

// The places of a list that a set of documents is made of.
#[derive(Clone, Copy)]
pub(crate) enum Part {
    // All of them.
    All,
    // Those at the beginning of any path.
    First,
    // Those in a path.
    Path(u16),
    // Those at the beginning of one path.
    Start(u16),
    // Those in a path that has no set of its own.
    Later,
}

// So many paths, from the first one on, have sets of their own.
pub(crate) const PATHS: u16 = 8;

// The path of an entry.
pub(crate) fn path_of(entry: u64) -> u16
    ensures { result ≡ path_of entry }
{
    (entry / 0x1_0000 % 0x1_0000) as u16
}

// Whether an entry is at the beginning of its path.
pub(crate) fn is_first(entry: u64) -> bool
    ensures { result ≡ is_first entry }
{
    entry % 0x1_0000 == 0
}

// Whether an entry is of the part.
pub(crate) fn is_part(part: Part, entry: u64) -> bool
    ensures { result ≡ is_part part entry }
{
    match part {
        Part::All => true,
        Part::First => is_first(entry),
        Part::Path(path) => path_of(entry) == path,
        Part::Start(path) => is_first(entry) && path_of(entry) == path,
        Part::Later => PATHS <= path_of(entry),
    }
}

// Whether two parts are one.
pub(crate) fn is_same(one: Part, other: Part) -> bool
    ensures { OnTrue result (one ≡ other) }
{
    match (one, other) {
        (Part::All, Part::All) => true,
        (Part::First, Part::First) => true,
        (Part::Later, Part::Later) => true,
        (Part::Path(path), Part::Path(another)) => path == another,
        (Part::Start(path), Part::Start(another)) => path == another,
        _ => false,
    }
}
