// Where the head of a request begins and ends.
ghost use Rattle.std.specs.Prelude.{◌≡◌, ℕ, ◌+◌, ◌<◌, ◌≤◌, length, drop, IsTrue, MatchOption, true};
ghost use Rattle.http_wire.specs.Head.{is_end_at, closes_at, AreEnds, Starts, HasNoEmptyLine};
ghost use Rattle.http_wire.specs.Cut.{CutIs};

/// The most bytes of a head. The line ends before it have fewer.
pub const MOST_HEAD: usize = 16384;

/// What a look at the bytes so far finds.
#[derive(Clone, Copy, Debug, PartialEq, Eq)]
pub enum Cut {
    /// A head of `len` bytes begins at `start`.
    Head { start: usize, len: usize },
    /// No head can come any more.
    TooLong,
    /// There are only line ends.
    Blank,
    /// A head has begun.
    InHead,
}

// Whether a byte belongs to a line end.
#[tactic(auto, unfolding(crate::specs::Head::is_end_at))]
fn is_end(bytes: &[u8], k: usize) -> bool
    ensures { result ≡ is_end_at bytes.now k }
{
    if k >= bytes.len() {
        return false;
    }
    bytes[k] == b'\n' || (bytes[k] == b'\r' && k + 1 < bytes.len() && bytes[k + 1] == b'\n')
}

// How many bytes the line ends at the front have, as far as the limit.
#[tactic(auto, unfolding(crate::specs::Head::is_end_at))]
fn skip_ends(bytes: &[u8]) -> usize
    ensures within { result ≤ length bytes.now }
    ensures few { result ≤ 16384 }
    ensures ends { AreEnds bytes.now result }
    ensures starts { result < 16384 → Starts bytes.now result }
{
    let most = bytes.len().min(MOST_HEAD);
    for k in 0..most {
        if !is_end(bytes, k) {
            return k;
        }
    }
    most
}

// Whether the first `n` bytes end with an empty line.
#[tactic(auto, unfolding(crate::specs::Head::closes_at))]
fn closes(text: &[u8], n: usize) -> bool
    requires { n ≤ length text.now }
    ensures { result ≡ closes_at text.now n }
{
    if n < 2 || text[n - 1] != b'\n' {
        return false;
    }
    text[n - 2] == b'\n' || (n >= 3 && text[n - 2] == b'\r' && text[n - 3] == b'\n')
}

// The place after the first empty line.
#[tactic(auto, unfolding(crate::specs::Head::closes_at))]
fn empty_line(text: &[u8]) -> Option<usize>
    ensures { MatchOption result (HasNoEmptyLine text.now 16385)
        (λ n. (closes_at text.now n ≡ true) × HasNoEmptyLine text.now n × (n ≤ 16384) × (n ≤ length text.now)) }
{
    let most = text.len().min(MOST_HEAD);
    for n in 0..most + 1 {
        if closes(text, n) {
            return Some(n);
        }
    }
    None
}

/// Looks for the head of the next request in the bytes so far.
pub fn find_head(bytes: &[u8]) -> Cut
    ensures { CutIs bytes.now result }
{
    let start = skip_ends(bytes);
    if start >= MOST_HEAD {
        return Cut::TooLong;
    }
    if start == bytes.len() {
        return Cut::Blank;
    }
    match empty_line(&bytes[start..]) {
        Some(len) => Cut::Head { start, len },
        None => {
            if bytes.len() - start >= MOST_HEAD {
                Cut::TooLong
            } else {
                Cut::InHead
            }
        }
    }
}
