ghost use Rattle.std.specs.Prelude.{◌≡◌, ◌≤◌, length};
ghost use Rattle.search_base.specs.Heads.{head_from, AreBytes};
ghost use Rattle.path_registry.specs.ShortNames.{short_key};

use search_base::Word;

// The longest names that stand as numbers, in bytes.
const LONGEST: usize = 8;

/// The bytes of a name as a number, the first byte highest, which tells names of one length apart. None for a name that
/// is empty, has more than 8 bytes or is not of this length.
pub(crate) fn short_key(length: usize, name: &Word) -> Option<u64>
    ensures key { result ≡ short_key length name.now }
    ensures bytes { AreBytes name.now }
{
    let name = name.as_str();
    if name.is_empty() || name.len() > LONGEST || name.len() != length {
        return None;
    }
    Some(number_of(name))
}

fn number_of(name: &str) -> u64
    requires { length name.now ≤ LONGEST }
    ensures { result ≡ head_from (length name.now) name.now }
{
    let mut number = 0;
    for byte in name.as_bytes() {
        number = number * 256 + u64::from(*byte);
    }
    number
}
