ghost use Rattle.std.specs.Prelude.{◌≡◌, ◌+◌, ◌*◌, ◌-◌, ◌^◌, min, length, IsTrue, EachIndex, slice_index};
ghost use Rattle.std.specs.Char.{is_ascii_digit, digit_value};
ghost use Rattle.std.specs.List.{list_all};
ghost use Rattle.std.specs.Str.Parse.{digits_value};
ghost use Rattle.filter_tree.specs.Number.{is_numeral as is_numeral_text, numeral_up_to, number_of};

/// The least whole number has this magnitude.
const MOST_BELOW_ZERO: u64 = 1 << 63;

/// The whole number that a text writes: an optional `-` and decimal digits, from -2^63 to 2^64 - 1. Takes no memory.
#[tactic(auto, unfolding(crate::specs::Number::number_of))]
pub fn whole_number(text: &str) -> Option<i128>
    ensures { result ≡ number_of text.now }
{
    match text.as_bytes() {
        [] => None,
        [b'-', digits @ ..] => match numeral(digits, MOST_BELOW_ZERO) {
            Some(number) => Some(-i128::from(number)),
            None => None,
        },
        digits => match numeral(digits, u64::MAX) {
            Some(number) => Some(i128::from(number)),
            None => None,
        },
    }
}

/// The number that digits write, where it is no greater than `most`.
fn numeral(digits: &[u8], most: u64) -> Option<u64>
    ensures { result ≡ numeral_up_to most digits.now }
{
    if !is_numeral(digits) {
        return None;
    }
    let value = value_of(digits);
    if value <= u128::from(most) {
        Some(value as u64)
    } else {
        None
    }
}

fn is_numeral(text: &[u8]) -> bool
    ensures { result ≡ is_numeral_text text.now }
{
    !text.is_empty() && all_digits(text)
}

fn all_digits(text: &[u8]) -> bool
    ensures { result ≡ list_all is_ascii_digit text.now }
{
    text.iter().all(|b| b.is_ascii_digit())
}

/// The number that digits write, or the greatest `u128` where it is greater.
#[tactic(auto, using(std::proofs::lemmas::Int::Digits::digits_value_more))]
fn value_of(digits: &[u8]) -> u128
    requires { EachIndex digits.now (λ k. IsTrue (is_ascii_digit (slice_index digits.now k))) }
    ensures { result ≡ min (digits_value 10 digits.now) (2 ^ 128 - 1) }
{
    let mut value: u128 = 0;
    for digit in digits {
        value = with_digit(value, *digit);
    }
    value
}

fn with_digit(value: u128, digit: u8) -> u128
    requires { IsTrue (is_ascii_digit digit) }
    ensures { result ≡ min (value * 10 + digit_value digit) (2 ^ 128 - 1) }
{
    value
        .saturating_mul(10)
        .saturating_add(u128::from(digit - b'0'))
}
