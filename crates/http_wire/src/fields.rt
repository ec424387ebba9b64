// The header fields of a head, and what the wire asks of them.
ghost use Rattle.std.specs.Prelude.{◌≡◌, ◌==◌, ◌||◌, ◌^◌, ◌-◌, ◌+◌, ◌*◌, ◌≤◌, ◌++◌, min, length, map, IsTrue, List, ℕ, EachIndex, slice_index, All, IfOk};
ghost use Rattle.std.specs.List.{list_any, list_all, flat_map, slice_split};
ghost use Rattle.std.specs.Char.{is_ascii_digit, digit_value};
ghost use Rattle.std.specs.Str.Parse.{digits_value};
ghost use Rattle.httparse.specs.Grammar.{is_ows, trim_ows};
ghost use Rattle.httparse.specs.Spans.{header_bytes, IsHeaderWithin};
ghost use Rattle.http_wire.specs.Fields.{pair_of, LengthsAre, held_closes};
ghost use Rattle.http_wire.specs.Judge.{is_coding, is_length, is_close, is_close_word, is_digits, length_value};

use httparse::spans::HeaderSpan;
use search_base::NoMemory;
use std::alloc::Global;

/// A header's name and its value, with no blanks around the value.
#[derive(Clone, Copy)]
pub struct Field<'b> {
    pub name: &'b [u8],
    pub value: &'b [u8],
}

/// The values of the `Content-Length` headers.
pub enum Lengths<'b> {
    Absent,
    One(&'b [u8]),
    Several,
}

/// The fields of a head, at the places that were found in it.
pub fn gather<'b>(
    alloc: Global,
    head: &'b [u8],
    spans: &[HeaderSpan],
) -> Result<Vec<Field<'b>>, NoMemory>
    requires { All (IsHeaderWithin (length head.now)) spans.now }
    ensures { IfOk result (λ fields. map pair_of fields.items ≡ map (header_bytes head.now) spans.now) }
{
    let mut fields = Vec::new(alloc);
    for span in spans {
        fields.push(Field {
            name: span.name.of(head),
            value: span.value.of(head),
        })?;
    }
    Ok(fields)
}

#[tactic(auto, unfolding(crate::specs::Judge::is_coding))]
fn is_coding_field(field: &Field<'_>) -> bool
    ensures { result ≡ is_coding (pair_of field.now) }
{
    field.name.eq_ignore_ascii_case(b"transfer-encoding")
        || (field.name.eq_ignore_ascii_case(b"content-encoding")
            && !field.value.eq_ignore_ascii_case(b"identity"))
}

/// Whether a field says that the body is coded.
pub fn any_coding(fields: &[Field<'_>]) -> bool
    ensures { result ≡ list_any (λ field. is_coding (pair_of field)) fields.now }
{
    fields.iter().any(|field| is_coding_field(field))
}

fn is_blank(b: u8) -> bool
    ensures { result ≡ is_ows b }
{
    b == b' ' || b == b'\t'
}

// The text without the blanks at both ends.
fn trim(text: &[u8]) -> &[u8]
    ensures { result.now ≡ trim_ows text.now }
{
    let mut start = 0;
    let mut end = text.len();
    while start < end && is_blank(text[start]) {
        start += 1;
    }
    while start < end && is_blank(text[end - 1]) {
        end -= 1;
    }
    &text[start..end]
}

fn is_close_member(member: &[u8]) -> bool
    ensures { result ≡ is_close_word (trim_ows member.now) }
{
    trim(member).eq_ignore_ascii_case(b"close")
}

// Whether a list that commas separate has the member `close`.
fn lists_close(value: &[u8]) -> bool
    ensures { result ≡ list_any (λ member. is_close_word (trim_ows member)) (slice_split (λ b. b == 44) value.now) }
{
    value
        .split(|b| *b == b',')
        .any(|member| is_close_member(member))
}

#[tactic(auto, unfolding(crate::specs::Judge::is_close))]
fn is_close_field(field: &Field<'_>) -> bool
    ensures { result ≡ is_close (pair_of field.now) }
{
    field.name.eq_ignore_ascii_case(b"connection") && lists_close(field.value)
}

fn any_close(fields: &[Field<'_>]) -> bool
    ensures { result ≡ list_any (λ field. is_close (pair_of field)) fields.now }
{
    fields.iter().any(|field| is_close_field(field))
}

/// Whether a request of HTTP/1.`minor` with these fields asks to close.
pub fn asks_to_close(minor: u8, fields: &[Field<'_>]) -> bool
    ensures { result ≡ held_closes minor fields.now }
{
    minor == 0 || any_close(fields)
}

#[tactic(auto, unfolding(crate::specs::Judge::is_length))]
fn is_length_field(field: &Field<'_>) -> bool
    ensures { result ≡ is_length (pair_of field.now) }
{
    field.name.eq_ignore_ascii_case(b"content-length")
}

// What was found, with one more field.
fn add_length<'b>(found: Lengths<'b>, field: &Field<'b>) -> Lengths<'b>
    ensures { (values : List (List ℕ)) → LengthsAre values found.entry → LengthsAre (values ++ length_value (pair_of field.now)) result }
{
    if !is_length_field(field) {
        return found;
    }
    match found {
        Lengths::Absent => Lengths::One(field.value),
        Lengths::One(_) => Lengths::Several,
        Lengths::Several => Lengths::Several,
    }
}

/// The values of the length fields.
pub fn find_lengths<'b>(fields: &[Field<'b>]) -> Lengths<'b>
    ensures { LengthsAre (flat_map (λ field. length_value (pair_of field)) fields.now) result }
{
    let mut found = Lengths::Absent;
    for field in fields {
        found = add_length(found, field);
    }
    found
}

fn all_digits(text: &[u8]) -> bool
    ensures { result ≡ list_all is_ascii_digit text.now }
{
    text.iter().all(|b| b.is_ascii_digit())
}

/// Whether a text is one or more decimal digits.
#[tactic(auto, unfolding(crate::specs::Judge::is_digits))]
pub fn is_number(text: &[u8]) -> bool
    ensures { result ≡ is_digits text.now }
{
    !text.is_empty() && all_digits(text)
}

// A number and one more digit.
fn push_digit(number: u64, digit: u8) -> u64
    requires { IsTrue (is_ascii_digit digit) }
    ensures { result ≡ min (number * 10 + digit_value digit) (2 ^ 64 - 1) }
{
    number
        .saturating_mul(10)
        .saturating_add(u64::from(digit - b'0'))
}

/// The number that digits write, or 2^64 - 1 where that is less.
#[tactic(auto, using(std::proofs::lemmas::Int::Digits::digits_value_more))]
pub fn number_of(text: &[u8]) -> u64
    requires { EachIndex text.now (λ k. IsTrue (is_ascii_digit (slice_index text.now k))) }
    ensures { result ≡ min (digits_value 10 text.now) (2 ^ 64 - 1) }
{
    let mut number: u64 = 0;
    for b in text {
        number = push_digit(number, *b);
    }
    number
}
