// Documents as JSON, put behind a text.
ghost use Rattle.std.specs.Prelude.{◌≡◌, ◌+◌, ◌*◌, ◌<◌, ◌^◌, ◌++◌, IfOk, OnOk, string_bytes};
ghost use Rattle.serde_json.specs.Written.{comma_if};
ghost use Rattle.demo_input.specs.Draws.{draw};
ghost use Rattle.demo_input.specs.Documents.{word_of, tag_of, title, document, documents, list_text};

use crate::draws::Draws;
use search_base::NoMemory;
use std::alloc::Global;
use std::fmt::Write;

const WORDS: [&str; 16] = [
    "amber", "bridge", "cloud", "delta", "ember", "forest", "garden", "harbor", "island", "jungle",
    "kettle", "lantern", "meadow", "north", "ocean", "pebble",
];

const TAGS: [&str; 4] = ["red", "green", "blue", "white"];

/// The text of a list of `count` documents, the first of which has the number `made + 1`.
pub(crate) fn documents_text(
    alloc: Global,
    count: u32,
    made: u32,
    draws: &mut Draws,
) -> Result<String, NoMemory>
    requires { made + count < 2 ^ 32 }
    ensures text { IfOk result (λ text. string_bytes text ≡ list_text (documents count made draws.old.last)) }
    ensures drawn { OnOk result (draws.new.last ≡ draw (6 * count) draws.old.last) }
{
    let mut text = String::from_str(alloc, "[")?;
    for place in 0..count {
        put_comma(&mut text, place > 0)?;
        put_document(&mut text, made + place + 1, draws)?;
    }
    text.push_str("]")?;
    Ok(text)
}

// Puts a comma, where something stands before.
fn put_comma(text: &mut String, later: bool) -> Result<(), NoMemory>
    ensures { OnOk result (string_bytes text.new ≡ string_bytes text.old ++ comma_if later) }
{
    if later {
        text.push_str(",")?;
    }
    Ok(())
}

// Puts the document of this number.
fn put_document(text: &mut String, number: u32, draws: &mut Draws) -> Result<(), NoMemory>
    ensures text { OnOk result (string_bytes text.new ≡ string_bytes text.old ++ document number draws.old.last) }
    ensures drawn { OnOk result (draws.new.last ≡ draw 6 draws.old.last) }
{
    let first = draws.next();
    let second = draws.next();
    let third = draws.next();
    let fourth = draws.next();
    let tag = tag(draws.next());
    let year = 1990 + draws.next() % 30;
    write!(text, "{{\"id\":{number},\"tags\":[\"{tag}\"],\"title\":\"")?;
    put_title(text, first, second, third, fourth)?;
    write!(text, "\",\"year\":{year}}}")?;
    Ok(())
}

// Puts the words that four drawn numbers stand for.
fn put_title(
    text: &mut String,
    first: u32,
    second: u32,
    third: u32,
    fourth: u32,
) -> Result<(), NoMemory>
    ensures { OnOk result (string_bytes text.new ≡ string_bytes text.old ++ title first second third fourth) }
{
    let first = word(first);
    let second = word(second);
    let third = word(third);
    let fourth = word(fourth);
    write!(text, "{first} {second} {third} {fourth}")?;
    Ok(())
}

fn word(drawn: u32) -> &'static str
    ensures { result.now ≡ word_of drawn }
{
    WORDS[drawn as usize % 16]
}

fn tag(drawn: u32) -> &'static str
    ensures { result.now ≡ tag_of drawn }
{
    TAGS[drawn as usize % 4]
}
