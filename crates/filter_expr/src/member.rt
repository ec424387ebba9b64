ghost use Rattle.std.specs.Prelude.{◌≡◌, map, IfOk};
ghost use Rattle.serde_json.specs.View.{view as data_of, items_view};
ghost use Rattle.filter_machine.specs.Text.{is_space as is_space_byte};
ghost use Rattle.filter_machine.specs.Machine.{or_first};
ghost use Rattle.filter_tree.specs.View.{view};
ghost use Rattle.filter_expr.specs.Held.{reader_view};
ghost use Rattle.search_base.specs.Gives.{Gives};
ghost use Rattle.filter_expr.specs.Parsed.{is_blank as is_blank_text, conditions as condition_tree};
ghost use Rattle.filter_expr.specs.Answer.{parsed};
ghost use Rattle.filter_expr.specs.Reader.{new_progress, text_read, texts_read, group_end, group_read, groups_read, value_read, concluded};

use crate::fault::{FilterFault, FilterRefusal};
use crate::feed::ScanFault;
use crate::shape::has_groups;
use crate::text::read;
use filter_machine::{Reading, and_of, or_of};
use filter_tree::Filter;
use search_base::{Fault, NoMemory, Word};
use serde_json::Value;
use std::alloc::Global;

/// A longer text is not read, since the place of its fault may not fit in 32 bits.
const MOST_BYTES: usize = u32::MAX as usize;

/// What has been read of a value: how many texts, the first value in them that should be a number
/// and is none, a filter for each group, and the filters of the group that is read.
#[derive(Debug, Drop)]
pub(crate) struct Reader {
    pub(crate) count: u32,
    pub(crate) bad: Option<Word>,
    pub(crate) groups: Vec<Filter>,
    pub(crate) members: Vec<Filter>,
}

fn new_reader(alloc: Global) -> Reader
    ensures { reader_view result ≡ new_progress }
{
    Reader {
        count: 0,
        bad: None,
        groups: Vec::new(alloc),
        members: Vec::new(alloc),
    }
}

fn is_space(byte: u8) -> bool
    ensures { result ≡ is_space_byte byte }
{
    byte == b' ' || byte == b'\t' || byte == b'\r' || byte == b'\n'
}

fn is_blank(text: &str) -> bool
    ensures { result ≡ is_blank_text text.now }
{
    text.as_bytes().iter().all(|byte| is_space(*byte))
}

fn first_of(first: Option<Word>, second: Option<Word>) -> Option<Word>
    ensures { result ≡ or_first first second }
{
    match first {
        Some(word) => Some(word),
        None => second,
    }
}

/// One text more. One of 2^32 bytes or more, or with that number, counts as one for which there is no memory.
fn read_text(alloc: Global, reader: Reader, text: &str) -> Result<Reader, FilterFault>
    ensures { Gives reader_view result (text_read text.now (reader_view reader)) }
{
    let Reader {
        count,
        bad,
        groups,
        mut members,
    } = reader;
    if count == u32::MAX || text.len() > MOST_BYTES {
        return Err(Fault::NoMemory);
    }
    let number = count + 1;
    if is_blank(text) {
        return Ok(Reader {
            count: number,
            bad,
            groups,
            members,
        });
    }
    match read(alloc, text) {
        Ok(reading) => {
            let Reading { tree, bad: found } = reading;
            members.push(tree)?;
            Ok(Reader {
                count: number,
                bad: first_of(bad, found),
                groups,
                members,
            })
        }
        Err(ScanFault::Syntax(place)) => Err(Fault::Refused(FilterRefusal::Syntax {
            text: number,
            place: place as u32,
        })),
        Err(ScanFault::TooDeep(place)) => Err(Fault::Refused(FilterRefusal::TooDeep {
            text: number,
            place: place as u32,
        })),
        Err(ScanFault::NoMemory) => Err(Fault::NoMemory),
    }
}

/// The texts of an inner array.
fn read_texts(alloc: Global, reader: Reader, members: &Vec<Value>) -> Result<Reader, FilterFault>
    ensures { Gives reader_view result (texts_read (items_view members.now.items) (reader_view reader)) }
{
    let mut reader = reader;
    for member in members {
        match member {
            Value::String(text) => reader = read_text(alloc, reader, text.as_str())?,
            _ => return Err(Fault::Refused(FilterRefusal::NotText)),
        }
    }
    Ok(reader)
}

/// One group more: OR over its filters, where it has any.
fn end_group(alloc: Global, reader: Reader) -> Result<Reader, NoMemory>
    ensures { IfOk result (λ r. reader_view r ≡ group_end (reader_view reader)) }
{
    let Reader {
        count,
        bad,
        mut groups,
        members,
    } = reader;
    if members.is_empty() {
        return Ok(Reader {
            count,
            bad,
            groups,
            members,
        });
    }
    groups.push(or_of(members))?;
    Ok(Reader {
        count,
        bad,
        groups,
        members: Vec::new(alloc),
    })
}

/// A member of the outer array.
fn read_group(alloc: Global, reader: Reader, member: &Value) -> Result<Reader, FilterFault>
    ensures { Gives reader_view result (group_read (data_of member.now) (reader_view reader)) }
{
    match member {
        Value::String(text) => read_text(alloc, reader, text.as_str()),
        Value::Array(members) => read_texts(alloc, reader, members),
        _ => Err(Fault::Refused(FilterRefusal::NotText)),
    }
}

/// The members of the outer array.
fn read_groups(alloc: Global, reader: Reader, members: &Vec<Value>) -> Result<Reader, FilterFault>
    ensures { Gives reader_view result (groups_read (items_view members.now.items) (reader_view reader)) }
{
    let mut reader = reader;
    for member in members {
        reader = read_group(alloc, reader, member)?;
        reader = end_group(alloc, reader)?;
    }
    Ok(reader)
}

fn read_value(alloc: Global, value: &Value) -> Result<Reader, FilterFault>
    ensures { Gives reader_view result (value_read (data_of value.now) new_progress) }
{
    let reader = new_reader(alloc);
    match value {
        Value::Null => Ok(reader),
        Value::String(text) => {
            let reader = read_text(alloc, reader, text.as_str())?;
            Ok(end_group(alloc, reader)?)
        }
        Value::Array(members) => read_groups(alloc, reader, members),
        _ => Err(Fault::Refused(FilterRefusal::NotText)),
    }
}

/// AND over the groups; where there is none, no condition is set.
fn conditions(groups: Vec<Filter>) -> Filter
    ensures { view result ≡ condition_tree (map view groups.items) }
{
    if groups.is_empty() {
        Filter::All
    } else {
        and_of(groups)
    }
}

fn conclude(reader: Reader) -> Result<Filter, FilterFault>
    ensures { Gives view result (concluded (reader_view reader)) }
{
    let Reader { bad, groups, .. } = reader;
    match bad {
        Some(value) => Err(Fault::Refused(FilterRefusal::NotANumber { value })),
        None => Ok(conditions(groups)),
    }
}

/// The filter of a value: null, a text of the filter language, or an array of such texts, joined
/// by AND, and of arrays of texts, joined by OR. Null and blank texts set no condition.
///
/// A value of another shape is `NotText`. Then the first text that is neither blank nor a filter
/// within the depth decides, by `TooDeep` or `Syntax`, and last the first value that must be a number
/// and is none.
///
/// A text of 2^32 bytes or more, and text number 2^32, count as ones for which there is no memory.
#[tactic(auto, unfolding(crate::specs::Answer::parsed))]
pub fn parse(alloc: Global, value: &Value) -> Result<Filter, FilterFault>
    ensures { Gives view result (parsed (data_of value.now)) }
{
    if !has_groups(value) {
        return Err(Fault::Refused(FilterRefusal::NotText));
    }
    match read_value(alloc, value) {
        Ok(reader) => conclude(reader),
        Err(fault) => Err(fault),
    }
}
