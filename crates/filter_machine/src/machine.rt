ghost use Rattle.std.specs.Prelude.{◌≡◌, IfOk, map, Some, None, [], ◌∷◌};
ghost use Rattle.filter_tree.specs.Tree.{test as test_tree, and_of as and_tree, or_of as or_tree};
ghost use Rattle.filter_machine.specs.Number.{number_or_0};
ghost use Rattle.filter_machine.specs.Grammar.{compared as compared_condition, between as between_condition, not_at};
ghost use Rattle.filter_machine.specs.Machine.{member_end, opened, closed, ended as ended_state, noted as noted_level};
ghost use Rattle.filter_tree.specs.View.{view, test_view};
ghost use Rattle.filter_machine.specs.Held.{level_view, frames_of, machine_view};
ghost use Rattle.filter_machine.specs.Steps.{StepIs};
ghost use Rattle.filter_machine.specs.declared.machine.StepFault.TheVariants.{NoMemory as Memory};

use crate::token::Comparison;
use filter_tree::{Filter, Test, whole_number};
use search_base::{NoMemory, Word};
use std::alloc::{AllocError, AllocFailed, Global};

/// How far the condition that is being read has come.
#[derive(Debug, Drop)]
pub enum Place {
    Start,
    Attribute(Word),
    Value(Word, Comparison),
    Low(Word, Word),
    High(Word, Word),
    Refused(Word),
    InList(Word, bool),
    First(Word, bool),
    Item(Word, bool, Vec<Word>),
    AfterComma(Word, bool, Vec<Word>),
    Being(Word),
    NotBeing(Word),
    Done,
}

/// The members of OR and of AND read so far in the innermost bracket, and the first value of the
/// whole text so far that should be a number and is none.
#[derive(Debug, Drop)]
pub struct Level {
    pub ors: Vec<Filter>,
    pub ands: Vec<Filter>,
    pub bad: Option<Word>,
}

/// What is open: a NOT, or a bracket, with the members before it.
#[derive(Debug, Drop)]
pub enum Frame {
    Not,
    Bracket(Vec<Filter>, Vec<Filter>),
}

/// The machine between two tokens. The innermost frame stands last.
#[derive(Debug, Drop)]
pub struct Machine {
    pub place: Place,
    pub level: Level,
    pub outer: Vec<Frame>,
}

/// A text that is read: its tree, and its first value that should be a number and is none.
#[derive(Debug, Drop)]
pub struct Reading {
    pub tree: Filter,
    pub bad: Option<Word>,
}

/// Why a token is not taken.
#[derive(Clone, Copy, Debug, PartialEq, Eq)]
pub enum StepFault {
    /// No filter goes on with it.
    Unexpected,
    /// Memory is wanted.
    NoMemory,
}

impl From<NoMemory> for StepFault {
    ghost from_gives = { λ _ fault. fault ≡ Memory };

    fn from(_refused: NoMemory) -> StepFault {
        StepFault::NoMemory
    }
}

impl From<AllocError> for StepFault {
    ghost from_gives = { λ _ fault. fault ≡ Memory };

    fn from(_refused: AllocError) -> StepFault {
        StepFault::NoMemory
    }
}

impl<T: Drop> From<AllocFailed<T>> for StepFault {
    ghost from_gives = { λ _ fault. fault ≡ Memory };

    fn from(_refused: AllocFailed<T>) -> StepFault {
        StepFault::NoMemory
    }
}

/// AND over the members; one alone is that member.
pub fn and_of(mut members: Vec<Filter>) -> Filter
    ensures { view result ≡ and_tree (map view members.items) }
{
    if members.len() == 1 {
        if let Some(member) = members.pop() {
            return member;
        }
    }
    Filter::And(members)
}

/// OR over the members; one alone is that member.
pub fn or_of(mut members: Vec<Filter>) -> Filter
    ensures { view result ≡ or_tree (map view members.items) }
{
    if members.len() == 1 {
        if let Some(member) = members.pop() {
            return member;
        }
    }
    Filter::Or(members)
}

/// How many NOTs and brackets are open.
#[tactic(auto, using(crate::proofs::Frames::length_frames))]
pub fn depth(machine: &Machine) -> usize
    ensures { result ≡ opened (machine_view machine.now) }
{
    machine.outer.len()
}

/// A member ends, and with it the NOTs just over it.
fn member_ended(
    alloc: Global,
    mut filter: Filter,
    mut level: Level,
    mut outer: Vec<Frame>,
) -> Result<Machine, NoMemory>
    ensures { IfOk result (λ m. machine_view m
        ≡ member_end (view filter) (level_view level) (frames_of outer.items)) }
{
    while let Some(Frame::Not) = outer.last() {
        outer.pop();
        filter = Filter::Not(Box::new(alloc, filter)?);
    }
    level.ands.push(filter)?;
    Ok(Machine {
        place: Place::Done,
        level,
        outer,
    })
}

/// A condition ends, whose numbers are noted.
pub(crate) fn ended(
    alloc: Global,
    attribute: Word,
    test: Test,
    is_not: bool,
    level: Level,
    outer: Vec<Frame>,
) -> Result<Machine, StepFault>
    ensures { StepIs
        (Some (member_end (not_at is_not (test_tree attribute (test_view test)))
        (level_view level) (frames_of outer.items)))
        result }
{
    let mut filter = Filter::Test { attribute, test };
    if is_not {
        filter = Filter::Not(Box::new(alloc, filter)?);
    }
    Ok(member_ended(alloc, filter, level, outer)?)
}

/// The number of a value that must be one; the first value that is none is kept.
fn noted(mut level: Level, value: Word) -> (Level, i128)
    ensures level { level_view result.0 ≡ noted_level (value ∷ []) (level_view level) }
    ensures number { result.1 ≡ number_or_0 value }
{
    match whole_number(value.as_str()) {
        Some(number) => (level, number),
        None => {
            if level.bad.is_none() {
                level.bad = Some(value);
            }
            (level, 0)
        }
    }
}

/// A condition with a comparison ends.
pub(crate) fn compared(
    alloc: Global,
    attribute: Word,
    comparison: Comparison,
    value: Word,
    level: Level,
    outer: Vec<Frame>,
) -> Result<Machine, StepFault>
    ensures { StepIs
        (ended_state (compared_condition attribute comparison value)
        (level_view level) (frames_of outer.items))
        result }
{
    match comparison {
        Comparison::Equal => ended(alloc, attribute, Test::Equal(value), false, level, outer),
        Comparison::Unequal => ended(alloc, attribute, Test::Equal(value), true, level, outer),
        Comparison::Above => {
            let (level, number) = noted(level, value);
            ended(alloc, attribute, Test::Above(number), false, level, outer)
        }
        Comparison::AtLeast => {
            let (level, number) = noted(level, value);
            ended(alloc, attribute, Test::AtLeast(number), false, level, outer)
        }
        Comparison::Below => {
            let (level, number) = noted(level, value);
            ended(alloc, attribute, Test::Below(number), false, level, outer)
        }
        Comparison::AtMost => {
            let (level, number) = noted(level, value);
            ended(alloc, attribute, Test::AtMost(number), false, level, outer)
        }
    }
}

/// A condition with TO ends.
pub(crate) fn between(
    alloc: Global,
    attribute: Word,
    low: Word,
    high: Word,
    level: Level,
    outer: Vec<Frame>,
) -> Result<Machine, StepFault>
    ensures { StepIs
        (ended_state (between_condition attribute low high) (level_view level) (frames_of outer.items))
        result }
{
    let (level, least) = noted(level, low);
    let (level, most) = noted(level, high);
    ended(
        alloc,
        attribute,
        Test::Between(least, most),
        false,
        level,
        outer,
    )
}

/// A filter ends in a bracket.
pub(crate) fn closed_bracket(
    alloc: Global,
    level: Level,
    mut outer: Vec<Frame>,
) -> Result<Machine, StepFault>
    ensures { StepIs (closed (level_view level) (frames_of outer.items)) result }
{
    match outer.pop() {
        Some(Frame::Bracket(above_ors, above_ands)) => {
            let Level { mut ors, ands, bad } = level;
            ors.push(and_of(ands))?;
            let above = Level {
                ors: above_ors,
                ands: above_ands,
                bad,
            };
            Ok(member_ended(alloc, or_of(ors), above, outer)?)
        }
        Some(Frame::Not) => Err(StepFault::Unexpected),
        None => Err(StepFault::Unexpected),
    }
}
