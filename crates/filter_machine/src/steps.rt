ghost use Rattle.std.specs.Prelude.{◌≡◌, []};
ghost use Rattle.filter_machine.specs.Machine.{level_of, step, start as start_state, attribute as attribute_at, value as value_state, low as low_state, high as high_state, refused as refused_state, in_list as in_list_state, first as first_state, item as item_state, after_comma as after_comma_state, being as being_state, not_being as not_being_state, done as done_state};
ghost use Rattle.filter_machine.specs.Held.{level_view, place_view, held, machine_view};
ghost use Rattle.filter_machine.specs.Steps.{StepIs};

use crate::machine::{
    Frame, Level, Machine, Place, StepFault, and_of, between, closed_bracket, compared, ended,
};
use crate::token::{Comparison, Token};
use filter_tree::Test;
use search_base::Word;
use std::alloc::Global;

/// A level that has no members yet; `bad` is the first value so far that should be a number and is none.
pub fn new_level(alloc: Global, bad: Option<Word>) -> Level
    ensures { level_view result ≡ level_of [] [] bad }
{
    Level {
        ors: Vec::new(alloc),
        ands: Vec::new(alloc),
        bad,
    }
}

/// The machine at a place, with what stands around it.
fn machine_at(place: Place, level: Level, outer: Vec<Frame>) -> Machine
    ensures { machine_view result ≡ held (place_view place) level outer.items }
{
    Machine {
        place,
        level,
        outer,
    }
}

fn step_attribute(
    alloc: Global,
    attribute: Word,
    level: Level,
    outer: Vec<Frame>,
    token: Token,
) -> Result<Machine, StepFault>
    ensures { StepIs (step (held (attribute_at attribute) level outer.items) token) result }
{
    let place = match token {
        Token::Compare(comparison) => Place::Value(attribute, comparison),
        Token::Text(low) => Place::Low(attribute, low),
        Token::Not => Place::Refused(attribute),
        Token::In => Place::InList(attribute, false),
        Token::Exists => return ended(alloc, attribute, Test::Exists, false, level, outer),
        Token::Is => Place::Being(attribute),
        _ => return Err(StepFault::Unexpected),
    };
    Ok(machine_at(place, level, outer))
}

fn step_start(
    alloc: Global,
    level: Level,
    outer: Vec<Frame>,
    token: Token,
) -> Result<Machine, StepFault>
    ensures { StepIs (step (held start_state level outer.items) token) result }
{
    match token {
        Token::Text(attribute) => Ok(machine_at(Place::Attribute(attribute), level, outer)),
        Token::Not => {
            let mut outer = outer;
            outer.push(Frame::Not)?;
            Ok(machine_at(Place::Start, level, outer))
        }
        Token::Open => {
            let Level { ors, ands, bad } = level;
            let mut outer = outer;
            outer.push(Frame::Bracket(ors, ands))?;
            Ok(machine_at(Place::Start, new_level(alloc, bad), outer))
        }
        _ => Err(StepFault::Unexpected),
    }
}

fn step_low(
    attribute: Word,
    low: Word,
    level: Level,
    outer: Vec<Frame>,
    token: Token,
) -> Result<Machine, StepFault>
    ensures { StepIs (step (held (low_state attribute low) level outer.items) token) result }
{
    match token {
        Token::To => Ok(machine_at(Place::High(attribute, low), level, outer)),
        _ => Err(StepFault::Unexpected),
    }
}

fn step_refused(
    alloc: Global,
    attribute: Word,
    level: Level,
    outer: Vec<Frame>,
    token: Token,
) -> Result<Machine, StepFault>
    ensures { StepIs (step (held (refused_state attribute) level outer.items) token) result }
{
    match token {
        Token::In => Ok(machine_at(Place::InList(attribute, true), level, outer)),
        Token::Exists => ended(alloc, attribute, Test::Exists, true, level, outer),
        _ => Err(StepFault::Unexpected),
    }
}

fn step_in_list(
    attribute: Word,
    is_not: bool,
    level: Level,
    outer: Vec<Frame>,
    token: Token,
) -> Result<Machine, StepFault>
    ensures { StepIs (step (held (in_list_state attribute is_not) level outer.items) token) result }
{
    match token {
        Token::ListOpen => Ok(machine_at(Place::First(attribute, is_not), level, outer)),
        _ => Err(StepFault::Unexpected),
    }
}

fn step_first(
    alloc: Global,
    attribute: Word,
    is_not: bool,
    level: Level,
    outer: Vec<Frame>,
    token: Token,
) -> Result<Machine, StepFault>
    ensures { StepIs (step (held (first_state attribute is_not) level outer.items) token) result }
{
    match token {
        Token::Text(value) => {
            let mut values = Vec::new(alloc);
            values.push(value)?;
            Ok(machine_at(Place::Item(attribute, is_not, values), level, outer))
        }
        Token::ListClose => ended(
            alloc,
            attribute,
            Test::OneOf(Vec::new(alloc)),
            is_not,
            level,
            outer,
        ),
        _ => Err(StepFault::Unexpected),
    }
}

fn step_item(
    alloc: Global,
    attribute: Word,
    is_not: bool,
    values: Vec<Word>,
    level: Level,
    outer: Vec<Frame>,
    token: Token,
) -> Result<Machine, StepFault>
    ensures { StepIs
        (step (held (item_state attribute is_not values.items) level outer.items) token) result }
{
    match token {
        Token::Comma => Ok(machine_at(Place::AfterComma(attribute, is_not, values), level, outer)),
        Token::ListClose => ended(alloc, attribute, Test::OneOf(values), is_not, level, outer),
        _ => Err(StepFault::Unexpected),
    }
}

fn step_after_comma(
    attribute: Word,
    is_not: bool,
    values: Vec<Word>,
    level: Level,
    outer: Vec<Frame>,
    token: Token,
) -> Result<Machine, StepFault>
    ensures { StepIs
        (step (held (after_comma_state attribute is_not values.items) level outer.items) token)
        result }
{
    match token {
        Token::Text(value) => {
            let mut values = values;
            values.push(value)?;
            Ok(machine_at(Place::Item(attribute, is_not, values), level, outer))
        }
        _ => Err(StepFault::Unexpected),
    }
}

fn step_being(
    alloc: Global,
    attribute: Word,
    level: Level,
    outer: Vec<Frame>,
    token: Token,
) -> Result<Machine, StepFault>
    ensures { StepIs (step (held (being_state attribute) level outer.items) token) result }
{
    match token {
        Token::Not => Ok(machine_at(Place::NotBeing(attribute), level, outer)),
        Token::Null => ended(alloc, attribute, Test::Null, false, level, outer),
        Token::Empty => ended(alloc, attribute, Test::Empty, false, level, outer),
        _ => Err(StepFault::Unexpected),
    }
}

fn step_not_being(
    alloc: Global,
    attribute: Word,
    level: Level,
    outer: Vec<Frame>,
    token: Token,
) -> Result<Machine, StepFault>
    ensures { StepIs (step (held (not_being_state attribute) level outer.items) token) result }
{
    match token {
        Token::Null => ended(alloc, attribute, Test::Null, true, level, outer),
        Token::Empty => ended(alloc, attribute, Test::Empty, true, level, outer),
        _ => Err(StepFault::Unexpected),
    }
}

fn step_done(
    alloc: Global,
    level: Level,
    outer: Vec<Frame>,
    token: Token,
) -> Result<Machine, StepFault>
    ensures { StepIs (step (held done_state level outer.items) token) result }
{
    match token {
        Token::And => Ok(machine_at(Place::Start, level, outer)),
        Token::Or => {
            let Level { mut ors, ands, bad } = level;
            ors.push(and_of(ands))?;
            let level = Level {
                ors,
                ands: Vec::new(alloc),
                bad,
            };
            Ok(machine_at(Place::Start, level, outer))
        }
        Token::Close => closed_bracket(alloc, level, outer),
        _ => Err(StepFault::Unexpected),
    }
}

fn step_value(
    alloc: Global,
    attribute: Word,
    comparison: Comparison,
    level: Level,
    outer: Vec<Frame>,
    token: Token,
) -> Result<Machine, StepFault>
    ensures { StepIs (step (held (value_state attribute comparison) level outer.items) token) result }
{
    match token {
        Token::Text(value) => compared(alloc, attribute, comparison, value, level, outer),
        _ => Err(StepFault::Unexpected),
    }
}

fn step_high(
    alloc: Global,
    attribute: Word,
    low: Word,
    level: Level,
    outer: Vec<Frame>,
    token: Token,
) -> Result<Machine, StepFault>
    ensures { StepIs (step (held (high_state attribute low) level outer.items) token) result }
{
    match token {
        Token::Text(high) => between(alloc, attribute, low, high, level, outer),
        _ => Err(StepFault::Unexpected),
    }
}

/// The machine after one token more. `Unexpected` comes where no filter goes on with the token, and `NoMemory` where
/// memory is wanted; the machine is gone then.
pub fn next_step(alloc: Global, machine: Machine, token: Token) -> Result<Machine, StepFault>
    ensures { StepIs (step (machine_view machine) token) result }
{
    let Machine {
        place,
        level,
        outer,
    } = machine;
    match place {
        Place::Start => step_start(alloc, level, outer, token),
        Place::Attribute(attribute) => step_attribute(alloc, attribute, level, outer, token),
        Place::Value(attribute, comparison) => {
            step_value(alloc, attribute, comparison, level, outer, token)
        }
        Place::Low(attribute, low) => step_low(attribute, low, level, outer, token),
        Place::High(attribute, low) => step_high(alloc, attribute, low, level, outer, token),
        Place::Refused(attribute) => step_refused(alloc, attribute, level, outer, token),
        Place::InList(attribute, is_not) => step_in_list(attribute, is_not, level, outer, token),
        Place::First(attribute, is_not) => {
            step_first(alloc, attribute, is_not, level, outer, token)
        }
        Place::Item(attribute, is_not, values) => {
            step_item(alloc, attribute, is_not, values, level, outer, token)
        }
        Place::AfterComma(attribute, is_not, values) => {
            step_after_comma(attribute, is_not, values, level, outer, token)
        }
        Place::Being(attribute) => step_being(alloc, attribute, level, outer, token),
        Place::NotBeing(attribute) => step_not_being(alloc, attribute, level, outer, token),
        Place::Done => step_done(alloc, level, outer, token),
    }
}
