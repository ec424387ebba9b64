ghost use Rattle.std.specs.Prelude.{◌≡◌, ◌<◌, IfOk, MatchResult, length, Ok, Err};
ghost use Rattle.filter_machine.specs.Machine.{new_machine, reading, whole as whole_of};
ghost use Rattle.filter_machine.specs.Scan.{with as with_lex, gap as gap_lex};
ghost use Rattle.filter_expr.specs.Limit.{outcome_at, end_at, ended_at, reading_of};
ghost use Rattle.filter_machine.specs.Held.{level_view, machine_view, reading_view};
ghost use Rattle.filter_expr.specs.Gives.{GivesMachine, GivesChar, GivesReading, FaultIs, pending_view, scanner_view};

use crate::feed::{Pending, ScanFault, Scanner, feed, stepped};
use crate::wide::feed_wide;
use filter_machine::{Level, Machine, Place, Reading, Token, and_of, new_level, or_of, word_token};
use search_base::NoMemory;
use std::alloc::Global;

/// The next character.
fn feed_char(alloc: Global, scanner: Scanner, at: usize, c: char) -> Result<Scanner, ScanFault>
    ensures { GivesChar c at (scanner_view scanner) result }
{
    if (c as u32) < 128 {
        feed(alloc, scanner, at, c as u8)
    } else {
        feed_wide(alloc, scanner, at, c)
    }
}

fn new_scanner(alloc: Global) -> Scanner
    ensures { scanner_view result ≡ with_lex gap_lex new_machine }
{
    Scanner {
        pending: Pending::Gap,
        machine: Machine {
            place: Place::Start,
            level: new_level(alloc, None),
            outer: Vec::new(alloc),
        },
    }
}

/// The scan of all characters of a text, and the text's length.
fn scanned(alloc: Global, text: &str) -> Result<(Scanner, usize), ScanFault>
    ensures answer { MatchResult result
        (λ r. outcome_at text.now 0 (with_lex gap_lex new_machine)
        ≡ end_at (pending_view r.0.pending) r.1 (machine_view r.0.machine))
        (λ fault. FaultIs (outcome_at text.now 0 (with_lex gap_lex new_machine)) fault) }
    ensures length { IfOk result (λ r. r.1 ≡ length text.now) }
{
    let mut scanner = new_scanner(alloc);
    let mut at = 0;
    for c in text.chars() {
        match feed_char(alloc, scanner, at, c) {
            Ok(next) => scanner = next,
            Err(fault) => return Err(fault),
        }
        at += c.len_utf8();
    }
    Ok((scanner, at))
}

/// The machine at the end of a text, whose last token ends there.
fn finished(alloc: Global, scanner: Scanner, at: usize) -> Result<Machine, ScanFault>
    ensures { GivesMachine
        (end_at (pending_view scanner.pending) at (machine_view scanner.machine)) result }
{
    let Scanner { pending, machine } = scanner;
    match pending {
        Pending::Gap => Ok(machine),
        Pending::Word(word) => {
            let token = word_token(alloc, word.as_str())?;
            stepped(alloc, machine, token, at, at.saturating_sub(word.len()))
        }
        Pending::Quoted(_, _) => Err(ScanFault::Syntax(at)),
        Pending::Slash(_, _) => Err(ScanFault::Syntax(at)),
        Pending::After(_, None) => Err(ScanFault::Syntax(at)),
        Pending::After(_, Some(comparison)) => {
            stepped(alloc, machine, Token::Compare(comparison), at, at)
        }
    }
}

/// The reading of a text that ends at `at`, if a filter has ended there.
fn accepted(machine: Machine, at: usize) -> Result<Reading, ScanFault>
    ensures { GivesReading (ended_at at (Ok (machine_view machine))) result }
{
    let Machine {
        place,
        level,
        outer,
    } = machine;
    if !outer.is_empty() {
        return Err(ScanFault::Syntax(at));
    }
    match &place {
        Place::Done => Ok(whole(level)?),
        Place::Start
        | Place::Attribute(_)
        | Place::Value(_, _)
        | Place::Low(_, _)
        | Place::High(_, _)
        | Place::Refused(_)
        | Place::InList(_, _)
        | Place::First(_, _)
        | Place::Item(_, _, _)
        | Place::AfterComma(_, _, _)
        | Place::Being(_)
        | Place::NotBeing(_) => Err(ScanFault::Syntax(at)),
    }
}

/// The reading of all that stands outside brackets.
fn whole(level: Level) -> Result<Reading, NoMemory>
    ensures { IfOk result (λ r. reading_view r
        ≡ reading (whole_of (level_view level)) (level_view level).bad) }
{
    let Level { mut ors, ands, bad } = level;
    ors.push(and_of(ands))?;
    Ok(Reading {
        tree: or_of(ors),
        bad,
    })
}

/// What a text reads as.
#[tactic(auto, unfolding(crate::specs::Limit::reading_of))]
pub(crate) fn read(alloc: Global, text: &str) -> Result<Reading, ScanFault>
    ensures { GivesReading (reading_of text.now) result }
{
    let (scanner, at) = match scanned(alloc, text) {
        Ok(end) => end,
        Err(fault) => return Err(fault),
    };
    match finished(alloc, scanner, at) {
        Ok(machine) => accepted(machine, at),
        Err(fault) => Err(fault),
    }
}
