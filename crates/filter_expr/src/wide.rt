ghost use Rattle.std.specs.Prelude.{◌≡◌, ◌<◌, ◌≤◌, ◌++◌, IfOk, string_bytes};
ghost use Rattle.std.proofs.Math.Utf8.{encode};
ghost use Rattle.filter_machine.specs.Scan.{with as with_lex, gap as gap_lex, in_word as word_in, in_quote as quote_in, after_slash as slash_in, after as after_in};
ghost use Rattle.filter_machine.specs.Held.{machine_view, quote_byte};
ghost use Rattle.filter_expr.specs.Gives.{GivesChar, scanner_view};

use crate::feed::{Pending, ScanFault, Scanner, stepped, takes_text, with_byte};
use filter_machine::{Comparison, Machine, Quote, Token};
use std::alloc::{AllocError, Global};

/// One more character of a text.
fn with_char(mut text: String, c: char) -> Result<String, AllocError>
    ensures { IfOk result (λ t. string_bytes t ≡ string_bytes text ++ encode c) }
{
    text.push(c)?;
    Ok(text)
}

fn wide_in_word(word: String, machine: Machine, at: usize, c: char) -> Result<Scanner, ScanFault>
    requires { 128 ≤ c }
    ensures { GivesChar c at
        (with_lex (word_in (string_bytes word)) (machine_view machine)) result }
{
    if takes_text(&machine.place) {
        let word = with_char(word, c)?;
        Ok(Scanner {
            pending: Pending::Word(word),
            machine,
        })
    } else {
        Err(ScanFault::Syntax(at))
    }
}

fn wide_in_gap(alloc: Global, machine: Machine, at: usize, c: char) -> Result<Scanner, ScanFault>
    requires { 128 ≤ c }
    ensures { GivesChar c at (with_lex gap_lex (machine_view machine)) result }
{
    wide_in_word(String::new(alloc), machine, at, c)
}

fn wide_in_quote(
    quote: Quote,
    text: String,
    machine: Machine,
    at: usize,
    c: char,
) -> Result<Scanner, ScanFault>
    requires { 128 ≤ c }
    ensures { GivesChar c at
        (with_lex (quote_in (quote_byte quote) (string_bytes text)) (machine_view machine)) result }
{
    let text = with_char(text, c)?;
    Ok(Scanner {
        pending: Pending::Quoted(quote, text),
        machine,
    })
}

fn wide_after_slash(
    quote: Quote,
    text: String,
    machine: Machine,
    at: usize,
    c: char,
) -> Result<Scanner, ScanFault>
    requires { 128 ≤ c }
    ensures { GivesChar c at
        (with_lex (slash_in (quote_byte quote) (string_bytes text)) (machine_view machine)) result }
{
    let text = with_byte(text, b'\\')?;
    wide_in_quote(quote, text, machine, at, c)
}

fn wide_after_sign(
    alloc: Global,
    with_equal: Comparison,
    alone: Option<Comparison>,
    machine: Machine,
    at: usize,
    c: char,
) -> Result<Scanner, ScanFault>
    requires { 128 ≤ c }
    ensures { GivesChar c at (with_lex (after_in with_equal alone) (machine_view machine)) result }
{
    match alone {
        None => Err(ScanFault::Syntax(at)),
        Some(comparison) => match stepped(alloc, machine, Token::Compare(comparison), at, at) {
            Ok(machine) => wide_in_gap(alloc, machine, at, c),
            Err(fault) => Err(fault),
        },
    }
}

/// The next character, which is not ASCII: a letter of a word, or a part of a quoted text.
pub(crate) fn feed_wide(
    alloc: Global,
    scanner: Scanner,
    at: usize,
    c: char,
) -> Result<Scanner, ScanFault>
    requires { 128 ≤ c }
    ensures { GivesChar c at (scanner_view scanner) result }
{
    let Scanner { pending, machine } = scanner;
    match pending {
        Pending::Gap => wide_in_gap(alloc, machine, at, c),
        Pending::Word(word) => wide_in_word(word, machine, at, c),
        Pending::Quoted(quote, text) => wide_in_quote(quote, text, machine, at, c),
        Pending::Slash(quote, text) => wide_after_slash(quote, text, machine, at, c),
        Pending::After(with_equal, alone) => {
            wide_after_sign(alloc, with_equal, alone, machine, at, c)
        }
    }
}
