ghost use Rattle.std.specs.Prelude.{◌≡◌, ◌<◌, ◌∷◌, [], ◌++◌, IfOk, string_bytes};
ghost use Rattle.filter_machine.specs.Text.{letter as letter_class, class_of as class_at, is_letter as letter_at};
ghost use Rattle.filter_machine.specs.Machine.{step};
ghost use Rattle.filter_machine.specs.Scan.{takes, in_word as word_in, in_quote as quote_in, after_slash as slash_in, after as after_in};
ghost use Rattle.filter_expr.specs.Limit.{stepped as stepped_in, so_at, begin_by_at, feed_by_at};
ghost use Rattle.filter_machine.specs.Held.{place_view, machine_view, quote_byte};
ghost use Rattle.filter_expr.specs.Gives.{GivesMachine, GivesScan, pending_view};
ghost use Rattle.filter_machine.specs.declared.token.Token.TheVariants.{Text as TextToken, Compare as CompareToken};
ghost use Rattle.filter_machine.specs.declared.token.Comparison.TheVariants.{Equal as EqualSign};
ghost use Rattle.filter_expr.specs.declared.feed.ScanFault.TheVariants.{NoMemory as Memory};

use filter_machine::{
    Class, Comparison, Machine, Place, Quote, StepFault, Token, class_of, depth, fits, next_step,
    word_token,
};
use search_base::{NoMemory, Word};
use std::alloc::{AllocError, Global};

/// How many NOTs and brackets may be open at once.
const MOST_DEPTH: usize = 200;

/// Why a text is refused, and the place where.
#[derive(Clone, Copy, Debug, PartialEq, Eq)]
pub(crate) enum ScanFault {
    Syntax(usize),
    TooDeep(usize),
    NoMemory,
}

impl From<NoMemory> for ScanFault {
    ghost from_gives = { λ _ fault. fault ≡ Memory };

    fn from(_refused: NoMemory) -> ScanFault {
        ScanFault::NoMemory
    }
}

impl From<AllocError> for ScanFault {
    ghost from_gives = { λ _ fault. fault ≡ Memory };

    fn from(_refused: AllocError) -> ScanFault {
        ScanFault::NoMemory
    }
}

/// What of the next token has come.
#[derive(Debug, Drop)]
pub(crate) enum Pending {
    Gap,
    Word(String),
    Quoted(Quote, String),
    Slash(Quote, String),
    After(Comparison, Option<Comparison>),
}

#[derive(Debug, Drop)]
pub(crate) struct Scanner {
    pub(crate) pending: Pending,
    pub(crate) machine: Machine,
}

/// Whether a text may come.
pub(crate) fn takes_text(place: &Place) -> bool
    ensures { result ≡ takes (place_view place.now) (TextToken []) }
{
    match place {
        Place::Start
        | Place::Attribute(_)
        | Place::Value(_, _)
        | Place::High(_, _)
        | Place::First(_, _)
        | Place::AfterComma(_, _, _) => true,
        Place::Low(_, _)
        | Place::Refused(_)
        | Place::InList(_, _)
        | Place::Item(_, _, _)
        | Place::Being(_)
        | Place::NotBeing(_)
        | Place::Done => false,
    }
}

/// Whether a comparison may come.
fn takes_comparison(place: &Place) -> bool
    ensures { result ≡ takes (place_view place.now) (CompareToken EqualSign) }
{
    match place {
        Place::Attribute(_) => true,
        Place::Start
        | Place::Value(_, _)
        | Place::High(_, _)
        | Place::First(_, _)
        | Place::AfterComma(_, _, _)
        | Place::Low(_, _)
        | Place::Refused(_)
        | Place::InList(_, _)
        | Place::Item(_, _, _)
        | Place::Being(_)
        | Place::NotBeing(_)
        | Place::Done => false,
    }
}

/// One token more, which began at a place and ended before `at`.
pub(crate) fn stepped(
    alloc: Global,
    machine: Machine,
    token: Token,
    at: usize,
    began: usize,
) -> Result<Machine, ScanFault>
    ensures { GivesMachine (stepped_in at began (step (machine_view machine) token)) result }
{
    match next_step(alloc, machine, token) {
        Ok(machine) => {
            if depth(&machine) > MOST_DEPTH {
                Err(ScanFault::TooDeep(began))
            } else {
                Ok(machine)
            }
        }
        Err(StepFault::Unexpected) => Err(ScanFault::Syntax(at)),
        Err(StepFault::NoMemory) => Err(ScanFault::NoMemory),
    }
}

/// The byte of a quote.
fn quote_of(quote: Quote) -> u8
    ensures { result ≡ quote_byte quote }
{
    match quote {
        Quote::Single => b'\'',
        Quote::Double => b'"',
    }
}

/// One more byte of a text.
#[tactic(auto, using(std::proofs::lemmas::Str::encode_ascii))]
pub(crate) fn with_byte(mut text: String, byte: u8) -> Result<String, AllocError>
    requires { byte < 128 }
    ensures { IfOk result (λ t. string_bytes t ≡ string_bytes text ++ byte ∷ []) }
{
    text.push(byte as char)?;
    Ok(text)
}

fn begin_letter(alloc: Global, machine: Machine, at: usize, byte: u8) -> Result<Scanner, ScanFault>
    requires { byte < 128 }
    ensures { GivesScan (begin_by_at letter_class at byte (machine_view machine)) result }
{
    let word = with_byte(String::new(alloc), byte)?;
    if fits(&machine.place, word.as_bytes()) {
        Ok(Scanner {
            pending: Pending::Word(word),
            machine,
        })
    } else {
        Err(ScanFault::Syntax(at))
    }
}

fn begin_angle(
    machine: Machine,
    at: usize,
    with_equal: Comparison,
    alone: Option<Comparison>,
) -> Result<Scanner, ScanFault>
    ensures { GivesScan
        (so_at at (takes (place_view machine.place) (CompareToken EqualSign))
        (after_in with_equal alone) (machine_view machine))
        result }
{
    if takes_comparison(&machine.place) {
        Ok(Scanner {
            pending: Pending::After(with_equal, alone),
            machine,
        })
    } else {
        Err(ScanFault::Syntax(at))
    }
}

/// A byte where a piece may begin.
fn begin(alloc: Global, machine: Machine, at: usize, byte: u8) -> Result<Scanner, ScanFault>
    requires { byte < 128 }
    ensures { GivesScan (begin_by_at (class_at byte) at byte (machine_view machine)) result }
{
    match class_of(byte) {
        Class::Space => Ok(Scanner {
            pending: Pending::Gap,
            machine,
        }),
        Class::Letter => begin_letter(alloc, machine, at, byte),
        Class::Quote(quote) => {
            if takes_text(&machine.place) {
                Ok(Scanner {
                    pending: Pending::Quoted(quote, String::new(alloc)),
                    machine,
                })
            } else {
                Err(ScanFault::Syntax(at))
            }
        }
        Class::Bang => begin_angle(machine, at, Comparison::Unequal, None),
        Class::Greater => begin_angle(machine, at, Comparison::AtLeast, Some(Comparison::Above)),
        Class::Less => begin_angle(machine, at, Comparison::AtMost, Some(Comparison::Below)),
        Class::Single(token) => match stepped(alloc, machine, token, at, at) {
            Ok(machine) => Ok(Scanner {
                pending: Pending::Gap,
                machine,
            }),
            Err(fault) => Err(fault),
        },
        Class::Strange => Err(ScanFault::Syntax(at)),
    }
}

fn is_letter(byte: u8) -> bool
    ensures { result ≡ letter_at byte }
{
    match class_of(byte) {
        Class::Letter => true,
        Class::Space
        | Class::Quote(_)
        | Class::Bang
        | Class::Greater
        | Class::Less
        | Class::Single(_)
        | Class::Strange => false,
    }
}

fn feed_word(
    alloc: Global,
    word: String,
    machine: Machine,
    at: usize,
    byte: u8,
) -> Result<Scanner, ScanFault>
    requires { byte < 128 }
    ensures { GivesScan
        (feed_by_at (word_in (string_bytes word)) at byte (machine_view machine)) result }
{
    if is_letter(byte) {
        let word = with_byte(word, byte)?;
        if fits(&machine.place, word.as_bytes()) {
            Ok(Scanner {
                pending: Pending::Word(word),
                machine,
            })
        } else {
            Err(ScanFault::Syntax(at))
        }
    } else {
        let token = word_token(alloc, word.as_str())?;
        match stepped(alloc, machine, token, at, at.saturating_sub(word.len())) {
            Ok(machine) => begin(alloc, machine, at, byte),
            Err(fault) => Err(fault),
        }
    }
}

fn feed_quote(
    alloc: Global,
    quote: Quote,
    text: String,
    machine: Machine,
    at: usize,
    byte: u8,
) -> Result<Scanner, ScanFault>
    requires { byte < 128 }
    ensures { GivesScan
        (feed_by_at (quote_in (quote_byte quote) (string_bytes text)) at byte (machine_view machine))
        result }
{
    if byte == quote_of(quote) {
        let token = Token::Text(Word::new(alloc, text.as_str())?);
        match stepped(alloc, machine, token, at, at) {
            Ok(machine) => Ok(Scanner {
                pending: Pending::Gap,
                machine,
            }),
            Err(fault) => Err(fault),
        }
    } else if byte == b'\\' {
        Ok(Scanner {
            pending: Pending::Slash(quote, text),
            machine,
        })
    } else {
        let text = with_byte(text, byte)?;
        Ok(Scanner {
            pending: Pending::Quoted(quote, text),
            machine,
        })
    }
}

#[tactic(auto, using(std::proofs::Common::append_assoc))]
fn feed_slash(
    quote: Quote,
    text: String,
    machine: Machine,
    at: usize,
    byte: u8,
) -> Result<Scanner, ScanFault>
    requires { byte < 128 }
    ensures { GivesScan
        (feed_by_at (slash_in (quote_byte quote) (string_bytes text)) at byte (machine_view machine))
        result }
{
    if byte == quote_of(quote) || byte == b'\\' {
        let text = with_byte(text, byte)?;
        Ok(Scanner {
            pending: Pending::Quoted(quote, text),
            machine,
        })
    } else {
        let text = with_byte(text, b'\\')?;
        let text = with_byte(text, byte)?;
        Ok(Scanner {
            pending: Pending::Quoted(quote, text),
            machine,
        })
    }
}

fn feed_after(
    alloc: Global,
    with_equal: Comparison,
    alone: Option<Comparison>,
    machine: Machine,
    at: usize,
    byte: u8,
) -> Result<Scanner, ScanFault>
    requires { byte < 128 }
    ensures { GivesScan (feed_by_at (after_in with_equal alone) at byte (machine_view machine)) result }
{
    if byte == b'=' {
        match stepped(alloc, machine, Token::Compare(with_equal), at, at) {
            Ok(machine) => Ok(Scanner {
                pending: Pending::Gap,
                machine,
            }),
            Err(fault) => Err(fault),
        }
    } else {
        match alone {
            None => Err(ScanFault::Syntax(at)),
            Some(comparison) => match stepped(alloc, machine, Token::Compare(comparison), at, at) {
                Ok(machine) => begin(alloc, machine, at, byte),
                Err(fault) => Err(fault),
            },
        }
    }
}

/// The next byte, of a character that is ASCII.
pub(crate) fn feed(
    alloc: Global,
    scanner: Scanner,
    at: usize,
    byte: u8,
) -> Result<Scanner, ScanFault>
    requires { byte < 128 }
    ensures { GivesScan
        (feed_by_at (pending_view scanner.pending) at byte (machine_view scanner.machine)) result }
{
    let Scanner { pending, machine } = scanner;
    match pending {
        Pending::Gap => begin(alloc, machine, at, byte),
        Pending::Word(word) => feed_word(alloc, word, machine, at, byte),
        Pending::Quoted(quote, text) => feed_quote(alloc, quote, text, machine, at, byte),
        Pending::Slash(quote, text) => feed_slash(quote, text, machine, at, byte),
        Pending::After(with_equal, alone) => feed_after(
            alloc, with_equal, alone, machine, at, byte,
        ),
    }
}
