ghost use Rattle.std.specs.Prelude.{◌≡◌, ◌<◌, ◌++◌, ◌∷◌, ℕ, List, [], length, IfOk, OnOk, if◌then◌else◌};
ghost use Rattle.std.specs.List.{AllByRecursion};
ghost use Rattle.std.specs.Str.{bytes_eq};
ghost use Rattle.hit_format.specs.FirstWords.{begins_with, is_prefix, longest_at, numbers_at, numbers_of};
ghost use Rattle.hit_format.specs.Runs.{longest};

use crate::run::run_of;
use search_base::{NoMemory, Term, Token, Word};
use std::alloc::Global;
use std::collections::BTreeMap;
use std::marker::Model;

type NumberMap = BTreeMap<Word, Vec<usize>>;

/// The terms by which some texts are marked, with the numbers of those that begin with a word kept by it: a word of a
/// text is looked up once, and no term that cannot begin there is asked. It is made once for all texts of a search.
#[derive(Drop)]
pub struct TermSet<'a> {
    terms: &'a [Term],
    by_first: NumberMap,
    // Prefix terms, whose first word is only the front of a word.
    prefixes: Vec<usize>,
}

impl<'a> Model for TermSet<'a> {
    ghost use Rattle.std.specs.Prelude.{List};
    ghost use Rattle.search_base.specs.TermView.{TermView};
    ghost use Rattle.hit_format.specs.FirstWords.{IsKept};

    ghost Value = { List TermView };

    ghost view = { λ set. set.terms.now };

    ghost invariant = { λ set. IsKept set.terms.now set.by_first set.prefixes.items };
}

impl<'a> TermSet<'a> {
    /// The set of these terms. The only error is want of memory.
    pub fn new(alloc: Global, terms: &'a [Term]) -> Result<TermSet<'a>, NoMemory>
        ensures { IfOk result (λ set. set ≡ terms.now) }
    {
        let by_first = numbers_by_first(alloc, terms)?;
        let prefixes = prefix_numbers(alloc, terms)?;
        Ok(TermSet {
            terms,
            by_first,
            prefixes,
        })
    }

    // How many of the tokens, from the first one on, are a run of one of the terms: the most that one has.
    pub(crate) fn longest_run(&self, tokens: &[Token]) -> usize
        ensures { result ≡ longest tokens.now self.now }
    {
        match tokens.first() {
            Some(first) => {
                let begun = numbers_at(&self.by_first, &first.word);
                let of_word = longest_at(tokens, self.terms, begun);
                let of_prefixes = longest_at(tokens, self.terms, self.prefixes.as_slice());
                of_word.max(of_prefixes)
            }
            None => 0,
        }
    }
}

// The numbers that a map has for a word.
fn numbers_at<'a>(numbers: &'a NumberMap, word: &Word) -> &'a [usize]
    ensures { result.now ≡ numbers_at numbers.now word.now }
{
    match numbers.get(word) {
        Some(list) => list.as_slice(),
        None => &[],
    }
}

// The same of the terms with these numbers.
fn longest_at(tokens: &[Token], terms: &[Term], numbers: &[usize]) -> usize
    requires { AllByRecursion (λ n. n < length terms.now) numbers.now }
    ensures { result ≡ longest_at tokens.now terms.now numbers.now }
{
    let mut most = 0;
    for number in numbers {
        most = most.max(run_of(tokens, &terms[*number]));
    }
    most
}

// The numbers of the prefix terms.
fn prefix_numbers(alloc: Global, terms: &[Term]) -> Result<Vec<usize>, NoMemory>
    ensures { IfOk result (λ numbers. numbers.items ≡ numbers_of is_prefix 0 terms.now) }
{
    let mut numbers = Vec::new(alloc);
    for (number, term) in terms.iter().enumerate() {
        if term.prefix {
            numbers.push(number)?;
        }
    }
    Ok(numbers)
}

// The numbers of the other terms, by their first word.
fn numbers_by_first(alloc: Global, terms: &[Term]) -> Result<NumberMap, NoMemory>
    ensures { IfOk result (λ numbers. (word : List ℕ)
        → numbers_at numbers word ≡ numbers_of (begins_with word) 0 terms.now) }
{
    let mut numbers = BTreeMap::new(alloc);
    for (number, term) in terms.iter().enumerate() {
        add_term(alloc, term, number, &mut numbers)?;
    }
    Ok(numbers)
}

// Puts the number of a term behind the others of its first word, if it is no prefix term and has a word.
fn add_term(
    alloc: Global,
    term: &Term,
    number: usize,
    numbers: &mut NumberMap,
) -> Result<(), NoMemory>
    ensures { OnOk result ((word : List ℕ) → numbers_at numbers.new word
        ≡ numbers_at numbers.old word ++ (if begins_with word term.now then number ∷ [] else [])) }
{
    match term.words.first() {
        Some(first) if !term.prefix => add_number(alloc, first, number, numbers),
        _ => Ok(()),
    }
}

fn add_number(
    alloc: Global,
    first: &Word,
    number: usize,
    numbers: &mut NumberMap,
) -> Result<(), NoMemory>
    ensures { OnOk result ((word : List ℕ) → numbers_at numbers.new word
        ≡ numbers_at numbers.old word ++ (if bytes_eq first.now word then number ∷ [] else [])) }
{
    let mut list = numbers.remove(first).unwrap_or(Vec::new(alloc));
    list.push(number)?;
    numbers.insert(first.clone()?, list)?;
    Ok(())
}
