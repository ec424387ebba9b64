ghost use Rattle.std.specs.Prelude.{◌≡◌, ◌<◌, ℕ, ◌++◌, ◌∷◌, List, [], length, map, get_or};
ghost use Rattle.std.specs.Prelude.{IfOk, OnOk, if◌then◌else◌};
ghost use Rattle.std.specs.List.{AllByRecursion};
ghost use Rattle.synonym_terms.specs.Keyed.{numbers_at, numbers_of};
ghost use Rattle.synonym_terms.specs.Synonyms.{HasTerm, is_keyed, term_of, terms_for};

use search_base::{NoMemory, Term, Word};
use std::alloc::Global;
use std::collections::BTreeMap;
use std::marker::Model;

/// A row of synonyms: where the words of the key stand in a query, those of the term are meant
/// too.
#[derive(Debug, Drop)]
pub struct SynonymRow {
    pub key: Vec<Word>,
    pub term: Vec<Word>,
}

impl Model for SynonymRow {
    ghost use Rattle.synonym_terms.specs.SynonymRowView.{SynonymRowView};

    ghost Value = { SynonymRowView };

    ghost view = { λ row. record { key = row.key.items; term = row.term.items } };
}

type NumberMap = BTreeMap<Vec<Word>, Vec<usize>>;

/// Rows of synonyms, and for each key the numbers of the rows that have it.
#[derive(Drop)]
pub struct SynonymTable {
    rows: Vec<SynonymRow>,
    numbers: NumberMap,
}

impl Model for SynonymTable {
    ghost use Rattle.std.specs.Prelude.{List};
    ghost use Rattle.synonym_terms.specs.SynonymRowView.{SynonymRowView};
    ghost use Rattle.synonym_terms.specs.Keyed.{IsTable};

    ghost Value = { List SynonymRowView };

    ghost view = { λ table. table.rows.items };

    ghost invariant = { λ table. IsTable table.rows.items table.numbers };
}

impl SynonymTable {
    /// A table without rows.
    pub fn new(alloc: Global) -> SynonymTable
        ensures { result ≡ [] }
    {
        SynonymTable {
            rows: Vec::new(alloc),
            numbers: BTreeMap::new(alloc),
        }
    }

    /// The table of these rows, in this order. Each row's term has a word; a key may be of any
    /// number of words, and several rows may have one key.
    pub fn build(alloc: Global, rows: Vec<SynonymRow>) -> Result<SynonymTable, NoMemory>
        requires { AllByRecursion HasTerm rows.items }
        ensures { IfOk result (λ table. table ≡ rows.items) }
    {
        let numbers = numbers_by_key(alloc, rows.as_slice())?;
        Ok(SynonymTable { rows, numbers })
    }

    /// The terms of the rows whose key is exactly these words, in the order of the rows.
    pub fn rows_for(&self, alloc: Global, words: &[Word]) -> Result<Vec<Term>, NoMemory>
        ensures { IfOk result (λ terms. terms.items ≡ terms_for self.now words.now) }
    {
        match self.numbers.get(words) {
            Some(numbers) => terms_at(alloc, self.rows.as_slice(), numbers.as_slice()),
            None => Ok(Vec::new(alloc)),
        }
    }

    /// Each term of a table has a word. It does nothing.
    pub fn terms_have_words(&self)
        ensures { AllByRecursion HasTerm self.now }
    {
        let _rows = &self.rows;
    }
}

// The terms of the rows with these numbers.
fn terms_at(alloc: Global, rows: &[SynonymRow], numbers: &[usize]) -> Result<Vec<Term>, NoMemory>
    requires { AllByRecursion (λ n. n < length rows.now) numbers.now }
    ensures { IfOk result (λ terms. terms.items
        ≡ map (λ n. term_of (get_or rows.now n (record { key = []; term = [] }))) numbers.now) }
{
    let mut terms = Vec::new(alloc);
    for number in numbers {
        terms.push(term_of(&rows[*number])?)?;
    }
    Ok(terms)
}

fn term_of(row: &SynonymRow) -> Result<Term, NoMemory>
    ensures { IfOk result (λ term. term ≡ term_of row.now) }
{
    let words = row.term.clone()?;
    Ok(Term {
        words,
        prefix: false,
    })
}

fn numbers_by_key(alloc: Global, rows: &[SynonymRow]) -> Result<NumberMap, NoMemory>
    ensures { IfOk result (λ numbers. (words : List (List ℕ))
        → numbers_at numbers words ≡ numbers_of words 0 rows.now) }
{
    let mut numbers = BTreeMap::new(alloc);
    for (number, row) in rows.iter().enumerate() {
        add_number(alloc, row, number, &mut numbers)?;
    }
    Ok(numbers)
}

// Puts the number of a row behind the other numbers of its key.
fn add_number(
    alloc: Global,
    row: &SynonymRow,
    number: usize,
    numbers: &mut NumberMap,
) -> Result<(), NoMemory>
    ensures { OnOk result ((words : List (List ℕ)) → numbers_at numbers.new words
        ≡ numbers_at numbers.old words ++ (if is_keyed words row.now then number ∷ [] else [])) }
{
    let mut list = numbers
        .remove(row.key.as_slice())
        .unwrap_or(Vec::new(alloc));
    list.push(number)?;
    numbers.insert(row.key.clone()?, list)?;
    Ok(())
}
