ghost use Rattle.std.specs.Prelude.{◌≡◌, ◌+◌, ◌++◌, ◌∷◌, [], List, Some, map, take, is_some, IfOk, OnOk};
ghost use Rattle.search_base.specs.declared.document.PathId.{PathId as Path};
ghost use Rattle.search_base.specs.RowsView.{RowsView};
ghost use Rattle.search_base.specs.SortKeys.{sooner, is_less, is_greater};
ghost use Rattle.facet_counts.specs.declared.rows.FacetPath.{FacetPath as Asked};
ghost use Rattle.facet_counts.specs.Counting.{IsTallyOf, IsCounterOf, HasSeen, HasLeaf, seen, tally_view, counter_view};
ghost use Rattle.facet_counts.specs.Counting.{entry_row, reply_of};
ghost use Rattle.facet_counts.specs.Counts.{both_of};

use crate::rows::{CountRow, FacetPath, FacetReply};
use search_base::{FacetValue, Leaf, NoMemory, PathId, Word};
use std::alloc::Global;
use std::collections::BTreeMap;

/// What is known of a value.
#[derive(Drop)]
pub(crate) struct Counted {
    shown: Word,
    count: u64,
    // The number, from 1, of the last document that was counted.
    last: u64,
}

impl Counted {
    // Counts the document of this number, unless it was the last that was counted.
    fn see(&mut self, document: u64) -> Result<(), NoMemory>
        ensures { OnOk result (self.new ≡ seen [] document (Some self.old)) }
    {
        if self.last != document {
            self.count = next(self.count)?;
            self.last = document;
        }
        Ok(())
    }
}

/// The values of a path over the documents so far, and their least and greatest number.
#[derive(Drop)]
pub(crate) struct Tally {
    path: PathId,
    values: BTreeMap<Word, Counted>,
    least: Option<i128>,
    greatest: Option<i128>,
    documents: u64,
}

impl Tally {
    fn new(alloc: Global, path: PathId) -> Tally
        ensures { IsTallyOf (tally_view result) path [] }
    {
        Tally {
            path,
            values: BTreeMap::new(alloc),
            least: None,
            greatest: None,
            documents: 0,
        }
    }

    fn add(&mut self, alloc: Global, leaves: &[Leaf]) -> Result<(), NoMemory>
        ensures { OnOk result ((at : Path) (documents : List RowsView) (rows : RowsView)
            → rows.leaves ≡ leaves.now → IsTallyOf (tally_view self.old) at documents
            → IsTallyOf (tally_view self.new) at (documents ++ rows ∷ [])) }
    {
        self.documents = next(self.documents)?;
        for leaf in leaves {
            if leaf.path == self.path {
                self.add_leaf(alloc, leaf)?;
            }
        }
        Ok(())
    }

    fn add_leaf(&mut self, alloc: Global, leaf: &Leaf) -> Result<(), NoMemory>
        ensures { OnOk result (HasLeaf leaf.now self.old self.new) }
    {
        match &leaf.value {
            FacetValue::Number(number) => {
                let number = *number;
                let text = Word::from_string(format!(in alloc; "{number}")?)?;
                self.least = Some(lesser(number, self.least));
                self.greatest = Some(greater(number, self.greatest));
                self.add_value(&text, &leaf.shown)
            }
            FacetValue::Text(form) => self.add_value(form, &leaf.shown),
        }
    }

    // Counts the last document for a value, unless it is counted already. The first spelling stays.
    fn add_value(&mut self, value: &Word, shown: &Word) -> Result<(), NoMemory>
        ensures seen { OnOk result (HasSeen value.now shown.now self.old self.new) }
        ensures least { self.new.least ≡ self.old.least }
        ensures greatest { self.new.greatest ≡ self.old.greatest }
    {
        let document = self.documents;
        if let Some(known) = self.values.get_mut(value) {
            return known.see(document);
        }
        let first = Counted {
            shown: shown.clone()?,
            count: 1,
            last: document,
        };
        self.values.insert(value.clone()?, first)?;
        Ok(())
    }
}

/// An attribute, with the tally of its path, where it has one.
#[derive(Drop)]
pub(crate) struct Counter {
    attribute: Word,
    tally: Option<Tally>,
}

impl Counter {
    /// The counter of an attribute over no document. Takes no memory.
    pub(crate) fn new(alloc: Global, asked: FacetPath) -> Counter
        ensures { IsCounterOf (counter_view result) asked [] }
    {
        let FacetPath { attribute, path } = asked;
        let tally = match path {
            Some(path) => Some(Tally::new(alloc, path)),
            None => None,
        };
        Counter { attribute, tally }
    }

    /// Whether the attribute has a path.
    pub(crate) fn has_path(&self) -> bool
        ensures { result ≡ is_some self.now.tally }
    {
        self.tally.is_some()
    }

    /// Counts one more document, which has these leaves.
    pub(crate) fn add(&mut self, alloc: Global, leaves: &[Leaf]) -> Result<(), NoMemory>
        ensures { OnOk result ((asked : Asked) (documents : List RowsView) (rows : RowsView)
            → rows.leaves ≡ leaves.now → IsCounterOf (counter_view self.old) asked documents
            → IsCounterOf (counter_view self.new) asked (documents ++ rows ∷ [])) }
    {
        match &mut self.tally {
            Some(tally) => tally.add(alloc, leaves),
            None => Ok(()),
        }
    }

    /// The first `most` values, and the least and the greatest number.
    pub(crate) fn reply(self, alloc: Global, most: u64) -> Result<FacetReply, NoMemory>
        ensures { IfOk result (λ reply. reply ≡ reply_of most (counter_view self)) }
    {
        let Counter { attribute, tally } = self;
        match tally {
            Some(tally) => Ok(FacetReply {
                attribute,
                rows: first_rows(alloc, tally.values, most)?,
                stats: both(tally.least, tally.greatest),
            }),
            None => Ok(FacetReply {
                attribute,
                rows: Vec::new(alloc),
                stats: None,
            }),
        }
    }
}

// The rows of the first `most` values.
fn first_rows(
    alloc: Global,
    values: BTreeMap<Word, Counted>,
    most: u64,
) -> Result<Vec<CountRow>, NoMemory>
    ensures { IfOk result (λ rows. rows.items ≡ map entry_row (take most values.entries)) }
{
    let mut rows = Vec::new(alloc);
    for (value, counted) in values {
        if rows.len() as u64 >= most {
            return Ok(rows);
        }
        rows.push(CountRow {
            value,
            shown: counted.shown,
            count: counted.count,
        })?;
    }
    Ok(rows)
}

fn both(least: Option<i128>, greatest: Option<i128>) -> Option<(i128, i128)>
    ensures { result ≡ both_of least greatest }
{
    match (least, greatest) {
        (Some(least), Some(greatest)) => Some((least, greatest)),
        _ => None,
    }
}

fn lesser(number: i128, known: Option<i128>) -> i128
    ensures { result ≡ sooner is_less number known }
{
    match known {
        Some(least) if least < number => least,
        _ => number,
    }
}

fn greater(number: i128, known: Option<i128>) -> i128
    ensures { result ≡ sooner is_greater number known }
{
    match known {
        Some(greatest) if greatest > number => greatest,
        _ => number,
    }
}

fn next(number: u64) -> Result<u64, NoMemory>
    ensures { IfOk result (λ next. next ≡ number + 1) }
{
    number.checked_add(1).ok_or(NoMemory)
}
