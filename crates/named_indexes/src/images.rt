// The rows of indexes in an image, and the indexes that rows give.
ghost use Rattle.std.specs.Prelude.{◌≡◌, ◌+◌, ◌≤◌, List, [], length, map, IfOk, OnOk};
ghost use Rattle.std.specs.Cmp.Lexicographic.{slice_cmp};
ghost use Rattle.std.specs.List.Sorted.{IsStrictlySortedBy};
ghost use Rattle.std.specs.Map.{keys_of};
ghost use Rattle.std.specs.Ordering.{nat_cmp};
ghost use Rattle.index_changes.specs.Images.{index_of};
ghost use Rattle.index_image.specs.Rows.{IndexData, index_view};
ghost use Rattle.index_image.specs.State.{EachAfter, IsIndex};
ghost use Rattle.named_indexes.specs.Images.{entry_of, documents_of};
ghost use Rattle.named_indexes.specs.Indexes.{AreUids, most_indexes, with_index};

use crate::indexes::Indexes;
use index_core::IndexCore;
use index_image::ImageIndex;
use search_base::{NoMemory, Steps, Word};
use std::alloc::Global;
use std::collections::BTreeMap;

impl Indexes {
    /// The indexes of rows. Reads each document once. Its error is want of memory.
    pub fn from_rows<F>(
        alloc: Global,
        rows: Vec<ImageIndex>,
        fetches: &mut Steps<F>,
    ) -> Result<Indexes, NoMemory>
        requires few { length rows.items ≤ most_indexes }
        requires state { EachAfter IsIndex [] (map index_view rows.items) }
        ensures entries { IfOk result (λ indexes. indexes ≡ map entry_of (map index_view rows.items)) }
        ensures fetched { fetches.new ≤ fetches.old + documents_of (map index_view rows.items) }
    {
        let entries = entries_of(alloc, rows, fetches)?;
        Ok(Indexes { entries })
    }

    /// The rows, in the order of the uids. Its error is want of memory.
    pub fn rows(&self, alloc: Global) -> Result<Vec<ImageIndex>, NoMemory>
        ensures entries { IfOk result (λ rows. map entry_of (map index_view rows.items) ≡ self.now) }
        ensures state { IfOk result (λ rows. EachAfter IsIndex [] (map index_view rows.items)) }
        ensures few { IfOk result (λ rows. length rows.items ≤ most_indexes) }
    {
        rows_of(alloc, &self.entries)
    }
}

fn rows_of(alloc: Global, entries: &BTreeMap<Word, IndexCore>) -> Result<Vec<ImageIndex>, NoMemory>
    requires { AreUids (keys_of entries.now.entries) }
    ensures entries { IfOk result (λ rows. map entry_of (map index_view rows.items) ≡ entries.now.entries) }
    ensures state { IfOk result (λ rows. EachAfter IsIndex [] (map index_view rows.items)) }
    ensures few { IfOk result (λ rows. length rows.items ≤ most_indexes) }
{
    let mut rows = Vec::new(alloc);
    for (uid, index) in entries.iter() {
        rows.push(index.to_image(alloc, uid.clone()?)?)?;
    }
    Ok(rows)
}

fn entries_of<F>(
    alloc: Global,
    rows: Vec<ImageIndex>,
    fetches: &mut Steps<F>,
) -> Result<BTreeMap<Word, IndexCore>, NoMemory>
    requires { EachAfter IsIndex [] (map index_view rows.items) }
    ensures entries { IfOk result (λ entries. entries.entries ≡ map entry_of (map index_view rows.items)) }
    ensures ordered { IfOk result (λ entries. IsStrictlySortedBy (slice_cmp nat_cmp) (keys_of entries.entries)) }
    ensures fetched { fetches.new ≤ fetches.old + documents_of (map index_view rows.items) }
{
    let mut entries = BTreeMap::new(alloc);
    for row in rows {
        put_index(alloc, &mut entries, row, fetches)?;
    }
    Ok(entries)
}

fn put_index<F>(
    alloc: Global,
    entries: &mut BTreeMap<Word, IndexCore>,
    row: ImageIndex,
    fetches: &mut Steps<F>,
) -> Result<(), NoMemory>
    requires { (before : List IndexData) × IsIndex before (index_view row) }
    ensures put { OnOk result (entries.new.entries ≡ with_index row.uid (index_of (index_view row)) entries.old.entries) }
    ensures ordered { OnOk result (IsStrictlySortedBy (slice_cmp nat_cmp) (keys_of entries.new.entries)) }
    ensures fetched { fetches.new ≤ fetches.old + length row.documents.items }
{
    let uid = row.uid.clone()?;
    let index = IndexCore::from_image(alloc, row, fetches)?;
    entries.insert(uid, index)?;
    Ok(())
}
