ghost use Rattle.std.specs.Prelude.{◌≡◌, ◌≤◌, true, length, IfOk};
ghost use Rattle.posting_sets.specs.Numbers.{rank_at as rank_in};
ghost use Rattle.tests_ranking.specs.Ranked.{is_ranked as is_ranked_in, has_ranks as has_ranks_in, have_ranks as have_ranks_in};

use doc_search::IndexedRows;
use row_index::{RowChange, RowIndex};
use search_base::{DocId, DocRows, NoMemory, Place};
use std::alloc::Global;
use std::marker::Model;
use std::process::Abort;

/// Documents in an index, each at the place of its number.
#[derive(Drop)]
pub(crate) struct Shelf {
    index: RowIndex,
    rows: Vec<DocRows>,
    ranks: Vec<Option<u16>>,
}

impl Model for Shelf {
    ghost use Rattle.std.specs.Prelude.{List};
    ghost use Rattle.search_base.specs.RowsView.{RowsView};
    ghost use Rattle.tests_ranking.specs.Shelves.{shelved, IsShelf};

    ghost Value = { List RowsView };

    ghost view = { λ shelf. shelf.rows.items };

    ghost invariant = { λ shelf. IsShelf shelf.index shelf.ranks.items (shelved shelf.rows.items) };
}

impl IndexedRows for Shelf {
    ghost use Rattle.tests_ranking.specs.Shelves.{shelved};

    ghost documents = { shelved };

    fn index(&self) -> &RowIndex {
        &self.index
    }

    fn ranks(&self) -> &[Option<u16>] {
        self.ranks.as_slice()
    }

    fn rank_count(&self) -> u16 {
        let _index = &self.index;
        8
    }
}

fn rank_at(ranks: &[Option<u16>], path: usize) -> Option<u16>
    ensures { result ≡ rank_in ranks.now path }
{
    match ranks.get(path) {
        Some(rank) => *rank,
        None => None,
    }
}

// Whether the place has the rank of its path, which is below 8.
fn is_ranked(ranks: &[Option<u16>], place: &Place) -> bool
    ensures { result ≡ is_ranked_in ranks.now place.now }
{
    match rank_at(ranks, usize::from(place.path.0)) {
        Some(rank) => rank == place.rank && rank < 8,
        None => false,
    }
}

fn has_ranks(ranks: &[Option<u16>], rows: &DocRows) -> bool
    ensures { result ≡ has_ranks_in ranks.now rows.now }
{
    rows.places.iter().all(|place| is_ranked(ranks, place))
}

fn have_ranks(ranks: &[Option<u16>], all: &[DocRows]) -> bool
    ensures { result ≡ have_ranks_in ranks.now all.now }
{
    all.iter().all(|rows| has_ranks(ranks, rows))
}

// The documents in an index.
fn shelf_of(alloc: Global, ranks: Vec<Option<u16>>, rows: Vec<DocRows>) -> Result<Shelf, NoMemory>
    requires few { length rows.items ≤ 1000 }
    requires ranks { have_ranks_in ranks.items rows.items ≡ true }
{
    let mut change = RowChange::new(alloc);
    let mut at = rows.len();
    while at > 0 {
        at -= 1;
        change.put_in(alloc, DocId(at as u32), &rows[at])?;
    }
    let mut index = RowIndex::new(alloc);
    let prepared = index.prepare(alloc, change)?;
    index.commit(prepared);
    Ok(Shelf { index, rows, ranks })
}

/// The documents in an index, where each path has its number as its rank.
pub(crate) fn make_shelf(rt: &impl Abort, alloc: Global, rows: Vec<DocRows>) -> Shelf {
    let mut ranks = Vec::new(alloc);
    for rank in 0..8 {
        ranks.push(Some(rank)).expect(rt, "memory");
    }
    assert!(rt; rows.len() <= 1000);
    let ranked = have_ranks(&ranks, &rows);
    assert!(rt; ranked);
    shelf_of(alloc, ranks, rows).expect(rt, "memory")
}
