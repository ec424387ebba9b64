ghost use Rattle.std.specs.Prelude.{◌≡◌, [], map, IfOk};
ghost use Rattle.search_base.specs.SortKeys.{leaves_under};
ghost use Rattle.doc_search.specs.Valued.{values_under};

use crate::documents::IndexedDocuments;
use distinct_hits::Values;
use search_base::{DocId, FacetValue, Leaf, NoMemory, PathId};
use std::alloc::Global;
use std::marker::Model;

/// The values of documents under a path whose leaves the index keeps, and whose values were asked for. No document is
/// read for them.
#[derive(Drop)]
pub struct LeafValues<'a, 'b> {
    documents: &'a IndexedDocuments<'b>,
    path: PathId,
    asked: Vec<DocId>,
}

impl<'a, 'b> Model for LeafValues<'a, 'b> {
    ghost use Rattle.std.specs.Prelude.{map};
    ghost use Rattle.doc_search.specs.Valued.{LeafValuesView};

    ghost Value = { LeafValuesView };

    ghost view = { λ v. record {
      among = v.documents.now;
      path = v.path.0;
      asked = map (λ id. id.0) v.asked.items;
    } };
}

impl<'a, 'b> LeafValues<'a, 'b> {
    /// The values under a path, of which none was asked for yet. Takes no memory.
    pub fn new(
        alloc: Global,
        documents: &'a IndexedDocuments<'b>,
        path: PathId,
    ) -> LeafValues<'a, 'b>
        ensures { result ≡ record { among = documents.now; path = path.0; asked = [] } }
    {
        LeafValues {
            documents,
            path,
            asked: Vec::new(alloc),
        }
    }
}

impl<'a, 'b> Values for LeafValues<'a, 'b> {
    ghost use Rattle.doc_search.specs.Valued.{values_under};

    ghost values = { λ v. values_under v.among.documents v.path };

    ghost asked = { λ v. v.asked };

    ghost Asks = { λ before d after. Unit {0} };

    fn values(&mut self, alloc: Global, id: DocId) -> Result<Vec<FacetValue>, NoMemory> {
        let values = values_of(alloc, self.documents, self.path, id)?;
        self.asked.push(id)?;
        Ok(values)
    }
}

// The values of a document under a path.
fn values_of(
    alloc: Global,
    documents: &IndexedDocuments<'_>,
    path: PathId,
    id: DocId,
) -> Result<Vec<FacetValue>, NoMemory>
    ensures { IfOk result (λ values. values.items ≡ values_under documents.now.documents path.0 id.0) }
{
    let mut leaves = Vec::new(alloc);
    documents.leaves().copy_under(id, path, &mut leaves)?;
    values_in(alloc, leaves)
}

// The values of some leaves.
fn values_in(alloc: Global, leaves: Vec<Leaf>) -> Result<Vec<FacetValue>, NoMemory>
    ensures { IfOk result (λ values. values.items ≡ map (λ leaf. leaf.value) leaves.items) }
{
    let mut values = Vec::with_capacity(alloc, leaves.len())?;
    for leaf in leaves {
        values.push(leaf.value)?;
    }
    Ok(values)
}
