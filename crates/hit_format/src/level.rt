ghost use Rattle.std.specs.Prelude.{◌≡◌, IfOk, map};
ghost use Rattle.search_base.specs.Terms.{terms_of};

use search_base::{Graph, NoMemory, PlacedBlock, Term};
use std::alloc::Global;

/// The terms by which texts are marked: those of the blocks of the level that keeps every item, in the order of the
/// blocks. A query without a level has none.
pub fn terms(alloc: Global, graph: &Graph) -> Result<Vec<Term>, NoMemory>
    ensures { IfOk result (λ terms. terms.items ≡ terms_of graph.now) }
{
    match graph.levels.first() {
        Some(level) => terms_in(alloc, level.blocks.as_slice()),
        None => Ok(Vec::new(alloc)),
    }
}

fn terms_in(alloc: Global, blocks: &[PlacedBlock]) -> Result<Vec<Term>, NoMemory>
    ensures { IfOk result (λ terms. terms.items ≡ map (λ placed. placed.block.term) blocks.now) }
{
    let mut terms = Vec::new(alloc);
    for placed in blocks {
        terms.push(placed.block.term.clone()?)?;
    }
    Ok(terms)
}
