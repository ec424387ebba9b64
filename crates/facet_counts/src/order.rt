ghost use Rattle.std.specs.Prelude.{◌≡◌, IfOk};
ghost use Rattle.facet_counts.specs.Order.{in_order as ordered};

use search_base::{NoMemory, Word};
use std::alloc::Global;
use std::collections::BTreeSet;

/// The texts in the order of their bytes, each once. `NoMemory` comes where memory is wanting.
pub fn in_order(alloc: Global, texts: &[Word]) -> Result<Vec<Word>, NoMemory>
    ensures { IfOk result (λ words. words.items ≡ ordered texts.now) }
{
    // A set keeps this at n log n comparisons.
    let mut distinct = BTreeSet::new(alloc);
    for text in texts {
        distinct.insert(text.clone()?)?;
    }
    let mut words = Vec::with_capacity(alloc, distinct.len())?;
    for word in distinct {
        words.push(word)?;
    }
    Ok(words)
}
