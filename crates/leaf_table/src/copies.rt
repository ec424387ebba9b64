ghost use Rattle.std.specs.Prelude.{◌≡◌, OnOk};
ghost use Rattle.search_base.specs.SortKeys.{leaves_under};
ghost use Rattle.leaf_table.specs.Rows.{leaves_named};

use crate::pool::leaf_under;
use search_base::{Leaf, NoMemory, PathId};

// Puts copies of the leaves of these numbers under a path in place of what stands in a list.
pub(crate) fn copy_under(
    leaves: &[Option<Leaf>],
    numbers: &[u32],
    path: PathId,
    copies: &mut Vec<Leaf>,
) -> Result<(), NoMemory>
    ensures { OnOk result (copies.new.items ≡ leaves_under path.0 (leaves_named leaves.now numbers.now)) }
{
    copies.clear();
    for number in numbers {
        if let Some(leaf) = leaf_under(leaves, *number, path) {
            copies.push(leaf.clone()?)?;
        }
    }
    Ok(())
}
