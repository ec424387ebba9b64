ghost use Rattle.std.specs.Prelude.{◌≡◌};
ghost use Rattle.doc_values.specs.Grouped.{values_at};

use doc_values::{Flat, PathValues};
use search_base::Word;

/// What a path holds, which may be nothing.
pub fn values_at<'a>(values: &'a PathValues, path: &Word) -> &'a [Flat]
    ensures { result.now ≡ values_at values.now path.now }
{
    match values.get(path) {
        Some(list) => list.as_slice(),
        None => &[],
    }
}
