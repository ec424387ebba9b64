// The members whose texts are cropped.
ghost use Rattle.std.specs.Prelude.{◌≡◌, ◌||◌, ℕ, List, IfOk, OnOk, Some, codes, if◌then◌else◌};
ghost use Rattle.std.specs.Option.{option_map};
ghost use Rattle.std.specs.Str.{bytes_eq};
ghost use Rattle.search_replies.specs.Formatted.{crop_for, length_for};
ghost use Rattle.search_replies.specs.Marks.{set_crop};

use search_base::NoMemory;
use search_call::CropRow;
use std::alloc::Global;
use std::collections::BTreeMap;

/// To how many words the texts of members are cropped: those of all members that have no length of their own, where
/// there is such a length.
#[derive(Drop)]
pub(crate) struct CropSet {
    all: Option<u64>,
    lengths: BTreeMap<String, u64>,
}

impl CropSet {
    /// What rows say that may be given: of each member the first row that names it.
    pub(crate) fn given(alloc: Global, rows: &Option<Vec<CropRow>>) -> Result<CropSet, NoMemory>
        ensures { IfOk result (λ set. (name : List ℕ)
            → set_crop set name ≡ crop_for (option_map (λ rows. rows.items) rows.now) name) }
    {
        match rows {
            Some(rows) => CropSet::new(alloc, rows.as_slice()),
            None => Ok(CropSet {
                all: None,
                lengths: BTreeMap::new(alloc),
            }),
        }
    }

    // From the last row to the first, so that an earlier one stands in the place of those behind it.
    fn new(alloc: Global, rows: &[CropRow]) -> Result<CropSet, NoMemory>
        ensures { IfOk result (λ set. (name : List ℕ) → set_crop set name ≡ length_for rows.now name) }
    {
        let mut set = CropSet {
            all: None,
            lengths: BTreeMap::new(alloc),
        };
        for i in (0..rows.len()).rev() {
            set.put_before(alloc, &rows[i])?;
        }
        Ok(set)
    }

    // Puts a row before those that are there.
    fn put_before(&mut self, alloc: Global, row: &CropRow) -> Result<(), NoMemory>
        ensures { OnOk result ((name : List ℕ) → set_crop self.new name
            ≡ (if bytes_eq row.now.attribute (codes "*") || bytes_eq row.now.attribute name then Some row.now.length
            else set_crop self.old name)) }
    {
        if row.attribute.as_str() == "*" {
            self.all = Some(row.length);
            self.lengths = BTreeMap::new(alloc);
        } else {
            let name = String::from_str(alloc, row.attribute.as_str())?;
            self.lengths.insert(name, row.length)?;
        }
        Ok(())
    }

    /// To how many words the texts of a member are cropped, if they are.
    pub(crate) fn length(&self, name: &str) -> Option<u64>
        ensures { result ≡ set_crop self.now name.now }
    {
        match self.lengths.get(name) {
            Some(length) => Some(*length),
            None => self.all,
        }
    }
}
