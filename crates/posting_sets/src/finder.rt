ghost use Rattle.std.specs.Prelude.{◌≡◌, map, IfOk};
ghost use Rattle.sorted_pages.specs.Entries.{has};

use search_base::NoMemory;
use sorted_pages::{Entries, SortedPages};
use std::alloc::Global;
use std::marker::Model;

// Looks entries up in a list. One that is not far behind the one before it is found in a few steps.
#[derive(Drop)]
pub(crate) struct Finder<'a> {
    list: &'a SortedPages,
    // What was sought last, and the entries from it on.
    least: u64,
    left: Entries<'a>,
}

impl<'a> Model for Finder<'a> {
    ghost use Rattle.std.specs.Prelude.{◌≡◌, ℕ, List, nat_le};
    ghost use Rattle.std.specs.List.{filter};
    ghost use Rattle.sorted_pages.specs.Entries.{IsIncreasing};

    ghost Value = { List ℕ };

    ghost view = { λ f. f.list.now.entries };

    ghost invariant = { λ f. (f.left ≡ filter (nat_le f.least) f.list.now.entries) × IsIncreasing f.list.now.entries };
}

impl<'a> Finder<'a> {
    // What looks up in a list.
    fn new(list: &'a SortedPages) -> Finder<'a>
        ensures { result ≡ list.now.entries }
    {
        Finder {
            list,
            least: 0,
            left: list.iter(),
        }
    }

    // Whether the entry is in the list.
    pub(crate) fn contains(&mut self, entry: u64) -> bool
        ensures found { result ≡ has self.old entry }
        ensures list { self.new ≡ self.old }
    {
        if entry < self.least {
            self.left = self.list.from(entry);
        } else {
            self.left.seek(entry);
        }
        self.least = entry;
        self.left.first() == Some(entry)
    }
}

// One for each of the lists.
pub(crate) fn finders<'a>(
    alloc: Global,
    lists: &[&'a SortedPages],
) -> Result<Vec<Finder<'a>>, NoMemory>
    ensures { IfOk result (λ made. made.items ≡ map (λ list. list.now.entries) lists.now) }
{
    let mut made = Vec::new(alloc);
    for list in lists {
        made.push(Finder::new(list))?;
    }
    Ok(made)
}
