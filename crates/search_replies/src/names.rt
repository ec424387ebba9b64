// Names of members, in which `*` stands for all names.
ghost use Rattle.std.specs.Prelude.{◌≡◌, ◌&&◌, true, ℕ, List, IfOk};
ghost use Rattle.std.specs.BTreeSet.{contains_text};
ghost use Rattle.search_call.specs.SearchView.{names_view};
ghost use Rattle.search_replies.specs.Formatted.{is_named};
ghost use Rattle.search_replies.specs.Members.{is_among, is_shown};
ghost use Rattle.search_replies.specs.Names.{set_shows, shows};

use search_base::{NoMemory, Word};
use std::alloc::Global;
use std::collections::BTreeSet;

/// The names of a list. It shows them all where `*` is among them.
#[derive(Drop)]
pub(crate) struct NameSet {
    all: bool,
    names: BTreeSet<String>,
}

impl NameSet {
    // All names.
    fn all(alloc: Global) -> NameSet
        ensures { (name : List ℕ) → set_shows result name ≡ true }
    {
        NameSet {
            all: true,
            names: BTreeSet::new(alloc),
        }
    }

    // Those of a list.
    fn new(alloc: Global, names: &[Word]) -> Result<NameSet, NoMemory>
        ensures { IfOk result (λ set. (name : List ℕ) → set_shows set name ≡ is_shown names.now name) }
    {
        let names = distinct(alloc, names)?;
        Ok(NameSet {
            all: names.contains("*"),
            names,
        })
    }

    /// Those of a list that may be given; else none.
    pub(crate) fn given(alloc: Global, names: &Option<Vec<Word>>) -> Result<NameSet, NoMemory>
        ensures { IfOk result (λ set. (name : List ℕ) → set_shows set name ≡ is_named (names_view names.now) name) }
    {
        match names {
            Some(names) => NameSet::new(alloc, names.as_slice()),
            None => Ok(NameSet {
                all: false,
                names: BTreeSet::new(alloc),
            }),
        }
    }

    // Whether all names are shown.
    fn has_all(&self) -> bool
        ensures { result ≡ true → (name : List ℕ) → set_shows self.now name ≡ true }
    {
        self.all
    }

    /// Whether a name is shown.
    pub(crate) fn has(&self, name: &str) -> bool
        ensures { result ≡ set_shows self.now name.now }
    {
        self.all || self.names.contains(name)
    }
}

// The names of a list, each once.
fn distinct(alloc: Global, names: &[Word]) -> Result<BTreeSet<String>, NoMemory>
    ensures { IfOk result (λ set. (name : List ℕ) → contains_text set name ≡ is_among names.now name) }
{
    let mut set = BTreeSet::new(alloc);
    for name in names {
        set.insert(String::from_str(alloc, name.as_str())?)?;
    }
    Ok(set)
}

/// The names of members that are shown: those that two lists show.
#[derive(Drop)]
pub(crate) struct Names {
    displayed: NameSet,
    asked: NameSet,
}

impl Names {
    /// Those of one list.
    pub(crate) fn of(alloc: Global, asked: &[Word]) -> Result<Names, NoMemory>
        ensures { IfOk result (λ names. (name : List ℕ) → shows names name ≡ is_shown asked.now name) }
    {
        Ok(Names {
            displayed: NameSet::all(alloc),
            asked: NameSet::new(alloc, asked)?,
        })
    }

    /// Those that both lists show.
    pub(crate) fn common(
        alloc: Global,
        displayed: &[Word],
        asked: &[Word],
    ) -> Result<Names, NoMemory>
        ensures { IfOk result (λ names. (name : List ℕ)
            → shows names name ≡ (is_shown displayed.now name && is_shown asked.now name)) }
    {
        Ok(Names {
            displayed: NameSet::new(alloc, displayed)?,
            asked: NameSet::new(alloc, asked)?,
        })
    }

    /// Whether all names are shown.
    pub(crate) fn has_all(&self) -> bool
        ensures { result ≡ true → (name : List ℕ) → shows self.now name ≡ true }
    {
        self.displayed.has_all() && self.asked.has_all()
    }

    /// Whether a name is shown.
    pub(crate) fn has(&self, name: &str) -> bool
        ensures { result ≡ shows self.now name.now }
    {
        self.displayed.has(name) && self.asked.has(name)
    }
}
