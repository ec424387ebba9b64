ghost use Rattle.std.specs.Prelude.{◌≡◌, ◌≤◌, length, map, None, IfOk, option_map};
ghost use Rattle.std.specs.Rc.{rc_slice_items};
ghost use Rattle.index_settings.specs.Limits.{AreInOrder};
ghost use Rattle.index_settings.specs.Rules.{bad_rule};
ghost use Rattle.index_settings.specs.Table.{defaults as default_settings};

use crate::synonyms::SynonymList;
use search_base::{NoMemory, Word};
use std::alloc::Global;
use std::marker::Model;
use std::rc::RcSlice;

/// The settings of an index. Its lists are shared with the settings that a patch makes of it.
#[derive(Drop)]
pub struct Settings {
    pub(crate) displayed_attributes: RcSlice<Word>,
    pub(crate) distinct_attribute: Option<Word>,
    pub(crate) filterable_attributes: RcSlice<Word>,
    pub(crate) max_total_hits: u64,
    pub(crate) max_values_per_facet: u64,
    pub(crate) ranking_rules: RcSlice<Word>,
    pub(crate) searchable_attributes: RcSlice<Word>,
    pub(crate) sortable_attributes: RcSlice<Word>,
    pub(crate) stop_words: RcSlice<Word>,
    pub(crate) synonyms: RcSlice<SynonymList>,
}

impl Model for Settings {
    ghost use Rattle.index_settings.specs.View.{SettingsView};

    ghost Value = { SettingsView };

    ghost use Rattle.index_settings.specs.Inside.{settings_view};
    ghost use Rattle.index_settings.specs.Limits.{IsSettings};

    ghost view = { settings_view };

    ghost invariant = { λ s. IsSettings (settings_view s) };
}

impl Settings {
    /// The settings of a new index.
    pub fn defaults(alloc: Global) -> Result<Settings, NoMemory>
        ensures { IfOk result (λ settings. settings ≡ default_settings) }
    {
        let every = shared(alloc, &["*"])?;
        let no_texts = shared(alloc, &[])?;
        let rules = [
            "words",
            "typo",
            "proximity",
            "attribute",
            "sort",
            "exactness",
        ];
        Ok(Settings {
            displayed_attributes: every.clone()?,
            distinct_attribute: None,
            filterable_attributes: no_texts.clone()?,
            max_total_hits: 1000,
            max_values_per_facet: 100,
            ranking_rules: shared(alloc, &rules)?,
            searchable_attributes: every,
            sortable_attributes: no_texts.clone()?,
            stop_words: no_texts,
            synonyms: RcSlice::from_vec(Vec::new(alloc))?,
        })
    }

    /// The top-level members that a hit shows; `*` stands for all. At most 65,535.
    pub fn displayed_attributes(&self) -> &[Word]
        ensures entries { result.now ≡ self.now.displayed_attributes }
        ensures few { length self.now.displayed_attributes ≤ 65535 }
    {
        self.displayed_attributes.as_slice()
    }

    /// The attribute of which no two hits of a search have a value in common; none where a value may come again.
    pub fn distinct_attribute(&self) -> Option<&Word>
        ensures { option_map (λ attribute. attribute.now) result ≡ self.now.distinct_attribute }
    {
        self.distinct_attribute.as_ref()
    }

    /// The attributes that a filter may test, and whose values may be counted.
    pub fn filterable_attributes(&self) -> &[Word]
        ensures { result.now ≡ self.now.filterable_attributes }
    {
        self.filterable_attributes.as_slice()
    }

    /// How many hits a search counts at most: 0 to 1,000,000.
    pub fn max_total_hits(&self) -> u64
        ensures number { result ≡ self.now.max_total_hits }
        ensures limit { self.now.max_total_hits ≤ 1000000 }
    {
        self.max_total_hits
    }

    /// How many values of an attribute are counted at most: 0 to 1,000,000.
    pub fn max_values_per_facet(&self) -> u64
        ensures number { result ≡ self.now.max_values_per_facet }
        ensures limit { self.now.max_values_per_facet ≤ 1000000 }
    {
        self.max_values_per_facet
    }

    /// The ranking rules as they were given, at most 32: `ranking_rule` reads each of them as a rule.
    pub fn ranking_rules(&self) -> &[Word]
        ensures texts { result.now ≡ self.now.ranking_rules }
        ensures few { length self.now.ranking_rules ≤ 32 }
        ensures rules { bad_rule self.now.ranking_rules ≡ None }
    {
        self.ranking_rules.as_slice()
    }

    /// The attributes whose words are searched, the best first; `*` stands for all. At most 65,535.
    pub fn searchable_attributes(&self) -> &[Word]
        ensures entries { result.now ≡ self.now.searchable_attributes }
        ensures few { length self.now.searchable_attributes ≤ 65535 }
    {
        self.searchable_attributes.as_slice()
    }

    /// The attributes by which a search may sort.
    pub fn sortable_attributes(&self) -> &[Word]
        ensures { result.now ≡ self.now.sortable_attributes }
    {
        self.sortable_attributes.as_slice()
    }

    /// The texts whose words a query leaves out.
    pub fn stop_words(&self) -> &[Word]
        ensures { result.now ≡ self.now.stop_words }
    {
        self.stop_words.as_slice()
    }

    /// The synonyms, in byte order of their keys.
    pub fn synonyms(&self) -> &[SynonymList]
        ensures lists { result.now ≡ self.now.synonyms }
        ensures in_order { AreInOrder self.now.synonyms }
    {
        self.synonyms.as_slice()
    }
}

/// Some texts as a list that is shared by its clones.
fn shared(alloc: Global, texts: &[&str]) -> Result<RcSlice<Word>, NoMemory>
    ensures { IfOk result (λ list. rc_slice_items list ≡ map (λ text. text.now) texts.now) }
{
    let mut words = Vec::new(alloc);
    for text in texts {
        words.push(Word::new(alloc, text)?)?;
    }
    Ok(RcSlice::from_vec(words)?)
}
