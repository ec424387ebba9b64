//! What a search asks for, as requests and indexes see it.
//!
//! A `SearchCall` and a `FacetCall` hold data and promise nothing. Contracts see them as a `SearchView` and a
//! `FacetCallView`, whose vectors are lists and whose filter is a tree, and a `FormatCall`, which says how a search
//! shows the texts of its hits, as a `FormatView`. The crate stands on `search_base` and `filter_tree`, and on nothing
//! that reads requests or keeps documents.
#![tactic(auto)]

ghost use Rattle.std.specs.Prelude.{◌≡◌};
ghost use Rattle.std.specs.Option.{option_map};
ghost use Rattle.search_call.specs.FormatView.{formats_texts, is_given as is_list_given, shows_matches};

use filter_tree::Filter;
use search_base::{Strategy, Word};
use std::marker::Model;

/// Which of the hits are asked for. Places are counted from 0.
#[derive(Clone, Copy, Debug, PartialEq, Eq)]
pub enum Window {
    /// From the place `offset` on, at most `limit` of them.
    Slice { offset: u64, limit: u64 },
    /// The page of this number, from 1, where each has `per` hits. A page 0 has none.
    Page { page: u64, per: u64 },
}

/// A path by whose values hits are sorted, and whether from the least on.
#[derive(Debug, Drop)]
pub struct Criterion {
    pub attribute: Word,
    pub up: bool,
}

/// A member whose texts are cropped, and to how many words. `*` names all members.
#[derive(Debug, Drop)]
pub struct CropRow {
    pub attribute: Word,
    pub length: u64,
}

/// How hits show the texts of their members, beside these as they are stored.
#[derive(Debug, Drop)]
pub struct FormatCall {
    /// The members in whose texts matched words stand between tags, where the request says. `*` names all.
    pub highlight: Option<Vec<Word>>,
    /// The members whose texts are cropped, where the request says. The first row that names a member counts.
    pub crop: Option<Vec<CropRow>>,
    /// What stands for the text that is left out of a crop.
    pub marker: Word,
    /// What stands before a matched word.
    pub pre: Word,
    /// What stands after it.
    pub post: Word,
    /// Whether each hit says where the matched words of its texts stand.
    pub positions: bool,
}

impl Model for FormatCall {
    ghost use Rattle.search_call.specs.FormatView.{FormatView};
    ghost use Rattle.search_call.specs.SearchView.{names_view};
    ghost use Rattle.std.specs.Option.{option_map};
    ghost use Rattle.std.specs.Coded.{codes};

    ghost Value = { FormatView };

    ghost coded = { Prim.hlevel codes };

    ghost view = { λ call. record {
      highlight = names_view call.highlight;
      crop = option_map (λ rows. rows.items) call.crop;
      marker = call.marker;
      pre = call.pre;
      post = call.post;
      positions = call.positions;
    } };
}

impl FormatCall {
    /// Whether hits show which words are matched. It takes no memory.
    pub fn shows_matches(&self) -> bool
        ensures { result ≡ shows_matches self.now }
    {
        self.formats_texts() || self.positions
    }

    /// Whether hits show texts otherwise than they are stored: marked or cropped. It takes no memory.
    pub fn formats_texts(&self) -> bool
        ensures { result ≡ formats_texts self.now }
    {
        is_given(&self.highlight) || is_given(&self.crop)
    }
}

// Whether there is a list that is not empty.
fn is_given<T>(list: &Option<Vec<T>>) -> bool
    ensures { result ≡ is_list_given (option_map (λ list. list.items) list.now) }
{
    match list {
        Some(list) => !list.is_empty(),
        None => false,
    }
}

/// What is searched for, which hits are asked for, and what they show.
#[derive(Debug, Drop)]
pub struct SearchCall {
    /// The text that is searched for, empty where the request names none. A double quote opens or closes a phrase.
    pub q: Word,
    /// Which hits are asked for: the first 20 where the request does not say.
    pub window: Window,
    /// What a hit must pass; `All` where the request sets no condition.
    pub filter: Filter,
    /// The attributes whose values are counted, where the request asks for counts. `*` stands for all that may be.
    pub facets: Option<Vec<Word>>,
    /// By what hits are sorted, where the ranking rules sort.
    pub sort: Vec<Criterion>,
    /// Which words of the text a hit must hold: as many as there are, where the request does not say.
    pub strategy: Strategy,
    /// Whether each hit shows the costs by which it stands where it stands.
    pub costs: bool,
    /// The names of the top members that hits show. `*` names all, and stands here where the request names none.
    pub retrieve: Vec<Word>,
    /// How hits show the texts of these members.
    pub formats: FormatCall,
    /// The attribute of whose values no two hits have one in common, where the request names one. Else it is the
    /// index's own, if that has one.
    pub distinct: Option<Word>,
}

impl Model for SearchCall {
    ghost use Rattle.search_call.specs.SearchView.{SearchView, names_view};
    ghost use Rattle.filter_tree.specs.View.{view as tree_of};
    ghost use Rattle.std.specs.Coded.{codes};
    ghost use Rattle.search_call.specs.TreeCode.{tree_code};

    ghost Value = { SearchView };

    ghost coded = { Prim.hlevel (codes, tree_code) };

    ghost view = { λ call. record {
      q = call.q;
      window = call.window;
      filter = tree_of call.filter;
      facets = names_view call.facets;
      sort = call.sort.items;
      strategy = call.strategy;
      costs = call.costs;
      retrieve = call.retrieve.items;
      formats = call.formats;
      distinct = call.distinct;
    } };
}

/// Which values of an attribute are asked for, and of which documents.
#[derive(Debug, Drop)]
pub struct FacetCall {
    /// The attribute whose values are asked for.
    pub name: Word,
    /// With what their texts begin, where the request says; else each value is asked for.
    pub query: Option<Word>,
    /// The text that a search for the documents is given, empty where the request names none.
    pub q: Word,
    /// What a document must pass; `All` where the request sets no condition.
    pub filter: Filter,
    /// Which words of the text a document must hold: as many as there are, where the request does not say.
    pub strategy: Strategy,
}

impl Model for FacetCall {
    ghost use Rattle.search_call.specs.SearchView.{FacetCallView};
    ghost use Rattle.filter_tree.specs.View.{view as tree_of};
    ghost use Rattle.std.specs.Coded.{codes};
    ghost use Rattle.search_call.specs.TreeCode.{tree_code};

    ghost Value = { FacetCallView };

    ghost coded = { Prim.hlevel (codes, tree_code) };

    ghost view = { λ call. record {
      name = call.name;
      query = call.query;
      q = call.q;
      filter = tree_of call.filter;
      strategy = call.strategy;
    } };
}
