ghost use Rattle.std.specs.Prelude.{◌≡◌, List, IfOk};
ghost use Rattle.search_base.specs.Graphs.{IsGraph};
ghost use Rattle.search_base.specs.Query.{tuple_under};
ghost use Rattle.search_base.specs.Terms.{terms_of, terms_under, HaveSame};
ghost use Rattle.search_base.specs.Tuple.{tuple};
ghost use Rattle.token_words.specs.Tokens.{tokens as tokens_of};
ghost use Rattle.search_settings.specs.QueryWords.{only_word as only_word_of, stop_words_of, AreWordsOf, query_of};
ghost use Rattle.search_base.specs.RowsView.{RowsView};
ghost use Rattle.search_base.specs.declared.rule.Rule.{Rule};
ghost use Rattle.index_settings.specs.View.{SettingsView};

use crate::synonyms::synonym_rows;
use index_settings::Settings;
use query_graph::{build_graph, items};
use search_base::{Graph, NoMemory, Strategy, Token, Word};
use std::alloc::Global;
use std::marker::Model;
use synonym_terms::SynonymTable;
use token_words::tokens;

/// What the settings say about the words of queries, cut into words: which are left out, and which stand for others.
/// Seen as the two lists.
#[derive(Drop)]
pub struct QueryWords {
    stop_words: Vec<Word>,
    synonyms: SynonymTable,
}

impl Model for QueryWords {
    ghost use Rattle.search_settings.specs.QueryWords.{QueryWordsView};

    ghost Value = { QueryWordsView };

    ghost view = { λ words. record { stop_words = words.stop_words.items; synonyms = words.synonyms } };
}

impl QueryWords {
    /// The words that these settings give.
    pub fn of(alloc: Global, settings: &Settings) -> Result<QueryWords, NoMemory>
        ensures { IfOk result (λ words. AreWordsOf words settings.now) }
    {
        let rows = synonym_rows(alloc, settings)?;
        Ok(QueryWords {
            stop_words: stop_words(alloc, settings)?,
            synonyms: SynonymTable::build(alloc, rows)?,
        })
    }

    /// What a text asks for that is searched with a strategy, as a graph: each document costs under it what it costs
    /// under the query of the settings whose words these are, and its first level has the same terms.
    pub fn query(&self, alloc: Global, text: &Word, strategy: Strategy) -> Result<Graph, NoMemory>
        ensures sound { IfOk result IsGraph }
        ensures costs { IfOk result (λ graph. (settings : SettingsView) → AreWordsOf self.now settings
            → (rows : RowsView) (rules : List Rule)
            → tuple rows graph rules ≡ tuple_under rows (query_of settings strategy text.now) rules) }
        ensures terms { IfOk result (λ graph. (settings : SettingsView) → AreWordsOf self.now settings
            → HaveSame (terms_of graph) (terms_under (query_of settings strategy text.now))) }
    {
        let items = items(alloc, text.as_str(), self.stop_words.as_slice())?;
        let graph = build_graph(alloc, &items, &self.synonyms, strategy)?;
        Ok(graph)
    }
}

// The words that a query leaves out: the word of each stop word of the settings that is one word.
fn stop_words(alloc: Global, settings: &Settings) -> Result<Vec<Word>, NoMemory>
    ensures { IfOk result (λ words. words.items ≡ stop_words_of settings.now) }
{
    let mut words = Vec::new(alloc);
    for entry in settings.stop_words() {
        let found = tokens(alloc, entry.as_str())?;
        if let Some(word) = only_word(found.as_slice())? {
            words.push(word)?;
        }
    }
    Ok(words)
}

// The one word of a text that has exactly one.
fn only_word(tokens: &[Token]) -> Result<Option<Word>, NoMemory>
    ensures { IfOk result (λ word. word ≡ only_word_of tokens.now) }
{
    match tokens {
        [token] => Ok(Some(token.word.clone()?)),
        _ => Ok(None),
    }
}
