ghost use Rattle.std.specs.Prelude.{◌≡◌};

use search_base::Word;
use std::alloc::AllocError;
use std::marker::Model;

/// A part of a query that a document may hold: a word or a quoted phrase.
#[derive(Debug, Drop)]
pub struct Item {
    /// The words, of which there is one where they were not quoted.
    pub words: Vec<Word>,
    /// Whether the words were quoted.
    pub phrase: bool,
    /// Whether each word that begins with this one is meant too.
    pub prefix: bool,
}

impl Model for Item {
    ghost use Rattle.query_graph.specs.ItemView.{ItemView};

    ghost Value = { ItemView };

    ghost view = { λ item. record { words = item.words.items; phrase = item.phrase; prefix = item.prefix } };
}

impl Clone for Item {
    ghost is_clone = { λ item copy. copy ≡ item };

    fn clone(&self) -> Result<Item, AllocError> {
        let words = self.words.clone()?;
        Ok(Item {
            words,
            phrase: self.phrase,
            prefix: self.prefix,
        })
    }
}

/// The items of a query, in the order of its text.
#[derive(Debug, Drop)]
pub struct Items {
    pub list: Vec<Item>,
}

impl Model for Items {
    ghost use Rattle.std.specs.Prelude.{List};
    ghost use Rattle.query_graph.specs.ItemView.{ItemView};

    ghost Value = { List ItemView };

    ghost view = { λ items. items.list.items };
}
