ghost use Rattle.std.specs.Prelude.{◌≡◌, ◌↔◌, ◌<◌, ◌≤◌, ◌+◌, ◌++◌, ◌∷◌, List, [], Contains, length, map, filter};
ghost use Rattle.std.specs.Prelude.{IfOk, OnOk};
ghost use Rattle.search_base.specs.Graphs.{IsGraph};
ghost use Rattle.search_base.specs.Query.{tuple_under};
ghost use Rattle.search_base.specs.RowsView.{RowsView};
ghost use Rattle.search_base.specs.Terms.{terms_of, terms_under, HaveSame};
ghost use Rattle.search_base.specs.Tuple.{tuple};
ghost use Rattle.search_base.specs.declared.query.Block.{Block as ReadBlock};
ghost use Rattle.search_base.specs.declared.rule.Rule.{Rule};
ghost use Rattle.synonym_terms.specs.SynonymRowView.{SynonymRowView};
ghost use Rattle.query_graph.specs.Cuts.{CutsItems};
ghost use Rattle.query_graph.specs.ItemView.{ItemView};
ghost use Rattle.query_graph.specs.Items.{most_items, AreItems};
ghost use Rattle.query_graph.specs.ItemReadings.{words_of, readings_of, query_for};
ghost use Rattle.query_graph.specs.Levels.{word_count, with_words, most_dropped, has_items, levels};
ghost use Rattle.query_graph.specs.Graph.{placed_at, blocks_at, level_of, HaveReadings};

use crate::block::{choices, words_of};
use crate::item::{Item, Items};
use search_base::{Block, Graph, LevelGraph, NoMemory, PlacedBlock, Strategy};
use std::alloc::Global;
use synonym_terms::SynonymTable;

const MOST_JOINED: usize = 3;

/// The graph of a query with these items and synonyms.
///
/// It has a level for each number of words that may be dropped from the end so that an item stays,
/// from none on; under `Strategy::All` none may be dropped, and a phrase never is. Each level has
/// the readings of the items that it keeps, so each document has the costs that it has under the
/// query. A block stands in its level once for all readings that begin, go on or end with it: a
/// level of ten items has 27 parts at most, each with few blocks and with those of its synonyms.
pub fn build_graph(
    alloc: Global,
    items: &Items,
    table: &SynonymTable,
    strategy: Strategy,
) -> Result<Graph, NoMemory>
    requires { AreItems items.now }
    ensures sound { IfOk result IsGraph }
    ensures whole { IfOk result (λ graph. graph.whole ≡ words_of items.now) }
    ensures paths { IfOk result (λ graph. HaveReadings graph.levels (query_for strategy table.now items.now).levels) }
    ensures costs { IfOk result (λ graph. (rows : RowsView) (rules : List Rule)
        → tuple rows graph rules ≡ tuple_under rows (query_for strategy table.now items.now) rules) }
    ensures terms { IfOk result (λ graph. HaveSame (terms_of graph) (terms_under (query_for strategy table.now items.now))) }
{
    table.terms_have_words();
    let list = items.list.as_slice();
    let levels = levels_of(alloc, list, table, strategy)?;
    let whole = words_of(alloc, list)?;
    Ok(Graph { levels, whole })
}

fn levels_of(
    alloc: Global,
    list: &[Item],
    table: &SynonymTable,
    strategy: Strategy,
) -> Result<Vec<LevelGraph>, NoMemory>
    requires { length list.now ≤ most_items }
    ensures { IfOk result (λ graphs. graphs.items ≡ map (level_of table.now) (levels strategy list.now)) }
{
    let words = word_count(list);
    let most = match strategy {
        Strategy::Last => words,
        Strategy::All => 0,
    };
    let mut graphs = Vec::new(alloc);
    for dropped in 0..most + 1 {
        let kept = with_words(alloc, words - dropped, list)?;
        add_level(alloc, kept.as_slice(), table, &mut graphs)?;
    }
    Ok(graphs)
}

fn word_count(list: &[Item]) -> usize
    ensures words { result ≡ word_count list.now }
    ensures few { result ≤ length list.now }
{
    list.iter().filter(|item| !item.phrase).count()
}

// The phrases, and the first words, as many as these.
fn with_words(alloc: Global, words: usize, list: &[Item]) -> Result<Vec<Item>, NoMemory>
    ensures { IfOk result (λ kept. kept.items ≡ with_words words list.now) }
{
    let mut kept = Vec::new(alloc);
    let mut left = words;
    for item in list {
        if item.phrase {
            kept.push(item.clone()?)?;
        } else if left > 0 {
            kept.push(item.clone()?)?;
            left -= 1;
        }
    }
    Ok(kept)
}

// The level that keeps these items, if there are any.
fn add_level(
    alloc: Global,
    kept: &[Item],
    table: &SynonymTable,
    graphs: &mut Vec<LevelGraph>,
) -> Result<(), NoMemory>
    requires { length kept.now ≤ most_items }
    ensures { OnOk result (graphs.new.items
        ≡ graphs.old.items ++ map (level_of table.now) (filter has_items (kept.now ∷ []))) }
{
    if !kept.is_empty() {
        graphs.push(level_of(alloc, kept, table)?)?;
    }
    Ok(())
}

fn level_of(alloc: Global, kept: &[Item], table: &SynonymTable) -> Result<LevelGraph, NoMemory>
    requires { length kept.now ≤ most_items }
    ensures { IfOk result (λ level. level ≡ level_of table.now kept.now) }
{
    let mut blocks = Vec::new(alloc);
    for from in 0..kept.len() {
        add_blocks(alloc, from, &kept[from..], table, &mut blocks)?;
    }
    Ok(LevelGraph {
        items: kept.len() as u8,
        blocks,
    })
}

// The blocks that begin with the first of these items, which stands behind this place.
fn add_blocks(
    alloc: Global,
    from: usize,
    items: &[Item],
    table: &SynonymTable,
    blocks: &mut Vec<PlacedBlock>,
) -> Result<(), NoMemory>
    requires { from + length items.now ≤ most_items }
    ensures { OnOk result (blocks.new.items ≡ blocks.old.items ++ blocks_at table.now from items.now) }
{
    let most = items.len().min(MOST_JOINED);
    for span in 1..most + 1 {
        let part = choices(alloc, table, &items[..span])?;
        place_all(from, span, part, blocks)?;
    }
    Ok(())
}

fn place_all(
    from: usize,
    span: usize,
    part: Vec<Block>,
    blocks: &mut Vec<PlacedBlock>,
) -> Result<(), NoMemory>
    requires { from + span ≤ most_items }
    ensures { OnOk result (blocks.new.items ≡ blocks.old.items ++ map (placed_at from span) part.items) }
{
    for block in part {
        blocks.push(PlacedBlock {
            from: from as u8,
            to: (from + span) as u8,
            block,
        })?;
    }
    Ok(())
}

/// The readings of some items are the ways to cut them into parts of one to three, with one of the blocks of each part.
/// It does nothing.
pub fn readings_cut_the_items()
    ensures { (rows : List SynonymRowView) (items : List ItemView) (reading : List ReadBlock)
        → Contains (readings_of rows items) reading ↔ CutsItems rows items reading }
{}
