//! Gives a page of twenty as often as it is told, and tells how many hits the last page had and how many buckets it
//! opened.
//!
//! Its first word says by which rules: under `ties` each of ten rules leaves all documents together, under `halves`
//! each puts one half before the other, and under `paths` there is one rule, the cost of ten words, each of which costs
//! nothing in one half of the documents; there whole buckets are counted. Then come how many documents there are, how
//! far apart their ids stand, at which offset the page begins, and how often it is asked for.

use crate::ranks::{Ranks, row_of};
use crate::rules::Splits;
use bucket_sort::{BucketLog, RecordLog, page};
use doc_sets::{DocSet, DocSetBuilder};
use path_costs::PathCosts;
use search_base::{DocId, NoMemory, Steps};
use std::alloc::Global;

// Counts buckets.
struct Opened;

// What the last page had.
#[derive(Clone, Copy, Drop)]
struct Counts {
    hits: u64,
    opened: usize,
}

// A set has the documents whose numbers have no bit of its mask.
const HALVES: [u32; 10] = [1, 2, 4, 8, 16, 32, 64, 128, 256, 512];

const TIES: [u32; 10] = [0, 0, 0, 0, 0, 0, 0, 0, 0, 0];

// The documents whose numbers have no bit of the mask.
fn unmasked(alloc: Global, size: u32, step: u32, mask: u32) -> Result<DocSet, NoMemory> {
    let mut builder = DocSetBuilder::new(alloc, 0)?;
    for number in 0..size {
        if number & mask == 0 {
            builder.add_id(DocId(number.saturating_mul(step)))?;
        }
    }
    builder.finish(alloc)
}

// The documents without each mask.
fn sets_of(alloc: Global, size: u32, step: u32, masks: &[u32]) -> Result<Vec<DocSet>, NoMemory> {
    let mut sets = Vec::new(alloc);
    for mask in masks {
        let set = unmasked(alloc, size, step, *mask)?;
        sets.push(set)?;
    }
    Ok(sets)
}

// A page of twenty from an offset on.
fn page_at(
    alloc: Global,
    first: &[DocSet],
    universe: &DocSet,
    offset: u64,
) -> Result<Counts, NoMemory> {
    let mut log: Box<dyn BucketLog> = Box::new(alloc, RecordLog::new(alloc))?;
    let mut openings = Steps::<Opened>::new();
    let all = universe.clone()?;
    let rules = Splits { first };
    let hits = page(alloc, &rules, all, offset, 20, &mut log, &mut openings)?;
    let opened = match log.heard() {
        Some(rows) => rows.len(),
        None => 0,
    };
    Ok(Counts {
        hits: hits.len() as u64,
        opened,
    })
}

// The buckets that hold a page of twenty from an offset on, and all before them.
fn costs_to(
    alloc: Global,
    sets: &[DocSet],
    universe: &DocSet,
    offset: u64,
) -> Result<Counts, NoMemory> {
    let all = universe.clone()?;
    let graph = row_of(alloc, 10)?;
    let mut costs = PathCosts::new(alloc, graph, Ranks { sets }, all)?;
    let end = offset.saturating_add(20);
    let mut last = Counts { hits: 0, opened: 0 };
    for opened in 1..12 {
        let Some((_cost, docs)) = costs.next_cost(alloc)? else {
            return Ok(last);
        };
        last.hits = last.hits.saturating_add(docs.len());
        last.opened = opened;
        if end <= last.hits {
            return Ok(last);
        }
    }
    Ok(last)
}

fn counted(alloc: Global, words: &[String]) -> Option<Counts> {
    let [kind, size, step, offset, rounds] = words else {
        return None;
    };
    let size = size.parse::<u32>().ok()?;
    let step = step.parse::<u32>().ok()?;
    let offset = offset.parse::<u64>().ok()?;
    let rounds = rounds.parse::<u32>().ok()?;
    let is_paths = kind.as_str() == "paths";
    let masks = if kind.as_str() == "ties" {
        &TIES
    } else {
        &HALVES
    };
    let sets = sets_of(alloc, size, step, masks.as_slice()).ok()?;
    let universe = unmasked(alloc, size, step, 0).ok()?;
    let mut last = Counts { hits: 0, opened: 0 };
    for _ in 0..rounds {
        last = if is_paths {
            costs_to(alloc, &sets, &universe, offset).ok()?
        } else {
            page_at(alloc, &sets, &universe, offset).ok()?
        };
    }
    Some(last)
}

pub(crate) fn told(alloc: Global, words: &[String]) -> Option<String> {
    let last = counted(alloc, words)?;
    format!(in alloc; "{} {}", last.hits, last.opened).ok()
}
