// The changes of a batch, made on the indexes. All that can be refused, and all memory, comes before the first effect.
ghost use Rattle.std.specs.Prelude.{◌≡◌, ◌+◌, ◌<◌, ◌≤◌, ◌++◌, ◌∷◌, [], length, map, replicate, IfOk, OnOk, OnErr, if◌then◌else◌};
ghost use Rattle.std.specs.List.{AllByRecursion, list_any};
ghost use Rattle.std.specs.Option.{is_none, option_copied};
ghost use Rattle.std.specs.Vec.{vec_capacity};
ghost use Rattle.document_changes.specs.Changes.{kind_view, create};
ghost use Rattle.index_changes.specs.Batches.{IsOneBatch, after_each, batch_needed, faults_of};
ghost use Rattle.index_changes.specs.Index.{empty_index};
ghost use Rattle.index_changes.specs.Keyed.{HasKey};
ghost use Rattle.index_changes.specs.Plans.{planned};
ghost use Rattle.queued_changes.specs.Machine.{left_in, row_in as row_done};
ghost use Rattle.request_refusals.specs.Tasks.{row_of as number_of};
ghost use Rattle.task_queue.specs.Queue.{row_of};
ghost use Rattle.named_indexes.specs.Changes.{row_in, created, dropped, indexes_after};
ghost use Rattle.named_indexes.specs.Indexes.{index_or_empty, with_index};
ghost use Rattle.named_indexes.specs.Inside.{kinds_in, after_kinds, rows_of_kinds, IsAbsent, Names, Fills, Empties, HasEffect, fault_row, full_row, plan_row, put_new};

use crate::payload::Payload;
use document_changes::{ChangeKind, Documents};
use index_core::{CoreRefusal, IndexCore};
use request_refusals::TaskRefusal;
use search_base::{Fault, NoMemory, Steps, Word};
use std::alloc::Global;
use std::collections::BTreeMap;
use task_queue::{Outcome, Task};

const MOST_INDEXES: usize = 1_000;

/// What tasks change.
pub(crate) fn changes_of(
    alloc: Global,
    tasks: &[Task<Payload>],
) -> Result<Vec<ChangeKind>, NoMemory>
    ensures { IfOk result (λ changes. map kind_view changes.items ≡ kinds_in tasks.now) }
{
    let mut changes = Vec::with_capacity(alloc, tasks.len())?;
    for task in tasks {
        changes.push(task.change.change()?.kind)?;
    }
    Ok(changes)
}

/// Makes the changes of a batch of the index of a uid, and tells what became of each. For want of memory nothing changes.
pub(crate) fn make<F>(
    alloc: Global,
    entries: &mut BTreeMap<Word, IndexCore>,
    uid: &Word,
    changes: Vec<ChangeKind>,
    fetches: &mut Steps<F>,
) -> Result<Vec<Outcome>, NoMemory>
    requires batch { IsOneBatch (map kind_view changes.items) }
    requires keys { AllByRecursion HasKey (map kind_view changes.items) }
    ensures applied { OnOk result (entries.new.entries
        ≡ after_kinds uid.now (map kind_view changes.items) entries.old.entries) }
    ensures rows { IfOk result (λ outcomes. map row_of outcomes.items
        ≡ rows_of_kinds uid.now (map kind_view changes.items) entries.old.entries) }
    ensures stays { OnErr result (entries.new.entries ≡ entries.old.entries) }
    ensures fetched { fetches.new
        ≤ fetches.old + batch_needed (map kind_view changes.items) (index_or_empty uid.now entries.old.entries) }
{
    let Some(change) = changes.first() else {
        return Ok(Vec::new(alloc));
    };
    match effect_of(change) {
        Effect::Name => name(alloc, entries, uid, changes, fetches),
        Effect::Fill => fill(alloc, entries, uid, changes, fetches),
        Effect::Empty => empty(alloc, entries, uid, changes, fetches),
    }
}

// What a change does: it makes an index or takes it away, it makes the index where that is not there, or it needs it.
#[derive(Clone, Copy)]
enum Effect {
    Name,
    Fill,
    Empty,
}

fn effect_of(change: &ChangeKind) -> Effect
    ensures { HasEffect result (kind_view change.now) }
{
    match change {
        ChangeKind::Create { .. } => Effect::Name,
        ChangeKind::Drop => Effect::Name,
        ChangeKind::Replace { .. } => Effect::Fill,
        ChangeKind::Update { .. } => Effect::Fill,
        ChangeKind::Remove { .. } => Effect::Empty,
        ChangeKind::Clear => Effect::Empty,
        ChangeKind::Patch { .. } => Effect::Fill,
        ChangeKind::Reset => Effect::Empty,
    }
}

// ---- an index is made or goes

fn name<F>(
    alloc: Global,
    entries: &mut BTreeMap<Word, IndexCore>,
    uid: &Word,
    changes: Vec<ChangeKind>,
    fetches: &mut Steps<F>,
) -> Result<Vec<Outcome>, NoMemory>
    requires few { length changes.items ≤ 1 }
    requires names { AllByRecursion Names (map kind_view changes.items) }
    requires keys { AllByRecursion HasKey (map kind_view changes.items) }
    ensures applied { OnOk result (entries.new.entries
        ≡ after_kinds uid.now (map kind_view changes.items) entries.old.entries) }
    ensures rows { IfOk result (λ outcomes. map row_of outcomes.items
        ≡ rows_of_kinds uid.now (map kind_view changes.items) entries.old.entries) }
    ensures stays { OnErr result (entries.new.entries ≡ entries.old.entries) }
    ensures fetched { fetches.new ≤ fetches.old }
{
    let mut changes = changes;
    let mut outcomes = Vec::with_capacity(alloc, 1)?;
    if let Some(change) = changes.pop() {
        let outcome = name_one(alloc, entries, uid, change, fetches)?;
        outcomes.push(outcome)?;
    }
    Ok(outcomes)
}

fn name_one<F>(
    alloc: Global,
    entries: &mut BTreeMap<Word, IndexCore>,
    uid: &Word,
    change: ChangeKind,
    fetches: &mut Steps<F>,
) -> Result<Outcome, NoMemory>
    requires names { Names (kind_view change) }
    requires key { HasKey (kind_view change) }
    ensures applied { OnOk result (entries.new.entries
        ≡ left_in (indexes_after entries.old.entries uid.now (kind_view change)) entries.old.entries) }
    ensures row { IfOk result (λ outcome. row_of outcome
        ≡ row_done (indexes_after entries.old.entries uid.now (kind_view change))) }
    ensures stays { OnErr result (entries.new.entries ≡ entries.old.entries) }
    ensures fetched { fetches.new ≤ fetches.old }
{
    match change {
        ChangeKind::Create { key } => create_index(alloc, entries, uid, key, fetches),
        _ => Ok(drop_index(entries, uid)),
    }
}

// Makes an index.
fn create_index<F>(
    alloc: Global,
    entries: &mut BTreeMap<Word, IndexCore>,
    uid: &Word,
    key: Option<Word>,
    fetches: &mut Steps<F>,
) -> Result<Outcome, NoMemory>
    requires key { HasKey (create key) }
    ensures applied { OnOk result (entries.new.entries
        ≡ left_in (created entries.old.entries uid.now key) entries.old.entries) }
    ensures row { IfOk result (λ outcome. row_of outcome ≡ row_done (created entries.old.entries uid.now key)) }
    ensures stays { OnErr result (entries.new.entries ≡ entries.old.entries) }
    ensures fetched { fetches.new ≤ fetches.old }
{
    if entries.contains_key(uid) {
        return Ok(failed(TaskRefusal::IndexExists));
    }
    if entries.len() >= MOST_INDEXES {
        return Ok(failed(TaskRefusal::IndexesSpent));
    }
    let index = new_index(alloc, key, fetches)?;
    let uid = uid.clone()?;
    entries.insert(uid, index)?;
    Ok(Outcome::Succeeded)
}

// An index with this key, or none, and no documents.
fn new_index<F>(
    alloc: Global,
    key: Option<Word>,
    fetches: &mut Steps<F>,
) -> Result<IndexCore, NoMemory>
    requires key { HasKey (create key) }
    ensures index { IfOk result (λ index. index
        ≡ record { key = key; store = empty_index.store; settings = empty_index.settings }) }
    ensures fetched { fetches.new ≤ fetches.old }
{
    let mut index = IndexCore::new(alloc)?;
    let change = ChangeKind::Replace {
        key,
        documents: Documents::none(alloc),
    };
    // A change of no documents gives the index its key. Memory alone can be wanting.
    let Ok(plan) = index.plan(alloc, change) else {
        return Err(NoMemory);
    };
    match index.apply(alloc, plan, fetches) {
        Ok(()) => Ok(index),
        Err(_) => Err(NoMemory),
    }
}

// Takes an index away, with its documents.
fn drop_index(entries: &mut BTreeMap<Word, IndexCore>, uid: &Word) -> Outcome
    ensures applied { entries.new.entries ≡ left_in (dropped entries.old.entries uid.now) entries.old.entries }
    ensures row { row_of result ≡ row_done (dropped entries.old.entries uid.now) }
{
    match entries.remove(uid) {
        Some(_) => Outcome::Succeeded,
        None => failed(TaskRefusal::NoIndex),
    }
}

// ---- an index changes

// Changes that make the index where it is not there.
fn fill<F>(
    alloc: Global,
    entries: &mut BTreeMap<Word, IndexCore>,
    uid: &Word,
    changes: Vec<ChangeKind>,
    fetches: &mut Steps<F>,
) -> Result<Vec<Outcome>, NoMemory>
    requires batch { IsOneBatch (map kind_view changes.items) }
    requires fill { AllByRecursion Fills (map kind_view changes.items) }
    requires keys { AllByRecursion HasKey (map kind_view changes.items) }
    ensures applied { OnOk result (entries.new.entries
        ≡ after_kinds uid.now (map kind_view changes.items) entries.old.entries) }
    ensures rows { IfOk result (λ outcomes. map row_of outcomes.items
        ≡ rows_of_kinds uid.now (map kind_view changes.items) entries.old.entries) }
    ensures stays { OnErr result (entries.new.entries ≡ entries.old.entries) }
    ensures fetched { fetches.new
        ≤ fetches.old + batch_needed (map kind_view changes.items) (index_or_empty uid.now entries.old.entries) }
{
    match entries.get_mut(uid) {
        Some(index) => return change_index(alloc, index, changes, fetches),
        None => {}
    }
    fill_absent(alloc, entries, uid, changes, fetches)
}

// The same where no index has the uid.
fn fill_absent<F>(
    alloc: Global,
    entries: &mut BTreeMap<Word, IndexCore>,
    uid: &Word,
    changes: Vec<ChangeKind>,
    fetches: &mut Steps<F>,
) -> Result<Vec<Outcome>, NoMemory>
    requires absent { IsAbsent uid.now entries.old.entries }
    requires batch { IsOneBatch (map kind_view changes.items) }
    requires fill { AllByRecursion Fills (map kind_view changes.items) }
    requires keys { AllByRecursion HasKey (map kind_view changes.items) }
    ensures applied { OnOk result (entries.new.entries
        ≡ after_kinds uid.now (map kind_view changes.items) entries.old.entries) }
    ensures rows { IfOk result (λ outcomes. map row_of outcomes.items
        ≡ rows_of_kinds uid.now (map kind_view changes.items) entries.old.entries) }
    ensures stays { OnErr result (entries.new.entries ≡ entries.old.entries) }
    ensures fetched { fetches.new
        ≤ fetches.old + batch_needed (map kind_view changes.items) (index_or_empty uid.now entries.old.entries) }
{
    if entries.len() >= MOST_INDEXES {
        return refused_each(alloc, changes);
    }
    fill_new(alloc, entries, uid, changes, fetches)
}

// Changes of an index that is not there and may be made. It is put in where one of them at least is made.
fn fill_new<F>(
    alloc: Global,
    entries: &mut BTreeMap<Word, IndexCore>,
    uid: &Word,
    changes: Vec<ChangeKind>,
    fetches: &mut Steps<F>,
) -> Result<Vec<Outcome>, NoMemory>
    requires batch { IsOneBatch (map kind_view changes.items) }
    requires keys { AllByRecursion HasKey (map kind_view changes.items) }
    ensures applied { OnOk result (entries.new.entries
        ≡ put_new uid.now (map kind_view changes.items) entries.old.entries) }
    ensures rows { IfOk result (λ outcomes. map row_of outcomes.items
        ≡ map fault_row (faults_of (map kind_view changes.items) empty_index)) }
    ensures stays { OnErr result (entries.new.entries ≡ entries.old.entries) }
    ensures fetched { fetches.new ≤ fetches.old + batch_needed (map kind_view changes.items) empty_index }
{
    let outcomes = Vec::with_capacity(alloc, changes.len())?;
    let mut index = IndexCore::new(alloc)?;
    let faults = index.apply_batch(alloc, changes, fetches)?;
    put_made(entries, uid, index, faults.as_slice())?;
    Ok(outcomes_of(outcomes, faults.as_slice()))
}

// A new index after changes: it is put in where one of them at least was made.
fn put_made(
    entries: &mut BTreeMap<Word, IndexCore>,
    uid: &Word,
    index: IndexCore,
    faults: &[Option<CoreRefusal>],
) -> Result<(), NoMemory>
    ensures put { OnOk result (entries.new.entries
        ≡ (if list_any is_none faults.now then with_index uid.now index entries.old.entries else entries.old.entries)) }
    ensures stays { OnErr result (entries.new.entries ≡ entries.old.entries) }
{
    if some_made(faults) {
        return put_in(entries, uid, index);
    }
    Ok(())
}

// Puts in an index under a uid.
fn put_in(
    entries: &mut BTreeMap<Word, IndexCore>,
    uid: &Word,
    index: IndexCore,
) -> Result<(), NoMemory>
    ensures put { OnOk result (entries.new.entries ≡ with_index uid.now index entries.old.entries) }
    ensures stays { OnErr result (entries.new.entries ≡ entries.old.entries) }
{
    let uid = uid.clone()?;
    entries.insert(uid, index)?;
    Ok(())
}

// Changes that need the index.
fn empty<F>(
    alloc: Global,
    entries: &mut BTreeMap<Word, IndexCore>,
    uid: &Word,
    changes: Vec<ChangeKind>,
    fetches: &mut Steps<F>,
) -> Result<Vec<Outcome>, NoMemory>
    requires batch { IsOneBatch (map kind_view changes.items) }
    requires empty { AllByRecursion Empties (map kind_view changes.items) }
    requires keys { AllByRecursion HasKey (map kind_view changes.items) }
    ensures applied { OnOk result (entries.new.entries
        ≡ after_kinds uid.now (map kind_view changes.items) entries.old.entries) }
    ensures rows { IfOk result (λ outcomes. map row_of outcomes.items
        ≡ rows_of_kinds uid.now (map kind_view changes.items) entries.old.entries) }
    ensures stays { OnErr result (entries.new.entries ≡ entries.old.entries) }
    ensures fetched { fetches.new
        ≤ fetches.old + batch_needed (map kind_view changes.items) (index_or_empty uid.now entries.old.entries) }
{
    match entries.get_mut(uid) {
        Some(index) => change_index(alloc, index, changes, fetches),
        None => none_there(alloc, changes.len()),
    }
}

// Changes of an index that is there.
fn change_index<F>(
    alloc: Global,
    index: &mut IndexCore,
    changes: Vec<ChangeKind>,
    fetches: &mut Steps<F>,
) -> Result<Vec<Outcome>, NoMemory>
    requires batch { IsOneBatch (map kind_view changes.items) }
    requires keys { AllByRecursion HasKey (map kind_view changes.items) }
    ensures applied { OnOk result (index.new ≡ after_each (map kind_view changes.items) index.old) }
    ensures rows { IfOk result (λ outcomes. map row_of outcomes.items
        ≡ map fault_row (faults_of (map kind_view changes.items) index.old)) }
    ensures stays { OnErr result (index.new ≡ index.old) }
    ensures fetched { fetches.new ≤ fetches.old + batch_needed (map kind_view changes.items) index.old }
{
    let outcomes = Vec::with_capacity(alloc, changes.len())?;
    let faults = index.apply_batch(alloc, changes, fetches)?;
    Ok(outcomes_of(outcomes, faults.as_slice()))
}

// ---- what became of changes

// Where there are as many indexes as there may be: each change is refused by its plan, or by that.
fn refused_each(alloc: Global, changes: Vec<ChangeKind>) -> Result<Vec<Outcome>, NoMemory>
    requires { AllByRecursion HasKey (map kind_view changes.items) }
    ensures { IfOk result (λ outcomes. map row_of outcomes.items ≡ map full_row (map kind_view changes.items)) }
{
    let index = IndexCore::new(alloc)?;
    refused_all(alloc, &index, changes)
}

// The same with an index that is empty, which plans them.
fn refused_all(
    alloc: Global,
    empty: &IndexCore,
    changes: Vec<ChangeKind>,
) -> Result<Vec<Outcome>, NoMemory>
    requires empty { empty.now ≡ empty_index }
    requires keys { AllByRecursion HasKey (map kind_view changes.items) }
    ensures { IfOk result (λ outcomes. map row_of outcomes.items ≡ map full_row (map kind_view changes.items)) }
{
    let mut outcomes = Vec::with_capacity(alloc, changes.len())?;
    for change in changes {
        let outcome = refused_one(alloc, empty, change)?;
        outcomes.push(outcome)?;
    }
    Ok(outcomes)
}

// A change of an index that may not be made: its plan refuses it, or that.
fn refused_one(alloc: Global, index: &IndexCore, change: ChangeKind) -> Result<Outcome, NoMemory>
    requires { HasKey (kind_view change) }
    ensures { IfOk result (λ outcome. row_of outcome ≡ plan_row (planned index.now (kind_view change))) }
{
    match index.plan(alloc, change) {
        Ok(_) => Ok(failed(TaskRefusal::IndexesSpent)),
        Err(Fault::Refused(why)) => Ok(Outcome::Failed { row: row(&why) }),
        Err(Fault::NoMemory) => Err(NoMemory),
    }
}

// So many changes of an index that is not there.
fn none_there(alloc: Global, count: usize) -> Result<Vec<Outcome>, NoMemory>
    ensures { IfOk result (λ outcomes. map row_of outcomes.items ≡ replicate count 23) }
{
    let mut outcomes = Vec::with_capacity(alloc, count)?;
    for _ in 0..count {
        outcomes.push(failed(TaskRefusal::NoIndex))?;
    }
    Ok(outcomes)
}

// Whether one change at least was made.
fn some_made(faults: &[Option<CoreRefusal>]) -> bool
    ensures { result ≡ list_any is_none faults.now }
{
    for fault in faults {
        if fault.is_none() {
            return true;
        }
    }
    false
}

// The outcomes of changes, in order, put into a vector that is empty and has room for them.
fn outcomes_of(outcomes: Vec<Outcome>, faults: &[Option<CoreRefusal>]) -> Vec<Outcome>
    requires empty { outcomes.items ≡ [] }
    requires room { length faults.now ≤ vec_capacity outcomes }
    ensures { map row_of result.items ≡ map fault_row faults.now }
{
    let mut outcomes = outcomes;
    for fault in faults {
        outcomes.push_reserved(outcome_of(fault.as_ref()));
    }
    outcomes
}

fn outcome_of(fault: Option<&CoreRefusal>) -> Outcome
    ensures { row_of result ≡ fault_row (option_copied fault.entry) }
{
    match fault {
        None => Outcome::Succeeded,
        Some(why) => Outcome::Failed { row: row(why) },
    }
}

fn failed(why: TaskRefusal) -> Outcome
    ensures { row_of result ≡ number_of why }
{
    Outcome::Failed { row: why.row() }
}

// The number by which the outcome of a task names why its index refuses it. No index refuses settings, which are tried
// before.
fn row(why: &CoreRefusal) -> u8
    ensures { result ≡ row_in why.now }
{
    match why {
        CoreRefusal::KeyDiffers => TaskRefusal::KeyDiffers.row(),
        CoreRefusal::NoCandidate => TaskRefusal::NoCandidate.row(),
        CoreRefusal::SeveralCandidates => TaskRefusal::SeveralCandidates.row(),
        CoreRefusal::MissingId { .. } => TaskRefusal::MissingId.row(),
        CoreRefusal::BadId { .. } => TaskRefusal::BadId.row(),
        CoreRefusal::IdsSpent => TaskRefusal::IdsSpent.row(),
        CoreRefusal::PathsSpent => TaskRefusal::PathsSpent.row(),
        CoreRefusal::Settings(_) => 0,
    }
}
