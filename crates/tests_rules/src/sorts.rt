ghost use Rattle.std.specs.Prelude.{◌≡◌, ◌||◌, pos, ◌∷◌, [], None, Some, if◌then◌else◌, IfOk, filter};
ghost use Rattle.search_base.specs.declared.cost_key.SortKey.TheVariants.{Number as NumberKey};
ghost use Rattle.search_base.specs.declared.cost_key.CostKey.TheVariants.{Up as UpKey};
ghost use Rattle.search_base.specs.CostOrder.{before};
ghost use Rattle.sort_rule.specs.Rows.{next_of, is_under};
ghost use Rattle.doc_sets.specs.Sets.{has};

use bucket_sort::{Bucket, BucketStream};
use doc_sets::DocSet;
use search_base::{CostKey, DocId, NoMemory, SortKey, Steps};
use sort_rule::{Numbered, OrderedRows, SortBuckets};
use std::alloc::Global;
use std::process::Abort;

struct Counted;

// Documents under one key, which may be refused.
#[derive(Drop)]
struct OneKey {
    docs: DocSet,
    refuses: bool,
}

fn five() -> CostKey
    ensures { result ≡ UpKey (NumberKey (pos 5)) }
{
    CostKey::Up(SortKey::Number(5))
}

fn key_after(last: &CostKey) -> Option<CostKey>
    ensures { result ≡ next_of (UpKey (NumberKey (pos 5)) ∷ []) (Some last.now) }
{
    let key = five();
    if last.before(&key) { Some(key) } else { None }
}

fn differ(key: &CostKey, other: &CostKey) -> bool
    ensures { result ≡ (before key.now other.now || before other.now key.now) }
{
    key.before(other) || other.before(key)
}

impl OrderedRows for OneKey {
    ghost keys = { λ rows. UpKey (NumberKey (pos 5)) ∷ [] };

    ghost key = { λ rows d. if has rows.docs.ids d then Some (UpKey (NumberKey (pos 5))) else None };

    fn next_key(
        &self,
        alloc: Global,
        after: Option<&CostKey>,
        universe: &DocSet,
    ) -> Result<Option<CostKey>, NoMemory> {
        if self.refuses {
            return Err(NoMemory);
        }
        match after {
            Some(last) => Ok(key_after(last)),
            None => Ok(Some(five())),
        }
    }

    fn docs_at(&self, alloc: Global, at: &CostKey, universe: &DocSet) -> Result<DocSet, NoMemory> {
        let key = five();
        let other = differ(&key, at);
        if other {
            return Ok(DocSet::new(alloc));
        }
        universe.and(alloc, &self.docs)
    }

    fn numbers(&self, alloc: Global, universe: &DocSet) -> Result<Option<Numbered>, NoMemory> {
        Ok(None)
    }

    // It puts no more than two documents in order itself.
    fn ordered(&self, alloc: Global, universe: &DocSet) -> Result<Option<Vec<Bucket>>, NoMemory> {
        if self.refuses || universe.len() > 2 {
            return Ok(None);
        }
        let docs = universe.and(alloc, &self.docs)?;
        let mut buckets = Vec::new(alloc);
        if docs.is_empty() {
            return Ok(Some(buckets));
        }
        buckets.push(Bucket { key: five(), docs })?;
        Ok(Some(buckets))
    }
}

// The documents of a universe, some of them under the key 5, and the others last.
fn buckets(
    rt: &impl Abort,
    alloc: Global,
    docs: DocSet,
    refuses: bool,
    universe: DocSet,
) -> SortBuckets<OneKey> {
    let missing = CostKey::Up(SortKey::Missing);
    SortBuckets::new(alloc, OneKey { docs, refuses }, missing, universe).expect(rt, "memory")
}

fn set(rt: &impl Abort, alloc: Global, ids: &[u32]) -> DocSet {
    let mut set = DocSet::new(alloc);
    for id in ids {
        let _new = set.insert(DocId(*id)).expect(rt, "memory");
    }
    set
}

// Adds a bucket to what was told: its key and its documents.
fn tell(rt: &impl Abort, bucket: &Bucket, told: &mut String) {
    let key = if bucket.key == five() { "5" } else { "last" };
    write!(told, "{key}:").expect(rt, "memory");
    for id in bucket.docs.iter() {
        write!(told, " {}", id.0).expect(rt, "memory");
    }
    write!(told, "; ").expect(rt, "memory");
}

// Checks what a stream tells, asked three times.
fn check_told(rt: &impl Abort, alloc: Global, stream: &mut SortBuckets<OneKey>, wanted: &str) {
    let mut openings = Steps::<Counted>::new();
    let mut told = String::new(alloc);
    for _time in 0..3u32 {
        if let Some(bucket) = stream
            .next_bucket(alloc, &mut openings)
            .expect(rt, "memory")
        {
            tell(rt, &bucket, &mut told);
        }
    }
    assert!(rt; told.as_str() == wanted, "{wanted} {told}");
}

// The documents that have the key 5, those of the universe, and the buckets of these: the rows put two documents in
// order, and of more the key is gone through.
const ROWS: [(&[u32], &[u32], &str); 6] = [
    (&[0, 2], &[0, 1, 2], "5: 0 2; last: 1; "),
    (&[1, 3, 9], &[0, 1, 2, 3], "5: 1 3; last: 0 2; "),
    (&[1, 9], &[0, 9], "5: 9; last: 0; "),
    (&[9], &[5, 6, 7], "last: 5 6 7; "),
    (
        &[1],
        &[0, 1, 2, 3, 4, 5, 6, 7, 8],
        "5: 1; last: 0 2 3 4 5 6 7 8; ",
    ),
    (&[], &[], ""),
];

#[test]
fn documents_without_a_key_come_last(rt: HostRuntime) {
    let alloc = rt.alloc();
    for (docs, universe, wanted) in &ROWS {
        let mut stream = buckets(
            &rt,
            alloc,
            set(&rt, alloc, docs),
            false,
            set(&rt, alloc, universe),
        );
        check_told(&rt, alloc, &mut stream, wanted);
    }
}

fn check_refused(rt: &impl Abort, alloc: Global, stream: &mut SortBuckets<OneKey>) {
    let mut openings = Steps::<Counted>::new();
    let refused = stream.next_bucket(alloc, &mut openings).is_err();
    assert!(rt; refused, "no memory");
}

#[test]
fn a_stream_that_found_no_memory_says_so_from_then_on(rt: HostRuntime) {
    let alloc = rt.alloc();
    let mut stream = buckets(
        &rt,
        alloc,
        set(&rt, alloc, &[1]),
        true,
        set(&rt, alloc, &[1]),
    );
    check_refused(&rt, alloc, &mut stream);
    check_refused(&rt, alloc, &mut stream);
}
