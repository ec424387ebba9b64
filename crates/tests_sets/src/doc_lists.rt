use crate::checks::{check, check_ids, set_of};
use doc_sets::{Bits, DocSet, DocSetBuilder, operations_are_on_members, sets_are_their_members};
use search_base::DocId;
use std::alloc::Global;
use std::process::Abort;

#[test]
fn three_ids_and_three_others(rt: HostRuntime) {
    let alloc = rt.alloc();
    let left = DocSet::from_sorted(alloc, &[DocId(1), DocId(3), DocId(5)]);
    let right = DocSet::from_sorted(alloc, &[DocId(3), DocId(5), DocId(8)]);
    let (left, right) = (left.expect(&rt, "memory"), right.expect(&rt, "memory"));
    let both = left.and(alloc, &right).expect(&rt, "memory");
    check_ids(&rt, &both, &[3, 5], "both");
    let either = left.or(alloc, &right).expect(&rt, "memory");
    check_ids(&rt, &either, &[1, 3, 5, 8], "either");
    let alone = left.minus(alloc, &right).expect(&rt, "memory");
    check_ids(&rt, &alone, &[1], "alone");
    let mut rest = left.clone().expect(&rt, "memory");
    rest.subtract(alloc, &right).expect(&rt, "memory");
    check_ids(&rt, &rest, &[1], "rest");
    let joined = left.join(alloc, right).expect(&rt, "memory");
    check_ids(&rt, &joined, &[1, 3, 5, 8], "joined");
}

// What each change tells.
fn check_changes(rt: &impl Abort, set: &mut DocSet) {
    let again = set.insert(DocId(3)).expect(rt, "memory");
    check(rt, !again, "3 is there");
    let new = set.insert(DocId(4)).expect(rt, "memory");
    check(rt, new, "4 is new");
    set.reserve(1).expect(rt, "memory");
    let reserved = set.insert_reserved(DocId(9));
    check(rt, reserved, "9 is new");
    let removed = set.remove(DocId(2));
    check(rt, !removed, "2 is not there");
}

// An id, and the least greater one of 1, 3, 4, 5 and 9.
const NEXT: [(u32, Option<DocId>); 4] = [
    (0, Some(DocId(1))),
    (5, Some(DocId(9))),
    (8, Some(DocId(9))),
    (9, None),
];

#[test]
fn a_set_is_changed_in_place(rt: HostRuntime) {
    let mut set = set_of(&rt, rt.alloc(), &[5, 3, 1]);
    let copy = set.clone().expect(&rt, "memory");
    check_changes(&rt, &mut set);
    check_ids(&rt, &set, &[1, 3, 4, 5, 9], "changed");
    check_ids(&rt, &copy, &[1, 3, 5], "copy");
    check(&rt, set.first() == Some(DocId(1)), "first");
    for (id, next) in &NEXT {
        check(&rt, set.next_after(DocId(*id)) == *next, "next");
    }
}

#[test]
fn the_empty_set(rt: HostRuntime) {
    let mut set = DocSet::new(rt.alloc());
    operations_are_on_members();
    sets_are_their_members();
    check(&rt, set.is_empty(), "empty");
    check(&rt, set.first().is_none(), "no first");
    let removed = set.remove(DocId(0));
    check(&rt, !removed, "nothing is removed");
}

// The next number of a sequence that looks random.
fn next(seed: u64) -> u64 {
    seed.wrapping_mul(6364136223846793005)
        .wrapping_add(1442695040888963407)
}

// About one of so many ids below a limit, in order.
fn some_ids(rt: &impl Abort, alloc: Global, seed: u64, limit: u32, one_of: u64) -> Vec<DocId> {
    let mut ids = Vec::new(alloc);
    let mut state = seed;
    for id in 0..limit {
        state = next(state);
        if state >> 33 & one_of == 0 {
            ids.push(DocId(id)).expect(rt, "memory");
        }
    }
    ids
}

fn is_in(ids: &[DocId], id: u32) -> bool {
    ids.contains(&DocId(id))
}

// Whether the set is of these ids, by each of its calls.
fn is_of(set: &DocSet, ids: &[DocId]) -> bool {
    let mut same = set.len() == ids.len() as u64 && set.first() == ids.first().copied();
    let mut place = 0_usize;
    for id in set.iter() {
        same = same & (ids.get(place).copied() == Some(id)) & set.contains(id);
        place = place.saturating_add(1);
        same = same & (set.next_after(id) == ids.get(place).copied());
    }
    same & (place == ids.len())
}

// The ids below a limit that one list and the other choose together.
fn chosen(rt: &impl Abort, alloc: Global, left: &[DocId], right: &[DocId], rule: u8) -> Vec<DocId> {
    let mut ids = Vec::new(alloc);
    for id in 0..LIMIT {
        let (l, r) = (is_in(left, id), is_in(right, id));
        let keep = match rule {
            0 => l & r,
            1 => l | r,
            _ => l & !r,
        };
        if keep {
            ids.push(DocId(id)).expect(rt, "memory");
        }
    }
    ids
}

fn sorted(rt: &impl Abort, alloc: Global, ids: &[DocId]) -> DocSet {
    let mut builder = DocSetBuilder::new(alloc, 0).expect(rt, "memory");
    for id in ids {
        builder.add_id(*id).expect(rt, "memory");
    }
    builder.finish(alloc).expect(rt, "memory")
}

// A set of these ids that is a list, however many they are.
fn inserted(rt: &impl Abort, alloc: Global, ids: &[DocId]) -> DocSet {
    let mut set = DocSet::new(alloc);
    for id in ids {
        let _new = set.insert(*id).expect(rt, "memory");
    }
    set
}

// The ids of two sets, which are below a limit: of both, of either, and of the first alone.
#[derive(Drop)]
struct Wanted {
    both: Vec<DocId>,
    either: Vec<DocId>,
    alone: Vec<DocId>,
}

fn wanted_of(rt: &impl Abort, alloc: Global, left: &[DocId], right: &[DocId]) -> Wanted {
    Wanted {
        both: chosen(rt, alloc, left, right, 0),
        either: chosen(rt, alloc, left, right, 1),
        alone: chosen(rt, alloc, left, right, 2),
    }
}

// The operations on two sets are those on their ids.
fn check_operations(rt: &impl Abort, alloc: Global, l: &DocSet, r: &DocSet, wanted: &Wanted) {
    let both = l.and(alloc, r).expect(rt, "memory");
    check(rt, is_of(&both, &wanted.both), "both");
    check(rt, l.and_len(r) == wanted.both.len() as u64, "length");
    let joined = l.or(alloc, r).expect(rt, "memory");
    check(rt, is_of(&joined, &wanted.either), "either");
    let alone = l.minus(alloc, r).expect(rt, "memory");
    check(rt, is_of(&alone, &wanted.alone), "alone");
    check_in_place(rt, alloc, l, r, wanted);
}

// So are those that change a set.
fn check_in_place(rt: &impl Abort, alloc: Global, l: &DocSet, r: &DocSet, wanted: &Wanted) {
    let left = l.clone().expect(rt, "memory");
    let right = r.clone().expect(rt, "memory");
    let joined = left.join(alloc, right).expect(rt, "memory");
    check(rt, is_of(&joined, &wanted.either), "joined");
    let mut rest = l.clone().expect(rt, "memory");
    rest.subtract(alloc, r).expect(rt, "memory");
    check(rt, is_of(&rest, &wanted.alone), "subtracted");
}

const LIMIT: u32 = 260;

// A set of these ids in each of its two forms.
#[derive(Drop)]
struct Forms {
    bits: DocSet,
    list: DocSet,
}

fn forms_of(rt: &impl Abort, alloc: Global, ids: &[DocId]) -> Forms {
    let bits = sorted(rt, alloc, ids);
    let list = inserted(rt, alloc, ids);
    check(rt, is_of(&bits, ids), "bits");
    check(rt, is_of(&list, ids), "list");
    Forms { bits, list }
}

// The operations on sets of one of so many ids are those on the lists, in each form.
fn check_sets(rt: &impl Abort, alloc: Global, left: u64, right: u64) {
    let ls = some_ids(rt, alloc, left, LIMIT, left);
    let rs = some_ids(rt, alloc, right ^ 77, 190, right);
    let wanted = wanted_of(rt, alloc, &ls, &rs);
    let l = forms_of(rt, alloc, &ls);
    let r = forms_of(rt, alloc, &rs);
    check_operations(rt, alloc, &l.bits, &r.bits, &wanted);
    check_operations(rt, alloc, &l.list, &r.list, &wanted);
    check_operations(rt, alloc, &l.bits, &r.list, &wanted);
    check_operations(rt, alloc, &l.list, &r.bits, &wanted);
}

#[test]
fn dense_and_sparse_sets_agree(rt: HostRuntime) {
    for left in &[0_u64, 3, 127, 1023] {
        for right in &[1_u64, 31, 1023] {
            check_sets(&rt, rt.alloc(), *left, *right);
        }
    }
}

const COME: [u32; 11] = [0, 63, 64, 127, 128, 500, 699, 700, 767, 768, 999_999];

const GONE: [u32; 8] = [0, 63, 64, 1, 2, 3, 999_999, 4_000_000_000];

fn check_insert(rt: &impl Abort, many: &mut DocSet, few: &mut DocSet, id: u32) {
    let one = many.insert(DocId(id)).expect(rt, "memory");
    let other = few.insert(DocId(id)).expect(rt, "memory");
    check(rt, one == other, "insert");
}

fn check_remove(rt: &impl Abort, many: &mut DocSet, few: &mut DocSet, id: u32) {
    let one = many.remove(DocId(id));
    let other = few.remove(DocId(id));
    check(rt, one == other, "remove");
}

fn check_reserved(rt: &impl Abort, many: &mut DocSet, few: &mut DocSet) {
    many.reserve(2).expect(rt, "memory");
    few.reserve(2).expect(rt, "memory");
    let one = many.insert_reserved(DocId(65));
    let other = few.insert_reserved(DocId(65));
    check(rt, one == other, "insert reserved");
}

// A set of bits and one of a list, changed alike, stay alike.
fn check_changed_alike(rt: &impl Abort, alloc: Global, ids: &[DocId]) {
    let mut many = sorted(rt, alloc, ids);
    let mut few = inserted(rt, alloc, ids);
    for id in &COME {
        check_insert(rt, &mut many, &mut few, *id);
    }
    for id in &GONE {
        check_remove(rt, &mut many, &mut few, *id);
    }
    check_reserved(rt, &mut many, &mut few);
    check(rt, many.len() == few.len(), "length");
    let gone = many.minus(alloc, &few).expect(rt, "memory");
    check(rt, gone.is_empty(), "alike");
}

#[test]
fn sets_change_alike(rt: HostRuntime) {
    for one_of in &[0_u64, 1, 7, 63, 1023] {
        let ids = some_ids(&rt, rt.alloc(), *one_of, 700, *one_of);
        check_changed_alike(&rt, rt.alloc(), &ids);
    }
}

fn check_sum(rt: &impl Abort, bits: &Bits, wanted: u64) {
    let mut sum = 0_u64;
    for id in bits.iter() {
        sum = sum.wrapping_add(u64::from(id.0));
    }
    check(rt, sum == wanted, "sum");
}

#[test]
fn bits_at_the_borders(rt: HostRuntime) {
    let mut bits = Bits::new(rt.alloc(), 1_000_000).expect(&rt, "memory");
    bits.set(DocId(999_999));
    bits.set(DocId(64));
    bits.set(DocId(63));
    bits.set(DocId(0));
    check(&rt, bits.count() == 4, "four");
    check(&rt, bits.first() == Some(DocId(0)), "first");
    bits.unset(DocId(0));
    bits.unset(DocId(4_000_000_000));
    check(&rt, bits.contains(DocId(999_999)), "the last");
    check(&rt, !bits.contains(DocId(0)), "unset");
    check(&rt, !bits.contains(DocId(u32::MAX)), "outside");
    check_sum(&rt, &bits, 999_999 + 64 + 63);
}
