use crate::checks::{check, set, word};
use crate::shelf::Shelf;
use doc_sets::DocSet;
use facet_counts::{CountRow, FacetCounts, FacetPath, FacetReply, in_order};
use list_facets::{FacetQuery, counts, counts_from};
use search_base::{DocId, FacetValue, Leaf, PathId};
use std::alloc::Global;
use std::process::Abort;

const GENRE: u16 = 1;

const YEAR: u16 = 2;

const MIXED: u16 = 3;

const MANY: u16 = 4;

const FILM_GENRE: u16 = 5;

const FILM_YEAR: u16 = 6;

// The documents from the fifth up to this number have no leaves.
const BARE: u32 = 1_100;

const FIRST: i128 = -(1 << 63);

const LAST: i128 = (1 << 64) - 1;

// The document, the path, the number or else the normal form, and the spelling. Documents 2 and 3 have the values of 0
// and 1 in another order, spelled otherwise.
const LEAVES: [(u32, u16, i128, &str, &str); 27] = [
    (0, GENRE, 0, "drama", "Drama"),
    (0, GENRE, 0, "drama", "DRAMA"),
    (0, GENRE, 0, "action", "Action"),
    (0, YEAR, 5, "", "5"),
    (0, YEAR, FIRST, "", "-9223372036854775808"),
    (1, GENRE, 0, "élan", "Élan"),
    (1, YEAR, 0, "5", "5"),
    (1, GENRE, 0, "drama", "drama"),
    (1, YEAR, LAST, "", "18446744073709551615"),
    (1, MIXED, 7, "", "7"),
    (1, MIXED, 0, "7", "seven"),
    (1, MIXED, -2, "", "-2"),
    (2, GENRE, 0, "drama", "DraMa"),
    (2, GENRE, 0, "drama", "drama"),
    (2, MIXED, 0, "zoo", "Zoo"),
    (2, MIXED, 3, "", "3"),
    (3, GENRE, 0, "drama", "drama"),
    (3, GENRE, 0, "drama", "Drama"),
    (3, GENRE, 0, "", "none"),
    (0, FILM_YEAR, 2008, "", "a year"),
    (0, FILM_GENRE, 0, "action", "Action"),
    (0, FILM_GENRE, 0, "drama", "Drama"),
    (1, FILM_YEAR, 2012, "", "a year"),
    (1, FILM_GENRE, 0, "action", "Action"),
    (2, FILM_YEAR, 1999, "", "a year"),
    (3, FILM_YEAR, 2002, "", "a year"),
    (3, FILM_GENRE, 0, "drama", "drama"),
];

// The matches, the path, how many values are given at most, and what is told: of each value its normal form, its
// spelling and its count, and then the least and the greatest number.
const COUNTS: [(&[u32], Option<u16>, u64, &str); 26] = [
    (
        &[0, 1],
        Some(GENRE),
        100,
        "action Action 1, drama Drama 2, élan Élan 1, ",
    ),
    (&[0], Some(GENRE), 100, "action Action 1, drama Drama 1, "),
    (&[1], Some(GENRE), 100, "drama drama 1, élan Élan 1, "),
    (&[1, 2], Some(GENRE), 100, "drama drama 2, élan Élan 1, "),
    (&[2], Some(GENRE), 100, "drama DraMa 1, "),
    (&[2, 3], Some(GENRE), 1, "0 none 1, 0 to 0, "),
    (&[0, 1], Some(GENRE), 2, "action Action 1, drama Drama 2, "),
    (&[0, 1], Some(GENRE), 1, "action Action 1, "),
    (&[0, 1], Some(GENRE), 0, ""),
    (&[], Some(GENRE), 100, ""),
    (&[2_000], Some(GENRE), 100, ""),
    (
        &[0, 1],
        Some(YEAR),
        100,
        "-9223372036854775808 -9223372036854775808 1, 18446744073709551615 18446744073709551615 1, 5 5 2, -9223372036854775808 to 18446744073709551615, ",
    ),
    (
        &[0],
        Some(YEAR),
        1,
        "-9223372036854775808 -9223372036854775808 1, -9223372036854775808 to 5, ",
    ),
    (
        &[0],
        Some(YEAR),
        100,
        "-9223372036854775808 -9223372036854775808 1, 5 5 1, -9223372036854775808 to 5, ",
    ),
    (
        &[0, 1],
        Some(YEAR),
        2,
        "-9223372036854775808 -9223372036854775808 1, 18446744073709551615 18446744073709551615 1, -9223372036854775808 to 18446744073709551615, ",
    ),
    (
        &[0, 1],
        Some(YEAR),
        1,
        "-9223372036854775808 -9223372036854775808 1, -9223372036854775808 to 18446744073709551615, ",
    ),
    (
        &[0, 1],
        Some(YEAR),
        0,
        "-9223372036854775808 to 18446744073709551615, ",
    ),
    (&[], Some(YEAR), 100, ""),
    (&[1], Some(MIXED), 100, "-2 -2 1, 7 7 1, -2 to 7, "),
    (&[2], Some(MIXED), 100, "3 3 1, zoo Zoo 1, 3 to 3, "),
    (
        &[0, 1, 2, 3],
        Some(MIXED),
        100,
        "-2 -2 1, 3 3 1, 7 7 1, zoo Zoo 1, -2 to 7, ",
    ),
    (&[0, 1, 2, 3], Some(FILM_GENRE), 1, "action Action 2, "),
    (&[0, 1, 2, 3], Some(FILM_YEAR), 0, "1999 to 2012, "),
    (&[3], Some(FILM_GENRE), 1, "drama drama 1, "),
    (&[0, 1, 2, 3], Some(9), 100, ""),
    (&[0, 1, 2, 3], None, 100, ""),
];

fn leaf(rt: &impl Abort, alloc: Global, path: u16, number: i128, form: &str, shown: &str) -> Leaf {
    let value = if form.is_empty() {
        FacetValue::Number(number)
    } else {
        FacetValue::Text(word(rt, alloc, form))
    };
    Leaf {
        path: PathId(path),
        value,
        shown: word(rt, alloc, shown),
    }
}

fn leaves_of(rt: &impl Abort, alloc: Global, document: u32) -> Vec<Leaf> {
    let mut leaves = Vec::new(alloc);
    for (of, path, number, form, shown) in &LEAVES {
        if *of == document {
            let leaf = leaf(rt, alloc, *path, *number, form, shown);
            leaves.push(leaf).expect(rt, "memory");
        }
    }
    leaves
}

// The four documents of the table, and those behind them, which have no leaves.
fn shelf(rt: &impl Abort, alloc: Global) -> Shelf {
    let mut documents = Vec::new(alloc);
    for document in 0..BARE {
        let leaves = leaves_of(rt, alloc, document);
        documents.push(leaves).expect(rt, "memory");
    }
    Shelf::of(alloc, documents).expect(rt, "memory")
}

// These documents, and with `many` those behind the four as well: more than are counted one by one.
fn matches(rt: &impl Abort, alloc: Global, ids: &[u32], many: bool) -> DocSet {
    let mut matching = set(rt, alloc, ids);
    if many {
        for bare in 4..BARE {
            let _new = matching.insert(DocId(bare)).expect(rt, "memory");
        }
    }
    matching
}

fn asked(
    rt: &impl Abort,
    alloc: Global,
    shelf: &Shelf,
    matching: &DocSet,
    path: Option<u16>,
    most: u64,
) -> FacetReply {
    let facet = FacetPath {
        attribute: word(rt, alloc, "asked"),
        path: path.map(PathId),
    };
    let reply = counts(alloc, shelf, shelf.leaves(), matching, facet, most).expect(rt, "memory");
    check(rt, reply.attribute.as_str() == "asked", "attribute");
    reply
}

fn told_rows(rt: &impl Abort, alloc: Global, rows: &Vec<CountRow>) -> String {
    let mut text = String::new(alloc);
    for row in rows {
        let (value, shown) = (row.value.as_str(), row.shown.as_str());
        write!(text, "{value} {shown} {}, ", row.count).expect(rt, "memory");
    }
    text
}

fn told(rt: &impl Abort, alloc: Global, reply: &FacetReply) -> String {
    let mut text = told_rows(rt, alloc, &reply.rows);
    if let Some((least, greatest)) = reply.stats {
        write!(text, "{least} to {greatest}, ").expect(rt, "memory");
    }
    text
}

#[test]
fn values_of_matches_are_counted(rt: HostRuntime) {
    let alloc = rt.alloc();
    let shelf = shelf(&rt, alloc);
    for (ids, path, most, want) in &COUNTS {
        for many in [false, true] {
            let matching = matches(&rt, alloc, ids, many);
            let reply = asked(&rt, alloc, &shelf, &matching, *path, *most);
            let text = told(&rt, alloc, &reply);
            check(&rt, text.as_str() == *want, want);
        }
    }
}

// The matches, the path, how the values begin, how many are given at most, and what is told of them.
const BEGINNINGS: [(&[u32], u16, &str, u64, &str); 14] = [
    (
        &[0, 1],
        GENRE,
        "",
        100,
        "action Action 1, drama Drama 2, élan Élan 1, ",
    ),
    (&[0, 1], GENRE, "d", 100, "drama Drama 2, "),
    (&[0, 1], GENRE, "drama", 1, "drama Drama 2, "),
    (&[0, 1], GENRE, "dramas", 100, ""),
    (&[0, 1], GENRE, "D", 100, ""),
    (&[0, 1], GENRE, "é", 100, "élan Élan 1, "),
    (&[0, 1], GENRE, "x", 100, ""),
    (&[0, 1], GENRE, "", 2, "action Action 1, drama Drama 2, "),
    (&[0, 1], GENRE, "a", 0, ""),
    (&[2], GENRE, "dr", 100, "drama DraMa 1, "),
    (&[], GENRE, "d", 100, ""),
    (&[0, 1], YEAR, "5", 100, "5 5 2, "),
    (&[1, 2], MIXED, "", 3, "-2 -2 1, 3 3 1, 7 7 1, "),
    (&[0, 1, 2, 3], 9, "", 100, ""),
];

#[test]
fn values_that_begin_so_are_counted(rt: HostRuntime) {
    let alloc = rt.alloc();
    let shelf = shelf(&rt, alloc);
    for (ids, path, prefix, most, want) in &BEGINNINGS {
        let query = FacetQuery {
            path: PathId(*path),
            prefix: word(&rt, alloc, prefix),
            most: *most,
        };
        for many in [false, true] {
            let matching = matches(&rt, alloc, ids, many);
            let rows = counts_from(alloc, &shelf, shelf.leaves(), &matching, &query);
            let text = told_rows(&rt, alloc, &rows.expect(&rt, "memory"));
            check(&rt, text.as_str() == *want, want);
        }
    }
}

// A document of ten thousand numbers, and one that has the last of them alone.
#[test]
fn a_document_of_many_counted_values(rt: HostRuntime) {
    let alloc = rt.alloc();
    let mut many = Vec::new(alloc);
    for n in 0..10_000_u32 {
        let leaf = leaf(&rt, alloc, MANY, i128::from(n), "", "a number");
        many.push(leaf).expect(&rt, "memory");
    }
    let mut one = Vec::new(alloc);
    let last = leaf(&rt, alloc, MANY, 9_999, "", "the last");
    one.push(last).expect(&rt, "memory");
    let documents = Vec::from_array(alloc, [one, many]).expect(&rt, "memory");
    let shelf = Shelf::of(alloc, documents).expect(&rt, "memory");
    let both = set(&rt, alloc, &[0, 1]);
    let reply = asked(&rt, alloc, &shelf, &both, Some(MANY), 20_000);
    check(&rt, reply.rows.len() == 10_000, "each value once");
    check(&rt, reply.stats == Some((0, 9_999)), "least and greatest");
    let last = reply.rows.as_slice().last();
    let shown = last.map(|row| (row.value.as_str(), row.shown.as_str(), row.count));
    check(
        &rt,
        shown == Some(("9999", "the last", 2)),
        "the first spelling of all",
    );
}

// The first two documents, counted one after the other.
#[test]
fn documents_are_counted_one_after_the_other(rt: HostRuntime) {
    let alloc = rt.alloc();
    let genre = FacetPath {
        attribute: word(&rt, alloc, "genre"),
        path: Some(PathId(GENRE)),
    };
    let asked = Vec::from_array(alloc, [genre]).expect(&rt, "memory");
    let mut counts = FacetCounts::new(alloc, asked).expect(&rt, "memory");
    check(&rt, !counts.is_empty(), "one path");
    for document in 0..2 {
        let leaves = leaves_of(&rt, alloc, document);
        counts
            .add_leaves(alloc, leaves.as_slice())
            .expect(&rt, "memory");
    }
    let want = "action Action 1, drama Drama 2, élan Élan 1, ";
    for reply in &counts.finish(alloc, 100).expect(&rt, "memory") {
        check(&rt, told(&rt, alloc, reply).as_str() == want, want);
    }
    let none = FacetCounts::new(alloc, Vec::new(alloc)).expect(&rt, "memory");
    check(&rt, none.is_empty(), "no attribute");
}

#[test]
fn texts_in_the_order_of_their_bytes(rt: HostRuntime) {
    let alloc = rt.alloc();
    let mut names = Vec::new(alloc);
    for name in ["b", "é", "a", "b", "z", "B"] {
        names.push(word(&rt, alloc, name)).expect(&rt, "memory");
    }
    let mut ordered = String::new(alloc);
    for name in &in_order(alloc, names.as_slice()).expect(&rt, "memory") {
        ordered.push_str(name.as_str()).expect(&rt, "memory");
    }
    check(&rt, ordered.as_str() == "Babzé", "order");
}
