use crate::checks::{check, set, word};
use crate::facets::table;
use crate::sorts::{gone, index, is, standing};
use doc_sets::DocSet;
use filter_sets::{Facets, select};
use filter_tree::{Filter, Test};
use leaf_table::LeafTable;
use std::alloc::Global;
use std::process::Abort;

// A test of an attribute.
fn test(rt: &impl Abort, alloc: Global, attribute: &str, test: Test) -> Filter {
    Filter::Test {
        attribute: word(rt, alloc, attribute),
        test,
    }
}

fn not(rt: &impl Abort, alloc: Global, filter: Filter) -> Filter {
    Filter::Not(Box::new(alloc, filter).expect(rt, "memory"))
}

fn equal(rt: &impl Abort, alloc: Global, text: &str) -> Test {
    Test::Equal(word(rt, alloc, text))
}

// The leaves of the four documents, after the fifth.
fn leaves(rt: &impl Abort, alloc: Global) -> LeafTable {
    table(rt, alloc, &gone(rt, alloc), &standing(rt, alloc))
}

// Of the documents of a set the others are those that were not found.
fn check_others(rt: &impl Abort, all: &DocSet, found: &DocSet, others: &DocSet) {
    let left = all.len().checked_sub(found.len());
    check(rt, left == Some(others.len()), "all others");
    check(rt, left == Some(others.and_len(all)), "others of all");
    check(rt, others.and_len(found) == 0, "in both");
}

#[test]
fn filters_select_documents(rt: HostRuntime) {
    let alloc = rt.alloc();
    let (index, leaves) = (index(&rt, alloc), leaves(&rt, alloc));
    let facets = Facets {
        index: &index,
        leaves: &leaves,
    };
    let paths = [word(&rt, alloc, "year"), word(&rt, alloc, "genres")];
    let all = set(&rt, alloc, &[0, 1, 2, 3]);
    let some = set(&rt, alloc, &[1, 2]);
    let texts = Vec::from_array(alloc, [word(&rt, alloc, "2005"), word(&rt, alloc, "2012")]);
    let texts = texts.expect(&rt, "memory");
    // A filter, the documents of all that pass it, and those of 1 and 2. The others pass its negation.
    for (filter, ids, inside) in [
        (Filter::All, [0, 1, 2, 3].as_slice(), [1, 2].as_slice()),
        (
            test(&rt, alloc, "genres", equal(&rt, alloc, "Drama")),
            [0, 3].as_slice(),
            [].as_slice(),
        ),
        (
            test(&rt, alloc, "year", equal(&rt, alloc, "2002")),
            [3].as_slice(),
            [].as_slice(),
        ),
        (
            test(&rt, alloc, "year", Test::Above(2002)),
            [0, 1].as_slice(),
            [1].as_slice(),
        ),
        (
            test(&rt, alloc, "year", Test::AtLeast(2002)),
            [0, 1, 3].as_slice(),
            [1].as_slice(),
        ),
        (
            test(&rt, alloc, "year", Test::Below(2002)),
            [0].as_slice(),
            [].as_slice(),
        ),
        (
            test(&rt, alloc, "year", Test::AtMost(2002)),
            [0, 3].as_slice(),
            [].as_slice(),
        ),
        (
            test(&rt, alloc, "year", Test::Between(2000, 2010)),
            [1, 3].as_slice(),
            [1].as_slice(),
        ),
        (
            test(&rt, alloc, "year", Test::AtMost(-3)),
            [].as_slice(),
            [].as_slice(),
        ),
        (
            test(&rt, alloc, "year", Test::Between(i128::MIN, i128::MAX)),
            [0, 1, 3].as_slice(),
            [1].as_slice(),
        ),
        (
            test(&rt, alloc, "year", Test::OneOf(texts)),
            [0, 1].as_slice(),
            [1].as_slice(),
        ),
        (
            test(&rt, alloc, "genres", Test::Exists),
            [0, 1, 3].as_slice(),
            [1].as_slice(),
        ),
        (
            test(&rt, alloc, "genres", Test::Null),
            [2].as_slice(),
            [2].as_slice(),
        ),
        (
            test(&rt, alloc, "genres", Test::Empty),
            [1].as_slice(),
            [1].as_slice(),
        ),
        (
            test(&rt, alloc, "title", Test::Exists),
            [].as_slice(),
            [].as_slice(),
        ),
        (
            not(&rt, alloc, test(&rt, alloc, "year", Test::AtLeast(2002))),
            [2].as_slice(),
            [2].as_slice(),
        ),
    ] {
        let docs = select(alloc, &facets, &filter, paths.as_slice(), &all).expect(&rt, "memory");
        assert!(rt; is(&docs, ids));
        let few = select(alloc, &facets, &filter, paths.as_slice(), &some).expect(&rt, "memory");
        assert!(rt; is(&few, inside));
        let filter = not(&rt, alloc, filter);
        for (universe, found) in [(&all, &docs), (&some, &few)] {
            let others = select(alloc, &facets, &filter, paths.as_slice(), universe);
            check_others(&rt, universe, found, &others.expect(&rt, "memory"));
        }
    }
}

#[test]
fn filters_of_filters(rt: HostRuntime) {
    let alloc = rt.alloc();
    let (index, leaves) = (index(&rt, alloc), leaves(&rt, alloc));
    let facets = Facets {
        index: &index,
        leaves: &leaves,
    };
    let paths = [word(&rt, alloc, "year"), word(&rt, alloc, "genres")];
    let all = set(&rt, alloc, &[0, 1, 2, 3]);
    for (each, ids) in [(true, [3].as_slice()), (false, [0, 2, 3].as_slice())] {
        let members = Vec::from_array(
            alloc,
            [
                test(&rt, alloc, "genres", equal(&rt, alloc, "drama")),
                not(&rt, alloc, test(&rt, alloc, "year", Test::Above(2002))),
            ],
        )
        .expect(&rt, "memory");
        let filter = if each {
            Filter::And(members)
        } else {
            Filter::Or(members)
        };
        let docs = select(alloc, &facets, &filter, paths.as_slice(), &all).expect(&rt, "memory");
        assert!(rt; is(&docs, ids));
    }
    let mut deep = test(&rt, alloc, "year", Test::Exists);
    for _ in 0..200_u32 {
        deep = not(&rt, alloc, deep);
    }
    let docs = select(alloc, &facets, &deep, paths.as_slice(), &all).expect(&rt, "memory");
    assert!(rt; is(&docs, &[0, 1, 3]));
}
