use crate::checks::check;
use posting_list::{PostingList, last_document};
use search_base::DocId;
use sorted_pages::is_increasing;
use std::alloc::Global;
use std::process::Abort;

// The places of some documents, one of each, that go or come, and what is left of the list then: how many places, and
// of how many documents it keeps a set, if of any.
struct Turn {
    goes: bool,
    from: u32,
    many: u32,
    position: u16,
    left: usize,
    documents: Option<u64>,
}

// The places of these documents at a position of one path.
fn places(rt: &impl Abort, alloc: Global, from: u32, many: u32, position: u16) -> Vec<u64> {
    let mut places = Vec::new(alloc);
    for id in from..from.saturating_add(many) {
        let place = (u64::from(id) << 32) | 0x1_0000 | u64::from(position);
        places.push(place).expect(rt, "memory");
    }
    places
}

// Changes a list, and gives the greatest document that came so far.
fn take_turn(
    rt: &impl Abort,
    alloc: Global,
    list: &mut PostingList,
    turn: &Turn,
    last: DocId,
) -> DocId {
    let places = places(rt, alloc, turn.from, turn.many, turn.position);
    let (gone, come): (&[u64], &[u64]) = if turn.goes {
        (&places, &[])
    } else {
        (&[], &places)
    };
    assert!(rt; is_increasing(gone));
    assert!(rt; is_increasing(come));
    let last = last_document(come, last);
    let before = list.pages().len();
    list.reserve(alloc, come, last).expect(rt, "memory");
    check(rt, list.pages().len() == before, "reserved");
    list.change(gone, come, last);
    last
}

// Of how many documents the list keeps a set.
fn documents(list: &PostingList) -> Option<u64> {
    Some(list.documents()?.len())
}

const TURNS: [Turn; 7] = [
    Turn {
        goes: false,
        from: 0,
        many: 63,
        position: 3,
        left: 63,
        documents: None,
    },
    Turn {
        goes: false,
        from: 63,
        many: 1,
        position: 3,
        left: 64,
        documents: Some(64),
    },
    Turn {
        goes: false,
        from: 63,
        many: 1,
        position: 5,
        left: 65,
        documents: Some(64),
    },
    Turn {
        goes: true,
        from: 0,
        many: 64,
        position: 3,
        left: 1,
        documents: Some(1),
    },
    Turn {
        goes: false,
        from: 4_000_000,
        many: 1,
        position: 3,
        left: 2,
        documents: None,
    },
    Turn {
        goes: true,
        from: 63,
        many: 1,
        position: 5,
        left: 1,
        documents: None,
    },
    Turn {
        goes: true,
        from: 4_000_000,
        many: 1,
        position: 3,
        left: 0,
        documents: None,
    },
];

#[test]
fn one_list_changes(rt: HostRuntime) {
    let alloc = rt.alloc();
    let mut list = PostingList::new(alloc);
    check(&rt, list.is_empty(), "new");
    let mut last = DocId(0);
    for turn in &TURNS {
        last = take_turn(&rt, alloc, &mut list, turn, last);
        check(&rt, list.pages().len() == turn.left, "left");
        check(&rt, list.is_empty() == (turn.left == 0), "empty");
        check(&rt, documents(&list) == turn.documents, "documents");
    }
}

// So many documents from 0 on that come, the one that is handed in, and the one that is told.
const LASTS: [(u32, u32, u32); 3] = [(0, 3, 3), (5, 3, 4), (5, 9, 9)];

#[test]
fn the_last_document(rt: HostRuntime) {
    let alloc = rt.alloc();
    for (many, one, wanted) in &LASTS {
        let come = places(&rt, alloc, 0, *many, 0);
        let told = last_document(&come, DocId(*one));
        check(&rt, told == DocId(*wanted), "last");
    }
}
