use doc_sets::DocSet;
use path_lengths::{LengthChange, PathLengths};
use postings::{Change, Postings};
use search_base::{DocId, PathId, Place, Word};
use std::alloc::Global;
use std::process::Abort;

// A document: its number, and the words of path 0 and of path 1.
pub(crate) type Texts = (u32, &'static str, &'static str);

pub(crate) const DOCUMENTS: [Texts; 5] = [
    (1, "dark knight", ""),
    (2, "dark knight rises", "dark"),
    (3, "a knight", "dark knight"),
    (4, "knight dark", ""),
    (700, "", ""),
];

// The postings and the lengths of some documents.
#[derive(Drop)]
pub(crate) struct Lists {
    pub(crate) postings: Postings,
    pub(crate) lengths: PathLengths,
}

pub(crate) fn words(rt: &impl Abort, alloc: Global, text: &str) -> Vec<Word> {
    let mut words = Vec::new(alloc);
    for word in text.split(' ') {
        if !word.is_empty() {
            let word = Word::new(alloc, word).expect(rt, "memory");
            words.push(word).expect(rt, "memory");
        }
    }
    words
}

// The places of a document, those of path 1 first. A path has its number for its rank.
fn places(rt: &impl Abort, alloc: Global, texts: &Texts) -> Vec<Place> {
    let mut places = Vec::new(alloc);
    for (path, text) in [(1, texts.2), (0, texts.1)] {
        let mut position: u16 = 0;
        for word in words(rt, alloc, text) {
            places
                .push(Place {
                    path: PathId(path),
                    rank: path,
                    position,
                    word,
                })
                .expect(rt, "memory");
            position = position.wrapping_add(1);
        }
    }
    places
}

// Has some documents go and others come.
pub(crate) fn change(
    rt: &impl Abort,
    alloc: Global,
    lists: &mut Lists,
    gone: &[Texts],
    come: &[Texts],
) {
    let mut words = Change::new(alloc);
    let mut lengths = LengthChange::new(alloc);
    for texts in gone {
        let (id, places) = (DocId(texts.0), places(rt, alloc, texts));
        words
            .take_out(alloc, id, places.as_slice())
            .expect(rt, "memory");
        lengths
            .take_out(alloc, id, places.as_slice())
            .expect(rt, "memory");
    }
    for texts in come {
        let (id, places) = (DocId(texts.0), places(rt, alloc, texts));
        words
            .put_in(alloc, id, places.as_slice())
            .expect(rt, "memory");
        lengths
            .put_in(alloc, id, places.as_slice())
            .expect(rt, "memory");
    }
    let prepared = lists.postings.prepare(alloc, words).expect(rt, "memory");
    lists.postings.commit(prepared);
    let prepared = lists.lengths.prepare(alloc, lengths).expect(rt, "memory");
    lists.lengths.commit(prepared);
}

// The lists of all documents.
pub(crate) fn standing_lists(rt: &impl Abort, alloc: Global) -> Lists {
    let mut lists = Lists {
        postings: Postings::new(alloc),
        lengths: PathLengths::new(alloc),
    };
    change(rt, alloc, &mut lists, &[], &DOCUMENTS);
    lists
}

// The documents of a set, with a space behind each.
pub(crate) fn listed(rt: &impl Abort, alloc: Global, set: &DocSet) -> String {
    let mut text = String::new(alloc);
    for id in set.iter() {
        write!(text, "{} ", id.0).expect(rt, "memory");
    }
    text
}
