use crate::checks::{add, check, check_text, document_of, word};
use doc_values::DocumentText;
use document_changes::{DocumentReading, Documents};
use search_base::Word;
use std::alloc::Global;
use std::process::Abort;

// Documents with a blank between them, read one by one.
fn read(rt: &impl Abort, alloc: Global, given: Option<Word>, documents: &str) -> Documents {
    let mut reading = DocumentReading::new(alloc, given);
    for document in documents.split(' ') {
        let document = document_of(rt, alloc, document);
        reading.read(alloc, &document).expect(rt, "memory");
    }
    reading.finish()
}

fn add_words(rt: &impl Abort, text: &mut String, words: &[Word]) {
    for word in words {
        add(rt, text, " ");
        add(rt, text, word.as_str());
    }
}

// The documents' texts with a blank between them.
fn shown_texts(rt: &impl Abort, alloc: Global, documents: &[DocumentText]) -> String {
    let mut text = String::new(alloc);
    for document in documents {
        if !text.is_empty() {
            add(rt, &mut text, " ");
        }
        add(rt, &mut text, document.text());
    }
    text
}

// The key that the first document gives, and the ids and paths that are noted under a key, or else how many documents
// come back.
fn shown_notes(rt: &impl Abort, alloc: Global, documents: Documents, key: &str) -> String {
    let mut text = String::new(alloc);
    let first = documents.first_key().map_or("-", |first| first.as_str());
    add(rt, &mut text, first);
    match documents.noted_under(key) {
        Ok(noted) => {
            add(rt, &mut text, ":");
            add_words(rt, &mut text, &noted.ids);
            add(rt, &mut text, " |");
            add_words(rt, &mut text, &noted.paths);
        }
        Err(texts) => write!(text, " {} unread", texts.len()).expect(rt, "memory"),
    }
    text
}

// Documents that are read with a key or none, and what is noted under another.
const READ: [(Option<&str>, &str, &str, &str); 11] = [
    (
        Some("id"),
        r#"{"id":7} {"b":{"c":2},"id":"a"} {"id":7}"#,
        "id",
        "-: 7 a 7 | id b b.c",
    ),
    (Some("id"), r#"{"b":1,"id":7}"#, "b", "- 1 unread"),
    (Some("b"), r#"{"b":1,"id":7}"#, "b", "-: 1 | b id"),
    (Some("b"), r#"{"b":1,"id":7}"#, "id", "- 1 unread"),
    (Some("id"), r#"{"id":7} {"Id":8}"#, "id", "- 2 unread"),
    (Some("id"), r#"{"id":7} {"id":"é"}"#, "id", "- 2 unread"),
    (
        None,
        r#"{"uid":"x"} {"id":1,"uid":-2}"#,
        "uid",
        "uid: x -2 | uid id",
    ),
    (
        None,
        r#"{"uid":"x"} {"id":1,"uid":2}"#,
        "id",
        "uid 2 unread",
    ),
    (None, r#"{"uid":"x"} {"id":1}"#, "uid", "- 2 unread"),
    (None, r#"{"id":1,"uid":2} {"id":2}"#, "id", "- 2 unread"),
    (None, r#"{"b":1} {"b":2}"#, "b", "- 2 unread"),
];

#[test]
fn documents_are_noted_as_they_are_read(rt: HostRuntime) {
    let alloc = rt.alloc();
    for (given, texts, key, wanted) in &READ {
        let given = given.map(|key| word(&rt, alloc, key));
        let documents = read(&rt, alloc, given, texts);
        let copy = documents.clone().expect(&rt, "memory");
        check_text(&rt, &shown_notes(&rt, alloc, copy, key), wanted, texts);
        let found = shown_texts(&rt, alloc, &documents.into_texts());
        check_text(&rt, &found, texts, "texts");
    }
}

// A document with an id that has `paths` paths.
fn wide(rt: &impl Abort, alloc: Global, paths: u32) -> String {
    let mut text = String::new(alloc);
    add(rt, &mut text, "{\"id\":0");
    for path in 1..paths {
        write!(text, ",\"{path}\":0").expect(rt, "memory");
    }
    add(rt, &mut text, "}");
    text
}

fn is_noted(rt: &impl Abort, alloc: Global, documents: &str) -> bool {
    let documents = read(rt, alloc, Some(word(rt, alloc, "id")), documents);
    documents.noted_under("id").is_ok()
}

#[test]
fn documents_of_too_many_paths_are_not_noted(rt: HostRuntime) {
    let alloc = rt.alloc();
    for (paths, wanted) in &[(1_000, true), (1_001, false)] {
        let noted = is_noted(&rt, alloc, &wide(&rt, alloc, *paths));
        check(&rt, noted == *wanted, "paths");
    }
}

#[test]
fn nothing_is_noted_of_no_documents(rt: HostRuntime) {
    let alloc = rt.alloc();
    let none = Documents::none(alloc);
    check_text(
        &rt,
        &shown_notes(&rt, alloc, none, "id"),
        "- 0 unread",
        "none",
    );
    let read = DocumentReading::new(alloc, Some(word(&rt, alloc, "id"))).finish();
    check_text(
        &rt,
        &shown_notes(&rt, alloc, read, "id"),
        "- 0 unread",
        "read",
    );
}
