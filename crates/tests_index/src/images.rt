use crate::checks::{check_text, word};
use crate::index::{Fetch, documents};
use index_changes::{ReadDocuments, read_documents};
use index_image::ImageDocument;
use index_settings::Settings;
use search_base::{DocId, Steps};
use std::alloc::Global;
use std::ops::Bound;
use std::process::Abort;

// The documents of a body, under the internal ids 3, 5 and so on.
fn image_documents(rt: &impl Abort, alloc: Global, body: &str) -> Vec<ImageDocument> {
    let mut rows = Vec::new(alloc);
    let mut id = 3_u32;
    for document in documents(rt, alloc, body) {
        let row = ImageDocument {
            id: DocId(id),
            document,
        };
        rows.push(row).expect(rt, "memory");
        id = id.saturating_add(2);
    }
    rows
}

// The documents that are read as those of an index with the key `id`, the paths `id` and `t`, and default settings.
fn read(rt: &impl Abort, alloc: Global, body: &str) -> ReadDocuments {
    let key = Some(word(rt, alloc, "id"));
    let paths = [word(rt, alloc, "id"), word(rt, alloc, "t")];
    let settings = Settings::defaults(alloc).expect(rt, "memory");
    let documents = image_documents(rt, alloc, body);
    let mut fetches = Steps::<Fetch>::new();
    read_documents(alloc, &key, &paths, &settings, documents, &mut fetches).expect(rt, "memory")
}

// Each document with its internal id, its external id and its text, and then how many places each word has.
fn told(rt: &impl Abort, alloc: Global, read: &ReadDocuments) -> String {
    let mut text = String::new(alloc);
    for row in &read.rows {
        let (id, external) = (row.id.0, row.external.as_str());
        write!(text, "{id} {external} {};", row.document.text()).expect(rt, "memory");
    }
    for (word, list) in read.kept.rows.places().words_from(Bound::Unbounded) {
        write!(text, "{} {};", word.as_str(), list.pages().len()).expect(rt, "memory");
    }
    text
}

// Bodies, and what is read of their documents.
const READ: [(&str, &str); 3] = [
    ("[]", ""),
    (
        r#"[{"t":"Dark","id":7}]"#,
        r#"3 7 {"id":7,"t":"Dark"};7 1;dark 1;"#,
    ),
    (
        r#"[{"id":"a","t":"dark knight"},{"id":"b","t":["dark",null]}]"#,
        r#"3 a {"id":"a","t":"dark knight"};5 b {"id":"b","t":["dark",null]};a 1;b 1;dark 2;knight 1;"#,
    ),
];

#[test]
fn documents_of_an_image_are_read(rt: HostRuntime) {
    let alloc = rt.alloc();
    for (body, wanted) in &READ {
        let read = read(&rt, alloc, body);
        check_text(&rt, &told(&rt, alloc, &read), wanted, body);
    }
}
