use crate::asked::{no_synonyms, terms_of};
use crate::checks::{check_text, word};
use hit_format::{Format, TermSet};

// What a text shows, the text, the query, how many words are shown, what stands before and after a matched word and for
// what is left out, and the format. A second machine, written from the rules alone, gave these.
const TAGS: [(&str, &str, &str, Option<u64>, &str, &str, &str, &str); 10] = [
    (
        "no tags and no marker",
        "one dark two three",
        "dark ",
        Some(2),
        "",
        "",
        "",
        "one dark",
    ),
    (
        "no tag before",
        "one dark two three",
        "dark ",
        Some(2),
        "",
        "*",
        "…",
        "one dark*…",
    ),
    (
        "no tag behind",
        "one dark two three",
        "dark ",
        Some(2),
        "*",
        "",
        "…",
        "one *dark…",
    ),
    (
        "no marker",
        "one two dark three",
        "dark ",
        Some(1),
        "<",
        ">",
        "",
        "<dark>",
    ),
    (
        "tags with quotes",
        "one \"dark\" two",
        "dark ",
        None,
        "<a href=\"x\\y\">",
        "</a>",
        "…",
        "one \"<a href=\"x\\y\">dark</a>\" two",
    ),
    (
        "tags with a line end and a zero",
        "one dark two",
        "dark ",
        None,
        "\0[",
        "]\n\0",
        "…",
        "one \0[dark]\n\0 two",
    ),
    (
        "tags that are words of the query",
        "dark dark",
        "dark ",
        None,
        "dark ",
        "dark",
        "…",
        "dark darkdark dark darkdark",
    ),
    (
        "a marker that is a word of the query",
        "dark one two",
        "one ",
        Some(1),
        "<",
        ">",
        " one ",
        " one <one> one ",
    ),
    (
        "tags that are no ASCII",
        "one dark two",
        "dark ",
        None,
        "«",
        "»",
        "…",
        "one «dark» two",
    ),
    (
        "a text with a zero",
        "one\0dark two",
        "dark ",
        None,
        "<",
        ">",
        "…",
        "one\0<dark> two",
    ),
];

#[test]
fn tags_and_markers_stand_as_they_are_given(rt: HostRuntime) {
    let alloc = rt.alloc();
    for (row, text, q, crop, pre, post, marker, wanted) in &TAGS {
        let terms = terms_of(&rt, alloc, q, no_synonyms(&rt, alloc));
        let how = Format {
            highlight: true,
            pre: word(&rt, alloc, pre),
            post: word(&rt, alloc, post),
            crop: *crop,
            marker: word(&rt, alloc, marker),
        };
        let set = TermSet::new(alloc, terms.as_slice()).expect(&rt, "memory");
        let found = set.format(alloc, text, &how).expect(&rt, "memory");
        check_text(&rt, found.as_str(), wanted, row);
    }
}
