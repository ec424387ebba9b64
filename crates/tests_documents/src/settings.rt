use crate::checks::{add, check, check_text};
use index_settings::{
    RankingRule, Settings, SettingsFault, SettingsRefusal, SynonymList, check_patch, is_covered,
    is_displayed, is_faceted, patch, rank_of, ranking_rule, to_json,
};
use search_base::{Fault, Word};
use serde_json::Value;
use std::alloc::Global;
use std::process::Abort;

const DEFAULTS: &str =
    "{\"displayedAttributes\":[\"*\"],\"distinctAttribute\":null,\"faceting\":{\"maxValuesPerFacet\":100},\"filterableAttributes\":[],\"pagination\":{\"maxTotalHits\":1000},\"rankingRules\":[\"words\",\"typo\",\"proximity\",\"attribute\",\"sort\",\"exactness\"],\"searchableAttributes\":[\"*\"],\"sortableAttributes\":[],\"stopWords\":[],\"synonyms\":{}}";

// A patch of each member, with lists that are kept as they are.
const EACH: &str =
    r#"{"displayedAttributes":["id","id"],"distinctAttribute":"a.b","faceting":{"maxValuesPerFacet":0},"filterableAttributes":["b","a"],"pagination":{"maxTotalHits":1000000},"rankingRules":["x:y:asc","words","words","a:desc:asc"],"searchableAttributes":[],"sortableAttributes":["é"],"stopWords":["a b"],"synonyms":{"b":[],"a":["x","x"]}}"#;

const EACH_SETTINGS: &str =
    r#"{"displayedAttributes":["id","id"],"distinctAttribute":"a.b","faceting":{"maxValuesPerFacet":0},"filterableAttributes":["b","a"],"pagination":{"maxTotalHits":1000000},"rankingRules":["x:y:asc","words","words","a:desc:asc"],"searchableAttributes":[],"sortableAttributes":["é"],"stopWords":["a b"],"synonyms":{"a":["x","x"],"b":[]}}"#;

const SAME: &str = r#"{"faceting":{},"pagination":{},"synonyms":{"a":["x","x"],"b":[]}}"#;

const EACH_NULL: &str =
    r#"{"displayedAttributes":null,"distinctAttribute":null,"faceting":null,"filterableAttributes":null,"pagination":{"maxTotalHits":null},"rankingRules":null,"searchableAttributes":null,"sortableAttributes":null,"stopWords":null,"synonyms":null}"#;

// Patches of the settings of a new index, and how the settings are printed then.
const PATCHED: [(&[&str], &str); 6] = [
    (&[], DEFAULTS),
    (
        &["{\"stopWords\":[\"the\"]}", "{\"stopWords\":null}"],
        DEFAULTS,
    ),
    (&[EACH], EACH_SETTINGS),
    (&[EACH, SAME], EACH_SETTINGS),
    (&[EACH_SETTINGS], EACH_SETTINGS),
    (&[EACH, EACH_NULL], DEFAULTS),
];

fn printed(rt: &impl Abort, alloc: Global, settings: &Settings) -> String {
    let value = to_json(alloc, settings).expect(rt, "memory");
    value.to_string(alloc).expect(rt, "memory")
}

fn defaults(rt: &impl Abort, alloc: Global) -> Settings {
    Settings::defaults(alloc).expect(rt, "memory")
}

fn patched(rt: &impl Abort, alloc: Global, old: &Settings, text: &str) -> Settings {
    let members = Value::from_str(alloc, text).expect(rt, "JSON");
    patch(alloc, old, &members).expect(rt, "no refusal")
}

fn check_patches(rt: &impl Abort, alloc: Global, patches: &[&str], wanted: &str) {
    let mut settings = defaults(rt, alloc);
    for text in patches {
        settings = patched(rt, alloc, &settings, text);
    }
    check_text(rt, &printed(rt, alloc, &settings), wanted, "patches");
}

#[test]
fn a_patch_replaces_what_it_names(rt: HostRuntime) {
    let alloc = rt.alloc();
    for (patches, wanted) in &PATCHED {
        check_patches(&rt, alloc, patches, wanted);
    }
    let old = defaults(&rt, alloc);
    let named = patched(&rt, alloc, &old, "{\"stopWords\":[\"the\"]}");
    check_text(&rt, only(named.stop_words()), "the", "stop words");
}

// The one text of a list, or `not one`.
fn only(list: &[Word]) -> &str {
    match list {
        [text] => text.as_str(),
        _ => "not one",
    }
}

// The key and the text of the one list, or `not one`.
fn only_synonym(lists: &[SynonymList]) -> (&str, &str) {
    match lists {
        [list] => (list.key.as_str(), only(&list.texts)),
        _ => ("not one", "not one"),
    }
}

// The text, or `none`.
fn text_or_none(text: Option<&Word>) -> &str {
    match text {
        Some(text) => text.as_str(),
        None => "none",
    }
}

const MEMBERS: &str =
    r#"{"displayedAttributes":["a"],"distinctAttribute":"i","faceting":{"maxValuesPerFacet":7},"filterableAttributes":["b"],"pagination":{"maxTotalHits":8},"rankingRules":["c:asc"],"searchableAttributes":["d"],"sortableAttributes":["e"],"stopWords":["f"],"synonyms":{"g":["h"]}}"#;

fn check_lists(rt: &impl Abort, all: &Settings) {
    check_text(rt, only(all.displayed_attributes()), "a", "displayed");
    check_text(rt, only(all.filterable_attributes()), "b", "filterable");
    check_text(rt, only(all.ranking_rules()), "c:asc", "rules");
    check_text(rt, only(all.searchable_attributes()), "d", "searchable");
    check_text(rt, only(all.sortable_attributes()), "e", "sortable");
    check_text(rt, only(all.stop_words()), "f", "stop words");
    let (key, text) = only_synonym(all.synonyms());
    check_text(rt, key, "g", "synonym");
    check_text(rt, text, "h", "synonym");
}

#[test]
fn the_members_of_the_settings(rt: HostRuntime) {
    let old = defaults(&rt, rt.alloc());
    let all = patched(&rt, rt.alloc(), &old, MEMBERS);
    check_lists(&rt, &all);
    check(&rt, all.max_values_per_facet() == 7, "values");
    check(&rt, all.max_total_hits() == 8, "hits");
    check_text(&rt, text_or_none(all.distinct_attribute()), "i", "distinct");
    check(&rt, old.distinct_attribute().is_none(), "no distinct");
}

const FAULTS: &str = r#"[]~shape 
null~shape 
"stopWords"~shape 
{"displayedAttributes":"a"}~shape displayedAttributes
{"displayedAttributes":[1]}~shape displayedAttributes
{"searchableAttributes":{}}~shape searchableAttributes
{"searchableAttributes":[["a"]]}~shape searchableAttributes
{"filterableAttributes":true}~shape filterableAttributes
{"filterableAttributes":["a",null]}~shape filterableAttributes
{"sortableAttributes":0}~shape sortableAttributes
{"stopWords":1}~shape stopWords
{"rankingRules":"words"}~shape rankingRules
{"rankingRules":["x",1]}~shape rankingRules
{"synonyms":[]}~shape synonyms
{"synonyms":{"a":"b"}}~shape synonyms
{"synonyms":{"a":["b"],"c":null}}~shape synonyms
{"distinctAttribute":5}~shape distinctAttribute
{"distinctAttribute":[]}~shape distinctAttribute
{"distinctAttribute":{}}~shape distinctAttribute
{"distinctAttribute":"year"}~none
{"faceting":5}~shape faceting
{"faceting":[]}~shape faceting
{"faceting":{"maxValuesPerFacet":"5"}}~shape faceting.maxValuesPerFacet
{"pagination":false}~shape pagination
{"pagination":{"maxTotalHits":-1}}~shape pagination.maxTotalHits
{"pagination":{"maxTotalHits":1.0}}~shape pagination.maxTotalHits
{"foo":1}~unknown foo
{"foo":null}~unknown foo
{"":1}~unknown 
{"stopwords":[]}~unknown stopwords
{"typoTolerance":{}}~unknown typoTolerance
{"faceting":{"sortFacetValuesBy":{}}}~unknown faceting.sortFacetValuesBy
{"faceting":{"maxTotalHits":1}}~unknown faceting.maxTotalHits
{"pagination":{"a.b":1}}~unknown pagination.a.b
{"stopWords":1,"foo":1,"rankingRules":["x"]}~unknown foo
{"rankingRules":["x"]}~rule x
{"stopWords":1,"rankingRules":["words","x","y"]}~rule x
{"Z":1,"distinctAttribute":"year"}~unknown Z
{"faceting":{"n":1,"maxValuesPerFacet":"a"},"a":1}~unknown a
{"faceting":{"n":1,"maxValuesPerFacet":"a"}}~shape faceting.maxValuesPerFacet
{"faceting":{"a":1,"maxValuesPerFacet":"a"}}~unknown faceting.a
{"faceting":{"maxValuesPerFacet":1000000}}~none
{"faceting":{"maxValuesPerFacet":1000001}}~shape faceting.maxValuesPerFacet
{"pagination":{"maxTotalHits":0}}~none
{"pagination":{"maxTotalHits":1000001}}~shape pagination.maxTotalHits
{"pagination":{"maxTotalHits":18446744073709551616}}~shape pagination.maxTotalHits"#;

// The fault of a patch, or `none`.
fn fault_text(rt: &impl Abort, alloc: Global, fault: &Result<(), SettingsFault>) -> String {
    let shown = match fault {
        Ok(()) => format!(in alloc; "none"),
        Err(Fault::Refused(SettingsRefusal::UnknownMember { member })) => {
            format!(in alloc; "unknown {}", member.as_str())
        }
        Err(Fault::Refused(SettingsRefusal::WrongShape { member })) => {
            format!(in alloc; "shape {}", member.as_str())
        }
        Err(Fault::Refused(SettingsRefusal::BadRankingRule { text })) => {
            format!(in alloc; "rule {}", text.as_str())
        }
        Err(Fault::NoMemory) => format!(in alloc; "no memory"),
    };
    shown.expect(rt, "memory")
}

fn check_fault(rt: &impl Abort, alloc: Global, patch: &str, wanted: &str, row: &str) {
    let members = Value::from_str(alloc, patch).expect(rt, "JSON");
    let found = fault_text(rt, alloc, &check_patch(alloc, &members));
    check_text(rt, &found, wanted, row);
}

// Each line of a table is a patch and its fault.
fn check_faults(rt: &impl Abort, alloc: Global, table: &str) {
    for line in table.lines() {
        let (patch, wanted) = line.split_once('~').unwrap_or((line, ""));
        check_fault(rt, alloc, patch, wanted, patch);
    }
}

// A member, the text that its list has so many times, and the fault of such a patch.
const LONG_LISTS: [(&str, &str, u32, &str); 8] = [
    ("displayedAttributes", "a", 65_535, "none"),
    (
        "displayedAttributes",
        "a",
        65_536,
        "shape displayedAttributes",
    ),
    ("searchableAttributes", "a", 65_535, "none"),
    (
        "searchableAttributes",
        "a",
        65_536,
        "shape searchableAttributes",
    ),
    ("filterableAttributes", "a", 65_536, "none"),
    ("rankingRules", "words", 32, "none"),
    ("rankingRules", "words", 33, "shape rankingRules"),
    ("rankingRules", "x", 33, "shape rankingRules"),
];

// A patch that gives a member a list of so many texts.
fn long_list(rt: &impl Abort, alloc: Global, name: &str, text: &str, count: u32) -> String {
    let mut patch = String::new(alloc);
    write!(patch, "{{\"{name}\":[\"").expect(rt, "memory");
    for _ in 1..count {
        add(rt, &mut patch, text);
        add(rt, &mut patch, "\",\"");
    }
    write!(patch, "{text}\"]}}").expect(rt, "memory");
    patch
}

#[test]
fn faults_of_patches(rt: HostRuntime) {
    let alloc = rt.alloc();
    check_faults(&rt, alloc, FAULTS);
    for (name, text, count, wanted) in &LONG_LISTS {
        let patch = long_list(&rt, alloc, name, text, *count);
        check_fault(&rt, alloc, &patch, wanted, name);
    }
}

// A text, and the rule that it names.
const RULES: [(&str, &str); 14] = [
    ("words", "words"),
    ("exactness", "exactness"),
    ("year:asc", "up year"),
    ("year:desc", "down year"),
    ("a:b:asc", "up a:b"),
    ("a:desc:asc", "up a:desc"),
    ("::desc", "down :"),
    ("words:asc", "up words"),
    (":asc", "none"),
    ("asc", "none"),
    ("year:ASC", "none"),
    ("year:asc ", "none"),
    ("Words", "none"),
    ("", "none"),
];

fn rule_text(rt: &impl Abort, rule: &RankingRule, text: &mut String) {
    match rule {
        RankingRule::Words => add(rt, text, "words"),
        RankingRule::Typo => add(rt, text, "typo"),
        RankingRule::Proximity => add(rt, text, "proximity"),
        RankingRule::Attribute => add(rt, text, "attribute"),
        RankingRule::Sort => add(rt, text, "sort"),
        RankingRule::Exactness => add(rt, text, "exactness"),
        RankingRule::Up { attribute } => {
            write!(text, "up {}", attribute.as_str()).expect(rt, "memory");
        }
        RankingRule::Down { attribute } => {
            write!(text, "down {}", attribute.as_str()).expect(rt, "memory");
        }
    }
}

fn check_rule(rt: &impl Abort, alloc: Global, text: &str, wanted: &str) {
    let mut found = String::new(alloc);
    match &ranking_rule(alloc, text).expect(rt, "memory") {
        Some(rule) => rule_text(rt, rule, &mut found),
        None => add(rt, &mut found, "none"),
    }
    check_text(rt, &found, wanted, text);
}

#[test]
fn texts_that_name_rules(rt: HostRuntime) {
    for (text, wanted) in &RULES {
        check_rule(&rt, rt.alloc(), text, wanted);
    }
}

// Of each path: its rank under the number 7, whether it is faceted, and whether a hit shows the member of its name.
const PATHS: [(&str, Option<u16>, bool, bool); 13] = [
    ("a.b.c", Some(0), true, false),
    ("a.b", Some(0), true, true),
    ("a.bc", Some(1), false, false),
    ("a", Some(1), false, false),
    ("ab", None, false, false),
    ("", Some(3), false, false),
    (".a", Some(3), false, false),
    ("c", None, true, true),
    ("c.d", None, true, false),
    ("d", None, false, false),
    ("d:e", None, true, false),
    ("d:e.f", None, false, false),
    ("f", None, true, false),
];

const NAMED: &str =
    r#"{"displayedAttributes":["a.b","c"],"filterableAttributes":["a.b"],"rankingRules":["words","d:e:asc","f:desc"],"searchableAttributes":["a.b","a","a.b.c",""],"sortableAttributes":["c"]}"#;

fn check_path(
    rt: &impl Abort,
    settings: &Settings,
    path: &str,
    rank: Option<u16>,
    faceted: bool,
    displayed: bool,
) {
    check(rt, rank_of(settings, path, 7) == rank, path);
    check(rt, is_faceted(settings, path) == faceted, path);
    check(rt, is_displayed(settings, path) == displayed, path);
}

fn check_covered(rt: &impl Abort, settings: &Settings, path: &str, wanted: bool) {
    let covered = is_covered(settings.searchable_attributes(), path);
    check(rt, covered == wanted, path);
}

#[test]
fn paths_of_the_settings(rt: HostRuntime) {
    let old = defaults(&rt, rt.alloc());
    check_path(&rt, &old, "a", Some(7), false, true);
    let some = patched(&rt, rt.alloc(), &old, NAMED);
    for (path, rank, faceted, displayed) in &PATHS {
        check_path(&rt, &some, path, *rank, *faceted, *displayed);
        check_covered(&rt, &some, path, rank.is_some());
    }
}
