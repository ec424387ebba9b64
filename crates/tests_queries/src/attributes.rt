use crate::checks::{add, check_text};
use filter_expr::parse;
use filter_tree::Filter;
use row_filter::attributes;
use serde_json::Value;
use std::alloc::Global;
use std::process::Abort;

// A filter, and the attributes that it tests.
const ATTRIBUTES: [(&str, &str); 3] = [
    ("", ""),
    ("b = 1", "b "),
    ("b = 1 AND (a EXISTS OR NOT b > 2)", "b a b "),
];

fn filter_of(rt: &impl Abort, alloc: Global, text: &str) -> Filter {
    let text = String::from_str(alloc, text).expect(rt, "memory");
    parse(alloc, &Value::String(text)).expect(rt, "a filter")
}

fn check_attributes(rt: &impl Abort, alloc: Global, text: &str, wanted: &str) {
    let filter = filter_of(rt, alloc, text);
    let mut names = String::new(alloc);
    for name in &attributes(alloc, &filter).expect(rt, "memory") {
        add(rt, &mut names, name.as_str());
        add(rt, &mut names, " ");
    }
    check_text(rt, &names, wanted, text);
}

#[test]
fn attributes_come_in_the_order_of_the_text(rt: HostRuntime) {
    for (text, wanted) in &ATTRIBUTES {
        check_attributes(&rt, rt.alloc(), text, wanted);
    }
}
