use crate::checks::check_text;
use filter_expr::*;
use filter_tree::{Filter, Test};
use search_base::{Fault, Word};
use serde_json::Value;
use std::alloc::{AllocError, Global};
use std::process::Abort;

const OPERATORS: [(&str, &str); 16] = [
    ("year > 2000", "year > 2000"),
    ("year >= 2000", "year >= 2000"),
    ("year < 2000", "year < 2000"),
    ("year <= 2000", "year <= 2000"),
    ("genre = drama", "genre = 'drama'"),
    ("genre != drama", "NOT genre = 'drama'"),
    ("year 1999 TO 2005", "year 1999 TO 2005"),
    ("genre IN [drama, action]", "genre IN ['drama', 'action']"),
    ("genre IN []", "genre IN []"),
    ("genre NOT IN [drama]", "NOT genre IN ['drama']"),
    ("genre EXISTS", "genre EXISTS"),
    ("genre NOT EXISTS", "NOT genre EXISTS"),
    ("genre IS NULL", "genre IS NULL"),
    ("genre IS NOT NULL", "NOT genre IS NULL"),
    ("genre IS EMPTY", "genre IS EMPTY"),
    ("genre IS NOT EMPTY", "NOT genre IS EMPTY"),
];

const JOINED: [(&str, &str); 15] = [
    ("a = 1 AND b = 2", "(a = '1' AND b = '2')"),
    ("a = 1 OR b = 2", "(a = '1' OR b = '2')"),
    (
        "a = 1 OR b = 2 AND c = 3",
        "(a = '1' OR (b = '2' AND c = '3'))",
    ),
    (
        "a = 1 AND b = 2 AND c = 3",
        "(a = '1' AND b = '2' AND c = '3')",
    ),
    (
        "(a = 1 OR b = 2) AND c = 3",
        "((a = '1' OR b = '2') AND c = '3')",
    ),
    (
        "(a = 1 AND b = 2) AND c = 3",
        "((a = '1' AND b = '2') AND c = '3')",
    ),
    ("NOT a = 1", "NOT a = '1'"),
    ("NOT NOT a = 1", "NOT NOT a = '1'"),
    ("NOT a != 1", "NOT NOT a = '1'"),
    ("NOT (a = 1 AND b = 2)", "NOT (a = '1' AND b = '2')"),
    ("NOT a = 1 AND b = 2", "(NOT a = '1' AND b = '2')"),
    ("((a = 1))", "a = '1'"),
    ("", "all"),
    ("   ", "all"),
    ("\t\r\n ", "all"),
];

const TEXTS: [(&str, &str); 19] = [
    ("a=b", "a = 'b'"),
    ("\ta\n=\r\nb ", "a = 'b'"),
    ("a='b c'", "a = 'b c'"),
    ("a = 'it\\'s'", "a = 'it's'"),
    ("a = \"say \\\"x\\\"\"", "a = 'say \"x\"'"),
    ("a = 'b\\\\'", "a = 'b\\'"),
    ("a = 'b\\n'", "a = 'b\\n'"),
    ("a = \"it's\"", "a = 'it's'"),
    ("'AND' = 'OR'", "AND = 'OR'"),
    ("a IN ['NOT', 'NULL']", "a IN ['NOT', 'NULL']"),
    ("'' = ''", " = ''"),
    ("_-/.0 = x.y/z", "_-/.0 = 'x.y/z'"),
    ("café = naïve", "café = 'naïve'"),
    ("a = 'é\\é'", "a = 'é\\é'"),
    ("a =é", "a = 'é'"),
    ("a = b ", "a = 'b '"),
    ("and = or", "and = 'or'"),
    ("Not EXISTS", "Not EXISTS"),
    ("a = ANDx", "a = 'ANDx'"),
];

const NUMBERS: [(&str, &str); 17] = [
    ("n > 007", "n > 7"),
    ("n > -0", "n > 0"),
    ("n > '5'", "n > 5"),
    ("n > 18446744073709551615", "n > 18446744073709551615"),
    ("n > -9223372036854775808", "n > -9223372036854775808"),
    (
        "n > 18446744073709551616",
        "no number: 18446744073709551616",
    ),
    (
        "n > -9223372036854775809",
        "no number: -9223372036854775809",
    ),
    (
        "n > 340282366920938463463374607431768211456",
        "no number: 340282366920938463463374607431768211456",
    ),
    ("n > abc", "no number: abc"),
    ("year > abc", "no number: abc"),
    ("n > 1.5", "no number: 1.5"),
    ("n > -", "no number: -"),
    ("n > ''", "no number: "),
    ("n 1 TO x", "no number: x"),
    ("n x TO y", "no number: x"),
    ("n >= 5 AND m < z", "no number: z"),
    ("n > x OR m > y", "no number: x"),
];

const FAULTS: [(&str, &str); 54] = [
    ("year >> 3", "syntax in text 1 at 6"),
    ("year >", "syntax in text 1 at 6"),
    ("n > +5", "syntax in text 1 at 4"),
    ("a", "syntax in text 1 at 1"),
    ("a b", "syntax in text 1 at 3"),
    ("a b c", "syntax in text 1 at 4"),
    ("a !", "syntax in text 1 at 3"),
    ("a ! = b", "syntax in text 1 at 3"),
    ("!", "syntax in text 1 at 0"),
    ("= b", "syntax in text 1 at 0"),
    ("a = b c", "syntax in text 1 at 6"),
    ("a = b )", "syntax in text 1 at 6"),
    ("(a = b", "syntax in text 1 at 6"),
    ("a = b OR", "syntax in text 1 at 8"),
    ("a = b AND AND c = d", "syntax in text 1 at 13"),
    ("a = AND", "syntax in text 1 at 7"),
    ("a = AND ", "syntax in text 1 at 7"),
    ("AND = b", "syntax in text 1 at 3"),
    ("a = b ANX", "syntax in text 1 at 8"),
    ("a = b and c = d", "syntax in text 1 at 6"),
    ("a NOT", "syntax in text 1 at 5"),
    ("a NOT b", "syntax in text 1 at 6"),
    ("a NOT IN", "syntax in text 1 at 8"),
    ("a IN", "syntax in text 1 at 4"),
    ("a IN [b", "syntax in text 1 at 7"),
    ("a IN [b,]", "syntax in text 1 at 8"),
    ("a IN [,b]", "syntax in text 1 at 6"),
    ("a IN [b c]", "syntax in text 1 at 8"),
    ("a IN (b)", "syntax in text 1 at 5"),
    ("a IS", "syntax in text 1 at 4"),
    ("a IS x", "syntax in text 1 at 5"),
    ("a IS NOT x", "syntax in text 1 at 9"),
    ("a EXISTS b", "syntax in text 1 at 9"),
    ("EXISTS", "syntax in text 1 at 6"),
    ("NOT", "syntax in text 1 at 3"),
    ("TO = 1", "syntax in text 1 at 2"),
    ("a 1 TO", "syntax in text 1 at 6"),
    ("a 1 TO TO", "syntax in text 1 at 9"),
    ("a = 'b", "syntax in text 1 at 6"),
    ("a = 'b\\'", "syntax in text 1 at 8"),
    ("a = \"b'", "syntax in text 1 at 7"),
    ("a = b ~", "syntax in text 1 at 6"),
    ("a & b", "syntax in text 1 at 2"),
    ("a = é é", "syntax in text 1 at 7"),
    ("é", "syntax in text 1 at 2"),
    ("[a = b]", "syntax in text 1 at 0"),
    ("a,b", "syntax in text 1 at 1"),
    ("a = (b)", "syntax in text 1 at 4"),
    (")", "syntax in text 1 at 0"),
    ("a >= = b", "syntax in text 1 at 5"),
    ("a = = b", "syntax in text 1 at 4"),
    ("a <> b", "syntax in text 1 at 3"),
    ("a => b", "syntax in text 1 at 3"),
    ("a =! b", "syntax in text 1 at 3"),
];

fn shown_test(alloc: Global, test: &Test) -> Result<String, AllocError> {
    match test {
        Test::Equal(value) => format!(in alloc; "= '{}'", value.as_str()),
        Test::Above(number) => format!(in alloc; "> {number}"),
        Test::AtLeast(number) => format!(in alloc; ">= {number}"),
        Test::Below(number) => format!(in alloc; "< {number}"),
        Test::AtMost(number) => format!(in alloc; "<= {number}"),
        Test::Between(low, high) => format!(in alloc; "{low} TO {high}"),
        Test::OneOf(values) => shown_values(alloc, values),
        Test::Exists => String::from_str(alloc, "EXISTS"),
        Test::Null => String::from_str(alloc, "IS NULL"),
        Test::Empty => String::from_str(alloc, "IS EMPTY"),
    }
}

fn shown_values(alloc: Global, values: &[Word]) -> Result<String, AllocError> {
    let mut all = String::from_str(alloc, "IN [")?;
    let mut quote = "'";
    for value in values {
        all.push_str(quote)?;
        all.push_str(value.as_str())?;
        all.push_str("'")?;
        quote = ", '";
    }
    all.push_str("]")?;
    Ok(all)
}

/// A filter as a text, with each AND and OR in brackets.
#[cycle(shown)]
fn shown(alloc: Global, filter: &Filter) -> Result<String, AllocError> {
    match filter {
        Filter::All => String::from_str(alloc, "all"),
        Filter::And(members) => joined(alloc, members, " AND "),
        Filter::Or(members) => joined(alloc, members, " OR "),
        Filter::Not(member) => {
            let inner = shown(alloc, member)?;
            format!(in alloc; "NOT {inner}")
        }
        Filter::Test { attribute, test } => {
            let test = shown_test(alloc, test)?;
            format!(in alloc; "{} {test}", attribute.as_str())
        }
    }
}

#[cycle(shown)]
fn joined(alloc: Global, members: &Vec<Filter>, word: &str) -> Result<String, AllocError> {
    let mut all = String::from_str(alloc, "(")?;
    for member in members {
        if all.len() > 1 {
            all.push_str(word)?;
        }
        let one = shown(alloc, member)?;
        all.push_str(one.as_str())?;
    }
    all.push(')')?;
    Ok(all)
}

fn refusal_text(rt: &impl Abort, alloc: Global, fault: &Fault<FilterRefusal>) -> String {
    let text = match fault {
        Fault::Refused(FilterRefusal::Syntax { text, place }) => {
            format!(in alloc; "syntax in text {text} at {place}")
        }
        Fault::Refused(FilterRefusal::TooDeep { text, place }) => {
            format!(in alloc; "too deep in text {text} at {place}")
        }
        Fault::Refused(FilterRefusal::NotANumber { value }) => {
            format!(in alloc; "no number: {}", value.as_str())
        }
        Fault::Refused(FilterRefusal::NotText) => format!(in alloc; "no text"),
        Fault::NoMemory => format!(in alloc; "no memory"),
    };
    text.expect(rt, "memory")
}

// The answer for a value, as a text.
fn answer(rt: &impl Abort, alloc: Global, value: &Value) -> String {
    match parse(alloc, value) {
        Ok(filter) => shown(alloc, &filter).expect(rt, "memory"),
        Err(fault) => refusal_text(rt, alloc, &fault),
    }
}

fn check_row(rt: &impl Abort, alloc: Global, text: &str, wanted: &str, row: &str) {
    let text = String::from_str(alloc, text).expect(rt, "memory");
    let found = answer(rt, alloc, &Value::String(text));
    check_text(rt, &found, wanted, row);
}

fn check_rows(rt: &impl Abort, alloc: Global, rows: &[(&str, &str)]) {
    for (text, wanted) in rows {
        check_row(rt, alloc, text, wanted, text);
    }
}

#[test]
fn each_operator_gives_its_test(rt: HostRuntime) {
    check_rows(&rt, rt.alloc(), &OPERATORS);
}

#[test]
fn and_binds_more_than_or(rt: HostRuntime) {
    check_rows(&rt, rt.alloc(), &JOINED);
}

#[test]
fn words_and_quoted_texts(rt: HostRuntime) {
    check_rows(&rt, rt.alloc(), &TEXTS);
}

#[test]
fn numbers_at_both_ends_and_one_beyond(rt: HostRuntime) {
    check_rows(&rt, rt.alloc(), &NUMBERS);
}

#[test]
fn a_fault_stands_where_no_filter_goes_on(rt: HostRuntime) {
    check_rows(&rt, rt.alloc(), &FAULTS);
}

// A text so many times, a middle, a text as many times, and the answer.
const WRAPPED: [(&str, &str, &str, usize, &str); 8] = [
    ("(", "a = 1", ")", 200, "a = '1'"),
    ("(", "a = 1", ")", 201, "too deep in text 1 at 200"),
    ("(", "", "", 1_000_000, "too deep in text 1 at 200"),
    ("NOT ", "a = 1", "", 201, "too deep in text 1 at 800"),
    ("NOT ", "", "", 200, "syntax in text 1 at 800"),
    ("(", "NOT~", "", 200, "too deep in text 1 at 200"),
    ("(", "NOTx~", "", 200, "syntax in text 1 at 204"),
    ("(NOT ", "a", "", 101, "too deep in text 1 at 500"),
];

fn check_wrapped(
    rt: &impl Abort,
    alloc: Global,
    open: &str,
    middle: &str,
    close: &str,
    count: usize,
    wanted: &str,
) {
    let open = open.repeat(alloc, count).expect(rt, "memory");
    let close = close.repeat(alloc, count).expect(rt, "memory");
    let text = format!(in alloc; "{open}{middle}{close}").expect(rt, "memory");
    check_row(rt, alloc, &text, wanted, middle);
}

#[test]
fn two_hundred_may_be_open(rt: HostRuntime) {
    for (open, middle, close, count, wanted) in &WRAPPED {
        check_wrapped(&rt, rt.alloc(), open, middle, close, *count, wanted);
    }
}

#[test]
fn laws_hold() {
    a_text_has_one_tree();
    a_value_has_one_answer();
    answers_are_the_grammars();
}

// A value, and its answer.
const VALUES: [(&str, &str); 4] = [
    (
        r#"["a = 1 OR b = 2",["c = 3","d = 4"],["e = 5"]]"#,
        "((a = '1' OR b = '2') AND (c = '3' OR d = '4') AND e = '5')",
    ),
    (r#"["",[" ","\t"],[]]"#, "all"),
    (r#"[" ",["","a = 1"]]"#, "a = '1'"),
    ("null", "all"),
];

const FAULTY_VALUES: [(&str, &str); 5] = [
    (r#"["n > x",["","a ="],"b"]"#, "syntax in text 3 at 3"),
    (r#"[["a = 1","n > x"],"m > y"]"#, "no number: x"),
    (r#"["a",["b = 1",["c = 2"]]]"#, "no text"),
    (r#"["a",5]"#, "no text"),
    ("true", "no text"),
];

fn check_values(rt: &impl Abort, alloc: Global, rows: &[(&str, &str)]) {
    for (text, wanted) in rows {
        let value = Value::from_str(alloc, text).expect(rt, "JSON");
        check_text(rt, &answer(rt, alloc, &value), wanted, text);
    }
}

#[test]
fn arrays_join_by_and_and_inner_arrays_by_or(rt: HostRuntime) {
    check_values(&rt, rt.alloc(), &VALUES);
}

#[test]
fn the_first_text_with_a_fault_decides(rt: HostRuntime) {
    check_values(&rt, rt.alloc(), &FAULTY_VALUES);
}
