use crate::checks::{add, check_text};
use std::alloc::Global;
use std::process::Abort;
use token_words::*;

// What a text shows, the text, and its tokens as `position word start end`. The last ones are from
// the test data of UAX #29.
const TEXTS: [(&str, &str, &str); 60] = [
    ("empty text", "", ""),
    ("blank text", " \t\r\n", ""),
    ("one word", "dark", "0 dark 0 4"),
    (
        "comma and space",
        "Dark, Knight",
        "0 dark 0 4;8 knight 6 12",
    ),
    (
        "mixed marks and ligature",
        "¡The Dárk, KNIGHT-4 ﬁn.",
        "0 the 2 5;1 dark 6 11;9 knight 13 19;10 4 20 21;11 fin 22 26",
    ),
    ("many spaces are one step", "a  \t b", "0 a 0 1;1 b 5 6"),
    ("hyphen is soft", "well-known", "0 well 0 4;1 known 5 10"),
    (
        "slash and ampersand are soft",
        "a/b&c",
        "0 a 0 1;1 b 2 3;2 c 4 5",
    ),
    ("quotes are soft", "\"a\" 'b'", "0 a 1 2;1 b 5 6"),
    ("full stop is hard", "a. b", "0 a 0 1;8 b 3 4"),
    ("semicolon is hard", "a; b", "0 a 0 1;8 b 3 4"),
    ("exclamation mark is hard", "a! b", "0 a 0 1;8 b 3 4"),
    ("question mark is hard", "a? b", "0 a 0 1;8 b 3 4"),
    (
        "round brackets are hard",
        "a (b) c",
        "0 a 0 1;8 b 3 4;16 c 6 7",
    ),
    (
        "square brackets are hard",
        "a [b] c",
        "0 a 0 1;8 b 3 4;16 c 6 7",
    ),
    ("braces are hard", "a {b} c", "0 a 0 1;8 b 3 4;16 c 6 7"),
    ("vertical bar is hard", "a | b", "0 a 0 1;8 b 4 5"),
    ("colon between spaces is soft", "a : b", "0 a 0 1;1 b 4 5"),
    (
        "two hard separators are one step",
        "a... b",
        "0 a 0 1;8 b 5 6",
    ),
    ("hard before the first word does not count", "(a", "0 a 1 2"),
    ("full stop inside a word", "u.s.a. b", "0 u.s.a 0 5;8 b 7 8"),
    ("apostrophe inside a word", "can't", "0 can't 0 5"),
    ("curly apostrophe inside a word", "can’t", "0 can’t 0 7"),
    (
        "apostrophe at the end",
        "dogs' tails",
        "0 dogs 0 4;1 tails 6 11",
    ),
    (
        "number with commas and a full stop",
        "1,000.5 km",
        "0 1,000.5 0 7;1 km 8 10",
    ),
    ("two commas part numbers", "1,,2", "0 1 0 1;8 2 3 4"),
    ("letters and digits are one word", "a1b2", "0 a1b2 0 4"),
    ("underscore joins", "snake_case _", "0 snake_case 0 10"),
    (
        "colon between letters joins",
        "a:a 1:a",
        "0 a:a 0 3;1 1 4 5;2 a 6 7",
    ),
    (
        "german sharp s",
        "Straße GROẞ",
        "0 strasse 0 7;1 gross 8 14",
    ),
    (
        "greek final sigma",
        "ΟΔΥΣΣΕΥΣ σοφός",
        "0 οδυσσευσ 0 16;1 σοφοσ 17 27",
    ),
    (
        "ligatures and full width digits",
        "ﬁne ﬂow １２３",
        "0 fine 0 5;1 flow 6 11;2 123 12 21",
    ),
    (
        "superscript and roman numerals",
        "x² Ⅳ",
        "0 x 0 1;1 2 1 3;2 iv 4 7",
    ),
    (
        "combining marks go",
        "e\u{301}te\u{301} n\u{303}",
        "0 ete 0 7;1 n 8 11",
    ),
    (
        "precomposed letters",
        "Éclair Łódź",
        "0 eclair 0 7;1 łodz 8 15",
    ),
    ("marks alone are no word", "\u{301} \u{308}a", "0 a 5 6"),
    ("dotted capital i", "İstanbul", "0 istanbul 0 9"),
    ("turkish dotless i", "ISPARTA ı", "0 isparta 0 7;1 ı 8 10"),
    ("cyrillic short i", "Йогурт", "0 иогурт 0 12"),
    (
        "hebrew with a double quote",
        "צה״ל צה\"ל",
        "0 צה״ל 0 8;1 צה\"ל 9 16",
    ),
    (
        "arabic vowels go",
        "م\u{64e}ر\u{652}ح\u{64e}ب\u{64b}ا",
        "0 مرحبا 0 18",
    ),
    (
        "devanagari keeps spacing marks",
        "ह\u{93f}न\u{94d}द\u{940}",
        "0 ह\u{93f}नद\u{940} 0 18",
    ),
    ("thai goes by character", "ไทย", "0 ไ 0 3;1 ท 3 6;2 ย 6 9"),
    (
        "japanese",
        "カタカナ ひら 漢字",
        "0 カタカナ 0 12;1 ひ 13 16;2 ら 16 19;3 漢 20 23;4 字 23 26",
    ),
    ("half width katakana", "ｶﾅ", "0 カナ 0 6"),
    (
        "korean decomposes",
        "한국",
        "0 \u{1112}\u{1161}\u{11ab}\u{1100}\u{116e}\u{11a8} 0 6",
    ),
    ("emoji are separators", "a 👍🏽 b", "0 a 0 1;1 b 11 12"),
    ("flags are separators", "🇫🇷🇩🇪 eu", "0 eu 17 19"),
    (
        "joined emoji after a letter",
        "a\u{200d}🛑 b",
        "0 a\u{200d}🛑 0 8;1 b 9 10",
    ),
    ("squared letters are letters", "🄰", "0 a 0 4"),
    ("circled number", "①②", "0 1 0 3;1 2 3 6"),
    ("soft hyphen stays", "co\u{ad}op", "0 co\u{ad}op 0 6"),
    (
        "line ends part words",
        "a\r\nb\u{2028}c",
        "0 a 0 1;1 b 3 4;2 c 7 8",
    ),
    ("no-break space parts words", "a\u{a0}b", "0 a 0 1;1 b 3 4"),
    (
        "byte order mark stays inside",
        "a\u{feff}b",
        "0 a\u{feff}b 0 5",
    ),
    (
        "letters outside the first plane",
        "𝒜𝓫 𐐀",
        "0 ab 0 8;1 𐐨 9 13",
    ),
    ("standard hebrew apostrophe", "א' א", "0 א' 0 3;1 א 4 6"),
    ("standard two colons", "A::A", "0 a 0 1;1 a 3 4"),
    (
        "standard low lines",
        "A__A A_0_〱_",
        "0 a__a 0 4;1 a_0_〱_ 5 13",
    ),
    (
        "standard commas and letters",
        "a,b 1.2.3",
        "0 a 0 1;8 b 2 3;9 1.2.3 4 9",
    ),
];

fn add_token(rt: &impl Abort, told: &mut String, word: &str, place: (u128, u64, u64)) {
    if !told.is_empty() {
        add(rt, told, ";");
    }
    let (position, start, end) = place;
    write!(told, "{position} {word} {start} {end}").expect(rt, "memory");
}

fn told(rt: &impl Abort, alloc: Global, text: &str) -> String {
    let mut told = String::new(alloc);
    for token in &tokens(alloc, text).expect(rt, "memory") {
        let place = (token.position, token.start, token.end);
        add_token(rt, &mut told, token.word.as_str(), place);
    }
    told
}

#[test]
fn texts_have_these_words(rt: HostRuntime) {
    for (shows, text, wanted) in &TEXTS {
        check_text(&rt, &told(&rt, rt.alloc(), text), wanted, shows);
        tokens_are_the_words(text);
    }
}

fn check_normal(rt: &impl Abort, alloc: Global, text: &str, wanted: &str) {
    let found = normal(alloc, text).expect(rt, "memory");
    check_text(rt, found.as_str(), wanted, text);
}

#[test]
fn marks_and_case_go(rt: HostRuntime) {
    check_normal(&rt, rt.alloc(), "Éclair", "eclair");
    check_normal(&rt, rt.alloc(), "Straße", "strasse");
}
