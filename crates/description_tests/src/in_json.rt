//! Tables of texts in JSON, why a text gives none, and where a path comes into one.
use description_json::{JsonError, table_from_str, text_before};
use keyed::Step;
use std::alloc::{AllocError, Global};

// A text in JSON, and one in TOML that gives the same table.
const TABLES: &[(&str, &str)] = &[
    (" { } \r\n", ""),
    (
        "{\"name\": \"app\", \"hidden\": true, \"section\": 8}",
        "hidden = true\nname = 'app'\nsection = 8\n",
    ),
    (
        "{\"b\":[1,[\"x\",{}],[]],\"a\":{\"d\":-0,\"c\":-1.5E+3}}",
        "b = [1, ['x', {}], []]\na = {c = -1500.0, d = 0}\n",
    ),
    (
        "{\"\\u0061\\n\": \"\\ud83d\\ude00\\u00e9\\\\\\/\u{e9}\"}",
        "\"a\\n\" = \"\u{1f600}\u{e9}\\\\/\u{e9}\"\n",
    ),
    (
        "{\"\": 9223372036854775807, \"n\": -9223372036854775808}",
        "\"\" = 9223372036854775807\nn = -9223372036854775808\n",
    ),
];

fn gives_the_same(alloc: Global, json: &str, toml: &str) -> bool {
    let (Ok(table), Ok(want)) = (
        table_from_str(alloc, json),
        toml::table_from_str(alloc, toml),
    ) else {
        return false;
    };
    let is_same = table == want;
    drop(want);
    drop(table);
    is_same
}

#[test]
fn texts_in_json_give_tables(rt: HostRuntime) {
    for &(json, toml) in TABLES {
        assert!(rt; gives_the_same(rt.alloc(), json, toml), "{json}");
    }
}

// A text that gives no table, cut at the place of its fault, and what is reported.
const FAULTS: &[(&str, &str, &str)] = &[
    (" ", "", "not a JSON object; { has to stand here"),
    ("", "[1]", "not a JSON object; { has to stand here"),
    ("", "name = 'app'", "not a JSON object; { has to stand here"),
    ("{", "name: 1}", "a key in double quotes has to stand here"),
    ("{", "1: 1}", "a key in double quotes has to stand here"),
    ("{", "\"a\" 1}", "a colon has to follow this key"),
    ("{", "\"a\"}", "a colon has to follow this key"),
    ("{\"a\": ", "}", "a JSON value has to stand here"),
    ("{\"a\": ", "True}", "a JSON value has to stand here"),
    ("{\"a\": ", "01}", "a JSON value has to stand here"),
    ("{\"a\": [", ", 1]}", "a JSON value has to stand here"),
    ("{\"a\": [", "\"b\": 1]}", "a JSON value has to stand here"),
    (
        "{\"a\": 1 ",
        "\"\\q\": 2}",
        "a comma or } has to stand here",
    ),
    ("{\"a\": [1 ", "2]}", "a comma or ] has to stand here"),
    ("{\"a\": [1", "}}", "a comma or ] has to stand here"),
    ("{\"a\": 1, ", "}", "no comma may stand before this bracket"),
    (
        "{\"a\": [1,\n",
        "]}",
        "no comma may stand before this bracket",
    ),
    ("{} ", "{}", "nothing may follow the object"),
    ("{}", "}", "nothing may follow the object"),
    ("", "{\"a\": 1", "{ is not closed"),
    ("", "{\"a\": 1, ", "{ is not closed"),
    ("{\"a\": ", "[{}, 2\n", "[ is not closed"),
    ("{\"a\": ", "\"x", "\" is not closed"),
    (
        "{\"a\": \"x",
        "\n\"}",
        "a control character in a string; write \\n for a newline, \\t for a tab",
    ),
    (
        "{\"a\": \"\\\\",
        "\\q\"}",
        "not a JSON escape; write \\\\ for a backslash",
    ),
    (
        "{\"a\": \"\\u00e9",
        "\\u12g4\"}",
        "not a JSON escape; write \\\\ for a backslash",
    ),
    (
        "{\"a\": \"\\ud83d\\ude00",
        "\\ud83d\\u0041\"}",
        "half of a surrogate pair, without the other half",
    ),
    (
        "{\"a\": \"",
        "\\ude00\"}",
        "half of a surrogate pair, without the other half",
    ),
    (
        "{\"a\": {\"a\": 1}, ",
        "\"\\u0061\": 2}",
        "this key is already in the object",
    ),
    (
        "{\"a\": [",
        "null]}",
        "null is no value here; leave the key out",
    ),
    (
        "{\"a\": 1, \"b\": ",
        "9223372036854775808}",
        "this number does not fit 64 bits",
    ),
    ("{\"a\": ", "1e999}", "this number does not fit 64 bits"),
];

// Whether the text is refused so, at this place.
fn is_refused(alloc: Global, before: &str, after: &str, words: &str) -> bool {
    let Ok(text) = format!(in alloc; "{before}{after}") else {
        return false;
    };
    let Err(JsonError::Content(fault)) = table_from_str(alloc, &text) else {
        return false;
    };
    match format!(in alloc; "{}", fault.why) {
        Ok(said) => fault.before == before && said.as_str() == words,
        Err(AllocError) => false,
    }
}

#[test]
fn faults_of_json_are_told_where_they_are(rt: HostRuntime) {
    for &(before, after, words) in FAULTS {
        assert!(rt;
            is_refused(rt.alloc(), before, after, words),
            "{before}|{after}"
        );
    }
}

// That many nested arrays in an object, and the text before the innermost.
fn nested(alloc: Global, count: usize) -> Result<(String, String), AllocError> {
    let mut before = String::from_str(alloc, "{\"a\":")?;
    for _ in 1..count {
        before.push('[')?;
    }
    let mut text = format!(in alloc; "{before}[")?;
    for _ in 0..count {
        text.push(']')?;
    }
    text.push('}')?;
    Ok((before, text))
}

// What is reported of that many nested arrays, if they are refused at the innermost.
fn told_of_nested(alloc: Global, count: usize) -> Option<String> {
    let (before, text) = nested(alloc, count).ok()?;
    match table_from_str(alloc, &text) {
        Err(JsonError::Content(fault)) if fault.before == before.as_str() => {
            format!(in alloc; "{}", fault.why).ok()
        }
        _ => None,
    }
}

#[test]
fn an_object_is_at_most_80_deep(rt: HostRuntime) {
    assert!(rt; told_of_nested(rt.alloc(), 79).is_none());
    let told = told_of_nested(rt.alloc(), 80).expect(&rt, "a fault");
    assert!(rt; told.as_str() == "arrays and objects may be nested at most 80 deep");
}

const TEXT: &str =
    "{\"name\": \"app\", \"option\": [{\"long\": \"first\", \"values\": [\"a\", \"b,\\\" }\"]} ,
 {\"short\": \"s\", \"l\\u006fng\": \"second\"}],
 \"words\": {\"usage\": \"Use\"}
}
";

// A path, and how the text goes on where it comes to be; nothing where it does not.
const PATHS: &[(&[Step<'static>], &str)] = &[
    (&[Step::Key("name")], "\"name\": "),
    (&[Step::Key("option")], "\"option\": ["),
    (
        &[Step::Key("option"), Step::Index(0)],
        "{\"long\": \"first\"",
    ),
    (
        &[
            Step::Key("option"),
            Step::Index(0),
            Step::Key("values"),
            Step::Index(1),
        ],
        "\"b,",
    ),
    (&[Step::Key("option"), Step::Index(1)], "{\"short\""),
    (
        &[Step::Key("option"), Step::Index(1), Step::Key("long")],
        "\"l\\u006fng\": \"second\"",
    ),
    (&[Step::Key("words"), Step::Key("usage")], "\"usage\": "),
    (&[Step::Key("words"), Step::Key("options")], ""),
    (&[Step::Key("option"), Step::Index(2)], ""),
    (&[Step::Key("name"), Step::Index(0)], ""),
    (&[], ""),
];

fn goes_on(alloc: Global, path: &[Step<'_>], words: &str) -> bool {
    let Ok(found) = text_before(alloc, TEXT, path) else {
        return false;
    };
    let Some(front) = found else {
        return words.is_empty();
    };
    match TEXT.strip_prefix(front) {
        Some(rest) => !words.is_empty() && rest.strip_prefix(words).is_some(),
        None => false,
    }
}

#[test]
fn paths_have_their_places_in_json(rt: HostRuntime) {
    for &(path, words) in PATHS {
        assert!(rt; goes_on(rt.alloc(), path, words), "{words}");
    }
}
