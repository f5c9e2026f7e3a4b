//! Descriptions in JSON: their pages are those of the same in TOML, and faults and warnings have their places.
use crate::clidoc::pages::{Form, INPUT, has_page, page, page_of};
use crate::clidoc::{faults, warnings};
use crate::engines::AMPLE;
use crate::programs::answers;
use clidoc_engine::notation::{Notation, notation_of};
use linked_list_allocator::LocalHeap;
use std::alloc::{AllocError, Global};

// The name of a file, its text, and the notation.
const NOTATIONS: &[(&str, &str, Notation)] = &[
    ("-", "", Notation::Toml),
    ("-", "{", Notation::Json),
    ("-", "\t\r\n {}", Notation::Json),
    ("-", "[{}]", Notation::Toml),
    ("-", "# {}", Notation::Toml),
    ("-", "\u{a0}{}", Notation::Toml),
    ("a.json", "", Notation::Json),
    ("a.json", "name = 'a'", Notation::Json),
    (".json", "", Notation::Json),
    ("a.toml", "{}", Notation::Json),
    ("a.JSON", "", Notation::Toml),
    ("ajson", "", Notation::Toml),
    ("a.json.toml", "", Notation::Toml),
    ("json", "", Notation::Toml),
    ("", "", Notation::Toml),
];

#[test]
fn name_and_text_tell_the_notation(rt: HostRuntime) {
    for &(file, text, notation) in NOTATIONS {
        assert!(rt; notation_of(file, text) == notation, "{file} {text}");
    }
}

/// The description in JSON.
pub const IN_JSON: &[u8] = b"{\"name\": \"app\", \"about\": \"Prints things\", \"option\": [
{\"short\": \"v\", \"long\": \"verbose\", \"help\": \"Talk more\", \"required\": true}]}
";

// The same after white space, in another order, with escapes, and with other ends of lines.
const SAME: &[&[u8]] = &[
    IN_JSON,
    b"\n\t\r {\"option\":[{\"required\":true,\"help\":\"Talk\\u0020mor\\u0065\",\"long\":\"verbose\",\"short\":\"v\"}],\"\\u0061bout\":\"Prints things\",\"name\":\"app\"}",
    b"{\r\n \"name\": \"app\",\r\n \"option\": [{\r\n  \"help\": \"Talk more\",\r\n  \"short\": \"v\",\r\n  \"long\": \"verbose\",\r\n  \"required\": true\r\n }],\r\n \"about\": \"Prints things\"\r\n}\r\n",
];

const FORMS: &[Form] = &[
    Form::Usage,
    Form::Full,
    Form::Brief,
    Form::Html,
    Form::Fragment,
    Form::Markdown,
    Form::Man,
];

// Whether the page in this form is that of the description in TOML.
fn is_same(global: Global, form: Form, json: &[u8]) -> bool {
    let Ok(heap) = LocalHeap::new(global, AMPLE) else {
        return false;
    };
    let asked = page_of(global, form);
    match page(&heap, global, &asked, "-", INPUT) {
        Some(want) => has_page(global, form, json, &want),
        None => false,
    }
}

fn is_same_in_each_form(global: Global, json: &[u8]) -> bool {
    for form in FORMS {
        if !is_same(global, *form, json) {
            return false;
        }
    }
    true
}

#[test]
fn json_gives_the_pages_of_toml(rt: HostRuntime) {
    for &json in SAME {
        assert!(rt; is_same_in_each_form(rt.alloc(), json), "{json:?}");
    }
}

// The lines that are reported, and after a line of signs the input that they are about. Another such line separates
// rows.
//
// A member of an object has the place of its key. Faults of the JSON come first, since they leave no description.
const FAULTS: &str = "-:1:1: name is missing
====
{}
----
-:1:1: { is not closed
====
{\"name\": \"app\"
----
-:1:2: a key in double quotes has to stand here
====
{name: \"app\"}
----
-:1:2: a colon has to follow this key
====
{\"name\" \"app\"}
----
-:2:10: a JSON value has to stand here
====

{\"name\": 'app'}
----
-:2:2: a comma or } has to stand here
====
{\"name\": \"app\"
 \"about\": \"x\"}
----
-:2:1: no comma may stand before this bracket
====
{\"name\": \"app\",
}
----
-:1:17: nothing may follow the object
====
{\"name\": \"app\"} x
----
-:1:12: not a JSON escape; write \\\\ for a backslash
====
{\"name\": \"a\\q\"}
----
-:1:13: half of a surrogate pair, without the other half
====
{\"name\": \"é日\\ud83d\"}
----
-:1:12: a control character in a string; write \\n for a newline, \\t for a tab
====
{\"name\": \"a\tb\"}
----
-:3:3: this key is already in the object
====
{\"name\": \"a\",\r
\r
  \"n\\u0061me\": \"b\"}\r
----
-:1:10: null is no value here; leave the key out
====
{\"name\": null}
----
-:1:26: this number does not fit 64 bits
====
{\"name\": \"a\", \"section\": 9223372036854775808}
----
-:1:15: section is no number from 0 to 9
====
{\"name\": \"a\", \"section\": 9223372036854775807}
----
-:1:2: name is empty
-:3:6: option 2 (--v): --v is an option already, at line 2
====
{\"name\": \"\", \"option\": [
    {\"long\": \"v\"},
    {\"long\": \"v\"}]}
----
-:2:28: option 1: short, long or syntax is missing
-:2:29: option 1: no key lnog is known here; is it long?
====

{\"name\": \"app\", \"option\": [{\"lnog\": \"\\ud83d\\ude00\"}]}
----
-:3:3: header is no text
====
{\"name\": \"app\",\r
\r
  \"header\": 1}\r
----
-:1:25: option 1: short, long or syntax is missing
-:1:28: option 2: short, long or syntax is missing
-:1:31: option 3: short, long or syntax is missing
-:1:34: option 4: short, long or syntax is missing
-:1:37: option 5: short, long or syntax is missing
-:1:40: option 6: short, long or syntax is missing
-:1:43: option 7: short, long or syntax is missing
-:1:46: option 8: short, long or syntax is missing
-:1:49: option 9: short, long or syntax is missing
-:1:52: option 10: short, long or syntax is missing
-:1:55: option 11: short, long or syntax is missing
-:1:58: option 12: short, long or syntax is missing
-:1:61: option 13: short, long or syntax is missing
-:1:64: option 14: short, long or syntax is missing
-:1:67: option 15: short, long or syntax is missing
-:1:70: option 16: short, long or syntax is missing
-:1:73: option 17: short, long or syntax is missing
-:1:76: option 18: short, long or syntax is missing
-:1:79: option 19: short, long or syntax is missing
-:1:82: option 20: short, long or syntax is missing
-: and 1 more fault
====
{\"name\":\"app\",\"option\":[{},{},{},{},{},{},{},{},{},{},{},{},{},{},{},{},{},{},{},{},{}]}";

#[test]
fn says_what_is_wrong_in_json(rt: HostRuntime) {
    for row in FAULTS.split("\n----\n") {
        assert!(rt; faults::is_said(rt.alloc(), row), "{row}");
    }
}

// The same of what should be said differently.
const WARNINGS: &str = "====
{\"name\": \"app\", \"about\": \"Greets people.\"}
----
-:1:1: warning: no about says what the program does
-:2:2: warning: no help says what the option does
====
{\"name\": \"app\", \"option\": [
 {\"long\": \"b\"}]}";

#[test]
fn says_what_is_better_in_json(rt: HostRuntime) {
    for row in WARNINGS.split("\n----\n") {
        assert!(rt; warnings::is_said(rt.alloc(), row), "{row}");
    }
}

const OPENING: &str = "{\"name\":\"c\",\"command\":[\n";

// Nested commands, each in an object and an array.
fn nested(global: Global, depth: usize) -> Result<String, AllocError> {
    let opening = OPENING.repeat(global, depth)?;
    let closing = "]}".repeat(global, depth)?;
    format!(in global; "{opening}{{\"name\":\"c\"}}{closing}")
}

// Whether that many nested commands give this status, and this page or this line.
fn nested_answer(
    global: Global,
    depth: usize,
    status: u8,
    printed: (&[u8], &str),
) -> Result<bool, AllocError> {
    let input = nested(global, depth)?;
    Ok(answers(global, "clidoc|usage", input.as_bytes(), status, printed))
}

const TOO_DEEP: &str = "-:41:1: arrays and objects may be nested at most 80 deep";

#[test]
fn commands_in_json_stand_in_one_another(rt: HostRuntime) {
    let deep = nested_answer(rt.alloc(), 39, 0, (b"c COMMAND ...\n", ""));
    assert!(rt; deep.unwrap_or(false));
    let deeper = nested_answer(rt.alloc(), 40, 1, (b"", TOO_DEEP));
    assert!(rt; deeper.unwrap_or(false));
}
