//! Descriptions in TOML, and the same in JSON.
use description_json::table_from_str;
use description_toml::description_from_table;
use json_of_descriptions::json_text;
use lasting_names::Names;
use linked_list_allocator::LocalHeap;
use std::alloc::{AllocError, Allocator, Global};
use toml::Table;

// A text in TOML, and what is written in JSON.
const ROWS: &[(&str, &str)] = &[
    ("name = 'app'", "{\n  \"name\": \"app\"\n}\n"),
    (
        "name = 'app'\nsection = 1\nlanguage = 'en'\ncommand_required = true\n[words]\nusage = 'Usage'\n",
        "{\n  \"name\": \"app\"\n}\n",
    ),
    (
        "title = 'T'\nvendor = 'app 1'\ndate = 2026-01-02\nsection = 8\nname = 'app'\nlanguage = 'de'\nusage = 'u'\nfooter = 'f'\nheader = 'h'\nabout = \"a\\n\u{e9}\"\n",
        "{\n  \"name\": \"app\",\n  \"section\": \"8\",\n  \"date\": \"2026-01-02\",\n  \"vendor\": \"app 1\",\n  \"title\": \"T\",\n  \"language\": \"de\",\n  \"about\": \"a\\n\u{e9}\",\n  \"header\": \"h\",\n  \"footer\": \"f\",\n  \"usage\": \"u\"\n}\n",
    ),
    (
        "name = 'app'\n[words]\nsee_also = 'Siehe auch:'\nusage = 'Aufruf'\n",
        "{\n  \"name\": \"app\",\n  \"words\": {\n    \"usage\": \"Aufruf\",\n    \"see_also\": \"Siehe auch\"\n  }\n}\n",
    ),
    (
        "name = 'app'\n[[option]]\nlong = 'color'\nshort = 'c'\nvalue = 'WHEN'\nvalues = ['never', 'auto']\ndefault = 5\nhelp = 'H'\nhidden = true\nenv = 'E'\nrepeated = true\n[[option]]\nsyntax = '--a[=B]'\nhint = 'host'\nrequired = true\n",
        "{\n  \"name\": \"app\",\n  \"option\": [\n    {\n      \"short\": \"c\",\n      \"long\": \"color\",\n      \"value\": \"WHEN\",\n      \"default\": \"5\",\n      \"values\": [\n        \"never\",\n        \"auto\"\n      ],\n      \"help\": \"H\",\n      \"hidden\": true,\n      \"env\": \"E\",\n      \"repeated\": true\n    },\n    {\n      \"syntax\": \"--a[=B]\",\n      \"hint\": \"host\",\n      \"required\": true\n    }\n  ]\n}\n",
    ),
    (
        "name = 'app'\n[[option]]\nlong = 'a'\nvalue = 'A'\nvalues = ['x, ', 'y']\n",
        "{\n  \"name\": \"app\",\n  \"option\": [\n    {\n      \"long\": \"a\",\n      \"value\": \"A\",\n      \"values\": [\n        \"x, , y\"\n      ]\n    }\n  ]\n}\n",
    ),
    (
        "name = 'app'\n[[choice]]\nrequired = true\n[[choice.option]]\nshort = '\u{e9}'\n[[help_option]]\nlong = 'help'\n",
        "{\n  \"name\": \"app\",\n  \"help_option\": [\n    {\n      \"long\": \"help\"\n    }\n  ],\n  \"choice\": [\n    {\n      \"option\": [\n        {\n          \"short\": \"\u{e9}\"\n        }\n      ],\n      \"required\": true\n    }\n  ]\n}\n",
    ),
    (
        "name = 'app'\n[[positional]]\nvalue = 'A'\n[[positional]]\nvalue = 'B'\ndefault = ''\nhint = 'none'\n[[positional]]\nvalue = 'C'\nrequired = false\nrepeated = true\nstrict = true\nhidden = true\n",
        "{\n  \"name\": \"app\",\n  \"positional\": [\n    {\n      \"value\": \"A\"\n    },\n    {\n      \"value\": \"B\",\n      \"default\": \"\",\n      \"hint\": \"none\"\n    },\n    {\n      \"value\": \"C\",\n      \"hidden\": true,\n      \"required\": false,\n      \"repeated\": true,\n      \"strict\": true\n    }\n  ]\n}\n",
    ),
    (
        "name = 'app'\ncommand_required = false\n[[group]]\ntitle = 'G'\n[[group.command]]\nname = 'x'\nshort = 'y'\naliases = ['z']\nhelp = 'H'\nhidden = true\nabout = 'A'\n[[command]]\nname = 'b'\n[[command.command]]\nname = 'c'\n[[topic]]\ntitle = 'T'\ntext = '\"\\'\n",
        "{\n  \"name\": \"app\",\n  \"command_required\": false,\n  \"group\": [\n    {\n      \"title\": \"G\",\n      \"command\": [\n        {\n          \"name\": \"x\",\n          \"short\": \"y\",\n          \"help\": \"H\",\n          \"hidden\": true,\n          \"aliases\": [\n            \"z\"\n          ],\n          \"about\": \"A\"\n        }\n      ]\n    }\n  ],\n  \"command\": [\n    {\n      \"name\": \"b\",\n      \"command\": [\n        {\n          \"name\": \"c\"\n        }\n      ]\n    }\n  ],\n  \"topic\": [\n    {\n      \"title\": \"T\",\n      \"text\": \"\\\"\\\\\"\n    }\n  ]\n}\n",
    ),
];

// Whether the description that a table gives is written so.
fn is_written(alloc: Global, table: &Table, want: &str) -> bool {
    let mut names = Names::new(alloc);
    let Ok(description) = description_from_table(alloc, &mut names, table) else {
        return false;
    };
    match json_text(alloc, &description) {
        Ok(text) => text.as_str() == want,
        Err(AllocError) => false,
    }
}

#[test]
fn descriptions_are_written_in_json(rt: HostRuntime) {
    for &(toml, json) in ROWS {
        let table = toml::table_from_str(rt.alloc(), toml)
            .ok()
            .expect(&rt, "a table");
        assert!(rt; is_written(rt.alloc(), &table, json), "{toml}");
    }
}

#[test]
fn what_is_written_is_read_as_the_same(rt: HostRuntime) {
    for &(_, json) in ROWS {
        let table = table_from_str(rt.alloc(), json).ok().expect(&rt, "a table");
        assert!(rt; is_written(rt.alloc(), &table, json), "{json}");
    }
}

// Whether a call with that much memory gives the text. None if a growth is refused.
fn with_budget(alloc: Global, table: &Table, budget: usize, want: &str) -> Option<bool> {
    let mut names = Names::new(alloc);
    let Ok(description) = description_from_table(alloc, &mut names, table) else {
        return Some(false);
    };
    let heap = LocalHeap::new(alloc, budget).ok()?;
    match json_text(&heap, &description) {
        Ok(text) => Some(text.as_str() == want),
        Err(AllocError) => None,
    }
}

// Whether some budget is refused, and with the first that is not the text is the one that is wanted.
fn is_written_with_more(alloc: Global, table: &Table, want: &str) -> bool {
    for budget in 0..16384usize {
        if let Some(is_that) = with_budget(alloc, table, budget, want) {
            return is_that && budget > 0;
        }
    }
    false
}

#[test]
fn a_refused_growth_gives_no_text(rt: HostRuntime) {
    for &(toml, json) in ROWS {
        let table = toml::table_from_str(rt.alloc(), toml)
            .ok()
            .expect(&rt, "a table");
        assert!(rt; is_written_with_more(rt.alloc(), &table, json), "{toml}");
    }
}
