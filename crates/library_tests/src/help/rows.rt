//! What is made of trees with ample memory.
use crate::help::calls::list_of;
use crate::help::pages_calls::{PageCall, gathered, text_of};
use crate::help::trees::{info, path, tree};
use bpaf_doc::buffer::Doc;
use bpaf_help::meta::Meta;
use bpaf_help::meta_help::{EnvTexts, Info, render_help, write_help_item_groups};
use std::alloc::Global;
use std::process::Abort;

/// What is made of a tree, as a text.
#[derive(Clone, Copy)]
pub enum Form {
    Tree,
    /// The entries of its list.
    List,
    /// How many sections there are, and the paths of the first and the last.
    Sections,
    /// Its page on a console.
    Help,
    /// Its groups there, where this name of an environment variable has the text `"7"`, quotes included. The empty name
    /// has none.
    Groups(&'static str),
    Page(PageCall),
}

/// A form, a tree, a description, and what is made of them; where it ends with `…`, only its beginning.
pub type Row<'a> = (Form, &'a str, &'a str, &'a str);

fn debug_text(rt: &impl Abort, out: Global, form: Form, tree: &Meta) -> String {
    let list = list_of(rt, out, tree);
    let text = match form {
        Form::List => format!(in out; "{list:?}"),
        _ => format!(in out; "{tree:?}"),
    };
    drop(list);
    text.expect(rt, "a text")
}

fn sections(rt: &impl Abort, out: Global, tree: &Meta, info: &Info) -> String {
    let mut path = path(rt, out);
    let sections = gathered(out, &mut path, tree, info).expect(rt, "sections");
    drop(path);
    let text = match sections.as_slice() {
        [first, .., last] => {
            format!(in out; "{} {:?} {:?}", sections.len(), first.path, last.path)
        }
        _ => Ok(String::new(out)),
    };
    drop(sections);
    text.expect(rt, "a text")
}

fn help(rt: &impl Abort, out: Global, tree: &Meta, info: &Info) -> Doc {
    let path = path(rt, out);
    let texts = EnvTexts::new(out);
    let page = render_help(out, &path, info, tree, &Meta::Skip, true, &texts).ok();
    drop(texts);
    drop(path);
    page.expect(rt, "a page")
}

fn groups(rt: &impl Abort, out: Global, tree: &Meta, name: &str) -> Doc {
    let mut texts = EnvTexts::new(out);
    if !name.is_empty() {
        texts.insert(name, "\"7\"").expect(rt, "a text");
    }
    let mut doc = Doc::new(out);
    let list = list_of(rt, out, tree);
    write_help_item_groups(&mut doc, list, true, &texts).expect(rt, "a page");
    drop(texts);
    doc
}

fn on_console(rt: &impl Abort, out: Global, doc: Doc) -> String {
    let page = doc.monochrome(out, true).expect(rt, "a page");
    drop(doc);
    page
}

/// What is made of a tree.
pub fn made<'m>(
    rt: &impl Abort,
    out: Global,
    form: Form,
    tree: &'m Meta,
    info: &'m Info,
) -> String {
    match form {
        Form::Tree | Form::List => debug_text(rt, out, form, tree),
        Form::Sections => sections(rt, out, tree, info),
        Form::Help => on_console(rt, out, help(rt, out, tree, info)),
        Form::Groups(name) => on_console(rt, out, groups(rt, out, tree, name)),
        Form::Page(call) => text_of(out, tree, info, call).ok().expect(rt, "a page"),
    }
}

fn fits(text: &str, want: &str) -> bool {
    match want.strip_suffix('…') {
        Some(front) => text.starts_with(front),
        None => text == want,
    }
}

/// Whether that is made of the tree of a row which should.
pub fn is_made(rt: &impl Abort, out: Global, &(form, text, description, want): &Row<'_>) -> bool {
    let tree = tree(rt, out, text);
    let info = info(rt, out, [description, "", "", ""]);
    let made = made(rt, out, form, &tree, &info);
    drop(info);
    drop(tree);
    let is_that = fits(&made, want);
    drop(made);
    is_that
}

const ROWS: &[Row<'static>] = &[
    // Console pages.
    (
        Form::Help,
        "XC&#",
        "",
        "Usage: app X COMMAND ...\n\nG\n    X  h\n",
    ),
    (
        Form::Help,
        "xP&@",
        "",
        "Usage: app --x P\n\nAvailable options:\n  --x P\n        --x  X it\n",
    ),
    (Form::Help, "a%", "", "Usage: app -a\n\nExtra\n    -a  A\n"),
    (
        Form::Help,
        "a~",
        "",
        "Usage: app -a\n\nAvailable options:\n    -a  A\n        S\n",
    ),
    (
        Form::Help,
        "a~!",
        "",
        "Usage: app -a\n\nAvailable options:\n    -a  A\n        S\n",
    ),
    (
        Form::Help,
        "v",
        "Prints things",
        "Prints things\n\nUsage: app -v\n\nAvailable options:\n    -v, --verbose  Talk more\n",
    ),
    (
        Form::Help,
        "ef&",
        "",
        "Usage: app -e -e\n\nAvailable options:\n    -e  E\n        [env:V: not set]\n",
    ),
    // Groups with texts of environment variables.
    (
        Form::Groups("U"),
        "e",
        "",
        "Available options:\n    -e  E\n        [env:V: not set]\n",
    ),
    (
        Form::Groups("V"),
        "e",
        "",
        "Available options:\n    -e  E\n        [env:V: set]\n",
    ),
    (
        Form::Groups("V"),
        "A",
        "",
        "Available options:\n        --n=N  N it\n               [env:V = \"7\"]\n",
    ),
    (
        Form::Groups("U"),
        "A",
        "",
        "Available options:\n        --n=N  N it\n               [env:V: N/A]\n",
    ),
    // Pages of applications.
    (
        Form::Page(PageCall::Html),
        "v",
        "Prints things",
        "# app<br>\n<p>Prints things</p><p><b>Usage</b>: <tt><b>app</b></tt> <tt><b>-v</b></tt></p><p><div>\n<b>Available options:</b></div><dl><dt><tt><b>-v</b></tt>, <tt><b>--verbose</b></tt></dt>\n<dd>Talk more</dd>\n</dl>\n</p>",
    ),
    (
        Form::Page(PageCall::Markdown),
        "v",
        "Prints things",
        "# app\n\nPrints things\n\n**Usage**: **`app`** **`-v`**\n\n**Available options:**\n- **`-v`**, **`--verbose`** &mdash; \n  Talk more\n\n\n",
    ),
    (
        Form::Page(PageCall::Manual),
        "v",
        "Prints things",
        ".ie \\n(.g .ds Aq \\(aq\n.el .ds Aq '\n.TH app 1 - - \"\"\n.SH NAME\n\\fRapp \\- \\fP\\fRPrints things\\fP\n.SH SYNOPSIS\n\\fBapp\\fP\\fR \\fP\\fB\\-v\\fP\n.PP\n.SS AVAILABLE\\ OPTIONS:\n.TP\n\\fB\\-v\\fP\\fR, \\fP\\fB\\-\\-verbose\\fP\n\\fRTalk more\\fP\n.PP\n",
    ),
    (
        Form::Page(PageCall::Manual),
        "0",
        "",
        ".ie \\n(.g .ds Aq \\(aq\n.el .ds Aq '\n.TH app 1 - - \"\"\n.PP\n.SH SYNOPSIS\n.nf\n\\fBapp\\fP\\fR \\fP\\fICOMMAND ...\\fP\\fR\n\\fP\\fBapp\\fP\\fR \\fP\\fBrun\\fP\\fR \\fP\\fR\n\\fP\n.fi\n.SH APP\\ \n.SH SYNOPSIS\n\\fBapp\\fP\\fR \\fP\\fICOMMAND ...\\fP\n.PP\n.SS AVAILABLE\\ COMMANDS:\n.TP\n\\fBrun\\fP\n.SH APP\\ RUN\\ \n.SH SYNOPSIS\n\\fBapp\\fP\\fR \\fP\\fBrun\\fP\\fR \\fP",
    ),
    (
        Form::Page(PageCall::Html),
        "0",
        "",
        "<p><br>\n# Command summary<br>\n</p><li>* [`app`\u{21b4}](#app)</li>\n<li>* [`app run`\u{21b4}](#app-run)</li>\n<br>\n# app<br>\n…",
    ),
    // What is not derived.
    (
        Form::Tree,
        ".?^@+-",
        "",
        "Strict(Many(Adjacent(Required(Optional(Skip)))))",
    ),
    (
        Form::Tree,
        "..&..|&",
        "",
        "And([And([Skip, Skip]), Or([Skip, Skip])])",
    ),
    (
        Form::List,
        "X",
        "",
        r#"[Positional { metavar: Metavar("X"), help: Some([Text("h", Text)]) }]"#,
    ),
];

// A page of nothing but the title.
fn default_shows(rt: &impl Abort, out: Global, want: &str) -> bool {
    let info: Info = Info::default();
    let page = made(rt, out, Form::Page(PageCall::Markdown), &Meta::Skip, &info);
    drop(info);
    let is_that = page.as_str() == want;
    drop(page);
    is_that
}

#[test]
fn trees_have_their_pages(rt: HostRuntime) {
    for row in ROWS {
        assert!(rt; is_made(&rt, rt.alloc(), row), "{} {}", row.1, row.3);
    }
    // An info without texts is the default.
    assert!(rt; default_shows(&rt, rt.alloc(), "# app\n\n**Usage**: **`app`** \n"));
}

// What is made of many commands.
const MANY: &[(Form, &str)] = &[
    (
        Form::Page(PageCall::Html),
        "<p><br>\n# Command summary<br>\n</p><li>* [`app`\u{21b4}](#app)</li>\n<li>* [`app run`\u{21b4}](#app-run)</li>\n<li>* [`app run run`\u{21b4}](#app-run-run)</li>\n…",
    ),
    (
        Form::Page(PageCall::Markdown),
        "\n\n\n# Command summary\n\n  * [`app`\u{21b4}](#app)\n  * [`app run`\u{21b4}](#app-run)\n…",
    ),
    (
        Form::Page(PageCall::Manual),
        ".ie \\n(.g .ds Aq \\(aq\n.el .ds Aq '\n.TH app 1 - - \"\"\n.PP\n.SH SYNOPSIS\n.nf\n\\fBapp\\fP\\fR \\fP\\fICOMMAND ...\\fP\\fR\n\\fP\\fBapp\\fP\\fR \\fP\\fBrun\\fP…",
    ),
    (
        Form::Sections,
        r#"201 ["app"] ["app", "help", "list", "show"]"#,
    ),
];

// The text of 200 commands on three levels: 8 over 4 over 5.
fn many_commands(rt: &impl Abort, out: Global) -> String {
    let lower = "L0L1|L2|L3|";
    let lower = lower
        .replace(out, 'L', "v0v1|v2|v3|v4|")
        .expect(rt, "a text");
    let upper = "U0U1|U2|U3|U4|U5|U6|U7|";
    let text = upper.replace(out, 'U', &lower).expect(rt, "a text");
    drop(lower);
    text
}

#[test]
fn many_commands_have_their_pages(rt: HostRuntime) {
    let text = many_commands(&rt, rt.alloc());
    for &(form, want) in MANY {
        assert!(rt;
            is_made(&rt, rt.alloc(), &(form, text.as_str(), "", want)),
            "{want}"
        );
    }
    drop(text);
}
