//! Each page of the programs: in memory, by a whole run, through ends that move a byte at a time or fail, and with each
//! growth refused in turn.

use crate::engines::{
    Asked, moves_bytes, refuses_until_ample, says_failed_reads, says_failed_writes,
};
use crate::programs::answers;
use crate::{clidoc, helpdoc};
use clidoc_engine::words::Shell;
use helpdoc_engine::words::{Choice, Form};
use std::alloc::Global;

// What an engine is asked for, by which words, on what, and the page.
type Row<'p> = (Asked, &'static str, &'static [u8], &'p [u8]);

const HELPDOC: &[Row<'static>] = &[
    (
        Asked::Helpdoc(Choice::Text(Form::Full)),
        "helpdoc|text|full",
        helpdoc::pages::INPUT,
        helpdoc::pages::PAGE,
    ),
    (
        Asked::Helpdoc(Choice::Text(Form::Brief)),
        "helpdoc|text|brief",
        helpdoc::pages::INPUT,
        helpdoc::pages::PAGE,
    ),
    (
        Asked::Helpdoc(Choice::Text(Form::Html)),
        "helpdoc|text|html",
        helpdoc::pages::INPUT,
        b"hello<br>\nworld ",
    ),
    (
        Asked::Helpdoc(Choice::Text(Form::Markdown)),
        "helpdoc|text|markdown",
        helpdoc::pages::INPUT,
        helpdoc::pages::PAGE,
    ),
    (
        Asked::Helpdoc(Choice::Text(Form::Man)),
        "helpdoc|text|man",
        helpdoc::pages::INPUT,
        b".ie \\n(.g .ds Aq \\(aq\n.el .ds Aq '\n.TH helpdoc 1 - - \"\"\n\\fRhello\n world\n\\fP",
    ),
    (
        Asked::Helpdoc(Choice::Sample(Form::Full)),
        "helpdoc|sample|full",
        helpdoc::pages::INPUT,
        helpdoc::pages::SAMPLE,
    ),
    (
        Asked::Helpdoc(Choice::Sample(Form::Brief)),
        "helpdoc|sample|brief",
        helpdoc::pages::INPUT,
        helpdoc::pages::SAMPLE,
    ),
    (
        Asked::Helpdoc(Choice::Sample(Form::Html)),
        "helpdoc|sample|html",
        helpdoc::pages::INPUT,
        b"# app<br>\n<p>Prints things</p><p><b>Usage</b>: <tt><b>app</b></tt> <tt><b>-v</b></tt></p><p><div>\n<b>Available options:</b></div><dl><dt><tt><b>-v</b></tt>, <tt><b>--verbose</b></tt></dt>\n<dd>Talk more</dd>\n</dl>\n</p>",
    ),
    (
        Asked::Helpdoc(Choice::Sample(Form::Markdown)),
        "helpdoc|sample|markdown",
        helpdoc::pages::INPUT,
        b"# app\n\nPrints things\n\n**Usage**: **`app`** **`-v`**\n\n**Available options:**\n- **`-v`**, **`--verbose`** &mdash; \n  Talk more\n\n\n",
    ),
    (
        Asked::Helpdoc(Choice::Sample(Form::Man)),
        "helpdoc|sample|man",
        helpdoc::pages::INPUT,
        b".ie \\n(.g .ds Aq \\(aq\n.el .ds Aq '\n.TH app 1 - - \"\"\n.SH NAME\n\\fRapp \\- \\fP\\fRPrints things\\fP\n.SH SYNOPSIS\n\\fBapp\\fP\\fR \\fP\\fB\\-v\\fP\n.PP\n.SS AVAILABLE\\ OPTIONS:\n.TP\n\\fB\\-v\\fP\\fR, \\fP\\fB\\-\\-verbose\\fP\n\\fRTalk more\\fP\n.PP\n",
    ),
];

const CLIDOC: &[Row<'static>] = &[
    (
        Asked::Clidoc(clidoc::pages::Form::Usage),
        "clidoc|usage",
        clidoc::pages::INPUT,
        b"app -v\n",
    ),
    (
        Asked::Clidoc(clidoc::pages::Form::Full),
        "clidoc|full",
        clidoc::pages::INPUT,
        clidoc::pages::HELP,
    ),
    (
        Asked::Clidoc(clidoc::pages::Form::Brief),
        "clidoc|brief",
        clidoc::pages::INPUT,
        clidoc::pages::HELP,
    ),
    (
        Asked::Clidoc(clidoc::pages::Form::Html),
        "clidoc|html",
        clidoc::pages::INPUT,
        b"<!DOCTYPE html><html lang=\"en\"><head><meta charset=\"utf-8\"><meta name=\"viewport\" content=\"width=device-width\"><title>app</title><style>html{color-scheme:light dark}body{font:1rem/1.5 sans-serif;max-width:50rem;margin:0 auto;padding:1rem;color:#1b1b1b;background:#fff;overflow-wrap:anywhere}h1,h2,h3{line-height:1.25;margin:1.5rem 0 .5rem}a{color:#0645ad}p,pre,ul,dl{margin:.5rem 0}ul ul{margin:0}pre,code,dt{font-family:ui-monospace,monospace;font-size:.875rem}pre{white-space:pre-wrap;padding:.5rem;background:#f2f2f2}pre code{display:inline-block;max-width:100%}nav>ul>li>ul{columns:15rem}nav li li{break-inside:avoid}nav a:not([href*=':::']){font-weight:bold}section+section,footer{margin-top:2rem;border-top:1px solid #949494}dt{margin-top:.5rem}dt a{text-decoration:none}dt a:hover{text-decoration:underline}dd{margin-left:2rem}dd p{margin:.25rem 0}h3:target,dt:target{background:#fff2c2}@media(max-width:40rem){dd,ul{margin-left:0;padding-left:0}ul{list-style-position:inside}}@media(prefers-color-scheme:dark){body{color:#e6e6e6;background:#161616}a{color:#8ab4f8}pre{background:#262626}h3:target,dt:target{background:#3d3300}}@media print{body{max-width:none;color:#000;background:#fff}a{color:#000}pre,h3:target,dt:target{background:none}pre{border:1px solid #949494;break-inside:avoid}h2,h3,dt{break-after:avoid}}</style></head><body><header><h1>app</h1><p>Prints things</p></header><nav><h2>Contents</h2><ul><li><a href=\"#app\">app</a><ul><li><a href=\"#app:::Options\">Options</a></li></ul></li></ul></nav><main><section id=\"app\"><h3>Usage</h3><pre>\n<code><strong>app</strong></code> <code><strong>-v</strong></code></pre><h3 id=\"app:::Options\">Options</h3><dl><dt id=\"app::verbose\"><a href=\"#app::verbose\"><code>-v</code>, <code>--verbose</code></a></dt><dd><p>Talk more</p></dd></dl></section></main></body></html>",
    ),
    (
        Asked::Clidoc(clidoc::pages::Form::Fragment),
        "clidoc|html|--fragment",
        clidoc::pages::INPUT,
        b"<header><h1>app</h1><p>Prints things</p></header><nav><h2>Contents</h2><ul><li><a href=\"#app\">app</a><ul><li><a href=\"#app:::Options\">Options</a></li></ul></li></ul></nav><main><section id=\"app\"><h3>Usage</h3><pre>\n<code><strong>app</strong></code> <code><strong>-v</strong></code></pre><h3 id=\"app:::Options\">Options</h3><dl><dt id=\"app::verbose\"><a href=\"#app::verbose\"><code>-v</code>, <code>--verbose</code></a></dt><dd><p>Talk more</p></dd></dl></section></main>",
    ),
    (
        Asked::Clidoc(clidoc::pages::Form::Markdown),
        "clidoc|markdown",
        clidoc::pages::INPUT,
        b"# app\n\nPrints things\n\n```\napp -v\n```\n\n## Options\n\n- `-v`, `--verbose` \xe2\x80\x94 Talk more\n",
    ),
    (
        Asked::Clidoc(clidoc::pages::Form::Man),
        "clidoc|man",
        clidoc::pages::INPUT,
        b".TH app 1 \"\" \"\" \"\"\n.SH NAME\napp \\- Prints things\n.SH SYNOPSIS\n.SY app\n\\fB\\-v\\fP\n.YS\n.SH OPTIONS\n.TP\n\\fB\\-v\\fP, \\fB\\-\\-verbose\\fP\nTalk more\n",
    ),
];

// The scripts of completions: of which shell, by which words, and a line of the data.
const SCRIPTS: &[(Shell, &str, &str)] = &[
    (
        Shell::Bash,
        "clidoc|complete|bash",
        "    'name' '--verbose' '' ''\n",
    ),
    (
        Shell::Zsh,
        "clidoc|complete|zsh",
        "    'name' '--verbose' '' ''\n",
    ),
    (
        Shell::Fish,
        "clidoc|complete|fish",
        "    'name' '--verbose' '' '' \\\n",
    ),
];

// Whether the page stands in memory.
fn is_page(global: Global, asked: Asked, input: &[u8], page: &[u8]) -> bool {
    match asked {
        Asked::Helpdoc(choice) => helpdoc::pages::has_page(global, choice, input, page),
        Asked::Clidoc(form) => clidoc::pages::has_page(global, form, input, page),
    }
}

// Whether each failed read is reported. The sample reads nothing.
fn says_reads(global: Global, asked: Asked, input: &[u8], page: &[u8]) -> bool {
    matches!(asked, Asked::Helpdoc(Choice::Sample(_)))
        || says_failed_reads(global, asked, input, page)
}

// What does not hold of a page, if anything.
fn fault(global: Global, &(asked, words, input, page): &Row<'_>) -> &'static str {
    if !is_page(global, asked, input, page) {
        "it is another page"
    } else if !answers(global, words, input, 0, (page, "")) {
        "words choose another page"
    } else if !moves_bytes(global, asked, input, page) {
        "it moves by bytes otherwise"
    } else if !says_reads(global, asked, input, page) {
        "a failed read is not said"
    } else if !says_failed_writes(global, asked, input, page) {
        "a failed write is not said"
    } else if !refuses_until_ample(global, asked, input, page) {
        "a refused growth is not said"
    } else {
        ""
    }
}

#[test]
fn pages_of_helpdoc_are_written_or_faults_are_said(rt: HostRuntime) {
    for row in HELPDOC {
        let fault = fault(rt.alloc(), row);
        assert!(rt; fault.is_empty(), "{}: {fault}", row.1);
    }
}

#[test]
fn pages_of_clidoc_are_written_or_faults_are_said(rt: HostRuntime) {
    for row in CLIDOC {
        let fault = fault(rt.alloc(), row);
        assert!(rt; fault.is_empty(), "{}: {fault}", row.1);
    }
}

// What does not hold of a script, if anything.
fn script_fault(global: Global, shell: Shell, words: &'static str, line: &str) -> &'static str {
    let form = clidoc::pages::Form::Completion(shell);
    let input = clidoc::pages::INPUT;
    let Some(script) = clidoc::pages::whole_page(global, form, input) else {
        return "there is none";
    };
    let asked = Asked::Clidoc(form);
    if !str::from_utf8(&script).is_ok_and(|text| text.contains(line)) {
        "its data is another"
    } else if !answers(global, words, input, 0, (&script, "")) {
        "words choose another page"
    } else if !refuses_until_ample(global, asked, input, &script) {
        "a refused growth is not said"
    } else {
        ""
    }
}

#[test]
fn completions_are_written_or_faults_are_said(rt: HostRuntime) {
    for &(shell, words, line) in SCRIPTS {
        let fault = script_fault(rt.alloc(), shell, words, line);
        assert!(rt; fault.is_empty(), "{words}: {fault}");
    }
}
