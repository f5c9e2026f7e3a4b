//! Pages in HTML, as texts.

/// What stands in the body of the page of `tide`.
pub const TIDE: &str = "\
<header><h1>tide</h1><p>Keeps snapshots of folders.</p><p>A snapshot holds each file once, however often it was \
saved. How it works is told at <a href=\"https://tide.example/store\">https://tide.example/store</a>\
.</p></header><nav><h2>Contents</h2><ul><li><a href=\"#tide\">tide</a><ul><li><a href=\"#tide:::Options\">\
Options</a></li><li><a href=\"#tide:::Commands\">Commands</a></li><li><a href=\"#tide:::Notes\">\
Notes</a></li><li><a href=\"#tide:save\">save</a><ul><li><a href=\"#tide:save:::Arguments\">Arguments</a>\
</li><li><a href=\"#tide:save:::Options\">Options</a></li><li><a href=\"#tide:save:::Examples\">\
Examples</a></li><li><a href=\"#tide:save:::Exit.20status\">Exit status</a></li></ul></li><li><a href=\"#tide:li\
st\">list</a><ul><li><a href=\"#tide:list:::Options\">Options</a></li></ul></li><li><a href=\"#tide:store\">\
store</a><ul><li><a href=\"#tide:store:::Options\">Options</a></li><li><a href=\"#tide:store:::Commands\">\
Commands</a></li><li><a href=\"#tide:store:make\">make</a><ul><li><a href=\"#tide:store:make:::Options\">\
Options</a></li></ul></li></ul></li></ul></li></ul></nav><main><section id=\"tide\"><h2>tide</h2>\
<h3>Usage</h3><pre>\n\
<code><strong>tide</strong></code> <code>[<strong>-s</strong> <var>FOLDER</var>]</code> <code>[<strong>\
-v</strong>]...</code> <code>[<strong>--color</strong>[=<var>WHEN</var>]]</code> <code><var>COMMAND</var> ...</c\
ode></pre><h3 id=\"tide:::Options\">Options</h3><dl><dt id=\"tide::store\"><a href=\"#tide::store\">\
<code>-s</code>, <code>--store</code>=<var>FOLDER</var></a></dt><dd><p>Where snapshots are kept [env: TIDE_STORE\
] [default: ~/.tide]</p></dd><dt id=\"tide::verbose\"><a href=\"#tide::verbose\"><code>-v</code>\
, <code>--verbose</code></a></dt><dd><p>Say more</p></dd><dt id=\"tide::color\"><a href=\"#tide::color\">\
<code>--color</code>[=<var>WHEN</var>]</a></dt><dd><p>Colour what is printed [default: auto] [possible values: n\
ever, auto, always]</p></dd><dt id=\"tide::help\"><a href=\"#tide::help\"><code>-h</code>, <code>\
--help</code></a></dt><dd><p>Print this page</p></dd></dl><h3 id=\"tide:::Commands\">Commands</h3>\
<dl><dt><a href=\"#tide:save\"><code>save</code></a></dt><dd><p>Save folders</p></dd><dt><a href=\"#tide:list\">\
<code>list</code>, <code>l</code></a></dt><dd><p>List snapshots, the newest first [aliases: ls]</p>\
</dd><dt><a href=\"#tide:store\"><code>store</code></a></dt><dd><p>Work with stores</p></dd></dl>\
<h3 id=\"tide:::Notes\">Notes</h3><p>A store can be read by every version from 1.4 on.</p></section>\
<section id=\"tide:save\"><h2>tide save</h2><p>Saves folders as a new snapshot.</p><p>What is left out:</p>\
<ul><li>what <code>--exclude</code> names;</li><li>sockets, devices, and whatever else holds no bytes of its own\
, even where a folder of them is named.</li></ul><h3>Usage</h3><pre>\n\
<code><strong>tide save</strong></code> <code>[<strong>-x</strong> <var>PATTERN</var>]...</code> <code>\
[<strong>-n</strong> <var>COUNT</var>]</code> <code>[<strong>--fast</strong> | <strong>--thorough</strong>\
]</code> <code><var>FOLDER</var>...</code></pre><h3 id=\"tide:save:::Arguments\">Arguments</h3>\
<dl><dt id=\"tide:save::FOLDER\"><a href=\"#tide:save::FOLDER\"><var>FOLDER</var></a></dt><dd><p>\
What to save</p></dd></dl><h3 id=\"tide:save:::Options\">Options</h3><dl><dt id=\"tide:save::exclude\">\
<a href=\"#tide:save::exclude\"><code>-x</code>, <code>--exclude</code>=<var>PATTERN</var></a></dt>\
<dd><p>Leave out what this pattern names.</p><p>In a pattern <code>*</code> stands for any characters but <code>\
/</code>, as in</p><pre>\n\
<code>*.o\n\
cache/*/tmp</code></pre></dd><dt id=\"tide:save::n\"><a href=\"#tide:save::n\"><code>-n</code> <var>\
COUNT</var></a></dt><dd><p>Keep so many snapshots, and drop older ones</p></dd><dt id=\"tide:save::fast\">\
<a href=\"#tide:save::fast\"><code>--fast</code></a></dt><dd><p>Read only files whose time or size has changed</\
p></dd><dt id=\"tide:save::thorough\"><a href=\"#tide:save::thorough\"><code>--thorough</code></a>\
</dt><dd><p>Read each file</p></dd><dt id=\"tide:save::help\"><a href=\"#tide:save::help\"><code>\
-h</code>, <code>--help</code></a></dt><dd></dd></dl><h3 id=\"tide:save:::Examples\">\
Examples</h3><p>Save two folders, without objects:</p><pre>\n\
<code>$ tide save -x '*.o' src doc\n\
saved 1,204 files</code></pre><p>Each night at three, by <code>crontab(5)</code>:</p><pre>\n\
<code>0 3 * * * tide save --fast /home</code></pre><h3 id=\"tide:save:::Exit.20status\">Exit status</h3>\
<ul><li><code>0</code>: all was saved.</li><li><code>1</code>: some files could not be read.</li>\
</ul></section><section id=\"tide:list\"><h2>tide list</h2><h3>Usage</h3><pre>\n\
<code><strong>tide list</strong></code></pre><h3 id=\"tide:list:::Options\">Options</h3><dl><dt id=\"tide:list::\
help\"><a href=\"#tide:list::help\"><code>-h</code>, <code>--help</code></a></dt><dd>\
</dd></dl></section><section id=\"tide:store\"><h2>tide store</h2><p>Makes and drops stores.</p>\
<h3>Usage</h3><pre>\n\
<code><strong>tide store</strong></code> <code><var>COMMAND</var> ...</code></pre><h3 id=\"tide:store:::Options\"\
>Options</h3><dl><dt id=\"tide:store::help\"><a href=\"#tide:store::help\"><code>-h</code>, <code>\
--help</code></a></dt><dd></dd></dl><h3 id=\"tide:store:::Commands\">Commands</h3>\
<dl><dt><a href=\"#tide:store:make\"><code>make</code></a></dt><dd><p>Make an empty store</p></dd>\
</dl></section><section id=\"tide:store:make\"><h2>tide store make</h2><h3>Usage</h3><pre>\n\
<code><strong>tide store make</strong></code></pre><h3 id=\"tide:store:make:::Options\">Options</h3>\
<dl><dt id=\"tide:store:make::help\"><a href=\"#tide:store:make::help\"><code>-h</code>, <code>\
--help</code></a></dt><dd></dd></dl></section></main><footer><p>tide 2.1, 2026-11-28</p>\
</footer>";

/// The complete page of `greet`.
pub const GREET: &str = "\
<!DOCTYPE html><html lang=\"en\"><head><meta charset=\"utf-8\"><meta name=\"viewport\" content=\"width=device-width\
\"><title>greet</title><style>html{color-scheme:light dark}body{font:1rem/1.5 sans-serif;max-width:50rem;margin:0 a\
uto;padding:1rem;color:#1b1b1b;background:#fff;overflow-wrap:anywhere}h1,h2,h3{line-height:1.25;margin:1.5rem 0 .5r\
em}a{color:#0645ad}p,pre,ul,dl{margin:.5rem 0}ul ul{margin:0}pre,code,dt{font-family:ui-monospace,monospace;font-si\
ze:.875rem}pre{white-space:pre-wrap;padding:.5rem;background:#f2f2f2}pre code{display:inline-block;max-width:100%}n\
av>ul>li>ul{columns:15rem}nav li li{break-inside:avoid}nav a:not([href*=':::']){font-weight:bold}section+section,fo\
oter{margin-top:2rem;border-top:1px solid #949494}dt{margin-top:.5rem}dt a{text-decoration:none}dt a:hover{text-dec\
oration:underline}dd{margin-left:2rem}dd p{margin:.25rem 0}h3:target,dt:target{background:#fff2c2}@media(max-width:\
40rem){dd,ul{margin-left:0;padding-left:0}ul{list-style-position:inside}}@media(prefers-color-scheme:dark){body{col\
or:#e6e6e6;background:#161616}a{color:#8ab4f8}pre{background:#262626}h3:target,dt:target{background:#3d3300}}@medi\
a print{body{max-width:none;color:#000;background:#fff}a{color:#000}pre,h3:target,dt:target{background:none}pre{bor\
der:1px solid #949494;break-inside:avoid}h2,h3,dt{break-after:avoid}}</style></head><body><header><h1>greet</h1><p>\
Greets people.</p></header><nav><h2>Contents</h2><ul><li><a href=\"#greet\">greet</a><ul><li><a href=\"#greet:::Arg\
uments\">Arguments</a></li><li><a href=\"#greet:::Options\">Options</a></li></ul></li></ul></nav><main><section id=\
\"greet\"><h3>Usage</h3><pre>\n\
<code><strong>greet</strong></code> <code>[<strong>-l</strong>]</code> <code><var>NAME</var>...</code></pre><h3 id=\
\"greet:::Arguments\">Arguments</h3><dl><dt id=\"greet::NAME\"><a href=\"#greet::NAME\"><var>NAME</var></a></dt><dd\
><p>Whom to greet</p></dd></dl><h3 id=\"greet:::Options\">Options</h3><dl><dt id=\"greet::loud\"><a href=\"#greet::\
loud\"><code>-l</code>, <code>--loud</code></a></dt><dd><p>In capital letters</p></dd></dl></section></main></body>\
</html>";
