//! Rows: descriptions, each with a shell and a text of its script.
use crate::reading::Row;
use completions::Shell;

/// Options by their names.
pub const OPTIONS: &[Row<'static>] = &[
    (
        "name = 'a'\n",
        Shell::Bash,
        "__table=(\n    'program' 'a' '' ''\n    'level' '' '' ''\n    'end' '' '' ''\n)\n",
    ),
    (
        "name = 'a'\n[[help_option]]\nshort = 'h'\nlong = 'help'\n[[option]]\nshort = 'x'\nrepeated = true\n[[option]]\nlong = 'out'\nvalue = 'FILE'\n[[option]]\nlong = 'gone'\nhidden = true\n",
        Shell::Zsh,
        "__table=(\n    'program' 'a' '' ''\n    'once' 'flag' 'none' ''\n    'name' '-h' '' ''\n    'name' '--help' '' ''\n    'level' '' '' ''\n    'many' 'flag' 'none' ''\n    'name' '-x' '' ''\n    'once' 'value' 'file' ''\n    'name' '--out' '' ''\n    'end' '' '' ''\n)\n",
    ),
    // What is offered for values without a list.
    (
        "name = 'a'\n[[option]]\nlong = 'f'\nvalue = 'F'\nhint = 'file'\n[[option]]\nlong = 'd'\nvalue = 'D'\nhint = 'folder'\n[[option]]\nsyntax = '-n[N]'\nhint = 'none'\n[[option]]\nsyntax = '-u U'\nhint = 'user'\n[[option]]\nsyntax = '--flag'\nhint = 'host'\n[[positional]]\nvalue = 'H'\nhint = 'host'\n",
        Shell::Bash,
        "    'level' '' '' ''\n    'once' 'value' 'file' ''\n    'name' '--f' '' ''\n    'once' 'value' 'folder' ''\n    'name' '--d' '' ''\n    'once' 'optional' 'none' ''\n    'name' '-n' '' ''\n    'once' 'word' 'user' ''\n    'name' '-u' '' ''\n    'once' 'flag' 'none' ''\n    'name' '--flag' '' ''\n    'place' 'once' 'host' ''\n    'end' '' '' ''\n)\n",
    ),
    // A comma without a blank is part of a value.
    (
        "name = 'a'\n[[option]]\nlong = 'is'\nvalue = 'W'\nvalues = ['very fast', 'a,b', 'c']\n",
        Shell::Bash,
        "    'once' 'value' 'none' ''\n    'name' '--is' '' ''\n    'among' 'very fast' '' ''\n    'among' 'a,b' '' ''\n    'among' 'c' '' ''\n    'end' '' '' ''\n)\n",
    ),
];

/// Options by a syntax.
pub const SYNTAXES: &[Row<'static>] = &[
    (
        "name = 'a'\n[[option]]\nsyntax = '-n, --line, --number'\n[[option]]\nsyntax = '-o FILE, --output=FILE'\n[[option]]\nsyntax = '-c, --color[=WHEN]'\nvalues = ['never']\n[[option]]\nsyntax = '-s, --store=FOLDER'\n",
        Shell::Bash,
        "    'level' '' '' ''\n    'once' 'flag' 'none' ''\n    'name' '-n' '' ''\n    'name' '--line' '' ''\n    'name' '--number' '' ''\n    'once' 'word' 'file' ''\n    'name' '-o' '' ''\n    'name' '--output' '' ''\n    'once' 'optional' 'none' ''\n    'name' '-c' '' ''\n    'name' '--color' '' ''\n    'among' 'never' '' ''\n    'once' 'value' 'file' ''\n    'name' '-s' '' ''\n    'name' '--store' '' ''\n    'end' '' '' ''\n)\n",
    ),
    // Names within brackets do not count, nor do dashes alone.
    (
        "name = 'a'\n[[option]]\nsyntax = '--[no-]edit'\n[[option]]\nsyntax = 'if=FILE'\n[[option]]\nsyntax = '-x|-y [-z, -w] --'\n[[option]]\nsyntax = '--[no-]k=V'\n",
        Shell::Bash,
        "    'level' '' '' ''\n    'once' 'flag' 'none' ''\n    'name' '--edit' '' ''\n    'name' '--no-edit' '' ''\n    'once' 'word' 'file' ''\n    'once' 'optional' 'file' ''\n    'name' '-x' '' ''\n    'name' '-y' '' ''\n    'once' 'value' 'file' ''\n    'name' '--k' '' ''\n    'name' '--no-k' '' ''\n    'end' '' '' ''\n)\n",
    ),
];

/// Choices: the first option that is shown stands for itself.
pub const CHOICES: &[Row<'static>] = &[(
    "name = 'a'\n[[choice]]\n[[choice.option]]\nlong = 'gone'\nhidden = true\n[[choice.option]]\nlong = 'one'\n[[choice.option]]\nlong = 'two'\n[[choice]]\n[[choice.option]]\nlong = 'other'\n",
    Shell::Bash,
    "    'level' '' '' ''\n    'once' 'flag' 'none' ''\n    'name' '--one' '' ''\n    'or' 'flag' 'none' ''\n    'name' '--two' '' ''\n    'once' 'flag' 'none' ''\n    'name' '--other' '' ''\n    'end' '' '' ''\n)\n",
)];

/// Positional values: those of groups come first, and a hidden one keeps its place.
pub const PLACES: &[Row<'static>] = &[
    (
        "name = 'a'\n[[positional]]\nvalue = 'A'\nvalues = ['a', 'b']\n[[positional]]\nvalue = 'B'\nvalues = ['c']\nhidden = true\n[[positional]]\nvalue = 'C'\nrepeated = true\nstrict = true\n[[group]]\ntitle = 'G'\n[[group.positional]]\nvalue = 'D'\n",
        Shell::Bash,
        "    'level' '' '' ''\n    'place' 'once' 'file' ''\n    'place' 'once' 'none' ''\n    'among' 'a' '' ''\n    'among' 'b' '' ''\n    'place' 'once' 'none' ''\n    'strict' 'many' 'file' ''\n    'end' '' '' ''\n)\n",
    ),
    // A usage alone offers files. One with a command, or with a value that is hidden in a group, offers none.
    (
        "name = 'a'\nusage = 'U'\n[[command]]\nname = 'one'\nusage = 'U'\n[[command.option]]\nshort = 'x'\n[[command]]\nname = 'two'\nusage = 'U'\n[[command.group]]\ntitle = 'G'\n[[command.group.positional]]\nvalue = 'D'\nhidden = true\n",
        Shell::Bash,
        "    'level' '' '' ''\n    'command' 'one' '' ''\n    'once' 'flag' 'none' ''\n    'name' '-x' '' ''\n    'place' 'many' 'file' ''\n    'end' '' '' ''\n    'command' 'two' '' ''\n    'place' 'once' 'none' ''\n    'end' '' '' ''\n    'end' '' '' ''\n)\n",
    ),
];

/// Commands, in groups and nested.
pub const COMMANDS: &[Row<'static>] = &[(
    "name = 'a'\n[[option]]\nshort = 'x'\n[[command]]\nname = 'one'\nshort = 'o'\naliases = ['uno', 'un']\nhelp = 'One'\n[[command.command]]\nname = 'deep'\n[[command.command.option]]\nshort = 'y'\n[[command]]\nname = 'gone'\nhidden = true\n[[group]]\ntitle = 'G'\n[[group.command]]\nname = 'two'\n[[group.option]]\nshort = 'z'\n",
    Shell::Zsh,
    "    'level' '' '' ''\n    'once' 'flag' 'none' ''\n    'name' '-z' '' ''\n    'command' 'two' '' ''\n    'end' '' '' ''\n    'once' 'flag' 'none' ''\n    'name' '-x' '' ''\n    'command' 'one' '' 'One'\n    'alias' 'o' '' ''\n    'alias' 'uno' '' ''\n    'alias' 'un' '' ''\n    'command' 'deep' '' ''\n    'once' 'flag' 'none' ''\n    'name' '-y' '' ''\n    'end' '' '' ''\n    'end' '' '' ''\n    'end' '' '' ''\n)\n",
)];

/// The first paragraph of a help; of a command that of its help, otherwise of what is said about it.
pub const HELPS: &[Row<'static>] = &[
    (
        "name = 'a'\n[[option]]\nshort = 'x'\nhelp = \"\"\"\n- a list\n\nOne `two`\n  <https://a.b>\n\nthree\"\"\"\n",
        Shell::Bash,
        "'once' 'flag' 'none' 'One two https://a.b'\n",
    ),
    (
        "name = 'a'\n[[command]]\nname = 'x'\nabout = 'About'\n[[command]]\nname = 'y'\nhelp = 'Help'\nabout = 'About'\n[[command]]\nname = 'z'\nhelp = '- a list'\nabout = 'About'\n",
        Shell::Bash,
        "    'command' 'x' '' 'About'\n    'end' '' '' ''\n    'command' 'y' '' 'Help'\n    'end' '' '' ''\n    'command' 'z' '' 'About'\n",
    ),
];

/// Quotes and backslashes, in each shell.
pub const QUOTES: &[Row<'static>] = &[
    (
        "name = 'a'\n[[option]]\nshort = 'x'\nhelp = \"it's $(x) \\\\ `\"\n",
        Shell::Bash,
        "'none' 'it'\\''s $(x) \\ `'\n",
    ),
    (
        "name = 'a'\n[[option]]\nshort = 'x'\nhelp = \"it's \\\\\"\n",
        Shell::Zsh,
        "'none' 'it'\\''s \\'\n",
    ),
    (
        "name = 'a'\n[[option]]\nshort = 'x'\nhelp = \"it's \\\\\"\n",
        Shell::Fish,
        "__table \\\n    'program' 'a' '' '' \\\n    'level' '' '' '' \\\n    'once' 'flag' 'none' 'it\\'s \\\\' \\\n    'name' '-x' '' '' \\\n    'end' '' '' '' \\\n\n",
    ),
];

/// Names made of that of the program.
pub const NAMES: &[Row<'static>] = &[
    (
        "name = 'a-b_C1'\n",
        Shell::Bash,
        "\ncomplete -F _clidoc_a_2db_5fC1 -- \"${_clidoc_a_2db_5fC1__table[1]}\"\n",
    ),
    ("name = 'a-b_C1.+'\n", Shell::Zsh, "#compdef a-b_C1.+\n# "),
    ("name = 'a$b'\n", Shell::Zsh, "#compdef \n# "),
    (
        "name = 'é'\n",
        Shell::Fish,
        "function _clidoc__c3_a9__load -S\n",
    ),
];

// Each name, help and value that is hidden begins alike.
const SECRET: &str = "name = 'a'
[[option]]
long = 'qq-option'
value = 'V'
values = ['qq-value']
help = 'qq-help'
hidden = true
[[choice]]
[[choice.option]]
long = 'qq-choice'
hidden = true
[[positional]]
value = 'P'
values = ['qq-place']
help = 'qq-help'
hidden = true
[[command]]
name = 'qq-command'
aliases = ['qq-alias']
help = 'qq-help'
hidden = true
[[command.option]]
long = 'qq-below'
";

/// What is hidden stands nowhere.
pub const HIDDEN: &[Row<'static>] = &[
    (SECRET, Shell::Bash, "qq-"),
    (SECRET, Shell::Zsh, "qq-"),
    (SECRET, Shell::Fish, "qq-"),
];

/// What would have a shell read a word of the data a second time, and a place for a name without one: in no program.
pub const EVALUATION: &[Row<'static>] = &[
    (SECRET, Shell::Bash, "eval"),
    (SECRET, Shell::Bash, "compgen -W"),
    (SECRET, Shell::Bash, "`"),
    (SECRET, Shell::Zsh, "eval"),
    (SECRET, Shell::Zsh, "`"),
    (SECRET, Shell::Fish, "eval"),
    (SECRET, Shell::Fish, "complete -a"),
    (SECRET, Shell::Fish, "`"),
];
