//! Rows: descriptions after a head, each with its hints.
use crate::reading::Row;

/// What is not said, of options and commands that are shown.
pub const NOTHING_SAID: &[Row<'static>] = &[
    ("name = 'a'\n", "- no about says what the program does\n"),
    (
        "name = 'a'\nabout = \"\"\"\n\n```\n```\n\"\"\"\n",
        "- no about says what the program does\n",
    ),
    (
        "name = 'a'\nabout = 'A'\n[[option]]\nlong = 'x'\n[[option]]\nlong = 'y'\nhelp = ' '\n[[option]]\nlong = 'z'\nhelp = 'Z'\n[[option]]\nlong = 'h'\nhidden = true\n",
        "option 0 - no help says what the option does\noption 1 - no help says what the option does\n",
    ),
    (
        "name = 'a'\nabout = 'A'\n[[command]]\nname = 'x'\n[[command]]\nname = 'y'\nhelp = 'Y'\n[[command]]\nname = 'z'\nabout = 'Z'\n[[command]]\nname = 'h'\nhidden = true\n",
        "command 0 - neither help nor about says what the command does\n",
    ),
    // A positional value needs no help, and what stands below a hidden command has pages.
    (
        "name = 'a'\nabout = 'A'\n[[positional]]\nvalue = 'P'\n[[command]]\nname = 'h'\nhidden = true\n[[command.option]]\nshort = 'x'\n",
        "command 0 option 0 - no help says what the option does\n",
    ),
];

/// The first paragraph of the help of a command, otherwise of what is said about it.
pub const SUMMARIES: &[Row<'static>] = &[
    // Of 80 columns, and of 81.
    (
        "name = 'a'\nabout = '12345678901234567890123456789012345678901234567890123456789012345678901234567890'\n",
        "",
    ),
    (
        "name = 'a'\nabout = '123456789012345678901234567890123456789012345678901234567890123456789012345678901'\n",
        "about - the first paragraph is the summary, and has 81 columns, over 80\n",
    ),
    // Lines are joined, and wide letters take two columns.
    (
        "name = 'a'\nabout = \"\"\"\n漢漢漢漢漢漢漢漢漢漢漢漢漢漢漢漢漢漢漢漢\n漢漢漢漢漢漢漢漢漢漢漢漢漢漢漢漢漢漢漢漢\n\nMore\"\"\"\n",
        "about - the first paragraph is the summary, and has 81 columns, over 80\n",
    ),
    (
        "name = 'a'\nabout = 'It copies. It moves.'\n",
        "about - the first paragraph is the summary, and has more than one sentence\n",
    ),
    (
        "name = 'a'\nabout = \"\"\"\nIt copies.\n\nIt moves. It goes.\"\"\"\n",
        "",
    ),
    (
        "name = 'a'\nabout = 'Of e.g. Linux, version 2. X and so on. all of it.Yes'\n",
        "",
    ),
    // The help of a command comes first, and a list is not a paragraph.
    (
        "name = 'a'\nabout = 'A'\n[[command]]\nname = 'x'\nhelp = 'It copies. It moves.'\nabout = 'Two again. It is so'\n[[command]]\nname = 'y'\nhelp = '- It copies. It moves.'\nabout = 'This one. It is so'\n",
        "command 0 help - the first paragraph is the summary, and has more than one sentence\ncommand 1 about - the first paragraph is the summary, and has more than one sentence\n",
    ),
];

/// Links, in each kind of block.
pub const LINKS: &[Row<'static>] = &[
    (
        "name = 'a'\nabout = 'See <http://a.b> and <https://a.b>, not http://a.b'\nheader = '- <http://c.d/e>'\nfooter = '    <http://c.d>'\n",
        "about - the link http://a.b is not https\nheader - the link http://c.d/e is not https\n",
    ),
    (
        "name = 'a'\nabout = '<http://localhost:80/> <http://127.0.0.1/>'\n",
        "",
    ),
];

/// Literals that look like an option.
pub const LITERALS: &[Row<'static>] = &[
    (
        "name = 'a'\nabout = '`--nope`, `-y`, `--nope=1`, `--Long`'\n[[option]]\nshort = 'x'\nlong = 'long'\nhelp = 'X'\n",
        "about - no option is called --nope\nabout - no option is called -y\nabout - no option is called --nope=1\nabout - no option is called --Long\n",
    ),
    // Those of all levels are known, hidden ones and those that ask for help too, and what a syntax has.
    (
        "name = 'a'\nabout = '`-x`, `--long=1`, `--help`, `--below`, `--hid`, `-s`, `--many`, `--edit`, `--no-edit`, `--no-long`'\n[[help_option]]\nlong = 'help'\nhelp = 'H'\n[[option]]\nshort = 'x'\nlong = 'long'\nhelp = 'X'\n[[option]]\nsyntax = '-s, --many=[N]'\nhelp = 'S'\n[[option]]\nsyntax = '--[no-]edit'\nhelp = 'E'\n[[option]]\nlong = 'hid'\nhidden = true\n[[command]]\nname = 'c'\nhelp = 'C'\n[[command.option]]\nlong = 'below'\nhelp = 'B'\n",
        "",
    ),
    // No option alone.
    (
        "name = 'a'\nabout = '`ls -l`, `-1`, `-`, `--`, `-ab`, `---x`, `--1`, `--x y`, `a --x`, -y'\n",
        "",
    ),
];

/// Names in a text that stands in place of a usage.
pub const USAGES: &[Row<'static>] = &[
    (
        "name = 'a'\nabout = 'A'\nusage = \"\"\"\nUsage: a [-x] [--nope] FILE\na --long=V --help --no-long [-z]... (-g | --one) --hid\"\"\"\n[[help_option]]\nlong = 'help'\nhelp = 'H'\n[[option]]\nshort = 'x'\nlong = 'long'\nhelp = 'X'\n[[option]]\nlong = 'hid'\nhidden = true\n[[choice]]\n[[choice.option]]\nlong = 'one'\nhelp = 'O'\n[[group]]\ntitle = 'G'\n[[group.option]]\nshort = 'g'\nhelp = 'G'\n",
        "usage - no option here is called --nope\nusage - no option here is called -z\n",
    ),
    // An option of the level above, or of one below, is not one of the level. What stands for the names is ignored.
    (
        "name = 'a'\nabout = 'A'\nusage = '-n -y'\n[[option]]\nshort = 'x'\nhelp = 'X'\n[[command]]\nname = 'c'\nhelp = 'C'\nusage = 'a [-x] c [-y]'\n[[command.option]]\nshort = 'y'\nhelp = 'Y'\n",
        "usage - no option here is called -y\ncommand 0 usage - no option here is called -x\n",
    ),
    // The fixed word before a form, a value and letters that are not an option.
    (
        "name = 'a'\nabout = 'A'\nusage = 'Nutzung: -n FILE -abc -1 - -- FILE'\n[words]\nusage = 'Nutzung'\n",
        "",
    ),
];

/// Options that take many columns of a usage.
pub const WIDTHS: &[Row<'static>] = &[
    // Of 60 columns, and of 61: in brackets, and repeated.
    (
        "name = 'a'\nabout = 'A'\n[[option]]\nlong = 'abcdefghi-abcdefghi-abcdefghi-abcdefghi-abcdefghi-abcd'\nvalue = 'V'\nhelp = 'X'\n",
        "",
    ),
    (
        "name = 'a'\nabout = 'A'\n[[option]]\nlong = 'abcdefghi-abcdefghi-abcdefghi-abcdefghi-abcdefghi-abcde'\nvalue = 'V'\nhelp = 'X'\n",
        "option 0 - as an item of a usage it has 61 columns, over 60\n",
    ),
    (
        "name = 'a'\nabout = 'A'\n[[group]]\ntitle = 'G'\n[[group.option]]\nlong = 'abcdefghi-abcdefghi-abcdefghi-abcdefghi-abcdefghi-abcd'\nvalue = 'V'\nrepeated = true\n",
        "group 0 option 0 - no help says what the option does\ngroup 0 option 0 - as an item of a usage it has 63 columns, over 60\n",
    ),
    // By its short name, where it has one, and required.
    (
        "name = 'a'\nabout = 'A'\n[[option]]\nshort = 's'\nlong = 'abcdefghi-abcdefghi-abcdefghi-abcdefghi-abcdefghi-abcde'\nvalue = 'V'\nhelp = 'X'\n[[option]]\nlong = 'abcdefghi-abcdefghi-abcdefghi-abcdefghi-abcdefghi-abcder'\nrequired = true\nhelp = 'X'\n[[choice]]\n[[choice.option]]\nlong = 'abcdefghi-abcdefghi-abcdefghi-abcdefghi-abcdefghi-abcdee'\nvalue = 'V'\nhelp = 'X'\n",
        "choice 0 option 0 - as an item of a usage it has 62 columns, over 60\n",
    ),
    // Nothing about an option that no usage shows.
    (
        "name = 'a'\nabout = 'A'\n[[help_option]]\nlong = 'abcdefghi-abcdefghi-abcdefghi-abcdefghi-abcdefghi-abcde'\nvalue = 'V'\nhelp = 'X'\n[[option]]\nlong = 'abcdefghi-abcdefghi-abcdefghi-abcdefghi-abcdefghi-abcdef'\nvalue = 'V'\nhidden = true\n[[command]]\nname = 'c'\nhelp = 'C'\nusage = 'c'\n[[command.option]]\nlong = 'abcdefghi-abcdefghi-abcdefghi-abcdefghi-abcdefghi-abcdeg'\nvalue = 'V'\nhelp = 'X'\n",
        "",
    ),
];

/// Options of one name on several levels.
pub const HELPS: &[Row<'static>] = &[
    (
        "name = 'a'\nabout = 'A'\n[[option]]\nshort = 'x'\nlong = 'long'\nhelp = 'One'\n[[command]]\nname = 'c'\nhelp = 'C'\n[[command.option]]\nlong = 'long'\nvalue = 'V'\nhelp = 'Two'\n[[command]]\nname = 'd'\nhelp = 'D'\n[[command.option]]\nshort = 'y'\nlong = 'long'\nhelp = 'One'\n[[command]]\nname = 'e'\nhelp = 'E'\n[[command.option]]\nlong = 'long'\nhelp = 'Two'\n",
        "command 0 option 0 - --long has a different help beside option 0 \ncommand 2 option 0 - --long has a different help beside option 0 \n",
    ),
    // By a short name alone, and by a syntax.
    (
        "name = 'a'\nabout = 'A'\n[[option]]\nshort = 'x'\nhelp = 'One'\n[[option]]\nsyntax = '--s[=V]'\nhelp = 'One'\n[[command]]\nname = 'c'\nhelp = 'C'\n[[command.option]]\nshort = 'x'\nhelp = 'Two'\n[[command.choice]]\n[[command.choice.option]]\nsyntax = '--s[=V]'\nhelp = 'Two'\n",
        "command 0 option 0 - -x has a different help beside option 0 \ncommand 0 choice 0 option 0 - --s[=V] has a different help beside option 1 \n",
    ),
    // A hidden one, one without a help and one of another name say nothing; those that ask for help do.
    (
        "name = 'a'\nabout = 'A'\n[[help_option]]\nlong = 'help'\nhelp = 'H'\n[[option]]\nlong = 'x'\nhelp = 'One'\nhidden = true\n[[option]]\nshort = 'y'\nhelp = 'One'\n[[command]]\nname = 'c'\nhelp = 'C'\n[[command.option]]\nlong = 'x'\nhelp = 'Two'\n[[command.option]]\nlong = 'y'\nhelp = 'Two'\n[[command.option]]\nshort = 'y'\n[[command.option]]\nlong = 'help'\nhelp = 'I'\n",
        "command 0 option 2 - no help says what the option does\ncommand 0 option 3 - a help option is called --help too\ncommand 0 option 3 - --help has a different help beside help_option 0 \n",
    ),
];

/// Names that an option shares with one that asks for help.
pub const HELP_NAMES: &[Row<'static>] = &[
    // The first name alone, on each level, in a choice, in a group, and beside a text in place of a usage.
    (
        "name = 'a'\nabout = 'A'\n[[help_option]]\nshort = 'h'\nlong = 'help'\nhelp = 'H'\n[[option]]\nshort = 'h'\nlong = 'human'\nvalue = 'N'\nhelp = 'X'\n[[choice]]\n[[choice.option]]\nlong = 'help'\nhelp = 'H'\n[[command]]\nname = 'c'\nhelp = 'C'\nusage = 'c'\n[[command.group]]\ntitle = 'G'\n[[command.group.option]]\nshort = 'h'\nlong = 'help'\nhelp = 'H'\n",
        "option 0 - a help option is called -h too\nchoice 0 option 0 - a help option is called --help too\ncommand 0 group 0 option 0 - a help option is called -h too\n",
    ),
    // A hidden option, `--h` beside `-h`, and a syntax share no name.
    (
        "name = 'a'\nabout = 'A'\n[[help_option]]\nshort = 'h'\nhelp = 'H'\n[[help_option]]\nsyntax = '--help[=ALL]'\nhelp = 'H'\n[[option]]\nlong = 'h'\nhelp = 'X'\n[[option]]\nlong = 'help'\nhelp = 'X'\n[[command]]\nname = 'c'\nhelp = 'C'\n[[command.option]]\nshort = 'h'\nhidden = true\n[[command]]\nname = 'd'\nhelp = 'D'\n[[command.option]]\nsyntax = '-h[=N]'\nhelp = 'X'\n",
        "",
    ),
];

/// Brackets and dots that pages set by themselves, and those of names.
pub const MARKS: &[Row<'static>] = &[
    (
        "name = 'a'\nabout = 'A'\n[[help_option]]\nlong = 'help'\nvalue = '[T]'\nhelp = 'H'\n[[option]]\nshort = 'x'\nlong = '[no-]x'\nvalue = '<V>'\nhelp = 'X'\n[[positional]]\nvalue = 'FILE...'\n[[group]]\ntitle = 'G'\n[[group.positional]]\nvalue = '[P]...'\n",
        "help_option 0 value - [T] needs no brackets or dots: pages set them, by required and repeated\noption 0 long - the name [no-]x has a bracket; write it as syntax\noption 0 value - <V> needs no brackets or dots: pages set them, by required and repeated\ngroup 0 positional 0 value - [P]... needs no brackets or dots: pages set them, by required and repeated\npositional 0 value - FILE... needs no brackets or dots: pages set them, by required and repeated\n",
    ),
    // Those of a part of the word, of a list, of a syntax, and of what is hidden.
    (
        "name = 'a'\nabout = 'A'\n[[option]]\nlong = 'x'\nvalue = 'HOST[:PORT]'\nhelp = 'X'\n[[option]]\nlong = 'y'\nvalue = '[USER@]HOST[:PORT]'\nhelp = 'X'\n[[option]]\nlong = 'z'\nvalue = 'A,B,...'\nhelp = 'X'\n[[option]]\nsyntax = '--[no-]s=[V]'\nhelp = 'X'\n[[option]]\nlong = '[h]'\nvalue = '[V]'\nhidden = true\n[[positional]]\nvalue = '<P>'\nhidden = true\n",
        "",
    ),
];

/// Defaults beside the values that there may be.
pub const DEFAULTS: &[Row<'static>] = &[
    // Of options of each kind, and of a positional value. Case counts, and a part of a value is none.
    (
        "name = 'a'\nabout = 'A'\n[[help_option]]\nlong = 'help'\nvalue = 'T'\ndefault = 'all'\nvalues = ['one', 'two']\nhelp = 'H'\n[[option]]\nshort = 'x'\nvalue = 'V'\ndefault = 'Never'\nvalues = ['never', 'always']\nhelp = 'X'\n[[option]]\nshort = 'w'\nvalue = 'V'\ndefault = 'a,c'\nvalues = ['a', 'b']\nhelp = 'W'\n[[choice]]\n[[choice.option]]\nsyntax = '--y[=V]'\ndefault = 'a, b'\nvalues = ['a', 'b']\nhelp = 'Y'\n[[positional]]\nvalue = 'P'\ndefault = 'alway'\nvalues = ['never', 'always']\n",
        "help_option 0 default - the default all is not one of the values\noption 0 default - the default Never is not one of the values\noption 1 default - the default a,c is not one of the values\nchoice 0 option 0 default - the default a, b is not one of the values\npositional 0 default - the default alway is not one of the values\n",
    ),
    // One of the values, also as a number; some with commas between; one alone; and that of what is hidden.
    (
        "name = 'a'\nabout = 'A'\n[[option]]\nlong = 'x'\nvalue = 'V'\ndefault = 'always'\nvalues = ['never', 'auto', 'always']\nhelp = 'X'\n[[option]]\nlong = 'y'\nvalue = 'N'\ndefault = 2\nvalues = ['1', '2', '3']\nhelp = 'Y'\n[[option]]\nlong = 'u'\nvalue = 'V,...'\ndefault = 'b,a'\nvalues = ['a', 'b', 'c']\nhelp = 'U'\n[[option]]\nlong = 'v'\nvalue = 'V'\ndefault = 'd,e'\nvalues = ['c', 'd,e']\nhelp = 'V'\n[[option]]\nlong = 'z'\nvalue = 'V'\ndefault = 'one'\nhelp = 'Z'\n[[option]]\nlong = 'w'\nvalue = 'V'\nvalues = ['one']\nhelp = 'W'\n[[option]]\nlong = 'h'\nvalue = 'V'\ndefault = 'two'\nvalues = ['one']\nhidden = true\n[[positional]]\nvalue = 'P'\ndefault = 'one'\nvalues = ['one']\n[[positional]]\nvalue = 'H'\ndefault = 'two'\nvalues = ['one']\nhidden = true\n",
        "",
    ),
];

/// Names of files.
pub const FILES: &[Row<'static>] = &[
    // Of hidden commands, and of what is below them, there are no pages.
    (
        "name = 'a'\nabout = 'A'\n[[group]]\ntitle = 'G'\n[[group.command]]\nname = 'd/e'\nhelp = 'D'\n[[command]]\nname = 'b:c'\nhelp = 'B'\n[[command]]\nname = 'B'\nhelp = 'B'\n[[command]]\nname = 'b'\nhelp = 'B'\n[[command.command]]\nname = 'f*'\nhelp = 'F'\n[[command]]\nname = 'g?'\nhidden = true\n[[command.command]]\nname = 'h?'\nhelp = 'H'\n",
        "group 0 command 0 - no file may be called a-d/e.1\ncommand 0 - no file may be called a-b:c.1\ncommand 2 command 0 - no file may be called a-b-f*.1\ncommand 2 - some folders take its page a-b for another\n",
    ),
    // Two ways to one name, and a device.
    (
        "name = 'a'\nabout = 'A'\n[[command]]\nname = 'b-c'\nhelp = 'B'\n[[command]]\nname = 'b'\nhelp = 'B'\n[[command.command]]\nname = 'c'\nhelp = 'C'\n",
        "command 1 command 0 - some folders take its page a-b-c for another\n",
    ),
    (
        "name = 'con'\nabout = 'A'\nsection = '8'\n[[command]]\nname = 'x'\nhelp = 'X'\n",
        "- no file may be called con.8\n- no file may be called con.html\n",
    ),
    // What the ending decides.
    (
        "name = 'index'\nabout = 'A'\n",
        "- no file may be called index.html\n",
    ),
    (
        "name = 'nnnnnnnnnnnnnnnnnnnnnnnnnnnnnnnnnnnnnnnnnnnnnnnnnnnnnnnnnnnnnnnnnnnnnnnnnnnnnnnnnnnnnnnnnnnnnnnnnnnnnnnnnnnnnnnnnnnnnnnnnnnnnnnnnnnnnnnnnnnnnnnnnnnnnnnnnnnnnnnnnnnnnnnnnnnnnnnnnnnnnnnnnnnnnnnnnnnn'\nabout = 'A'\n",
        "- no file may be called nnnnnnnnnnnnnnnnnnnnnnnnnnnnnnnnnnnnnnnnnnnnnnnnnnnnnnnnnnnn..\n",
    ),
];

/// Texts that are long, or hold what is not seen.
pub const SHOWN: &[Row<'static>] = &[(
    "name = 'a'\nabout = 'A'\nheader = '`--wwwwwwwwwwwwwwwwwwwwwwwwwwwwwwwwwwwwwwwwwwwwwwwwwwwwwwwwwwwww` `--vvvvvvvvvvvvvvvvvvvvvvvvvvvvvvvvvvvvvvvvvvvvvvvvvvvvvvvvvv` `--x=\u{202e}` <http://a.b/pppppppppppppppppppppppppppppppppppppppppppppppppppppppppppp>'\n",
    "header - no option is called --wwwwwwwwwwwwwwwwwwwwwwwwwwwwwwwwwwwwwwwwwwwwwwwwwwwwwwwwww..\nheader - no option is called --vvvvvvvvvvvvvvvvvvvvvvvvvvvvvvvvvvvvvvvvvvvvvvvvvvvvvvvvvv\nheader - no option is called \"--x=\\u{202e}\"\nheader - the link http://a.b/ppppppppppppppppppppppppppppppppppppppppppppppppp.. is not https\n",
)];

/// Ways, and their order.
pub const WAYS: &[Row<'static>] = &[(
    "name = 'a'\nabout = '`-n`'\nheader = '`-n`'\nfooter = '`-n`'\n[[help_option]]\nshort = 'h'\nhelp = '`-n`'\n[[option]]\nshort = 'o'\nhelp = '`-n`'\n[[choice]]\n[[choice.option]]\nshort = 'c'\nhelp = '`-n`'\n[[group]]\ntitle = 'G'\n[[group.option]]\nshort = 'g'\nhelp = '`-n`'\n[[group.choice]]\n[[group.choice.option]]\nshort = 'd'\nhelp = '`-n`'\n[[group.positional]]\nvalue = 'V'\nhelp = '`-n`'\n[[group.command]]\nname = 'e'\nhelp = '`-n`'\n[[positional]]\nvalue = 'P'\nhelp = '`-n`'\n[[command]]\nname = 'f'\nhelp = '`-n`'\nabout = '`-n`'\n[[topic]]\ntitle = 'S'\ntext = 'None'\n[[topic]]\ntitle = 'T'\ntext = '`-n`'\n",
    "help_option 0 help - no option is called -n\nabout - no option is called -n\nheader - no option is called -n\nfooter - no option is called -n\noption 0 help - no option is called -n\nchoice 0 option 0 help - no option is called -n\ngroup 0 option 0 help - no option is called -n\ngroup 0 choice 0 option 0 help - no option is called -n\ngroup 0 positional 0 help - no option is called -n\ngroup 0 command 0 help - no option is called -n\npositional 0 help - no option is called -n\ncommand 0 help - no option is called -n\ncommand 0 about - no option is called -n\ntopic 1 text - no option is called -n\n",
)];
