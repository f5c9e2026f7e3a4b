//! What the keys of tables say, read into a level and its fixed words.
use crate::forms::Form;
use crate::reading::Row;

pub const LEVEL_ROWS: &[Row<'static>] = &[
    // The defaults.
    (
        "name = 'a'\n",
        Form::Level,
        "Level { about: None, header: None, footer: None, usage: None, command_required: true, options: [], choices: [], groups: [], positionals: [], commands: [], topics: [] }",
    ),
    // Each text, and a topic.
    (
        "name = 'a'\nabout = 'A'\nheader = 'H'\nfooter = 'F'\nusage = 'U'\ncommand_required = false\n[[topic]]\ntitle = 'T'\ntext = 'Text'\n",
        Form::Level,
        "Level { about: Some(\"A\"), header: Some(\"H\"), footer: Some(\"F\"), usage: Some(\"U\"), command_required: false, options: [], choices: [], groups: [], positionals: [], commands: [], topics: [Topic { title: \"T\", text: \"Text\" }] }",
    ),
];

pub const OPTION_ROWS: &[Row<'static>] = &[
    // The three forms of names, and a syntax.
    (
        "name = 'a'\n[[option]]\nshort = 'b'\nrequired = true\nrepeated = true\nhidden = true\n[[option]]\nlong = 'color'\nvalue = 'WHEN'\ndefault = 'auto'\nvalues = ['never', 'auto']\nhelp = 'H'\nenv = 'E'\n[[option]]\nsyntax = '-n, --line'\n",
        Form::Level,
        "Level { about: None, header: None, footer: None, usage: None, command_required: true, options: [Opt { spelling: Names(Short('b')), value: None, default: None, values: None, hint: File, help: None, env: None, required: true, repeated: true, hidden: true }, Opt { spelling: Names(Long(\"color\")), value: Some(\"WHEN\"), default: Some(\"auto\"), values: Some(\"never, auto\"), hint: File, help: Some(\"H\"), env: Some(\"E\"), required: false, repeated: false, hidden: false }, Opt { spelling: Syntax(\"-n, --line\"), value: None, default: None, values: None, hint: File, help: None, env: None, required: false, repeated: false, hidden: false }], choices: [], groups: [], positionals: [], commands: [], topics: [] }",
    ),
    (
        "name = 'a'\n[[choice]]\nrequired = true\n[[choice.option]]\nshort = 'd'\nlong = 'dd'\n",
        Form::Level,
        "Level { about: None, header: None, footer: None, usage: None, command_required: true, options: [], choices: [Choice { options: [Opt { spelling: Names(Both('d', \"dd\")), value: None, default: None, values: None, hint: File, help: None, env: None, required: false, repeated: false, hidden: false }], required: true }], groups: [], positionals: [], commands: [], topics: [] }",
    ),
    // What a shell offers.
    (
        "name = 'a'\n[[option]]\nlong = 'f'\nvalue = 'F'\nhint = 'file'\n[[option]]\nlong = 'd'\nvalue = 'D'\nhint = 'folder'\n[[option]]\nsyntax = '-n[N]'\nhint = 'none'\n[[positional]]\nvalue = 'U'\nhint = 'user'\n[[positional]]\nvalue = 'H'\nhint = 'host'\n",
        Form::Level,
        "Level { about: None, header: None, footer: None, usage: None, command_required: true, options: [Opt { spelling: Names(Long(\"f\")), value: Some(\"F\"), default: None, values: None, hint: File, help: None, env: None, required: false, repeated: false, hidden: false }, Opt { spelling: Names(Long(\"d\")), value: Some(\"D\"), default: None, values: None, hint: Folder, help: None, env: None, required: false, repeated: false, hidden: false }, Opt { spelling: Syntax(\"-n[N]\"), value: None, default: None, values: None, hint: Nothing, help: None, env: None, required: false, repeated: false, hidden: false }], choices: [], groups: [], positionals: [Positional { value: \"U\", default: None, values: None, hint: User, help: None, required: true, repeated: false, strict: false, hidden: false }, Positional { value: \"H\", default: None, values: None, hint: Host, help: None, required: true, repeated: false, strict: false, hidden: false }], commands: [], topics: [] }",
    ),
];

pub const VALUE_ROWS: &[Row<'static>] = &[(
    "name = 'a'\n[[positional]]\nvalue = 'F'\ndefault = -4\nhelp = \"Read\\nit\"\n[[positional]]\nvalue = 'G'\nvalues = ['x']\nrepeated = true\nstrict = true\nhidden = true\n",
    Form::Level,
    "Level { about: None, header: None, footer: None, usage: None, command_required: true, options: [], choices: [], groups: [], positionals: [Positional { value: \"F\", default: Some(\"-4\"), values: None, hint: File, help: Some(\"Read\\nit\"), required: false, repeated: false, strict: false, hidden: false }, Positional { value: \"G\", default: None, values: Some(\"x\"), hint: File, help: None, required: true, repeated: true, strict: true, hidden: true }], commands: [], topics: [] }",
)];

pub const COMMAND_ROWS: &[Row<'static>] = &[(
    "name = 'a'\n[[group]]\ntitle = 'G'\n[[group.command]]\nname = 'remove'\nshort = 'r'\naliases = ['rm', 'r']\nhelp = 'H'\nhidden = true\nabout = 'A'\n",
    Form::Level,
    "Level { about: None, header: None, footer: None, usage: None, command_required: true, options: [], choices: [], groups: [Group { title: \"G\", options: [], choices: [], positionals: [], commands: [Command { name: \"remove\", short: Some('r'), aliases: [\"rm\", \"r\"], help: Some(\"H\"), hidden: true, level: Level { about: Some(\"A\"), header: None, footer: None, usage: None, command_required: true, options: [], choices: [], groups: [], positionals: [], commands: [], topics: [] } }] }], positionals: [], commands: [], topics: [] }",
)];

// Each word, some with a colon, which is left out.
const WORDS: &str =
    "name = 'a'\n[words]\nusage = 'Aufruf:'\narguments = 'Argumente'\noptions = 'Optionen'\ncommands = 'Befehle'\ncontents = 'Inhalt'\nnotes = 'Hinweise::'\ndefault = 'Vorgabe'\npossible_values = 'mögliche Werte'\nenv = 'Umgebung'\naliases = 'auch'\ncommand = 'BEFEHL'\nname = 'Name'\nsynopsis = 'Übersicht :'\ndescription = 'Beschreibung'\nsee_also = 'Siehe auch'\n";

pub const WORDS_ROWS: &[Row<'static>] = &[
    (
        WORDS,
        Form::Words,
        "FixedWords { usage: \"Aufruf\", arguments: \"Argumente\", options: \"Optionen\", commands: \"Befehle\", contents: \"Inhalt\", notes: \"Hinweise:\", default: \"Vorgabe\", possible_values: \"mögliche Werte\", env: \"Umgebung\", aliases: \"auch\", command: \"BEFEHL\", name: \"Name\", synopsis: \"Übersicht\", description: \"Beschreibung\", see_also: \"Siehe auch\" }",
    ),
    // What is left out stays English.
    (
        "name = 'a'\n[words]\nnotes = 'Remarks'\n",
        Form::Words,
        "FixedWords { usage: \"Usage\", arguments: \"Arguments\", options: \"Options\", commands: \"Commands\", contents: \"Contents\", notes: \"Remarks\", default: \"default\", possible_values: \"possible values\", env: \"env\", aliases: \"aliases\", command: \"COMMAND\", name: \"Name\", synopsis: \"Synopsis\", description: \"Description\", see_also: \"See also\" }",
    ),
];
