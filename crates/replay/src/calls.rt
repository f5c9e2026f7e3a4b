//! Tables of words, and that of the words of requests.

/// What a request asks for.
#[derive(Clone, Copy)]
pub enum Call {
    AllOfDocument,
    AllOfTree,
    Console,
    Html,
    Markdown,
    Roff,
    Parts,
    FirstLine,
    IsEmpty,
    Chunks,
    RoffCalls,
    Escape,
    Monoid,
    Normal,
    Usage,
    UsageMarkdown,
    UsageParts,
    Check,
    Shorts,
    FirstItem,
    IsCommand,
    IsPositional,
    Items,
    Group,
    Either,
    Matches,
    FirstName,
    ItemsOfType,
    Groups,
    Help,
    HelpParts,
    ApplicationHtml,
    ApplicationMarkdown,
    Sections,
    Manual,
}

/// The words of the requests.
pub static CALLS: [(&str, Call); 35] = [
    ("alldoc", Call::AllOfDocument),
    ("alltree", Call::AllOfTree),
    ("console", Call::Console),
    ("html", Call::Html),
    ("markdown", Call::Markdown),
    ("roff", Call::Roff),
    ("parts", Call::Parts),
    ("firstline", Call::FirstLine),
    ("isempty", Call::IsEmpty),
    ("split", Call::Chunks),
    ("roffops", Call::RoffCalls),
    ("escape", Call::Escape),
    ("monoid", Call::Monoid),
    ("norm", Call::Normal),
    ("usage", Call::Usage),
    ("usagemd", Call::UsageMarkdown),
    ("usageparts", Call::UsageParts),
    ("check", Call::Check),
    ("shorts", Call::Shorts),
    ("first", Call::FirstItem),
    ("iscommand", Call::IsCommand),
    ("ispos", Call::IsPositional),
    ("items", Call::Items),
    ("findgroup", Call::Group),
    ("or2", Call::Either),
    ("matches", Call::Matches),
    ("names", Call::FirstName),
    ("itemsof", Call::ItemsOfType),
    ("groups", Call::Groups),
    ("help", Call::Help),
    ("helpparts", Call::HelpParts),
    ("apphtml", Call::ApplicationHtml),
    ("appmarkdown", Call::ApplicationMarkdown),
    ("sections", Call::Sections),
    ("appman", Call::Manual),
];

/// What a name stands for in a table.
pub fn find<T: Copy>(table: &[(&str, T)], name: &str) -> Option<T> {
    for (known, value) in table {
        if *known == name {
            return Some(*value);
        }
    }
    None
}
