//! What the words after the program's name choose.

ghost use Rattle.std.specs.Prelude.{◌≡◌, ◌≢◌, ◌⊎◌, ◌++◌, ◌∷◌, [], IfErr, IfOk, Some, codes, option_to_list};
ghost use Rattle.description.specs.View.{text_of};
ghost use Rattle.command_pages.specs.View.{title_said};
ghost use Rattle.clidoc_engine.specs.Chosen.{choice_said, help_given, page_said, words_said};
ghost use Rattle.help_differences.specs.View.{help_said};
ghost use Rattle.clidoc_engine.specs.Reading.{IsRefused, given_of};
ghost use Rattle.clidoc_engine.specs.Words.{ChoiceSaid, Chooses, ChoosesWork, HasNoLevel, HasNoOption, HasNoTitle};
ghost use Rattle.clidoc_engine.specs.Words.{HasOnlyPageOptions, IsAll, IsCheck, IsColumns, IsComplete, IsDepth, IsExtent};
ghost use Rattle.clidoc_engine.specs.Words.{IsAgainst, IsDraft, IsJson};
ghost use Rattle.clidoc_engine.specs.Words.{IsPageOf, IsStrict, IsTerminalWidth, IsTitle};
ghost use Rattle.clidoc_engine.specs.Words.{IsWidth, NamesPage, PageSaid, Takes, form_word, is_one_of, shell_word};

use crate::reading::{Given, Valued, WordFault, WordOption, given_in};
use crate::wrong::is_form;
pub use command_pages::{ConsoleForm, Extent, TitleGiven};
pub use completions::Shell;
use description_pages::Depth;
use help_differences::HelpText;
use std::alloc::Allocator;

// The columns of a terminal of which nothing is said.
const WIDTH: usize = 100;

// The fewest columns that are taken for those of a terminal.
const LEAST_WIDTH: usize = 20;

/// A page on a console.
#[derive(Drop)]
pub struct Console<'w, A: Allocator> {
    pub form: ConsoleForm,
    /// The commands that lead to what is shown, one for each level.
    pub commands: Vec<&'w str, A>,
    /// The columns of a line.
    pub width: usize,
}

/// A help text, and what it and the description are called in lines.
#[derive(Drop)]
pub struct HelpGiven<A: Allocator> {
    pub printed: String<A>,
    pub help_name: String<A>,
    pub description_name: String<A>,
}

impl<A: Allocator> HelpGiven<A> {
    /// The same, lent.
    pub fn lent(&self) -> HelpText<'_>
        ensures { help_said result ≡ help_given self.now }
    {
        HelpText {
            printed: self.printed.as_str(),
            help_name: self.help_name.as_str(),
            description_name: self.description_name.as_str(),
        }
    }
}

/// Which page of a description. The commands of a page lead to the level that it shows.
#[derive(Drop)]
pub enum Page<'w, A: Allocator> {
    Console(Console<'w, A>),
    /// The page in HTML of a level and of those below it.
    Html {
        extent: Extent,
        commands: Vec<&'w str, A>,
        title: TitleGiven<'w>,
    },
    Markdown {
        commands: Vec<&'w str, A>,
        depth: Depth,
    },
    /// A manual page.
    Man {
        commands: Vec<&'w str, A>,
        depth: Depth,
        title: TitleGiven<'w>,
    },
    /// What completes the words of the described program in a shell.
    Completion(Shell),
    /// The description itself, in JSON.
    Json,
    /// The names that either the level or a help text has alone.
    Differences {
        help: HelpGiven<A>,
        commands: Vec<&'w str, A>,
    },
}

/// What the program does.
#[derive(Drop)]
pub enum Choice<'w, A: Allocator> {
    /// Writes a page of the description in a file, or on standard input.
    Page(Page<'w, A>, Option<&'w str>),
    /// Judges whether there is a description in a file, or on standard input. If it is strict, a warning is a failure.
    Check {
        strict: bool,
        file: Option<&'w str>,
    },
    /// Writes all pages of the description in a file, or on standard input, into a folder.
    All {
        folder: &'w str,
        title: TitleGiven<'w>,
        file: Option<&'w str>,
    },
    /// Writes a first description of what a program prints for help, which is in a file, or on standard input. The
    /// program has this name, or that of its usage.
    Draft {
        name: Option<&'w str>,
        file: Option<&'w str>,
    },
    /// Compares the names in a help text with those of the level that the commands lead to, of the description in a
    /// file, or on standard input.
    Against {
        help: &'w str,
        commands: Vec<&'w str, A>,
        file: Option<&'w str>,
    },
    /// Writes its own help page.
    Help,
    /// Writes its name and its version.
    Version,
}

/// The columns of the terminal, of which the environment says this: the number that it says, where that is one from 20
/// on, and else 100.
pub fn terminal_width(said: Option<&str>) -> usize
    ensures { IsTerminalWidth (text_of said.entry) result }
{
    match said {
        Some(text) => width_said(text),
        None => WIDTH,
    }
}

fn width_said(text: &str) -> usize
    ensures { IsTerminalWidth (Some text.now) result }
{
    let count = columns(text).unwrap_or(0);
    if count < LEAST_WIDTH { WIDTH } else { count }
}

/// What the words after the program's name choose, on a terminal of that many columns: `docs/description.md` has the
/// forms. An error where they choose nothing, or an allocation failed.
#[tactic(auto, using(crate::proofs::Choosing::chosen_work))]
pub fn choose<'w, A: Allocator + Copy>(
    alloc: A,
    terminal: usize,
    words: &[&'w str],
) -> Result<Choice<'w, A>, WordFault<'w>>
    ensures ok { IfOk result (λ choice. Chooses terminal (words_said words.now) (choice_said choice)) }
    ensures err { IfErr result (λ fault. IsRefused fault ⊎ ((choice : ChoiceSaid)
        → ¬ Chooses terminal (words_said words.now) choice)) }
{
    if is_one_of(words, "--help", "-h") {
        return Ok(Choice::Help);
    }
    if is_one_of(words, "--version", "-V") {
        return Ok(Choice::Version);
    }
    with_input(alloc, terminal, words)
}

// Whether there is one word, and it is one of these.
#[tactic(auto, using(crate::proofs::Choosing::one_word))]
fn is_one_of(words: &[&str], long: &str, short: &str) -> bool
    ensures { result ≡ is_one_of (words_said words.now) long.now short.now }
{
    match words {
        [word] => **word == *long || **word == *short,
        _ => false,
    }
}

// What words choose that stand for pages, or for other work on a description.
#[tactic(auto, using(crate::proofs::Choosing::chosen_otherwise, crate::proofs::Choosing::nothing_given, crate::proofs::Choosing::no_word))]
fn with_input<'w, A: Allocator + Copy>(
    alloc: A,
    terminal: usize,
    words: &[&'w str],
) -> Result<Choice<'w, A>, WordFault<'w>>
    ensures ok { IfOk result (λ choice. ChoosesWork terminal (words_said words.now) (choice_said choice)) }
    ensures err { IfErr result (λ fault. IsRefused fault ⊎ ((choice : ChoiceSaid)
        → ¬ ChoosesWork terminal (words_said words.now) choice)) }
{
    let given = given_in(alloc, words)?;
    let (word, after) = first_word(alloc, &given.plain, &given.files)?;
    taken(terminal, word, &after, given)
}

// The first of the plain words, and all after it: the others, and the files.
fn first_word<'w, A: Allocator + Copy>(
    alloc: A,
    plain: &[&'w str],
    files: &[&'w str],
) -> Result<(&'w str, Vec<&'w str, A>), WordFault<'w>>
    ensures ok { IfOk result (λ found. words_said plain.now ++ words_said files.now
        ≡ found.0.now ∷ words_said found.1.items) }
    ensures first { IfOk result (λ _. words_said plain.now ≢ []) }
    ensures err { IfErr result (λ fault. IsRefused fault ⊎ (words_said plain.now ≡ [])) }
{
    let Some((word, others)) = plain.split_first() else {
        return Err(WordFault::NoForm);
    };
    let mut after = Vec::new(alloc);
    after.extend_from_slice(others)?;
    after.extend_from_slice(files)?;
    Ok((*word, after))
}

// What the word chooses with those after it and the options.
#[tactic(auto, using(crate::proofs::Choosing::only_check, crate::proofs::Choosing::only_all, crate::proofs::Choosing::only_completion, crate::proofs::Choosing::only_json, crate::proofs::Choosing::only_draft, crate::proofs::Choosing::only_against, crate::proofs::Choosing::only_page))]
fn taken<'w, A: Allocator>(
    terminal: usize,
    word: &'w str,
    after: &[&'w str],
    given: Given<'w, A>,
) -> Result<Choice<'w, A>, WordFault<'w>>
    ensures ok { IfOk result (λ choice.
        Takes terminal word.now (words_said after.now) (given_of given.entry) (choice_said choice)) }
    ensures err { IfErr result (λ _. (choice : ChoiceSaid)
        → ¬ Takes terminal word.now (words_said after.now) (given_of given.entry) choice) }
{
    match word {
        "check" => judged(word, after, given),
        "all" => all_written(word, after, given),
        "complete" => completed(word, after, given),
        "json" => as_json(word, after, given),
        "draft" => drafted(word, after, given),
        "against" => compared(word, after, given),
        _ => paged(terminal, word, after, given),
    }
}

// The one file, if there is one. The form may take a command.
fn file_alone<'w>(after: &[&'w str], takes_command: bool) -> Result<Option<&'w str>, WordFault<'w>>
    ensures ok { IfOk result (λ file. words_said after.now ≡ option_to_list (text_of file)) }
    ensures err { IfErr result (λ _. (file : _) → words_said after.now ≢ option_to_list file) }
{
    match after {
        [] => Ok(None),
        [file] => Ok(Some(*file)),
        [file, word, ..] => Err(too_many(*file, *word, takes_command)),
    }
}

fn too_many<'w>(file: &'w str, word: &'w str, takes_command: bool) -> WordFault<'w> {
    WordFault::TooMany {
        word,
        command: takes_command.then_some(file),
    }
}

// ---- work on descriptions

fn judged<'w, A: Allocator>(
    word: &'w str,
    after: &[&'w str],
    given: Given<'w, A>,
) -> Result<Choice<'w, A>, WordFault<'w>>
    ensures ok { (terminal : _) → IfOk result (λ choice.
        Takes terminal (codes "check") (words_said after.now) (given_of given.entry) (choice_said choice)) }
    ensures err { IfErr result (λ _. (strict file : _)
        → ¬ IsCheck (words_said after.now) (given_of given.entry) strict file) }
{
    let file = file_alone(after, false)?;
    check_no_level(&given, word)?;
    check_no_title(&given, word)?;
    check_no_folder(&given, word)?;
    check_no_name(&given, word)?;
    let strict = strictness_of(&given.stricts)?;
    Ok(Choice::Check { strict, file })
}

// Whether a warning is a failure.
fn strictness_of<'w>(stricts: &[&'w str]) -> Result<bool, WordFault<'w>>
    ensures ok { IfOk result (λ strict. IsStrict (words_said stricts.now) strict) }
    ensures err { IfErr result (λ _. (strict : _) → ¬ IsStrict (words_said stricts.now) strict) }
{
    match stricts {
        [] => Ok(false),
        [_] => Ok(true),
        _ => Err(WordFault::Twice(WordOption::Strict)),
    }
}

fn all_written<'w, A: Allocator>(
    word: &'w str,
    after: &[&'w str],
    given: Given<'w, A>,
) -> Result<Choice<'w, A>, WordFault<'w>>
    ensures ok { (terminal : _) → IfOk result (λ choice.
        Takes terminal (codes "all") (words_said after.now) (given_of given.entry) (choice_said choice)) }
    ensures err { IfErr result (λ _. (folder title file : _)
        → ¬ IsAll (words_said after.now) (given_of given.entry) folder title file) }
{
    let file = file_alone(after, false)?;
    check_no_level(&given, word)?;
    check_no_strict(&given, word)?;
    check_no_name(&given, word)?;
    let title = title_of(&given)?;
    let folder = one_folder(&given.folders)?;
    Ok(Choice::All {
        folder,
        title,
        file,
    })
}

fn one_folder<'w>(folders: &[&'w str]) -> Result<&'w str, WordFault<'w>>
    ensures ok { IfOk result (λ folder. words_said folders.now ≡ folder.now ∷ []) }
    ensures err { IfErr result (λ _. (folder : _) → words_said folders.now ≢ folder ∷ []) }
{
    match folders {
        [] => Err(WordFault::NoFolder),
        [folder] => Ok(*folder),
        _ => Err(WordFault::Twice(WordOption::Valued(Valued::Into))),
    }
}

fn completed<'w, A: Allocator>(
    word: &'w str,
    after: &[&'w str],
    given: Given<'w, A>,
) -> Result<Choice<'w, A>, WordFault<'w>>
    ensures ok { (terminal : _) → IfOk result (λ choice.
        Takes terminal (codes "complete") (words_said after.now) (given_of given.entry) (choice_said choice)) }
    ensures err { IfErr result (λ _. (shell file : _)
        → ¬ IsComplete (words_said after.now) (given_of given.entry) shell file) }
{
    let Some((shell, others)) = after.split_first() else {
        return Err(WordFault::NoShell);
    };
    let shell = shell_named(*shell)?;
    let file = file_alone(others, false)?;
    check_alone(&given, word)?;
    Ok(Choice::Page(Page::Completion(shell), file))
}

fn as_json<'w, A: Allocator>(
    word: &'w str,
    after: &[&'w str],
    given: Given<'w, A>,
) -> Result<Choice<'w, A>, WordFault<'w>>
    ensures ok { (terminal : _) → IfOk result (λ choice.
        Takes terminal (codes "json") (words_said after.now) (given_of given.entry) (choice_said choice)) }
    ensures err { IfErr result (λ _. (file : _)
        → ¬ IsJson (words_said after.now) (given_of given.entry) file) }
{
    let file = file_alone(after, false)?;
    check_alone(&given, word)?;
    Ok(Choice::Page(Page::Json, file))
}

fn drafted<'w, A: Allocator>(
    word: &'w str,
    after: &[&'w str],
    given: Given<'w, A>,
) -> Result<Choice<'w, A>, WordFault<'w>>
    ensures ok { (terminal : _) → IfOk result (λ choice.
        Takes terminal (codes "draft") (words_said after.now) (given_of given.entry) (choice_said choice)) }
    ensures err { IfErr result (λ _. (name file : _)
        → ¬ IsDraft (words_said after.now) (given_of given.entry) name file) }
{
    let file = file_alone(after, false)?;
    check_no_level(&given, word)?;
    check_no_title(&given, word)?;
    check_no_folder(&given, word)?;
    check_no_strict(&given, word)?;
    let name = at_most_one(&given.names, Valued::Name)?;
    Ok(Choice::Draft { name, file })
}

fn compared<'w, A: Allocator>(
    word: &'w str,
    after: &[&'w str],
    given: Given<'w, A>,
) -> Result<Choice<'w, A>, WordFault<'w>>
    ensures ok { (terminal : _) → IfOk result (λ choice.
        Takes terminal (codes "against") (words_said after.now) (given_of given.entry) (choice_said choice)) }
    ensures err { IfErr result (λ _. (help commands file : _)
        → ¬ IsAgainst (words_said after.now) (given_of given.entry) help commands file) }
{
    let Some((help, others)) = after.split_first() else {
        return Err(WordFault::NoHelp);
    };
    let file = file_alone(others, true)?;
    check_no_width(&given, word)?;
    check_no_deep(&given, word)?;
    check_no_fragment(&given, word)?;
    check_no_title(&given, word)?;
    check_only_page_options(&given, word)?;
    Ok(Choice::Against {
        help: *help,
        commands: given.commands,
        file,
    })
}

fn shell_named(word: &str) -> Result<Shell, WordFault<'_>>
    ensures ok { IfOk result (λ shell. word.now ≡ shell_word shell) }
    ensures err { IfErr result (λ _. (shell : _) → word.now ≢ shell_word shell) }
{
    match word {
        "bash" => Ok(Shell::Bash),
        "zsh" => Ok(Shell::Zsh),
        "fish" => Ok(Shell::Fish),
        _ => Err(WordFault::NoSuchShell(word)),
    }
}

// Refuses all options.
fn check_alone<'w, A: Allocator>(given: &Given<'w, A>, word: &'w str) -> Result<(), WordFault<'w>>
    ensures ok { IfOk result (λ _. HasNoOption (given_of given.now)) }
    ensures err { IfErr result (λ _. ¬ HasNoOption (given_of given.now)) }
{
    check_no_level(given, word)?;
    check_no_title(given, word)?;
    check_only_page_options(given, word)
}

// ---- pages

// The page that the word names with the values of options. Those that are of no page are refused.
#[tactic(auto, using(crate::proofs::Choosing::taken_page))]
fn paged<'w, A: Allocator>(
    terminal: usize,
    word: &'w str,
    after: &[&'w str],
    given: Given<'w, A>,
) -> Result<Choice<'w, A>, WordFault<'w>>
    ensures ok { IfOk result (λ choice.
        Takes terminal word.now (words_said after.now) (given_of given.entry) (choice_said choice)) }
    ensures err { IfErr result (λ _. (p file : _)
        → ¬ IsPageOf terminal word.now (words_said after.now) (given_of given.entry) p file) }
{
    let file = match file_alone(after, true) {
        Ok(file) => file,
        Err(fault) => {
            drop(given);
            return Err(first_fault(word, after, fault));
        }
    };
    let options = check_only_page_options(&given, word);
    let page = page_named(terminal, word, file, given)?;
    match options {
        Ok(()) => Ok(Choice::Page(page, file)),
        Err(fault) => {
            drop(page);
            Err(fault)
        }
    }
}

// The page that the word names with the values of options but the folder and strictness.
fn page_named<'w, A: Allocator>(
    terminal: usize,
    word: &'w str,
    file: Option<&'w str>,
    given: Given<'w, A>,
) -> Result<Page<'w, A>, WordFault<'w>>
    ensures ok { IfOk result (λ page. NamesPage terminal word.now (given_of given.entry) (page_said page)) }
    ensures err { IfErr result (λ _. (p : PageSaid) → ¬ NamesPage terminal word.now (given_of given.entry) p) }
{
    match word {
        "usage" => on_console(ConsoleForm::Usage, terminal, given, word),
        "full" => on_console(ConsoleForm::Full, terminal, given, word),
        "brief" => on_console(ConsoleForm::Brief, terminal, given, word),
        "html" => html(given, word),
        "markdown" => markdown(given, word),
        "man" => manual(given, word),
        _ => {
            drop(given);
            Err(no_form(word, file))
        }
    }
}

// The fault of the words after one, or of that one, if it is not a form.
fn first_fault<'w>(word: &'w str, after: &[&'w str], fault: WordFault<'w>) -> WordFault<'w> {
    if is_form(word) {
        return fault;
    }
    drop(fault);
    no_form(word, after.first().copied())
}

// The fault of a word that is not a form, before this one.
fn no_form<'w>(word: &'w str, after: Option<&'w str>) -> WordFault<'w> {
    match after {
        Some(form) if is_form(form) => WordFault::FormAfter { word, form },
        _ => WordFault::NoSuchForm(word),
    }
}

fn html<'w, A: Allocator>(given: Given<'w, A>, word: &'w str) -> Result<Page<'w, A>, WordFault<'w>>
    ensures ok { (terminal : _) → IfOk result (λ page.
        NamesPage terminal (codes "html") (given_of given.entry) (page_said page)) }
    ensures err { IfErr result (λ _. (extent title : _) → ¬ (((given_of given.entry).widths ≡ [])
        × ((given_of given.entry).deeps ≡ []) × IsExtent (given_of given.entry).fragments extent
        × IsTitle (given_of given.entry) title)) }
{
    check_no_width(&given, word)?;
    check_no_deep(&given, word)?;
    let extent = extent_of(&given.fragments)?;
    let title = title_of(&given)?;
    Ok(Page::Html {
        extent,
        commands: given.commands,
        title,
    })
}

fn markdown<'w, A: Allocator>(
    given: Given<'w, A>,
    word: &'w str,
) -> Result<Page<'w, A>, WordFault<'w>>
    ensures ok { (terminal : _) → IfOk result (λ page.
        NamesPage terminal (codes "markdown") (given_of given.entry) (page_said page)) }
    ensures err { IfErr result (λ _. (depth : _) → ¬ (((given_of given.entry).widths ≡ [])
        × IsDepth (given_of given.entry).deeps depth × ((given_of given.entry).fragments ≡ [])
        × HasNoTitle (given_of given.entry))) }
{
    check_no_width(&given, word)?;
    let depth = depth_of(&given.deeps)?;
    check_no_fragment(&given, word)?;
    check_no_title(&given, word)?;
    Ok(Page::Markdown {
        commands: given.commands,
        depth,
    })
}

fn manual<'w, A: Allocator>(
    given: Given<'w, A>,
    word: &'w str,
) -> Result<Page<'w, A>, WordFault<'w>>
    ensures ok { (terminal : _) → IfOk result (λ page.
        NamesPage terminal (codes "man") (given_of given.entry) (page_said page)) }
    ensures err { IfErr result (λ _. (depth title : _) → ¬ (((given_of given.entry).widths ≡ [])
        × IsDepth (given_of given.entry).deeps depth × ((given_of given.entry).fragments ≡ [])
        × IsTitle (given_of given.entry) title)) }
{
    check_no_width(&given, word)?;
    let depth = depth_of(&given.deeps)?;
    check_no_fragment(&given, word)?;
    let title = title_of(&given)?;
    Ok(Page::Man {
        commands: given.commands,
        depth,
        title,
    })
}

fn on_console<'w, A: Allocator>(
    form: ConsoleForm,
    terminal: usize,
    given: Given<'w, A>,
    word: &'w str,
) -> Result<Page<'w, A>, WordFault<'w>>
    ensures ok { IfOk result (λ page. NamesPage terminal (form_word form) (given_of given.entry) (page_said page)) }
    ensures err { IfErr result (λ _. (n : _) → ¬ (IsWidth terminal (given_of given.entry).widths n
        × ((given_of given.entry).deeps ≡ []) × ((given_of given.entry).fragments ≡ [])
        × HasNoTitle (given_of given.entry))) }
{
    let width = width_of(terminal, &given.widths)?;
    check_no_deep(&given, word)?;
    check_no_fragment(&given, word)?;
    check_no_title(&given, word)?;
    Ok(Page::Console(Console {
        form,
        commands: given.commands,
        width,
    }))
}

// How far down the page goes.
fn depth_of<'w>(deeps: &[&'w str]) -> Result<Depth, WordFault<'w>>
    ensures ok { IfOk result (λ depth. IsDepth (words_said deeps.now) depth) }
    ensures err { IfErr result (λ _. (depth : _) → ¬ IsDepth (words_said deeps.now) depth) }
{
    match deeps {
        [] => Ok(Depth::Alone),
        [_] => Ok(Depth::Deep),
        _ => Err(WordFault::Twice(WordOption::Deep)),
    }
}

// How much of the page is made.
fn extent_of<'w>(fragments: &[&'w str]) -> Result<Extent, WordFault<'w>>
    ensures ok { IfOk result (λ extent. IsExtent (words_said fragments.now) extent) }
    ensures err { IfErr result (λ _. (extent : _) → ¬ IsExtent (words_said fragments.now) extent) }
{
    match fragments {
        [] => Ok(Extent::Page),
        [_] => Ok(Extent::Fragment),
        _ => Err(WordFault::Twice(WordOption::Fragment)),
    }
}

// The words of title lines.
fn title_of<'w, A: Allocator>(given: &Given<'w, A>) -> Result<TitleGiven<'w>, WordFault<'w>>
    ensures ok { IfOk result (λ title. IsTitle (given_of given.now) (title_said title)) }
    ensures err { IfErr result (λ _. (title : _) → ¬ IsTitle (given_of given.now) title) }
{
    let date = at_most_one(&given.dates, Valued::Date)?;
    let vendor = at_most_one(&given.vendors, Valued::Vendor)?;
    Ok(TitleGiven { date, vendor })
}

fn at_most_one<'w>(values: &[&'w str], option: Valued) -> Result<Option<&'w str>, WordFault<'w>>
    ensures ok { IfOk result (λ value. words_said values.now ≡ option_to_list (text_of value)) }
    ensures err { IfErr result (λ _. (value : _) → words_said values.now ≢ option_to_list value) }
{
    match values {
        [] => Ok(None),
        [value] => Ok(Some(*value)),
        _ => Err(WordFault::Twice(WordOption::Valued(option))),
    }
}

fn width_of<'w>(terminal: usize, texts: &[&'w str]) -> Result<usize, WordFault<'w>>
    ensures ok { IfOk result (λ n. IsWidth terminal (words_said texts.now) n) }
    ensures err { IfErr result (λ _. (n : _) → ¬ IsWidth terminal (words_said texts.now) n) }
{
    match texts {
        [] => Ok(terminal),
        [text] => columns(text),
        _ => Err(WordFault::Twice(WordOption::Valued(Valued::Width))),
    }
}

/// The number from 1 on that a text is, in decimal digits alone.
pub(crate) fn columns(text: &str) -> Result<usize, WordFault<'_>>
    ensures ok { IfOk result (λ n. IsColumns text.now n) }
    ensures err { IfErr result (λ _. (n : _) → ¬ IsColumns text.now n) }
{
    if text.as_bytes().first() == Some(&b'+') {
        return Err(WordFault::NoColumns(text));
    }
    match usize::from_str_radix(text, 10) {
        Ok(count) if count > 0 => Ok(count),
        _ => Err(WordFault::NoColumns(text)),
    }
}

// Refuses options that say which level is shown, and how, where the word takes none.
fn check_no_level<'w, A: Allocator>(
    given: &Given<'w, A>,
    word: &'w str,
) -> Result<(), WordFault<'w>>
    ensures ok { IfOk result (λ _. HasNoLevel (given_of given.now)) }
    ensures err { IfErr result (λ _. ¬ HasNoLevel (given_of given.now)) }
{
    check_none(&given.commands, WordOption::Valued(Valued::Command), word)?;
    check_no_width(given, word)?;
    check_no_deep(given, word)?;
    check_no_fragment(given, word)
}

fn check_no_title<'w, A: Allocator>(
    given: &Given<'w, A>,
    word: &'w str,
) -> Result<(), WordFault<'w>>
    ensures ok { IfOk result (λ _. HasNoTitle (given_of given.now)) }
    ensures err { IfErr result (λ _. ¬ HasNoTitle (given_of given.now)) }
{
    check_none(&given.dates, WordOption::Valued(Valued::Date), word)?;
    check_none(&given.vendors, WordOption::Valued(Valued::Vendor), word)
}

fn check_no_width<'w, A: Allocator>(
    given: &Given<'w, A>,
    word: &'w str,
) -> Result<(), WordFault<'w>>
    ensures ok { IfOk result (λ _. (given_of given.now).widths ≡ []) }
    ensures err { IfErr result (λ _. (given_of given.now).widths ≢ []) }
{
    check_none(&given.widths, WordOption::Valued(Valued::Width), word)
}

fn check_no_deep<'w, A: Allocator>(given: &Given<'w, A>, word: &'w str) -> Result<(), WordFault<'w>>
    ensures ok { IfOk result (λ _. (given_of given.now).deeps ≡ []) }
    ensures err { IfErr result (λ _. (given_of given.now).deeps ≢ []) }
{
    check_none(&given.deeps, WordOption::Deep, word)
}

fn check_no_fragment<'w, A: Allocator>(
    given: &Given<'w, A>,
    word: &'w str,
) -> Result<(), WordFault<'w>>
    ensures ok { IfOk result (λ _. (given_of given.now).fragments ≡ []) }
    ensures err { IfErr result (λ _. (given_of given.now).fragments ≢ []) }
{
    check_none(&given.fragments, WordOption::Fragment, word)
}

fn check_no_folder<'w, A: Allocator>(
    given: &Given<'w, A>,
    word: &'w str,
) -> Result<(), WordFault<'w>>
    ensures ok { IfOk result (λ _. (given_of given.now).folders ≡ []) }
    ensures err { IfErr result (λ _. (given_of given.now).folders ≢ []) }
{
    check_none(&given.folders, WordOption::Valued(Valued::Into), word)
}

fn check_no_strict<'w, A: Allocator>(
    given: &Given<'w, A>,
    word: &'w str,
) -> Result<(), WordFault<'w>>
    ensures ok { IfOk result (λ _. (given_of given.now).stricts ≡ []) }
    ensures err { IfErr result (λ _. (given_of given.now).stricts ≢ []) }
{
    check_none(&given.stricts, WordOption::Strict, word)
}

fn check_no_name<'w, A: Allocator>(given: &Given<'w, A>, word: &'w str) -> Result<(), WordFault<'w>>
    ensures ok { IfOk result (λ _. (given_of given.now).names ≡ []) }
    ensures err { IfErr result (λ _. (given_of given.now).names ≢ []) }
{
    check_none(&given.names, WordOption::Valued(Valued::Name), word)
}

// Refuses options that no page takes.
fn check_only_page_options<'w, A: Allocator>(
    given: &Given<'w, A>,
    word: &'w str,
) -> Result<(), WordFault<'w>>
    ensures ok { IfOk result (λ _. HasOnlyPageOptions (given_of given.now)) }
    ensures err { IfErr result (λ _. ¬ HasOnlyPageOptions (given_of given.now)) }
{
    check_no_folder(given, word)?;
    check_no_strict(given, word)?;
    check_no_name(given, word)
}

// Refuses an option, where the word does not take it.
fn check_none<'w>(
    values: &[&'w str],
    option: WordOption,
    word: &'w str,
) -> Result<(), WordFault<'w>>
    ensures ok { IfOk result (λ _. words_said values.now ≡ []) }
    ensures err { IfErr result (λ _. words_said values.now ≢ []) }
{
    if values.is_empty() {
        Ok(())
    } else {
        Err(WordFault::NotWith { option, word })
    }
}
