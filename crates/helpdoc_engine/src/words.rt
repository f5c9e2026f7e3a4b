//! The words that choose what the program does.

ghost use Rattle.std.specs.Prelude.{◌≡◌, ◌↔◌, Some, map};
ghost use Rattle.helpdoc_engine.specs.declared.words.Choice.{Choice};
ghost use Rattle.helpdoc_engine.specs.declared.words.Form.{Form};
ghost use Rattle.helpdoc_engine.specs.Choice.{spelling, form_word};

/// How a page is shown.
#[derive(Clone, Copy, Debug, PartialEq, Eq)]
pub enum Form {
    /// On a console, in full.
    Full,
    /// On a console, each text up to its first paragraph break.
    Brief,
    /// As HTML, in full and without a style sheet.
    Html,
    /// As markdown, in full.
    Markdown,
    /// As a manual page.
    Man,
}

/// What the program does.
#[derive(Clone, Copy, Debug, PartialEq, Eq)]
pub enum Choice {
    /// Shows standard input, as one text.
    Text(Form),
    /// Shows the sample application.
    Sample(Form),
}

/// What the words after the program's name choose, by their bytes. None where they don't spell a
/// choice. It takes no memory.
pub fn choose(words: &[&str]) -> Option<Choice>
    ensures { (choice : Choice)
        → (result ≡ Some choice) ↔ (map (λ word. word.now) words.now ≡ spelling choice) }
{
    let [command, form] = words else {
        return None;
    };
    match *command {
        "text" => form_of(form).map(Choice::Text),
        "sample" => form_of(form).map(Choice::Sample),
        _ => None,
    }
}

// The form that a word spells.
fn form_of(word: &str) -> Option<Form>
    ensures { (form : Form) → (result ≡ Some form) ↔ (word.now ≡ form_word form) }
{
    match word {
        "full" => Some(Form::Full),
        "brief" => Some(Form::Brief),
        "html" => Some(Form::Html),
        "markdown" => Some(Form::Markdown),
        "man" => Some(Form::Man),
        _ => None,
    }
}
