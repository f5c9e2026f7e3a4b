//! Which names, words and titles a draft takes.
ghost use Rattle.std.specs.Prelude.{◌≡◌, ◌==◌, ◌||◌, chars, map};
ghost use Rattle.std.specs.Int.{is_in_range};
ghost use Rattle.std.specs.List.{list_all, list_any, slice_index};
ghost use Rattle.drafts.specs.Seen as spec;

fn is_within(first: char, last: char, character: char) -> bool
    ensures { result ≡ is_in_range first last character }
{
    first <= character && character <= last
}

fn is_seen(character: char) -> bool
    ensures { result ≡ spec.is_seen character }
{
    is_within(' ', '~', character)
        || is_within('\u{A1}', '\u{AC}', character)
        || is_within('\u{AE}', '\u{34E}', character)
        || is_within('\u{350}', '\u{61B}', character)
        || is_within('\u{2010}', '\u{2027}', character)
        || is_within('\u{20A0}', '\u{27FF}', character)
        || is_within('\u{3041}', '\u{3163}', character)
        || is_within('\u{3165}', '\u{D7FF}', character)
}

fn is_name_letter(character: char) -> bool
    ensures { result ≡ spec.is_name_letter character }
{
    is_seen(character) && character != ' ' && character != '='
}

fn are_seen(text: &str) -> bool
    ensures { result ≡ list_all spec.is_seen (chars text.now) }
{
    text.chars().all(|character| is_seen(character))
}

fn are_name_letters(text: &str) -> bool
    ensures { result ≡ list_all spec.is_name_letter (chars text.now) }
{
    text.chars().all(|character| is_name_letter(character))
}

/// Whether a text may be the word for a value.
pub fn is_word(text: &str) -> bool
    ensures { result ≡ spec.is_word text.now }
{
    are_seen(text) && !text.is_empty()
}

/// Whether a text may be a name.
pub fn is_name(text: &str) -> bool
    ensures { result ≡ spec.is_name text.now }
{
    are_name_letters(text) && !text.is_empty() && text.len() <= 200
}

/// Whether each text may be a name.
pub fn are_names(names: &[&str]) -> bool
    ensures { result ≡ list_all spec.is_name (map (λ n. n.now) names.now) }
{
    for name in names {
        if !is_name(name) {
            return false;
        }
    }
    true
}

/// Whether each text may be the word for a value.
pub fn are_words(texts: &[&str]) -> bool
    ensures { result ≡ list_all spec.is_word (map (λ t. t.now) texts.now) }
{
    for text in texts {
        if !is_word(text) {
            return false;
        }
    }
    true
}

/// The last byte, and 0 where there is none.
pub fn last_byte(text: &[u8]) -> u8
    ensures { result ≡ spec.last text.now }
{
    match text {
        [] => 0,
        [.., byte] => *byte,
    }
}

// The first byte, and 0 where there is none.
fn first_byte(text: &[u8]) -> u8
    ensures { result ≡ slice_index text.now 0 }
{
    match text {
        [] => 0,
        [byte, ..] => *byte,
    }
}

pub fn without_colon(text: &str) -> &str
    ensures { result.now ≡ spec.without_colon text.now }
{
    if last_byte(text.as_bytes()) == b':' {
        &text[..text.len() - 1]
    } else {
        text
    }
}

/// A title as it stands in its line, without a colon at its end.
pub fn title_text(line: &str) -> &str
    ensures { result.now ≡ spec.title_text line.now }
{
    without_colon(line.trim()).trim_end()
}

pub fn is_twice_read(text: &[u8]) -> bool
    ensures { result ≡ list_any spec.is_twice_read text.now }
{
    text.iter().any(|byte| *byte == b'"' || *byte == b'\\')
}

/// Whether a table may have this title.
pub fn is_heading(title: &str) -> bool
    ensures { result ≡ spec.is_heading title.now }
{
    is_word(title)
        && !is_twice_read(title.as_bytes())
        && first_byte(title.as_bytes()) != b':'
        && last_byte(title.as_bytes()) != b'.'
}

fn is_same_word(title: &str, word: &str) -> bool
    ensures { result ≡ spec.is_same_word title.now word.now }
{
    title.eq_ignore_ascii_case(word)
}

/// Whether pages have this title of themselves.
pub fn is_usual(title: &str) -> bool
    ensures { result ≡ spec.is_usual title.now }
{
    is_same_word(title, "options")
        || is_same_word(title, "optional arguments")
        || is_same_word(title, "arguments")
        || is_same_word(title, "positional arguments")
        || is_same_word(title, "commands")
        || is_same_word(title, "subcommands")
        || is_same_word(title, "flags")
}
