//! What stands in a line.

ghost use Rattle.std.specs.Prelude.{◌≡◌};
ghost use Rattle.help_blocks.specs.Looks as looks;

/// Whether a byte is a space or a tabulator.
pub fn is_blank(byte: u8) -> bool
    ensures { result ≡ looks.is_blank byte }
{
    byte == b' ' || byte == b'\t'
}

/// Whether a word of a name goes on with this.
pub fn is_in_name(byte: u8) -> bool
    ensures { result ≡ looks.is_in_name byte }
{
    byte.is_ascii_alphanumeric() || matches!(byte, b'-' | b'_' | b'.' | b'+')
}

/// What stands after the blanks at the start.
pub fn text(line: &[u8]) -> &[u8]
    ensures { result.now ≡ looks.text line.now }
{
    let mut rest = line;
    while let [first, more @ ..] = rest {
        if !is_blank(*first) {
            return rest;
        }
        rest = more;
    }
    rest
}

/// How far the text is from the left edge: a tabulator counts 8, and all from 64 on is the same.
pub fn indent(line: &[u8]) -> usize
    ensures { result ≡ looks.indent line.now }
{
    let mut columns: usize = 0;
    let mut rest = line;
    while let [first, more @ ..] = rest {
        match *first {
            b' ' => columns += 1,
            b'\t' => columns += 8,
            _ => return columns,
        }
        columns = columns.min(64);
        rest = more;
    }
    columns
}

/// Whether a text begins with a word in small letters, in letters of any case.
pub fn begins_with(text: &[u8], word: &[u8]) -> bool
    ensures { result ≡ looks.begins_with word.now text.now }
{
    let mut rest = text;
    let mut left = word;
    while let [wanted, others @ ..] = left {
        let [byte, more @ ..] = rest else {
            return false;
        };
        if byte.to_ascii_lowercase() != *wanted {
            return false;
        }
        rest = more;
        left = others;
    }
    true
}

/// Whether a text has a word in small letters, in letters of any case.
pub fn has_word(text: &[u8], word: &[u8]) -> bool
    ensures { result ≡ looks.has_word word.now text.now }
{
    let mut rest = text;
    while let [_, more @ ..] = rest {
        if begins_with(rest, word) {
            return true;
        }
        rest = more;
    }
    false
}

/// What stands after the letters of a name.
pub fn after_name(text: &[u8]) -> &[u8]
    ensures { result.now ≡ looks.after_name text.now }
{
    let mut rest = text;
    while let [first, more @ ..] = rest {
        if !is_in_name(*first) {
            return rest;
        }
        rest = more;
    }
    rest
}

/// What stands after the first `=` of the first word.
pub fn after_equals(text: &[u8]) -> &[u8]
    ensures { result.now ≡ looks.after_equals text.now }
{
    let mut rest = text;
    while let [first, more @ ..] = rest {
        if is_blank(*first) {
            return &[];
        }
        if *first == b'=' {
            return more;
        }
        rest = more;
    }
    rest
}

fn is_divider(byte: u8) -> bool
    ensures { result ≡ looks.is_divider byte }
{
    byte == b',' || byte == b'|'
}

/// What stands after the first blank; nothing, if `,` or `|` is before it.
pub fn after_word(text: &[u8]) -> &[u8]
    ensures { result.now ≡ looks.after_word 32 text.now }
{
    let mut before = b' ';
    let mut rest = text;
    while let [first, more @ ..] = rest {
        if is_blank(*first) {
            return if is_divider(before) { &[] } else { more };
        }
        before = *first;
        rest = more;
    }
    rest
}

// The last that is not a blank, and a blank where there is none.
fn last_ink(line: &[u8]) -> u8
    ensures { result ≡ looks.last_ink 32 line.now }
{
    let mut last = b' ';
    let mut rest = line;
    while let [first, more @ ..] = rest {
        if !is_blank(*first) {
            last = *first;
        }
        rest = more;
    }
    last
}

/// Whether the last that is not a blank is a colon.
pub fn ends_with_colon(line: &[u8]) -> bool
    ensures { result ≡ looks.ends_with_colon line.now }
{
    last_ink(line) == b':'
}

/// Whether it is a dot, as in a sentence.
pub fn ends_with_dot(line: &[u8]) -> bool
    ensures { result ≡ looks.ends_with_dot line.now }
{
    last_ink(line) == b'.'
}

fn is_small(byte: u8) -> bool
    ensures { result ≡ looks.is_small byte }
{
    matches!(byte, b'a'..=b'z')
}

/// Whether a text begins with a capital and has no small letter.
pub fn is_in_capitals(text: &[u8]) -> bool
    ensures { result ≡ looks.is_in_capitals text.now }
{
    let [b'A'..=b'Z', more @ ..] = text else {
        return false;
    };
    let mut rest = more;
    while let [first, others @ ..] = rest {
        if is_small(*first) {
            return false;
        }
        rest = others;
    }
    true
}

// Whether this begins with a tabulator or with two blanks, and a text follows.
fn is_gap(rest: &[u8]) -> bool
    ensures { result ≡ looks.is_gap rest.now }
{
    match rest {
        [b'\t', more @ ..] => !text(more).is_empty(),
        [b' ', b' ' | b'\t', more @ ..] => !text(more).is_empty(),
        _ => false,
    }
}

fn ends_a_column(byte: u8) -> bool
    ensures { result ≡ looks.ends_a_column byte }
{
    !matches!(byte, b' ' | b'\t' | b'.' | b'!' | b'?')
}

/// Whether a text stands in columns: a gap follows what is no blank and no end of a sentence.
pub fn has_columns(text: &[u8]) -> bool
    ensures { result ≡ looks.has_columns text.now }
{
    let mut rest = text;
    while let [first, more @ ..] = rest {
        if ends_a_column(*first) && is_gap(more) {
            return true;
        }
        rest = more;
    }
    false
}
