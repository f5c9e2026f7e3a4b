//! What bytes of a line are, and texts without those of one class at an end.
ghost use Rattle.std.specs.Prelude.{◌≡◌, ◌++◌, ◌-◌, ◌<◌, ◌≤◌, drop, length, take, true};
ghost use Rattle.std.specs.List.{prefix_len, slice_index, suffix_len};
ghost use Rattle.help_fronts.specs.Bytes as spec;

// Bytes that are looked for in a text, or left out at an end of it. `Lead` is left out before the word for a value, and
// `Tail` after it.
#[derive(Clone, Copy)]
pub enum Class {
    Blank,
    Joint,
    Lead,
    Tail,
    Dot,
    Separator,
    UsageMark,
}

impl Class {
    pub fn holds(self, byte: u8) -> bool
        ensures { result ≡ spec.is_in self byte }
    {
        match self {
            Class::Blank => is_blank(byte),
            Class::Joint => is_joint(byte),
            Class::Lead => is_joint(byte) || is_opening(byte),
            Class::Tail => is_joint(byte) || is_closing(byte) || byte == b'.',
            Class::Dot => byte == b'.',
            Class::Separator => is_separator(byte),
            Class::UsageMark => is_usage_mark(byte),
        }
    }
}

// A space or a tabulator.
pub fn is_blank(byte: u8) -> bool
    ensures { result ≡ spec.is_blank byte }
{
    byte == b' ' || byte == b'\t'
}

pub fn is_opening(byte: u8) -> bool
    ensures { result ≡ spec.is_opening byte }
{
    byte == b'[' || byte == b'(' || byte == b'<' || byte == b'{'
}

pub fn is_closing(byte: u8) -> bool
    ensures { result ≡ spec.is_closing byte }
{
    byte == b']' || byte == b')' || byte == b'>' || byte == b'}'
}

pub fn is_divider(byte: u8) -> bool
    ensures { result ≡ spec.is_divider byte }
{
    byte == b',' || byte == b'|' || byte == b'/'
}

fn is_joint(byte: u8) -> bool
    ensures { result ≡ spec.is_joint byte }
{
    is_divider(byte) || byte == b'=' || byte == b':'
}

fn is_quote(byte: u8) -> bool
    ensures { result ≡ spec.is_quote byte }
{
    byte == b'"' || byte == b'\'' || byte == b'`'
}

fn is_no_name_start(byte: u8) -> bool
    ensures { result ≡ spec.is_no_name_start byte }
{
    is_closing(byte) || is_divider(byte) || is_quote(byte) || byte == b'-' || byte == b'='
}

// Whether a byte may follow the dashes of a name.
pub fn is_name_start(byte: u8) -> bool
    ensures { result ≡ spec.is_name_start byte }
{
    byte > b' ' && !is_no_name_start(byte)
}

fn is_separator(byte: u8) -> bool
    ensures { result ≡ spec.is_separator byte }
{
    is_joint(byte) || is_opening(byte)
}

fn is_usage_mark(byte: u8) -> bool
    ensures { result ≡ spec.is_usage_mark byte }
{
    is_blank(byte) || is_quote(byte) || is_joint(byte) || is_opening(byte) || is_closing(byte)
}

/// The byte at a place; 0 after the end.
pub fn byte_at(text: &str, index: usize) -> u8
    ensures { result ≡ slice_index text.now index }
{
    match text.as_bytes().get(index) {
        None => 0,
        Some(byte) => *byte,
    }
}

pub fn last_byte(text: &str) -> u8
    ensures { result ≡ spec.last text.now }
{
    byte_at(text, text.len().saturating_sub(1))
}

fn front_len(bytes: &[u8], class: Class) -> usize
    ensures { result ≡ prefix_len (spec.is_in class) bytes.now }
{
    for (index, byte) in bytes.iter().enumerate() {
        if !class.holds(*byte) {
            return index;
        }
    }
    bytes.len()
}

/// How many bytes stand before the first of the class.
pub fn free_len(bytes: &[u8], class: Class) -> usize
    ensures exact { result ≡ spec.free_len class bytes.now }
    ensures within { result ≤ length bytes.now }
    ensures passed { result < length bytes.now → spec.is_in class (slice_index bytes.now result) ≡ true }
{
    for (index, byte) in bytes.iter().enumerate() {
        if class.holds(*byte) {
            return index;
        }
    }
    bytes.len()
}

// How many bytes stand before those of the class at the end.
fn end_at(bytes: &[u8], class: Class) -> usize
    ensures exact { result ≡ length bytes.now - suffix_len (spec.is_in class) bytes.now }
    ensures within { result ≤ length bytes.now }
    ensures passed { result < length bytes.now → spec.is_in class (slice_index bytes.now result) ≡ true }
{
    let mut end = bytes.len();
    while end > 0 && class.holds(bytes[end - 1]) {
        end -= 1;
    }
    end
}

/// The text without the bytes of the class at its front.
pub fn without_front(text: &str, class: Class) -> &str
    ensures { result.now ≡ spec.without_front class text.now }
{
    &text[front_len(text.as_bytes(), class)..]
}

/// The text without those at its end.
pub fn without_end(text: &str, class: Class) -> &str
    ensures { result.now ≡ spec.without_end class text.now }
{
    &text[..end_at(text.as_bytes(), class)]
}
