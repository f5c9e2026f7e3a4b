//! In which notation a description is written.

ghost use Rattle.std.specs.Prelude.{◌≡◌, ◌==◌, codes, not};
ghost use Rattle.std.specs.List.{ends_with, find};
ghost use Rattle.json.specs.Word.{is_space};
ghost use Rattle.clidoc_engine.specs.Inputs.{first_ink, is_brace, notation_of};

/// The notation that a description is written in.
#[derive(Clone, Copy, Debug, PartialEq, Eq)]
pub enum Notation {
    Toml,
    Json,
}

/// The notation of the text of the file: JSON where the name of the file ends in `.json`, and where the first character
/// after white space is `{`, with which no TOML begins.
pub fn notation_of(file: &str, text: &str) -> Notation
    ensures { result ≡ notation_of file.now text.now }
{
    if is_named_json(file) || begins_with_brace(text.as_bytes()) {
        Notation::Json
    } else {
        Notation::Toml
    }
}

fn is_named_json(file: &str) -> bool
    ensures { result ≡ ends_with ◌==◌ file.now (codes ".json") }
{
    file.as_bytes().ends_with(b".json")
}

// Whether the first byte that is no white space is a brace.
fn begins_with_brace(text: &[u8]) -> bool
    ensures { result ≡ is_brace (first_ink text.now) }
{
    for byte in text {
        if !is_space(*byte) {
            return *byte == b'{';
        }
    }
    false
}

// Whether it is white space in JSON.
fn is_space(byte: u8) -> bool
    ensures { result ≡ is_space byte }
{
    byte == b' ' || byte == b'\t' || byte == b'\n' || byte == b'\r'
}
