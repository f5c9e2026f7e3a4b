//! Links within a line.

ghost use Rattle.std.specs.Prelude.{◌≡◌, ◌++◌, ◌∷◌, ◌+◌, ◌<◌, ◌==◌, slice_index, [], drop, length, map, MatchOption};
ghost use Rattle.std.specs.List.{prefix_len};
ghost use Rattle.page_model.specs.Content.{link};
ghost use Rattle.description_texts.specs.TextsInside.{address_len, is_address, is_link_byte, link_len, links, word};
ghost use Rattle.description_texts.specs.TextsView.{IsLinkAt};

/// A link in a text: its address, and what stands before and after it.
#[derive(Clone, Copy)]
pub struct Link<'a> {
    pub before: &'a str,
    pub address: &'a str,
    pub after: &'a str,
}

fn is_link_byte(byte: u8) -> bool
    ensures { result ≡ is_link_byte byte }
{
    matches!(byte, 33..=126) && !matches!(byte, b'<' | b'>' | b'`')
}

fn link_bytes(text: &[u8]) -> usize
    ensures { result ≡ prefix_len is_link_byte text.now }
{
    text.iter().take_while(|byte| is_link_byte(**byte)).count()
}

fn is_address(text: &[u8]) -> bool
    ensures { result ≡ is_address text.now }
{
    (text.starts_with(b"http://") && text.len() > 7)
        || (text.starts_with(b"https://") && text.len() > 8)
}

fn is_closed(text: &[u8], len: usize) -> bool
    ensures { result ≡ (slice_index text.now len == 62) }
{
    match text.get(len) {
        Some(byte) => *byte == b'>',
        None => false,
    }
}

// The length of the address after `<`. 0 where there is none.
fn address_len(text: &[u8]) -> usize
    ensures { result ≡ address_len text.now }
{
    let len = link_bytes(text);
    if is_address(&text[..len]) && is_closed(text, len) {
        len
    } else {
        0
    }
}

// The length of the address of the link that begins at a place. 0 where none begins there.
#[tactic(auto, using(crate::proofs::TextsLinks::link_there))]
fn link_len(bytes: &[u8], at: usize) -> usize
    requires { at < length bytes.now }
    ensures value { result ≡ link_len (slice_index bytes.now at) (drop (at + 1) bytes.now) }
    ensures there { 0 < result → IsLinkAt bytes.now at result }
{
    if bytes[at] == b'<' {
        address_len(&bytes[at + 1..])
    } else {
        0
    }
}

/// The first link of a text.
pub fn first_link(text: &str) -> Option<Link<'_>>
    ensures { MatchOption result
        (links text.now ≡ map word text.now)
        (λ found. (links text.now ≡ map word found.before.now ++ link found.address.now ∷ links found.after.now)
        × (length found.after.now < length text.now)) }
{
    let bytes = text.as_bytes();
    for at in 0..bytes.len() {
        let len = link_len(bytes, at);
        if len > 0 {
            return Some(Link {
                before: &text[..at],
                address: &text[at + 1..at + 1 + len],
                after: &text[at + 2 + len..],
            });
        }
    }
    None
}
