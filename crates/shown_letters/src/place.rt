//! Where in a text for a terminal its reader is.

ghost use Rattle.std.specs.Prelude.{◌≡◌};
ghost use Rattle.shown_letters.specs.declared.place.Place.TheVariants as at;
ghost use Rattle.shown_letters.specs.Terminal.{
  belongs,
  entered,
  is_string_control,
  is_string_start,
  place_after,
};

/// What a character belongs to: nothing, what an escape began, a control sequence, or a string that is not shown.
#[derive(Clone, Copy)]
pub enum Place {
    Letters,
    Escape,
    Sequence,
    String,
}

impl Place {
    /// Whether a character belongs to what began before it.
    pub fn holds(self, character: char) -> bool
        ensures { result ≡ belongs self character }
    {
        match self {
            Place::Letters => false,
            Place::Escape | Place::Sequence => matches!(character, ' '..='~'),
            Place::String => character != '\n',
        }
    }

    /// The place after a character that belongs to what began before it.
    pub fn after(self, character: char) -> Self
        ensures { result ≡ place_after self character }
    {
        match self {
            Place::Letters => Place::Letters,
            Place::Escape => after_escape(character),
            Place::Sequence if matches!(character, ' '..='?') => Place::Sequence,
            Place::Sequence => Place::Letters,
            Place::String => after_string(character),
        }
    }

    /// The place after a character that belongs to nothing.
    pub fn entered(character: char) -> Self
        ensures { result ≡ entered character }
    {
        match character {
            '\u{1b}' => Place::Escape,
            '\u{9b}' => Place::Sequence,
            '\u{90}' | '\u{98}' | '\u{9d}' | '\u{9e}' | '\u{9f}' => Place::String,
            _ => Place::Letters,
        }
    }
}

fn after_escape(character: char) -> Place
    ensures { result ≡ place_after at.Escape character }
{
    match character {
        '[' => Place::Sequence,
        'P' | 'X' | ']' | '^' | '_' => Place::String,
        ' '..='/' => Place::Escape,
        _ => Place::Letters,
    }
}

fn after_string(character: char) -> Place
    ensures { result ≡ place_after at.String character }
{
    match character {
        '\u{7}' | '\u{9c}' => Place::Letters,
        '\u{1b}' => Place::Escape,
        _ => Place::String,
    }
}
