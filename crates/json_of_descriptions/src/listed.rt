//! The values in a text such as `never, auto, always`.
ghost use Rattle.std.specs.Prelude.{◌≡◌};
ghost use Rattle.std.specs.List.{list_any};
ghost use Rattle.description.specs.Values.{listed_values};
ghost use Rattle.json_of_descriptions.specs.Listed.{is_empty};

use description::split_value;

/// Whether one of the values would be empty.
pub fn has_empty_value(text: &str) -> bool
    ensures { result ≡ list_any is_empty (listed_values text.now) }
{
    let mut rest = text;
    while let Some((value, after)) = split_value(rest) {
        if value.is_empty() {
            return true;
        }
        rest = after;
    }
    rest.is_empty()
}
