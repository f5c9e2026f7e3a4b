//! The values in a text such as `never, auto, always`.
ghost use Rattle.std.specs.Prelude.{◌≡◌, ◌∷◌, ◌<◌, [], length, IfSome, MatchOption};
ghost use Rattle.description.specs.Values.{listed_values};

/// The first of the values that a text lists, and the text of the others; nothing where it is one value. Between two of
/// them stand a comma and a blank.
pub fn split_value(text: &str) -> Option<(&str, &str)>
    ensures values { MatchOption result (listed_values text.now ≡ text.now ∷ [])
        (λ p. listed_values text.now ≡ p.0.now ∷ listed_values p.1.now) }
    ensures shorter { IfSome result (λ p. length p.1.now < length text.now) }
{
    text.split_once(", ")
}
