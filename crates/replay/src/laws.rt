//! Laws of the definitions that the contracts cite: nothing to call, but statements that the check proves.

ghost use Rattle.replay.specs.Encoding.{PrintedTextsAreRead, WordsSpellOneText};

/// What is printed of a text is a word that spells it.
#[tactic(auto, using(crate::proofs::Spelling::printed_texts_are_read))]
pub fn printed_texts_are_read()
    ensures { PrintedTextsAreRead }
{}

/// A word spells at most one text.
#[tactic(auto, using(crate::proofs::Spelling::words_spell_one_text))]
pub fn words_spell_one_text()
    ensures { WordsSpellOneText }
{}
