//! Laws of pages. Each function is a law: it holds where the function is proved, and calling it does nothing.

ghost use Rattle.html_page.specs.Laws.{IdsAreDistinct, LinksHaveTargets};

/// Each link of a page has an address that a text of the page says, or leads to the id of an element of that page,
/// where each title to which an entry leads is that of a chapter of the page.
pub fn links_have_targets()
    ensures { LinksHaveTargets }
{}

/// No two elements of a page have one id, where no two of its chapters have one title, no title has two blanks in a row
/// or one at its end, and there are fewer than 2^64 ids.
pub fn ids_are_distinct()
    ensures { IdsAreDistinct }
{}
