//! Laws of the description that a TOML text gives, and of its pages: nothing to call, but statements that the check
//! proves. No page rests on them, so they stand above `description_toml` and `command_pages`, and whoever reads a
//! description or makes pages need not have them proved.
#![tactic(auto)]

ghost use Rattle.description_laws.specs.HtmlPages.{HtmlIdsAreDistinct, HtmlLinksHaveTargets};
ghost use Rattle.description_laws.specs.Plain.{TextsArePlain};
ghost use Rattle.description_laws.specs.ReadOnce.{TitlesAreReadOnce};
ghost use Rattle.description_laws.specs.Written.{PagesAreWritten};

/// No text and no name of a description that a TOML text gives holds a control character other than newline and tab,
/// nor a noncharacter of Unicode.
pub fn texts_are_plain()
    ensures { TextsArePlain }
{}

/// In a description that a TOML text gives, no word of the title line of its manual page, no title of a group or of a
/// topic, no name of a command and no fixed word holds a backslash or a double quote. So a macro that reads its
/// arguments a second time reads the same words.
pub fn titles_are_read_once()
    ensures { TitlesAreReadOnce }
{}

/// Each link on the page in HTML of a level, of any description, leads to the id of an element of that page or to an
/// address that a text of a level says.
pub fn html_links_have_targets()
    ensures { HtmlLinksHaveTargets }
{}

/// No two elements of the page in HTML of a level of a description that a TOML text gives, of the application or of a
/// command, have one id, where there are fewer than 2^64 of them and the names are UTF-8, as those of every value are.
pub fn html_ids_are_distinct()
    ensures { HtmlIdsAreDistinct }
{}

/// No medium refuses a text of a page of a description that a TOML text gives: no page on a console, as a manual page
/// or in markdown has a fault, of the application or of a command, alone or with the levels below it, and none in HTML
/// has the fault `Character`. The texts are UTF-8, as those of every value are. A date and a vendor that are given in
/// the place of its own are permitted too.
pub fn pages_are_written()
    ensures { PagesAreWritten }
{}
