//! Laws of the definitions that the contracts cite: nothing to call, but statements that the check proves.
ghost use Rattle.description_pages.specs.Chapters.{EachLevelHasItsChapter};
ghost use Rattle.description_pages.specs.Listed.{EachKeyIsListedOnce, HelpOptionsAreListed};
ghost use Rattle.description_pages.specs.Media.{MediaListTheSame};
ghost use Rattle.description_pages.specs.Subjects.{EachCommandIsThere};

/// Of the levels below one, none is missing: with each level, each command on it is there too, and what is below that,
/// unless it is hidden.
pub fn each_command_is_there()
    ensures { EachCommandIsThere }
{}

/// Each level from one on that is not hidden has its chapter, in the order of `all_from`, and there is no other. What
/// the options that ask for help do is said in the first alone.
pub fn each_level_has_its_chapter()
    ensures { EachLevelHasItsChapter }
{}

/// A level shows the same lists of entries in all media, and no others, in one order, on a page of its own, after
/// another level and as a chapter.
pub fn media_list_the_same()
    ensures { MediaListTheSame }
{}

/// Each list of a page has the entries of the rows of its level, in order: one of those with one key, and none with any
/// other key. There is no other list.
pub fn each_key_is_listed_once()
    ensures { EachKeyIsListedOnce }
{}

/// Each option that asks for help is shown among the options of each level, unless it is hidden or one with its key
/// stands before it.
pub fn help_options_are_listed()
    ensures { HelpOptionsAreListed }
{}
