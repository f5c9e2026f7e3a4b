//! Laws of what pages make of permitted texts, those that every medium writes: pieces of them, and fixed words and
//! marks. Nothing to call, but statements that the check proves. No page rests on them.
#![tactic(auto)]

ghost use Rattle.page_laws.specs.Laws.{BlocksArePermitted, EntriesArePermitted, UsagesArePermitted};
ghost use Rattle.page_laws.specs.Pages.{PagesArePermitted};

/// The blocks of a permitted text have permitted texts alone.
pub fn blocks_are_permitted()
    ensures { BlocksArePermitted }
{}

/// So has the usage of a level whose texts are permitted, in all its forms, also where a text stands in its place.
pub fn usages_are_permitted()
    ensures { UsagesArePermitted }
{}

/// And so have the entries of its options, positional values and commands, with the blocks of a permitted help.
pub fn entries_are_permitted()
    ensures { EntriesArePermitted }
{}

/// No page of a level of permitted texts has a text that its medium refuses: not on a console, in full, in brief or its
/// usage alone, nor in markdown or as a manual page, alone or with the levels below it, nor in HTML. Nor has one of a
/// level to which words lead from there.
pub fn pages_are_permitted()
    ensures { PagesArePermitted }
{}
