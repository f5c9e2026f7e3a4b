//! Options of one name on several levels, and whether their helps say the same.
ghost use Rattle.std.specs.Prelude.{◌≡◌, ◌++◌, ◌∷◌, [], ℕ, List, Some, bytes_eq, codes, encode_utf8, flat_map, map};
ghost use Rattle.std.specs.Prelude.{IfOk, OnOk};
ghost use Rattle.std.specs.Map.{update};
ghost use Rattle.std.specs.Option.{option_map, option_or};
ghost use Rattle.description.specs.View.{name_said, opt_said, spelling_said, text_of};
ghost use Rattle.description_hints.specs.Hints.{beside, beside_those, first_called, help_at, option_helps, site_helps};
ghost use Rattle.description_hints.specs.Names.{called, called_name};
ghost use Rattle.description_hints.specs.Steps.{first_in};
ghost use Rattle.description_hints.specs.View.{help_said, path_said, site_said, warning_said};

use crate::hints::Hint;
use crate::rules::{Warnings, push_if};
use crate::sites::{Part, Site};
use bumpalo::Bump;
use description::{Name, Opt, Spelling};
use description_texts::is_empty;
use keyed::Step;
use std::alloc::AllocError;
use std::collections::BTreeMap;

/// What an option is called, its help, and the way to the option.
#[derive(Clone, Copy)]
pub struct NamedHelp<'p> {
    pub name: &'p str,
    pub help: &'p str,
    pub path: &'p [Step<'p>],
}

type Helps<'p> = Vec<NamedHelp<'p>, &'p Bump>;

// ---- what an option is called

/// A short name with its dash. An error comes only where an allocation failed.
pub fn short_name<'p>(arena: &'p Bump, short: char) -> Result<&'p str, AllocError>
    ensures { IfOk result (λ name. name.now ≡ codes "-" ++ encode_utf8 short) }
{
    let mut name = String::new(arena);
    name.push_str("-")?;
    name.push(short)?;
    arena.try_alloc_str(name.as_str())
}

/// A long name with its dashes. An error comes only where an allocation failed.
pub fn long_name<'p>(arena: &'p Bump, long: &str) -> Result<&'p str, AllocError>
    ensures { IfOk result (λ name. name.now ≡ codes "--" ++ long.now) }
{
    let mut name = String::new(arena);
    name.push_str("--")?;
    name.push_str(long)?;
    arena.try_alloc_str(name.as_str())
}

fn called_name<'p>(arena: &'p Bump, name: Name) -> Result<&'p str, AllocError>
    ensures { IfOk result (λ called. called.now ≡ called_name (name_said name)) }
{
    match name {
        Name::Short(short) => short_name(arena, short),
        Name::Long(long) | Name::Both(_, long) => long_name(arena, long),
    }
}

fn called<'p>(arena: &'p Bump, spelling: Spelling<'p>) -> Result<&'p str, AllocError>
    ensures { IfOk result (λ name. name.now ≡ called (spelling_said spelling.entry)) }
{
    match spelling {
        Spelling::Names(name) => called_name(arena, name),
        Spelling::Syntax(text) => Ok(text),
    }
}

// ---- the helps that there are

fn push_help<'p>(
    helps: &mut Helps<'p>,
    path: &'p [Step<'p>],
    name: &'p str,
    help: Option<&'p str>,
) -> Result<(), AllocError>
    ensures { OnOk result (map help_said helps.new.items ≡ map help_said helps.old.items
        ++ help_at (path_said path.now) name.now (text_of help.entry)) }
{
    let Some(help) = help else {
        return Ok(());
    };
    if !is_empty(help) {
        helps.push(NamedHelp { name, help, path })?;
    }
    Ok(())
}

fn push_option<'p>(
    arena: &'p Bump,
    helps: &mut Helps<'p>,
    path: &'p [Step<'p>],
    option: Opt<'p>,
) -> Result<(), AllocError>
    ensures { OnOk result (map help_said helps.new.items ≡ map help_said helps.old.items
        ++ option_helps (path_said path.now) (opt_said option.entry)) }
{
    if option.hidden {
        return Ok(());
    }
    let name = called(arena, option.spelling)?;
    push_help(helps, path, name, option.help)
}

fn push_site<'p>(arena: &'p Bump, helps: &mut Helps<'p>, site: &Site<'p>) -> Result<(), AllocError>
    ensures { OnOk result (map help_said helps.new.items
        ≡ map help_said helps.old.items ++ site_helps (site_said site.now)) }
{
    match site.part {
        Part::Option { option, .. } => push_option(arena, helps, site.path, option),
        Part::Application(_)
        | Part::Positional(_)
        | Part::Command { .. }
        | Part::Text(_)
        | Part::Usage { .. } => Ok(()),
    }
}

fn helps_in<'p>(arena: &'p Bump, sites: &[Site<'p>]) -> Result<Helps<'p>, AllocError>
    ensures { IfOk result (λ helps. map help_said helps.items ≡ flat_map site_helps (map site_said sites.now)) }
{
    let mut helps: Helps<'p> = Vec::new(arena);
    for site in sites {
        push_site(arena, &mut helps, site)?;
    }
    Ok(helps)
}

// ---- one beside another

// The first help of each name.
type Firsts<'p> = BTreeMap<&'p str, NamedHelp<'p>, &'p Bump>;

fn first_in<'p>(firsts: &Firsts<'p>, name: &str) -> Option<NamedHelp<'p>>
    ensures { option_map help_said result ≡ first_in firsts.now name.now }
{
    match firsts.get(name) {
        Some(first) => Some(*first),
        None => None,
    }
}

fn keep<'p>(firsts: &mut Firsts<'p>, own: NamedHelp<'p>) -> Result<(), AllocError>
    ensures { OnOk result ((name : List ℕ) → first_in firsts.new name
        ≡ update bytes_eq (first_in firsts.old) own.entry.name.now (Some (help_said own.entry)) name) }
{
    firsts.insert(own.name, own)?;
    Ok(())
}

fn push_different<'p>(
    found: &mut Warnings<'p>,
    first: NamedHelp<'p>,
    own: NamedHelp<'p>,
) -> Result<(), AllocError>
    ensures { OnOk result (map warning_said found.new.items ≡ map warning_said found.old.items
        ++ beside (Some (help_said first.entry)) (help_said own.entry)) }
{
    let hint = Hint::DifferentHelp {
        name: own.name,
        first: first.path,
    };
    push_if(found, own.path, first.help != own.help, hint)
}

// Puts the hint about a help beside the first of its name, which is itself where there is none.
fn push_beside<'p>(
    found: &mut Warnings<'p>,
    firsts: &mut Firsts<'p>,
    own: NamedHelp<'p>,
) -> Result<(), AllocError>
    ensures told { OnOk result (map warning_said found.new.items ≡ map warning_said found.old.items
        ++ beside (first_in firsts.old own.entry.name.now) (help_said own.entry)) }
    ensures kept { OnOk result ((name : List ℕ) → first_in firsts.new name
        ≡ option_or (first_in firsts.old name) (first_called name (help_said own.entry ∷ []))) }
{
    match first_in(firsts, own.name) {
        Some(first) => push_different(found, first, own),
        None => keep(firsts, own),
    }
}

fn push_all_beside<'p>(
    arena: &'p Bump,
    found: &mut Warnings<'p>,
    helps: &[NamedHelp<'p>],
) -> Result<(), AllocError>
    ensures { OnOk result (map warning_said found.new.items
        ≡ map warning_said found.old.items ++ beside_those [] (map help_said helps.now)) }
{
    let mut firsts: Firsts<'p> = BTreeMap::new(arena);
    for help in helps {
        push_beside(found, &mut firsts, *help)?;
    }
    Ok(())
}

/// Puts the hints about options of one name whose helps differ. An error comes only where an allocation failed.
pub fn push_all_different<'p>(
    arena: &'p Bump,
    found: &mut Warnings<'p>,
    sites: &[Site<'p>],
) -> Result<(), AllocError>
    ensures { OnOk result (map warning_said found.new.items ≡ map warning_said found.old.items
        ++ beside_those [] (flat_map site_helps (map site_said sites.now))) }
{
    let helps = helps_in(arena, sites)?;
    push_all_beside(arena, found, helps.as_slice())
}
