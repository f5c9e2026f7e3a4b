//! The normal form of a tree, which refers to the items and documents of that tree.
ghost use Rattle.std.specs.Prelude.{◌≡◌, IfOk, OnOk, []};
ghost use Rattle.bpaf_meta.specs.View.{tree_of, trees_of};
ghost use Rattle.bpaf_meta.specs.Meta.Normal.{normal_form, state_out, and_form, or_form, optional_form};
ghost use Rattle.bpaf_meta.specs.Meta.Normal.{optional_many_form, required_form, many_form, custom_usage_form};
ghost use Rattle.bpaf_meta.specs.Meta.Normal.{outer_form, strict_if_asked, state_after, strict_state, without_skips};
ghost use Rattle.bpaf_meta.specs.Meta.Normal.{and_parts, or_parts, or_state, with_first_command, normalized};
ghost use Rattle.bpaf_meta.specs.Meta.Alternatives.{trees_then};
ghost use Rattle.bpaf_meta.specs.Meta.Steps.Forms.{form_of, forms_of};
ghost use Rattle.bpaf_meta.specs.Meta.Steps.Passes.{state_of, unless_skip, after_commands, sees_command};

use crate::meta::Meta;
use crate::meta::form::Form;
use bpaf_doc::buffer::Doc;
use std::alloc::{AllocError, Allocator};

// Whether a `--` is still to be shown, is asked for, or is shown already.
#[derive(Clone, Copy)]
enum State {
    Pull,
    Push,
    Strip,
}

impl State {
    // The state out of a `Strict`.
    fn strict(self) -> State
        ensures { state_of result ≡ strict_state (state_of self) }
    {
        match self {
            State::Pull => State::Push,
            State::Push => State::Push,
            State::Strip => State::Strip,
        }
    }

    // The running state after a part that gives a state.
    fn after(self, given: State) -> State
        ensures { state_of result ≡ state_after (state_of self) (state_of given) }
    {
        match self {
            State::Pull => match given {
                State::Pull => State::Pull,
                State::Push | State::Strip => State::Strip,
            },
            State::Push => State::Push,
            State::Strip => State::Strip,
        }
    }
}

/// The normal form of a tree, which refers to its items and documents.
pub(crate) fn borrowed_form<'a, A: Allocator + Copy>(
    meta: &'a Meta<A>,
    for_usage: bool,
) -> Result<Form<'a, A>, AllocError>
    ensures { IfOk result (λ f. form_of f ≡ normalized for_usage (tree_of meta.now)) }
{
    let mut state = State::Pull;
    let form = make_outer(normalize(meta, for_usage, &mut state)?)?;
    match (state, meta.allocator()) {
        (State::Push, Some(alloc)) => Ok(Form::Strict(Box::new(alloc, form)?)),
        _ => Ok(form),
    }
}

// The form of a tree. The state that comes in is replaced by the one that comes out.
#[cycle(normal)]
fn normalize<'a, A: Allocator + Copy>(
    meta: &'a Meta<A>,
    for_usage: bool,
    state: &mut State,
) -> Result<Form<'a, A>, AllocError>
    ensures form { IfOk result (λ f. form_of f ≡ normal_form for_usage (state_of state.old) (tree_of meta.now)) }
    ensures state { OnOk result (state_of state.new ≡ state_out (state_of state.old) (tree_of meta.now)) }
{
    match meta {
        Meta::And(parts) => Ok(make_and(normalize_and(parts, for_usage, *state)?)),
        Meta::Or(parts) => normalize_or(parts, for_usage, state),
        Meta::Optional(inner) => {
            make_optional(*Box::allocator(inner), normalize(inner, for_usage, state)?)
        }
        Meta::Required(inner) => {
            make_required(*Box::allocator(inner), normalize(inner, for_usage, state)?)
        }
        Meta::Many(inner) => {
            make_many(*Box::allocator(inner), normalize(inner, for_usage, state)?)
        }
        Meta::Adjacent(inner) | Meta::Subsection(inner, _) | Meta::Suffix(inner, _) => {
            normalize(inner, for_usage, state)
        }
        Meta::CustomUsage(inner, usage) => {
            let form = normalize(inner, for_usage, state)?;
            make_custom_usage(*Box::allocator(inner), for_usage, form, usage)
        }
        Meta::Strict(inner) => {
            let form = normalize(inner, for_usage, state)?;
            *state = state.strict();
            Ok(form)
        }
        Meta::Item(item) => Ok(Form::Item(item, for_usage)),
        Meta::Skip => Ok(Form::Skip),
    }
}

// The parts of an `And`, each from the running state, without those that are `Skip`.
#[cycle(normal)]
fn normalize_and<'a, A: Allocator + Copy>(
    parts: &'a Vec<Meta<A>, A>,
    for_usage: bool,
    state: State,
) -> Result<Vec<Form<'a, A>, A>, AllocError>
    ensures { IfOk result (λ v. forms_of v.items
        ≡ without_skips (and_parts for_usage (state_of state) (trees_of parts.now.items))) }
{
    let mut kept: Vec<Form<'a, A>, A> = room_for(*parts.allocator(), parts.len())?;
    let mut running = state;
    for part in parts {
        let mut given = running;
        let form = normalize(part, for_usage, &mut given)?;
        keep(&mut kept, guard(*parts.allocator(), running, given, form)?)?;
        running = running.after(given);
    }
    Ok(kept)
}

// The parts of an `Or`, each from the state that came in, without those that are `Skip` and without the commands after
// the first.
#[cycle(normal)]
fn normalize_or<'a, A: Allocator + Copy>(
    parts: &'a Vec<Meta<A>, A>,
    for_usage: bool,
    state: &mut State,
) -> Result<Form<'a, A>, AllocError>
    ensures form { IfOk result (λ f. form_of f
        ≡ or_form
        (with_first_command
        (without_skips (or_parts for_usage (state_of state.old) (state_of state.old) (trees_of parts.now.items))))) }
    ensures state { OnOk result (state_of state.new
        ≡ or_state (state_of state.old) (state_of state.old) (trees_of parts.now.items)) }
{
    let mut kept: Vec<Form<'a, A>, A> = room_for(*parts.allocator(), parts.len())?;
    let mut seen_command = false;
    let first = *state;
    for part in parts {
        let mut given = first;
        let form = normalize(part, for_usage, &mut given)?;
        let form = guard(*parts.allocator(), *state, given, form)?;
        seen_command = keep_alternative(&mut kept, seen_command, form)?;
        *state = state.after(given);
    }
    make_or(kept)
}

fn room_for<'a, A: Allocator>(alloc: A, count: usize) -> Result<Vec<Form<'a, A>, A>, AllocError>
    ensures { IfOk result (λ v. v.items ≡ []) }
{
    Vec::with_capacity(alloc, count)
}

// Puts a part into `Strict` where the running state is Pull and the part gives Push.
fn guard<'a, A: Allocator + Copy>(
    alloc: A,
    running: State,
    given: State,
    part: Form<'a, A>,
) -> Result<Form<'a, A>, AllocError>
    ensures { IfOk result (λ m. form_of m ≡ strict_if_asked (state_of running) (state_of given) (form_of part.entry)) }
{
    match running {
        State::Pull => match given {
            State::Push => Ok(Form::Strict(Box::new(alloc, part)?)),
            State::Pull | State::Strip => Ok(part),
        },
        State::Push | State::Strip => Ok(part),
    }
}

// Appends a part, unless it is `Skip`.
#[tactic(auto, using(crate::proofs::lemmas::Normal::Parts::parts_lemmas))]
fn keep<'a, A: Allocator>(
    kept: &mut Vec<Form<'a, A>, A>,
    part: Form<'a, A>,
) -> Result<(), AllocError>
    ensures { OnOk result (forms_of kept.new.items
        ≡ trees_then (forms_of kept.old.items) (unless_skip (form_of part.entry))) }
{
    if !part.is_skip() {
        kept.push(part)?;
    }
    Ok(())
}

// Appends a part, unless it is `Skip` or a command after a command. Returns whether a command was seen.
#[tactic(auto, using(crate::proofs::lemmas::Normal::Parts::parts_lemmas))]
fn keep_alternative<'a, A: Allocator>(
    kept: &mut Vec<Form<'a, A>, A>,
    seen_command: bool,
    part: Form<'a, A>,
) -> Result<bool, AllocError>
    ensures kept { OnOk result (forms_of kept.new.items
        ≡ trees_then (forms_of kept.old.items) (after_commands seen_command (unless_skip (form_of part.entry)))) }
    ensures seen { IfOk result (λ seen. seen ≡ sees_command seen_command (form_of part.entry)) }
{
    let is_command = part.is_command();
    if !(is_command && seen_command) {
        keep(kept, part)?;
    }
    Ok(seen_command || is_command)
}

// None give `Skip`, one stands alone, more are an `And`.
#[tactic(auto, using(crate::proofs::lemmas::Normal::Parts::parts_lemmas))]
fn make_and<'a, A: Allocator>(mut parts: Vec<Form<'a, A>, A>) -> Form<'a, A>
    ensures { form_of result ≡ and_form (forms_of parts.entry.items) }
{
    if parts.len() > 1 {
        return Form::And(parts);
    }
    match parts.pop() {
        Some(part) => part,
        None => Form::Skip,
    }
}

// None give `Skip`, one stands alone, more are an `Or` in a `Required`.
#[tactic(auto, using(crate::proofs::lemmas::Normal::Parts::parts_lemmas))]
fn make_or<'a, A: Allocator + Copy>(
    mut parts: Vec<Form<'a, A>, A>,
) -> Result<Form<'a, A>, AllocError>
    ensures { IfOk result (λ m. form_of m ≡ or_form (forms_of parts.entry.items)) }
{
    if parts.len() > 1 {
        let alloc = *parts.allocator();
        return Ok(Form::Required(Box::new(alloc, Form::Or(parts))?));
    }
    match parts.pop() {
        Some(part) => Ok(part),
        None => Ok(Form::Skip),
    }
}

fn make_optional<'a, A: Allocator + Copy>(
    alloc: A,
    form: Form<'a, A>,
) -> Result<Form<'a, A>, AllocError>
    ensures { IfOk result (λ m. form_of m ≡ optional_form (form_of form.entry)) }
{
    match form {
        Form::Skip => Ok(Form::Skip),
        Form::Required(inner) => Ok(Form::Optional(inner)),
        Form::Optional(inner) => Ok(Form::Optional(inner)),
        Form::Many(inner) => make_optional_many(alloc, Box::into_inner(inner)),
        other => Ok(Form::Optional(Box::new(alloc, other)?)),
    }
}

// The optional form of what may be repeated.
fn make_optional_many<'a, A: Allocator + Copy>(
    alloc: A,
    repeated: Form<'a, A>,
) -> Result<Form<'a, A>, AllocError>
    ensures { IfOk result (λ m. form_of m ≡ optional_many_form (form_of repeated.entry)) }
{
    match repeated {
        Form::Required(inner) => Ok(Form::Many(Box::new(alloc, Form::Optional(inner))?)),
        other => {
            let many = Form::Many(Box::new(alloc, other)?);
            Ok(Form::Optional(Box::new(alloc, many)?))
        }
    }
}

fn make_required<'a, A: Allocator + Copy>(
    alloc: A,
    form: Form<'a, A>,
) -> Result<Form<'a, A>, AllocError>
    ensures { IfOk result (λ m. form_of m ≡ required_form (form_of form.entry)) }
{
    match form {
        Form::And(_) | Form::Or(_) => Ok(Form::Required(Box::new(alloc, form)?)),
        other => Ok(other),
    }
}

fn make_many<'a, A: Allocator + Copy>(
    alloc: A,
    form: Form<'a, A>,
) -> Result<Form<'a, A>, AllocError>
    ensures { IfOk result (λ m. form_of m ≡ many_form (form_of form.entry)) }
{
    match form {
        Form::Skip => Ok(Form::Skip),
        other => Ok(Form::Many(Box::new(alloc, other)?)),
    }
}

fn make_custom_usage<'a, A: Allocator + Copy>(
    alloc: A,
    for_usage: bool,
    form: Form<'a, A>,
    usage: &'a Doc<A>,
) -> Result<Form<'a, A>, AllocError>
    ensures { IfOk result (λ m. form_of m ≡ custom_usage_form for_usage (form_of form.entry) usage.now) }
{
    if !for_usage {
        return Ok(form);
    }
    if usage.is_empty() {
        return Ok(Form::Skip);
    }
    Ok(Form::CustomUsage(Box::new(alloc, form)?, usage))
}

// One outer `Required` is removed, unless it is around an `Or`; one is put around a bare `Or`.
fn make_outer<'a, A: Allocator + Copy>(form: Form<'a, A>) -> Result<Form<'a, A>, AllocError>
    ensures { IfOk result (λ m. form_of m ≡ outer_form (form_of form.entry)) }
{
    match form {
        Form::Required(inner) => match *inner {
            Form::Or(_) => Ok(Form::Required(inner)),
            _ => Ok(Box::into_inner(inner)),
        },
        Form::Or(parts) => {
            let alloc = *parts.allocator();
            Ok(Form::Required(Box::new(alloc, Form::Or(parts))?))
        }
        other => Ok(other),
    }
}
