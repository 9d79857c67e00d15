//! Walks over statements.

use crate::asking::Ask;
use crate::choices::pass_choice;
use crate::halt::{Halt, halt_of};
use crate::heading::Heading;
use crate::rules::shapes_taken;
use crate::terms::{pass_at, pass_each, pass_truth};
use crate::unknown::Sought;
use ioa_names::View;
use ioa_refusals::Refusal;
use ioa_sort_rules::{Sides, entry_of, shape_in_terms, value_of_field};
use ioa_source::Entry;
use ioa_terms::{Arm, Firing, Kind, Shape, Statement, Target, Term, Word};
use ioa_tokens::Mark;
use ioa_walk::{Part, Walk, one_token};

/// Where statements are written.
#[derive(Clone, Copy)]
pub(crate) struct Site<'a> {
    /// The automaton.
    pub heading: &'a Heading<'a>,
    /// The names in view.
    pub view: &'a View<'a>,
    /// How many of them may be assigned.
    pub variables: usize,
    /// How many of them are variables: in a schedule block those of the state too.
    pub all_variables: usize,
}

/// Passes statements. The walk ends at the first part of them that is refused as was told.
#[cycle(statements)]
pub(crate) fn pass_statements(
    walk: &mut Walk<'_>,
    site: &Site<'_>,
    statements: &Vec<Statement<(), (), ()>>,
) -> Result<(), Halt> {
    for statement in statements {
        pass_statement(walk, site, statement)?;
    }
    Ok(())
}

/// Passes a statement.
#[cycle(statements)]
fn pass_statement(
    walk: &mut Walk<'_>,
    site: &Site<'_>,
    statement: &Statement<(), (), ()>,
) -> Result<(), Halt> {
    match statement {
        Statement::Assign(target, term) => pass_assignment(walk, site, target, term),
        Statement::If(arms, rest) => {
            pass_arms(walk, site, arms)?;
            pass_statements(walk, site, rest)
        }
        Statement::While(test, body) => {
            pass_test(walk, site, test)?;
            pass_statements(walk, site, body)
        }
        Statement::Fire(firing) => pass_firing(walk, site, firing),
        Statement::Choose(choice) => pass_choice(walk, site, choice),
    }
}

/// Passes the arms of an `if`.
#[cycle(statements)]
fn pass_arms(
    walk: &mut Walk<'_>,
    site: &Site<'_>,
    arms: &Vec<Arm<(), (), ()>>,
) -> Result<(), Halt> {
    for arm in arms {
        pass_arm(walk, site, arm)?;
    }
    Ok(())
}

/// Passes an arm of an `if`.
#[cycle(statements)]
fn pass_arm(walk: &mut Walk<'_>, site: &Site<'_>, arm: &Arm<(), (), ()>) -> Result<(), Halt> {
    pass_test(walk, site, &arm.test)?;
    pass_statements(walk, site, &arm.body)
}

/// Passes a test, which is a truth value.
fn pass_test(walk: &mut Walk<'_>, site: &Site<'_>, test: &Term) -> Result<(), Halt> {
    let _part = pass_truth(walk, &site.heading.ask.in_view(site.view), test)?;
    Ok(())
}

/// Passes an assignment.
fn pass_assignment(
    walk: &mut Walk<'_>,
    site: &Site<'_>,
    target: &Target<(), (), ()>,
    term: &Term,
) -> Result<(), Halt> {
    let want = pass_target(walk, site, target)?;
    pass_assigned(walk, site, term, &want)
}

/// Passes the target of an assignment. Returns the shape of what is assigned to it.
pub(crate) fn pass_target(
    walk: &mut Walk<'_>,
    site: &Site<'_>,
    target: &Target<(), (), ()>,
) -> Result<Shape, Halt> {
    match target {
        Target::Variable(name, _, _) => pass_variable(walk, site, name),
        Target::At(name, _, _, key) => pass_key(walk, site, name, key),
        Target::Field(name, _, _, field) => pass_field(walk, site, name, field),
    }
}

/// Passes the term that is assigned at the place of a shape.
fn pass_assigned(
    walk: &mut Walk<'_>,
    site: &Site<'_>,
    term: &Term,
    want: &Shape,
) -> Result<(), Halt> {
    let _assign = walk.mark(Mark::Assign)?;
    pass_at(walk, &site.heading.ask.in_view(site.view), term, want)
}

/// The declared shape of a variable that may be assigned. The walk ends at its name if it is none, and that was told.
fn assigned<'a>(site: &'a Site<'a>, name: &Word, part: Part) -> Result<&'a Shape, Halt> {
    if let Some((_, shape)) = site.view.find_variable(name, site.variables) {
        return Ok(shape);
    }
    if site.view.find_variable(name, site.all_variables).is_some() {
        site.heading
            .ask
            .told_at(Refusal::ScheduleAssignsState, part)?;
    } else {
        let sought = Sought::Variables(site.view, site.variables);
        site.heading.ask.unknown_at(part, sought, name)?;
    }
    Err(Halt::Lost)
}

/// Passes a variable that is assigned. Returns its declared shape.
fn pass_variable(walk: &mut Walk<'_>, site: &Site<'_>, name: &Word) -> Result<Shape, Halt> {
    let part = one_token(walk.word(name)?);
    let declared = assigned(site, name, part)?;
    Ok(declared.try_copy(site.heading.ask.alloc)?)
}

/// Passes `x[t]`, which is assigned. Returns the shape of the values of the map.
fn pass_key(walk: &mut Walk<'_>, site: &Site<'_>, name: &Word, key: &Term) -> Result<Shape, Halt> {
    let sides = pass_map(walk, site, name)?;
    match pass_at(
        walk,
        &site.heading.ask.in_view(site.view),
        key,
        &sides.other,
    ) {
        Ok(()) => Ok(sides.whole),
        Err(halt) => Err(halt),
    }
}

/// Passes the name of a map that is assigned at a key. Returns the shapes of its keys and of its values.
fn pass_map(walk: &mut Walk<'_>, site: &Site<'_>, name: &Word) -> Result<Sides, Halt> {
    let part = one_token(walk.word(name)?);
    let declared = assigned(site, name, part)?;
    let map = shape_in_terms(site.heading.ask.alloc, declared)?;
    sides_of(site.heading.ask, &map, part)
}

/// The shapes of the keys and of the values of a map. The walk ends at its name if it is none, and that was told.
fn sides_of(ask: &Ask<'_>, map: &Shape, part: Part) -> Result<Sides, Halt> {
    match entry_of(ask.alloc, map) {
        Ok(sides) => Ok(sides),
        Err(refusal) => {
            ask.told_at(refusal, part)?;
            Err(halt_of(refusal))
        }
    }
}

/// Passes `x.f`, which is assigned. Returns the shape of the field.
fn pass_field(
    walk: &mut Walk<'_>,
    site: &Site<'_>,
    name: &Word,
    field: &Word,
) -> Result<Shape, Halt> {
    let ask = site.heading.ask;
    let first = walk.word(name)?;
    let last = walk.word(field)?;
    let declared = assigned(site, name, one_token(first))?;
    match value_of_field(ask.alloc, field, declared) {
        Ok(shape) => Ok(shape),
        Err(refusal) => {
            ask.told_at(refusal, Part { first, last })?;
            Err(halt_of(refusal))
        }
    }
}

/// Whether a kind is the one that is written, if one is.
fn is_of_kind(written: Option<Kind>, kind: Kind) -> bool {
    match written {
        None => true,
        Some(other) => other == kind,
    }
}

/// Passes a `fire`. A kind that is written stands before the name.
fn pass_firing(
    walk: &mut Walk<'_>,
    site: &Site<'_>,
    firing: &Firing<(), (), ()>,
) -> Result<(), Halt> {
    let fire = walk.mark(Mark::Fire)?;
    let name = walk.word(&firing.action)?;
    let last = walk.called(name)?;
    let part = Part {
        first: fire.saturating_add(1),
        last,
    };
    match site.heading.entry_named(&firing.action) {
        None => {
            let sought = Sought::Entries(site.heading.entries);
            site.heading
                .ask
                .unknown_at(one_token(name), sought, &firing.action)?;
            Err(Halt::Lost)
        }
        Some(entry) => {
            pass_fired(walk, site, firing, entry, part)?;
            walk.go_behind(last);
            Ok(())
        }
    }
}

/// Passes the arguments of a `fire` of an entry.
fn pass_fired(
    walk: &mut Walk<'_>,
    site: &Site<'_>,
    firing: &Firing<(), (), ()>,
    entry: &Entry<(), (), ()>,
    part: Part,
) -> Result<(), Halt> {
    let ask = site.heading.ask;
    if !is_of_kind(firing.kind, entry.kind) {
        ask.told_at(Refusal::Unknown, part)?;
    }
    let shapes = shapes_taken(ask, site.heading.given, entry)?;
    pass_each(walk, &ask.in_view(site.view), &firing.arguments, &shapes)?;
    ask.count_at(part, &firing.action, shapes.len(), firing.arguments.len())
}
