//! Steps and blocks that met a fault, as text.

ghost use Rattle.std.specs.Prelude.{◌≡◌, IfOk, OnOk, map};
ghost use Rattle.std.specs.Option.{option_copied};
ghost use Rattle.ioa_terms.specs.View.{target_of, term_of};
ghost use Rattle.ioa_values.specs.Outcome.{Writes};
ghost use Rattle.ioa_paper.specs.Papers.{and_text};
ghost use Rattle.ioa_reasons.specs.PlainReasons.{fault_of, place_of, statement_place_of};
ghost use Rattle.ioa_tell_text.specs.Stops as spec;

use crate::changes::put_word;
use crate::kept::KeptText;
use crate::terms::{push_parts, push_term};
use crate::tests::push_values;
use ioa_paper::Paper;
use ioa_reasons::{Fault, Place, StatementPlace};
use ioa_streams::Out;
use ioa_terms::{Callee, Checked, Choice, Shape, Target};
use ioa_values::{Names, Value, Word, push_shown};
use std::alloc::{AllocError, Global};

/// The part at which a step stops, with its place and the values of its names, as text.
pub(crate) fn stop_text(
    alloc: Global,
    names: &Names,
    place: Place<'_>,
    fault: Fault<'_>,
) -> Result<KeptText, AllocError>
    ensures { IfOk result
        (λ t. t ≡ spec.stop_text names.now (place_of place.entry) (fault_of fault.entry)) }
{
    let mut out = String::new(alloc);
    push_stop(alloc, &mut out, names, place, fault)?;
    Ok(KeptText::new(out))
}

/// The part at which a block stops, with its statement and the values of its names, as text.
pub(crate) fn stuck_text(
    alloc: Global,
    names: &Names,
    place: StatementPlace<'_>,
    fault: Fault<'_>,
) -> Result<KeptText, AllocError>
    ensures { IfOk result
        (λ t. t ≡ spec.stuck_text names.now (statement_place_of place.entry) (fault_of fault.entry)) }
{
    let mut out = String::new(alloc);
    push_stuck(alloc, &mut out, names, place, fault)?;
    Ok(KeptText::new(out))
}

/// Writes at which part a step stops.
pub(crate) fn push_stop(
    alloc: Global,
    out: &mut String,
    names: &Names,
    place: Place<'_>,
    fault: Fault<'_>,
) -> Result<(), AllocError>
    ensures { OnOk result
        (Writes out.old out.new (spec.stop_text names.now (place_of place.entry) (fault_of fault.entry))) }
{
    match place {
        Place::Condition => {
            out.push_str("its where")?;
            push_fault(alloc, out, names, fault)
        }
        Place::Guard => {
            out.push_str("its guard")?;
            push_fault(alloc, out, names, fault)
        }
        Place::Effect(place) => push_stuck(alloc, out, names, place, fault),
    }
}

/// Writes at which part a statement stops, or that its choice is not allowed.
fn push_stuck(
    alloc: Global,
    out: &mut String,
    names: &Names,
    place: StatementPlace<'_>,
    fault: Fault<'_>,
) -> Result<(), AllocError>
    ensures { OnOk result (Writes out.old out.new
        (spec.stuck_text names.now (statement_place_of place.entry) (fault_of fault.entry))) }
{
    if is_refused(place, fault.value) {
        push_refused(alloc, out, names, fault)
    } else {
        push_statement_place(out, place)?;
        push_fault(alloc, out, names, fault)
    }
}

/// Whether it is the condition of a choice that stops, and has a value.
fn is_refused(place: StatementPlace<'_>, value: Option<&Value>) -> bool
    ensures { result ≡ spec.is_refused (statement_place_of place.entry) (option_copied value.entry) }
{
    match place {
        StatementPlace::Assigned(_, _)
        | StatementPlace::Tested(_)
        | StatementPlace::Repeated(_)
        | StatementPlace::Fired(_)
        | StatementPlace::Chosen(_) => false,
        StatementPlace::Allowed(_) => match value {
            None => false,
            Some(_) => true,
        },
    }
}

/// Writes that a choice is not allowed: this part of its condition is false.
fn push_refused(
    alloc: Global,
    out: &mut String,
    names: &Names,
    fault: Fault<'_>,
) -> Result<(), AllocError>
    ensures { OnOk result (Writes out.old out.new (spec.refused_text names.now (fault_of fault.entry))) }
{
    out.push_str("its choice is not allowed: ")?;
    push_term(out, fault.part)?;
    out.push_str(" is false")?;
    push_values(alloc, out, names, fault.values)
}

/// Writes the part at which something stops with the values of its names, and its own value, if it has one.
fn push_fault(
    alloc: Global,
    out: &mut String,
    names: &Names,
    fault: Fault<'_>,
) -> Result<(), AllocError>
    ensures { OnOk result (Writes out.old out.new (spec.fault_text names.now (fault_of fault.entry))) }
{
    out.push_str(" stops at ")?;
    push_term(out, fault.part)?;
    push_values(alloc, out, names, fault.values)?;
    push_misfit(out, names, fault.value)
}

/// Writes a value that is not of the sort of its place, if there is one.
fn push_misfit(out: &mut String, names: &Names, value: Option<&Value>) -> Result<(), AllocError>
    ensures { OnOk result (Writes out.old out.new (spec.misfit_text names.now (option_copied value.entry))) }
{
    match value {
        None => Ok(()),
        Some(value) => {
            out.push_str(": ")?;
            push_sort(out, names, value)
        }
    }
}

/// Writes that a value is not of the sort of its place.
fn push_sort(out: &mut String, names: &Names, value: &Value) -> Result<(), AllocError>
    ensures { OnOk result (Writes out.old out.new (spec.sort_text names.now value.now)) }
{
    push_shown(out, names, value)?;
    out.push_str(" is not of its sort")
}

/// The argument of an action that is not of the sort of its parameter, as text.
pub(crate) fn unfit_text(
    alloc: Global,
    names: &Names,
    name: &Word,
    value: &Value,
) -> Result<KeptText, AllocError>
    ensures { IfOk result (λ t. t ≡ spec.unfit_text names.now name.now value.now) }
{
    let mut out = String::new(alloc);
    push_unfit(&mut out, names, name, value)?;
    Ok(KeptText::new(out))
}

/// Writes which argument is not of the sort of its parameter.
pub(crate) fn push_unfit(
    out: &mut String,
    names: &Names,
    name: &Word,
    value: &Value,
) -> Result<(), AllocError>
    ensures { OnOk result (Writes out.old out.new (spec.unfit_text names.now name.now value.now)) }
{
    out.push_str("argument ")?;
    out.push_str(name.as_str())?;
    out.push_str(" = ")?;
    push_sort(out, names, value)
}

/// Writes a statement without the bodies that it has; of a choice the term or the condition that stops.
fn push_statement_place(out: &mut String, place: StatementPlace<'_>) -> Result<(), AllocError>
    ensures { OnOk result (Writes out.old out.new
        (spec.statement_place_text (statement_place_of place.entry))) }
{
    match place {
        StatementPlace::Assigned(target, term) => {
            push_target(out, target)?;
            out.push_str(" := ")?;
            push_term(out, term)
        }
        StatementPlace::Tested(test) => {
            out.push_str("if ")?;
            push_term(out, test)
        }
        StatementPlace::Repeated(test) => {
            out.push_str("while ")?;
            push_term(out, test)
        }
        StatementPlace::Fired(firing) => {
            out.push_str("fire ")?;
            out.push_str(firing.action.as_str())?;
            push_arguments(out, &firing.arguments)
        }
        StatementPlace::Chosen(choice) => {
            push_choice(out, choice)?;
            out.push_str(" yield ")?;
            push_term(out, &choice.yields)
        }
        StatementPlace::Allowed(choice) => {
            push_choice(out, choice)?;
            out.push_str(" where ")?;
            push_term(out, &choice.condition)
        }
    }
}

/// Writes what a choice assigns, and the name of its value.
fn push_choice(out: &mut String, choice: &Choice<usize, Callee, Shape>) -> Result<(), AllocError>
    ensures { OnOk result (Writes out.old out.new
        (spec.choice_text (target_of choice.now.target) choice.now.name)) }
{
    push_target(out, &choice.target)?;
    out.push_str(" := choose ")?;
    out.push_str(choice.name.as_str())
}

/// Writes a target.
fn push_target(out: &mut String, target: &Target<usize, Callee, Shape>) -> Result<(), AllocError>
    ensures { OnOk result (Writes out.old out.new (spec.target_text (target_of target.now))) }
{
    match target {
        Target::Variable(name, _, _) => out.push_str(name.as_str()),
        Target::At(name, _, _, key) => {
            out.push_str(name.as_str())?;
            out.push_str("[")?;
            push_term(out, key)?;
            out.push_str("]")
        }
        Target::Field(name, _, _, field) => {
            out.push_str(name.as_str())?;
            out.push_str(".")?;
            out.push_str(field.as_str())
        }
    }
}

/// Writes the arguments of a `fire` in brackets, if there are any.
fn push_arguments(out: &mut String, arguments: &Vec<Checked>) -> Result<(), AllocError>
    ensures { OnOk result (Writes out.old out.new (spec.arguments_text (map term_of arguments.now.items))) }
{
    if arguments.is_empty() {
        return Ok(());
    }
    out.push_str("(")?;
    push_parts(out, arguments)?;
    out.push_str(")")
}

/// Writes the line of a node whose block met a fault.
pub(crate) fn put_stuck<O: Out>(paper: &mut Paper<'_, O>, node: i64, why: &KeptText)
    ensures { paper.new ≡ and_text paper.old (spec.stuck_line node why.now) }
{
    put_word(paper, "  fault @", node);
    paper.put(": ");
    paper.put(why.as_str());
    paper.put("\n");
}
