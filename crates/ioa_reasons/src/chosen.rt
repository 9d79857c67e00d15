//! Where a choice of an effect stops.

ghost use Rattle.std.specs.Prelude.{◌≡◌, ◌∷◌, [], IfOk, IfSome, Ok, length};
ghost use Rattle.ioa_terms.specs.Meaning.{answer};
ghost use Rattle.ioa_terms.specs.Performance.{with_chosen};
ghost use Rattle.ioa_terms.specs.Resolved.{IsResolved, IsResolvedChoice, IsResolvedStatement};
ghost use Rattle.ioa_terms.specs.View.{choice_of, statement_of, term_of};
ghost use Rattle.ioa_terms.specs.Views.{IsNamed, all_names, environment_of, names_in_view, own_names};
ghost use Rattle.ioa_reasons.specs.PlainReasons.{allowed, statement_place_of};
ghost use Rattle.ioa_reasons.specs.FoundFaults.{fault_found};
ghost use Rattle.ioa_reasons.specs.Stopping.{StopsAt, StopsBehind};
ghost use Rattle.ioa_reasons.specs.Stops.{IsStopIn};

use crate::falsified::false_part;
use crate::found::{FoundFault, StatementFault, names_of_part, stopped_with};
use crate::misfits::{is_misfit, misfit_where_put};
use crate::reason::StatementPlace;
use crate::stops::{Stop, faulty_in, faulty_in_assignment};
use ioa_terms::{
    Callee, Choice, Choices, EffectFault, Name, Shape, Statement, TermFault, View, Word, eval,
    perform,
};
use ioa_values::{Value, copies};
use std::alloc::{AllocError, Global};
use std::slice;

/// Performs a statement in which each choice takes what its own term yields. Whether it was performed.
pub(crate) fn is_performed(
    alloc: Global,
    statement: &Statement<usize, Callee, Shape>,
    view: &View,
    values: &mut Vec<Value>,
) -> Result<bool, AllocError>
    requires resolved { IsResolvedStatement (statement_of statement.now)
        (own_names view.now (length values.old.items)) (names_in_view view.now) }
    requires named { IsNamed view.now values.old.items }
    requires front { view.now.front.now ≡ [] }
    ensures kept { length values.new.items ≡ length values.old.items }
{
    let mut choices = Choices::Yielded(Vec::new(alloc));
    match perform(
        alloc,
        slice::from_ref(statement),
        view,
        values,
        &mut choices,
    ) {
        Ok(()) => Ok(true),
        Err(EffectFault::Memory) => Err(AllocError),
        Err(_) => Ok(false),
    }
}

/// Where a choice stops: at a part of its key or of the term that yields the value, or behind that value.
pub(crate) fn stop_in_choice<'a>(
    alloc: Global,
    choice: &'a Choice<usize, Callee, Shape>,
    view: &View,
    values: &[Value],
) -> Result<Stop<'a>, AllocError>
    requires resolved { IsResolvedChoice (choice_of choice.now)
        (own_names view.now (length values.now)) (names_in_view view.now) }
    requires named { IsNamed view.now values.now }
    requires front { view.now.front.now ≡ [] }
    ensures { IfOk result (λ s. IsStopIn view.now values.now s) }
{
    match faulty_in_assignment(alloc, &choice.target, &choice.yields, view, values)? {
        Some(part) => Ok(Stop::At(StatementPlace::Chosen(choice), part)),
        None => stop_at_value(alloc, choice, view, values),
    }
}

/// The same at the value that is yielded, which may not be of the choice's sort.
fn stop_at_value<'a>(
    alloc: Global,
    choice: &'a Choice<usize, Callee, Shape>,
    view: &View,
    values: &[Value],
) -> Result<Stop<'a>, AllocError>
    requires resolved { IsResolvedChoice (choice_of choice.now)
        (own_names view.now (length values.now)) (names_in_view view.now) }
    requires named { IsNamed view.now values.now }
    requires front { view.now.front.now ≡ [] }
    ensures { IfOk result (λ s. IsStopIn view.now values.now s) }
{
    if is_misfit(alloc, &choice.yields, &choice.shape, view, values)? {
        Ok(Stop::Misfit(StatementPlace::Chosen(choice), &choice.yields))
    } else {
        Ok(Stop::Behind(choice))
    }
}

/// The part at which a choice stops behind its value: of its condition, or else one whose value has not the shape of
/// the place that is assigned.
pub(crate) fn stopped_behind<'a>(
    alloc: Global,
    choice: &'a Choice<usize, Callee, Shape>,
    view: &View,
    values: &[Value],
) -> Result<Option<StatementFault<'a>>, AllocError>
    requires resolved { IsResolvedChoice (choice_of choice.now)
        (own_names view.now (length values.now)) (names_in_view view.now) }
    requires named { IsNamed view.now values.now }
    requires front { view.now.front.now ≡ [] }
    ensures { IfOk result (λ o. IfSome o (λ f. StopsAt (statement_place_of f.place)
        (environment_of view.now values.now) (fault_found f.fault))) }
{
    match fault_of_choice(alloc, choice, view, values)? {
        Some(fault) => Ok(Some(StatementFault {
            place: StatementPlace::Allowed(choice),
            fault,
        })),
        None => stopped_where_put(alloc, choice, view, values),
    }
}

/// The same where the value is put.
fn stopped_where_put<'a>(
    alloc: Global,
    choice: &'a Choice<usize, Callee, Shape>,
    view: &View,
    values: &[Value],
) -> Result<Option<StatementFault<'a>>, AllocError>
    requires resolved { IsResolvedChoice (choice_of choice.now)
        (own_names view.now (length values.now)) (names_in_view view.now) }
    requires named { IsNamed view.now values.now }
    ensures { IfOk result (λ o. IfSome o (λ f. StopsAt (statement_place_of f.place)
        (environment_of view.now values.now) (fault_found f.fault))) }
{
    match misfit_where_put(alloc, &choice.target, &choice.yields, view, values)? {
        Some(part) => stopped_with(alloc, StatementPlace::Chosen(choice), part, view, values),
        None => Ok(None),
    }
}

/// The part of a choice's condition that has no value, or is false of what the choice yields.
fn fault_of_choice<'a>(
    alloc: Global,
    choice: &'a Choice<usize, Callee, Shape>,
    view: &View,
    values: &[Value],
) -> Result<Option<FoundFault<'a>>, AllocError>
    requires resolved { IsResolvedChoice (choice_of choice.now)
        (own_names view.now (length values.now)) (names_in_view view.now) }
    requires named { IsNamed view.now values.now }
    requires front { view.now.front.now ≡ [] }
    ensures { IfOk result (λ o. IfSome o (λ f. StopsAt (allowed (choice_of choice.now))
        (environment_of view.now values.now) (fault_found f))) }
{
    match eval(alloc, &choice.yields, &view.env(values)) {
        Ok(value) => fault_of_value(alloc, choice, value, view, values),
        Err(TermFault::Memory) => Err(AllocError),
        Err(_) => Ok(None),
    }
}

/// The same of this value, which the choice yields.
#[tactic(auto, using(crate::proofs::Stopped::stops_behind))]
fn fault_of_value<'a>(
    alloc: Global,
    choice: &'a Choice<usize, Callee, Shape>,
    value: Value,
    view: &View,
    values: &[Value],
) -> Result<Option<FoundFault<'a>>, AllocError>
    requires condition { IsResolved (term_of choice.now.condition)
        (Name.Word choice.now.name ∷ names_in_view view.now) }
    requires yielded { answer (term_of choice.now.yields) (environment_of view.now values.now) ≡ Ok value }
    requires named { IsNamed view.now values.now }
    requires front { view.now.front.now ≡ [] }
    ensures { IfOk result (λ o. IfSome o (λ f. StopsAt (allowed (choice_of choice.now))
        (environment_of view.now values.now) (fault_found f))) }
{
    if choice.shape.admits(&value) {
        match fault_behind(alloc, choice, value, view, values)? {
            Some(fault) => Ok(Some(fault)),
            None => Ok(None),
        }
    } else {
        Ok(None)
    }
}

/// The same, where the value stands in front of the others.
fn fault_behind<'a>(
    alloc: Global,
    choice: &'a Choice<usize, Callee, Shape>,
    value: Value,
    view: &View,
    values: &[Value],
) -> Result<Option<FoundFault<'a>>, AllocError>
    requires condition { IsResolved (term_of choice.now.condition)
        (Name.Word choice.now.name ∷ names_in_view view.now) }
    requires named { IsNamed view.now values.now }
    requires front { view.now.front.now ≡ [] }
    ensures { IfOk result (λ o. IfSome o (λ f. StopsBehind (allowed (choice_of choice.now))
        (with_chosen choice.now.name value (environment_of view.now values.now)) (fault_found f))) }
{
    let all = with_front(alloc, value, values)?;
    let behind = view_behind(view, &choice.name);
    fault_of_condition(alloc, choice, &behind, &all)
}

/// The same values with one in front of them.
fn with_front(alloc: Global, value: Value, values: &[Value]) -> Result<Vec<Value>, AllocError>
    ensures { IfOk result (λ v. v.items ≡ value ∷ values.now) }
{
    let mut all = copies(alloc, values)?;
    all.insert(0, value)?;
    Ok(all)
}

/// The same view with the name of a value in front of the others.
fn view_behind<'b>(view: &'b View, name: &'b Word) -> View<'b>
    requires { view.now.front.now ≡ [] }
    ensures names { all_names result ≡ Name.Word name.now ∷ all_names view.now }
    ensures lent { result.lent ≡ view.now.lent }
    ensures constants { result.constants.now ≡ view.now.constants.now }
{
    View {
        front: slice::from_ref(name),
        names: view.names.reborrow(),
        lent: view.lent,
        constants: view.constants,
    }
}

/// The part of a choice's condition that has no value, or else the first one that is false.
fn fault_of_condition<'a>(
    alloc: Global,
    choice: &'a Choice<usize, Callee, Shape>,
    view: &View,
    values: &[Value],
) -> Result<Option<FoundFault<'a>>, AllocError>
    requires condition { IsResolved (term_of choice.now.condition) (names_in_view view.now) }
    requires named { IsNamed view.now values.now }
    ensures { IfOk result (λ o. IfSome o (λ f. StopsBehind (allowed (choice_of choice.now))
        (environment_of view.now values.now) (fault_found f))) }
{
    match faulty_in(alloc, &choice.condition, view, values)? {
        Some(part) => Ok(Some(FoundFault {
            part,
            values: names_of_part(alloc, part, view, values)?,
            value: None,
        })),
        None => false_in_condition(alloc, choice, view, values),
    }
}

/// The first part of a choice's condition that is false.
#[tactic(auto, using(crate::proofs::FalseParts::part_is_false))]
fn false_in_condition<'a>(
    alloc: Global,
    choice: &'a Choice<usize, Callee, Shape>,
    view: &View,
    values: &[Value],
) -> Result<Option<FoundFault<'a>>, AllocError>
    requires condition { IsResolved (term_of choice.now.condition) (names_in_view view.now) }
    requires named { IsNamed view.now values.now }
    ensures { IfOk result (λ o. IfSome o (λ f. StopsBehind (allowed (choice_of choice.now))
        (environment_of view.now values.now) (fault_found f))) }
{
    match false_part(alloc, &choice.condition, &view.env(values))? {
        None => Ok(None),
        Some(part) => Ok(Some(FoundFault {
            part,
            values: names_of_part(alloc, part, view, values)?,
            value: Some(Value::truth(false)),
        })),
    }
}
