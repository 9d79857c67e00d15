//! Parts at which a step or a turn stops, with the values that are told of them.

ghost use Rattle.std.specs.Prelude.{◌≡◌, [], IfOk, IfSome, map};
ghost use Rattle.ioa_terms.specs.Resolved.{IsResolved};
ghost use Rattle.ioa_terms.specs.View.{term_of};
ghost use Rattle.ioa_terms.specs.Views.{IsNamed, environment_of, names_in_view};
ghost use Rattle.ioa_reasons.specs.PlainReasons.{fault_of, named_value, statement_place_of};
ghost use Rattle.ioa_reasons.specs.FoundFaults.{fault_found};
ghost use Rattle.ioa_reasons.specs.Stopping.{HasNoValue, StopsAt};
ghost use Rattle.ioa_reasons.specs.Stops.{IsFaultyAt, IsFaultyIn, IsMisfitIn, IsStopIn};
ghost use Rattle.ioa_reasons.specs.Tests.{values_read};

use crate::chosen::stopped_behind;
use crate::falsified::read_values;
use crate::reason::{Fault, NamedValue, StatementPlace};
use crate::stops::Stop;
use ioa_terms::{Checked, TermFault, View, eval};
use ioa_values::Value;
use std::alloc::{AllocError, Global};

/// A part at which a step or a turn stops, the values of the names that it reads, and its own value, if it has one.
#[derive(Drop)]
pub struct FoundFault<'a> {
    /// The part.
    pub part: &'a Checked,
    /// The values of its names then.
    pub values: Vec<NamedValue<'a>>,
    /// Its value, which is not of the sort of its place, or `false` in the condition of a choice. None if the part has
    /// no value.
    pub value: Option<Value>,
}

/// A statement that stops, and the part of it at which it does.
#[derive(Drop)]
pub struct StatementFault<'a> {
    /// The statement in which the part is written.
    pub place: StatementPlace<'a>,
    /// The part, and why the statement stops there.
    pub fault: FoundFault<'a>,
}

impl<'a> FoundFault<'a> {
    /// The fault as it is told, which borrows from this one.
    pub fn told(&self) -> Fault<'_>
        ensures { fault_of result ≡ fault_found self.now }
    {
        Fault {
            part: self.part,
            values: self.values.as_slice(),
            value: self.value.as_ref(),
        }
    }
}

/// A part that has no value, with the values of its names.
pub(crate) fn without_value<'a>(
    alloc: Global,
    part: &'a Checked,
    view: &View,
    values: &[Value],
) -> Result<FoundFault<'a>, AllocError>
    requires named { IsNamed view.now values.now }
    requires faulty { IsFaultyIn view.now values.now (term_of part.now) }
    ensures { IfOk result (λ f. HasNoValue (environment_of view.now values.now) (fault_found f)) }
{
    Ok(FoundFault {
        part,
        values: names_of_part(alloc, part, view, values)?,
        value: None,
    })
}

/// The part at which statements stop, if it is told.
pub(crate) fn fault_by<'a>(
    alloc: Global,
    stop: Stop<'a>,
    view: &View,
    values: &[Value],
) -> Result<Option<StatementFault<'a>>, AllocError>
    requires named { IsNamed view.now values.now }
    requires stop { IsStopIn view.now values.now stop }
    ensures { IfOk result (λ o. IfSome o (λ f. StopsAt (statement_place_of f.place)
        (environment_of view.now values.now) (fault_found f.fault))) }
{
    match stop {
        Stop::Passed | Stop::Unknown => Ok(None),
        Stop::At(place, part) => Ok(Some(stopped_without(alloc, place, part, view, values)?)),
        Stop::Misfit(place, part) => stopped_with(alloc, place, part, view, values),
        Stop::Behind(choice) => stopped_behind(alloc, choice, view, values),
    }
}

/// A statement that stops at a part which has no value.
#[tactic(auto, using(crate::proofs::Stopped::stops_there))]
fn stopped_without<'a>(
    alloc: Global,
    place: StatementPlace<'a>,
    part: &'a Checked,
    view: &View,
    values: &[Value],
) -> Result<StatementFault<'a>, AllocError>
    requires named { IsNamed view.now values.now }
    requires faulty { IsFaultyAt view.now values.now (statement_place_of place) (term_of part.now) }
    ensures { IfOk result (λ f. StopsAt (statement_place_of f.place)
        (environment_of view.now values.now) (fault_found f.fault)) }
{
    let fault = FoundFault {
        part,
        values: names_of_part(alloc, part, view, values)?,
        value: None,
    };
    Ok(StatementFault { place, fault })
}

/// A statement that stops at a part whose value has not the shape of its place.
#[tactic(auto, using(crate::proofs::Stopped::stops_there))]
pub(crate) fn stopped_with<'a>(
    alloc: Global,
    place: StatementPlace<'a>,
    part: &'a Checked,
    view: &View,
    values: &[Value],
) -> Result<Option<StatementFault<'a>>, AllocError>
    requires named { IsNamed view.now values.now }
    requires misfit { IsMisfitIn view.now values.now (statement_place_of place) (term_of part.now) }
    ensures { IfOk result (λ o. IfSome o (λ f. StopsAt (statement_place_of f.place)
        (environment_of view.now values.now) (fault_found f.fault))) }
{
    let read = names_of_part(alloc, part, view, values)?;
    match eval(alloc, part, &view.env(values)) {
        Ok(value) => {
            let fault = FoundFault {
                part,
                values: read,
                value: Some(value),
            };
            Ok(Some(StatementFault { place, fault }))
        }
        Err(TermFault::Memory) => Err(AllocError),
        Err(_) => Ok(None),
    }
}

/// The values of the names of a part.
pub(crate) fn names_of_part<'a>(
    alloc: Global,
    part: &'a Checked,
    view: &View,
    values: &[Value],
) -> Result<Vec<NamedValue<'a>>, AllocError>
    requires named { IsNamed view.now values.now }
    requires resolved { IsResolved (term_of part.now) (names_in_view view.now) }
    ensures { IfOk result (λ v. map named_value v.items
        ≡ values_read (term_of part.now) (environment_of view.now values.now) []) }
{
    let mut read = Vec::new(alloc);
    read_values(alloc, part, &view.env(values), &mut read)?;
    Ok(read)
}
