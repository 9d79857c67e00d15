//! The verdicts on the invariants of a system along a schedule.

ghost use Rattle.std.specs.Prelude.{◌≡◌, IfOk, OnOk, map};
ghost use Rattle.ioa_compose.specs.Composition.{component_names, joint_answer};
ghost use Rattle.ioa_compose.specs.Participants.{participants_of};
ghost use Rattle.ioa_verdicts.specs.Places.{ArePlaces};
ghost use Rattle.ioa_verdicts.specs.Readers.{noted_of, readers_from, settled, settled_parts, GoesOn};
ghost use Rattle.ioa_verdicts.specs.Verdicts.{answer_in, verdict_at, verdict_from, verdicts_of};

use crate::findings::Findings;
use crate::places::{Placed, all_places};
use crate::readers::{noted_of, readers};
use crate::verdict::Verdict;
use ioa_actions::{Action, Component, StepFault};
use ioa_compose::{Conf, Parties, participants};
use ioa_course::Course;
use ioa_rawlog::RawLog;
use ioa_system::{CheckedInvariant, System};
use ioa_transitions::Entry;
use std::alloc::{AllocError, Global};

/// The verdicts on the invariants of a system along a schedule, in the order of their declaration (profile).
/// An invariant is evaluated at the start, and behind each entry of whose participants it reads, as long as it holds.
/// So an entry costs its step, and the terms of these. Nothing is asked of the schedule: behind an entry that is no
/// step there is no state.
pub fn verdicts(
    alloc: Global,
    system: &System,
    schedule: &RawLog<Entry>,
) -> Result<Vec<Verdict>, AllocError>
    ensures { IfOk result (λ v. v.items ≡ verdicts_of system.now schedule.now) }
{
    let invariants = system.invariants();
    if invariants.is_empty() {
        return Ok(Vec::new(alloc));
    }
    let mut course = Course::start(alloc, system)?;
    let findings = findings_along(alloc, invariants, &mut course, schedule)?;
    Ok(findings.into_verdicts())
}

/// The verdicts on invariants along a schedule, from where a course stands.
fn findings_along(
    alloc: Global,
    invariants: &[CheckedInvariant],
    course: &mut Course,
    schedule: &RawLog<Entry>,
) -> Result<Findings, AllocError>
    ensures { IfOk result (λ f. f ≡ map (λ v. verdict_from v 0 schedule.now course.old) invariants.now) }
{
    let places = all_places(alloc, course, invariants)?;
    let noted = readers(alloc, invariants, course.confs())?;
    let placed = Placed {
        invariants,
        places: places.as_slice(),
    };
    let mut findings = first_findings(alloc, course.confs(), placed)?;
    let watch = Watch {
        placed,
        noted: noted.as_slice(),
    };
    watch.follow(alloc, course, schedule, &mut findings)?;
    Ok(findings)
}

/// The verdicts on invariants at the start.
fn first_findings(alloc: Global, confs: &[Conf], placed: Placed) -> Result<Findings, AllocError>
    requires { ArePlaces (map (λ ps. ps.items) placed.places.now) placed.invariants.now confs.now }
    ensures { IfOk result (λ f. f ≡ map (λ v. verdict_at 0 (answer_in v confs.now)) placed.entry.invariants.now) }
{
    let mut findings = Findings::none(alloc);
    for (number, invariant) in placed.invariants.iter().enumerate() {
        findings.add(alloc, confs, invariant, placed.places_at(number))?;
    }
    Ok(findings)
}

/// What is watched along a schedule.
#[derive(Clone, Copy)]
struct Watch<'a> {
    /// The invariants, and where their names read.
    placed: Placed<'a>,
    /// For the component in each slot the numbers of the invariants that read of it.
    noted: &'a [Vec<usize>],
}

impl<'a> Watch<'a> {
    /// Goes along a schedule, to its end, to the first entry that is no step, or until no invariant holds.
    fn follow(
        &self,
        alloc: Global,
        course: &mut Course,
        schedule: &RawLog<Entry>,
        findings: &mut Findings,
    ) -> Result<(), AllocError>
        requires placed { ArePlaces (map (λ ps. ps.items) self.now.placed.places.now)
            self.now.placed.invariants.now course.old }
        requires noted { map (λ is. is.items) self.now.noted.now
            ≡ map (λ k. readers_from k 0 self.now.placed.invariants.now) (component_names course.old) }
        requires first { findings.old
            ≡ map (λ v. verdict_at 0 (answer_in v course.old)) self.now.placed.invariants.now }
        ensures { OnOk result
            (findings.new ≡ map (λ v. verdict_from v 0 schedule.now course.old) self.now.placed.invariants.now) }
    {
        let mut passed = 0;
        for entry in schedule.walk() {
            if !findings.any_open() {
                return Ok(());
            }
            passed += 1;
            if !self.goes_on(alloc, course, entry, passed, findings)? {
                return Ok(());
            }
        }
        Ok(())
    }

    /// Goes on by an entry, the last of so many, and settles what reads of its participants. Answers whether it is a
    /// step.
    #[tactic(auto, using(crate::proofs::Placed::places_stay))]
    fn goes_on(
        &self,
        alloc: Global,
        course: &mut Course,
        entry: &Entry,
        passed: usize,
        findings: &mut Findings,
    ) -> Result<bool, AllocError>
        requires { ArePlaces (map (λ ps. ps.items) self.now.placed.places.now)
            self.now.placed.invariants.now course.old }
        ensures { IfOk result (λ b. GoesOn b (joint_answer entry.now course.old) course.new
            findings.old findings.new (settled_parts passed course.new self.now.placed.invariants.now
            (map (λ is. is.items) self.now.noted.now) (component_names course.new) (participants_of entry.now.action)
            findings.old)) }
    {
        match course.advance(alloc, entry) {
            Ok(()) => {
                self.settle(alloc, course, entry.action(), passed, findings)?;
                Ok(true)
            }
            Err(StepFault::Memory) => Err(AllocError),
            Err(_) => Ok(false),
        }
    }

    /// Settles what reads of the participants of an action, in the state behind so many entries.
    #[tactic(auto, unfolding(crate::specs::Readers::settled_parts))]
    fn settle(
        &self,
        alloc: Global,
        course: &Course,
        action: &Action,
        passed: usize,
        findings: &mut Findings,
    ) -> Result<(), AllocError>
        requires { ArePlaces (map (λ ps. ps.items) self.now.placed.places.now)
            self.now.placed.invariants.now course.now }
        ensures { OnOk result (findings.new ≡ settled_parts passed course.now self.now.placed.invariants.now
            (map (λ is. is.items) self.now.noted.now) (component_names course.now) (participants_of action.now)
            findings.old) }
    {
        match participants(action) {
            Parties::One(node) => self.settle_readers(alloc, course, node, passed, findings),
            Parties::Two(queue, node) => {
                self.settle_readers(alloc, course, queue, passed, findings)?;
                self.settle_readers(alloc, course, node, passed, findings)
            }
        }
    }

    /// Settles what reads of a component.
    fn settle_readers(
        &self,
        alloc: Global,
        course: &Course,
        component: Component,
        passed: usize,
        findings: &mut Findings,
    ) -> Result<(), AllocError>
        requires { ArePlaces (map (λ ps. ps.items) self.now.placed.places.now)
            self.now.placed.invariants.now course.now }
        ensures { OnOk result (findings.new ≡ settled passed course.now self.now.placed.invariants.now
            (noted_of (map (λ is. is.items) self.now.noted.now) (component_names course.now) component)
            findings.old) }
    {
        let numbers = noted_of(self.noted, course, component);
        findings.settle(alloc, course.confs(), self.placed, numbers, passed)
    }
}
