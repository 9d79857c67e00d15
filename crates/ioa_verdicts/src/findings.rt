//! The verdicts found so far.

ghost use Rattle.std.specs.Prelude.{◌≡◌, ◌++◌, ◌∷◌, [], false, OnOk, Some, map, set, slice_get};
ghost use Rattle.std.specs.List.{list_any};
ghost use Rattle.ioa_verdicts.specs.Open.{is_open_at};
ghost use Rattle.ioa_verdicts.specs.Places.{ArePlaces, places_of};
ghost use Rattle.ioa_verdicts.specs.Readers.{settled, settled_one};
ghost use Rattle.ioa_verdicts.specs.Verdicts.{answer_in, is_open, verdict_at};

use crate::evaluation::verdict_after;
use crate::places::{Place, Placed};
use crate::verdict::Verdict;
use ioa_compose::Conf;
use ioa_system::CheckedInvariant;
use ioa_terms::Value;
use std::alloc::{AllocError, Global};
use std::marker::Model;

/// The verdicts found so far, one for each invariant, and room for what an invariant reads. A contract sees the
/// verdicts. The type keeps how many of them hold.
#[derive(Drop)]
pub struct Findings {
    verdicts: Vec<Verdict>,
    holding: usize,
    values: Vec<Value>,
}

impl Model for Findings {
    ghost use Rattle.std.specs.Prelude.{◌≡◌, List};
    ghost use Rattle.std.specs.Coded.{coded_list};
    ghost use Rattle.ioa_verdicts.specs.Open.{open_count};
    ghost use Rattle.ioa_verdicts.specs.declared.verdict.Verdict.{Verdict};
    ghost use Rattle.ioa_verdicts.specs.contracts.verdict.Verdict as verdict;

    ghost Value = { List Verdict };

    ghost coded = { coded_list verdict.the_row.coded };

    ghost view = { λ f. f.verdicts.items };

    ghost invariant = { λ f. f.holding ≡ open_count f.verdicts.items };
}

impl Findings {
    /// No verdict.
    #[tactic(auto, unfolding(crate::specs::Open::open_count))]
    pub fn none(alloc: Global) -> Self
        ensures { result ≡ [] }
    {
        Findings {
            verdicts: Vec::new(alloc),
            holding: 0,
            values: Vec::new(alloc),
        }
    }

    /// Whether an invariant holds so far.
    #[tactic(auto, using(crate::proofs::Open::any_open, crate::proofs::Open::none_open))]
    pub fn any_open(&self) -> bool
        ensures { result ≡ list_any is_open self.now }
    {
        self.holding > 0
    }

    /// Adds the verdict on one more invariant, at the start.
    pub fn add(
        &mut self,
        alloc: Global,
        confs: &[Conf],
        invariant: &CheckedInvariant,
        places: &[Place],
    ) -> Result<(), AllocError>
        requires { places.now ≡ places_of invariant.now confs.now }
        ensures { OnOk result
            (self.new ≡ self.old ++ verdict_at 0 (answer_in invariant.now confs.now) ∷ []) }
    {
        let verdict = verdict_after(alloc, confs, invariant, places, 0, &mut self.values)?;
        self.push(verdict)
    }

    /// Adds a verdict.
    #[tactic(auto, using(crate::proofs::Open::open_pushed, crate::proofs::Open::open_within))]
    fn push(&mut self, verdict: Verdict) -> Result<(), AllocError>
        ensures { OnOk result (self.new ≡ self.old ++ verdict ∷ []) }
    {
        self.verdicts.push(verdict)?;
        if verdict.is_open() {
            self.holding += 1;
        }
        Ok(())
    }

    /// Evaluates the invariants of these numbers in the state behind so many entries, if they held so far.
    #[tactic(auto, unfolding(crate::specs::Readers::settled))]
    pub fn settle(
        &mut self,
        alloc: Global,
        confs: &[Conf],
        placed: Placed,
        numbers: &[usize],
        passed: usize,
    ) -> Result<(), AllocError>
        requires { ArePlaces (map (λ ps. ps.items) placed.places.now) placed.invariants.now confs.now }
        ensures { OnOk result (self.new ≡ settled passed confs.now placed.entry.invariants.now numbers.now self.old) }
    {
        for number in numbers {
            self.settle_one(alloc, confs, placed, *number, passed)?;
        }
        Ok(())
    }

    /// The same of the invariant of one number.
    fn settle_one(
        &mut self,
        alloc: Global,
        confs: &[Conf],
        placed: Placed,
        number: usize,
        passed: usize,
    ) -> Result<(), AllocError>
        requires { ArePlaces (map (λ ps. ps.items) placed.places.now) placed.invariants.now confs.now }
        ensures { OnOk result (self.new ≡ settled_one passed confs.now number
            (slice_get placed.entry.invariants.now number) (slice_get self.old number) self.old) }
    {
        let Some(invariant) = placed.invariants.get(number) else {
            return Ok(());
        };
        if self.is_open_at(number) {
            let places = placed.places_at(number);
            let verdict = verdict_after(alloc, confs, invariant, places, passed, &mut self.values)?;
            self.replace(number, verdict);
        }
        Ok(())
    }

    /// Whether the invariant of a number holds so far, if there is such an invariant.
    fn is_open_at(&self, number: usize) -> bool
        ensures { result ≡ is_open_at (slice_get self.now number) }
    {
        match self.verdicts.get(number) {
            Some(verdict) => verdict.is_open(),
            None => false,
        }
    }

    /// Replaces the verdict of a number, which is open.
    #[tactic(auto, using(crate::proofs::Open::set_open))]
    fn replace(&mut self, number: usize, verdict: Verdict)
        requires { slice_get self.old number ≡ Some Verdict.Holds }
        ensures { self.new ≡ set self.old number verdict }
    {
        if !verdict.is_open() {
            self.close(number, verdict);
        }
    }

    /// Replaces the verdict of a number, which is open, by one that is not.
    fn close(&mut self, number: usize, verdict: Verdict)
        requires holds { slice_get self.old number ≡ Some Verdict.Holds }
        requires closed { is_open verdict ≡ false }
        ensures { self.new ≡ set self.old number verdict }
    {
        self.holding -= 1;
        self.verdicts[number] = verdict;
    }

    /// The verdicts.
    pub fn into_verdicts(self) -> Vec<Verdict>
        ensures { result.items ≡ self }
    {
        let Findings {
            verdicts,
            holding: _,
            values,
        } = self;
        drop(values);
        verdicts
    }
}
