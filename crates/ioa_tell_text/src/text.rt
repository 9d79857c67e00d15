//! A run as a text.

ghost use Rattle.std.specs.Prelude.{◌≡◌, ◌++◌, ◌∷◌, ◌<◌, [], OnOk, Some, None, false};
ghost use Rattle.std.specs.Option.{option_copied};
ghost use Rattle.std.specs.Vec.{vec_capacity};
ghost use Rattle.ioa_actions.specs.ActionParts.{node_of};
ghost use Rattle.ioa_paper.specs.Papers.{Ended};
ghost use Rattle.ioa_reasons.specs.PlainReasons.{fault_of, place_of, reason_of, statement_place_of};
ghost use Rattle.ioa_tell_text.specs.Kept.{once, why_of};
ghost use Rattle.ioa_tell_text.specs.Lines.{fault_line, taken_line, waiting_text};
ghost use Rattle.ioa_tell_text.specs.Stops.{stop_text, stuck_line, stuck_text, unfit_text};
ghost use Rattle.ioa_tell_text.specs.Teller.{and_written, flushed, marked, teller_begun, teller_ended, waits};
ghost use Rattle.ioa_tell_text.specs.Teller.{waits_behind, with_waiting};

use crate::keeping::taken_out;
use crate::kept::KeptText;
use crate::lines::{put_fault, put_taken, put_waiting};
use crate::refusals::put_refused;
use crate::stops::{put_stuck, stop_text, stuck_text, unfit_text};
use crate::verdicts::{Moment, put_marks};
use crate::waiting::{Passing, Waiting, Why, kept};
use ioa_actions::Action;
use ioa_compose::Conf;
use ioa_monitor::{put_ending, put_verdicts};
use ioa_paper::Paper;
use ioa_reasons::{Fault, Place, Reason, StatementPlace};
use ioa_streams::{Out, OutFailed};
use ioa_system::CheckedInvariant;
use ioa_tell::{Event, Refusal, TellFault, Tells, TellsRefusal};
use ioa_transitions::Entry;
use ioa_values::{Names, Value, Word};
use ioa_verdicts::Verdict;
use std::alloc::{AllocError, Global};
use std::marker::Model;

/// Writes what is told as a text: `k action   node i: x = v -> w; channel i -> j holds n` for an action that was taken,
/// `  missed action@i: why   (n times)` for n misses one after another, `  fault action@i: why` for a fault of a step,
/// `  fault @i: why` for one of a block, `  idle @i   (n times)` for idle turns, and `ending i e` for the endings. A
/// miss or an idle turn is written once its node does something else, just before that. Of a schedule that is given,
/// `not a step: k action: why` is the line of the entry that is no step, behind k that are. Behind the action after
/// which an invariant is first not true stands `  invariant x fails here`, or `undefined`, or `range`; who calls says
/// what the verdicts are, and when what is told begins and ends.
pub struct TextTeller<'a, O: Out> {
    paper: Paper<'a, O>,
    names: &'a Names,
    invariants: &'a [CheckedInvariant],
    verdicts: &'a [Verdict],
    waiting: Vec<Waiting>,
}

impl<'a, O: Out> Model for TextTeller<'a, O> {
    ghost use Rattle.std.specs.Coded.{codes};
    ghost use Rattle.ioa_system.specs.Invariants.{invariant_code};
    ghost use Rattle.ioa_values.specs.contracts.value.Value as value;
    ghost use Rattle.ioa_verdicts.specs.contracts.verdict.Verdict as verdict;
    ghost use Rattle.ioa_tell_text.specs.Teller.{PlainTeller};

    ghost Value = { PlainTeller };

    ghost coded = { Prim.hlevel (codes, value.the_row.coded, invariant_code, verdict.the_row.coded) };

    ghost view = { λ t. record {
      paper = t.paper;
      names = t.names.now;
      invariants = t.invariants.now;
      verdicts = t.verdicts.now;
      waiting = t.waiting.items;
    } };
}

impl<'a, O: Out> TextTeller<'a, O> {
    /// Who writes on this output, by these names of constants, and holds back as many bytes as there is room for. The
    /// verdicts are those on the invariants, in their order, along the schedule that is told. With none of both nothing
    /// is told of invariants.
    pub fn new(
        alloc: Global,
        names: &'a Names,
        invariants: &'a [CheckedInvariant],
        verdicts: &'a [Verdict],
        out: &'a mut O,
        room: Vec<u8>,
    ) -> Self
        requires well { O.failed out.old ≡ false }
        requires empty { room.items ≡ [] }
        requires room { 0 < vec_capacity room }
        ensures start { result.paper.start ≡ O.bytes out.old }
        ensures text { result.paper.text ≡ [] }
        ensures output { result.paper.output ≡ out.entry.ghost_name }
        ensures names { result.names ≡ names.now }
        ensures invariants { result.invariants ≡ invariants.now }
        ensures verdicts { result.verdicts ≡ verdicts.now }
        ensures waiting { result.waiting ≡ [] }
    {
        TextTeller {
            paper: Paper::new(out, room),
            names,
            invariants,
            verdicts,
            waiting: Vec::new(alloc),
        }
    }

    /// Writes which invariants are not true at the start: `  invariant x fails at the start`, or `undefined`, or
    /// `range`. It comes before all events.
    pub fn begin(&mut self)
        ensures { self.new ≡ teller_begun self.old }
    {
        self.mark(Moment::Start);
    }

    /// Writes the verdicts, as a report has them. It comes behind all that is told.
    pub fn end(&mut self)
        ensures { self.new ≡ teller_ended self.old }
    {
        put_verdicts(&mut self.paper, self.invariants, self.verdicts);
    }

    /// Sends what is held back. The output comes back, and whether all of the text went out. What waits is written
    /// nowhere: a node of which something waits has not stopped.
    pub fn finish(self) -> (&'a mut O, Result<(), OutFailed>)
        ensures output { result.0.ghost_name ≡ self.entry.paper.output }
        ensures sent { Ended self.entry.paper.start (O.bytes result.0.now) (O.failed result.0.now)
            self.entry.paper.text result.1 }
    {
        let TextTeller {
            paper,
            names: _,
            invariants: _,
            verdicts: _,
            waiting,
        } = self;
        drop(waiting);
        paper.finish()
    }

    /// Writes what waits of a node.
    fn flush(&mut self, node: i64)
        ensures { self.new ≡ flushed node self.old }
    {
        match taken_out(&mut self.waiting, node) {
            None => {}
            Some(waiting) => self.write(waiting),
        }
    }

    /// Writes what waited.
    fn write(&mut self, waiting: Waiting)
        ensures { self.new ≡ and_written self.old (waiting_text self.old.names waiting) }
    {
        put_waiting(&mut self.paper, self.names, &waiting);
    }

    /// Writes which invariants are first not true at a moment.
    fn mark(&mut self, moment: Moment)
        ensures { self.new ≡ marked moment self.old }
    {
        put_marks(&mut self.paper, moment, self.invariants, self.verdicts);
    }

    /// Writes an action that was taken, and which invariants are first not true behind it.
    fn taken(
        &mut self,
        number: usize,
        entry: &Entry,
        before: &Conf,
        after: &Conf,
        queue: Option<&Conf>,
    )
        ensures { self.new ≡ marked (Moment.Behind number) (and_written (flushed (node_of entry.now.action) self.old)
            (taken_line self.old.names number entry.now before.now after.now (option_copied queue.entry))) }
    {
        self.write_taken(number, entry, before, after, queue);
        self.mark(Moment::Behind(number));
    }

    /// Writes an action that was taken.
    fn write_taken(
        &mut self,
        number: usize,
        entry: &Entry,
        before: &Conf,
        after: &Conf,
        queue: Option<&Conf>,
    )
        ensures { self.new ≡ and_written (flushed (node_of entry.now.action) self.old)
            (taken_line self.old.names number entry.now before.now after.now (option_copied queue.entry)) }
    {
        self.flush(entry.action().node());
        put_taken(
            &mut self.paper,
            self.names,
            number,
            entry,
            before,
            after,
            queue,
        );
    }

    /// Counts a miss.
    fn missed(
        &mut self,
        alloc: Global,
        action: &Action,
        reason: Reason<'_>,
    ) -> Result<(), AllocError>
        ensures { OnOk result (self.new ≡ waits (node_of action.now)
            (Passing.Missed action.now (why_of self.old.names (reason_of reason.entry)))
            self.old) }
    {
        let why = kept(alloc, self.names, reason)?;
        match taken_out(&mut self.waiting, action.node()) {
            None => self.miss_first(alloc, action, why),
            Some(last) => self.miss_behind(alloc, action, why, last),
        }
    }

    /// The same, if this waited of the node.
    fn miss_behind(
        &mut self,
        alloc: Global,
        action: &Action,
        why: Why,
        last: Waiting,
    ) -> Result<(), AllocError>
        ensures { OnOk result (self.new ≡ waits_behind (node_of action.now)
            (Passing.Missed action.now why) (Some last) self.old) }
    {
        if last.passing.is_miss(action, &why) {
            self.wait(last.once_more())
        } else {
            self.write(last);
            self.miss_first(alloc, action, why)
        }
    }

    /// The same, if nothing waits of the node.
    fn miss_first(&mut self, alloc: Global, action: &Action, why: Why) -> Result<(), AllocError>
        ensures { OnOk result (self.new ≡ with_waiting (once (node_of action.now)
            (Passing.Missed action.now why)) self.old) }
    {
        let kept = action.try_copy(alloc)?;
        self.wait(Waiting::once(action.node(), Passing::Missed(kept, why)))
    }

    /// Writes an action whose step met a fault.
    fn faulted(
        &mut self,
        alloc: Global,
        action: &Action,
        place: Place<'_>,
        fault: Fault<'_>,
    ) -> Result<(), AllocError>
        ensures { OnOk result (self.new ≡ and_written (flushed (node_of action.now) self.old)
            (fault_line self.old.names action.now
            (stop_text self.old.names (place_of place.entry) (fault_of fault.entry)))) }
    {
        let why = stop_text(alloc, self.names, place, fault)?;
        self.write_fault(action, &why);
        Ok(())
    }

    /// Writes an action of which an argument is not of the sort of its parameter.
    fn unfit(
        &mut self,
        alloc: Global,
        action: &Action,
        name: &Word,
        value: &Value,
    ) -> Result<(), AllocError>
        ensures { OnOk result (self.new ≡ and_written (flushed (node_of action.now) self.old)
            (fault_line self.old.names action.now (unfit_text self.old.names name.now value.now))) }
    {
        let why = unfit_text(alloc, self.names, name, value)?;
        self.write_fault(action, &why);
        Ok(())
    }

    /// Writes the line of an action that met a fault, behind what waits of its node.
    fn write_fault(&mut self, action: &Action, why: &KeptText)
        ensures { self.new ≡ and_written (flushed (node_of action.now) self.old)
            (fault_line self.old.names action.now why.now) }
    {
        self.flush(action.node());
        put_fault(&mut self.paper, self.names, action, why);
    }

    /// Writes that a turn of a node's block met a fault.
    fn stuck(
        &mut self,
        alloc: Global,
        node: i64,
        place: StatementPlace<'_>,
        fault: Fault<'_>,
    ) -> Result<(), AllocError>
        ensures { OnOk result (self.new ≡ and_written (flushed node self.old)
            (stuck_line node (stuck_text self.old.names (statement_place_of place.entry)
            (fault_of fault.entry)))) }
    {
        let why = stuck_text(alloc, self.names, place, fault)?;
        self.flush(node);
        put_stuck(&mut self.paper, node, &why);
        Ok(())
    }

    /// Counts an idle turn.
    fn idle(&mut self, node: i64) -> Result<(), AllocError>
        ensures { OnOk result (self.new ≡ waits node Passing.Idle self.old) }
    {
        match taken_out(&mut self.waiting, node) {
            None => self.wait(Waiting::once(node, Passing::Idle)),
            Some(last) => self.idle_behind(node, last),
        }
    }

    /// The same, if this waited of the node.
    fn idle_behind(&mut self, node: i64, last: Waiting) -> Result<(), AllocError>
        ensures { OnOk result (self.new ≡ waits_behind node Passing.Idle (Some last) self.old) }
    {
        if last.passing.is_idle() {
            self.wait(last.once_more())
        } else {
            self.write(last);
            self.wait(Waiting::once(node, Passing::Idle))
        }
    }

    /// Lets this wait.
    fn wait(&mut self, waiting: Waiting) -> Result<(), AllocError>
        ensures { OnOk result (self.new ≡ with_waiting waiting self.old) }
    {
        self.waiting.push(waiting)?;
        Ok(())
    }
}

impl<'a, O: Out> Tells for TextTeller<'a, O> {
    ghost use Rattle.std.specs.Prelude.{◌≡◌};
    ghost use Rattle.ioa_tell_text.specs.Teller.{teller_after};

    ghost hears = { λ e old new. new ≡ teller_after e old };

    fn event(&mut self, alloc: Global, event: Event<'_>) -> Result<(), TellFault> {
        match event {
            Event::Taken {
                number,
                entry,
                before,
                after,
                queue,
            } => {
                self.taken(number, entry, before, after, queue);
                Ok(())
            }
            Event::Missed { action, reason, .. } => {
                self.missed(alloc, action, reason)?;
                Ok(())
            }
            Event::Faulted {
                action,
                place,
                fault,
                ..
            } => {
                self.faulted(alloc, action, place, fault)?;
                Ok(())
            }
            Event::Unfit {
                action,
                name,
                value,
                ..
            } => {
                self.unfit(alloc, action, name, value)?;
                Ok(())
            }
            Event::Stuck {
                node,
                place,
                fault,
                ..
            } => {
                self.stuck(alloc, node, place, fault)?;
                Ok(())
            }
            Event::Idle { node, .. } => {
                self.idle(node)?;
                Ok(())
            }
            Event::Stopped { node, .. } => {
                self.flush(node);
                Ok(())
            }
            Event::Ended { node, ending } => {
                put_ending(&mut self.paper, node, ending);
                Ok(())
            }
        }
    }
}

impl<'a, O: Out> TellsRefusal for TextTeller<'a, O> {
    ghost use Rattle.std.specs.Prelude.{◌≡◌};
    ghost use Rattle.ioa_tell_text.specs.Teller.{teller_refused};

    ghost refuses = { λ k e r old new. new ≡ teller_refused k e r old };

    fn refused(
        &mut self,
        alloc: Global,
        number: usize,
        entry: &Entry,
        refusal: Refusal<'_>,
    ) -> Result<(), TellFault> {
        put_refused(alloc, &mut self.paper, self.names, number, entry, refusal)?;
        Ok(())
    }
}
