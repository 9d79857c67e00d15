//! How the block of a node is gone through, statement by statement.

ghost use Rattle.std.specs.Prelude.{◌≡◌, IfOk, IfSome, MatchOption, is_some, length, map};
ghost use Rattle.std.specs.Option.{option_map};
ghost use Rattle.ioa_commits.specs.Versions.{read_confs};
ghost use Rattle.ioa_compose.specs.Composition.{find_conf};
ghost use Rattle.ioa_terms.specs.Inboxes.{inboxes_of};
ghost use Rattle.ioa_terms.specs.PlainTerm.{no_statements};
ghost use Rattle.ioa_terms.specs.Resolved.{IsResolvedStatement};
ghost use Rattle.ioa_terms.specs.View.{statement_of};
ghost use Rattle.ioa_terms.specs.Views.{IsNamed, environment_of, names_in_view, own_names};
ghost use Rattle.ioa_system.specs.InView.{variable_names};
ghost use Rattle.ioa_system.specs.Parts.{message_shape};
ghost use Rattle.ioa_schedules.specs.Steppings.{own_in, to_do_in};
ghost use Rattle.ioa_schedules.specs.Turns.{IsFirst};
ghost use Rattle.ioa_turns.specs.Inboxes.{inboxes_seen};
ghost use Rattle.ioa_turns.specs.NodeTurns.{progress_of};
ghost use Rattle.ioa_turns.specs.Ready.{IsSteppable};
ghost use Rattle.ioa_turns.specs.Sights.{bindings_in, block_names, own_of, sight_by, sight_of, sight_on, todo_in};

use crate::block::BlockSteps;
use crate::progress::Progress;
use crate::turn::{find_conf, inboxes_to, shows_program, view_of};
use ioa_actions::Component;
use ioa_book::Snapshot;
use ioa_compose::Conf;
use ioa_schedules::{Stepping, View};
use ioa_sharing::Origin;
use ioa_system::Program;
use ioa_terms::{Callee, Inbox, Name, Shape, Statement, TermFault, Value};
use ioa_transitions::NodeConf;
use std::alloc::{AllocError, Global};

/// The inboxes that a block sees, lent.
fn lent<'a, 'b>(inboxes: &'a Option<Vec<Inbox<'b>>>) -> Option<&'a [Inbox<'b>]>
    ensures { option_map (λ is. is.now) result ≡ option_map (λ v. v.items) inboxes.now }
{
    match inboxes {
        None => None,
        Some(inboxes) => Some(inboxes.as_slice()),
    }
}

/// The inboxes that the block of a program sees among what was read: none, if its automaton takes no messages.
fn inboxes_for<'a, O: Origin>(
    alloc: Global,
    program: &Program,
    snapshot: &'a Snapshot<O>,
) -> Result<Option<Vec<Inbox<'a>>>, AllocError>
    ensures { IfOk result (λ o. option_map (λ v. inboxes_of v.items) o
        ≡ inboxes_seen program.now (read_confs snapshot.now.reads)) }
{
    if program.automaton().takes_messages() {
        Ok(Some(inboxes_to(alloc, snapshot, program.node())?))
    } else {
        Ok(None)
    }
}

impl Progress<'_> {
    /// The block as it is, to be gone through on what a look has read. There is none if the look has read nothing that
    /// may be the node's.
    pub fn block_steps<'s, O: Origin>(
        &'s self,
        alloc: Global,
        snapshot: &'s Snapshot<O>,
    ) -> Result<Option<BlockSteps<'s>>, AllocError>
        ensures { IfOk result (λ o. IfSome o (λ s. sight_on (progress_of self.now).program
            (read_confs snapshot.now.reads) ≡ Some (sight_of s))) }
    {
        match find_conf(snapshot, Component::Node(self.program.node())) {
            Some(Conf::Node(conf)) => self.block_steps_on(alloc, snapshot, conf),
            Some(Conf::Queue(_)) => Ok(None),
            None => Ok(None),
        }
    }

    /// The same on a configuration that was read of the node.
    fn block_steps_on<'s, O: Origin>(
        &'s self,
        alloc: Global,
        snapshot: &'s Snapshot<O>,
        conf: &'s NodeConf,
    ) -> Result<Option<BlockSteps<'s>>, AllocError>
        ensures { IfOk result (λ o. IfSome o (λ s. sight_by self.now.program.now
            (inboxes_seen self.now.program.now (read_confs snapshot.now.reads)) (Some (Conf.Node conf.now))
            ≡ Some (sight_of s))) }
    {
        if !shows_program(self.program, conf) {
            return Ok(None);
        }
        let inboxes = inboxes_for(alloc, self.program, snapshot)?;
        let stepping = self.control.stepping(alloc)?;
        Ok(Some(BlockSteps {
            program: self.program,
            conf,
            inboxes,
            stepping,
        }))
    }
}

impl<'a> BlockSteps<'a> {
    /// The first statement that is to do, if there is one.
    pub fn first(&self) -> Option<&'a Statement<usize, Callee, Shape>>
        ensures first { MatchOption result (todo_in self.now ≡ no_statements)
            (λ s. IsFirst (statement_of s.now) (todo_in self.now)) }
        ensures resolved { IfSome result (λ s. IsResolvedStatement (statement_of s.now)
            (map Name.Word (variable_names self.now.program.now.automaton.schedule.variables))
            (block_names self.now.program.now)) }
    {
        self.stepping.first()
    }

    /// The values of the block's own variables.
    pub fn own(&self) -> &[Value]
        ensures { result.now ≡ own_of self.now }
    {
        self.stepping.own()
    }

    /// What the block sees.
    pub fn view(&self) -> View<'_>
        ensures named { IsNamed result (own_of self.now) }
        ensures own { own_names result (length (own_of self.now))
            ≡ map Name.Word (variable_names self.now.program.now.automaton.schedule.variables) }
        ensures names { names_in_view result ≡ block_names self.now.program.now }
        ensures bindings { environment_of result (own_of self.now) ≡ bindings_in (sight_of self.now) (own_of self.now) }
    {
        view_of(self.program, lent(&self.inboxes), self.conf)
    }

    /// The block behind its first statement, which is taken as a turn does, with the faults of [`Stepping::take`].
    pub fn behind_first(self, alloc: Global) -> Result<BlockSteps<'a>, TermFault>
        ensures { IfOk result (λ b. sight_of b ≡ sight_of self.entry) }
    {
        let BlockSteps {
            program,
            conf,
            inboxes,
            stepping,
            ..
        } = self;
        let stepping = take_first(alloc, program, lent(&inboxes), conf, stepping)?;
        Ok(BlockSteps {
            program,
            conf,
            inboxes,
            stepping,
        })
    }
}

/// What is left of a block of this program, which sees this, once its first statement is taken.
fn take_first<'a>(
    alloc: Global,
    program: &Program,
    inboxes: Option<&[Inbox]>,
    conf: &NodeConf,
    mut stepping: Stepping<'a>,
) -> Result<Stepping<'a>, TermFault>
    requires shown { length conf.now.variables ≡ length program.now.automaton.variables }
    requires seen { is_some inboxes ≡ is_some (message_shape program.now.automaton.rules) }
    requires ready { IsSteppable program.now (to_do_in stepping) (own_in stepping) }
    ensures { IfOk result (λ s. IsSteppable program.now (to_do_in s) (own_in s)) }
{
    let view = view_of(program, inboxes, conf);
    stepping.take(alloc, &view)?;
    Ok(stepping)
}
