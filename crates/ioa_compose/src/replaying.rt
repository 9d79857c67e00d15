//! Replay of schedules.

ghost use Rattle.std.specs.Prelude.{◌≡◌, ◌⊎◌, IfOk, IfErr};
ghost use Rattle.ioa_compose.specs.Start.{start};
ghost use Rattle.ioa_compose.specs.Executions.{replay, StopsAt};

use crate::composition::joint_redo;
use crate::configuration::Conf;
use crate::starting::start;
use ioa_actions::StepFault;
use ioa_system::System;
use ioa_transitions::Entry;
use std::alloc::Global;
use std::fmt;
use thiserror::Error;

/// Why a list of entries has no execution.
#[derive(Debug, Drop, Error)]
pub struct ReplayFault {
    /// The position of the first entry that is no step, counted from 0.
    pub position: usize,
    /// Why it is no step.
    pub fault: StepFault,
}

impl fmt::Display for ReplayFault {
    ghost use Rattle.std.specs.Prelude.{Some};
    ghost use Rattle.ioa_compose.specs.Executions.{replay_fault_text};

    ghost output = { λ f. Some (replay_fault_text f) };

    fn fmt<W: fmt::Write>(&self, f: &mut fmt::Formatter<W>) -> fmt::Result {
        let ReplayFault { position, fault } = self;
        write!(f, "{fault} at {position}")
    }
}

/// The configurations after the joint steps by a list of entries, one after another.
fn steps(alloc: Global, start: Vec<Conf>, entries: &[Entry]) -> Result<Vec<Conf>, ReplayFault>
    ensures execution { IfOk result (λ v. replay entries.now start.items ≡ Some v.items) }
    ensures stopped { IfErr result (StopsAt start.items entries.now) }
{
    let mut confs = start;
    for (position, entry) in entries.iter().enumerate() {
        match joint_redo(alloc, confs.as_slice(), entry) {
            Ok(next) => confs = next,
            Err(fault) => return Err(ReplayFault { position, fault }),
        }
    }
    Ok(confs)
}

/// The configurations after the joint steps by a list of entries (Lynch 8.1), or the position of the first entry that
/// is no step or meets a number outside 64 bits, with the fault of its joint step. If memory runs out it may stop at
/// any entry.
pub fn replay_from(
    alloc: Global,
    start: Vec<Conf>,
    entries: &[Entry],
) -> Result<Vec<Conf>, ReplayFault>
    ensures execution { IfOk result (λ v. replay entries.now start.items ≡ Some v.items) }
    ensures stopped { IfErr result (StopsAt start.items entries.now) }
    ensures no_replay { IfErr result
        (λ e. (e.fault ≡ StepFault.Memory) ⊎ (replay entries.now start.items ≡ None)) }
{
    steps(alloc, start, entries)
}

/// The configurations after the joint steps by a list of entries from a system's start (Lynch 8.1), or the position of
/// the first entry that is no step or meets a number outside 64 bits, with the fault of its joint step. If memory runs
/// out it may stop at any entry.
pub fn replay(alloc: Global, system: &System, entries: &[Entry]) -> Result<Vec<Conf>, ReplayFault>
    ensures execution { IfOk result (λ v. replay entries.now (start system.now) ≡ Some v.items) }
    ensures stopped { IfErr result (StopsAt (start system.now) entries.now) }
    ensures no_replay { IfErr result
        (λ e. (e.fault ≡ StepFault.Memory) ⊎ (replay entries.now (start system.now) ≡ None)) }
{
    match start(alloc, system) {
        Ok(confs) => replay_from(alloc, confs, entries),
        Err(_) => Err(ReplayFault {
            position: 0,
            fault: StepFault::Memory,
        }),
    }
}
