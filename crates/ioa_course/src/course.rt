//! The configurations of components along a schedule.

ghost use Rattle.std.specs.Prelude.{◌≡◌, IfErr, IfOk};
ghost use Rattle.std.specs.List.{position_from};
ghost use Rattle.ioa_values.specs.Outcome.{Answers};
ghost use Rattle.ioa_actions.specs.ComponentOrder.{same_component};
ghost use Rattle.ioa_compose.specs.Composition.{component_names, joint_answer};
ghost use Rattle.ioa_compose.specs.Start.{start};

use crate::moving::move_all;
use crate::slots::slot_of;
use ioa_actions::{Component, StepFault};
use ioa_compose::{Conf, start};
use ioa_index::Index;
use ioa_system::System;
use ioa_transitions::Entry;
use std::alloc::{AllocError, Global};
use std::marker::Model;

/// The configurations of a system's components on their way along a schedule, moved in place by one action after
/// another, with an index of the components. A contract sees the configurations.
pub struct Course {
    confs: Vec<Conf>,
    index: Index,
}

/// By hand, so that crates above do not prove again how the parts are let go (DECISIONS).
impl Drop for Course {
    fn drop(self) {
        let Course { confs: _, index: _ } = self;
    }
}

impl Model for Course {
    ghost use Rattle.std.specs.Prelude.{List};
    ghost use Rattle.std.specs.Coded.{coded_list};
    ghost use Rattle.ioa_compose.specs.contracts.configuration.Conf as conf;
    ghost use Rattle.ioa_compose.specs.declared.configuration.Conf.{Conf};
    ghost use Rattle.ioa_course.specs.Courses.{IsIndexOf};

    ghost Value = { List Conf };

    ghost coded = { coded_list conf.the_row.coded };

    ghost view = { λ c. c.confs.items };

    ghost invariant = { λ c. IsIndexOf c.index c.confs.items };
}

/// The components of configurations, in order.
fn components_of(alloc: Global, confs: &[Conf]) -> Result<Vec<Component>, AllocError>
    ensures { IfOk result (λ v. v.items ≡ component_names confs.now) }
{
    let mut components = Vec::new(alloc);
    for conf in confs {
        components.push(conf.component())?;
    }
    Ok(components)
}

impl Course {
    /// The configurations at a system's start. Costs time in proportion to the square of the number of components.
    pub fn start(alloc: Global, system: &System) -> Result<Self, AllocError>
        ensures { IfOk result (λ c. c ≡ start system.now) }
    {
        let confs = start(alloc, system)?;
        let components = components_of(alloc, &confs)?;
        let index = Index::new(alloc, components)?;
        Ok(Course { confs, index })
    }

    /// Moves the participants of an entry's action by the joint step, which is taken again (Lynch 8.2). After a fault
    /// the configurations are as they were: `NoChannel` (42) if a participant is no component; else the first fault of
    /// the participants' own steps, the queue's first.
    pub fn advance(&mut self, alloc: Global, entry: &Entry) -> Result<(), StepFault>
        ensures answer { Answers StepFault.Memory (λ _. self.new) result (joint_answer entry.now self.old) }
        ensures kept { IfErr result (λ _. self.new ≡ self.old) }
    {
        move_all(alloc, &mut self.confs, &self.index, entry)
    }

    /// The slot of a component's configuration; the first one if several bear its name. It takes no search of all
    /// components, since they are in a system's order.
    pub fn slot_of(&self, component: Component) -> Option<usize>
        ensures { result ≡ position_from (λ k. same_component component k) 0 (component_names self.now) }
    {
        slot_of(&self.index, component)
    }

    /// The configurations, in the order of the start.
    pub fn confs(&self) -> &[Conf]
        ensures { result.now ≡ self.now }
    {
        &self.confs
    }
}
