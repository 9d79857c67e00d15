//! A system that was checked.

ghost use Rattle.std.specs.Prelude.{◌≡◌, map};
ghost use Rattle.std.specs.Arc.{arc_value};
ghost use Rattle.std.specs.Option.{option_copied};
ghost use Rattle.ioa_system.specs.Systems.{script_of, system};

use crate::invariant::CheckedInvariant;
use crate::program::Program;
use crate::script::Script;
use ioa_source::Channel;
use ioa_terms::Names;
use std::marker::Model;
use std::sync::Arc;

/// A system: the programs of its nodes, node 0 first, and its channels, scripts and invariants as declared.
pub struct System {
    names: Arc<Names>,
    programs: Vec<Arc<Program>>,
    channels: Vec<Channel>,
    scripts: Vec<Script>,
    invariants: Vec<CheckedInvariant>,
}

/// By hand, so that crates above do not prove again how the parts are let go (DECISIONS).
impl Drop for System {
    fn drop(self) {
        let System {
            names: _,
            programs: _,
            channels: _,
            scripts: _,
            invariants: _,
        } = self;
    }
}

impl Model for System {
    ghost use Rattle.std.specs.Arc.{arc_value};
    ghost use Rattle.ioa_system.specs.Systems.{SystemParts, system_code};

    ghost Value = { SystemParts };

    ghost coded = { system_code };

    ghost use Rattle.std.specs.Prelude.{map};
    ghost use Rattle.ioa_system.specs.Systems.{system};

    ghost view = { λ s. system (arc_value s.names) (map arc_value s.programs.items) s.channels.items s.scripts.items
        s.invariants.items };
}

impl System {
    /// The system of these constants, programs, channels, scripts and invariants. Nothing is checked of them here.
    pub fn new(
        names: Arc<Names>,
        programs: Vec<Arc<Program>>,
        channels: Vec<Channel>,
        scripts: Vec<Script>,
        invariants: Vec<CheckedInvariant>,
    ) -> Self
        ensures { result ≡ system (arc_value names) (map arc_value programs.items) channels.items scripts.items
            invariants.items }
    {
        System {
            names,
            programs,
            channels,
            scripts,
            invariants,
        }
    }

    /// The names of the text's constants.
    pub fn names(&self) -> &Names
        ensures { result.now ≡ self.now.names }
    {
        &self.names
    }

    /// The programs of the nodes, node 0 first.
    pub fn programs(&self) -> &[Arc<Program>]
        ensures { map arc_value result.now ≡ self.now.programs }
    {
        self.programs.as_slice()
    }

    /// The channels, as declared.
    pub fn channels(&self) -> &[Channel]
        ensures { result.now ≡ self.now.channels }
    {
        self.channels.as_slice()
    }

    /// The scripts, as declared.
    pub fn scripts(&self) -> &[Script]
        ensures { result.now ≡ self.now.scripts }
    {
        self.scripts.as_slice()
    }

    /// The invariants, as declared.
    pub fn invariants(&self) -> &[CheckedInvariant]
        ensures { result.now ≡ self.now.invariants }
    {
        self.invariants.as_slice()
    }

    /// The script of a node, if one is declared; the first one if there are several.
    pub fn script_of(&self, node: i64) -> Option<&Script>
        ensures { option_copied result ≡ script_of node self.now.scripts }
    {
        self.scripts.iter().find(|script| script.node() == node)
    }
}
