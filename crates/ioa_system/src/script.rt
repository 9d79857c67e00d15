//! The script of a node.

ghost use Rattle.std.specs.Prelude.{◌≡◌};
ghost use Rattle.ioa_system.specs.Systems.{script_parts};

use ioa_actions::NodeAction;
use std::marker::Model;

/// A script: the inputs that the environment has for a node, in order (profile). A contract sees plain data.
pub struct Script {
    node: i64,
    stimuli: Vec<NodeAction>,
}

/// By hand, so that crates above do not prove again how the parts are let go (DECISIONS).
impl Drop for Script {
    fn drop(self) {
        let Script {
            node: _,
            stimuli: _,
        } = self;
    }
}

impl Model for Script {
    ghost use Rattle.ioa_system.specs.Systems.{ScriptParts, script_parts, script_code};

    ghost Value = { ScriptParts };

    ghost coded = { script_code };

    ghost view = { λ s. script_parts s.node s.stimuli.items };
}

impl Script {
    /// The script of a node with these stimuli. Nothing is checked of them here.
    pub fn new(node: i64, stimuli: Vec<NodeAction>) -> Self
        ensures { result ≡ script_parts node stimuli.items }
    {
        Script { node, stimuli }
    }

    /// The number of the node.
    pub fn node(&self) -> i64
        ensures { result ≡ self.now.node }
    {
        self.node
    }

    /// The stimuli, first to last.
    pub fn stimuli(&self) -> &[NodeAction]
        ensures { result.now ≡ self.now.stimuli }
    {
        self.stimuli.as_slice()
    }
}
