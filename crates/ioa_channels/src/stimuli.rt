//! The stimuli that a script has left.

ghost use Rattle.std.specs.Prelude.{◌≡◌, ◌<◌, IfOk, drop, length};

use ioa_actions::NodeAction;
use std::alloc::{AllocError, Global};
use std::marker::Model;
use std::sync::Arc;

/// The stimuli that a script has left, first to last. A contract sees the list of them. All states of the
/// script share one list, and each keeps how many of it have come out.
#[derive(Debug, Drop)]
pub(crate) struct Stimuli {
    all: Arc<Vec<NodeAction>>,
    passed: usize,
}

impl Model for Stimuli {
    ghost use Rattle.std.specs.Prelude.{List, ◌≤◌, drop, length};
    ghost use Rattle.std.specs.Coded.{coded_list};
    ghost use Rattle.ioa_actions.specs.contracts.action.NodeAction as node_action;
    ghost use Rattle.ioa_actions.specs.declared.action.NodeAction.{NodeAction};

    ghost Value = { List NodeAction };

    ghost coded = { coded_list node_action.the_row.coded };

    ghost view = { λ s. drop s.passed s.all.value.items };

    ghost invariant = { λ s. s.passed ≤ length s.all.value.items };
}

impl Stimuli {
    /// These stimuli, first to last.
    pub(crate) fn of(alloc: Global, stimuli: Vec<NodeAction>) -> Result<Self, AllocError>
        ensures { IfOk result (λ s. s ≡ stimuli.items) }
    {
        Ok(Stimuli {
            all: Arc::new(alloc, stimuli)?,
            passed: 0,
        })
    }

    /// The stimuli as a slice.
    pub(crate) fn as_slice(&self) -> &[NodeAction]
        ensures { result.now ≡ self.now }
    {
        &self.all[self.passed..]
    }

    /// The same stimuli once more, sharing the list; takes no memory.
    pub(crate) fn try_clone(&self) -> Result<Self, AllocError>
        ensures { IfOk result (λ s. s ≡ self.now) }
    {
        Ok(Stimuli {
            all: Arc::try_clone(&self.all)?,
            passed: self.passed,
        })
    }

    /// The stimuli behind the first one; takes no memory.
    #[tactic(auto, using(crate::proofs::Parts::drop_further))]
    pub(crate) fn behind_first(&self) -> Result<Self, AllocError>
        requires { 0 < length self.now }
        ensures { IfOk result (λ s. s ≡ drop 1 self.now) }
    {
        let Stimuli { all, passed } = self.try_clone()?;
        Ok(Stimuli {
            all,
            passed: passed + 1,
        })
    }
}
