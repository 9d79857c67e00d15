//! The system that a text describes.

ghost use Rattle.std.specs.Prelude.{◌≡◌, IfErr, IfOk};
ghost use Rattle.std.specs.Arc.{arc_value};
ghost use Rattle.ioa_pipeline.specs.Described.{IsDescribed, IsExactBy, IsFaultOfText};
ghost use Rattle.ioa_pipeline.specs.declared.described.SystemFault.TheVariants.{Front, Check, Memory};

use ioa_check::check;
use ioa_sections::CheckFault;
use ioa_system::System;
use ioa_text_reader::{FrontFault, parse};
use std::alloc::Global;
use std::fmt;
use std::sync::Arc;
use thiserror::Error;

/// Why a text describes no system.
#[derive(Debug, Drop, Error)]
pub enum SystemFault {
    /// Numbers 10 to 16: the text spells no source.
    Front(FrontFault),
    /// Numbers 20 to 34: the source describes no system.
    Check(CheckFault),
    /// `Memory` (3): memory ran out.
    Memory,
}

impl fmt::Display for SystemFault {
    ghost use Rattle.std.specs.Prelude.{Some};
    ghost use Rattle.ioa_pipeline.specs.Described.{system_fault_text};

    ghost output = { λ f. Some (system_fault_text f) };

    fn fmt<W: fmt::Write>(&self, f: &mut fmt::Formatter<W>) -> fmt::Result {
        match self {
            SystemFault::Front(fault) => write!(f, "{fault}"),
            SystemFault::Check(fault) => write!(f, "{fault}"),
            SystemFault::Memory => write!(f, "3 Memory"),
        }
    }
}

impl From<FrontFault> for SystemFault {
    ghost use Rattle.std.specs.Prelude.{◌≡◌};
    ghost use Rattle.ioa_pipeline.specs.Described.{system_fault_of_front};

    ghost from_gives = { λ e f. f ≡ system_fault_of_front e };

    fn from(fault: FrontFault) -> Self {
        match fault {
            FrontFault::Memory => SystemFault::Memory,
            refusal => SystemFault::Front(refusal),
        }
    }
}

impl From<CheckFault> for SystemFault {
    ghost use Rattle.std.specs.Prelude.{◌≡◌};
    ghost use Rattle.ioa_pipeline.specs.Described.{system_fault_of_check};

    ghost from_gives = { λ e f. f ≡ system_fault_of_check e };

    fn from(fault: CheckFault) -> Self {
        match fault {
            CheckFault::Memory => SystemFault::Memory,
            refusal => SystemFault::Check(refusal),
        }
    }
}

/// The system that a text describes.
#[tactic(auto, using(crate::proofs::Judged::rules_of_text))]
pub(crate) fn system_of(alloc: Global, text: &str) -> Result<Arc<System>, SystemFault>
    ensures described { IfOk result (λ s. IsDescribed text.now (arc_value s)) }
    ensures refused { IfErr result (λ f. IsFaultOfText f text.now) }
    ensures exact { IsExactBy Front Check Memory result text.now }
{
    let source = parse(alloc, text)?;
    let system = check(alloc, source.text())?;
    match Arc::new(alloc, system) {
        Ok(system) => Ok(system),
        Err(_) => Err(SystemFault::Memory),
    }
}
