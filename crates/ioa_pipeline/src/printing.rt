//! Texts that are laid out anew.

ghost use Rattle.std.specs.Prelude.{◌≡◌, false, string_bytes, IfErr, IfOk};
ghost use Rattle.ioa_pipeline.specs.Printing.{IsEarlyPrint, IsFaultOfPrint, PrintsAnew, SpellAlike};

use ioa_front::print;
use ioa_streams::{Out, OutFailed, put_all};
use ioa_text_reader::{FrontFault, parse};
use std::alloc::{AllocError, Global};
use std::fmt;
use thiserror::Error;

/// Why a text was not laid out anew.
#[derive(Debug, Drop, Error)]
pub enum PrintFault {
    /// Numbers 10 to 16: the text spells no source.
    Front(FrontFault),
    /// `Memory` (3): memory ran out.
    Memory,
    /// `Write` (71): the output failed, or took nothing more. A beginning of the text went out.
    Write,
}

impl fmt::Display for PrintFault {
    ghost use Rattle.std.specs.Prelude.{Some};
    ghost use Rattle.ioa_pipeline.specs.Printing.{print_fault_text};

    ghost output = { λ f. Some (print_fault_text f) };

    fn fmt<W: fmt::Write>(&self, f: &mut fmt::Formatter<W>) -> fmt::Result {
        match self {
            PrintFault::Front(fault) => write!(f, "{fault}"),
            PrintFault::Memory => write!(f, "3 Memory"),
            PrintFault::Write => write!(f, "71 Write"),
        }
    }
}

impl From<FrontFault> for PrintFault {
    ghost use Rattle.std.specs.Prelude.{◌≡◌};
    ghost use Rattle.ioa_pipeline.specs.Printing.{print_fault_of_front};

    ghost from_gives = { λ e f. f ≡ print_fault_of_front e };

    fn from(fault: FrontFault) -> Self {
        match fault {
            FrontFault::Memory => PrintFault::Memory,
            refusal => PrintFault::Front(refusal),
        }
    }
}

impl From<AllocError> for PrintFault {
    ghost use Rattle.std.specs.Prelude.{◌≡◌};
    ghost use Rattle.ioa_pipeline.specs.declared.printing.PrintFault.TheVariants.{Memory};

    ghost from_gives = { λ _ f. f ≡ Memory };

    fn from(_error: AllocError) -> Self {
        PrintFault::Memory
    }
}

/// Puts out a text that spells the same source, laid out anew. Comments are not kept. The text is read, and not
/// checked.
pub fn print_text<O: Out>(alloc: Global, text: &str, out: &mut O) -> Result<(), PrintFault>
    requires { O.failed out.old ≡ false }
    ensures written { PrintsAnew text.now (O.bytes out.old) (O.bytes out.new) (O.failed out.new) result }
    ensures refused { IfErr result (λ f. IsFaultOfPrint f text.now) }
{
    let printed = print_anew(alloc, text)?;
    match put_all(out, printed.as_bytes()) {
        Ok(()) => Ok(()),
        Err(OutFailed) => Err(PrintFault::Write),
    }
}

/// A text that spells the same source.
fn print_anew(alloc: Global, text: &str) -> Result<String, PrintFault>
    ensures printed { IfOk result (λ s. SpellAlike text.now (string_bytes s)) }
    ensures early { IfErr result (λ f. IsEarlyPrint f) }
    ensures refused { IfErr result (λ f. IsFaultOfPrint f text.now) }
{
    let source = parse(alloc, text)?;
    let printed = print(alloc, &source)?;
    Ok(printed)
}
