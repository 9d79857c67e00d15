//! What becomes of a text whose parts are made one by one.

ghost use Rattle.std.specs.Prelude.{◌≡◌};
ghost use Rattle.ioa_show.specs.Shown as spec;

use ioa_paper::ReportFault;
use ioa_streams::OutFailed;
use std::alloc::AllocError;

/// What it comes to: whether its parts were made, and then whether all of it went out.
pub fn outcome_of(
    made: Result<(), AllocError>,
    sent: Result<(), OutFailed>,
) -> Result<(), ReportFault>
    ensures { result ≡ spec.outcome_of made sent }
{
    match (made, sent) {
        (Err(AllocError), _) => Err(ReportFault::Memory),
        (Ok(()), Err(OutFailed)) => Err(ReportFault::Write),
        (Ok(()), Ok(())) => Ok(()),
    }
}
