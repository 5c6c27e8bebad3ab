//! A fault of a module, told with the path of the instance in which it was found.

ghost use Rattle.std.specs.Prelude.{◌≡◌, IfOk};
ghost use Rattle.check_core.specs.Faults.{fault_in as the_fault_in, spot_in as the_spot_in};

use check_core::{CheckFault, Spot};
use std::alloc::Global;
use text_core::{NoMemory, Text};

/// A place of a module, in the instance of this path.
fn spot_in(alloc: Global, path: &[u8], at: Spot) -> Result<Spot, NoMemory>
    ensures { IfOk result (λ spot. spot ≡ the_spot_in path.now at) }
{
    Ok(Spot {
        line: at.line,
        name: at.name,
        instance: Text::new(alloc, path)?,
    })
}

/// The fault of a module, in the instance of this path.
pub(crate) fn fault_in(
    alloc: Global,
    path: &[u8],
    fault: CheckFault,
) -> Result<CheckFault, NoMemory>
    ensures { IfOk result (λ found. found ≡ the_fault_in path.now fault) }
{
    Ok(match fault {
        CheckFault::UnknownName(at) => CheckFault::UnknownName(spot_in(alloc, path, at)?),
        CheckFault::DuplicateName(at) => CheckFault::DuplicateName(spot_in(alloc, path, at)?),
        CheckFault::BadWidth(at) => CheckFault::BadWidth(spot_in(alloc, path, at)?),
        CheckFault::UnknownPort(at) => CheckFault::UnknownPort(spot_in(alloc, path, at)?),
        CheckFault::UnboundInput(at) => CheckFault::UnboundInput(spot_in(alloc, path, at)?),
        CheckFault::WidthMismatch { at, have, want } => CheckFault::WidthMismatch {
            at: spot_in(alloc, path, at)?,
            have,
            want,
        },
        CheckFault::TwoDrivers { at, first } => CheckFault::TwoDrivers {
            at: spot_in(alloc, path, at)?,
            first,
        },
        CheckFault::Undriven(at) => CheckFault::Undriven(spot_in(alloc, path, at)?),
        CheckFault::Latch(at) => CheckFault::Latch(spot_in(alloc, path, at)?),
        CheckFault::ReadBeforeWrite(at) => CheckFault::ReadBeforeWrite(spot_in(alloc, path, at)?),
        CheckFault::NoMemory => CheckFault::NoMemory,
    })
}
