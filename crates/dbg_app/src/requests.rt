//! Reads the requests of a session.

ghost use Rattle.std.specs.Prelude.{◌≡◌, ◌≤◌, [], ◌∷◌, IfOk, IfSome, OnOk, IsErrOf};
ghost use Rattle.std.specs.Option.{option_map};
ghost use Rattle.io_edge.specs.Faults.{Rose};
ghost use Rattle.io_edge.specs.Taken.{Appends, AppendsFront};
ghost use Rattle.io_edge.specs.Unread.{StopsAt};
ghost use Rattle.dbg_app.specs.Answers.{AreRequests};

use crate::Halt;
use io_edge::{Files, MOST_REQUESTS, read_file};
use std::alloc::Global;

/// The bytes of the requests of this name, or None where they are too long, which is more than 16 MiB.
#[tactic(auto, using(crate::proofs::Reading::requests_held))]
pub(crate) fn read_requests<F: Files>(
    alloc: Global,
    files: &mut F,
    name: &str,
) -> Result<Option<Vec<u8>>, Halt>
    ensures found { IfOk result (λ found. IfSome (F.told files.old) (λ told. AreRequests (told name.now) (option_map (λ bytes. bytes.items) found))) }
    ensures same { F.told files.new ≡ F.told files.old }
    ensures asked { OnOk result (Appends (F.asked files.old) (F.asked files.new) (name.now ∷ [])) }
    ensures front { AppendsFront (F.asked files.old) (F.asked files.new) (name.now ∷ []) }
    ensures read { IsErrOf result Halt.ReadFault → Rose (F.fault_count files.old) (F.fault_count files.new) }
    ensures unread { IsErrOf result Halt.ReadFault → StopsAt F.asked F.fault_count files.old files.new (name.now ∷ []) }
    ensures no_write { IsErrOf result Halt.WriteFault → ⊥ }
    ensures later { F.fault_count files.old ≤ F.fault_count files.new }
{
    let found = read_file(alloc, files, name, MOST_REQUESTS)?;
    Ok(found)
}
