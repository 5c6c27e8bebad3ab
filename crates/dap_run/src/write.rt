//! How the texts of messages are written: each as soon as it is there.

ghost use Rattle.std.specs.Prelude.{◌≡◌, ◌≤◌, OnOk, OnErr, map};
ghost use Rattle.io_edge.specs.Faults.{Rose};
ghost use Rattle.io_edge.specs.Taken.{Appends, AppendsFront};
ghost use Rattle.dap_link.specs.Laws.{whole_of};

use io_edge::{Failed, Sink};

/// Writes texts, in order.
pub(crate) fn put_all<S: Sink>(texts: &[Vec<u8>], out: &mut S) -> Result<(), Failed>
    ensures ok { OnOk result (Appends (S.taken out.old) (S.taken out.new) (whole_of (map (λ text. text.items) texts.now))) }
    ensures front { OnErr result (AppendsFront (S.taken out.old) (S.taken out.new) (whole_of (map (λ text. text.items) texts.now))) }
    ensures later { S.fault_count out.old ≤ S.fault_count out.new }
    ensures failed { OnErr result (Rose (S.fault_count out.old) (S.fault_count out.new)) }
{
    for text in texts {
        match out.put(text) {
            Ok(()) => {}
            Err(failed) => return Err(failed),
        }
    }
    Ok(())
}
