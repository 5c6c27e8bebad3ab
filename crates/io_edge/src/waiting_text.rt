//! A text that waits until it is long, and is then handed to a sink: a sink is asked seldom, and a text needs little memory.

ghost use Rattle.std.specs.Prelude.{◌≡◌, ◌≤◌, [], IsErrOf, OnErr, OnOk, length};
ghost use Rattle.io_edge.specs.Faults.{Rose};
ghost use Rattle.io_edge.specs.Taken.{Appends, AppendsFront};
ghost use Rattle.io_edge.specs.Waiting.{Passes};

use crate::{Sink, SinkEnd};

/// How many bytes wait at most before they are handed on.
const LONG: usize = 64 * 1024;

/// Hands a text of more than 64 KiB to the sink, which leaves it empty; a shorter one goes on waiting. So no more than 64 KiB wait.
pub fn put_long<S: Sink>(text: &mut Vec<u8>, out: &mut S) -> Result<(), SinkEnd>
    ensures short { OnOk result (length text.new.items ≤ 65536) }
    ensures ok { OnOk result (Passes (S.taken out.old) (S.taken out.new) text.old.items text.new.items []) }
    ensures front { OnErr result (AppendsFront (S.taken out.old) (S.taken out.new) text.old.items) }
    ensures failed { IsErrOf result SinkEnd.Failed → Rose (S.fault_count out.old) (S.fault_count out.new) }
    ensures later { S.fault_count out.old ≤ S.fault_count out.new }
{
    if text.len() > LONG {
        out.put(text)?;
        text.clear();
    }
    Ok(())
}

/// Hands the whole text to the sink.
pub fn put_all<S: Sink>(text: &[u8], out: &mut S) -> Result<(), SinkEnd>
    ensures ok { OnOk result (Appends (S.taken out.old) (S.taken out.new) text.now) }
    ensures front { OnErr result (AppendsFront (S.taken out.old) (S.taken out.new) text.now) }
    ensures failed { IsErrOf result SinkEnd.Failed → Rose (S.fault_count out.old) (S.fault_count out.new) }
    ensures later { S.fault_count out.old ≤ S.fault_count out.new }
{
    out.put(text)?;
    Ok(())
}
