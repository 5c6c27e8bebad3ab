//! The law of replay.

ghost use Rattle.std.specs.Prelude.{◌≡◌, None, OnOk};
ghost use Rattle.check_core.specs.Verdict.{verdict};
ghost use Rattle.design_core.specs.DesignView.{design_of};
ghost use Rattle.place_core.specs.Orders.{TellsOrder};
ghost use Rattle.headline_laws.specs.Headline.{AreReplayed, ReplaysAreDebugged};

use design_core::Design;
use design_net::compile;
use lower_core::Mode;
use place_core::Order;
use replay_laws::waves_replay;
use std::alloc::Global;
use stim_text::Stim;
use text_core::NoMemory;
use wave_net::compiled_waves_are_kept;

/// The law that a replay of the files that are printed of an accepted design and its run, each of at most 64 MiB, asks for status 0 and
/// the text of a debugger's session over the run of the source, and for nothing else. Computes nothing.
pub fn replays_are_debugged()
    ensures { ReplaysAreDebugged }
{
    compiled_waves_are_kept();
    waves_replay();
}

/// The law that replay is debugging, of a design, an order of its driven signals, a mode and a stimulus that was read, wherever memory is found to compile the
/// design once: it has then a net and a table. Returns nothing else.
pub fn debugged_is_replayed(
    alloc: Global,
    design: &Design,
    order: &Order,
    mode: Mode,
    stim: &Stim,
) -> Result<(), NoMemory>
    requires accepted { verdict (design_of design.now) ≡ None }
    requires order { TellsOrder (design_of design.now) order.now }
    ensures { OnOk result (AreReplayed (design_of design.now) order.now mode stim.now) }
{
    replays_are_debugged();
    compile(alloc, design, order, mode)?;
    Ok(())
}
