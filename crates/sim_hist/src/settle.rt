//! From one cycle of a stimulus to another: how a simulator gets there, and what is kept on the way.

ghost use Rattle.std.specs.Prelude.{◌≡◌, ◌<◌, ◌≤◌, ◌+◌, ◌-◌, ◌*◌, Some, length};
ghost use Rattle.std.specs.Option.{ForSome};
ghost use Rattle.net_core.specs.Nets.{IsNet};
ghost use Rattle.stim_text.specs.Stimulus.{IsStimulus};
ghost use Rattle.sim_core.specs.State.{one_more};
ghost use Rattle.sim_hist.specs.Run.{inputs_in, registers_in};
ghost use Rattle.sim_hist.specs.Recalled.{AreRecalled};
ghost use Rattle.sim_hist.specs.Kept.{ArePicked, IsAt, Stands, more};

use crate::columns::pick;
use crate::history::{BLOCK, History};
use crate::steps::Steps;
use bv_core::Bv;
use sim_core::Simulator;
use std::sync::ledger::Ledger;
use stim_text::Stim;

/// How the inputs of a net are fed from rows: the column of each, and room for their values.
#[derive(Drop)]
pub(crate) struct Feed {
    pub(crate) columns: Vec<usize>,
    pub(crate) inputs: Vec<Bv>,
    pub ghost room: { length inputs.items ≡ length columns.items },
}

/// Settles a simulator under the row of cycle t.
fn settle_row(simulator: &mut Simulator, stim: &Stim, columns: &[usize], inputs: &mut [Bv], t: u64)
    requires cycle { t < length stim.now.rows }
    requires picked { ArePicked simulator.old.net stim.now.ports columns.now }
    requires room { length inputs.old ≡ length columns.now }
    ensures { simulator.new ≡ record simulator.old { settled = Some (inputs_in simulator.old.net stim.now t); settles = one_more simulator.old.settles } }
{
    pick(inputs, columns, stim.row(t));
    simulator.settle(inputs);
}

/// Settles a simulator that holds the registers of a cycle in that cycle, and keeps what is to be kept of it.
pub(crate) fn settle_in(
    simulator: &mut Simulator,
    history: &mut History,
    stim: &Stim,
    feed: &mut Feed,
    t: u64,
)
    requires cycle { t < length stim.now.rows }
    requires picked { ArePicked simulator.old.net stim.now.ports feed.old.columns.items }
    requires then { simulator.old.registers ≡ registers_in simulator.old.net stim.now t }
    requires recalled { AreRecalled simulator.old.net stim.now history.old }
    requires next { t ≤ 256 * length history.old.firsts }
    ensures net { simulator.new.net ≡ simulator.old.net }
    ensures columns { feed.new.columns.items ≡ feed.old.columns.items }
    ensures at { IsAt simulator.new stim.now t }
    ensures recalled { AreRecalled simulator.new.net stim.now history.new }
    ensures entered { t < 256 * length history.new.firsts }
    ensures settles { simulator.new.settles ≡ one_more simulator.old.settles }
{
    history.note(t, simulator.registers());
    settle_row(simulator, stim, &feed.columns, &mut feed.inputs, t);
}

/// Goes from a cycle whose registers the simulator holds to a later one, or stays, by settling each on the way.
#[tactic(auto, using(crate::proofs::Recalling::first_more, crate::proofs::Recalling::next_more))]
pub(crate) fn walk<L: Ledger>(
    simulator: &mut Simulator,
    history: &mut History,
    stim: &Stim,
    feed: &mut Feed,
    from: u64,
    t: u64,
    steps: &mut Steps<L>,
)
    requires order { from ≤ t }
    requires cycle { t < length stim.now.rows }
    requires picked { ArePicked simulator.old.net stim.now.ports feed.old.columns.items }
    requires then { simulator.old.registers ≡ registers_in simulator.old.net stim.now from }
    requires recalled { AreRecalled simulator.old.net stim.now history.old }
    requires next { from ≤ 256 * length history.old.firsts }
    ensures net { simulator.new.net ≡ simulator.old.net }
    ensures columns { feed.new.columns.items ≡ feed.old.columns.items }
    ensures at { IsAt simulator.new stim.now t }
    ensures recalled { AreRecalled simulator.new.net stim.now history.new }
    ensures entered { t < 256 * length history.new.firsts }
    ensures settles { simulator.new.settles ≡ more (t + 1 - from) simulator.old.settles }
    ensures steps { steps.new ≡ steps.old + (t + 1 - from) }
{
    steps.tick();
    settle_in(simulator, history, stim, feed, from);
    for at in from..t {
        simulator.edge();
        steps.tick();
        settle_in(simulator, history, stim, feed, at + 1);
    }
}

/// Brings the registers of a cycle into the simulator from which another, not that of the cursor, is reached: its own, where they are kept
/// near; or those of the cycle behind the cursor, where it comes later; or those of the first of its block.
pub(crate) fn begin(
    simulator: &mut Simulator,
    history: &mut History,
    stim: &Stim,
    cursor: Option<u64>,
    t: u64,
) -> u64
    requires net { IsNet simulator.old.net }
    requires stimulus { IsStimulus stim.now }
    requires cycle { t < length stim.now.rows }
    requires recalled { AreRecalled simulator.old.net stim.now history.old }
    requires stands { Stands simulator.old stim.now history.old cursor }
    ensures net { simulator.new.net ≡ simulator.old.net }
    ensures settles { simulator.new.settles ≡ simulator.old.settles }
    ensures order { result ≤ t }
    ensures then { simulator.new.registers ≡ registers_in simulator.new.net stim.now result }
    ensures recalled { AreRecalled simulator.new.net stim.now history.new }
    ensures next { result ≤ 256 * length history.new.firsts }
    ensures back { ForSome cursor (λ c. t < c → t + 1 - result ≤ 256) }
    ensures ahead { ForSome cursor (λ c. c < t → t + 1 - result ≤ t - c) }
{
    if let Some(registers) = history.near(t) {
        simulator.load(registers);
        return t;
    }
    match cursor {
        Some(c) if c < t => {
            simulator.edge();
            c + 1
        }
        _ => {
            simulator.load(history.first(t / BLOCK));
            history.come_to(t / BLOCK);
            t / BLOCK * BLOCK
        }
    }
}
