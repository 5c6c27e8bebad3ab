//! The trace of a simulator under a stimulus, and its cursor.

ghost use Rattle.std.specs.Prelude.{◌≡◌, ◌<◌, ◌≤◌, IfOk, Some, length};
ghost use Rattle.net_core.specs.Nets.{IsNet};
ghost use Rattle.stim_text.specs.Stimulus.{IsStimulus};
ghost use Rattle.sim_core.specs.Leaves.{starts_of};
ghost use Rattle.sim_hist.specs.Run.{InputsArePorts, run_samples, new_trace, first_cycle, first_settles};
ghost use Rattle.sim_hist.specs.Recalled.{AreRecalled};
ghost use Rattle.sim_hist.specs.Kept.{ArePicked, Stands, IsSought, IsSoughtIn};

use crate::columns::columns;
use crate::history::History;
use crate::settle::{Feed, begin, settle_in, walk};
use crate::steps::Steps;
use bv_core::{Bv, NodeId, Sample};
use design_core::Ports;
use net_core::Net;
use sim_core::Simulator;
use std::alloc::{AllocError, Global};
use std::marker::{Brand, Model};
use std::sync::ledger::{Blank, Ledger};
use stim_text::Stim;
use text_core::NoMemory;
use trace_core::{Seek, Trace};

/// The trace of a net under a stimulus, with a cycle for each row. It settles the net in the cycle of the cursor. It keeps the registers of
/// every 256th cycle that it has been in, and of at most 256 cycles more, 32 bytes a value: so a seek back settles the net at most 256
/// times, and going back over all cycles settles it about twice in each.
#[derive(Drop)]
pub struct SimTrace {
    simulator: Simulator,
    stim: Stim,
    feed: Feed,
    history: History,
    cursor: Option<u64>,
}

impl Model for SimTrace {
    ghost use Rattle.sim_hist.specs.Run.{Traced};
    ghost use Rattle.sim_hist.specs.Kept.{IsTrace};

    ghost Value = { Traced };

    ghost view = { λ t. record { net = t.simulator.net; stim = t.stim; cursor = t.cursor; settles = t.simulator.settles } };

    ghost invariant = { λ t. IsTrace t.simulator t.stim t.feed.columns.items t.history t.cursor };
}

/// The columns of a net's inputs, and room for their values.
fn feed_of(alloc: Global, net: &Net, ports: &Ports) -> Result<Feed, AllocError>
    requires { InputsArePorts net.now.nodes ports.now }
    ensures { IfOk result (λ feed. ArePicked net.now ports.now feed.columns.items) }
{
    let columns = columns(alloc, net, ports)?;
    let blank = Bv::make(1, 0).unwrap();
    let inputs = vec![in alloc; blank; columns.len()]?;
    Ok(Feed { columns, inputs })
}

/// Settles a simulator that holds the values that its registers start with in the first cycle, where there is one.
fn settle_first(
    simulator: &mut Simulator,
    history: &mut History,
    stim: &Stim,
    feed: &mut Feed,
) -> Option<u64>
    requires picked { ArePicked simulator.old.net stim.now.ports feed.old.columns.items }
    requires starts { simulator.old.registers ≡ starts_of simulator.old.net.nodes }
    requires recalled { AreRecalled simulator.old.net stim.now history.old }
    ensures net { simulator.new.net ≡ simulator.old.net }
    ensures columns { feed.new.columns.items ≡ feed.old.columns.items }
    ensures recalled { AreRecalled simulator.new.net stim.now history.new }
    ensures stands { Stands simulator.new stim.now history.new result }
    ensures cursor { result ≡ first_cycle stim.now }
    ensures settles { simulator.new.settles ≡ first_settles stim.now.rows simulator.old.settles }
{
    if stim.rows() == 0 {
        return None;
    }
    settle_in(simulator, history, stim, feed, 0);
    Some(0)
}

impl SimTrace {
    /// The trace of a simulator's net under a stimulus, from the values that the registers start with. Its cursor stands at
    /// the first cycle, where there is one. Takes room for the registers of every 256th cycle and of 256 cycles. Fails only where
    /// memory runs out.
    pub fn new(alloc: Global, simulator: Simulator, stim: Stim) -> Result<SimTrace, NoMemory>
        requires starts { simulator.registers ≡ starts_of simulator.net.nodes }
        requires inputs { InputsArePorts simulator.net.nodes stim.ports }
        ensures { IfOk result (λ trace. trace ≡ new_trace simulator.net stim simulator.settles) }
    {
        let mut simulator = simulator;
        let mut feed = feed_of(alloc, simulator.net(), stim.ports())?;
        let mut history = History::new(alloc, simulator.registers(), stim.rows())?;
        let cursor = settle_first(&mut simulator, &mut history, &stim, &mut feed);
        Ok(SimTrace {
            simulator,
            stim,
            feed,
            history,
            cursor,
        })
    }

    /// The net of its simulator.
    pub fn net(&self) -> &Net
        ensures parts { result.now ≡ self.now.net }
        ensures net { IsNet self.now.net }
    {
        self.simulator.net()
    }

    /// The ports of its stimulus.
    pub fn ports(&self) -> &Ports
        ensures ports { result.now ≡ self.now.stim.ports }
        ensures stimulus { IsStimulus self.now.stim }
    {
        self.stim.ports()
    }

    /// Moves the cursor to a cycle, as `seek` does, and counts each settling of the net as a step: at most 256 to an earlier cycle, and
    /// to a later one no more than lie between. Takes no memory.
    pub fn seek_counted<L: Ledger>(&mut self, t: u64, steps: &mut Steps<L>) -> Seek
        ensures within { t < length self.old.stim.rows → (result ≡ Seek.At) × (self.new.cursor ≡ Some t) }
        ensures beyond { length self.old.stim.rows ≤ t → (result ≡ Seek.OutOfRange) × (self.new.cursor ≡ self.old.cursor) }
        ensures net { self.new.net ≡ self.old.net }
        ensures stim { self.new.stim ≡ self.old.stim }
        ensures cost { IsSoughtIn (length self.old.stim.rows) self.old.cursor t self.old.settles self.new.settles steps.old steps.new }
    {
        if t >= self.stim.rows() {
            return Seek::OutOfRange;
        }
        if self.cursor == Some(t) {
            return Seek::At;
        }
        let from = begin(
            &mut self.simulator,
            &mut self.history,
            &self.stim,
            self.cursor,
            t,
        );
        walk(
            &mut self.simulator,
            &mut self.history,
            &self.stim,
            &mut self.feed,
            from,
            t,
            steps,
        );
        self.cursor = Some(t);
        Seek::At
    }

    /// Moves the cursor to a cycle, with a count that is read by nobody.
    fn seek_blank<L: Ledger>(&mut self, t: u64, blank: Blank) -> Seek
        requires name { blank.name ≡ L.name }
        requires parts { blank.parts ≡ L.parts }
        requires some { 0 < blank.parts }
        ensures within { t < length self.old.stim.rows → (result ≡ Seek.At) × (self.new.cursor ≡ Some t) }
        ensures beyond { length self.old.stim.rows ≤ t → (result ≡ Seek.OutOfRange) × (self.new.cursor ≡ self.old.cursor) }
        ensures net { self.new.net ≡ self.old.net }
        ensures stim { self.new.stim ≡ self.old.stim }
        ensures cost { IsSought (length self.old.stim.rows) self.old.cursor t self.old.settles self.new.settles }
    {
        let mut steps = Steps::<L>::new(blank);
        self.seek_counted(t, &mut steps)
    }
}

impl Trace for SimTrace {
    ghost samples = { λ f. run_samples f.net f.stim };

    ghost cursor = { λ f. f.cursor };

    fn cycles(&self) -> u64 {
        self.stim.rows()
    }

    fn nodes(&self) -> u64 {
        self.simulator.net().count()
    }

    fn seek(&mut self, t: u64) -> Seek
        ensures kept { run_samples self.new.net self.new.stim ≡ run_samples self.old.net self.old.stim }
        ensures within { t < length self.old.stim.rows → (result ≡ Seek.At) × (self.new.cursor ≡ Some t) }
        ensures beyond { length self.old.stim.rows ≤ t → (result ≡ Seek.OutOfRange) × (self.new.cursor ≡ self.old.cursor) }
        ensures net { self.new.net ≡ self.old.net }
        ensures stim { self.new.stim ≡ self.old.stim }
        ensures cost { IsSought (length self.old.stim.rows) self.old.cursor t self.old.settles self.new.settles }
    {
        self.seek_blank::<Brand>(t, Blank::new(1))
    }

    fn value(&self, n: NodeId) -> Sample {
        Sample::Known(self.simulator.value(n))
    }
}
