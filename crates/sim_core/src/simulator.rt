//! A net with the values of one cycle. All memory is taken at the start, so that no cycle can fail.

ghost use Rattle.std.specs.Prelude.{◌≡◌, ◌<◌, IsSome, IfSome, IfOk, Some, None, length};
ghost use Rattle.net_core.specs.Nets.{IsNet};
ghost use Rattle.sim_core.specs.Leaves.{inputs_of, registers_of};
ghost use Rattle.sim_core.specs.Given.{HaveWidths, node_value, IsValue};
ghost use Rattle.sim_core.specs.State.{one_more, started, after_edge};

use crate::leaves::{count_inputs, sources, starts};
use crate::step::{solve, take_next, value_at};
use bv_core::{Bv, NodeId};
use net_core::Net;
use std::alloc::Global;
use std::marker::Model;
use text_core::NoMemory;

/// A net with the values of its registers, and, where it is settled, of all its nodes. A new simulator, and one after a
/// clock edge, is not settled. The values lie in arrays that are made at the start, 32 bytes a value.
#[derive(Drop)]
pub struct Simulator {
    net: Net,
    sources: Vec<usize>,
    registers: Vec<Bv>,
    inputs: Vec<Bv>,
    values: Vec<Bv>,
    settled: bool,
    settles: u64,
}

impl Model for Simulator {
    ghost use Rattle.sim_core.specs.State.{Simulated, IsSimulator, settled_under};

    ghost Value = { Simulated };

    ghost view = { λ s. record { net = s.net; registers = s.registers.items; settled = settled_under s.settled s.inputs.items; settles = s.settles } };

    ghost invariant = { λ s. IsSimulator s.net s.sources.items s.registers.items s.inputs.items s.values.items s.settled };
}

impl Simulator {
    /// The net with its registers at the values that they start with. Fails only where memory runs out.
    pub fn new(alloc: Global, net: Net) -> Result<Simulator, NoMemory>
        ensures { IfOk result (λ s. s ≡ started net) }
    {
        let blank = Bv::make(1, 0).unwrap();
        let sources = sources(alloc, &net)?;
        let registers = starts(alloc, &net)?;
        let inputs = vec![in alloc; blank; count_inputs(&net)]?;
        let values = vec![in alloc; blank; net.count() as usize]?;
        Ok(Simulator {
            net,
            sources,
            registers,
            inputs,
            values,
            settled: false,
            settles: 0,
        })
    }

    /// Its net.
    pub fn net(&self) -> &Net
        ensures parts { result.now ≡ self.now.net }
        ensures net { IsNet self.now.net }
    {
        &self.net
    }

    /// The values of its registers, in the order of their nodes' numbers.
    pub fn registers(&self) -> &[Bv]
        ensures values { result.now ≡ self.now.registers }
        ensures widths { HaveWidths (registers_of self.now.net.nodes) self.now.registers }
    {
        &self.registers
    }

    /// Makes these the values of its registers, one for each register in the order of their nodes' numbers. It is not
    /// settled then. Takes no memory.
    pub fn load(&mut self, registers: &[Bv])
        requires { HaveWidths (registers_of self.old.net.nodes) registers.now }
        ensures { self.new ≡ record self.old { registers = registers.now; settled = None } }
    {
        self.registers.copy_from_slice(registers);
        self.settled = false;
    }

    /// Settles it under these inputs, one for each input node in the order of the nodes' numbers: each node has the value
    /// of its equation. Takes time linear in the nodes, and no memory.
    pub fn settle(&mut self, inputs: &[Bv])
        requires { HaveWidths (inputs_of self.old.net.nodes) inputs.now }
        ensures { self.new ≡ record self.old { settled = Some inputs.now; settles = one_more self.old.settles } }
    {
        self.inputs.copy_from_slice(inputs);
        solve(&self.net, &self.inputs, &self.registers, &mut self.values);
        self.settled = true;
        self.settles = self.settles.saturating_add(1);
    }

    /// A clock edge: each register takes its next value, all at once. It is not settled then. Takes time linear in the
    /// registers, and no memory.
    pub fn edge(&mut self)
        requires { IsSome self.old.settled }
        ensures { IfSome self.old.settled (λ inputs. self.new ≡ after_edge inputs self.old) }
    {
        take_next(&mut self.registers, &self.sources, &self.values);
        self.settled = false;
    }

    /// The value of a node. Takes no memory.
    pub fn value(&self, n: NodeId) -> Bv
        requires settled { IsSome self.now.settled }
        requires node { n.0 < length self.now.net.nodes }
        ensures value { IfSome self.now.settled (λ inputs. result ≡ node_value self.now.net.nodes inputs self.now.registers n.0) }
        ensures solution { IfSome self.now.settled (λ inputs. IsValue self.now.net.nodes inputs self.now.registers n.0 result) }
    {
        value_at(&self.values, n)
    }
}
