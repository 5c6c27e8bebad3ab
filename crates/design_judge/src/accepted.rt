//! A design that is accepted: what a command works on.

ghost use Rattle.std.specs.Prelude.{◌≡◌, None, IfOk};
ghost use Rattle.design_core.specs.DesignView.{design_of};
ghost use Rattle.check_core.specs.Verdict.{verdict};
ghost use Rattle.place_core.specs.Orders.{TellsOrder};
ghost use Rattle.design_judge.specs.Accepting.{IsKept, accepting_of};

use design_core::{Design, Ports, ports_of};
use place_core::Order;
use std::alloc::Global;
use text_core::NoMemory;

/// A design that is accepted, an order of its driven signals, and the ports of its top. Whoever hands one out says that it is
/// kept so: that no check refuses the design, that the order is one of its signals, and that the ports are its own.
#[derive(Drop)]
pub struct Accepted {
    pub design: Design,
    pub order: Order,
    pub ports: Ports,
}

/// A design that is accepted, and the names of its files, by their numbers.
#[derive(Drop)]
pub struct Named {
    pub accepted: Accepted,
    pub names: Vec<String>,
}

impl Accepted {
    /// A design that no check refuses, with an order of its driven signals.
    pub(crate) fn new(alloc: Global, design: Design, order: Order) -> Result<Accepted, NoMemory>
        requires clean { verdict (design_of design) ≡ None }
        requires order { TellsOrder (design_of design) order }
        ensures design { IfOk result (λ a. design_of a.design ≡ design_of design) }
        ensures kept { IfOk result (λ a. IsKept (accepting_of a)) }
    {
        let ports = ports_of(alloc, &design)?;
        Ok(Accepted {
            design,
            order,
            ports,
        })
    }
}
