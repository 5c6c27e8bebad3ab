//! A net of an input and of a register that takes it, and the ports of a module around it. The net has no operators, since
//! each makes what it is proved to be much longer.

ghost use Rattle.std.specs.Prelude.{◌≡◌, [], ◌∷◌, IfOk, IsTrue, codes};
ghost use Rattle.std.specs.List.{list_all};
ghost use Rattle.gen_token.specs.Spelling.{is_name};
ghost use Rattle.design_core.specs.Ports.{has_name};
ghost use Rattle.verilog_out.specs.Printed.{FitsPorts};
ghost use Rattle.sim_hist.specs.Run.{InputsArePorts};

use crate::missing::Missing;
use bv_core::Bv;
use design_core::Ports;
use net_core::{Net, NetBuilder};
use std::alloc::Global;
use text_core::{Listed, Text};

/// A value of 8 bits.
fn byte(value: u8) -> Result<Bv, Missing>
    ensures { IfOk result (λ b. b.width ≡ 8) }
{
    Bv::make(8, u128::from(value)).ok_or(Missing)
}

/// Node 0 is the input `d` of 8 bits. Node 1 is a register that starts at 14, and then has what `d` was in the cycle before.
pub(crate) fn delay(alloc: Global) -> Result<Net, Missing>
    ensures placed { IfOk result (λ net. (ports : Ports) → ports.inputs ≡ (codes "x", 8) ∷ (codes "d", 8) ∷ [] → InputsArePorts net.nodes ports) }
    ensures fits { IfOk result (λ net. (ports : Ports) → ports.inputs ≡ (codes "x", 8) ∷ (codes "d", 8) ∷ [] → ports.outputs ≡ [] → FitsPorts net ports) }
{
    let start = byte(14)?;
    let mut builder = NetBuilder::new(alloc)?;
    let data = builder.input(b"d", 8)?;
    let register = builder.register(b"A", b"r", start)?;
    let mut nexts = Vec::new(alloc);
    nexts.push((register, data))?;
    Ok(builder.finish(Vec::new(alloc), nexts))
}

/// The inputs: `x`, which the net has not, and `d`.
#[tactic(auto, unfolding(gen_token::specs::Spelling::is_name))]
fn inputs(alloc: Global) -> Result<Listed<(Text, u8)>, Missing>
    ensures ports { IfOk result (λ found. found ≡ (codes "x", 8) ∷ (codes "d", 8) ∷ []) }
    ensures names { IfOk result (λ found. IsTrue (list_all has_name found)) }
{
    let mut inputs = Vec::new(alloc);
    inputs.push((Text::new(alloc, b"x")?, 8))?;
    inputs.push((Text::new(alloc, b"d")?, 8))?;
    Ok(Listed::new(inputs))
}

/// The name of the module.
#[tactic(auto, unfolding(gen_token::specs::Spelling::is_name))]
fn module_name(alloc: Global) -> Result<Text, Missing>
    ensures { IfOk result (λ name. IsTrue (is_name name)) }
{
    Ok(Text::new(alloc, b"A")?)
}

/// The ports of the module.
pub(crate) fn ports(alloc: Global) -> Result<Ports, Missing>
    ensures inputs { IfOk result (λ ports. ports.inputs ≡ (codes "x", 8) ∷ (codes "d", 8) ∷ []) }
    ensures outputs { IfOk result (λ ports. ports.outputs ≡ []) }
{
    Ok(Ports {
        module: module_name(alloc)?,
        inputs: inputs(alloc)?,
        outputs: Listed::new(Vec::new(alloc)),
        registers: 1,
    })
}
