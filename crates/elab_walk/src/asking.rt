//! A child as an `inst` asks for it.

ghost use Rattle.std.specs.Prelude.{◌≡◌, ◌≤◌, map, IfOk, OnOk};
ghost use Rattle.gen_tree.specs.View.{fam_of, param_of, conn_of, module_of};
ghost use Rattle.elab_core.specs.Results.{Judged};
ghost use Rattle.elab_core.specs.Walk.{judge};
ghost use Rattle.elab_core.specs.Elab.{asked as asked_walk};
ghost use Rattle.elab_base.specs.Met.{met_of};
ghost use Rattle.elab_walk.specs.Height.{height, tallest};
ghost use Rattle.elab_walk.specs.Walked.{modules_in, asked_of};

use crate::asked::Asked;
use crate::signals::connections;
use crate::values::values;
use crate::walker::Walker;
use elab_base::{Met, family_name};
use elab_core::ElabFault;
use gen_tree::{Conn, Fam, Module, Param};

/// A child with its module: its name, its module, its parameters, its connections, in this order.
#[tactic(auto, using(crate::proofs::AskedCases::asked_steps))]
pub(crate) fn asked<'w>(
    walker: &Walker<'w>,
    met: &mut Met,
    line: u32,
    name: &Fam,
    child: &[u8],
    args: &[Param],
    conns: &[Conn],
) -> Result<(Asked, &'w Module), ElabFault>
    ensures judged { Judged (λ want. asked_of want.0 (module_of want.1.now)) result (met_of met.new)
        (judge (met_of met.old) (asked_walk (modules_in walker.now) line walker.now.scope.now (fam_of name.now) child.now (map param_of args.now)
        (map conn_of conns.now))) }
    ensures instances { OnOk result (met.new.instances ≡ met.old.instances) }
    ensures height { IfOk result (λ want. height (module_of want.1.now).items ≤ tallest (modules_in walker.now)) }
{
    let Walker {
        alloc,
        modules,
        scope,
        ..
    } = *walker;
    let name = family_name(alloc, line, scope, name)?;
    let (place, found) = modules.named(alloc, line, child)?;
    let params = values(alloc, line, scope, found, args)?;
    let conns = connections(alloc, met, conns, scope)?;
    Ok((
        Asked {
            line,
            name,
            place,
            params,
            conns,
        },
        found,
    ))
}
