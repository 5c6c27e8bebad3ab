//! The walk from the top.

ghost use Rattle.std.specs.Prelude.{◌≡◌, map};
ghost use Rattle.gen_tree.specs.View.{lent_of};
ghost use Rattle.elab_core.specs.Results.{Answers, Judged};
ghost use Rattle.elab_core.specs.View.{instance_of};
ghost use Rattle.elab_core.specs.Walk.{judge, none_seen};
ghost use Rattle.elab_core.specs.Elab.{top_walk};
ghost use Rattle.elab_base.specs.Met.{met_of};
ghost use Rattle.elab_walk.specs.Walked.{placed_of, uncounted};

use crate::gather::placed;
use crate::item::body_of;
use crate::made::Here;
use crate::modules::Modules;
use crate::values::top_values;
use crate::walker::Walker;
use elab_base::Met;
use elab_core::{Count, ElabFault, Instance};
use gen_tree::Module;
use std::alloc::Global;
use text_core::Text;

/// All instances, from the top.
#[tactic(auto, using(crate::proofs::TopCases::top_steps))]
fn instances(
    alloc: Global,
    met: &mut Met,
    modules: &Modules,
    top: &[u8],
    given: &[(Text, i64)],
) -> Result<Vec<Instance>, ElabFault>
    requires { met.old.instances ≡ 0 }
    ensures { Judged (λ all. placed_of all.items) result (met_of met.new) (judge (met_of met.old) (top_walk (lent_of modules.now.all.now) top.now given.now)) }
{
    let (place, found) = modules.named(alloc, 0, top)?;
    let params = top_values(alloc, found, given)?;
    met.take(Count::Instances, 0)?;
    let path = Text::new(alloc, top)?;
    let here = Here { path, number: 0 };
    let walker = Walker {
        alloc,
        modules,
        room: 32,
        here: &here,
        scope: &params,
    };
    let made = body_of(&walker, met, found)?;
    let all = placed(alloc, here.path, None, place, &params, made)?;
    Ok(all)
}

/// The instances of these modules from a top, whose parameters are given these numbers, in preorder: a parent, then what is
/// below its children, one child after the other. The number of an instance is its place.
///
/// Errors: `UnknownModule`, `UnknownParameter`, `ElabRange`, `TooDeep` and `TooLarge`, as the first faulty event of the walk
/// has it, and `NoMemory`, which can come at any time. Nothing is counted in cells here.
#[tactic(auto, unfolding(crate::specs::Walked::placed_of))]
pub fn walk(
    alloc: Global,
    modules: &[&Module],
    top: &[u8],
    given: &[(Text, i64)],
) -> Result<Vec<Instance>, ElabFault>
    ensures { Answers (λ all. map instance_of all.items) result (uncounted (judge none_seen (top_walk (lent_of modules.now) top.now given.now))) }
{
    let modules = Modules::of(alloc, modules)?;
    let mut met = Met::new();
    let all = instances(alloc, &mut met, &modules, top, given)?;
    Ok(all)
}
