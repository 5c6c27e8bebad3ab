//! Elaboration as a whole: the walk over the sources, and what it gave as a design.

ghost use Rattle.std.specs.Prelude.{◌≡◌, ◌≤◌, ◌++◌, true, IfOk, OnOk, length, map};
ghost use Rattle.design_core.specs.DesignView.{design_of};
ghost use Rattle.design_core.specs.WellFormed.{IsDesign};
ghost use Rattle.elab_core.specs.Results.{Answers};
ghost use Rattle.elab_laws.specs.Laws.{AreReadFromTexts};
ghost use Rattle.elab_core.specs.View.{instance_of};
ghost use Rattle.gen_elab.specs.Offsets.{all_statements, places_below};
ghost use Rattle.gen_elab.specs.Finished.{finished};
ghost use Rattle.gen_tree.specs.View.{lent_of, modules_of, sources_of};
ghost use Rattle.gen_tree.specs.Tree.{all_modules};
ghost use Rattle.elab_core.specs.Design.{cells, designed as the_design, elaborated_files};

use crate::Given;
use crate::cells::{MOST_CELLS, are_too_many};
use crate::designed::designed;
use design_core::Design;
use elab_core::{Count, ElabFault, Instance};
use elab_walk::walk;
use gen_tree::{Module, Source};
use std::alloc::Global;
use text_core::NoMemory;

/// The design of the instances that the walk gave, unless it has too many cells.
#[tactic(auto, unfolding(crate::specs::Finished::finished))]
fn finish(
    alloc: Global,
    modules: &[&Module],
    top: &[u8],
    instances: Vec<Instance>,
) -> Result<Design, ElabFault>
    requires few { length instances.items ≤ 4096 }
    requires small { all_statements (map instance_of instances.items) ≤ 200000 }
    requires places { places_below (length modules.now) (map instance_of instances.items) ≡ true }
    requires kept { cells (map instance_of instances.items) ≤ 4000000 → IsDesign (the_design (lent_of modules.now) top.now (map instance_of instances.items)) }
    ensures { Answers (λ design. design_of design) result (finished (lent_of modules.now) top.now (map instance_of instances.items)) }
{
    if are_too_many(&instances) {
        return Err(ElabFault::TooLarge {
            line: 0,
            what: Count::Cells,
            limit: MOST_CELLS,
        });
    }
    let design = designed(alloc, modules, top, instances)?;
    Ok(design)
}

/// Puts these modules behind others.
fn put_modules<'s>(all: &mut Vec<&'s Module>, modules: &'s [Module]) -> Result<(), NoMemory>
    ensures { OnOk result (lent_of all.new.items ≡ lent_of all.old.items ++ modules_of modules.now) }
{
    for module in modules {
        all.push(module)?;
    }
    Ok(())
}

/// The modules of all sources, those of one behind those of the other.
fn modules_in<'s>(alloc: Global, sources: &'s [Source]) -> Result<Vec<&'s Module>, NoMemory>
    ensures { IfOk result (λ all. lent_of all.items ≡ all_modules (sources_of sources.now)) }
{
    let mut all = Vec::new(alloc);
    for source in sources {
        put_modules(&mut all, &source.modules)?;
    }
    Ok(all)
}

/// The elaborated design of the sources of all files from its top, a module's name in one of them, with the parameters that are
/// given to it. The sources are those that were read from texts, each in the file of its number; there are 64 at most. What a
/// design keeps stands in its type.
///
/// Errors: the first faulty event of the walk over the modules, in its order: `UnknownModule`, `UnknownParameter`,
/// `ElabRange`, `TooDeep` and `TooLarge`, or `TooLarge` with the cells at its end; and `NoMemory`, which can come at any
/// time.
#[tactic(auto, using(crate::proofs::ElaborateLemmas::elaborate_steps))]
pub fn elaborate(
    alloc: Global,
    sources: &[Source],
    top: &[u8],
    given: &Given,
) -> Result<Design, ElabFault>
    requires { AreReadFromTexts (sources_of sources.now) }
    ensures { Answers (λ design. design_of design) result (elaborated_files (sources_of sources.now) top.now given.now) }
{
    let modules = modules_in(alloc, sources)?;
    let instances = walk(alloc, &modules, top, given.params())?;
    finish(alloc, &modules, top, instances)
}
