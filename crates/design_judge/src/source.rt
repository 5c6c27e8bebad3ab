//! Judges sources that were read, and the text of a source: whether their design is accepted, or why it is refused.

ghost use Rattle.std.specs.Prelude.{◌≡◌, false, option_map, Some, None, IfOk, IfSome};
ghost use Rattle.gen_tree.specs.View.{sources_of};
ghost use Rattle.elab_laws.specs.Laws.{AreReadFromTexts};
ghost use Rattle.design_core.specs.DesignView.{design_of};
ghost use Rattle.check_core.specs.Verdict.{verdict};
ghost use Rattle.design_judge.specs.Refusals.{is_no_memory};
ghost use Rattle.design_judge.specs.declared.design_fault.DesignFault.TheVariants.{Check};
ghost use Rattle.design_judge.specs.Judging.{JudgesDesign, JudgesSources, JudgesText, TellsSources, IsFit};

use crate::loops::signal_paths;
use crate::{Accepted, DesignFault};
use check_core::CheckFault;
use dep_order::{OrderFault, order};
use design_core::Design;
use elab_core::ElabFault;
use gen_check::check;
use gen_elab::{Given, elaborate};
use gen_text::{TextFault, read_source};
use gen_tree::Source;
use std::alloc::Global;
use text_core::NoMemory;

/// Why the checks refuse a design, if they do.
fn check_refusal(alloc: Global, design: &Design) -> Result<Option<DesignFault>, NoMemory>
    ensures refusal { IfOk result (λ refusal. refusal ≡ option_map (λ fault. Check fault) (verdict (design_of design.now))) }
    ensures line { IfOk result (λ refusal. IfSome refusal (λ fault. is_no_memory fault ≡ false)) }
{
    match check(alloc, design) {
        Ok(()) => Ok(None),
        Err(CheckFault::NoMemory) => Err(NoMemory),
        Err(fault) => Ok(Some(DesignFault::Check(fault))),
    }
}

/// A design that no check refuses, with an order of its driven signals; or its refusal for a loop.
fn put_in_order(alloc: Global, design: Design) -> Result<Result<Accepted, DesignFault>, NoMemory>
    requires clean { verdict (design_of design) ≡ None }
    ensures judged { IfOk result (JudgesDesign (design_of design)) }
    ensures fit { IfOk result IsFit }
{
    match order(alloc, &design) {
        Ok(order) => Ok(Ok(Accepted::new(alloc, design, order)?)),
        Err(OrderFault::CombLoop { cycle }) => {
            let paths = signal_paths(alloc, &design, &cycle)?;
            Ok(Err(DesignFault::CombLoop(paths)))
        }
        Err(OrderFault::NoMemory) => Err(NoMemory),
    }
}

/// A design that is accepted, or why it is refused: the checks go before the order.
fn judge_elaborated(
    alloc: Global,
    design: Design,
) -> Result<Result<Accepted, DesignFault>, NoMemory>
    ensures judged { IfOk result (JudgesDesign (design_of design)) }
    ensures fit { IfOk result IsFit }
{
    match check_refusal(alloc, &design)? {
        Some(fault) => Ok(Err(fault)),
        None => put_in_order(alloc, design),
    }
}

/// Judges sources that were read from their top, a module's name, with the parameters that are given to it: the design that is
/// accepted, or why it is refused, where elaboration goes before the checks. The sources are those of 64 files at most, each in the
/// file of its number. Fails only where memory runs out.
pub fn judge_sources(
    alloc: Global,
    sources: &[Source],
    top: &[u8],
    given: &Given,
) -> Result<Result<Accepted, DesignFault>, NoMemory>
    requires { AreReadFromTexts (sources_of sources.now) }
    ensures judged { IfOk result (JudgesSources (record { name = top.now; given = given.now }) (sources_of sources.now)) }
    ensures fit { IfOk result IsFit }
{
    match elaborate(alloc, sources, top, given) {
        Ok(design) => judge_elaborated(alloc, design),
        Err(ElabFault::NoMemory) => Err(NoMemory),
        Err(fault) => Ok(Err(DesignFault::Elaboration(fault))),
    }
}

/// The sources that a text is, as the only file; or why it is not read. Fails only where memory runs out.
fn read_sources(alloc: Global, source: &[u8]) -> Result<Result<Vec<Source>, TextFault>, NoMemory>
    ensures { IfOk result (TellsSources source.now) }
{
    match read_source(alloc, 0, source) {
        Ok(tree) => {
            let mut sources = Vec::new(alloc);
            sources.push(tree)?;
            Ok(Ok(sources))
        }
        Err(TextFault::NoMemory) => Err(NoMemory),
        Err(fault) => Ok(Err(fault)),
    }
}

/// Judges the text of a source from its top, a module's name, with the parameters that are given to it: the design that is accepted,
/// or why it is refused. A text of more than 1 MiB is refused as too long. Fails only where memory runs out.
pub fn judge_text(
    alloc: Global,
    source: &[u8],
    top: &[u8],
    given: &Given,
) -> Result<Result<Accepted, DesignFault>, NoMemory>
    ensures judged { IfOk result (JudgesText (record { name = top.now; given = given.now }) source.now) }
    ensures fit { IfOk result IsFit }
{
    match read_sources(alloc, source)? {
        Ok(sources) => judge_sources(alloc, &sources, top, given),
        Err(fault) => Ok(Err(DesignFault::Text { file: 0, fault })),
    }
}
