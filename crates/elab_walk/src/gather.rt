//! What a body gives, part by part.

ghost use Rattle.std.specs.Prelude.{◌≡◌, ◌+◌, ◌<◌, ◌^◌, ◌++◌, length, IfOk, option_to_list};
ghost use Rattle.design_core.specs.View.{body_of};
ghost use Rattle.elab_core.specs.Results.{NoMemoryOr};
ghost use Rattle.elab_core.specs.View.{child_of as child_seen};
ghost use Rattle.elab_core.specs.Elab.{nothing, with_signal, with_block, child_outputs, output_as, first_signals, instances_of};
ghost use Rattle.elab_walk.specs.Walked.{made_of, placed_of, child_in, with_asked};

use crate::asked::Asked;
use crate::made::{Here, Made};
use design_core::{Block, Kind, Signal, Stmt};
use elab_core::{Child, Content, ElabFault, Instance};
use gen_scope::Scope;
use std::alloc::Global;
use text_core::Text;

/// A body that gave its ports so far.
#[tactic(auto, unfolding(crate::specs::Walked::made_of, crate::specs::Walked::placed_of, elab_core::specs::View::content_of))]
pub(crate) fn begun(alloc: Global, signals: Vec<Signal>) -> Made
    ensures { made_of result ≡ record nothing { content = record (nothing.content) { signals = signals.items } } }
{
    Made {
        content: Content {
            signals,
            children: Vec::new(alloc),
            blocks: Vec::new(alloc),
        },
        below: Vec::new(alloc),
    }
}

/// One signal more.
#[tactic(auto, unfolding(crate::specs::Walked::made_of, elab_core::specs::View::content_of))]
pub(crate) fn add_signal(made: &mut Made, signal: Signal) -> Result<(), ElabFault>
    ensures { NoMemoryOr (λ _. made_of made.new ≡ with_signal (made_of made.old) signal) result }
{
    made.content.signals.push(signal)?;
    Ok(())
}

/// One block more.
#[tactic(auto, unfolding(crate::specs::Walked::made_of, elab_core::specs::View::content_of), using(crate::proofs::GatherSteps::block_pushed))]
pub(crate) fn add_block(
    made: &mut Made,
    line: u32,
    clocked: bool,
    body: Vec<Stmt>,
) -> Result<(), ElabFault>
    ensures { NoMemoryOr (λ _. made_of made.new ≡ with_block (made_of made.old) (record { line = line; clocked = clocked; body = body_of body.items })) result }
{
    made.content.blocks.push(Block {
        line,
        clocked,
        body,
    })?;
    Ok(())
}

/// The signal of a child's output in its parent. None: the signal is no output.
fn output_of(
    alloc: Global,
    line: u32,
    at: u32,
    child: &[u8],
    signal: &Signal,
) -> Result<Option<Signal>, ElabFault>
    ensures { NoMemoryOr (λ found. option_to_list found ≡ output_as line at child.now signal.now signal.now.kind) result }
{
    let Kind::Output = signal.kind else {
        return Ok(None);
    };
    let mut name = child.to_vec(alloc)?;
    name.extend_from_slice(b".")?;
    name.extend_from_slice(signal.name.bytes())?;
    Ok(Some(Signal {
        line,
        name: Text::new(alloc, &name)?,
        kind: Kind::ChildOut(at, Text::new(alloc, signal.name.bytes())?),
        width: signal.width,
    }))
}

/// The outputs of a child, as signals of its parent behind the others.
#[tactic(auto, using(crate::proofs::GatherSteps::output_steps))]
fn add_outputs(
    alloc: Global,
    signals: &mut Vec<Signal>,
    line: u32,
    at: u32,
    child: &[u8],
    of: &[Signal],
) -> Result<(), ElabFault>
    ensures { NoMemoryOr (λ _. signals.new.items ≡ signals.old.items ++ child_outputs line at child.now of.now) result }
{
    for signal in of {
        if let Some(output) = output_of(alloc, line, at, child, signal)? {
            signals.push(output)?;
        }
    }
    Ok(())
}

/// The signals of the first of these instances.
#[tactic(auto, unfolding(crate::specs::Walked::placed_of, elab_core::specs::View::instance_of, elab_core::specs::View::content_of))]
fn signals_of(instances: &[Instance]) -> &[Signal]
    ensures { result.now ≡ first_signals (placed_of instances.now) }
{
    match instances {
        [first, ..] => &first.content.signals,
        [] => &[],
    }
}

/// A child, from what was asked for.
#[tactic(auto, unfolding(elab_core::specs::View::child_of))]
fn made_child(want: Asked) -> Child
    ensures { child_seen result ≡ child_in want }
{
    let Asked {
        line,
        name,
        place,
        params,
        conns,
    } = want;
    Child {
        line,
        name,
        place,
        params,
        conns,
    }
}

/// One child more, with the instances that it and those below it are. Its outputs are signals.
#[tactic(auto, unfolding(crate::specs::Walked::made_of, elab_core::specs::View::content_of), using(crate::proofs::GatherSteps::child_steps))]
pub(crate) fn add_child(
    alloc: Global,
    made: &mut Made,
    want: Asked,
    mut instances: Vec<Instance>,
) -> Result<(), ElabFault>
    requires some { 0 < length instances.items }
    requires few { length made.old.below.items < 2 ^ 32 }
    ensures { NoMemoryOr (λ _. made_of made.new ≡ with_asked (made_of made.old) want (placed_of instances.items)) result }
{
    let at = made.content.children.len() as u32;
    add_outputs(
        alloc,
        &mut made.content.signals,
        want.line,
        at,
        want.name.bytes(),
        signals_of(&instances),
    )?;
    made.below.append(&mut instances)?;
    made.content.children.push(made_child(want))?;
    Ok(())
}

/// An instance with this body, and those below.
#[tactic(auto, unfolding(crate::specs::Walked::made_of, crate::specs::Walked::placed_of, elab_core::specs::View::instance_of), using(crate::proofs::GatherSteps::placed_steps))]
pub(crate) fn placed(
    alloc: Global,
    path: Text,
    parent: Option<u32>,
    place: usize,
    params: &Scope,
    made: Made,
) -> Result<Vec<Instance>, ElabFault>
    ensures instances { NoMemoryOr (λ all. placed_of all.items ≡ instances_of path parent place params.now (made_of made)) result }
    ensures count { IfOk result (λ all. length all.items ≡ length made.below.items + 1) }
{
    let params = params.clone()?;
    let Made { content, mut below } = made;
    let mut all = Vec::new(alloc);
    all.push(Instance {
        path,
        parent,
        place,
        params,
        content,
    })?;
    all.append(&mut below)?;
    Ok(all)
}
