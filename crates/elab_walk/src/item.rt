//! Items, and the instances below.

ghost use Rattle.std.specs.Prelude.{◌≡◌, ◌+◌, ◌^◌, ◌<◌, ◌≤◌, ◌++◌, true, codes, length, map, IfOk, OnOk, if◌then◌else◌};
ghost use Rattle.gen_tree.specs.View.{item_of, items_of, else_items_of, port_of, module_of};
ghost use Rattle.elab_core.specs.Results.{Judged, NoMemoryOr};
ghost use Rattle.elab_core.specs.Walk.{judge};
ghost use Rattle.elab_core.specs.Elab.{item_walk, items_walk, module_walk, turns as turns_walk};
ghost use Rattle.elab_base.specs.Met.{met_of};
ghost use Rattle.gen_scope.specs.Gens.{bound};
ghost use Rattle.elab_walk.specs.Height.{height, tallest};
ghost use Rattle.elab_walk.specs.Walked.{made_of, placed_of, here_of, modules_in, enter_in, is_generated, asked_of, child_walk, turn as turn_walk, in_turn, else_items, entry as entry_walk};

use crate::asked::Asked;
use crate::asking::asked;
use crate::gather::{add_block, add_child, add_signal, begun, placed};
use crate::made::{Here, Made};
use crate::signals::{count_outputs, counted_register, counted_wire, ports};
use crate::walker::Walker;
use elab_base::{Met, comparison};
use elab_body::{Loop, block, loop_of};
use elab_core::{Count, ElabFault, Instance};
use gen_tree::{Item, Module, Port};
use std::alloc::Global;
use text_core::Text;

/// Items one after another, behind what was made.
#[cycle(walking)]
#[tactic(auto, using(crate::proofs::ItemLoops::items_steps, crate::proofs::Heights::height_at))]
fn items(walker: &Walker, met: &mut Met, body: &[Item], made: &mut Made) -> Result<(), ElabFault>
    requires { met.old.instances ≡ walker.now.here.now.number + 1 + length (made_of made.old).below }
    ensures judged { Judged (λ _. made_of made.new) result (met_of met.new)
        (judge (met_of met.old) (items_walk (modules_in walker.now) (enter_in walker.now) (here_of walker.now.here.now)
        (items_of body.now) walker.now.scope.now (made_of made.old))) }
    ensures counted { OnOk result (met.new.instances ≡ walker.now.here.now.number + 1 + length (made_of made.new).below) }
{
    for item in body {
        one_item(walker, met, item, made)?;
    }
    Ok(())
}

/// One item.
#[cycle(walking)]
#[tactic(auto, using(gen_tree::proofs::Views::view_steps, crate::proofs::Heights::heights, crate::proofs::ItemCases::item_steps))]
fn one_item(walker: &Walker, met: &mut Met, item: &Item, made: &mut Made) -> Result<(), ElabFault>
    requires { met.old.instances ≡ walker.now.here.now.number + 1 + length (made_of made.old).below }
    ensures judged { Judged (λ _. made_of made.new) result (met_of met.new)
        (judge (met_of met.old) (item_walk (modules_in walker.now) (enter_in walker.now) (here_of walker.now.here.now)
        (item_of item.now) walker.now.scope.now (made_of made.old))) }
    ensures counted { OnOk result (met.new.instances ≡ walker.now.here.now.number + 1 + length (made_of made.new).below) }
{
    let Walker { alloc, scope, .. } = *walker;
    match item {
        Item::Wire { line, name, width } => {
            let signal = counted_wire(alloc, met, *line, scope, name, width)?;
            add_signal(made, signal)
        }
        Item::Reg {
            line,
            name,
            width,
            start,
        } => {
            let signal = counted_register(alloc, met, *line, scope, name, width, start)?;
            add_signal(made, signal)
        }
        Item::Inst {
            line,
            name,
            module,
            args,
            conns,
        } => {
            let (want, found) = asked(walker, met, *line, name, module.bytes(), args, conns)?;
            child(walker, met, want, found, made)
        }
        Item::Comb { line, body } => {
            let body = block(alloc, met, body, scope)?;
            add_block(made, *line, false, body)
        }
        Item::Ff { line, body } => {
            let body = block(alloc, met, body, scope)?;
            add_block(made, *line, true, body)
        }
        Item::For { .. } | Item::GenIf { .. } => generated(walker, met, item, made),
    }
}

/// A `for` or a `gen if`: what its turns give, or the branch that is taken.
#[cycle(walking)]
#[tactic(auto, using(gen_tree::proofs::Views::view_steps, crate::proofs::Heights::heights, crate::proofs::ItemCases::repeat_steps, crate::proofs::Heights::height_branch))]
fn generated(walker: &Walker, met: &mut Met, item: &Item, made: &mut Made) -> Result<(), ElabFault>
    requires kind { is_generated (item_of item.now) ≡ true }
    requires numbered { met.old.instances ≡ walker.now.here.now.number + 1 + length (made_of made.old).below }
    ensures judged { Judged (λ _. made_of made.new) result (met_of met.new)
        (judge (met_of met.old) (item_walk (modules_in walker.now) (enter_in walker.now) (here_of walker.now.here.now)
        (item_of item.now) walker.now.scope.now (made_of made.old))) }
    ensures counted { OnOk result (met.new.instances ≡ walker.now.here.now.number + 1 + length (made_of made.new).below) }
{
    let Walker { alloc, scope, .. } = *walker;
    match item {
        Item::For {
            line,
            var,
            from,
            to,
            body,
        } => {
            let each = loop_of(alloc, *line, scope, var, from, to)?;
            all_turns(walker, met, &each, body, made)
        }
        Item::GenIf {
            line,
            left,
            cmp,
            right,
            yes,
            no,
        } => {
            let holds = comparison(alloc, *line, scope, left, *cmp, right)?;
            items(walker, met, branch_of(holds, yes, no), made)
        }
        Item::Wire { .. } | Item::Reg { .. } | Item::Inst { .. } => unreachable!(),
        Item::Comb { .. } | Item::Ff { .. } => unreachable!(),
    }
}

/// A child that was asked for: its instances, which get the next numbers.
#[cycle(walking)]
#[tactic(auto, using(crate::proofs::ItemCases::child_steps, crate::proofs::GatherSteps::made_many))]
fn child(
    walker: &Walker,
    met: &mut Met,
    want: Asked,
    found: &Module,
    made: &mut Made,
) -> Result<(), ElabFault>
    requires height { height (module_of found.now).items ≤ tallest (modules_in walker.now) }
    requires numbered { met.old.instances ≡ walker.now.here.now.number + 1 + length (made_of made.old).below }
    ensures judged { Judged (λ _. made_of made.new) result (met_of met.new)
        (judge (met_of met.old) (child_walk (enter_in walker.now) (here_of walker.now.here.now) (asked_of want (module_of found.now))
        (made_of made.old))) }
    ensures counted { OnOk result (met.new.instances ≡ walker.now.here.now.number + 1 + length (made_of made.new).below) }
{
    let instances = instances_below(walker, met, &want, found)?;
    add_child(walker.alloc, made, want, instances)?;
    Ok(())
}

/// The turns of a loop, one after another.
#[cycle(walking)]
#[tactic(auto, using(crate::proofs::ItemLoops::turns_steps, elab_body::proofs::StmtLoops::signed_steps))]
fn all_turns(
    walker: &Walker,
    met: &mut Met,
    each: &Loop,
    body: &[Item],
    made: &mut Made,
) -> Result<(), ElabFault>
    requires { met.old.instances ≡ walker.now.here.now.number + 1 + length (made_of made.old).below }
    ensures judged { Judged (λ _. made_of made.new) result (met_of met.new)
        (judge (met_of met.old) (turns_walk each.now.line (in_turn (modules_in walker.now) (enter_in walker.now) (here_of walker.now.here.now)
        (items_of body.now) each.now.name.value walker.now.scope.now) each.now.turns.from each.now.turns.count (made_of made.old))) }
    ensures counted { OnOk result (met.new.instances ≡ walker.now.here.now.number + 1 + length (made_of made.new).below) }
{
    for turn in 0..each.turns.count {
        let number = each.turns.number(turn);
        one_turn(walker, met, each, number, body, made)?;
    }
    Ok(())
}

/// A turn of a loop, whose variable has this number: its count, then its items.
#[cycle(walking)]
#[tactic(auto, using(crate::proofs::ItemCases::turn_steps))]
fn one_turn(
    walker: &Walker,
    met: &mut Met,
    each: &Loop,
    number: i64,
    body: &[Item],
    made: &mut Made,
) -> Result<(), ElabFault>
    requires { met.old.instances ≡ walker.now.here.now.number + 1 + length (made_of made.old).below }
    ensures judged { Judged (λ _. made_of made.new) result (met_of met.new)
        (judge (met_of met.old) (turn_walk (modules_in walker.now) (enter_in walker.now) (here_of walker.now.here.now) each.now.line
        (items_of body.now) (bound each.now.name.value number walker.now.scope.now) (made_of made.old))) }
    ensures counted { OnOk result (met.new.instances ≡ walker.now.here.now.number + 1 + length (made_of made.new).below) }
{
    met.take(Count::Turns, each.line)?;
    let inner = walker.scope.inner(walker.alloc, &each.name, number)?;
    let within = Walker {
        scope: &inner,
        ..*walker
    };
    items(&within, met, body, made)?;
    Ok(())
}

/// The body of a module whose parameters are the scope: its ports, then its items.
#[cycle(walking)]
#[tactic(auto, using(crate::proofs::ItemCases::module_steps))]
pub(crate) fn body_of(walker: &Walker, met: &mut Met, found: &Module) -> Result<Made, ElabFault>
    requires { met.old.instances ≡ walker.now.here.now.number + 1 }
    ensures judged { Judged (λ made. made_of made) result (met_of met.new)
        (judge (met_of met.old) (module_walk (modules_in walker.now) (enter_in walker.now) (here_of walker.now.here.now)
        (module_of found.now) walker.now.scope.now)) }
    ensures counted { IfOk result (λ made. met.new.instances ≡ walker.now.here.now.number + 1 + length (made_of made).below) }
{
    let signals = ports(walker.alloc, met, &found.ports, walker.scope)?;
    let mut made = begun(walker.alloc, signals);
    items(walker, met, &found.items, &mut made)?;
    Ok(made)
}

/// An instance and those below it, in preorder, where there is room for so many levels from here on.
#[cycle(walking)]
#[tactic(auto, using(crate::proofs::Heights::level_below, crate::proofs::ItemCases::instance_steps))]
fn instances_below(
    walker: &Walker,
    met: &mut Met,
    want: &Asked,
    found: &Module,
) -> Result<Vec<Instance>, ElabFault>
    requires { height (module_of found.now).items ≤ tallest (modules_in walker.now) }
    ensures judged { Judged (λ all. placed_of all.items) result (met_of met.new)
        (judge (met_of met.old) (enter_in walker.now (asked_of want.now (module_of found.now)) (here_of walker.now.here.now) met.old.instances)) }
    ensures counted { IfOk result (λ all. met.new.instances ≡ met.old.instances + length (placed_of all.items)) }
    ensures some { IfOk result (λ all. 0 < length all.items) }
    ensures number { OnOk result (met.old.instances < 2 ^ 32) }
{
    let Walker {
        alloc,
        room,
        here,
        ..
    } = *walker;
    if room == 0 {
        let name = Text::new(alloc, want.name.bytes())?;
        return Err(ElabFault::TooDeep {
            line: want.line,
            name,
        });
    }
    let number = next_number(met);
    entry(met, want.line, &found.ports)?;
    let path = path_below(alloc, here.path.bytes(), want.name.bytes())?;
    let inner = Here { path, number };
    let below = Walker {
        room: room - 1,
        here: &inner,
        scope: &want.params,
        ..*walker
    };
    let made = body_of(&below, met, found)?;
    let parent = Some(here.number);
    let all = placed(alloc, inner.path, parent, want.place, &want.params, made)?;
    Ok(all)
}

/// The count of an instance, and of its outputs as signals of its parent.
#[tactic(auto, using(crate::proofs::ItemCases::entry_steps))]
fn entry(met: &mut Met, line: u32, ports: &[Port]) -> Result<(), ElabFault>
    ensures judged { Judged (λ _. tt) result (met_of met.new) (judge (met_of met.old) (entry_walk line (map port_of ports.now))) }
    ensures entered { OnOk result (met.new.instances ≡ met.old.instances + 1) }
{
    met.take(Count::Instances, line)?;
    count_outputs(met, line, ports)?;
    Ok(())
}

/// The number of the next instance: how many were met before it.
fn next_number(met: &Met) -> u32
    ensures { result ≡ met.now.instances }
{
    met.instances
}

/// The path of a child.
fn path_below(alloc: Global, path: &[u8], name: &[u8]) -> Result<Text, ElabFault>
    ensures { NoMemoryOr (λ below. below ≡ path.now ++ (codes "." ++ name.now)) result }
{
    let mut below = path.to_vec(alloc)?;
    below.extend_from_slice(b".")?;
    below.extend_from_slice(name)?;
    let below = Text::new(alloc, &below)?;
    Ok(below)
}

/// The items of the branch that is taken.
fn branch_of<'a>(holds: bool, yes: &'a [Item], no: &'a Option<Vec<Item>>) -> &'a [Item]
    ensures { items_of result.now ≡ (if holds then items_of yes.now else else_items (else_items_of no.now)) }
{
    match no {
        _ if holds => yes,
        Some(no) => no,
        None => &[],
    }
}
