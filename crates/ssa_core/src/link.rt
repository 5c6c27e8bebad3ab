//! The links of all instances: connections of children, and their outputs as signals of the parent.

ghost use Rattle.std.specs.Prelude.{◌≡◌, ◌∷◌, [], ◌++◌, map, slice_get, IfOk, OnOk};
ghost use Rattle.std.specs.List.{enumerate_from, flat_map};
ghost use Rattle.tree_core.specs.Tree.{Leaf};
ghost use Rattle.exec_core.specs.Design.{place};
ghost use Rattle.design_core.specs.declared.variant.Signal.{Signal};
ghost use Rattle.design_core.specs.View.{child_of, conn_of};
ghost use Rattle.design_core.specs.DesignView.{design_of};
ghost use Rattle.design_exec.specs.Processes.{conn_link, links_at, none_or, numbers_below, processes_of};
ghost use Rattle.place_core.specs.Linking.{links_of_child, link_of_output};
ghost use Rattle.ssa_core.specs.Links.{link_as};

use design_core::{
    Child, Conn, Design, Expr, Instance, Kind, Signal, children_of, in_32_bits, signals_of,
};
use place_core::numbers_by_parent;
use std::alloc::Global;
use text_core::NoMemory;

/// What stands at the source of a link, over the names of an instance.
#[derive(Clone, Copy)]
pub enum LinkValue<'a> {
    /// An expression that is connected to a child's input.
    Expr(&'a Expr),
    /// An output of a child.
    Output(&'a [u8]),
}

/// A link: a signal of an instance, by its name, with what drives it from another instance.
#[derive(Clone, Copy)]
pub struct Link<'a> {
    /// The number of the signal's instance.
    pub target: u32,
    /// The signal's name.
    pub name: &'a [u8],
    /// The number of the instance that the source stands in.
    pub source: u32,
    /// What stands there.
    pub value: LinkValue<'a>,
}

/// Puts the links of a child's connections last.
fn push_conns<'a>(
    links: &mut Vec<Link<'a>>,
    parent: u32,
    child: u32,
    conns: &'a [Conn],
) -> Result<(), NoMemory>
    ensures { OnOk result (map link_as links.new.items ≡ map link_as links.old.items ++ map (conn_link parent child) (map conn_of conns.now)) }
{
    for conn in conns {
        links.push(Link {
            target: child,
            name: conn.port.bytes(),
            source: parent,
            value: LinkValue::Expr(&conn.value),
        })?;
    }
    Ok(())
}

/// The same of a child, which is the instance of this number.
fn push_child<'a>(
    links: &mut Vec<Link<'a>>,
    parent: u32,
    number: Option<u32>,
    child: &'a Child,
) -> Result<(), NoMemory>
    ensures { OnOk result (map link_as links.new.items ≡ map link_as links.old.items ++ none_or
        (λ j. map (conn_link parent j) (child_of child.now).conns) number) }
{
    match number {
        Some(number) => push_conns(links, parent, number, &child.conns),
        None => Ok(()),
    }
}

/// The number at a place, if there is one.
fn number_at(below: &[u32], place: usize) -> Option<u32>
    ensures { result ≡ slice_get below.now place }
{
    below.get(place).copied()
}

/// The same of children in order, which are the instances of these numbers.
fn push_children<'a>(
    links: &mut Vec<Link<'a>>,
    parent: u32,
    below: &[u32],
    children: &'a [Child],
) -> Result<(), NoMemory>
    ensures { OnOk result (map link_as links.new.items ≡ map link_as links.old.items ++ flat_map (links_of_child parent below.now)
        (enumerate_from 0 (map child_of children.now))) }
{
    for (place, child) in children.iter().enumerate() {
        let number = number_at(below, place);
        push_child(links, parent, number, child)?;
    }
    Ok(())
}

/// Puts a link from an output of the child of this number last.
fn push_output<'a>(
    links: &mut Vec<Link<'a>>,
    parent: u32,
    number: Option<u32>,
    name: &'a [u8],
    output: &'a [u8],
) -> Result<(), NoMemory>
    ensures { OnOk result (map link_as links.new.items ≡ map link_as links.old.items ++ none_or
        (λ j. (place parent name.now, Leaf (place j output.now)) ∷ []) number) }
{
    if let Some(number) = number {
        links.push(Link {
            target: parent,
            name,
            source: number,
            value: LinkValue::Output(output),
        })?;
    }
    Ok(())
}

/// Puts the link of a signal last that is an output of a child, if it is one.
fn push_signal<'a>(
    links: &mut Vec<Link<'a>>,
    parent: u32,
    below: &[u32],
    signal: &'a Signal,
) -> Result<(), NoMemory>
    ensures { OnOk result (map link_as links.new.items ≡ map link_as links.old.items ++ link_of_output parent below.now signal.now.name signal.now.kind) }
{
    match &signal.kind {
        Kind::ChildOut(child, output) => push_output(
            links,
            parent,
            number_at(below, *child as usize),
            signal.name.bytes(),
            output.bytes(),
        ),
        Kind::Input | Kind::Output | Kind::Wire | Kind::Reg(_) => Ok(()),
    }
}

/// The same of an instance's signals in order.
fn push_signals<'a>(
    links: &mut Vec<Link<'a>>,
    parent: u32,
    below: &[u32],
    signals: &'a [Signal],
) -> Result<(), NoMemory>
    ensures { OnOk result (map link_as links.new.items ≡ map link_as links.old.items ++ flat_map
        (λ (s : Signal). link_of_output parent below.now s.name s.kind) signals.now) }
{
    for signal in signals {
        push_signal(links, parent, below, signal)?;
    }
    Ok(())
}

/// Puts the links of an instance last: its connections to children, and its signals that are outputs of children.
fn push_instance<'a>(
    links: &mut Vec<Link<'a>>,
    design: &'a Design,
    number: u32,
    instance: &Instance,
    below: &[u32],
) -> Result<(), NoMemory>
    requires { below.now ≡ numbers_below (design_of design.now) number }
    ensures { OnOk result (map link_as links.new.items ≡ map link_as links.old.items ++ links_at (design_of design.now) (number, instance.now)) }
{
    let children = children_of(&design.variants, instance.variant);
    push_children(links, number, below, children)?;
    let signals = signals_of(&design.variants, instance.variant);
    push_signals(links, number, below, signals)?;
    Ok(())
}

/// The links of a design, instance by instance.
pub fn links_of(alloc: Global, design: &Design) -> Result<Vec<Link<'_>>, NoMemory>
    ensures { IfOk result (λ links. map link_as links.items ≡ (processes_of (design_of design.now)).links) }
{
    let below = numbers_by_parent(alloc, design)?;
    let mut links = Vec::new(alloc);
    for (number, instance) in design.instances.items().iter().enumerate() {
        let children = &below[number];
        push_instance(&mut links, design, in_32_bits(number)?, instance, children)?;
    }
    Ok(links)
}
