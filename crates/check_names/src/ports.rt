//! Reads of and connections to ports that a child has not. An expression is judged before the port to which it goes.

ghost use Rattle.std.specs.Prelude.{◌≡◌, IfOk, map};
ghost use Rattle.design_core.specs.View.{block_of, child_of, conn_of, expr_of, stmt_of, variant_of};
ghost use Rattle.check_core.specs.declared.fault.CheckFault.TheVariants.{UnknownPort};
ghost use Rattle.names.specs.Known.{has};
ghost use Rattle.check_core.specs.Faults.{Tells, first_of, spot as the_spot};
ghost use Rattle.design_core.specs.Statements.{stmts_at};
ghost use Rattle.check_core.specs.Names.{is_input, named, unless_known};
ghost use Rattle.design_core.specs.Dotted.{below as the_below};
ghost use Rattle.check_core.specs.Ports.{unknown_output, unknown_port as the_unknown_port, unknown_port_among as the_unknown_port_among, unknown_port_at, unknown_port_in, unknown_port_in_block, unknown_port_in_child};
ghost use Rattle.design_core.specs.WellFormed.{signals_at};

use check_core::{CheckFault, Kinds, names_of, spot};
use design_core::{Block, Child, Conn, Expr, Signal, Stmt, Variant, below, signals_of, statements};
use names::NameSet;
use std::alloc::Global;
use text_core::NoMemory;

/// Refuses a port unless it is known.
fn known_or_refused(alloc: Global, known: bool, line: u32, name: &[u8]) -> Result<(), CheckFault>
    ensures { Tells result (unless_known known (UnknownPort (the_spot line name.now))) }
{
    if known {
        return Ok(());
    }
    Err(CheckFault::UnknownPort(spot(alloc, line, name)?))
}

/// Refuses the read of a child's output unless it is among these.
fn output_or_refused(
    alloc: Global,
    outputs: &NameSet,
    line: u32,
    child: &[u8],
    output: &[u8],
) -> Result<(), CheckFault>
    ensures { Tells result (unless_known (has outputs.now (the_below child.now output.now)) (UnknownPort (the_spot line (the_below child.now output.now)))) }
{
    let name = below(alloc, child, output)?;
    known_or_refused(alloc, outputs.contains(name.bytes()), line, name.bytes())?;
    Ok(())
}

/// Refuses the first read of a child's output in an expression, from left to right, that is not among these.
#[tactic(auto, using(check_core::proofs::Firsts::two_steps))]
fn unknown_output(
    alloc: Global,
    outputs: &NameSet,
    line: u32,
    expr: &Expr,
) -> Result<(), CheckFault>
    ensures { Tells result (unknown_output (has outputs.now) line (expr_of expr.now)) }
{
    match expr {
        Expr::Read(_) | Expr::Value(_) => {}
        Expr::Out(child, output) => {
            output_or_refused(alloc, outputs, line, child.bytes(), output.bytes())?;
        }
        Expr::Un(_, inner) | Expr::Zext(inner, _) | Expr::Slice(inner, _, _) => {
            unknown_output(alloc, outputs, line, inner)?;
        }
        Expr::Bin(_, left, right) => {
            unknown_output(alloc, outputs, line, left)?;
            unknown_output(alloc, outputs, line, right)?;
        }
        Expr::Mux(test, yes, no) => {
            unknown_output(alloc, outputs, line, test)?;
            unknown_output(alloc, outputs, line, yes)?;
            unknown_output(alloc, outputs, line, no)?;
        }
    }
    Ok(())
}

/// Refuses a statement, without those inside it.
fn unknown_port_in(alloc: Global, outputs: &NameSet, stmt: &Stmt) -> Result<(), CheckFault>
    ensures { Tells result (unknown_port_in (has outputs.now) (stmt_of stmt.now)) }
{
    unknown_output(alloc, outputs, stmt.line(), stmt.value())
}

/// The same of statements in order.
#[tactic(auto, using(check_core::proofs::Firsts::list_steps))]
fn unknown_port_in_stmts(
    alloc: Global,
    outputs: &NameSet,
    stmts: &[&Stmt],
) -> Result<(), CheckFault>
    ensures { Tells result (first_of (unknown_port_in (has outputs.now)) (stmts_at stmts.now)) }
{
    for stmt in stmts {
        unknown_port_in(alloc, outputs, stmt)?;
    }
    Ok(())
}

/// The same of a block.
fn unknown_port_in_block(alloc: Global, outputs: &NameSet, block: &Block) -> Result<(), CheckFault>
    ensures { Tells result (unknown_port_in_block (has outputs.now) (block_of block.now)) }
{
    let stmts = statements(alloc, &block.body)?;
    unknown_port_in_stmts(alloc, outputs, &stmts)?;
    Ok(())
}

/// The same of blocks in order.
#[tactic(auto, using(check_core::proofs::Firsts::list_steps))]
fn unknown_port_in_blocks(
    alloc: Global,
    outputs: &NameSet,
    blocks: &[Block],
) -> Result<(), CheckFault>
    ensures { Tells result (first_of (unknown_port_in_block (has outputs.now)) (map block_of blocks.now)) }
{
    for block in blocks {
        unknown_port_in_block(alloc, outputs, block)?;
    }
    Ok(())
}

/// Refuses a connection of a child with these inputs: its expression, then its port.
#[tactic(auto, using(check_core::proofs::Firsts::two_steps))]
fn unknown_port_at(
    alloc: Global,
    outputs: &NameSet,
    inputs: &NameSet,
    conn: &Conn,
) -> Result<(), CheckFault>
    ensures { Tells result (unknown_port_at (has outputs.now) (has inputs.now) (conn_of conn.now)) }
{
    unknown_output(alloc, outputs, conn.line, &conn.value)?;
    let known = inputs.contains(conn.port.bytes());
    known_or_refused(alloc, known, conn.line, conn.port.bytes())?;
    Ok(())
}

/// The same of connections in order.
#[tactic(auto, using(check_core::proofs::Firsts::list_steps))]
fn unknown_port_in_conns(
    alloc: Global,
    outputs: &NameSet,
    inputs: &NameSet,
    conns: &[Conn],
) -> Result<(), CheckFault>
    ensures { Tells result (first_of (unknown_port_at (has outputs.now) (has inputs.now)) (map conn_of conns.now)) }
{
    for conn in conns {
        unknown_port_at(alloc, outputs, inputs, conn)?;
    }
    Ok(())
}

/// The inputs of the variant of a number, by name: as many steps as it has signals.
fn inputs_of(alloc: Global, variants: &[Variant], number: u32) -> Result<NameSet, NoMemory>
    ensures { IfOk result (λ inputs. has inputs ≡ named is_input (signals_at number (map variant_of variants.now))) }
{
    names_of(alloc, Kinds::Inputs, signals_of(variants, number))
}

/// Refuses the connections of a child.
fn unknown_port_in_child(
    alloc: Global,
    outputs: &NameSet,
    variants: &[Variant],
    child: &Child,
) -> Result<(), CheckFault>
    ensures { Tells result (unknown_port_in_child (has outputs.now) (map variant_of variants.now) (child_of child.now)) }
{
    let inputs = inputs_of(alloc, variants, child.variant)?;
    unknown_port_in_conns(alloc, outputs, &inputs, &child.conns)
}

/// The same of children in order.
#[tactic(auto, using(check_core::proofs::Firsts::list_steps))]
fn unknown_port_in_children(
    alloc: Global,
    outputs: &NameSet,
    variants: &[Variant],
    children: &[Child],
) -> Result<(), CheckFault>
    ensures { Tells result (first_of (unknown_port_in_child (has outputs.now) (map variant_of variants.now)) (map child_of children.now)) }
{
    for child in children {
        unknown_port_in_child(alloc, outputs, variants, child)?;
    }
    Ok(())
}

/// Refuses the reads and connections of a variant whose children have these outputs.
#[tactic(auto, using(check_core::proofs::Firsts::two_steps))]
fn unknown_port_among(
    alloc: Global,
    outputs: &NameSet,
    variants: &[Variant],
    variant: &Variant,
) -> Result<(), CheckFault>
    ensures { Tells result (the_unknown_port_among (has outputs.now) (map variant_of variants.now) (variant_of variant.now)) }
{
    unknown_port_in_children(alloc, outputs, variants, &variant.children)?;
    unknown_port_in_blocks(alloc, outputs, &variant.blocks)?;
    Ok(())
}

/// Refuses the first connection in a variant to what is no input of the child, and the first read of what is no output of it.
pub fn unknown_port(
    alloc: Global,
    variants: &[Variant],
    variant: &Variant,
) -> Result<(), CheckFault>
    ensures { Tells result (the_unknown_port (map variant_of variants.now) (variant_of variant.now)) }
{
    let outputs = names_of(alloc, Kinds::ChildOutputs, variant.signals.items())?;
    unknown_port_among(alloc, &outputs, variants, variant)
}
