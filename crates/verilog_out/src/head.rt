//! The head of a module and its ports.

ghost use Rattle.std.specs.Prelude.{◌≡◌, ◌≤◌, ◌++◌, OnOk, IsTrue};
ghost use Rattle.std.specs.List.{flat_map, list_all};
ghost use Rattle.design_core.specs.Ports.{has_width};
ghost use Rattle.verilog_out.specs.Spelling.{listed_text, head_text, port_text, front_text};

use crate::line::push_range;
use crate::name::push_escaped;
use design_core::Ports;
use std::alloc::Global;
use text_core::{NoMemory, Text};

/// Adds a comma and a name for each port.
fn push_listed(text: &mut Vec<u8>, ports: &[(Text, u8)]) -> Result<(), NoMemory>
    ensures { OnOk result (text.new.items ≡ text.old.items ++ flat_map listed_text ports.now) }
{
    for (name, _) in ports {
        text.extend_from_slice(b", ")?;
        push_escaped(text, name.bytes())?;
    }
    Ok(())
}

/// Adds the head, with the clock.
fn push_head(text: &mut Vec<u8>, ports: &Ports) -> Result<(), NoMemory>
    ensures { OnOk result (text.new.items ≡ text.old.items ++ head_text ports.now.module ports.now.inputs ports.now.outputs) }
{
    text.extend_from_slice(b"module ")?;
    push_escaped(text, ports.module.bytes())?;
    text.extend_from_slice(b"(clk")?;
    push_listed(text, ports.inputs.items())?;
    push_listed(text, ports.outputs.items())?;
    text.extend_from_slice(b");\n  input clk;\n")?;
    Ok(())
}

/// Adds the places of a port, and its name.
fn push_port(
    alloc: Global,
    text: &mut Vec<u8>,
    kind: &str,
    name: &Text,
    width: u8,
) -> Result<(), NoMemory>
    requires { 1 ≤ width }
    ensures { OnOk result (text.new.items ≡ text.old.items ++ port_text kind.now (name.now, width)) }
{
    text.extend_from_slice(kind.as_bytes())?;
    push_range(alloc, text, width)?;
    text.push(b' ')?;
    push_escaped(text, name.bytes())?;
    text.extend_from_slice(b";\n")?;
    Ok(())
}

/// Adds a line for each port.
fn push_ports(
    alloc: Global,
    text: &mut Vec<u8>,
    kind: &str,
    ports: &[(Text, u8)],
) -> Result<(), NoMemory>
    requires { IsTrue (list_all has_width ports.now) }
    ensures { OnOk result (text.new.items ≡ text.old.items ++ flat_map (port_text kind.now) ports.now) }
{
    for (name, width) in ports {
        push_port(alloc, text, kind, name, *width)?;
    }
    Ok(())
}

/// Adds what stands before the nodes: the head and the ports.
pub(crate) fn push_front(alloc: Global, text: &mut Vec<u8>, ports: &Ports) -> Result<(), NoMemory>
    ensures { OnOk result (text.new.items ≡ text.old.items ++ front_text ports.now.module ports.now.inputs ports.now.outputs) }
{
    push_head(text, ports)?;
    push_ports(alloc, text, "  input ", ports.inputs.items())?;
    push_ports(alloc, text, "  output ", ports.outputs.items())
}
