//! The names of printed Verilog. A source's name is escaped, so that no word of Verilog and no number's name can meet it.

ghost use Rattle.std.specs.Prelude.{◌≡◌, ◌<◌, ◌++◌, OnOk, length};
ghost use Rattle.net_core.specs.Nodes.{shape_of};
ghost use Rattle.verilog_out.specs.Spelling.{escaped, numbered, identifier_text};
ghost use Rattle.verilog_out.specs.Printed.{identifier_of, identifier_at};

use bv_core::NodeId;
use net_core::{Net, Node};
use std::alloc::Global;
use text_core::NoMemory;

/// Adds a name of the source, as an escaped identifier with its blank.
pub(crate) fn push_escaped(text: &mut Vec<u8>, name: &[u8]) -> Result<(), NoMemory>
    ensures { OnOk result (text.new.items ≡ text.old.items ++ escaped name.now) }
{
    text.push(b'\\')?;
    text.extend_from_slice(name)?;
    text.push(b' ')?;
    Ok(())
}

/// Adds the name of a number.
pub(crate) fn push_numbered(alloc: Global, text: &mut Vec<u8>, number: u64) -> Result<(), NoMemory>
    ensures { OnOk result (text.new.items ≡ text.old.items ++ numbered number) }
{
    let name = format!(in alloc; "_{number}")?;
    text.extend_from_slice(name.as_bytes())?;
    Ok(())
}

/// Adds the name of the node of this number.
fn push_name_of(alloc: Global, text: &mut Vec<u8>, number: u64, node: &Node) -> Result<(), NoMemory>
    ensures { OnOk result (text.new.items ≡ text.old.items ++ identifier_text (identifier_of number (shape_of node.now))) }
{
    match node {
        Node::Input(name, _) => push_escaped(text, name.bytes()),
        Node::Const(_) | Node::Reg { .. } => push_numbered(alloc, text, number),
        Node::One(_, _) | Node::Two(_, _, _) | Node::Mux(_, _, _) => {
            push_numbered(alloc, text, number)
        }
    }
}

/// Adds the name of a node: an input's own, or else that of its number.
pub(crate) fn push_name(
    alloc: Global,
    text: &mut Vec<u8>,
    net: &Net,
    id: NodeId,
) -> Result<(), NoMemory>
    requires { id.0 < length net.now.nodes }
    ensures { OnOk result (text.new.items ≡ text.old.items ++ identifier_text (identifier_at net.now.nodes id.0)) }
{
    push_name_of(alloc, text, id.0, net.node(id))
}
