//! Two inputs of one name. Only a call makes them: a design has one input of each name, so no source shows it.

use net_core::NetBuilder;
use std::alloc::Global;
use text_core::NoMemory;

/// Whether the same input is one node, and one of another width another.
fn are_told_apart(alloc: Global) -> Result<bool, NoMemory> {
    let mut builder = NetBuilder::new(alloc)?;
    let wide = builder.input(b"x", 8)?;
    let narrow = builder.input(b"x", 7)?;
    let known = builder.input(b"x", 8)?;
    Ok(wide == known && wide != narrow && builder.count() == 2)
}

/// An input is its name and its width. A design has one input of each name.
#[test]
fn inputs_of_two_widths_are_two_nodes(rt: HostRuntime) {
    assert!(rt; matches!(are_told_apart(rt.alloc()), Ok(true)));
}
