//! How each kind of part is written.

ghost use Rattle.std.specs.Prelude.{◌≡◌, ◌++◌, List, ℕ, ℤ, false, map, OnOk};
ghost use Rattle.serde_json.specs.View.{items_of};
ghost use Rattle.serde_json.specs.Written.{items_text};
ghost use Rattle.bv_core.specs.declared.Ref.{Ref};
ghost use Rattle.bv_core.specs.declared.Binding.{Binding};
ghost use Rattle.symtab.specs.declared.parts.Row.{Row};
ghost use Rattle.serde_json.specs.Data.{number, string};
ghost use Rattle.serde_json.specs.Find.{of_integer};
ghost use Rattle.symtab_json.specs.Files.{count_json, list_json, node_json, gen_json, variant_json, instance_json, ref_json, cell_json, row_json, slot_json, table_json};

use crate::quoted::push_quoted;
use crate::written::{Written, push_comma, push_count, push_list, push_member, push_pair};
use bv_core::{Binding, Ref, text_of};
use itoa::Buffer;
use places::{file_of, line_in};
use std::alloc::Global;
use symtab::{
    Cells, GenVariable, InstanceParts, Names, NodeName, Row, Slot, TableParts, VariantParts,
};
use text_core::{Listed, NoMemory, Text};

impl Written for u8 {
    ghost tree = { count_json };

    fn write(&self, _alloc: Global, text: &mut Vec<u8>) -> Result<(), NoMemory> {
        push_count(text, u64::from(*self))
    }
}

impl Written for u32 {
    ghost tree = { count_json };

    fn write(&self, _alloc: Global, text: &mut Vec<u8>) -> Result<(), NoMemory> {
        push_count(text, u64::from(*self))
    }
}

impl Written for i64 {
    ghost tree = { λ value. number (of_integer value) };

    fn write(&self, _alloc: Global, text: &mut Vec<u8>) -> Result<(), NoMemory> {
        text.extend_from_slice(Buffer::new().format(*self).as_bytes())?;
        Ok(())
    }
}

impl Written for Text {
    ghost tree = { string };

    fn write(&self, _alloc: Global, text: &mut Vec<u8>) -> Result<(), NoMemory> {
        push_quoted(text, self.bytes())
    }
}

impl<T: Written> Written for Listed<T> {
    ghost tree = { λ items. list_json (λ item. T.tree item) items };

    fn write(&self, alloc: Global, text: &mut Vec<u8>) -> Result<(), NoMemory> {
        push_list(alloc, text, self.items())
    }
}

impl Written for Names {
    ghost tree = { λ names. list_json string names };

    fn write(&self, alloc: Global, text: &mut Vec<u8>) -> Result<(), NoMemory> {
        push_list(alloc, text, self.items())
    }
}

impl Written for NodeName {
    ghost tree = { node_json };

    fn write(&self, alloc: Global, text: &mut Vec<u8>) -> Result<(), NoMemory> {
        push_pair(alloc, text, &self.name, &self.width)
    }
}

impl Written for GenVariable {
    ghost tree = { gen_json };

    fn write(&self, alloc: Global, text: &mut Vec<u8>) -> Result<(), NoMemory> {
        push_pair(alloc, text, &self.name, &self.value)
    }
}

impl Written for VariantParts {
    ghost tree = { variant_json };

    fn write(&self, alloc: Global, text: &mut Vec<u8>) -> Result<(), NoMemory> {
        push_pair(alloc, text, &self.module, &self.gens)
    }
}

impl Written for InstanceParts {
    ghost tree = { instance_json };

    fn write(&self, alloc: Global, text: &mut Vec<u8>) -> Result<(), NoMemory> {
        push_pair(alloc, text, &self.path, &self.variant)
    }
}

impl Written for Ref {
    ghost tree = { ref_json };

    fn write(&self, alloc: Global, text: &mut Vec<u8>) -> Result<(), NoMemory> {
        match *self {
            Ref::Node(id, _) => push_count(text, id.0),
            Ref::Const(bits) => push_quoted(text, text_of(alloc, bits)?.as_bytes()),
        }
    }
}

impl Written for Binding {
    ghost tree = { cell_json };

    fn write(&self, alloc: Global, text: &mut Vec<u8>) -> Result<(), NoMemory> {
        match self {
            Binding::Value(at) => at.write(alloc, text),
            Binding::Unset => push_quoted(text, b"unset"),
            Binding::Removed => push_quoted(text, b"removed"),
        }
    }
}

/// Adds cells, with commas between, and the bracket that closes their list.
fn push_cells(alloc: Global, text: &mut Vec<u8>, cells: &Cells) -> Result<(), NoMemory>
    ensures { OnOk result (text.new.items ≡ text.old.items ++ items_text false (items_of (map cell_json cells.now))) }
{
    for place in 0..cells.len() {
        push_comma(text, place > 0)?;
        cells.at(place).write(alloc, text)?;
    }
    text.push(b']')?;
    Ok(())
}

impl Written for Cells {
    ghost tree = { λ cells. list_json cell_json cells };

    fn write(&self, alloc: Global, text: &mut Vec<u8>) -> Result<(), NoMemory> {
        text.push(b'[')?;
        push_cells(alloc, text, self)
    }
}

impl Written for Row {
    ghost tree = { row_json };

    fn write(&self, alloc: Global, text: &mut Vec<u8>) -> Result<(), NoMemory> {
        text.push(b'{')?;
        push_member(alloc, text, false, "cells", &self.cells)?;
        push_member(alloc, text, true, "on", &self.on)?;
        text.push(b'}')?;
        Ok(())
    }
}

impl Written for Slot {
    ghost tree = { slot_json };

    fn write(&self, alloc: Global, text: &mut Vec<u8>) -> Result<(), NoMemory> {
        text.push(b'{')?;
        push_member(alloc, text, false, "file", &file_of(self.line))?;
        push_member(alloc, text, true, "gens", &self.gens)?;
        push_member(alloc, text, true, "line", &line_in(self.line))?;
        push_member(alloc, text, true, "names", &self.names)?;
        push_member(alloc, text, true, "rows", &self.rows)?;
        push_member(alloc, text, true, "variant", &self.variant)?;
        text.push(b'}')?;
        Ok(())
    }
}

impl Written for TableParts {
    ghost tree = { table_json };

    fn write(&self, alloc: Global, text: &mut Vec<u8>) -> Result<(), NoMemory> {
        text.push(b'{')?;
        push_member(alloc, text, false, "instances", &self.instances)?;
        push_member(alloc, text, true, "nodes", &self.nodes)?;
        push_member(alloc, text, true, "slots", &self.slots)?;
        push_member(alloc, text, true, "top", &self.top)?;
        push_member(alloc, text, true, "variants", &self.variants)?;
        push_member(alloc, text, true, "version", &2u32)?;
        text.push(b'}')?;
        Ok(())
    }
}
