//! What is written for the parts of a table. Each kind of part is a JSON value of its own, and is written as it stands, so
//! that a file takes no more memory than its text.

ghost use Rattle.std.specs.Prelude.{◌≡◌, ◌∷◌, [], ◌++◌, List, false, map, IfOk, OnOk};
ghost use Rattle.json.specs.Print.{quoted};
ghost use Rattle.serde_json.specs.Data.{Data};
ghost use Rattle.serde_json.specs.Find.{of_integer};
ghost use Rattle.serde_json.specs.View.{items_of};
ghost use Rattle.serde_json.specs.Written.{comma_if, compact_text, items_text};
ghost use Rattle.symtab_json.specs.Files.{count_json, list_json, pair_json, symbols_text};

use crate::quoted::push_quoted;
use itoa::Buffer;
use std::alloc::Global;
use symtab::Table;
use text_core::NoMemory;

/// What stands in a symbol file.
pub trait Written {
    ghost tree: { Self → Data };

    /// Adds its compact JSON.
    fn write(&self, alloc: Global, text: &mut Vec<u8>) -> Result<(), NoMemory>
        ensures { OnOk result (text.new.items ≡ text.old.items ++ compact_text (tree self.now)) };
}

/// Adds a whole number.
pub(crate) fn push_count(text: &mut Vec<u8>, number: u64) -> Result<(), NoMemory>
    ensures { OnOk result (text.new.items ≡ text.old.items ++ compact_text (count_json number)) }
{
    text.extend_from_slice(Buffer::new().format(number).as_bytes())?;
    Ok(())
}

/// Adds a comma, unless this is the first.
pub(crate) fn push_comma(text: &mut Vec<u8>, later: bool) -> Result<(), NoMemory>
    ensures { OnOk result (text.new.items ≡ text.old.items ++ comma_if later) }
{
    if later {
        text.push(b',')?;
    }
    Ok(())
}

/// Adds a list of two.
pub(crate) fn push_pair<A: Written, B: Written>(
    alloc: Global,
    text: &mut Vec<u8>,
    first: &A,
    second: &B,
) -> Result<(), NoMemory>
    ensures { OnOk result (text.new.items ≡ text.old.items ++ compact_text (pair_json (A.tree first.now) (B.tree second.now))) }
{
    text.push(b'[')?;
    first.write(alloc, text)?;
    text.push(b',')?;
    second.write(alloc, text)?;
    text.push(b']')?;
    Ok(())
}

/// Adds a member of an object, after a comma unless it is the first.
pub(crate) fn push_member<T: Written>(
    alloc: Global,
    text: &mut Vec<u8>,
    later: bool,
    key: &str,
    value: &T,
) -> Result<(), NoMemory>
    ensures { OnOk result (text.new.items ≡ text.old.items ++ (comma_if later ++ (quoted key.now ++ 58 ∷ compact_text (T.tree value.now)))) }
{
    push_comma(text, later)?;
    push_quoted(text, key.as_bytes())?;
    text.push(b':')?;
    value.write(alloc, text)
}

/// Adds the items of a list, with commas between, and the bracket that closes it.
fn push_items<T: Written>(alloc: Global, text: &mut Vec<u8>, items: &[T]) -> Result<(), NoMemory>
    ensures { OnOk result (text.new.items ≡ text.old.items ++ items_text false (items_of (map (λ item. T.tree item) items.now))) }
{
    let mut later = false;
    for item in items {
        push_comma(text, later)?;
        item.write(alloc, text)?;
        later = true;
    }
    text.push(b']')?;
    Ok(())
}

/// Adds a list.
pub(crate) fn push_list<T: Written>(
    alloc: Global,
    text: &mut Vec<u8>,
    items: &[T],
) -> Result<(), NoMemory>
    ensures { OnOk result (text.new.items ≡ text.old.items ++ compact_text (list_json (λ item. T.tree item) items.now)) }
{
    text.push(b'[')?;
    push_items(alloc, text, items)
}

/// The symbol file of a table: the compact JSON of its parts, of version 2. Fails only where memory runs out.
pub fn write_table(alloc: Global, table: &Table) -> Result<Vec<u8>, NoMemory>
    ensures { IfOk result (λ text. text.items ≡ symbols_text table.now) }
{
    let mut text = Vec::new(alloc);
    table.parts().write(alloc, &mut text)?;
    Ok(text)
}
