//! The names of an expression, each once, in the order in which they first come. They are spelled once, when the text is read, and not each
//! time that it is bound. Only a name that is new takes memory of its own.

ghost use Rattle.std.specs.Prelude.{◌≡◌, ◌++◌, [], ◌∷◌, false, IfOk, OnOk, codes, decimal, option_map};
ghost use Rattle.gen_tree.specs.View.{int_of};
ghost use Rattle.gen_text.specs.Reading.{fam_of_name};
ghost use Rattle.cond_lang.specs.Form.{place_in, noted};
ghost use Rattle.cond_lang.specs.Names.{fam_name, output_name};
ghost use Rattle.names.specs.Known.{has};

use crate::counts::number;
use gen_tree::Int;
use names::NameSet;
use std::alloc::Global;
use std::boxed::Box;
use text_core::{NoMemory, Text};

/// Names in the order in which they came, no two the same; and the same names, found by hash.
#[derive(Drop)]
pub(crate) struct DistinctNames {
    pub(crate) list: Vec<Text>,
    pub(crate) known: NameSet,
}

/// No names. Takes no memory.
pub(crate) fn no_names(alloc: Global) -> DistinctNames
    ensures known { result.known ≡ [] }
    ensures same { result.list.items ≡ [] }
{
    DistinctNames {
        list: Vec::new(alloc),
        known: NameSet::new(alloc),
    }
}

/// Puts a name behind others that is not among them.
fn put(alloc: Global, names: &mut DistinctNames, name: &[u8]) -> Result<(), NoMemory>
    requires new { has names.old.known name.now ≡ false }
    ensures known { OnOk result (names.new.known ≡ names.old.known ++ name.now ∷ []) }
    ensures list { OnOk result (names.new.list.items ≡ names.old.list.items ++ name.now ∷ []) }
{
    names.known.insert(alloc, name)?;
    names.list.push(Text::new(alloc, name)?)?;
    Ok(())
}

/// The place of a name, which is put behind the others if it is not among them.
fn place(alloc: Global, names: &mut DistinctNames, name: &[u8]) -> Result<usize, NoMemory>
    requires { names.old.list.items ≡ names.old.known }
    ensures place { IfOk result (λ place. place ≡ place_in names.old.known name.now) }
    ensures known { OnOk result (names.new.known ≡ noted names.old.known name.now) }
    ensures same { OnOk result (names.new.list.items ≡ names.new.known) }
{
    match names.known.place_of(name) {
        Some(place) => Ok(place),
        None => {
            let place = names.known.count();
            put(alloc, names, name)?;
            Ok(place)
        }
    }
}

/// Puts the index of a member of a family behind its name, as `#2`.
fn push_index(name: &mut Vec<u8>, index: u64) -> Result<(), NoMemory>
    ensures { OnOk result (name.new.items ≡ name.old.items ++ (codes "#" ++ decimal index)) }
{
    let mut digits = itoa::Buffer::new();
    name.extend_from_slice(b"#")?;
    name.extend_from_slice(digits.format(index).as_bytes())?;
    Ok(())
}

/// Spells the name of a member of a family, or a plain name, in place of what was spelled before.
fn spell_fam(spelled: &mut Vec<u8>, name: &[u8], index: &Option<Box<Int>>) -> Result<(), NoMemory>
    ensures { OnOk result (spelled.new.items ≡ fam_name (fam_of_name name.now (option_map (λ index. int_of index.value) index.now))) }
{
    spelled.clear();
    spelled.extend_from_slice(name)?;
    match index {
        Some(index) => push_index(spelled, number(index)),
        None => Ok(()),
    }
}

/// Spells the name of an output of a child, in place of what was spelled before.
fn spell_output(
    spelled: &mut Vec<u8>,
    name: &[u8],
    index: &Option<Box<Int>>,
    output: &[u8],
) -> Result<(), NoMemory>
    ensures { OnOk result (spelled.new.items ≡ output_name (fam_of_name name.now (option_map (λ index. int_of index.value) index.now)) output.now) }
{
    spell_fam(spelled, name, index)?;
    spelled.extend_from_slice(b".")?;
    spelled.extend_from_slice(output)?;
    Ok(())
}

/// The place of a plain name or a member of a family. A plain name is looked up as it stands; a member's is spelled in room that all share.
pub(crate) fn fam_place(
    alloc: Global,
    names: &mut DistinctNames,
    spelled: &mut Vec<u8>,
    name: &[u8],
    index: &Option<Box<Int>>,
) -> Result<usize, NoMemory>
    requires { names.old.list.items ≡ names.old.known }
    ensures place { IfOk result (λ place. place ≡ place_in names.old.known
        (fam_name (fam_of_name name.now (option_map (λ index. int_of index.value) index.now)))) }
    ensures known { OnOk result (names.new.known ≡ noted names.old.known
        (fam_name (fam_of_name name.now (option_map (λ index. int_of index.value) index.now)))) }
    ensures same { OnOk result (names.new.list.items ≡ names.new.known) }
{
    match index {
        None => place(alloc, names, name),
        Some(_) => {
            spell_fam(spelled, name, index)?;
            place(alloc, names, spelled)
        }
    }
}

/// The place of an output of a child, whose name is spelled in room that all share.
pub(crate) fn output_place(
    alloc: Global,
    names: &mut DistinctNames,
    spelled: &mut Vec<u8>,
    name: &[u8],
    index: &Option<Box<Int>>,
    output: &[u8],
) -> Result<usize, NoMemory>
    requires { names.old.list.items ≡ names.old.known }
    ensures place { IfOk result (λ place. place ≡ place_in names.old.known
        (output_name (fam_of_name name.now (option_map (λ index. int_of index.value) index.now)) output.now)) }
    ensures known { OnOk result (names.new.known ≡ noted names.old.known
        (output_name (fam_of_name name.now (option_map (λ index. int_of index.value) index.now)) output.now)) }
    ensures same { OnOk result (names.new.list.items ≡ names.new.known) }
{
    spell_output(spelled, name, index, output)?;
    place(alloc, names, spelled)
}
