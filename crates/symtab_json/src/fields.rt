//! Objects, member by member in the order that they come in: of two of one key the later one counts, and those of other keys are passed over.

ghost use Rattle.std.specs.Prelude.{◌≡◌, List, IfOk, OnOk, option_and_then, option_map};
ghost use Rattle.symtab.specs.declared.parts.NodeName.{NodeName};
ghost use Rattle.serde_json.specs.Data.{Members, no_members, put};
ghost use Rattle.serde_json.specs.Find.{as_object, get_member};
ghost use Rattle.symtab_json.specs.Entries.{told_member};
ghost use Rattle.symtab_json.specs.Standing.{head_members, head_value, past_members, past_value, AreMembers, IsValue};

use crate::tokens::{next_key, opens_object, pass_value};
use crate::told::Told;
use json::Reader;
use std::alloc::Global;
use symtab::NodeName;
use text_core::NoMemory;

/// What the members of an object are read into, over the nodes of its file.
pub trait Fields: Sized {
    ghost of: { List NodeName → Members → Self };

    /// What no members tell.
    fn empty() -> Self
        ensures { (nodes : List NodeName) → result ≡ of nodes no_members };

    /// Reads the value of a member. The value is passed, unless memory runs out.
    fn take(
        &mut self,
        alloc: Global,
        nodes: &[NodeName],
        reader: &mut Reader<'_>,
        key: &str,
    ) -> Result<(), NoMemory>
        requires { IsValue reader.old }
        ensures more { OnOk result ((known : Members) → self.old ≡ of nodes.now known → self.new ≡ of nodes.now (put key.now (head_value reader.old) known)) }
        ensures passed { OnOk result (reader.new ≡ past_value reader.old) };
}

/// What the members of an object tell that are left.
#[tactic(auto, using(crate::proofs::Heads::member_value, crate::proofs::Heads::members_left, crate::proofs::Heads::members_past, crate::proofs::Heads::members_shorter, crate::proofs::Heads::members_end_past, crate::proofs::Heads::members_end_head))]
fn members<F: Fields + Drop>(
    alloc: Global,
    nodes: &[NodeName],
    reader: &mut Reader<'_>,
) -> Result<F, NoMemory>
    requires { AreMembers reader.old }
    ensures told { IfOk result (λ found. found ≡ F.of nodes.now (head_members no_members reader.old)) }
    ensures passed { OnOk result (reader.new ≡ past_members reader.old) }
{
    let mut fields = F::empty();
    'members: while let Some(key) = next_key(reader) {
        fields.take(alloc, nodes, reader, key)?;
    }
    Ok(fields)
}

/// What the members of an object tell. None where a value is no object.
pub(crate) fn object<F: Fields + Drop>(
    alloc: Global,
    nodes: &[NodeName],
    reader: &mut Reader<'_>,
) -> Result<Option<F>, NoMemory>
    requires { IsValue reader.old }
    ensures told { IfOk result (λ found. found ≡ option_map (F.of nodes.now) (as_object (head_value reader.old))) }
    ensures passed { OnOk result (reader.new ≡ past_value reader.old) }
{
    if opens_object(reader) {
        Ok(Some(members(alloc, nodes, reader)?))
    } else {
        Ok(None)
    }
}

/// What the member with this key tells, of the members of an object that are left.
#[tactic(auto, using(crate::proofs::Heads::member_value, crate::proofs::Heads::members_left, crate::proofs::Heads::members_past, crate::proofs::Heads::members_shorter, crate::proofs::Heads::members_end_past, crate::proofs::Heads::members_end_head))]
fn last<T: Told + Drop>(
    alloc: Global,
    nodes: &[NodeName],
    reader: &mut Reader<'_>,
    wanted: &str,
) -> Result<Option<T>, NoMemory>
    requires { AreMembers reader.old }
    ensures { IfOk result (λ found. found ≡ option_and_then (T.told nodes.now) (get_member wanted.now (head_members no_members reader.old))) }
{
    let mut found = None;
    'members: while let Some(key) = next_key(reader) {
        if key == wanted {
            found = T::read(alloc, nodes, reader)?;
        } else {
            pass_value(reader);
        }
    }
    Ok(found)
}

/// What the member of an object with this key tells.
pub(crate) fn member<T: Told + Drop>(
    alloc: Global,
    nodes: &[NodeName],
    reader: &mut Reader<'_>,
    wanted: &str,
) -> Result<Option<T>, NoMemory>
    requires { IsValue reader.old }
    ensures { IfOk result (λ found. found ≡ told_member (T.told nodes.now) wanted.now (head_value reader.old)) }
{
    if opens_object(reader) {
        last(alloc, nodes, reader, wanted)
    } else {
        Ok(None)
    }
}
