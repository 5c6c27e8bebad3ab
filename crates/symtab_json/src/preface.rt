//! What the slots of a file are read over, read in one pass before them: its version, its instances, its nodes, and how many variants it has.

ghost use Rattle.std.specs.Prelude.{◌≡◌, IfOk, MatchOption, false, is_some};
ghost use Rattle.serde_json.specs.Find.{as_object};
ghost use Rattle.symtab_json.specs.JsonText.{value_of, IsJson};
ghost use Rattle.symtab_json.specs.Members.{preface, IsPreface};

use crate::entries::InstanceEntry;
use crate::fields::{Fields, object};
use crate::tokens::pass_value;
use crate::told::{ListLen, LongList, Told};
use json::{Reader, Scratch};
use std::alloc::Global;
use symtab::NodeName;
use text_core::{Listed, NoMemory};

/// The members of a file that its slots are read over.
#[derive(Drop)]
pub struct Preface {
    pub version: Option<u64>,
    pub instances: Option<Listed<InstanceEntry>>,
    pub nodes: Option<LongList<NodeName>>,
    pub variants: Option<ListLen>,
}

impl Fields for Preface {
    ghost of = { preface };

    fn empty() -> Self {
        Preface {
            version: None,
            instances: None,
            nodes: None,
            variants: None,
        }
    }

    fn take(
        &mut self,
        alloc: Global,
        nodes: &[NodeName],
        reader: &mut Reader<'_>,
        key: &str,
    ) -> Result<(), NoMemory> {
        if key == "version" {
            self.version = Told::read(alloc, nodes, reader)?;
        } else if key == "instances" {
            self.instances = Told::read(alloc, nodes, reader)?;
        } else if key == "nodes" {
            self.nodes = Told::read(alloc, nodes, reader)?;
        } else if key == "variants" {
            self.variants = Told::read(alloc, nodes, reader)?;
        } else {
            pass_value(reader);
        }
        Ok(())
    }
}

/// What the members of a file tell that its slots are read over. None where it is no object.
#[tactic(auto, using(crate::proofs::Prefaced::is_preface, crate::proofs::Prefaced::no_preface))]
pub(crate) fn preface_in(
    alloc: Global,
    scratch: &mut Scratch,
    text: &str,
) -> Result<Option<Preface>, NoMemory>
    requires { IsJson text.now }
    ensures { IfOk result (λ found. MatchOption found (is_some (as_object (value_of text.now)) ≡ false) (IsPreface (value_of text.now))) }
{
    let mut reader = Reader::new(text, scratch)?;
    object(alloc, &[], &mut reader)
}
