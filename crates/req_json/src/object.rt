//! Objects in JSON, of members that are put in one after another in any order.

ghost use Rattle.std.specs.Prelude.{◌≡◌, ◌++◌, [], false, IfOk, OnOk};
ghost use Rattle.serde_json.specs.Data.{string};
ghost use Rattle.serde_json.specs.Written.{compact_text};
ghost use Rattle.req_json.specs.Objects.{object_text, pairs_text, put_text, texts_in};
ghost use Rattle.req_json.specs.Values.{place_texts};

use crate::value::{Compact, push_comma};
use std::alloc::Global;
use std::collections::BTreeMap;
use std::marker::Model;
use symtab_json::push_quoted;
use text_core::{Listed, NoMemory};

/// The lines of a file are below this, and a place is so many times its file, and its line.
const MOST_LINES: u64 = 1 << 24;

/// The members of an object, in the order of the bytes of their keys. Of each value there is its compact text.
type Members = BTreeMap<String, Listed<u8>>;

/// Puts a member in. One that has the key already gets the new value.
#[tactic(auto, using(crate::proofs::Objects::entry_put))]
fn put_member(
    alloc: Global,
    members: &mut Members,
    key: &str,
    value: Listed<u8>,
) -> Result<(), NoMemory>
    ensures { OnOk result (texts_in members.new.entries ≡ put_text key.now value (texts_in members.old.entries)) }
{
    let key = String::from_str(alloc, key)?;
    members.insert(key, value)?;
    Ok(())
}

/// Adds the members of an object, with commas between, and the bracket that closes it.
fn push_members(text: &mut Vec<u8>, members: &Members) -> Result<(), NoMemory>
    ensures { OnOk result (text.new.items ≡ text.old.items ++ pairs_text false (texts_in members.now.entries)) }
{
    let mut later = false;
    for (key, value) in members {
        push_comma(text, later)?;
        push_quoted(text, key.as_bytes())?;
        text.push(b':')?;
        text.extend_from_slice(value.items())?;
        later = true;
    }
    text.push(b'}')?;
    Ok(())
}

/// An object. Contracts see its members in the order of the bytes of their keys, each with its value's compact text.
#[derive(Drop)]
pub struct Object {
    members: Members,
}

impl Model for Object {
    ghost use Rattle.std.specs.Prelude.{List, ℕ};
    ghost use Rattle.req_json.specs.Objects.{texts_in};

    ghost Value = { List (List ℕ × List ℕ) };

    ghost view = { λ object. texts_in object.members.entries };
}

impl Object {
    /// One with no members. Takes no memory.
    pub fn new(alloc: Global) -> Object
        ensures { result ≡ [] }
    {
        Object {
            members: BTreeMap::new(alloc),
        }
    }

    /// Puts a member in.
    pub fn put<T: Compact>(&mut self, alloc: Global, key: &str, value: &T) -> Result<(), NoMemory>
        ensures { OnOk result (self.new ≡ put_text key.now (compact_text (T.tree value.now)) self.old) }
    {
        let mut text = Vec::new(alloc);
        value.write(alloc, &mut text)?;
        put_member(alloc, &mut self.members, key, Listed::new(text))
    }

    /// Puts a member in whose value is a word.
    pub fn put_word(&mut self, alloc: Global, key: &str, word: &str) -> Result<(), NoMemory>
        ensures { OnOk result (self.new ≡ put_text key.now (compact_text (string word.now)) self.old) }
    {
        let mut text = Vec::new(alloc);
        push_quoted(&mut text, word.as_bytes())?;
        put_member(alloc, &mut self.members, key, Listed::new(text))
    }

    /// Puts a place in: the line in its file, and the number of the file unless it is file 0.
    #[tactic(auto, unfolding(crate::specs::Values::place_texts))]
    pub(crate) fn put_place(&mut self, alloc: Global, place: u64) -> Result<(), NoMemory>
        ensures { OnOk result (self.new ≡ place_texts place self.old) }
    {
        let file = place / MOST_LINES;
        let line = place % MOST_LINES;
        self.put(alloc, "line", &line)?;
        if file == 0 {
            return Ok(());
        }
        self.put(alloc, "file", &file)
    }

    /// Puts a member in whose value is written already, as compact JSON.
    pub fn put_written(&mut self, alloc: Global, key: &str, value: Vec<u8>) -> Result<(), NoMemory>
        ensures { OnOk result (self.new ≡ put_text key.now value.items self.old) }
    {
        put_member(alloc, &mut self.members, key, Listed::new(value))
    }

    /// Adds its compact JSON.
    pub fn push_to(&self, text: &mut Vec<u8>) -> Result<(), NoMemory>
        ensures { OnOk result (text.new.items ≡ text.old.items ++ object_text self.now) }
    {
        text.push(b'{')?;
        push_members(text, &self.members)
    }
}

/// An object of one member.
pub fn object_of_one<T: Compact>(alloc: Global, key: &str, value: &T) -> Result<Object, NoMemory>
    ensures { IfOk result (λ object. object ≡ put_text key.now (compact_text (T.tree value.now)) []) }
{
    let mut object = Object::new(alloc);
    object.put(alloc, key, value)?;
    Ok(object)
}

/// An object of two members.
pub fn object_of_two<A: Compact, B: Compact>(
    alloc: Global,
    key: &str,
    value: &A,
    next_key: &str,
    next: &B,
) -> Result<Object, NoMemory>
    ensures { IfOk result (λ object. object ≡ put_text next_key.now (compact_text (B.tree next.now)) (put_text key.now (compact_text (A.tree value.now)) [])) }
{
    let mut object = Object::new(alloc);
    object.put(alloc, key, value)?;
    object.put(alloc, next_key, next)?;
    Ok(object)
}
