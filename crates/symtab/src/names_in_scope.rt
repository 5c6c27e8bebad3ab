//! The names in scope at a statement. The statements of a block have one list of them: a name takes some 60 bytes, so that a copy for each
//! statement would take more than what the names stand for. Contracts see the list.

ghost use Rattle.std.specs.Prelude.{◌≡◌, ◌<◌, ◌↔◌, Some, Contains, IfOk, IfSome, IsSome, IsTrue, bytes_eq, length, position, slice_get};
ghost use Rattle.symtab.specs.Apart.{AreApart};

use crate::named::distinct_names;
use names::NameSet;
use std::alloc::Global;
use std::marker::Model;
use std::sync::Arc;
use text_core::{NoMemory, Text};

/// Names in scope, in order: a list that several statements may hold.
#[derive(Drop)]
pub struct Names {
    texts: Arc<Vec<Text>>,
}

impl Model for Names {
    ghost use Rattle.std.specs.Prelude.{List, ℕ};

    ghost Value = { List (List ℕ) };

    ghost view = { λ n. n.texts.value.items };
}

impl Names {
    /// The list of these.
    pub fn new(alloc: Global, texts: Vec<Text>) -> Result<Names, NoMemory>
        ensures { IfOk result (λ names. names ≡ texts.items) }
    {
        Ok(Names {
            texts: Arc::new(alloc, texts)?,
        })
    }

    /// This list of names for one more holder. Copies no name, and fails only where 2^63 hold it.
    pub fn share(&self) -> Result<Names, NoMemory>
        ensures { IfOk result (λ names. names ≡ self.now) }
    {
        Ok(Names {
            texts: Arc::try_clone(&self.texts)?,
        })
    }

    /// The names, in order.
    pub fn items(&self) -> &[Text]
        ensures { result.now ≡ self.now }
    {
        &self.texts
    }

    /// Whether they are these, in this order.
    pub fn are(&self, texts: &[Text]) -> bool
        ensures { IsTrue result ↔ (self.now ≡ texts.now) }
    {
        let names = self.items();
        if names.len() != texts.len() {
            return false;
        }
        for place in 0..names.len() {
            if names[place].bytes() != texts[place].bytes() {
                return false;
            }
        }
        true
    }
}

/// Names in scope, no two the same, and where each stands among them.
#[derive(Drop)]
pub(crate) struct NameIndex {
    names: Names,
    places: Arc<NameSet>,
}

impl Model for NameIndex {
    ghost use Rattle.std.specs.Prelude.{◌≡◌, List, ℕ};
    ghost use Rattle.symtab.specs.Apart.{AreApart};

    ghost Value = { List (List ℕ) };

    ghost view = { λ n. n.names };

    ghost invariant = { λ n. (n.places.value ≡ n.names) × AreApart n.names };
}

/// The places of these names. None where two of them are the same.
fn distinct_texts(alloc: Global, texts: &[Text]) -> Result<Option<NameSet>, NoMemory>
    ensures apart { IfOk result (λ found. IsSome found ↔ AreApart texts.now) }
    ensures names { IfOk result (λ found. IfSome found (λ names. names ≡ texts.now)) }
{
    distinct_names(alloc, texts)
}

impl NameIndex {
    /// The index of these names. None where two of them are the same.
    fn new(alloc: Global, names: &Names) -> Result<Option<NameIndex>, NoMemory>
        ensures apart { IfOk result (λ found. IsSome found ↔ AreApart names.now) }
        ensures names { IfOk result (λ found. IfSome found (λ index. index ≡ names.now)) }
    {
        let Some(places) = distinct_texts(alloc, names.items())? else {
            return Ok(None);
        };
        Ok(Some(NameIndex {
            names: names.share()?,
            places: Arc::new(alloc, places)?,
        }))
    }

    /// The same index for one more holder. Copies no name.
    fn share(&self) -> Result<NameIndex, NoMemory>
        ensures { IfOk result (λ index. index ≡ self.now) }
    {
        Ok(NameIndex {
            names: self.names.share()?,
            places: Arc::try_clone(&self.places)?,
        })
    }

    /// The index of these names, which is this one where they are its own. None where two of them are the same.
    pub(crate) fn of(
        alloc: Global,
        before: Option<&NameIndex>,
        names: &Names,
    ) -> Result<Option<NameIndex>, NoMemory>
        ensures apart { IfOk result (λ found. IsSome found ↔ AreApart names.now) }
        ensures names { IfOk result (λ found. IfSome found (λ index. index ≡ names.now)) }
    {
        match before {
            Some(index) if index.names.are(names.items()) => Ok(Some(index.share()?)),
            _ => NameIndex::new(alloc, names),
        }
    }

    /// The place of a name, counted from 0. None where the name is not there.
    pub(crate) fn place_of(&self, name: &[u8]) -> Option<usize>
        ensures place { result ≡ position (bytes_eq name.now) self.now }
        ensures within { IfSome result (λ place. place < length self.now) }
        ensures named { IfSome result (λ place. slice_get self.now place ≡ Some name.now) }
        ensures there { IsSome result ↔ Contains self.now name.now }
    {
        self.places.place_of(name)
    }
}
