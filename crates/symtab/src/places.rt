//! A list of numbers that answers where each stands, and the how-manieth it is there: instances by their variant, and variants' rows by instance.

ghost use Rattle.std.specs.Prelude.{◌≡◌, ◌<◌, ◌≤◌, ◌^◌, ℕ, IfOk, All, length, slice_index};
ghost use Rattle.symtab.specs.Places.{places};
ghost use Rattle.symtab.specs.Tables.{group_of, rank};

use std::alloc::Global;
use std::collections::HashMap;
use std::marker::Model;
use text_core::NoMemory;

/// A list of numbers, with tables of where each of them stands in it. Contracts see the list.
#[derive(Drop)]
pub struct Places {
    numbers: Vec<u32>,
    groups: HashMap<u64, Vec<u32>>,
    ranks: Vec<u32>,
}

impl Model for Places {
    ghost use Rattle.std.specs.Prelude.{List, ℕ};
    ghost use Rattle.symtab.specs.Tables.{AreTables};

    ghost Value = { List ℕ };

    ghost view = { λ p. p.numbers.items };

    ghost invariant = { λ p. AreTables p.numbers.items p.groups p.ranks.items };
}

/// The places of each number of a list.
fn groups_of(alloc: Global, numbers: &[u32]) -> Result<HashMap<u64, Vec<u32>>, NoMemory>
    requires { length numbers.now < 2 ^ 32 }
    ensures { IfOk result (λ groups. (number : ℕ) → group_of groups number ≡ places number numbers.now) }
{
    let mut groups: HashMap<u64, Vec<u32>> = HashMap::new(alloc);
    for (place, number) in numbers.iter().enumerate() {
        groups
            .entry(u64::from(*number))?
            .or_default()
            .push(place as u32)?;
    }
    Ok(groups)
}

/// How many times the number at each place of a list stands before it.
fn ranks_of(alloc: Global, numbers: &[u32]) -> Result<Vec<u32>, NoMemory>
    requires { length numbers.now < 2 ^ 32 }
    ensures count { IfOk result (λ ranks. length ranks.items ≡ length numbers.now) }
    ensures ranks { IfOk result (λ ranks. (place : ℕ) → place < length numbers.now → slice_index ranks.items place ≡ rank numbers.now place) }
{
    let mut counts: HashMap<u64, u32> = HashMap::new(alloc);
    let mut ranks = Vec::new(alloc);
    for number in numbers {
        let key = u64::from(*number);
        let rank = counts.get(&key).copied().unwrap_or(0);
        counts.insert(key, rank + 1)?;
        ranks.push(rank)?;
    }
    Ok(ranks)
}

impl Places {
    /// The list of these numbers.
    pub fn new(alloc: Global, numbers: Vec<u32>) -> Result<Places, NoMemory>
        requires { length numbers.items < 2 ^ 32 }
        ensures { IfOk result (λ places. places ≡ numbers.items) }
    {
        Ok(Places {
            groups: groups_of(alloc, &numbers)?,
            ranks: ranks_of(alloc, &numbers)?,
            numbers,
        })
    }

    /// The places at which a number stands, in order.
    pub fn places(&self, number: u64) -> &[u32]
        ensures places { result.now ≡ places number self.now }
        ensures within { All (λ place. place < length self.now) result.now }
    {
        match self.groups.get(&number) {
            Some(group) => group,
            None => &[],
        }
    }

    /// How many times the number at a place stands before it.
    pub fn rank(&self, place: u32) -> u32
        requires { place < length self.now }
        ensures { result ≡ rank self.now place }
    {
        self.ranks[place as usize]
    }
}
