//! An order of the driven signals of a design, as those hold it who lower the design.

ghost use Rattle.std.specs.Prelude.{◌≡◌};

use std::marker::Model;

/// The driven signals of a design in an order. Contracts see the list.
#[derive(Drop)]
pub struct Order {
    pairs: Vec<(u32, u32)>,
}

impl Model for Order {
    ghost use Rattle.std.specs.Prelude.{List, ℕ};

    ghost Value = { List (ℕ × ℕ) };

    ghost view = { λ o. o.pairs.items };
}

impl Order {
    /// The order of these signals, each as the number of its instance and its place among the signals of the instance.
    pub fn new(pairs: Vec<(u32, u32)>) -> Order
        ensures { result ≡ pairs.items }
    {
        Order { pairs }
    }

    /// The driven signals, each as the number of its instance and its place among the signals of the instance.
    pub fn list(&self) -> &[(u32, u32)]
        ensures { result.now ≡ self.now }
    {
        &self.pairs
    }
}
