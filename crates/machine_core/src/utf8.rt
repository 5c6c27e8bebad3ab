//! Texts of requests.

ghost use Rattle.std.specs.Prelude.{◌≡◌, string_bytes};

use std::marker::Model;

/// A text in UTF-8 that never changes. Contracts see the list of its bytes.
#[derive(Drop)]
pub struct Utf8 {
    text: String,
}

impl Model for Utf8 {
    ghost use Rattle.std.specs.Prelude.{List, ℕ, string_bytes};

    ghost Value = { List ℕ };

    ghost view = { λ t. string_bytes t.text };
}

impl Utf8 {
    /// This text. Takes no memory.
    pub fn new(text: String) -> Utf8
        ensures { result ≡ string_bytes text }
    {
        Utf8 { text }
    }

    /// The text.
    pub fn text(&self) -> &str
        ensures { result.now ≡ self.now }
    {
        &self.text
    }
}
