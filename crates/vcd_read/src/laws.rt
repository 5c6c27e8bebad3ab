//! What the definition of a dump file's meaning says of texts worked by hand.

ghost use Rattle.std.specs.Prelude.{◌≡◌, Ok};
ghost use Rattle.vcd_read.specs.Examples.{HasFaults, text, told};
ghost use Rattle.vcd_read.specs.Meaning.{meaning};

/// A law: what the definition of a text's meaning says of some texts, computed from it.
pub fn examples()
    ensures faults { HasFaults }
    ensures told { meaning text ≡ Ok told }
{}
