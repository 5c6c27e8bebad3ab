//! An elaborated design: modules without parameters, loops or `gen`.

ghost use Rattle.std.specs.Prelude.{map};
ghost use Rattle.design_core.specs.View.{variant_of};
ghost use Rattle.design_core.specs.WellFormed.{IsDesign};
ghost use Rattle.design_core.specs.Single.{design_prop};

use crate::Variant;
use text_core::{Listed, Text};

/// An instance of a variant: its path, and the number of the instance that it stands in, if it is not the top.
#[derive(Drop)]
pub struct Instance {
    pub path: Text,
    pub variant: u32,
    pub parent: Option<u32>,
}

/// An elaborated design: the module of its top, its variants in the order of their first instances, and its instances in
/// preorder.
#[derive(Drop)]
pub struct Design {
    pub top: Text,
    pub variants: Vec<Variant>,
    pub instances: Listed<Instance>,
    pub ghost kept: { IsDesign (record { top = top; variants = map variant_of variants.items; instances = instances }) } by { design_prop
        (record { top = top; variants = map variant_of variants.items; instances = instances }) },
}
