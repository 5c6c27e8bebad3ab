//! What the walk has of the instance that it stands in. Children wait here until the body is done, so that instances come in preorder.

ghost use Rattle.std.specs.Prelude.{◌≤◌, length};

use elab_core::{Content, Instance};
use text_core::Text;

/// The instance whose body is walked: its path, and its number in preorder.
#[derive(Drop)]
pub(crate) struct Here {
    pub path: Text,
    pub number: u32,
}

/// What a body gave so far, and the instances below. Each child is one of these.
#[derive(Drop)]
pub(crate) struct Made {
    pub content: Content,
    pub below: Vec<Instance>,
    pub ghost few: { length content.children.items ≤ length below.items },
}
