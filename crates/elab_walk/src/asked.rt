//! A child as its `inst` asks for it, with all integers computed: what the walk needs to enter it, and nothing of the text.

use design_core::Conn;
use gen_scope::Scope;
use text_core::Text;

/// A child as it is asked for: its name, the place of its module in the source, its parameters and connections.
#[derive(Drop)]
pub(crate) struct Asked {
    pub line: u32,
    pub name: Text,
    pub place: usize,
    pub params: Scope,
    pub conns: Vec<Conn>,
}
