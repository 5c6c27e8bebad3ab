//! What each design that elaboration gives keeps, so that the crates above may rely on it.

ghost use Rattle.elab_laws.specs.Numbered.{ElaborationNumbers};
ghost use Rattle.elab_laws.specs.Laws.{ElaborationKeeps};

/// A design that elaboration gives is well formed. Computes nothing.
pub fn elaboration_keeps()
    ensures { ElaborationKeeps }
{}

/// In a design that elaboration gives the slots of a variant are numbers one after another, and no two statements of an instance
/// have one slot. Computes nothing.
pub fn elaboration_numbers()
    ensures { ElaborationNumbers }
{}
