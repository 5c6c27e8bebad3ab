//! Laws of an elaborated design as processes and links.

ghost use Rattle.design_exec.specs.Sample.{Translates};
ghost use Rattle.design_exec.specs.Standing.{ChildrenStand};

/// A design of two instances, as elaboration gives it, is the one whose execution is worked by hand. Computes nothing.
pub fn translates_the_sample()
    ensures { Translates }
{}

/// In a well-formed design each child of each instance is an instance: the one that execution connects, behind its parent, of the
/// child's variant, with the parent's path, a dot and the child's name for a path. Computes nothing.
pub fn children_stand()
    ensures { ChildrenStand }
{}
