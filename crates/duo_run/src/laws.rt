//! Laws of the definitions.

ghost use Rattle.duo_run.specs.Sample.{LockStepIsServed};

/// A connection in lock step, from the definitions, as it was worked by hand. Computes nothing.
pub fn lock_step_is_served()
    ensures { LockStepIsServed }
{}
