//! The literals of the arms of a `case`, arm by arm: whether they are literals at all, and whether they have the width of its value.

ghost use Rattle.std.specs.Prelude.{◌≡◌};
ghost use Rattle.std.specs.List.{list_all};
ghost use Rattle.design_core.specs.View.{arms_of};
ghost use Rattle.check_core.specs.Widths.{arm_literals, is_literal, literals_width};

use crate::sizes::is_literal;
use crate::table::needed_width;
use crate::widths::bits;
use check_core::Clash;
use design_core::{Arm, Literal};

/// Whether each of these literals has a width from 1 to 128, and a value that is not negative and fits it.
fn are_literals(literals: &[Literal]) -> bool
    ensures { result ≡ list_all is_literal literals.now }
{
    literals.iter().all(|literal| is_literal(literal))
}

/// The same of the literals of arms.
#[tactic(auto, using(crate::proofs::ArmSteps::all_steps))]
pub(crate) fn arms_are_sized(arms: &[Arm]) -> bool
    ensures { result ≡ list_all is_literal (arm_literals (arms_of arms.now)) }
{
    for arm in arms {
        if !are_literals(&arm.tests) {
            return false;
        }
    }
    true
}

/// A width, or the first of these literals that has another.
#[tactic(auto, using(crate::proofs::ArmSteps::literal_steps))]
fn literals_width(width: u64, literals: &[Literal]) -> Result<u64, Clash>
    ensures { result ≡ literals_width width literals.now }
{
    for literal in literals {
        needed_width(width, bits(literal.width))?;
    }
    Ok(width)
}

/// The same of the literals of arms.
#[tactic(auto, using(crate::proofs::ArmSteps::arm_steps))]
pub(crate) fn arms_width(width: u64, arms: &[Arm]) -> Result<u64, Clash>
    ensures { result ≡ literals_width width (arm_literals (arms_of arms.now)) }
{
    for arm in arms {
        literals_width(width, &arm.tests)?;
    }
    Ok(width)
}
