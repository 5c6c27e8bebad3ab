//! Why the files of a design are refused, with the number and the name that its line tells.

ghost use Rattle.std.specs.Prelude.{◌≡◌, ◌≤◌};
ghost use Rattle.design_judge.specs.Refusals.{check_name as the_check_name, check_number as the_check_number, design_name, design_number, elab_name as the_elab_name, elab_number as the_elab_number, text_name as the_text_name, text_number as the_text_number};

use check_core::CheckFault;
use elab_core::ElabFault;
use gen_text::TextFault;
use text_core::{Listed, Text as Name};

/// Why the files of a design are refused. Want of memory, which a fault of a text, of elaboration or of a check can tell, refuses none.
#[derive(Drop)]
pub enum DesignFault {
    /// The text of the file of this number is not read.
    Text { file: u32, fault: TextFault },
    /// An import, at this place, names a file beyond the 64th.
    TooManyFiles { line: u32, name: Name },
    /// They are read, and the top is not elaborated.
    Elaboration(ElabFault),
    /// It is elaborated, and a check refuses the design.
    Check(CheckFault),
    /// No check refuses it, and signals of the design depend on one another: the paths of different signals, each depending on
    /// the next and the last on the first, beginning with the one that stands first in the design.
    CombLoop(Listed<Name>),
}

/// The number of a fault of a text, from 1 to 4; 0 for want of memory.
fn text_number(fault: TextFault) -> u8
    ensures { result ≡ the_text_number fault }
{
    match fault {
        TextFault::TooLong => 1,
        TextFault::NotAscii { .. } => 2,
        TextFault::BadToken { .. } => 3,
        TextFault::Syntax { .. } => 4,
        TextFault::NoMemory => 0,
    }
}

/// The name of a fault of a text; none for want of memory.
fn text_name(fault: TextFault) -> &'static str
    ensures { result.now ≡ the_text_name fault }
{
    match fault {
        TextFault::TooLong => "TooLong",
        TextFault::NotAscii { .. } => "NotAscii",
        TextFault::BadToken { .. } => "BadToken",
        TextFault::Syntax { .. } => "Syntax",
        TextFault::NoMemory => "",
    }
}

/// The number of a fault of elaboration, from 5 to 9; 0 for want of memory.
fn elab_number(fault: &ElabFault) -> u8
    ensures { result ≡ the_elab_number fault.now }
{
    match fault {
        ElabFault::UnknownModule { .. } => 5,
        ElabFault::UnknownParameter { .. } => 6,
        ElabFault::ElabRange { .. } => 7,
        ElabFault::TooDeep { .. } => 8,
        ElabFault::TooLarge { .. } => 9,
        ElabFault::NoMemory => 0,
    }
}

/// The name of a fault of elaboration; none for want of memory.
fn elab_name(fault: &ElabFault) -> &'static str
    ensures { result.now ≡ the_elab_name fault.now }
{
    match fault {
        ElabFault::UnknownModule { .. } => "UnknownModule",
        ElabFault::UnknownParameter { .. } => "UnknownParameter",
        ElabFault::ElabRange { .. } => "ElabRange",
        ElabFault::TooDeep { .. } => "TooDeep",
        ElabFault::TooLarge { .. } => "TooLarge",
        ElabFault::NoMemory => "",
    }
}

/// The number of a refusal of a check, from 10 to 19; 0 for want of memory.
fn check_number(fault: &CheckFault) -> u8
    ensures { result ≡ the_check_number fault.now }
{
    match fault {
        CheckFault::UnknownName(_) => 10,
        CheckFault::DuplicateName(_) => 11,
        CheckFault::BadWidth(_) => 12,
        CheckFault::WidthMismatch { .. } => 13,
        CheckFault::UnknownPort(_) => 14,
        CheckFault::UnboundInput(_) => 15,
        CheckFault::TwoDrivers { .. } => 16,
        CheckFault::Undriven(_) => 17,
        CheckFault::Latch(_) => 18,
        CheckFault::ReadBeforeWrite(_) => 19,
        CheckFault::NoMemory => 0,
    }
}

/// The name of a refusal of a check; none for want of memory.
fn check_name(fault: &CheckFault) -> &'static str
    ensures { result.now ≡ the_check_name fault.now }
{
    match fault {
        CheckFault::UnknownName(_) => "UnknownName",
        CheckFault::DuplicateName(_) => "DuplicateName",
        CheckFault::BadWidth(_) => "BadWidth",
        CheckFault::WidthMismatch { .. } => "WidthMismatch",
        CheckFault::UnknownPort(_) => "UnknownPort",
        CheckFault::UnboundInput(_) => "UnboundInput",
        CheckFault::TwoDrivers { .. } => "TwoDrivers",
        CheckFault::Undriven(_) => "Undriven",
        CheckFault::Latch(_) => "Latch",
        CheckFault::ReadBeforeWrite(_) => "ReadBeforeWrite",
        CheckFault::NoMemory => "",
    }
}

impl DesignFault {
    /// The number of the refusal, from 1 to 21; 0 for want of memory.
    pub fn number(&self) -> u8
        ensures { result ≡ design_number self.now }
    {
        match self {
            DesignFault::Text { fault, .. } => text_number(*fault),
            DesignFault::TooManyFiles { .. } => 21,
            DesignFault::Elaboration(fault) => elab_number(fault),
            DesignFault::Check(fault) => check_number(fault),
            DesignFault::CombLoop(_) => 20,
        }
    }

    /// The name of the refusal; none for want of memory.
    pub fn name(&self) -> &'static str
        ensures { result.now ≡ design_name self.now }
    {
        match self {
            DesignFault::Text { fault, .. } => text_name(*fault),
            DesignFault::TooManyFiles { .. } => "TooManyFiles",
            DesignFault::Elaboration(fault) => elab_name(fault),
            DesignFault::Check(fault) => check_name(fault),
            DesignFault::CombLoop(_) => "CombLoop",
        }
    }
}
