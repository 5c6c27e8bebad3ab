//! Why a value change dump file is no trace of a table, with the number and the name that its line tells.

ghost use Rattle.std.specs.Prelude.{◌≡◌};
ghost use Rattle.trace_judge.specs.Refusals.{bind_name as the_bind_name, bind_number as the_bind_number, trace_name, trace_number, trace_word, vcd_name as the_vcd_name, vcd_number as the_vcd_number};

use vcd_read::VcdFault;
use vcd_trace::BindFault;

/// Why a value change dump file is no trace of a table in a scope. Want of memory, which both faults can tell, refuses no file.
#[derive(Drop)]
pub enum TraceFault {
    /// It is not read.
    Vcd(VcdFault),
    /// It is read, and is not bound to the table in the scope.
    Bind(BindFault),
}

/// The number of a fault of a file, from 1 to 7; 0 for want of memory.
fn vcd_number(fault: VcdFault) -> u8
    ensures { result ≡ the_vcd_number fault }
{
    match fault {
        VcdFault::TooLong => 1,
        VcdFault::BadWord { .. } => 2,
        VcdFault::CutShort => 3,
        VcdFault::UnknownCode { .. } => 4,
        VcdFault::TooWide { .. } => 5,
        VcdFault::TimeBack { .. } => 6,
        VcdFault::NoEndDefinitions => 7,
        VcdFault::NoMemory => 0,
    }
}

/// The name of a fault of a file; none for want of memory.
fn vcd_name(fault: VcdFault) -> &'static str
    ensures { result.now ≡ the_vcd_name fault }
{
    match fault {
        VcdFault::TooLong => "TooLong",
        VcdFault::BadWord { .. } => "BadWord",
        VcdFault::CutShort => "CutShort",
        VcdFault::UnknownCode { .. } => "UnknownCode",
        VcdFault::TooWide { .. } => "TooWide",
        VcdFault::TimeBack { .. } => "TimeBack",
        VcdFault::NoEndDefinitions => "NoEndDefinitions",
        VcdFault::NoMemory => "",
    }
}

/// The number of a fault of a binding, from 1 to 3; 0 for want of memory.
fn bind_number(fault: &BindFault) -> u8
    ensures { result ≡ the_bind_number fault.now }
{
    match fault {
        BindFault::NoScope => 1,
        BindFault::MissingSignal { .. } => 2,
        BindFault::SizeDiffers { .. } => 3,
        BindFault::NoMemory => 0,
    }
}

/// The name of a fault of a binding; none for want of memory.
fn bind_name(fault: &BindFault) -> &'static str
    ensures { result.now ≡ the_bind_name fault.now }
{
    match fault {
        BindFault::NoScope => "NoScope",
        BindFault::MissingSignal { .. } => "MissingSignal",
        BindFault::SizeDiffers { .. } => "SizeDiffers",
        BindFault::NoMemory => "",
    }
}

impl TraceFault {
    /// What is refused: `vcd` or `bind`.
    pub fn word(&self) -> &'static str
        ensures { result.now ≡ trace_word self.now }
    {
        match self {
            TraceFault::Vcd(_) => "vcd",
            TraceFault::Bind(_) => "bind",
        }
    }

    /// The number of the refusal, from 1 to 7 of a file and from 1 to 3 of a binding; 0 for want of memory.
    pub fn number(&self) -> u8
        ensures { result ≡ trace_number self.now }
    {
        match self {
            TraceFault::Vcd(fault) => vcd_number(*fault),
            TraceFault::Bind(fault) => bind_number(fault),
        }
    }

    /// The name of the refusal; none for want of memory.
    pub fn name(&self) -> &'static str
        ensures { result.now ≡ trace_name self.now }
    {
        match self {
            TraceFault::Vcd(fault) => vcd_name(*fault),
            TraceFault::Bind(fault) => bind_name(fault),
        }
    }
}
