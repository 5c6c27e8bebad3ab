//! What stands behind the name of a refusal: its fields, each behind its own name.

ghost use Rattle.std.specs.Prelude.{◌≡◌, ◌++◌, OnOk};
ghost use Rattle.std.specs.Fmt.{decimal};
ghost use Rattle.trace_judge.specs.Refusals.{bind_fields, field, table_fields, trace_fields, vcd_fields};

use crate::TraceFault;
use std::alloc::Global;
use symtab_json::TableFault;
use text_core::NoMemory;
use vcd_read::VcdFault;
use vcd_trace::BindFault;

/// Adds a field: a blank, its name, a blank and its value.
fn push_field(line: &mut Vec<u8>, name: &str, value: &[u8]) -> Result<(), NoMemory>
    ensures { OnOk result (line.new.items ≡ line.old.items ++ field name.now value.now) }
{
    line.extend_from_slice(b" ")?;
    line.extend_from_slice(name.as_bytes())?;
    line.extend_from_slice(b" ")?;
    line.extend_from_slice(value)?;
    Ok(())
}

/// Adds a field that is a number, in decimal digits.
fn push_number(alloc: Global, line: &mut Vec<u8>, name: &str, number: u64) -> Result<(), NoMemory>
    ensures { OnOk result (line.new.items ≡ line.old.items ++ field name.now (decimal number)) }
{
    let digits = format!(in alloc; "{number}")?;
    push_field(line, name, digits.as_bytes())
}

/// Adds the fields of a refusal of a symbol file. Want of memory has none.
pub(crate) fn push_table_fields(
    alloc: Global,
    line: &mut Vec<u8>,
    fault: TableFault,
) -> Result<(), NoMemory>
    ensures { OnOk result (line.new.items ≡ line.old.items ++ table_fields fault) }
{
    match fault {
        TableFault::NotJson => Ok(()),
        TableFault::BadShape { path } => push_field(line, "path", path.path().as_bytes()),
        TableFault::BadReference { id, size } => {
            push_number(alloc, line, "id", id)?;
            push_number(alloc, line, "size", size)
        }
        TableFault::Version { found } => push_number(alloc, line, "found", found),
        TableFault::TooLong => Ok(()),
        TableFault::NoMemory => Err(NoMemory),
    }
}

/// Adds the fields of a fault of a file. Want of memory has none.
fn push_vcd_fields(alloc: Global, line: &mut Vec<u8>, fault: VcdFault) -> Result<(), NoMemory>
    ensures { OnOk result (line.new.items ≡ line.old.items ++ vcd_fields fault) }
{
    match fault {
        VcdFault::TooLong => Ok(()),
        VcdFault::BadWord { offset } => push_number(alloc, line, "offset", offset),
        VcdFault::CutShort => Ok(()),
        VcdFault::UnknownCode { offset } => push_number(alloc, line, "offset", offset),
        VcdFault::TooWide {
            offset,
            digits,
            size,
        } => {
            push_number(alloc, line, "offset", offset)?;
            push_number(alloc, line, "digits", digits)?;
            push_number(alloc, line, "size", u64::from(size))
        }
        VcdFault::TimeBack { offset, old, new } => {
            push_number(alloc, line, "offset", offset)?;
            push_number(alloc, line, "old", old)?;
            push_number(alloc, line, "new", new)
        }
        VcdFault::NoEndDefinitions => Ok(()),
        VcdFault::NoMemory => Err(NoMemory),
    }
}

/// Adds the fields of a fault of a binding. Want of memory has none.
fn push_bind_fields(alloc: Global, line: &mut Vec<u8>, fault: &BindFault) -> Result<(), NoMemory>
    ensures { OnOk result (line.new.items ≡ line.old.items ++ bind_fields fault.now) }
{
    match fault {
        BindFault::NoScope => Ok(()),
        BindFault::MissingSignal { name } => push_field(line, "name", name.bytes()),
        BindFault::SizeDiffers { name, have, want } => {
            push_field(line, "name", name.bytes())?;
            push_number(alloc, line, "have", u64::from(*have))?;
            push_number(alloc, line, "want", u64::from(*want))
        }
        BindFault::NoMemory => Err(NoMemory),
    }
}

/// Adds the fields of a refusal of a value change dump file. Want of memory has none.
pub(crate) fn push_trace_fields(
    alloc: Global,
    line: &mut Vec<u8>,
    fault: &TraceFault,
) -> Result<(), NoMemory>
    ensures { OnOk result (line.new.items ≡ line.old.items ++ trace_fields fault.now) }
{
    match fault {
        TraceFault::Vcd(fault) => push_vcd_fields(alloc, line, *fault),
        TraceFault::Bind(fault) => push_bind_fields(alloc, line, fault),
    }
}
