//! The number and the name that the line of a refused symbol file tells.

ghost use Rattle.std.specs.Prelude.{◌≡◌};
ghost use Rattle.trace_judge.specs.Refusals.{table_name as the_table_name, table_number as the_table_number};

use symtab_json::TableFault;

/// The number of a refusal of a symbol file, from 1 to 5; 0 for want of memory, which refuses no file.
pub fn table_number(fault: TableFault) -> u8
    ensures { result ≡ the_table_number fault }
{
    match fault {
        TableFault::NotJson => 1,
        TableFault::BadShape { .. } => 2,
        TableFault::BadReference { .. } => 3,
        TableFault::Version { .. } => 4,
        TableFault::TooLong => 5,
        TableFault::NoMemory => 0,
    }
}

/// The name of a refusal of a symbol file; none for want of memory.
pub fn table_name(fault: TableFault) -> &'static str
    ensures { result.now ≡ the_table_name fault }
{
    match fault {
        TableFault::NotJson => "NotJson",
        TableFault::BadShape { .. } => "BadShape",
        TableFault::BadReference { .. } => "BadReference",
        TableFault::Version { .. } => "Version",
        TableFault::TooLong => "TooLong",
        TableFault::NoMemory => "",
    }
}
