//! The law of printed symbol files.

ghost use Rattle.table_laws.specs.ReadBack.{TableLinesReadBack};

/// The law that the symbol file of a compiled design whose names are texts, with a line feed behind it and of at most 64 MiB, tells
/// the table of the design. Computes nothing.
pub fn table_lines_read_back()
    ensures { TableLinesReadBack }
{}
