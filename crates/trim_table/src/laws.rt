//! What holds of the tables of compiled designs by their definitions alone, and one worked by hand.

ghost use Rattle.trim_table.specs.Laws.{TrimmedAreTables};
ghost use Rattle.trim_table.specs.KeptTables.{CompiledTablesAreKept};
ghost use Rattle.trim_table.specs.Sample.{sample_is_told};

/// A table that tells an accepted design by the nodes of its kept trees keeps every rule of a symbol table. Computes nothing.
pub fn trimmed_are_tables()
    ensures { TrimmedAreTables }
{}

/// The table of a compiled design is the table that is defined of its design. Computes nothing.
pub fn compiled_tables_are_kept()
    ensures { CompiledTablesAreKept }
{}

/// The table that is defined of a design of two instances, worked by hand. Computes nothing.
pub fn tells_the_sample()
    ensures { sample_is_told }
{}
