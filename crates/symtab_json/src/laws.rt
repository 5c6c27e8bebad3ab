//! What holds of symbol files by their definitions alone.

ghost use Rattle.symtab_json.specs.Laws.{LiteralsAreShown, TablesAreTold};
ghost use Rattle.symtab_json.specs.ReadBack.{FilesReadBack};
ghost use Rattle.symtab_json.specs.Sample.{sample_is_written};
ghost use Rattle.symtab_json.specs.Versions.{VersionsTellOneTable, VersionsTellOneTree};

/// The symbol file of a design of five statements, worked by hand, is what the definitions give. Computes nothing.
pub fn writes_the_sample()
    ensures { sample_is_written }
{}

/// The symbol file of the parts of a table, whose names are UTF-8, tells these parts when it is read, up to 64 MiB. So what
/// `read_table` gives of what `write_table` gave is the same table, or want of memory. Computes nothing.
pub fn files_read_back()
    ensures { FilesReadBack }
{}

/// A text in a cell is read as a value exactly where it is what the value is printed as. Computes nothing.
pub fn literals_are_shown()
    ensures { LiteralsAreShown }
{}

/// The parts that a text tells keep every rule of a table. Computes nothing.
pub fn tables_are_told()
    ensures { TablesAreTold }
{}

/// A file of version 1, and one of version 2 that differs from it in `"version"` and in `"file":0` of each slot alone, tell one table, or are
/// refused for one reason: as values, and as texts of at most 64 MiB. Computes nothing.
pub fn versions_tell_one_table()
    ensures tree { VersionsTellOneTree }
    ensures table { VersionsTellOneTable }
{}
