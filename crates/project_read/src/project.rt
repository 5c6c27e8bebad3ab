//! Reads the files of a design, one after the other by their numbers. A file's text is let go of before the next one is read.

ghost use Rattle.std.specs.Prelude.{◌≡◌, ◌<◌, ◌≤◌, [], ◌∷◌, IfOk, IfSome, IsErrOf, length};
ghost use Rattle.io_edge.specs.Faults.{Rose};
ghost use Rattle.io_edge.specs.Taken.{AppendsFront};
ghost use Rattle.io_edge.specs.Unread.{StopsAt};
ghost use Rattle.project_read.specs.Names.{names_in};
ghost use Rattle.project_read.specs.Projects.{TellsProject};
ghost use Rattle.project_read.specs.Asking.{AsksProject, AsksFront, IsFitProject, StopsInside};
ghost use Rattle.project_read.specs.Named.{NamesProject, sources_read};
ghost use Rattle.project_read.specs.Steps.{AsksName, IsNext, IsOfFile, TellsFile, TellsNext, name_at};

use crate::ProjectEnd;
use crate::names::{folder_of, number_all};
use gen_text::{TextFault, read_source};
use gen_tree::Source;
use io_edge::{Files, MOST_SOURCE, read_file};
use std::alloc::Global;

/// The files of a design: the sources that they are, and their names, both by their numbers.
#[derive(Drop)]
pub struct Project {
    pub sources: Vec<Source>,
    pub names: Vec<String>,
}

/// Reads the file of this name and this number: the source that it is, or why it is none.
fn read_one<F: Files>(
    alloc: Global,
    files: &mut F,
    name: &str,
    file: u32,
) -> Result<Source, ProjectEnd>
    requires { file < 64 }
    ensures told { IfSome (F.told files.old) (λ told. TellsFile (told name.now) file result) }
    ensures is { IsOfFile file result }
    ensures same { F.told files.new ≡ F.told files.old }
    ensures asked { AsksName name.now (F.asked files.old) (F.asked files.new) result }
    ensures front { AppendsFront (F.asked files.old) (F.asked files.new) (name.now ∷ []) }
    ensures failed { IsErrOf result ProjectEnd.ReadFault → Rose (F.fault_count files.old) (F.fault_count files.new) }
    ensures unread { IsErrOf result ProjectEnd.ReadFault → StopsAt F.asked F.fault_count files.old files.new (name.now ∷ []) }
    ensures later { F.fault_count files.old ≤ F.fault_count files.new }
{
    let fault = match read_file(alloc, files, name, MOST_SOURCE)? {
        Some(text) => match read_source(alloc, file, &text) {
            Ok(source) => return Ok(source),
            Err(TextFault::NoMemory) => return Err(ProjectEnd::NoMemory),
            Err(fault) => fault,
        },
        None => TextFault::TooLong,
    };
    Err(ProjectEnd::Text { file, fault })
}

/// Reads the file of this number, among the names that are numbered, and numbers its imports behind them.
fn read_next<F: Files>(
    alloc: Global,
    files: &mut F,
    folder: &str,
    names: &mut Vec<String>,
    file: u32,
) -> Result<Source, ProjectEnd>
    requires file { file < length names.old.items }
    requires few { length names.old.items ≤ 64 }
    ensures told { IfSome (F.told files.old) (λ told. TellsNext told folder.now (names_in names.old.items) file result (names_in names.new.items)) }
    ensures is { IsNext folder.now (names_in names.old.items) file result (names_in names.new.items) }
    ensures same { F.told files.new ≡ F.told files.old }
    ensures asked { AsksName (name_at (names_in names.old.items) file) (F.asked files.old) (F.asked files.new) result }
    ensures front { AppendsFront (F.asked files.old) (F.asked files.new) (name_at (names_in names.old.items) file ∷ []) }
    ensures failed { IsErrOf result ProjectEnd.ReadFault → Rose (F.fault_count files.old) (F.fault_count files.new) }
    ensures unread { IsErrOf result ProjectEnd.ReadFault → StopsAt F.asked F.fault_count files.old files.new (name_at (names_in names.old.items) file ∷ []) }
    ensures later { F.fault_count files.old ≤ F.fault_count files.new }
{
    let source = read_one(alloc, files, names[file as usize].as_str(), file)?;
    number_all(alloc, folder, &source.imports, names)?;
    Ok(source)
}

/// Reads the files of the design whose source has this name: the sources that they are, and their names, by their numbers. The source is
/// file 0, and `import x;` names the file `x.hg` in its folder, which gets the next number unless it has one. Files are taken by number;
/// each is read and judged, and then its imports are numbered in order.
///
/// Errors: `Text`, where a file has more than 1 MiB or is no source; `TooManyFiles`, at an import that names a 65th file; `ReadFault`,
/// where a file was not read; and `NoMemory`.
pub fn read_named<F: Files>(alloc: Global, files: &mut F, src: &str) -> Result<Project, ProjectEnd>
    ensures told { IfSome (F.told files.old) (λ told. TellsProject told src.now (sources_read result)) }
    ensures fit { IsFitProject (sources_read result) }
    ensures names { IfOk result (NamesProject (F.told files.old) src.now) }
    ensures same { F.told files.new ≡ F.told files.old }
    ensures asked { AsksProject (F.told files.old) src.now (F.asked files.old) (F.asked files.new) (sources_read result) }
    ensures front { AsksFront (F.told files.old) src.now (F.asked files.old) (F.asked files.new) }
    ensures failed { IsErrOf result ProjectEnd.ReadFault → Rose (F.fault_count files.old) (F.fault_count files.new) }
    ensures unread { IsErrOf result ProjectEnd.ReadFault → StopsInside (F.told files.old) src.now F.asked F.fault_count files.old files.new }
    ensures later { F.fault_count files.old ≤ F.fault_count files.new }
{
    let folder = folder_of(src);
    let mut names = vec![in alloc; String::from_str(alloc, src)?]?;
    let mut sources = Vec::new(alloc);
    while sources.len() < names.len() {
        let source = read_next(alloc, files, folder, &mut names, sources.len() as u32)?;
        sources.push(source)?;
    }
    Ok(Project { sources, names })
}

/// Reads the files of the design whose source has this name: the sources that they are, by their numbers. The source is file 0, and
/// `import x;` names the file `x.hg` in its folder, which gets the next number unless it has one. Files are taken by number; each is
/// read and judged, and then its imports are numbered in order.
///
/// Errors: `Text`, where a file has more than 1 MiB or is no source; `TooManyFiles`, at an import that names a 65th file; `ReadFault`,
/// where a file was not read; and `NoMemory`.
pub fn read_project<F: Files>(
    alloc: Global,
    files: &mut F,
    src: &str,
) -> Result<Vec<Source>, ProjectEnd>
    ensures told { IfSome (F.told files.old) (λ told. TellsProject told src.now result) }
    ensures fit { IsFitProject result }
    ensures same { F.told files.new ≡ F.told files.old }
    ensures asked { AsksProject (F.told files.old) src.now (F.asked files.old) (F.asked files.new) result }
    ensures front { AsksFront (F.told files.old) src.now (F.asked files.old) (F.asked files.new) }
    ensures failed { IsErrOf result ProjectEnd.ReadFault → Rose (F.fault_count files.old) (F.fault_count files.new) }
    ensures unread { IsErrOf result ProjectEnd.ReadFault → StopsInside (F.told files.old) src.now F.asked F.fault_count files.old files.new }
    ensures later { F.fault_count files.old ≤ F.fault_count files.new }
{
    match read_named(alloc, files, src) {
        Ok(project) => Ok(project.sources),
        Err(end) => Err(end),
    }
}
