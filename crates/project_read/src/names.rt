//! The names of the files of a design, and their numbers: each file is numbered once, by its name letter by letter.

ghost use Rattle.std.specs.Prelude.{◌≡◌, ◌≤◌, ◌-◌, ◌⊎◌, [], ◌∷◌, All, IfOk, IsUtf8, get_or, length, map, string_bytes, take};
ghost use Rattle.gen_tree.specs.View.{import_of};
ghost use Rattle.project_read.specs.Names.{file_name as the_file_name, folder_of as the_folder_of, has_number as the_has_number, names_in, numbered};
ghost use Rattle.project_read.specs.Steps.{TellsNumbers};

use crate::ProjectEnd;
use gen_tree::Import;
use places::FILES_MAX;
use std::alloc::Global;
use text_core::{NoMemory, Text};

/// How many bytes of a name are its folder: none, or those up to a slash.
fn folder_len(name: &[u8]) -> usize
    ensures within { result ≤ length name.now }
    ensures slash { (result ≡ 0) ⊎ (get_or name.now (result - 1) 0 ≡ 47) }
    ensures folder { take result name.now ≡ the_folder_of name.now }
{
    let mut end = name.len();
    while end > 0 && name[end - 1] != b'/' {
        end -= 1;
    }
    end
}

/// The folder of a name: it up to and with its last slash, or nothing.
pub(crate) fn folder_of(name: &str) -> &str
    ensures { result.now ≡ the_folder_of name.now }
{
    let (folder, _) = name.split_at(folder_len(name.as_bytes()));
    folder
}

/// The name of the file that an imported name stands for, in this folder.
fn file_name(alloc: Global, folder: &str, name: &[u8]) -> Result<String, NoMemory>
    requires { IsUtf8 name.now }
    ensures { IfOk result (λ file. string_bytes file ≡ the_file_name folder.now name.now) }
{
    let name = str::from_utf8(name).unwrap();
    Ok(format!(in alloc; "{folder}{name}.hg")?)
}

/// Whether the file of this name is numbered.
fn has_number(names: &[String], name: &str) -> bool
    ensures { result ≡ the_has_number (names_in names.now) name.now }
{
    for known in names {
        if known.as_str() == name {
            return true;
        }
    }
    false
}

/// Gives the file of an import the next number, unless it has one; or refuses it, where there are 64.
fn number(
    alloc: Global,
    folder: &str,
    import: &Import,
    names: &mut Vec<String>,
) -> Result<(), ProjectEnd>
    requires { IsUtf8 import.now.name }
    ensures { TellsNumbers (numbered folder.now (names_in names.old.items) (import_of import.now ∷ [])) result (names_in names.new.items) }
{
    let file = file_name(alloc, folder, import.name.bytes())?;
    if has_number(names, &file) {
        return Ok(());
    }
    if names.len() == FILES_MAX as usize {
        return Err(ProjectEnd::TooManyFiles {
            line: import.line,
            name: Text::new(alloc, import.name.bytes())?,
            limit: u64::from(FILES_MAX),
        });
    }
    names.push(file)?;
    Ok(())
}

/// Gives the files of imports the next numbers, in order, each that has none yet; or refuses the first that would be the 65th file.
pub(crate) fn number_all(
    alloc: Global,
    folder: &str,
    imports: &[Import],
    names: &mut Vec<String>,
) -> Result<(), ProjectEnd>
    requires { All (λ i. IsUtf8 i.name) imports.now }
    ensures { TellsNumbers (numbered folder.now (names_in names.old.items) (map import_of imports.now)) result (names_in names.new.items) }
{
    for import in imports {
        number(alloc, folder, import, names)?;
    }
    Ok(())
}
