//! Files that are read through another object, with a note of the sources that were imported and of the last file that was not read, so that their
//! names can be told once the run is over.

use io_edge::{FileEnd, Files, MOST_SOURCE};
use std::alloc::Global;

/// How many names are kept at most: those of the files that a design imports.
const NAMES: usize = 63;

/// Files, the names of the sources that were asked for behind the first one, and the name of the last file that was not read.
#[derive(Drop)]
pub struct NotedFiles<F> {
    files: F,
    begun: bool,
    imported: Vec<String>,
    missed: Option<String>,
}

/// Keeps a name, where there is room for it.
fn note(alloc: Global, name: &str, names: &mut Vec<String>) {
    if names.len() >= NAMES {
        return;
    }
    if let Ok(name) = String::from_str(alloc, name) {
        let _ = names.push(name);
    }
}

impl<F: Files> NotedFiles<F> {
    /// These files, as yet without a note.
    pub fn new(alloc: Global, files: F) -> NotedFiles<F> {
        NotedFiles {
            files,
            begun: false,
            imported: Vec::new(alloc),
            missed: None,
        }
    }

    /// The names of the sources that were asked for behind the first one, in order, as far as memory was there for them.
    pub fn imported(&self) -> &[String] {
        &self.imported
    }

    /// The name of the last file that was not read, where there is one and memory was there for it.
    pub fn missed(&self) -> Option<&str> {
        match &self.missed {
            Some(name) => Some(name.as_str()),
            None => None,
        }
    }
}

impl<F: Files> Files for NotedFiles<F> {
    ghost told = { λ f. F.told f.files };

    ghost asked = { λ f. F.asked f.files };

    ghost fault_count = { λ f. F.fault_count f.files };

    fn faults(&self) -> u64 {
        self.files.faults()
    }

    fn read_all(&mut self, alloc: Global, name: &str, most: usize) -> Result<Vec<u8>, FileEnd> {
        let answer = self.files.read_all(alloc, name, most);
        if most == MOST_SOURCE {
            if self.begun {
                note(alloc, name, &mut self.imported);
            }
            self.begun = true;
        }
        if let Err(FileEnd::Failed) = &answer {
            self.missed = String::from_str(alloc, name).ok();
        }
        answer
    }
}
