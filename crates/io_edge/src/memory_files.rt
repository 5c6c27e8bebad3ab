//! Files in memory with made faults, by which tests show what is asked for and what stands after a read that failed.

ghost use Rattle.std.specs.Prelude.{◌≡◌, ◌≤◌, [], map, string_bytes, length, Some, None, IfOk, IsErrOf};
ghost use Rattle.std.specs.Option.{option_map};
ghost use Rattle.io_edge.specs.Faults.{Rose};
ghost use Rattle.io_edge.specs.Files.{Answers, Reads, asked_after, file_of, contents};
ghost use Rattle.io_edge.specs.MemoryFiles.{found_by, after_read};

use crate::{FileEnd, Files};
use std::alloc::Global;
use std::marker::Model;
use text_core::NoMemory;

/// Files in memory, which tell all of their meanings. A read fails where its number is one of those that they are made
/// to fail in, and where no file has its name, and in no other case. The count of faults rises by one in each of these.
#[derive(Drop)]
pub struct MemFiles {
    files: Vec<(String, Vec<u8>)>,
    failing: Vec<u64>,
    asked: Vec<String>,
    faults: u64,
}

impl Model for MemFiles {
    ghost use Rattle.std.specs.Prelude.{map, string_bytes};
    ghost use Rattle.io_edge.specs.Files.{contents};
    ghost use Rattle.io_edge.specs.MemoryFiles.{FilesInMemory};

    ghost Value = { FilesInMemory };

    ghost view = { λ f. record {
      files = contents f.files.items;
      failing = f.failing.items;
      asked = map (λ name. string_bytes name) f.asked.items;
      faults = f.faults;
    } };
}

/// The bytes of the first file of that name.
fn find<'a>(files: &'a [(String, Vec<u8>)], name: &str) -> Option<&'a [u8]>
    ensures { option_map (λ bytes. bytes.now) result ≡ file_of (contents files.now) name.now }
{
    for file in files {
        if file.0.as_str() == name {
            return Some(&file.1);
        }
    }
    None
}

impl MemFiles {
    /// These files, by their names and bytes; of several files of one name the first counts. The calls of `read_all`
    /// whose number is in `failing` fail. A call's number is how many names were asked for before it.
    pub fn new(
        alloc: Global,
        files: Vec<(String, Vec<u8>)>,
        failing: Vec<u64>,
    ) -> Result<MemFiles, NoMemory>
        ensures { IfOk result (λ made. made ≡ record { files = contents files.items; failing = failing.items; asked = []; faults = 0 }) }
    {
        Ok(MemFiles {
            files,
            failing,
            asked: Vec::new(alloc),
            faults: 0,
        })
    }

    /// The names that were asked for, in order.
    pub fn asked(&self) -> &[String]
        ensures { map (λ name. string_bytes name) result.now ≡ self.now.asked }
    {
        &self.asked
    }

    /// The bytes that the next call finds for a name, if it is not to fail.
    fn found(&self, name: &str) -> Option<&[u8]>
        ensures { option_map (λ bytes. bytes.now) result ≡ found_by self.now name.now }
    {
        let call = self.asked.len() as u64;
        if self.failing.contains(&call) {
            return None;
        }
        find(&self.files, name)
    }
}

impl Files for MemFiles {
    ghost told = { λ f. Some (file_of f.files) };

    ghost asked = { λ f. Some f.asked };

    ghost fault_count = { λ f. f.faults };

    fn faults(&self) -> u64 {
        self.faults
    }

    fn read_all(&mut self, alloc: Global, name: &str, most: usize) -> Result<Vec<u8>, FileEnd>
        // What the call finds decides its answer, and the answer what it leaves.
        ensures answer { Answers (found_by self.old name.now) most result }
        ensures fault { IsErrOf result FileEnd.Failed → found_by self.old name.now ≡ None }
        ensures after { self.new ≡ after_read name.now result self.old }

        // What holds of all files.
        ensures bytes { Reads (file_of self.old.files) name.now most result }
        ensures within { IfOk result (λ bytes. length bytes.items ≤ most) }
        ensures same { self.new.files ≡ self.old.files }
        ensures asked { self.new.asked ≡ asked_after name.now result self.old.asked }
        ensures later { self.old.faults ≤ self.new.faults }
        ensures failed { IsErrOf result FileEnd.Failed → Rose self.old.faults self.new.faults }
    {
        let answer = match self.found(name) {
            None => Err(FileEnd::Failed),
            Some(bytes) if bytes.len() > most => Err(FileEnd::TooLong),
            Some(bytes) => Ok(bytes.to_vec(alloc)?),
        };
        self.asked.push(String::from_str(alloc, name)?)?;
        if let Err(FileEnd::Failed) = &answer {
            self.faults = self.faults.saturating_add(1);
        }
        answer
    }
}
