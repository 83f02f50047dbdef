//! Files in memory, with planned faults.
ghost use Rattle.std.specs.Prelude.{◌≡◌, ◌<◌, ◌≤◌, ◌↔◌, length, vec_len, IfOk, IsErrOf, IsTrue, Some, position, string_bytes, bytes_eq};
ghost use Rattle.wire.specs.Causes.{NoneFell, Rose};
ghost use Rattle.wire.specs.Contents.{TellsMoreThan};
ghost use Rattle.wire.specs.FilesInMemory.{named_bytes, place_of};

use crate::faults::{count_fault, is_planned};
use crate::{FileError, Files};
use std::alloc::{AllocError, Global};
use std::marker::Model;

/// Files in memory, for tests. They tell their content, and fail at the planned reads and at names
/// that no file has.
#[derive(Drop)]
pub struct MemFiles {
    files: Vec<(String, Vec<u8>)>,
    fails: Vec<u64>,
    calls: u64,
    faults: Vec<u64>,
}

impl Model for MemFiles {
    ghost use Rattle.std.specs.Prelude.{◌≡◌, ◌+◌, vec_len};
    ghost use Rattle.wire.specs.FilesInMemory.{FilesInMemory, named_bytes};

    ghost Value = { FilesInMemory };

    ghost view = { λ memory. record {
      files = named_bytes memory.files.items;
      fails = memory.fails.items;
      calls = memory.calls;
      faults = memory.faults.items;
    } };

    ghost invariant = { λ memory. vec_len memory.faults ≡ vec_len memory.files + 1 };
}

impl MemFiles {
    ghost use Rattle.wire.specs.FilesInMemory.{HasNoFault, NamesDiffer, TellsEach, TellsNoOther};
    ghost use Rattle.wire.specs.FilesInMemory.{faults_of, named_bytes, new_files};

    /// Files with these names and bytes. `fails` lists the numbers of the reads that fail; the
    /// first read is number 1.
    ///
    /// # Errors
    ///
    /// `AllocError` if memory runs out.
    pub fn new(
        alloc: Global,
        files: Vec<(String, Vec<u8>)>,
        fails: Vec<u64>,
    ) -> Result<MemFiles, AllocError>
        requires { NamesDiffer files.items }
        ensures value { IfOk result (λ memory.
            memory ≡ new_files (named_bytes files.items) fails.items) }
        ensures told { IfOk result (λ memory. TellsEach memory files.items) }
        ensures untold { IfOk result (λ memory. TellsNoOther memory files.items) }
        ensures counts { IfOk result HasNoFault }
    {
        Ok(MemFiles {
            faults: vec![in alloc; 0; files.len() + 1]?,
            files,
            fails,
            calls: 0,
        })
    }

    /// How often reading this name has failed, or, if no file has it, reading any such name.
    pub fn fault_count(&self, name: &str) -> u64
        ensures { result ≡ faults_of self.now name.now }
    {
        self.faults[place_in(&self.files, name)]
    }
}

// The first file of this name.
fn find(files: &[(String, Vec<u8>)], name: &str) -> Option<usize>
    ensures { result ≡ position (λ file. bytes_eq (string_bytes file.0) name.now) files.now }
{
    files.iter().position(|file| file.0.as_str() == name)
}

// The index of a name among the files, or their number if no file has it.
fn place_in(files: &[(String, Vec<u8>)], name: &str) -> usize
    ensures place { result ≡ place_of (named_bytes files.now) name.now }
    ensures within { result ≤ length files.now }
{
    find(files, name).unwrap_or(files.len())
}

// Copies these bytes, at most `limit`.
fn copy_within(alloc: Global, bytes: &[u8], limit: usize) -> Result<Vec<u8>, FileError>
    ensures within { IfOk result (λ copy. vec_len copy ≤ limit) }
    ensures bytes { IfOk result (λ copy. copy.items ≡ bytes.now) }
    ensures too_long { IsErrOf result FileError.TooLong → limit < length bytes.now }
    ensures no_fault { IsErrOf result FileError.Failed → ⊥ }
{
    if bytes.len() > limit {
        return Err(FileError::TooLong);
    }
    Ok(bytes.to_vec(alloc)?)
}

impl Files for MemFiles {
    ghost use Rattle.wire.specs.FilesInMemory.{content_of, faults_of, files_told, read_fails, with_read, with_fault_at};

    ghost at = { files_told };

    fn read_all(&mut self, alloc: Global, name: &str, limit: usize) -> Result<Vec<u8>, FileError>
        ensures within { IfOk result (λ bytes. vec_len bytes ≤ limit) }
        ensures bytes { IfOk result (λ bytes.
            content_of self.old.files name.now ≡ Some bytes.items) }
        ensures too_long { IsErrOf result FileError.TooLong
            → TellsMoreThan (content_of self.old.files name.now) limit }

        ensures fails { IsErrOf result FileError.Failed ↔ IsTrue (read_fails self.old name.now) }
        ensures failed { IsErrOf result FileError.Failed
            → self.new ≡ with_fault_at self.old name.now }
        ensures otherwise { (IsErrOf result FileError.Failed → ⊥) → self.new ≡ with_read self.old }

        ensures cause { IsErrOf result FileError.Failed
            → Rose (faults_of self.old name.now) (faults_of self.new name.now) }
        ensures later { NoneFell (faults_of self.old) (faults_of self.new) }
        ensures kept { self.new.files ≡ self.old.files }
    {
        self.calls = self.calls.saturating_add(1);
        let place = place_in(&self.files, name);
        if place == self.files.len() || is_planned(&self.fails, self.calls) {
            count_fault(&mut self.faults[place]);
            return Err(FileError::Failed);
        }
        copy_within(alloc, &self.files[place].1, limit)
    }
}
