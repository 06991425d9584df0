//! A file of the system.

ghost use Rattle.std.specs.Prelude.{[]};
ghost use Rattle.journal.specs.LogFile.{HasCause};

use crate::log_file::{LogError, LogFile};
use std::alloc::Global;
use std::fs::File;
use std::io::{self, Read, Seek, SeekFrom};
use std::os::unix::fs::FileExt;

/// A file of the system, of which nothing is known: no clause says what the system does. Each method makes the call
/// that its name says.
#[derive(Drop)]
pub struct SystemFile {
    file: File,
    failures: u64,
}

impl SystemFile {
    /// A file that is open for reading and writing.
    pub fn new(file: File) -> SystemFile {
        SystemFile { file, failures: 0 }
    }

    /// Counts a failure.
    fn told<T: Drop>(&mut self, ended: io::Result<T>) -> Result<(), LogError>
        ensures { HasCause self.old.failures self.new.failures result }
    {
        match ended {
            Ok(_) => Ok(()),
            Err(_) => {
                self.failures = self.failures.saturating_add(1);
                Err(LogError::Failed)
            }
        }
    }
}

impl LogFile for SystemFile {
    ghost is_honest = { λ _. ⊥ };

    ghost seen = { λ _. [] };

    ghost may_leave = { λ _ _. ⊥ };

    ghost moment = { λ _. 0 };

    ghost left_since = { λ _ _ _. ⊥ };

    ghost faults = { λ file. file.failures };

    ghost counts_now = { λ file t c le left. left };

    ghost only_now = { λ file c left. left };

    fn read(&mut self, alloc: Global, at: usize, most: usize) -> Result<Vec<u8>, LogError> {
        let mut bytes = Vec::new(alloc);
        let sought = self.file.seek(SeekFrom::Start(at as u64));
        self.told(sought)?;
        let read = self.file.by_ref().take(most as u64).read_to_end(&mut bytes);
        self.told(read)?;
        Ok(bytes)
    }

    fn write_at(&mut self, at: usize, bytes: &[u8]) -> Result<(), LogError> {
        let written = self.file.write_all_at(bytes, at as u64);
        self.told(written)
    }

    fn cut(&mut self, len: usize) -> Result<(), LogError> {
        let cut = self.file.set_len(len as u64);
        self.told(cut)
    }

    fn sync(&mut self) -> Result<(), LogError> {
        let synced = self.file.sync_data();
        self.told(synced)
    }
}
