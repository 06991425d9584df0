//! Where a history lies in the file system.

use crate::system_file::SystemFile;
use std::alloc::{AllocError, Global};
use std::fs;
use std::fs::{File, Files, OpenOptions, TryLockError};
use std::io::{self, ErrorKind};
use std::os::unix::fs::{MetadataExt, OpenOptionsExt};
use std::path::Path;

/// Why a file is not reached.
#[derive(Debug, Drop)]
pub enum PlaceError {
    /// There is no file of that name.
    Absent,
    /// There is one already.
    Present,
    /// The name is that of a link, a folder or a device.
    NoPlainFile,
    /// Another process holds it, or this one does.
    Busy,
    /// A call of the system failed.
    Io(io::Error),
}

impl From<io::Error> for PlaceError {
    fn from(error: io::Error) -> PlaceError {
        PlaceError::Io(error)
    }
}

/// The names of a history: its file, what is written before that stands whole, and the folder of both.
#[derive(Drop)]
pub struct Place {
    file: String,
    draft: String,
    folder: String,
}

impl Place {
    /// Those for a file of this path. The draft has `.new` behind it.
    pub fn new(alloc: Global, path: &str) -> Result<Place, AllocError> {
        let folder = match Path::new(path).parent() {
            Some(folder) if !folder.as_str().is_empty() => folder.as_str(),
            _ => ".",
        };
        Ok(Place {
            file: String::from_str(alloc, path)?,
            draft: format!(in alloc; "{path}.new")?,
            folder: String::from_str(alloc, folder)?,
        })
    }

    /// Opens the file and locks it. It is never reached through a link.
    ///
    /// # Errors
    /// `Absent`, `NoPlainFile`, `Busy` and `Io`.
    pub fn open<R: Files<File = File>>(&self, rt: &R) -> Result<SystemFile, PlaceError> {
        Ok(SystemFile::new(open_locked(rt, self.file.as_str())?))
    }

    /// Makes an empty draft with the mode 0600, and locks it. One that nobody holds is removed before.
    ///
    /// # Errors
    /// `Present` where the file is there, `NoPlainFile`, `Busy` and `Io`.
    pub fn create<R: Files<File = File>>(&self, rt: &R) -> Result<SystemFile, PlaceError> {
        self.look_absent(rt)?;
        let draft = self.make_draft(rt)?;
        // Whoever held a draft before may have published it.
        self.look_absent(rt)?;
        Ok(draft)
    }

    /// The same where the file is there, which is held.
    ///
    /// # Errors
    /// `NoPlainFile`, `Busy` and `Io`.
    pub fn rewrite<R: Files<File = File>>(
        &self,
        rt: &R,
        _held: &SystemFile,
    ) -> Result<SystemFile, PlaceError> {
        self.make_draft(rt)
    }

    /// Gives a draft, which is held and was synced, the name of the file, and syncs the folder.
    ///
    /// # Errors
    /// `Io`.
    pub fn publish<R: Files<File = File>>(&self, rt: &R) -> Result<(), PlaceError> {
        fs::rename(rt, self.draft.as_str(), self.file.as_str())?;
        Ok(File::open(rt, self.folder.as_str())?.sync_all()?)
    }

    /// Fails where something has the name of the file.
    fn look_absent<R: Files<File = File>>(&self, rt: &R) -> Result<(), PlaceError> {
        match fs::symlink_metadata(rt, self.file.as_str()) {
            Ok(_) => Err(PlaceError::Present),
            Err(error) if error.kind() == ErrorKind::NotFound => Ok(()),
            Err(error) => Err(PlaceError::Io(error)),
        }
    }

    /// An empty file of the draft's name, locked.
    fn make_draft<R: Files<File = File>>(&self, rt: &R) -> Result<SystemFile, PlaceError> {
        let draft = self.draft.as_str();
        match open_locked(rt, draft) {
            Ok(_stale) => fs::remove_file(rt, draft)?,
            Err(PlaceError::Absent) => {}
            Err(error) => return Err(error),
        }
        let made = OpenOptions::new()
            .read(true)
            .write(true)
            .create_new(true)
            .mode(0o600)
            .open(rt, draft);
        match made {
            Ok(file) => Ok(SystemFile::new(locked(rt, draft, file)?)),
            Err(error) if error.kind() == ErrorKind::AlreadyExists => Err(PlaceError::Busy),
            Err(error) => Err(PlaceError::Io(error)),
        }
    }
}

/// Opens a file of this name and locks it.
fn open_locked<R: Files<File = File>>(rt: &R, path: &str) -> Result<File, PlaceError> {
    match fs::symlink_metadata(rt, path) {
        Ok(found) if found.is_file() => {}
        Ok(_) => return Err(PlaceError::NoPlainFile),
        Err(error) if error.kind() == ErrorKind::NotFound => return Err(PlaceError::Absent),
        Err(error) => return Err(PlaceError::Io(error)),
    }
    let file = OpenOptions::new().read(true).write(true).open(rt, path)?;
    locked(rt, path, file)
}

/// Locks an open file, and looks whether it still has its name: whoever held it before may have given the name to
/// another file, or a link stands there.
fn locked<R: Files<File = File>>(rt: &R, path: &str, file: File) -> Result<File, PlaceError> {
    match file.try_lock() {
        Ok(()) => {}
        Err(TryLockError::WouldBlock) => return Err(PlaceError::Busy),
        Err(TryLockError::Error(error)) => return Err(PlaceError::Io(error)),
    }
    let named = fs::symlink_metadata(rt, path)?;
    let held = file.metadata()?;
    if named.is_file() && named.dev() == held.dev() && named.ino() == held.ino() {
        Ok(file)
    } else {
        Err(PlaceError::NoPlainFile)
    }
}
