//! The standard streams, and what is read beside the files of a run.

use command_line::Run;
use messages::{Explained, Fault, Lines};
use session::Counted;
use std::alloc::AllocError;
use std::fs::{File, Files};
use std::io::{BufReader, BufWriter, ErrorKind, Printer};
use std::os::fd::{AsRawFd, RawFd};
use std::{fs, io};

/// The descriptors of the standard streams are those below this one.
const STANDARD_STREAMS: RawFd = 3;

/// Opens `/dev/null` in the place of each standard stream that was closed when the program started, as long
/// as what is given is held: so no other file gets the descriptor of one, and with it what is written there.
/// What is read there is empty, and what is written there is refused, as where it is closed.
pub(crate) fn hold_closed_streams(rt: &HostRuntime) -> Result<Vec<File>, AllocError> {
    let mut held = Vec::new(rt.alloc());
    for _ in 0..STANDARD_STREAMS {
        let Ok(file) = fs::open(rt, "/dev/null") else {
            return Ok(held);
        };
        if file.as_raw_fd() >= STANDARD_STREAMS {
            return Ok(held);
        }
        held.push(file)?;
    }
    Ok(held)
}

/// Whether there is a folder of that name, as far as there is memory to tell.
fn is_folder(rt: &HostRuntime, name: &str) -> bool {
    match fs::metadata(rt, name) {
        Ok(found) => found.is_dir(),
        Err(error) => error.kind() == ErrorKind::OutOfMemory,
    }
}

/// Says on standard error that a folder cannot be used, where it cannot. What cannot be said is let go.
fn tell_missing_folder(rt: &HostRuntime, name: &str) {
    if !is_folder(rt, name) {
        let _ = rt.eprintln(Fault::NoFolder(name));
    }
}

/// Says on standard error which folders of a run cannot be used, in a line for each.
pub(crate) fn tell_missing_folders(rt: &HostRuntime, run: &Run) {
    let builders = run.builders.as_str();
    let work = run.work.as_str();
    tell_missing_folder(rt, builders);
    if work != builders {
        tell_missing_folder(rt, work);
    }
    if let Some(logs) = &run.logs {
        let logs = logs.as_str();
        if logs != builders && logs != work {
            tell_missing_folder(rt, logs);
        }
    }
}

/// The lines of a file, to be read beside another reader of it: of a file that is no pipe and no terminal, where it
/// can be opened.
fn lines_beside(rt: &HostRuntime, name: &str) -> io::Result<Option<Lines<BufReader<File>>>> {
    match fs::metadata(rt, name) {
        Ok(found) if found.is_file() => {}
        _ => return Ok(None),
    }
    match fs::open(rt, name) {
        Ok(file) => Ok(Some(Lines::new(BufReader::new(rt.alloc(), file)?))),
        Err(_) => Ok(None),
    }
}

/// Standard output, with what each refusal among the replies to the lines of this file means.
pub(crate) fn explained<'a>(
    rt: &'a HostRuntime,
    name: &str,
) -> io::Result<Explained<BufWriter<Printer<'a, HostRuntime>>, BufReader<File>>> {
    let writer = BufWriter::new(rt.alloc(), io::writer(rt))?;
    Ok(Explained::new(rt.alloc(), writer, lines_beside(rt, name)?))
}

/// Standard output.
pub(crate) fn output(rt: &HostRuntime) -> io::Result<Counted<BufWriter<Printer<'_, HostRuntime>>>> {
    Ok(Counted::new(BufWriter::new(rt.alloc(), io::writer(rt))?))
}
