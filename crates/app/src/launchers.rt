//! The programs through which builders are started, as the machine has them.

use command_line::Run;
use std::alloc::AllocError;
use std::fs;
use std::io::ErrorKind;
use std::os::unix::fs::PermissionsExt;

/// The program that keeps builders to a limit.
const TIMEOUT: &str = "/usr/bin/timeout";

/// The folders in which a program is looked for whose name has no `/`.
const FOLDERS: [&str; 2] = ["/bin/", "/usr/bin/"];

/// Whether a file of that name may be executed by somebody, as far as there is memory to tell.
fn is_executable(rt: &HostRuntime, name: &str) -> bool {
    match fs::metadata(rt, name) {
        Ok(found) => found.is_file() && found.permissions().mode() & 0o111 != 0,
        Err(error) => error.kind() == ErrorKind::OutOfMemory,
    }
}

/// Whether there is a program of that name: the name of a file where it has a `/`, and else that of one in `/bin` or
/// `/usr/bin`.
fn is_program(rt: &HostRuntime, name: &str) -> Result<bool, AllocError> {
    if name.contains('/') {
        return Ok(is_executable(rt, name));
    }
    for folder in FOLDERS {
        let mut path = String::from_str(rt.alloc(), folder)?;
        path.push_str(name)?;
        if is_executable(rt, path.as_str()) {
            return Ok(true);
        }
    }
    Ok(false)
}

/// The first program through which builders of a run are to be started and which cannot be, if there is one.
pub(crate) fn missing_program<'a>(
    rt: &HostRuntime,
    run: &'a Run,
) -> Result<Option<&'a str>, AllocError> {
    if run.limit.is_some() && !is_program(rt, TIMEOUT)? {
        return Ok(Some(TIMEOUT));
    }
    match run.launcher.first() {
        Some(program) if !is_program(rt, program.as_str())? => Ok(Some(program.as_str())),
        _ => Ok(None),
    }
}
