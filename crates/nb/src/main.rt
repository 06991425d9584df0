//! A builder for tests and examples: what it gives follows from its arguments and from what a builder is
//! given, the variable `out` and the file that the variable `INPUTS` names.
//!
//! | Arguments | What it writes to standard output |
//! |---|---|
//! | `text W ..` | the archive of a plain file with the words, one blank between two |
//! | `self` | the archive of a plain file with the value of `out` |
//! | `inputs` | the archive of a plain file with the path of each input and a newline behind it |
//! | `fail N` | nothing, and it ends with the status N, 1 to 255 |
//! | `half` | the first 50 bytes of the archive of an empty plain file |
//! | `twice` | the archive of an empty plain file, two times |
//!
//! With any other arguments it ends with status 2, and with 3 where it cannot read its inputs or cannot
//! write.
#![tactic(auto)]

mod inputs;
mod outcome;
mod task;

use crate::outcome::{CANNOT_READ_OR_WRITE, Outcome, outcome_of};
use crate::task::{Task, task_of};
use model::Refusal;
use std::env::Env;
use std::fs::Files;
use std::io::{ErrorKind, Write};
use std::process::ExitCode;
use std::{env, fs, io};

/// The bytes of the file of inputs, where it is to be read and can be.
fn inputs_for<R: Env + Files + AllocGlobal>(rt: &R, arguments: &[String]) -> Option<Vec<u8>> {
    match task_of(arguments) {
        Some(Task::Inputs) => {
            let file = env::var(rt, "INPUTS").ok()?;
            fs::read(rt, file).ok()
        }
        _ => None,
    }
}

/// The path of what is built. Where there is none, it is empty.
fn own_path<R: Env + AllocGlobal>(rt: &R) -> Result<String, Refusal> {
    match env::var(rt, "out") {
        Ok(path) => Ok(path),
        Err(env::VarError::NotPresent) => Ok(String::new(rt.alloc())),
        Err(_) => Err(Refusal::Memory),
    }
}

/// What a run with these arguments gives.
fn built<R: Env + Files + AllocGlobal>(rt: &R, arguments: &[String]) -> Result<Outcome, Refusal> {
    let out = own_path(rt)?;
    let inputs = inputs_for(rt, arguments);
    outcome_of(rt.alloc(), arguments, out.as_bytes(), inputs.as_deref())
}

/// Writes what a run gives, and tells its status.
fn run<R: Env + Files + Print + AllocGlobal>(rt: &R) -> io::Result<u8> {
    let words: Vec<String> = env::args(rt)?.collect(rt.alloc())?;
    let arguments = words.get(1..).unwrap_or(&[]);
    let Ok(Outcome { written, status }) = built(rt, arguments) else {
        return Err(io::Error::from(ErrorKind::OutOfMemory));
    };
    let mut writer = io::writer(rt);
    writer.write_all(&written)?;
    writer.flush()?;
    Ok(status)
}

fn main(rt: HostRuntime) -> ExitCode {
    ExitCode::from(run(&rt).unwrap_or(CANNOT_READ_OR_WRITE))
}
