//! Tries journals on the lines of standard input, and prints what each line gives.
//!
//! - `stops CALL KEPT FILL GROUP..` begins a history and adds the groups to it, on a file that stops at a call, of
//!   whose last write KEPT bytes reach the disk; the others of its range are FILL, or stay where that is `-`. Then what
//!   is left is opened. A group is its rows, with `,` between them.
//! - `shuts CALL KEPT FILL BYTES` opens a file of these bytes, in base 16, which stops at a call, and then what is left.
//! - `begins END GROUP..` opens the first bytes of a history with these groups, `flips PLACE GROUP..` one of which a bit is
//!   another, and `opens BYTES` a file of these bytes.
//! - `makes PATH GROUP..` makes a history of this path, `rewrites PATH GROUP..` puts another into its place, `grows PATH`
//!   opens it, and `holds PATH` opens the file and holds it until the last line.
//!
//! What the lines should give comes from outside: `tests/journal` computes it.
#![tactic(auto)]

mod opened;
mod places;
mod stopping_file;
mod trials;

use crate::trials::answer_line;
use journal::SystemFile;

fn main(rt: HostRuntime) -> anyhow::Result<()> {
    let alloc = rt.alloc();
    let mut held: Option<SystemFile> = None;
    for line in rt.lines(alloc) {
        let line = line?;
        let mut text = String::new(alloc);
        answer_line(&rt, alloc, line.as_str(), &mut held, &mut text)?;
        println!(rt; "{text}")?;
    }
    Ok(())
}
