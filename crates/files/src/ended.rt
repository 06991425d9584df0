//! How the files of a run ended, and what is said of that.

ghost use Rattle.std.specs.Prelude.{◌≡◌, [], Err, map, slice_index_or, string_bytes};
ghost use Rattle.messages.specs.Ends.{status_of_end};
ghost use Rattle.files.specs.Outputs.{IsFirstFault, first_end};

use crate::opening::Refused;
use messages::report;
use std::io::Eprint;
use teams::SessionOutput;

/// The name at a place, or nothing.
fn name_at(names: &[String], place: usize) -> &str
    ensures { result.now ≡ slice_index_or (map string_bytes names.now) place [] }
{
    match names.get(place) {
        Some(name) => name.as_str(),
        None => "",
    }
}

/// The first end that is none of all lines, and the name of its file.
fn first_fault<'a>(names: &'a [String], outputs: &[SessionOutput]) -> Option<Refused<'a>>
    ensures { IsFirstFault (map string_bytes names.now) outputs.now result }
{
    for (place, output) in outputs.iter().enumerate() {
        if let Err(why) = output.ended {
            let name = name_at(names, place);
            return Some(Refused { name, why });
        }
    }
    None
}

/// Says how files ended, and gives the exit status.
pub fn report_refused(rt: &impl Eprint, refused: Refused<'_>) -> u8
    ensures { result ≡ status_of_end (Err refused.entry.why) }
{
    report(rt, &Err(refused.why), refused.name)
}

/// Says how the files of these names ended that gave these outputs, and gives the exit status.
pub fn report_all(rt: &impl Eprint, names: &[String], outputs: &[SessionOutput]) -> u8
    ensures { result ≡ status_of_end (first_end outputs.now) }
{
    match first_fault(names, outputs) {
        Some(refused) => report_refused(rt, refused),
        None => report(rt, &Ok(()), ""),
    }
}
