//! Running the lines of one input.

ghost use Rattle.std.specs.Prelude.{◌≡◌, ◌≤◌, ◌⊎◌, [], OnOk, IfErr};
ghost use Rattle.model.specs.Limits.{most_charge};
ghost use Rattle.model.specs.Worlds.{nothing};
ghost use Rattle.schedule.specs.Standing.{setup_of, world_of, stored_in};
ghost use Rattle.model.specs.declared.refusal.Refusal.TheVariants.{InputFault, OutputFault};
ghost use Rattle.session.specs.Serving.{EndsByCounts, HasFailed, IsOwn, IsShown, MayBeFault};
ghost use Rattle.replaying.specs.ServingOn.{ServesOn, ServesOnInPart, ServesOnSoFar};
ghost use Rattle.replaying.specs.Ended.{RepliesToAll, RepliesInPart, RepliesSoFar};
ghost use Rattle.history.specs.NewFronts.{AreTokensOf};

use crate::one_pass::OnePass;
use crate::settings::Settings;
use book::{Front, FrontId, FrontTokens};
use model::Refusal;
use schedule::Core;
use session::{Begun, Faults, Head, Mode, flush_after, serve_head, serve_on};
use std::alloc::Global;
use std::io::{Read, Write};
use std::marker::Brand;
use std::mem;
use std::sync::Wait;

/// What a new front begins with.
#[derive(Drop)]
struct NewFront {
    /// Its tokens.
    blank: FrontTokens,
    /// Its core.
    core: Core,
    /// Whether it is swept after each event that is no query.
    sweeps: bool,
}

/// Answers the lines behind the first ones, of what was read behind those and of the reader, by a new core,
/// behind a lock that one pass takes. Neither the store nor what is kept of the lines is taken apart at the end:
/// the program ends with them, and their memory is given back at once.
fn serve_core<J: FrontId, H: Wait, R: Read + Faults, W: Write + Faults>(
    rt: &H,
    alloc: Global,
    new: NewFront,
    mut begun: Begun,
    reader: &mut R,
    writer: &mut W,
) -> Result<(), Refusal>
    requires blank { AreTokensOf J.name J.parts J.stops J.table J.book new.blank }
    requires parts { J.parts ≡ 1 }
    requires core { (setup_of new.core ≡ J.setup) × (world_of new.core ≡ nothing)
        × (stored_in new.core ≡ []) }
    ensures ok { OnOk result (ServesOn J.setup begun.session begun.rest.items
        (R.remaining reader.old) (R.remaining reader.new) (W.contents writer.old) (W.contents writer.new)) }
    ensures err { IfErr result (ServesOnInPart J.setup begun.session begun.rest.items
        (R.remaining reader.old) (R.remaining reader.new) (W.contents writer.old) (W.contents writer.new)) }
    ensures failed { IfErr result (λ why. why ≡ InputFault → ServesOnSoFar J.setup begun.session begun.rest.items
        (R.remaining reader.old) (R.remaining reader.new) (W.contents writer.old) (W.contents writer.new)) }
    ensures whole { OnOk result (¬ HasFailed begun.reader_failures (R.failed reader.new)) }
    ensures errors { IfErr result (λ why. (why ≡ InputFault) ⊎ IsOwn why) }
    ensures output_fault { IfErr result (MayBeFault OutputFault begun.writer_failures (W.failed writer.new)) }
{
    let NewFront {
        blank,
        core,
        sweeps,
    } = new;
    let (front, mut passes) = Front::<J>::new(rt, alloc, blank, core, 1)?;
    let pass = passes.pop().unwrap();
    let mut store = OnePass {
        rt,
        front,
        pass,
        sweeps,
        has_lacked: false,
    };
    let ended = serve_on(alloc, &mut begun, reader, writer, &mut store);
    mem::forget(store);
    mem::forget(begun);
    ended
}

/// Answers the lines that a reader gives, in a store for the users whom they name first and under these
/// limits, and writes the replies. The writer is left to be flushed.
fn answer_input<H: Wait, R: Read + Faults, W: Write + Faults>(
    rt: &H,
    alloc: Global,
    settings: Settings,
    sweeps: bool,
    reader: &mut R,
    writer: &mut W,
) -> Result<(), Refusal>
    requires { settings.limits.charge ≤ most_charge }
    ensures ok { RepliesToAll settings.limits.charge result
        (R.remaining reader.old) (W.contents writer.old) (W.contents writer.new) }
    ensures err { RepliesInPart settings.limits.charge result
        (R.remaining reader.old) (W.contents writer.old) (W.contents writer.new) }
    ensures failed { RepliesSoFar settings.limits.charge result
        (R.remaining reader.old) (R.remaining reader.new) (W.contents writer.old) (W.contents writer.new) }
    ensures whole { OnOk result (¬ HasFailed (R.failed reader.old) (R.failed reader.new)) }
    ensures errors { IfErr result (λ why. (why ≡ InputFault) ⊎ IsOwn why) }
    ensures output_fault { IfErr result (MayBeFault OutputFault (W.failed writer.old) (W.failed writer.new)) }
{
    let head = serve_head(alloc, Mode::Service, reader, writer)?;
    let Head { begun, users } = head;
    let Some(users) = users else {
        return Ok(());
    };
    let core = Core::new(alloc, settings.hashing, users, settings.limits)?;
    let blank = FrontTokens::new(alloc, 1)?;
    let new = NewFront {
        blank,
        core,
        sweeps,
    };
    serve_core::<Brand, _, _, _>(rt, alloc, new, begun, reader, writer)
}

/// Answers the lines that a reader gives, in a store for the users whom they name first and under
/// these limits, and writes the replies. What is written is flushed before more is read, so that whoever waits
/// for a reply before the next line comes has it; and at the end, whatever that is, but for a failure of the writer.
///
/// Where it sweeps, what nobody holds is given back after each event that is no query, as far as there is
/// memory to find it. What is promised of the text is the same.
///
/// # Errors
///
/// The counts of failures are looked at again at the end.
///
/// - `BadUsers` where the line of users is refused.
/// - `InputFault` only where the reader failed during the call by its count. Then the lines that were read
///   whole are answered, and all of their text is written.
/// - `OutputFault` only where the writer failed during the call by its count.
/// - `Memory` where memory was refused and no event can be answered for it, or where the count of the reader
///   does not show its failure any more; and only where the writer's count shows no failure.
pub fn replay<H: Wait, R: Read + Faults, W: Write + Faults>(
    rt: &H,
    alloc: Global,
    settings: Settings,
    sweeps: bool,
    reader: &mut R,
    writer: &mut W,
) -> Result<(), Refusal>
    requires { settings.limits.charge ≤ most_charge }
    // What a reader gives all of whose bytes are known, is answered to its end.
    ensures ok { RepliesToAll settings.limits.charge result
        (R.remaining reader.old) (W.contents writer.old) (W.contents writer.new) }
    // Else its first lines are.
    ensures err { RepliesInPart settings.limits.charge result
        (R.remaining reader.old) (W.contents writer.old) (W.contents writer.new) }
    // Where the reader failed, these are the lines that were read whole, and all of their text.
    ensures failed { RepliesSoFar settings.limits.charge result
        (R.remaining reader.old) (R.remaining reader.new) (W.contents writer.old) (W.contents writer.new) }
    ensures errors { IfErr result (λ why. (why ≡ InputFault) ⊎ IsOwn why) }
    ensures counts { EndsByCounts result (R.failed reader.old) (R.failed reader.new)
        (W.failed writer.old) (W.failed writer.new) }
    ensures shown { IsShown result (W.failed writer.old) (W.failed writer.new) }
{
    let reader_before = reader.failures();
    let writer_before = writer.failures();
    let ended = answer_input(rt, alloc, settings, sweeps, reader, writer);
    flush_after(reader, reader_before, writer, writer_before, ended)
}
