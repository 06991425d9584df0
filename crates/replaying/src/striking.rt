//! Running those events of one input that can reach a user.

ghost use Rattle.std.specs.Prelude.{◌≡◌, ◌≤◌, ◌⊎◌, ℕ, List, Some, map, take, OnOk, OnErr, IfOk, IfErr};
ghost use Rattle.std.specs.Io.KnownBytes.{Appends};
ghost use Rattle.model.specs.Lines.{lines_of};
ghost use Rattle.model.specs.Limits.{most_charge};
ghost use Rattle.model.specs.Steps.{replies_to};
ghost use Rattle.model.specs.declared.refusal.Refusal.TheVariants.{InputFault, Memory, OutputFault};
ghost use Rattle.events.specs.Terms.{event_of, answer_of};
ghost use Rattle.events.specs.Ever.{run_of, why_untold};
ghost use Rattle.schedule.specs.Standing.{setup_for};
ghost use Rattle.session.specs.Serving.{EndsByCounts, HasFailed, IsShown, IsUnwritten};
ghost use Rattle.replaying.specs.BadLines.{end_of, ended_with};
ghost use Rattle.replaying.specs.Ended.{WritesForUser, WritesForUserInPart};
ghost use Rattle.replaying.specs.Recording.{IsFirstRun};
ghost use Rattle.replaying.specs.Striking.{Rerun, StrikeEndsBy, lines_under, struck};

use crate::bad_lines::BadLines;
use crate::first_run::first_run;
use crate::numbers::{FirstRun, Numbers};
use crate::settings::{Observer, Settings};
use lines::answer_text;
use model::Refusal;
use nar::has_failed;
use schedule::{Event, Reply, User, run};
use session::{Faults, flush_after, write_whole};
use std::alloc::Global;
use std::io::{BufReader, Read, Write};
use std::sync::Wait;

/// So many bytes are read at a time.
const CHUNK: usize = 65_536;

/// Those of some events that can reach a user: by trust that is ever given, or where it is timed, by trust that
/// is held at the times concerned.
fn strike_events(
    users: &[User],
    events: Vec<Event>,
    user: &User,
    timed: bool,
) -> Result<Vec<Event>, Refusal>
    ensures kept { IfOk result (λ kept. (charge : ℕ) → map event_of kept.items
        ≡ struck timed (run_of users.now charge) user.now (map event_of events.items)) }
    ensures refused { IfErr result (λ why. why_untold users.now user.now ≡ Some why) }
{
    if timed {
        schedule::strike_timed(users, events, user)
    } else {
        schedule::strike(users, events, user)
    }
}

/// The replies to those of some events that can reach a user, in a new store.
fn rerun(
    alloc: Global,
    settings: Settings,
    users: Vec<User>,
    events: Vec<Event>,
    user: &User,
    timed: bool,
) -> Result<Vec<(User, Reply)>, Refusal>
    requires { settings.limits.charge ≤ most_charge }
    ensures given { IfOk result (λ given.
        Rerun (setup_for users settings.limits) user.now timed (map event_of events.items) given.items) }
    ensures refused { IfErr result (λ why.
        (why ≡ Memory) ⊎ (why_untold users.items user.now ≡ Some why)) }
{
    let kept = strike_events(users.as_slice(), events, user, timed)?;
    run(alloc, settings.hashing, users, settings.limits, kept)
}

/// Writes the replies to a user, each as the line of its number. The writer's count of failures was
/// `before`, and it is left to be flushed.
fn print_replies<W: Write + Faults>(
    alloc: Global,
    replies: &[(User, Reply)],
    user: &User,
    numbers: &[usize],
    writer: &mut W,
    before: u64,
) -> Result<(), Refusal>
    ensures ok { OnOk result (Appends (W.contents writer.old) (W.contents writer.new)
        (lines_under user.now numbers.now (replies_to user.now (map answer_of replies.now)))) }
    ensures err { OnErr result ((count : ℕ) × Appends (W.contents writer.old) (W.contents writer.new)
        (take count (lines_under user.now numbers.now (replies_to user.now (map answer_of replies.now))))) }
    ensures errors { IfErr result IsUnwritten }
{
    let mut left = numbers;
    for (actor, reply) in replies {
        if *actor != *user {
            continue;
        }
        let Some((number, later)) = left.split_first() else {
            return Ok(());
        };
        let text = answer_text(alloc, *number, user.bytes(), reply)?;
        write_whole(writer, before, text.as_slice())?;
        left = later;
    }
    Ok(())
}

/// Runs all lines that a reader gives, for the user of a name. They are run as they come, and only where the
/// reader's count shows no failure this ends well.
fn run_reader<H: Wait, R: Read + Faults>(
    rt: &H,
    alloc: Global,
    settings: Settings,
    name: &[u8],
    reader: &mut R,
) -> Result<FirstRun, Refusal>
    requires { settings.limits.charge ≤ most_charge }
    ensures first { IfOk result (λ run. (all : List ℕ) → R.remaining reader.old ≡ Some all
        → IsFirstRun settings.limits.charge name.now (lines_of all) run) }
    ensures why { IfErr result (StrikeEndsBy name.now (R.remaining reader.old)) }
    ensures whole { OnOk result (¬ HasFailed (R.failed reader.old) (R.failed reader.new)) }
{
    let before = reader.failures();
    let Ok(mut input) = BufReader::with_capacity(alloc, CHUNK, &mut *reader) else {
        return Err(Refusal::Memory);
    };
    let first = first_run(rt, alloc, settings, name, &mut input)?;
    drop(input);
    if has_failed(before, reader.failures()) {
        return Err(Refusal::InputFault);
    }
    Ok(first)
}

/// Runs all lines that a reader gives, and then, in a new store, those of their events that can reach a user.
/// Writes what he is replied then, and gives the lines that are refused with 25. The writer is left to be flushed.
fn strike_lines<H: Wait, R: Read + Faults, W: Write + Faults>(
    rt: &H,
    alloc: Global,
    settings: Settings,
    observer: Observer<'_>,
    reader: &mut R,
    writer: &mut W,
) -> Result<Option<BadLines>, Refusal>
    requires { settings.limits.charge ≤ most_charge }
    ensures ok { WritesForUser settings.limits.charge observer.entry.name.now observer.entry.timed result
        (R.remaining reader.old) (W.contents writer.old) (W.contents writer.new) }
    ensures err { WritesForUserInPart settings.limits.charge observer.entry.name.now observer.entry.timed
        result (R.remaining reader.old) (W.contents writer.old) (W.contents writer.new) }
    ensures why { IfErr result (StrikeEndsBy observer.entry.name.now (R.remaining reader.old)) }
    ensures whole { OnOk result (¬ HasFailed (R.failed reader.old) (R.failed reader.new)) }
{
    let before = writer.failures();
    let first = run_reader(rt, alloc, settings, observer.name, reader)?;
    let FirstRun {
        users,
        user,
        events,
        numbers,
    } = first;
    let Numbers { his, bad } = numbers;
    let replies = rerun(alloc, settings, users, events, &user, observer.timed)?;
    print_replies(
        alloc,
        replies.as_slice(),
        &user,
        his.as_slice(),
        writer,
        before,
    )?;
    Ok(bad)
}

/// Whether a run ended well, whatever it told.
fn end_of(told: &Result<Option<BadLines>, Refusal>) -> Result<(), Refusal>
    ensures { result ≡ end_of told.now }
{
    match told {
        Ok(_) => Ok(()),
        Err(why) => Err(*why),
    }
}

/// An end, with what was told before it.
fn ended_with(
    ended: Result<(), Refusal>,
    told: Result<Option<BadLines>, Refusal>,
) -> Result<Option<BadLines>, Refusal>
    ensures { result ≡ ended_with ended told }
{
    match (ended, told) {
        (Ok(()), Ok(bad)) => Ok(bad),
        (Ok(()), Err(_)) => Ok(None),
        (Err(why), _) => Err(why),
    }
}

/// Runs the lines that a reader gives, and then, in a new store, those of their events that can reach a
/// user: by trust that is ever given, or where it is timed, by trust that is held at the times concerned.
/// Writes what he is replied then, each reply as the line of its old number, and flushes it.
///
/// The events are those of the first run, their expansions filled then. The lines are read and run as they come,
/// and no more is kept of them than their events; all are run before anything is written. The lines that are refused
/// with 25 are given, if there are any: nothing is written for them, whoever the user is.
///
/// # Errors
///
/// The counts of failures are looked at again at the end.
///
/// - `BadUsers` where a line of users is refused. Nothing is written then.
/// - `UnknownUser` where no line of users names the user. Nothing is written then, and no line behind that one is
///   read.
/// - `InputFault` only where the reader failed during the call by its count.
/// - `OutputFault` only where the writer failed during the call by its count.
/// - `Memory` where memory was refused, or where the count of the reader does not show its failure any more;
///   and only where the writer's count shows no failure.
pub fn strike<H: Wait, R: Read + Faults, W: Write + Faults>(
    rt: &H,
    alloc: Global,
    settings: Settings,
    observer: Observer<'_>,
    reader: &mut R,
    writer: &mut W,
) -> Result<Option<BadLines>, Refusal>
    requires { settings.limits.charge ≤ most_charge }
    // All of his text is written, and the lines are given that the same first run refused with 25.
    ensures ok { WritesForUser settings.limits.charge observer.entry.name.now observer.entry.timed result
        (R.remaining reader.old) (W.contents writer.old) (W.contents writer.new) }
    // Else nothing is written, or a beginning of it where writing failed, or memory while writing; and what is told
    // of the users is so.
    ensures err { WritesForUserInPart settings.limits.charge observer.entry.name.now observer.entry.timed
        result (R.remaining reader.old) (W.contents writer.old) (W.contents writer.new) }
    ensures why { IfErr result (StrikeEndsBy observer.entry.name.now (R.remaining reader.old)) }
    ensures counts { EndsByCounts result (R.failed reader.old) (R.failed reader.new)
        (W.failed writer.old) (W.failed writer.new) }
    ensures shown { IsShown result (W.failed writer.old) (W.failed writer.new) }
{
    let reader_before = reader.failures();
    let writer_before = writer.failures();
    let told = strike_lines(rt, alloc, settings, observer, reader, writer);
    let ended = end_of(&told);
    let shown = flush_after(reader, reader_before, writer, writer_before, ended);
    ended_with(shown, told)
}
