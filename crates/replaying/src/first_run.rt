//! Running the lines of an input for the events that they make.

ghost use Rattle.std.specs.Prelude.{◌≡◌, ◌≤◌, ◌⊎◌, ◌++◌, ◌∷◌, ℕ, List, if◌then◌else◌, true, false, []};
ghost use Rattle.std.specs.Prelude.{map, slice_get, bytes_eq, MatchOption, Some, IfOk, IfErr, OnOk};
ghost use Rattle.model.specs.declared.refusal.Refusal.TheVariants.{InputFault, Memory, UnknownUser};
ghost use Rattle.model.specs.Lines.{lines_of};
ghost use Rattle.model.specs.Limits.{most_charge};
ghost use Rattle.model.specs.Reach.{is_among};
ghost use Rattle.model.specs.Worlds.{nothing};
ghost use Rattle.events.specs.Terms.{event_of};
ghost use Rattle.schedule.specs.Standing.{setup_of, world_of, stored_in};
ghost use Rattle.replaying.specs.Recording.{AddsNumbers, Asked, AsksOn, RunsOut, IsAsked, IsFirstRun};
ghost use Rattle.replaying.specs.Striking.{StrikeEndsBy};
ghost use Rattle.history.specs.NewFronts.{AreTokensOf};

use crate::first_lines::{bad_after, find_users, is_bad};
use crate::numbers::{FirstRun, Line, Named, Notes, Numbers};
use crate::one_pass::OnePass;
use crate::recorder::Recorder;
use crate::settings::Settings;
use book::{Front, FrontId, FrontTokens};
use model::Refusal;
use schedule::{Core, Event, User};
use session::{Session, next_line};
use std::alloc::{AllocError, Global};
use std::io::BufRead;
use std::marker::Brand;
use std::sync::Wait;

/// Whether there is an event behind so many others, and it is a user's.
fn is_next_of(events: &[Event], before: usize, user: &User) -> bool
    ensures { MatchOption (slice_get events.now before) (result ≡ false) (λ event. result ≡ bytes_eq event.actor user.now) }
{
    events.get(before).is_some_and(|event| event.actor == *user)
}

/// Runs a line, and tells what it was. The line is let go before its event is answered. The one error is memory,
/// which is also told in place of a second line of users that is refused with 14: none is.
fn ask_line<J: FrontId, H: Wait>(
    alloc: Global,
    session: &mut Session,
    recorder: &mut Recorder<'_, J, H>,
    line: Vec<u8>,
    user: &User,
) -> Result<Line, Refusal>
    requires { recorder.old.has_lost ≡ false }
    ensures asked { IfOk result (Asked J.setup user.now line.items session.old session.new
        recorder.old.store (map event_of recorder.old.events.items)
        recorder.new.store (map event_of recorder.new.events.items)) }
    ensures kept { OnOk result (recorder.new.has_lost ≡ false) }
    ensures memory { IfErr result (λ why. why ≡ Memory) }
{
    let before = recorder.events.len();
    let reading = session.read(alloc, line.as_slice())?;
    drop(line);
    let is_bad = is_bad(&reading);
    session.answer(alloc, reading, recorder)?;
    if recorder.has_lost {
        return Err(Refusal::Memory);
    }
    if session.is_refused() {
        return Err(Refusal::Memory);
    }
    let is_his = is_next_of(recorder.events.as_slice(), before, user);
    Ok(Line { is_his, is_bad })
}

/// Adds the number of a line to others where it is to be. The one error is memory.
fn add_where(numbers: &mut Vec<usize>, is_his: bool, number: usize) -> Result<(), AllocError>
    ensures { OnOk result (numbers.new.items ≡ numbers.old.items ++ (if is_his then number ∷ [] else [])) }
{
    if is_his {
        numbers.push(number)?;
    }
    Ok(())
}

/// Adds the number of a line to those of the user's where it makes an event of his, and to those that are refused
/// with 25 where it is. The one error is memory.
fn add_numbers(numbers: &mut Numbers, line: Line, number: usize) -> Result<(), AllocError>
    ensures { OnOk result (AddsNumbers line number numbers.old numbers.new) }
{
    add_where(&mut numbers.his, line.is_his, number)?;
    numbers.bad = bad_after(numbers.bad, line.is_bad, number);
    Ok(())
}

/// Runs a line, and adds its number to those of the user's where it makes an event of his, and to those that are
/// refused with 25 where it is.
fn ask_numbered<J: FrontId, H: Wait>(
    alloc: Global,
    notes: &mut Notes,
    recorder: &mut Recorder<'_, J, H>,
    line: Vec<u8>,
) -> Result<(), Refusal>
    requires { recorder.old.has_lost ≡ false }
    ensures asked { OnOk result (AsksOn J.setup line.items notes.old
        recorder.old.store (map event_of recorder.old.events.items) notes.new
        recorder.new.store (map event_of recorder.new.events.items)) }
    ensures kept { OnOk result (recorder.new.has_lost ≡ false) }
    ensures memory { IfErr result (λ why. why ≡ Memory) }
{
    let line = ask_line(alloc, &mut notes.session, recorder, line, &notes.user)?;
    add_numbers(&mut notes.numbers, line, notes.session.line_count())?;
    Ok(())
}

/// Runs the lines of an input that are left.
fn ask_lines<J: FrontId, H: Wait, R: BufRead>(
    alloc: Global,
    notes: &mut Notes,
    recorder: &mut Recorder<'_, J, H>,
    input: &mut R,
) -> Result<(), Refusal>
    requires { recorder.old.has_lost ≡ false }
    ensures out { OnOk result (RunsOut J.setup (R.remaining input.old) notes.old
        recorder.old.store (map event_of recorder.old.events.items) notes.new
        recorder.new.store (map event_of recorder.new.events.items)) }
    ensures errors { IfErr result (λ why. (why ≡ InputFault) ⊎ (why ≡ Memory)) }
{
    for _ in 0..u64::MAX {
        let Some(line) = next_line(alloc, input)? else {
            return Ok(());
        };
        ask_numbered(alloc, notes, recorder, line)?;
    }
    Err(Refusal::Memory)
}

/// Runs the lines of an input that are left by a new core, behind a lock that one pass takes. Gives the events
/// that they make.
fn ask_core<J: FrontId, H: Wait, R: BufRead>(
    rt: &H,
    alloc: Global,
    blank: FrontTokens,
    core: Core,
    notes: &mut Notes,
    input: &mut R,
) -> Result<Vec<Event>, Refusal>
    requires blank { AreTokensOf J.name J.parts J.stops J.table J.book blank }
    requires parts { J.parts ≡ 1 }
    requires core { (setup_of core ≡ J.setup) × (world_of core ≡ nothing) × (stored_in core ≡ []) }
    ensures asked { IfOk result (λ events.
        IsAsked J.setup (R.remaining input.old) notes.old notes.new events.items) }
    ensures errors { IfErr result (λ why. (why ≡ InputFault) ⊎ (why ≡ Memory)) }
{
    let (front, mut passes) = Front::<J>::new(rt, alloc, blank, core, 1)?;
    let pass = passes.pop().unwrap();
    let mut recorder = Recorder {
        store: OnePass {
            rt,
            front,
            pass,
            sweeps: false,
            has_lacked: false,
        },
        events: Vec::new(alloc),
        has_lost: false,
    };
    ask_lines(alloc, notes, &mut recorder, input)?;
    let Recorder { events, .. } = recorder;
    Ok(events)
}

/// Whether a user is one of these.
fn is_one_of(users: &[User], user: &User) -> bool
    ensures { result ≡ is_among user.now users.now }
{
    users.iter().any(|other| *other == *user)
}

/// The user of a name, who is one of these.
fn user_among(alloc: Global, users: &[User], name: &[u8]) -> Result<User, Refusal>
    ensures user { IfOk result (λ user. (user ≡ name.now) × (is_among name.now users.now ≡ true)) }
    ensures unknown { IfErr result (λ why. (why ≡ Memory)
        ⊎ ((why ≡ UnknownUser) × (is_among name.now users.now ≡ false))) }
{
    let user = User::new(alloc, name)?;
    if is_one_of(users, &user) {
        Ok(user)
    } else {
        Err(Refusal::UnknownUser)
    }
}

/// Runs the lines of an input by a new store for the users whom they name, of whom one has this name.
pub(crate) fn first_run<H: Wait, R: BufRead>(
    rt: &H,
    alloc: Global,
    settings: Settings,
    name: &[u8],
    input: &mut R,
) -> Result<FirstRun, Refusal>
    requires { settings.limits.charge ≤ most_charge }
    ensures run { IfOk result (λ run. (all : List ℕ) → R.remaining input.old ≡ Some all
        → IsFirstRun settings.limits.charge name.now (lines_of all) run) }
    ensures why { IfErr result (StrikeEndsBy name.now (R.remaining input.old)) }
{
    let Settings { hashing, limits } = settings;
    let named = find_users(alloc, input)?;
    let Named {
        session,
        users,
        bad,
    } = named;
    let user = user_among(alloc, users.as_slice(), name)?;
    let copied = users.clone()?;
    let core = Core::new(alloc, hashing, copied, limits)?;
    let blank = FrontTokens::new(alloc, 1)?;
    let numbers = Numbers {
        his: Vec::new(alloc),
        bad,
    };
    let mut notes = Notes {
        session,
        user,
        numbers,
    };
    let events = ask_core::<Brand, _, _>(rt, alloc, blank, core, &mut notes, input)?;
    let Notes { user, numbers, .. } = notes;
    Ok(FirstRun {
        users,
        user,
        events,
        numbers,
    })
}
