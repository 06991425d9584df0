//! What the options ask for, done with the lines of readers.

ghost use Rattle.std.specs.Prelude.{◌≡◌, ◌<◌, ◌⊎◌, true, false, Err, IfOk, IfErr};
ghost use Rattle.model.specs.Worlds.{are_users};
ghost use Rattle.model.specs.declared.refusal.Refusal.TheVariants.{BadUsers, Quota, InputFault};
ghost use Rattle.session.specs.Serving.{EndsByCounts, IsOwn, IsShown};
ghost use Rattle.replaying.specs.BadLines.{end_of};
ghost use Rattle.replaying.specs.Ended.{RepliesToAll, RepliesInPart, RepliesSoFar, WritesForUser, WritesForUserInPart};
ghost use Rattle.replaying.specs.Striking.{StrikeEndsBy};
ghost use Rattle.teams.specs.Sessions.{CannotBegin};
ghost use Rattle.running.specs.ServedSessions.{passes_needed};
ghost use Rattle.running.specs.Runs.{AreResults};
ghost use Rattle.app.specs.Actions.{IsReplay, WhereStrikes, nothing_told};
ghost use Rattle.model.specs.Limits.{most_passes};

use builder::Runner;
use command_line::{Action, Options};
use messages::Fault;
use model::Refusal;
use replaying::{BadLines, Observer, Settings, replay, strike};
use running::{Results, run};
use schedule::{Limits, User};
use session::Faults;
use std::alloc::Global;
use std::hash::RandomState;
use std::io::{Eprint, Read, Write};
use std::sync::Wait;
use std::thread::Threads;
use teams::Part;

/// The limits that the options set.
fn limits_of(options: &Options) -> Limits
    ensures { result.charge ≡ options.now.charge }
{
    Limits {
        charge: options.charge,
    }
}

/// What a run of all lines tells of those that are refused with 25: nothing, since what each of them gets is
/// printed.
fn nothing_told(ended: Result<(), Refusal>) -> Result<Option<BadLines>, Refusal>
    ensures { result ≡ nothing_told ended }
{
    match ended {
        Ok(()) => Ok(None),
        Err(why) => Err(why),
    }
}

/// Runs the lines of a reader under the charge of the options: those events of them that can reach a user
/// where the options ask for `strike`, and else all of them. Gives the lines that `strike` found to be refused with
/// 25, of which nothing is printed.
///
/// # Errors
///
/// They are those of [`replay`] and of [`strike`].
pub(crate) fn run_lines<H: Wait, R: Read + Faults, W: Write + Faults>(
    wait: &H,
    alloc: Global,
    hashing: RandomState,
    options: &Options,
    reader: &mut R,
    writer: &mut W,
) -> Result<Option<BadLines>, Refusal>
    // All lines are run by `replay`, under the charge that was asked for.
    ensures replayed { IsReplay options.now.action → RepliesToAll options.now.charge result
        (R.remaining reader.old) (W.contents writer.old) (W.contents writer.new) }
    ensures in_part { IsReplay options.now.action → RepliesInPart options.now.charge result
        (R.remaining reader.old) (W.contents writer.old) (W.contents writer.new) }
    ensures failed { IsReplay options.now.action → RepliesSoFar options.now.charge result
        (R.remaining reader.old) (R.remaining reader.new) (W.contents writer.old) (W.contents writer.new) }
    ensures errors { IsReplay options.now.action → IfErr result (λ why. (why ≡ InputFault) ⊎ IsOwn why) }
    // Those that can reach the user are run by `strike`, for his name, timed or not, and under that charge.
    ensures struck { WhereStrikes options.now.action (λ user timed. WritesForUser options.now.charge user timed
        result (R.remaining reader.old) (W.contents writer.old) (W.contents writer.new)) }
    ensures struck_in_part { WhereStrikes options.now.action (λ user timed.
        WritesForUserInPart options.now.charge user timed result
        (R.remaining reader.old) (W.contents writer.old) (W.contents writer.new)) }
    ensures struck_why { WhereStrikes options.now.action (λ user timed.
        IfErr result (StrikeEndsBy user (R.remaining reader.old))) }
    ensures counts { EndsByCounts result (R.failed reader.old) (R.failed reader.new)
        (W.failed writer.old) (W.failed writer.new) }
    ensures shown { IsShown result (W.failed writer.old) (W.failed writer.new) }
{
    let limits = limits_of(options);
    let settings = Settings { hashing, limits };
    match &options.action {
        Action::Strike { user, timed, .. } => {
            let observer = Observer {
                name: user.as_bytes(),
                timed: *timed,
            };
            strike(wait, alloc, settings, observer, reader, writer)
        }
        Action::Replay { sweep, .. } => {
            nothing_told(replay(wait, alloc, settings, *sweep, reader, writer))
        }
        Action::Run(_) => nothing_told(replay(wait, alloc, settings, false, reader, writer)),
    }
}

/// Runs the lines of files as sessions of one store under the charge of the options, as [`run`] does.
///
/// # Errors
///
/// They are those of [`run`].
pub(crate) fn run_parts<
    H: Threads + Wait + Sync,
    Q: Runner + Send + Drop,
    I: Read + Faults + Send + Drop,
>(
    host: &H,
    alloc: Global,
    hashing: RandomState,
    users: Vec<User>,
    options: &Options,
    parts: Vec<Part<I, Q>>,
) -> Result<Results, Refusal>
    ensures results { IfOk result
        (AreResults (record { users = users.items; charge = options.now.charge }) Q.gives I.remaining parts.items) }
    ensures users { IfOk result (λ _. are_users users.items ≡ true) }
    ensures why { IfErr result CannotBegin }
    ensures bad_users { IfErr result (λ why. why ≡ BadUsers → are_users users.items ≡ false) }
    ensures quota { IfErr result (λ why. why ≡ Quota → most_passes < passes_needed parts.items) }
    ensures full { most_passes < passes_needed parts.items → result ≡ Err Quota }
{
    run(host, alloc, hashing, users, limits_of(options), parts)
}

/// Says on standard error that lines were refused with 25, where some were of which nothing is printed, and gives
/// how the run ended. What cannot be said is let go.
pub(crate) fn tell_bad_lines(
    rt: &impl Eprint,
    told: Result<Option<BadLines>, Refusal>,
) -> Result<(), Refusal>
    ensures { result ≡ end_of told }
{
    match told {
        Ok(Some(BadLines { count, first })) => {
            let _ = rt.eprintln(Fault::BadLines(count, first));
            Ok(())
        }
        Ok(None) => Ok(()),
        Err(why) => Err(why),
    }
}
