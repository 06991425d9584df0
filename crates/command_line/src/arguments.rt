//! The command `intstore` with its arguments, and the options that it finds in the words of a command line.

ghost use Rattle.std.specs.Prelude.{IfOk, map, string_bytes};
ghost use Rattle.command_line.specs.Intstore.{builders_rule, charge_rule, explain_rule, file_rule, files_rule, launcher_rule, limit_rule, logs_rule};
ghost use Rattle.command_line.specs.Intstore.{sweep_rule, timed_rule, user_rule, verbose_rule, work_rule, workers_rule};
ghost use Rattle.command_line.specs.Intstore.{intstore, replay, run, strike};
ghost use Rattle.command_line.specs.Intstore.{subcommands as described_subcommands};
ghost use Rattle.command_line.specs.Named.{AnswersWords};
ghost use Rattle.command_line.specs.Steps.{AreCommands, IsArgument, IsCommand};

use crate::matched::options_in;
use crate::settings::Options;
use clap::builder::ValueParser;
use clap::error::ErrorKind;
use clap::{Arg, ArgAction, Command, Error, value_parser};
use model::MOST_FILES;
use std::alloc::{AllocError, Global};

/// The option `--charge`.
fn charge_argument<'a>(alloc: Global) -> Arg<'a>
    ensures { IsArgument charge_rule result }
{
    Arg::new(alloc, "charge")
        .long("charge")
        .value_name("N")
        .action(ArgAction::Set)
        .value_parser(value_parser!(u64).range(1..=1_073_741_824))
        .default_value("1073741824")
        .help("The most bytes of archives that a user may hold, from 1 to 1073741824")
}

/// The argument FILE.
fn file_argument<'a>(alloc: Global) -> Arg<'a>
    ensures { IsArgument file_rule result }
{
    Arg::new(alloc, "file")
        .value_name("FILE")
        .action(ArgAction::Set)
        .required(true)
        .help("A file of lines, each an event of one user")
}

/// The argument FILE, one to eight times.
fn files_argument<'a>(alloc: Global) -> Arg<'a>
    ensures { IsArgument files_rule result }
{
    Arg::new(alloc, "files")
        .value_name("FILE")
        .action(ArgAction::Set)
        .num_args(1..=MOST_FILES)
        .required(true)
        .help("A file of lines for each session, each an event of one user; 1 to 8 files")
}

/// The option `--user`.
fn user_argument<'a>(alloc: Global) -> Arg<'a>
    ensures { IsArgument user_rule result }
{
    Arg::new(alloc, "user")
        .long("user")
        .value_name("U")
        .action(ArgAction::Set)
        .required(true)
        .help("The user whose replies are printed")
}

/// The flag `--timed`.
fn timed_argument<'a>(alloc: Global) -> Arg<'a>
    ensures { IsArgument timed_rule result }
{
    Arg::new(alloc, "timed")
        .long("timed")
        .action(ArgAction::SetTrue)
        .help("Counts trust only while it is held, and not all that is ever given")
}

/// The flag `--sweep`, with what it does.
fn sweep_argument<'a>(alloc: Global, help: &'a str) -> Arg<'a>
    ensures { IsArgument sweep_rule result }
{
    Arg::new(alloc, "sweep")
        .long("sweep")
        .action(ArgAction::SetTrue)
        .help(help)
}

/// The flag `--explain`.
fn explain_argument<'a>(alloc: Global) -> Arg<'a>
    ensures { IsArgument explain_rule result }
{
    Arg::new(alloc, "explain")
        .long("explain")
        .action(ArgAction::SetTrue)
        .help("Says behind each refusal, in a comment, what it means")
}

/// The option `--workers`.
fn workers_argument<'a>(alloc: Global) -> Arg<'a>
    ensures { IsArgument workers_rule result }
{
    Arg::new(alloc, "workers")
        .long("workers")
        .value_name("N")
        .action(ArgAction::Set)
        .value_parser(value_parser!(u64).range(1..=7))
        .required(true)
        .help("How many workers build for each session, from 1 to 7")
}

/// The option `--builders`.
fn builders_argument<'a>(alloc: Global) -> Arg<'a>
    ensures { IsArgument builders_rule result }
{
    Arg::new(alloc, "builders")
        .long("builders")
        .value_name("DIR")
        .action(ArgAction::Set)
        .value_parser(ValueParser::NonEmptyString)
        .default_value(".")
        .help("The folder with the builders")
}

/// The option `--work`.
fn work_argument<'a>(alloc: Global) -> Arg<'a>
    ensures { IsArgument work_rule result }
{
    Arg::new(alloc, "work")
        .long("work")
        .value_name("DIR")
        .action(ArgAction::Set)
        .value_parser(ValueParser::NonEmptyString)
        .default_value(".")
        .help("The folder for the files that builders are given")
}

/// The option `--logs`.
fn logs_argument<'a>(alloc: Global) -> Arg<'a>
    ensures { IsArgument logs_rule result }
{
    Arg::new(alloc, "logs")
        .long("logs")
        .value_name("DIR")
        .action(ArgAction::Set)
        .value_parser(ValueParser::NonEmptyString)
        .help("The folder for what builders write to standard error; left out, that is dropped")
}

/// The option `--launcher`.
fn launcher_argument<'a>(alloc: Global) -> Arg<'a>
    ensures { IsArgument launcher_rule result }
{
    Arg::new(alloc, "launcher")
        .long("launcher")
        .value_name("PROGRAM")
        .action(ArgAction::Set)
        .value_parser(ValueParser::NonEmptyString)
        .help("The program through which each builder is started, with words for it behind blanks")
}

/// The option `--limit`.
fn limit_argument<'a>(alloc: Global) -> Arg<'a>
    ensures { IsArgument limit_rule result }
{
    Arg::new(alloc, "limit")
        .long("limit")
        .value_name("SECONDS")
        .action(ArgAction::Set)
        .value_parser(value_parser!(u64).range(1..=31_536_000))
        .help("The most seconds that a builder may run, from 1 to 31536000, which is 365 days")
}

/// The flag `--verbose`.
fn verbose_argument<'a>(alloc: Global) -> Arg<'a>
    ensures { IsArgument verbose_rule result }
{
    Arg::new(alloc, "verbose")
        .long("verbose")
        .action(ArgAction::SetTrue)
        .help("Says on standard error as each builder starts, and how it ended")
}

/// The subcommand `replay`.
fn replay_command<'a>(alloc: Global) -> Result<Command<'a>, AllocError>
    ensures { IfOk result (IsCommand replay) }
{
    let arguments = vec![in alloc;
        sweep_argument(
            alloc,
            "Gives back after each event what nobody holds; the replies stay the same",
        ),
        explain_argument(alloc),
        charge_argument(alloc),
        file_argument(alloc),
    ]?;
    Command::new(alloc, "replay")
        .about("Runs the lines of FILE one after another, and prints their replies")
        .args(arguments)
}

/// The subcommand `strike`.
fn strike_command<'a>(alloc: Global) -> Result<Command<'a>, AllocError>
    ensures { IfOk result (IsCommand strike) }
{
    let arguments = vec![in alloc;
        user_argument(alloc),
        timed_argument(alloc),
        charge_argument(alloc),
        file_argument(alloc),
    ]?;
    Command::new(alloc, "strike")
        .about("Runs the events of FILE that can reach a user, and prints their replies to him")
        .args(arguments)
}

/// The subcommand `run`.
fn run_command<'a>(alloc: Global) -> Result<Command<'a>, AllocError>
    ensures { IfOk result (IsCommand run) }
{
    let arguments = vec![in alloc;
        workers_argument(alloc),
        builders_argument(alloc),
        work_argument(alloc),
        logs_argument(alloc),
        launcher_argument(alloc),
        limit_argument(alloc),
        sweep_argument(
            alloc,
            "Gives back after each round of builds what nobody holds; the replies stay the same",
        ),
        charge_argument(alloc),
        verbose_argument(alloc),
        files_argument(alloc),
    ]?;
    Command::new(alloc, "run")
        .about("Runs each FILE as a session of one store that builds, and prints the replies")
        .args(arguments)
}

/// The subcommands.
fn subcommands<'a>(alloc: Global) -> Result<Vec<Command<'a>>, AllocError>
    ensures { IfOk result (λ v. AreCommands described_subcommands v.items) }
{
    let replay = replay_command(alloc)?;
    let strike = strike_command(alloc)?;
    let run = run_command(alloc)?;
    Ok(vec![in alloc; replay, strike, run]?)
}

/// The command `intstore`, with its subcommands.
fn command<'a>(alloc: Global) -> Result<Command<'a>, AllocError>
    ensures { IfOk result (IsCommand intstore) }
{
    let subcommands = subcommands(alloc)?;
    Command::new(alloc, "intstore")
        .version("0.1.0")
        .about("A store for users of one machine who do not trust one another")
        .subcommand_required(true)
        .subcommands(subcommands)?
        .bin_name("intstore")
}

/// The options that the command finds in the words of a command line.
fn options_by<'a>(
    alloc: Global,
    command: &mut Command<'a>,
    words: &'a [String],
) -> Result<Options, Error>
    requires { IsCommand intstore command.now }
    ensures { AnswersWords (map string_bytes words.now) result }
{
    let matches = command.try_get_matches_from_mut(words)?;
    match options_in(alloc, &matches)? {
        Some(options) => Ok(options),
        None => {
            Err(command.error(ErrorKind::MissingRequiredArgument, "an argument is missing")?)
        }
    }
}

/// The options that the words of a command line ask for, of which the first names the program.
///
/// # Errors
///
/// An error of the kind `OutOfMemory` where memory was refused. Else one that has the words which are to be
/// printed: where the command line is at fault, and where help or the version is asked for.
pub fn options(alloc: Global, words: &[String]) -> Result<Options, Error>
    ensures { AnswersWords (map string_bytes words.now) result }
{
    let mut command = command(alloc)?;
    options_by(alloc, &mut command, words)
}
