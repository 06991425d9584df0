//! What the matches of a command line ask for.

ghost use Rattle.std.specs.Prelude.{◌≡◌, ◌≤◌, IfOk, IfSome, Some, codes, map, option_map, string_bytes};
ghost use Rattle.model.specs.Limits.{most_charge};
ghost use Rattle.clap.specs.Walk.{first_of, texts};
ghost use Rattle.clap.specs.Words.{found_of, one_text, subcommand_rows_of};
ghost use Rattle.command_line.specs.Intstore.{longest_limit};
ghost use Rattle.command_line.specs.Named.{AreFilesOf, AreOptionsOf, AreWordsOf, AskFor, IsActionOf};
ghost use Rattle.command_line.specs.Named.{IsChargeOf, IsLauncherOf, IsLimitOf, IsRunOf, IsWorkersOf, rows_in};
ghost use Rattle.command_line.specs.Steps.{IsFound};

use crate::settings::{Action, Options, Run};
use clap::ArgMatches;
use model::{LARGEST_CHARGE, MOST_FILES, MOST_WORKERS};
use std::alloc::{AllocError, Global};

/// The limit on the charge: as given, or the largest. The parser has refused every other number.
fn charge_of(matches: &ArgMatches<'_>) -> u64
    ensures within { (1 ≤ result) × (result ≤ most_charge) }
    ensures value { IsChargeOf (one_text (found_of matches.now) (codes "charge")) result }
{
    match matches.get_one::<u64>("charge") {
        Some(charge) if charge >= 1 && charge <= LARGEST_CHARGE => charge,
        _ => LARGEST_CHARGE,
    }
}

/// The number of workers, or nothing where none is named. The parser has refused all but 1 to 7.
fn workers_of(matches: &ArgMatches<'_>) -> Option<usize>
    ensures { IsFound (IsWorkersOf (one_text (found_of matches.now) (codes "workers"))) result }
{
    match matches.get_one::<u64>("workers") {
        Some(workers) if workers >= 1 && workers <= MOST_WORKERS => Some(workers as usize),
        _ => None,
    }
}

/// The most seconds that a builder may be kept to: 365 days.
const LONGEST_LIMIT: u64 = 31_536_000;

/// The limit on the seconds of a builder, or nothing where none is named. The parser has refused all but 1 to
/// 31,536,000.
fn limit_of(matches: &ArgMatches<'_>) -> Option<u64>
    ensures within { IfSome result (λ seconds. (1 ≤ seconds) × (seconds ≤ longest_limit)) }
    ensures value { IsLimitOf (one_text (found_of matches.now) (codes "limit")) result }
{
    match matches.get_one::<u64>("limit") {
        Some(limit) if limit >= 1 && limit <= LONGEST_LIMIT => Some(limit),
        _ => None,
    }
}

/// The text of an argument, or nothing where it has none.
fn text_of(alloc: Global, matches: &ArgMatches<'_>, id: &str) -> Result<Option<String>, AllocError>
    ensures { IfOk result (λ text. option_map string_bytes text
        ≡ first_of id.now (rows_in matches.now)) }
{
    match matches.get_str(id) {
        Some(text) => Ok(Some(String::from_str(alloc, text)?)),
        None => Ok(None),
    }
}

/// The words, each in a string of its own.
fn strings_of(alloc: Global, words: &[&str]) -> Result<Vec<String>, AllocError>
    ensures { IfOk result (λ strings. map string_bytes strings.items ≡ texts words.now) }
{
    let mut strings = Vec::new(alloc);
    for word in words {
        strings.push(String::from_str(alloc, word)?)?;
    }
    Ok(strings)
}

/// The words of a text, with white space between them, each in a string of its own.
fn words_of(alloc: Global, text: &str) -> Result<Vec<String>, AllocError>
    ensures { IfOk result (λ words. AreWordsOf text.now (map string_bytes words.items)) }
{
    let mut words = Vec::new(alloc);
    for word in text.split_whitespace() {
        words.push(String::from_str(alloc, word)?)?;
    }
    Ok(words)
}

/// The words of a launcher of this text: where it has none it is the text itself, and names no program.
fn launcher_words(alloc: Global, text: String) -> Result<Vec<String>, AllocError>
    ensures { IfOk result (λ launcher. IsLauncherOf (Some (string_bytes text)) (map string_bytes launcher.items)) }
{
    let words = words_of(alloc, text.as_str())?;
    if words.len() > 0 {
        return Ok(words);
    }
    let mut launcher = Vec::new(alloc);
    launcher.push(text)?;
    Ok(launcher)
}

/// The words of the launcher, if one is named.
fn launcher_of(alloc: Global, matches: &ArgMatches<'_>) -> Result<Vec<String>, AllocError>
    ensures { IfOk result (λ launcher. IsLauncherOf (first_of (codes "launcher") (rows_in matches.now))
        (map string_bytes launcher.items)) }
{
    match text_of(alloc, matches, "launcher")? {
        Some(text) => launcher_words(alloc, text),
        None => Ok(Vec::new(alloc)),
    }
}

/// The files of a run, or nothing where none is named. The parser has refused all but 1 to 8.
fn files_of(alloc: Global, matches: &ArgMatches<'_>) -> Result<Option<Vec<String>>, AllocError>
    ensures { IfOk result (IsFound (λ files.
        AreFilesOf (rows_in matches.now) (map string_bytes files.items))) }
{
    let Some(words) = matches.get_strs("files") else {
        return Ok(None);
    };
    match words.len() {
        1..=MOST_FILES => Ok(Some(strings_of(alloc, words)?)),
        _ => Ok(None),
    }
}

/// What the matches of `run` ask for, or nothing where they lack an argument.
fn run_of(alloc: Global, matches: &ArgMatches<'_>) -> Result<Option<Run>, AllocError>
    ensures { IfOk result (IsFound (IsRunOf (rows_in matches.now))) }
{
    let Some(workers) = workers_of(matches) else {
        return Ok(None);
    };
    let Some(builders) = text_of(alloc, matches, "builders")? else {
        return Ok(None);
    };
    let Some(work) = text_of(alloc, matches, "work")? else {
        return Ok(None);
    };
    let logs = text_of(alloc, matches, "logs")?;
    let launcher = launcher_of(alloc, matches)?;
    let Some(files) = files_of(alloc, matches)? else {
        return Ok(None);
    };
    Ok(Some(Run {
        workers,
        builders,
        work,
        logs,
        launcher,
        limit: limit_of(matches),
        sweep: matches.get_flag("sweep"),
        verbose: matches.get_flag("verbose"),
        files,
    }))
}

/// What the matches of `replay` ask for, or nothing where they have no file.
fn replay_of(alloc: Global, matches: &ArgMatches<'_>) -> Result<Option<Action>, AllocError>
    ensures { IfOk result (IsFound (IsActionOf (codes "replay") (rows_in matches.now))) }
{
    match text_of(alloc, matches, "file")? {
        Some(file) => {
            let sweep = matches.get_flag("sweep");
            let explain = matches.get_flag("explain");
            Ok(Some(Action::Replay {
                sweep,
                explain,
                file,
            }))
        }
        None => Ok(None),
    }
}

/// What the matches of `strike` ask for, or nothing where they lack an argument.
fn strike_of(alloc: Global, matches: &ArgMatches<'_>) -> Result<Option<Action>, AllocError>
    ensures { IfOk result (IsFound (IsActionOf (codes "strike") (rows_in matches.now))) }
{
    let user = text_of(alloc, matches, "user")?;
    let file = text_of(alloc, matches, "file")?;
    match (user, file) {
        (Some(user), Some(file)) => {
            let timed = matches.get_flag("timed");
            Ok(Some(Action::Strike { user, timed, file }))
        }
        _ => Ok(None),
    }
}

/// What the matches of a subcommand ask for, or nothing where there is no such subcommand, or where they
/// lack an argument.
fn action_of(
    alloc: Global,
    subcommand: &str,
    matches: &ArgMatches<'_>,
) -> Result<Option<Action>, AllocError>
    ensures { IfOk result (IsFound (IsActionOf subcommand.now (rows_in matches.now))) }
{
    match subcommand {
        "replay" => replay_of(alloc, matches),
        "strike" => strike_of(alloc, matches),
        "run" => match run_of(alloc, matches)? {
            Some(run) => Ok(Some(Action::Run(run))),
            None => Ok(None),
        },
        _ => Ok(None),
    }
}

/// The options that the matches of a subcommand ask for, or none where they ask for no action.
fn options_of(
    alloc: Global,
    subcommand: &str,
    matches: &ArgMatches<'_>,
) -> Result<Option<Options>, AllocError>
    ensures { IfOk result (IsFound (AreOptionsOf subcommand.now (rows_in matches.now))) }
{
    let Some(action) = action_of(alloc, subcommand, matches)? else {
        return Ok(None);
    };
    Ok(Some(Options {
        action,
        charge: charge_of(matches),
    }))
}

/// The options that the matches of a whole line ask for, or none where they ask for nothing.
pub(crate) fn options_in(
    alloc: Global,
    matches: &ArgMatches<'_>,
) -> Result<Option<Options>, AllocError>
    ensures { IfOk result (IsFound (AskFor (subcommand_rows_of matches.now))) }
{
    match matches.subcommand() {
        Some((subcommand, found)) => options_of(alloc, subcommand, found),
        None => Ok(None),
    }
}
