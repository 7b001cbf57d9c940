//! The request of a command line.
ghost use Rattle.std.specs.Prelude.{◌≡◌, ◌≢◌, ◌⊎◌, [], Some, IfOk, IfErr, IfSome, IfNone, OnErr, map};
ghost use Rattle.std.specs.String.{string_bytes};
ghost use Rattle.clap.specs.Faults.{fault_of};
ghost use Rattle.clap.specs.Simple.{subcommand_rows_of};
ghost use Rattle.clap.specs.Values.{kind_of};
ghost use Rattle.clap.specs.declared.error.kind.ErrorKind.TheVariants.{OutOfMemory};
ghost use Rattle.cli.specs.CommandLine.{AreMatchesOf, IsNoRequest, IsRequestOf, program};
ghost use Rattle.cli.specs.Requests.{Asks, AsksFor, AsksForNone, IsInRange};
ghost use Rattle.cli.specs.Words.{found_in, word_of};

use crate::help::Notes;
use crate::numbers::{BadArgument, has_flag, text_of, words_of};
use crate::subcommands::{Subcommand, command, usage_of};
use crate::tasks::task_of;
use clap::error::ErrorKind;
use clap::{ArgMatches, Error};
use sokopar::{LevelRequest, LevelsRequest, SolveRequest};
use std::alloc::{AllocError, Global};

/// The request of a command line.
#[derive(Clone, Copy, Debug)]
pub struct Request<'a> {
    /// The path of the collection.
    pub file: &'a str,
    pub task: Task<'a>,
    /// Whether searches show bounds and positions on standard error.
    pub progress: bool,
}

/// What to do with the levels of a collection. They are counted from 1.
#[derive(Clone, Copy, Debug)]
pub enum Task<'a> {
    /// Check the levels.
    Check,
    /// Explain where and why the levels, or one of them, are faulty.
    Explain(Option<u32>),
    /// Show a level.
    Show(u32),
    /// Show the levels of a part of the collection.
    ShowRange {
        from: u32,
        to: u32,
    },
    /// Show the dead squares of a level.
    Dead(u32),
    /// Replay the text of a solution file on a level.
    Replay {
        number: u32,
        solution: &'a str,
    },
    /// Solve a level.
    Solve(SolveRequest),
    /// Find a solution with the fewest pushes of a level.
    Best(LevelRequest),
    /// Find a solution with the fewest pushes of each level of a part of the collection.
    BestCollection(LevelsRequest),
    /// Prove that the solution of a file has the fewest pushes on a level.
    Prove {
        search: LevelRequest,
        solution: &'a str,
    },
    /// Prove each solution of a folder on its level of a part of the collection, or only replay it.
    ProveCollection {
        search: LevelsRequest,
        folder: &'a str,
    },
}

impl<'a> Task<'a> {
    /// The limit of positions of its searches with lines of progress; 0 without any.
    pub(crate) fn limit(&self) -> u32 {
        match self {
            Task::Best(search) | Task::Prove { search, .. } => search.settings.limit,
            Task::BestCollection(search) | Task::ProveCollection { search, .. } => {
                search.settings.limit
            }
            _ => 0,
        }
    }
}

/// The request that the arguments of a subcommand make.
#[tactic(auto, using(crate::proofs::Asking::no_task))]
fn request_of<'a>(
    subcommand: Subcommand,
    matches: &ArgMatches<'a>,
) -> Result<Request<'a>, BadArgument<'a>>
    ensures ok { IfOk result (λ request. Asks subcommand (found_in matches.now) request) }
    ensures range { IfOk result (λ request. IsInRange request.task) }
    ensures err { OnErr result ((request : Request) → ¬ (Asks subcommand (found_in matches.now) request)) }
{
    let file = text_of(matches, "FILE", "<FILE>")?;
    let task = task_of(subcommand, matches)?;
    let progress = has_flag(matches, "progress");
    Ok(Request {
        file,
        task,
        progress,
    })
}

/// The error that names an argument that is missing or whose text it does not accept, with the usage line of the
/// subcommand.
fn refusal(
    alloc: Global,
    subcommand: Subcommand,
    bad: BadArgument<'_>,
    notes: &Notes,
) -> Result<Error, AllocError> {
    let words = words_of(alloc, bad)?;
    usage_of(alloc, subcommand, notes)?.error(ErrorKind::ValueValidation, words.as_str())
}

/// The error that there is no subcommand.
fn missing_subcommand(alloc: Global, notes: &Notes) -> Result<Error, AllocError> {
    command(alloc, notes)?.error(ErrorKind::MissingSubcommand, "a subcommand is required")
}

/// The subcommand of the matches of the command line, with its own matches.
fn chosen<'m, 'a>(matches: &'m ArgMatches<'a>) -> Option<(Subcommand, &'m ArgMatches<'a>)>
    ensures some { IfSome result (λ both. subcommand_rows_of matches.now ≡ Some (word_of both.0, found_in both.1.now)) }
    ensures none { IfNone result (AsksForNone (subcommand_rows_of matches.now)) }
{
    let (word, inner) = matches.subcommand()?;
    Some((Subcommand::named(word)?, inner))
}

/// The request that clap's matches of the command line make. An error is out of memory, or they make none.
#[tactic(auto, using(crate::proofs::Parsing::refuses))]
fn asked<'a>(alloc: Global, matches: &ArgMatches<'a>, notes: &Notes) -> Result<Request<'a>, Error>
    ensures ok { IfOk result (λ request. AsksFor (subcommand_rows_of matches.now) request) }
    ensures range { IfOk result (λ request. IsInRange request.task) }
    ensures err { IfErr result (λ error. (kind_of error ≡ OutOfMemory) ⊎ AsksForNone (subcommand_rows_of matches.now)) }
{
    match chosen(matches) {
        Some((subcommand, inner)) => match request_of(subcommand, inner) {
            Ok(request) => Ok(request),
            Err(bad) => Err(refusal(alloc, subcommand, bad, notes)?),
        },
        None => Err(missing_subcommand(alloc, notes)?),
    }
}

/// What an error of clap says, without the advice to pass an option as an operand and what comes after.
fn message_of(text: &str) -> Option<&str> {
    let (message, _) = text.strip_prefix("error: ")?.split_once("\n\nUsage: ")?;
    match message.split_once("\n\n  tip: to pass ") {
        Some((start, _)) => Some(start),
        None => Some(message),
    }
}

/// A fault that clap finds in words, with the usage line of the subcommand that they name. `None` if they name none.
fn retold(
    alloc: Global,
    words: &[String],
    error: &Error,
    notes: &Notes,
) -> Result<Option<Error>, AllocError> {
    let [_, word, ..] = words else {
        return Ok(None);
    };
    let Some(subcommand) = Subcommand::named(word.as_str()) else {
        return Ok(None);
    };
    let text = format!(in alloc; "{error}")?;
    let Some(message) = message_of(text.as_str()) else {
        return Ok(None);
    };
    let error = usage_of(alloc, subcommand, notes)?.error(error.kind(), message)?;
    Ok(Some(error))
}

/// An error of clap; a fault that it finds in words has the usage line of the subcommand that they name.
fn with_usage(alloc: Global, words: &[String], error: Error, notes: &Notes) -> Error
    ensures { kind_of error ≡ OutOfMemory → kind_of result ≡ OutOfMemory }
{
    if error.kind() == ErrorKind::OutOfMemory {
        return error;
    }
    if !error.use_stderr() {
        return error;
    }
    match retold(alloc, words, &error, notes) {
        Ok(Some(better)) => better,
        Ok(None) => error,
        Err(lost) => Error::from(lost),
    }
}

/// What clap finds in the words of a command line.
fn found<'a>(alloc: Global, words: &'a [String], notes: &'a Notes) -> Result<ArgMatches<'a>, Error>
    ensures ok { IfOk result (λ matches. AreMatchesOf (map string_bytes words.now) matches) }
    ensures err { IfErr result (λ error. (kind_of error ≡ OutOfMemory) ⊎
        (fault_of program (map string_bytes words.now) ≢ [])) }
{
    let line = command(alloc, notes)?;
    line.try_get_matches_from(words)
}

/// What clap finds in the words of a command line. An error is out of memory, or clap finds a fault in them, or they
/// request help or the version.
fn matches_of<'a>(
    alloc: Global,
    words: &'a [String],
    notes: &'a Notes,
) -> Result<ArgMatches<'a>, Error>
    ensures ok { IfOk result (λ matches. AreMatchesOf (map string_bytes words.now) matches) }
    ensures err { IfErr result (λ error. (kind_of error ≡ OutOfMemory) ⊎
        (fault_of program (map string_bytes words.now) ≢ [])) }
{
    match found(alloc, words, notes) {
        Ok(matches) => Ok(matches),
        Err(error) => Err(with_usage(alloc, words, error, notes)),
    }
}

/// Reads the words of a command line, given the last parts of its help texts. An error has the text for the user, and
/// says whether help or the version was requested. It is out of memory, or the words are no request.
pub fn parse<'a>(alloc: Global, words: &'a [String], notes: &'a Notes) -> Result<Request<'a>, Error>
    ensures ok { IfOk result (λ request. IsRequestOf (map string_bytes words.now) request) }
    ensures range { IfOk result (λ request. IsInRange request.task) }
    ensures err { IfErr result (λ error. (kind_of error ≡ OutOfMemory) ⊎ IsNoRequest (map string_bytes words.now)) }
{
    let matches = matches_of(alloc, words, notes)?;
    asked(alloc, &matches, notes)
}
