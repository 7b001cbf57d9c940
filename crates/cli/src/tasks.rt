//! The task of the arguments of a subcommand.
ghost use Rattle.std.specs.Prelude.{◌≡◌, ◌≤◌, ◌⊎◌, ℕ, None, IfOk, OnErr, codes};
ghost use Rattle.cli.specs.Requests.{AsksTask, HasConfig, HasSettings, IsInRange, NamesLevel, NamesRange};
ghost use Rattle.cli.specs.Words.{HasText, LacksText, found_in, number_if_given, number_in};
ghost use Rattle.cli.specs.declared.arguments.TheConstants.{MOST, MOST_WORKERS};

use crate::arguments::{MOST, MOST_LOCKS, MOST_WORKERS};
use crate::numbers::{
    BadArgument, given, has_flag, lacks, lacks_flag, number_if_given, number_of, text_of,
};
use crate::request::Task;
use crate::subcommands::Subcommand;
use clap::ArgMatches;
use crew::Config;
use sokopar::{LevelRequest, LevelsRequest, Settings, SolveRequest};

/// The settings of a request that searches nothing.
const WITHOUT_SEARCH: Settings = Settings {
    cap: None,
    limit: MOST,
    moves: false,
    seconds: None,
};

/// The task that the arguments of `solve` ask for.
fn solve_task<'a>(matches: &ArgMatches<'a>) -> Result<Task<'a>, BadArgument<'a>>
    ensures ok { IfOk result (λ task. AsksTask Subcommand.Solve (found_in matches.now) task) }
    ensures range { IfOk result (λ task. IsInRange task) }
    ensures err { OnErr result ((task : Task) → ¬ (AsksTask Subcommand.Solve (found_in matches.now) task)) }
{
    let number = number_of(matches, "N", "<N>", MOST)?;
    let workers = number_of(matches, "workers", "--workers <W>", MOST_WORKERS)?;
    let locks = number_of(matches, "locks", "--locks <K>", MOST_LOCKS)?;
    let limit = number_of(matches, "limit", "--limit <L>", MOST)?;
    let cap = number_if_given(matches, "max-pushes", "--max-pushes <M>", 0)?;
    let config = Config {
        workers: workers as u8,
        locks: locks as u8,
        limit,
        cap,
    };
    let lurd = has_flag(matches, "lurd");
    Ok(Task::Solve(SolveRequest {
        number,
        config,
        lurd,
    }))
}

/// The level of the arguments, which give no range.
fn named_level<'a>(matches: &ArgMatches<'a>) -> Result<u32, BadArgument<'a>>
    ensures ok { IfOk result (λ number. NamesLevel (found_in matches.now) number) }
    ensures range { IfOk result (λ number. 1 ≤ number) }
    ensures err { OnErr result ((number : ℕ) → ¬ (NamesLevel (found_in matches.now) number)) }
{
    let number = number_of(matches, "N", "<N>", MOST)?;
    lacks(matches, "from", "--from <A>", "[N]")?;
    lacks(matches, "to", "--to <B>", "[N]")?;
    lacks_flag(matches, "table", BadArgument::Beside("--table", "[N]"))?;
    Ok(number)
}

/// The range of the arguments, which give no level. `other` excludes one.
fn named_range<'a>(
    matches: &ArgMatches<'a>,
    other: &'static str,
) -> Result<(u32, u32), BadArgument<'a>>
    ensures ok { IfOk result (λ range. NamesRange (found_in matches.now) range.0 range.1) }
    ensures err { OnErr result ((from to : ℕ) → ¬ (NamesRange (found_in matches.now) from to)) }
{
    lacks(matches, "N", "[N]", other)?;
    lacks_flag(matches, "lurd", BadArgument::WithoutLevel("--lurd"))?;
    let from = number_if_given(matches, "from", "--from <A>", 1)?.unwrap_or(1);
    let to = number_if_given(matches, "to", "--to <B>", from)?.unwrap_or(MOST);
    Ok((from, to))
}

/// The task for the arguments of `show`.
fn show_task<'a>(matches: &ArgMatches<'a>) -> Result<Task<'a>, BadArgument<'a>>
    ensures ok { IfOk result (λ task. AsksTask Subcommand.Show (found_in matches.now) task) }
    ensures range { IfOk result (λ task. IsInRange task) }
    ensures err { OnErr result ((task : Task) → ¬ (AsksTask Subcommand.Show (found_in matches.now) task)) }
{
    match given(matches, "N") {
        Some(_) => {
            let number = named_level(matches)?;
            Ok(Task::Show(number))
        }
        None => {
            let (from, to) = named_range(matches, "--from <A>")?;
            Ok(Task::ShowRange { from, to })
        }
    }
}

/// The number of workers of `best` and `prove`, and their settings without a cap.
fn settings_of<'a>(matches: &ArgMatches<'a>) -> Result<(u8, Settings), BadArgument<'a>>
    ensures ok { IfOk result (λ config. HasSettings (found_in matches.now) config.0 config.1) }
    ensures err { OnErr result (
        (number_in (found_in matches.now) (codes "workers") MOST_WORKERS ≡ None) ⊎
        (number_in (found_in matches.now) (codes "limit") MOST ≡ None) ⊎
        (number_if_given (found_in matches.now) (codes "seconds") 1 MOST ≡ None)) }
{
    let workers = number_of(matches, "workers", "--workers <W>", MOST_WORKERS)?;
    let limit = number_of(matches, "limit", "--limit <L>", MOST)?;
    let seconds = number_if_given(matches, "seconds", "--seconds <T>", 1)?;
    let moves = has_flag(matches, "moves");
    let settings = Settings {
        cap: None,
        limit,
        moves,
        seconds,
    };
    Ok((workers as u8, settings))
}

/// The number of workers of `best`, and its settings.
fn config_of<'a>(matches: &ArgMatches<'a>) -> Result<(u8, Settings), BadArgument<'a>>
    ensures ok { IfOk result (λ config. HasConfig (found_in matches.now) config.0 config.1) }
    ensures err { OnErr result (
        (number_in (found_in matches.now) (codes "workers") MOST_WORKERS ≡ None) ⊎
        (number_in (found_in matches.now) (codes "limit") MOST ≡ None) ⊎
        (number_if_given (found_in matches.now) (codes "seconds") 1 MOST ≡ None) ⊎
        (number_if_given (found_in matches.now) (codes "max-pushes") 0 MOST ≡ None)) }
{
    let (workers, settings) = settings_of(matches)?;
    let cap = number_if_given(matches, "max-pushes", "--max-pushes <M>", 0)?;
    Ok((workers, Settings { cap, ..settings }))
}

/// The task that the arguments of `best` ask for.
fn best_task<'a>(matches: &ArgMatches<'a>) -> Result<Task<'a>, BadArgument<'a>>
    ensures ok { IfOk result (λ task. AsksTask Subcommand.Best (found_in matches.now) task) }
    ensures range { IfOk result (λ task. IsInRange task) }
    ensures err { OnErr result ((task : Task) → ¬ (AsksTask Subcommand.Best (found_in matches.now) task)) }
{
    match given(matches, "N") {
        Some(_) => {
            let number = named_level(matches)?;
            let (workers, settings) = config_of(matches)?;
            Ok(Task::Best(LevelRequest {
                number,
                workers,
                settings,
                lurd: has_flag(matches, "lurd"),
            }))
        }
        None => {
            let (from, to) = named_range(matches, "--from <A>")?;
            let (workers, settings) = config_of(matches)?;
            Ok(Task::BestCollection(LevelsRequest {
                from,
                to,
                table: has_flag(matches, "table"),
                proves: true,
                workers,
                settings,
            }))
        }
    }
}

/// The task for the arguments of `prove` without a folder.
fn prove_task<'a>(matches: &ArgMatches<'a>) -> Result<Task<'a>, BadArgument<'a>>
    requires { LacksText (found_in matches.now) (codes "solutions") }
    ensures ok { IfOk result (λ task. AsksTask Subcommand.Prove (found_in matches.now) task) }
    ensures range { IfOk result (λ task. IsInRange task) }
    ensures err { OnErr result ((task : Task) → ¬ (AsksTask Subcommand.Prove (found_in matches.now) task)) }
{
    let solution = text_of(matches, "SOLUTION", "<SOLUTION>")?;
    let number = named_level(matches)?;
    let (workers, settings) = settings_of(matches)?;
    let search = LevelRequest {
        number,
        workers,
        settings,
        lurd: has_flag(matches, "lurd"),
    };
    Ok(Task::Prove { search, solution })
}

/// The task for the arguments of `prove` for the solutions of this folder.
fn solutions_task<'a>(
    folder: &'a str,
    matches: &ArgMatches<'a>,
) -> Result<Task<'a>, BadArgument<'a>>
    requires { HasText (found_in matches.now) (codes "solutions") folder.now }
    ensures ok { IfOk result (λ task. AsksTask Subcommand.Prove (found_in matches.now) task) }
    ensures range { IfOk result (λ task. IsInRange task) }
    ensures err { OnErr result ((task : Task) → ¬ (AsksTask Subcommand.Prove (found_in matches.now) task)) }
{
    let (from, to) = named_range(matches, "--solutions <FOLDER>")?;
    lacks(matches, "SOLUTION", "[SOLUTION]", "--solutions <FOLDER>")?;
    let (workers, settings) = settings_of(matches)?;
    let search = LevelsRequest {
        from,
        to,
        table: has_flag(matches, "table"),
        proves: true,
        workers,
        settings,
    };
    Ok(Task::ProveCollection { search, folder })
}

/// The task for the arguments of `replay` without a folder.
fn replay_task<'a>(matches: &ArgMatches<'a>) -> Result<Task<'a>, BadArgument<'a>>
    requires { LacksText (found_in matches.now) (codes "solutions") }
    ensures ok { IfOk result (λ task. AsksTask Subcommand.Replay (found_in matches.now) task) }
    ensures range { IfOk result (λ task. IsInRange task) }
    ensures err { OnErr result ((task : Task) → ¬ (AsksTask Subcommand.Replay (found_in matches.now) task)) }
{
    let number = named_level(matches)?;
    let solution = text_of(matches, "SOLUTION", "<SOLUTION>")?;
    Ok(Task::Replay { number, solution })
}

/// The task for the arguments of `replay` for the solutions of this folder.
fn replays_task<'a>(folder: &'a str, matches: &ArgMatches<'a>) -> Result<Task<'a>, BadArgument<'a>>
    requires { HasText (found_in matches.now) (codes "solutions") folder.now }
    ensures ok { IfOk result (λ task. AsksTask Subcommand.Replay (found_in matches.now) task) }
    ensures range { IfOk result (λ task. IsInRange task) }
    ensures err { OnErr result ((task : Task) → ¬ (AsksTask Subcommand.Replay (found_in matches.now) task)) }
{
    let (from, to) = named_range(matches, "--solutions <FOLDER>")?;
    lacks(matches, "SOLUTION", "[SOLUTION]", "--solutions <FOLDER>")?;
    let search = LevelsRequest {
        from,
        to,
        table: has_flag(matches, "table"),
        proves: false,
        workers: 1,
        settings: WITHOUT_SEARCH,
    };
    Ok(Task::ProveCollection { search, folder })
}

/// The task for the arguments of a subcommand.
pub(crate) fn task_of<'a>(
    subcommand: Subcommand,
    matches: &ArgMatches<'a>,
) -> Result<Task<'a>, BadArgument<'a>>
    ensures ok { IfOk result (λ task. AsksTask subcommand (found_in matches.now) task) }
    ensures range { IfOk result (λ task. IsInRange task) }
    ensures err { OnErr result ((task : Task) → ¬ (AsksTask subcommand (found_in matches.now) task)) }
{
    match subcommand {
        Subcommand::Check => Ok(Task::Check),
        Subcommand::Explain => {
            let number = number_if_given(matches, "N", "<N>", 1)?;
            Ok(Task::Explain(number))
        }
        Subcommand::Show => show_task(matches),
        Subcommand::Dead => {
            let number = number_of(matches, "N", "<N>", MOST)?;
            Ok(Task::Dead(number))
        }
        Subcommand::Replay => match given(matches, "solutions") {
            Some(folder) => replays_task(folder, matches),
            None => replay_task(matches),
        },
        Subcommand::Solve => solve_task(matches),
        Subcommand::Best => best_task(matches),
        Subcommand::Prove => match given(matches, "solutions") {
            Some(folder) => solutions_task(folder, matches),
            None => prove_task(matches),
        },
    }
}
