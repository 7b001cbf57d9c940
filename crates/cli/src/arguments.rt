//! The arguments of the command line.
ghost use Rattle.std.specs.Prelude.{◌≡◌};
ghost use Rattle.clap.specs.Walk.{rule_of};
ghost use Rattle.cli.specs.CommandLine.{flag, operand, option, option_or, optional_operand, rule_for};

use clap::{Arg, ArgAction};
use layers::{MAX_SHARES, MAX_WORKERS};
use std::alloc::Global;

/// The default limit of positions.
const DEFAULT_LIMIT: &str = "1000000";

/// The default number of workers.
const DEFAULT_WORKERS: &str = "1";

/// The default number of locks.
const DEFAULT_LOCKS: &str = "1";

/// The greatest level number, limit of positions or seconds, and cap of pushes.
pub(crate) const MOST: u32 = u32::MAX;

/// The greatest number of workers.
pub(crate) const MOST_WORKERS: u32 = MAX_WORKERS as u32;

/// The greatest number of locks.
pub(crate) const MOST_LOCKS: u32 = MAX_SHARES as u32;

/// An argument of a subcommand.
#[derive(Clone, Copy, Debug)]
pub enum Argument {
    /// The operand FILE.
    File,
    /// The operand N.
    Number,
    /// The operand N, which may be left out.
    OptionalNumber,
    /// The operand SOLUTION, which may be left out.
    OptionalSolution,
    /// The option `--solutions FOLDER`.
    Solutions,
    /// The option `--workers W`.
    Workers,
    /// The option `--locks K`.
    Locks,
    /// The option `--limit L`.
    Limit,
    /// The option `--seconds T`.
    Seconds,
    /// The option `--max-pushes M`.
    MaxPushes,
    /// The option `--from A`.
    From,
    /// The option `--to B`.
    To,
    /// The flag `--moves`.
    Moves,
    /// The flag `--table`.
    Table,
    /// The flag `--lurd`.
    Lurd,
    /// The flag `--progress`.
    Progress,
}

impl Argument {
    /// The argument's line in the help text.
    fn help<'a>(self) -> &'a str {
        match self {
            Argument::File => "A collection of levels",
            Argument::Number => "The number of a level, counted from 1",
            Argument::OptionalNumber => {
                "The number of a level, counted from 1; without it all levels"
            }
            Argument::OptionalSolution => "A file with the moves in LURD notation",
            Argument::Solutions => "Without N and SOLUTION: all N.lurd of a folder",
            Argument::Workers => "Number of threads",
            Argument::Locks => "Number of locks, usually best equal to W",
            Argument::Limit => "Stops beyond L positions",
            Argument::Seconds => "Stops a search after T seconds",
            Argument::MaxPushes => "Looks only for solutions with at most M pushes",
            Argument::From => "Without N: the first level",
            Argument::To => "Without N: the last level",
            Argument::Moves => "Also decides which moves are the fewest",
            Argument::Table => "Without N: a table, with tabs between its columns",
            Argument::Lurd => "Prints only the solution, without the first line",
            Argument::Progress => "Shows bounds and positions on standard error",
        }
    }

    /// Clap's argument.
    pub(crate) fn arg<'a>(self, alloc: Global) -> Arg<'a>
        ensures { rule_of result ≡ rule_for self }
    {
        let help = self.help();
        match self {
            Argument::File => operand(alloc, "FILE", help),
            Argument::Number => operand(alloc, "N", help),
            Argument::OptionalNumber => optional_operand(alloc, "N", help),
            Argument::OptionalSolution => optional_operand(alloc, "SOLUTION", help),
            Argument::Solutions => option(alloc, "solutions", "FOLDER", help),
            Argument::Workers => option_or(alloc, "workers", "W", help, DEFAULT_WORKERS),
            Argument::Locks => option_or(alloc, "locks", "K", help, DEFAULT_LOCKS),
            Argument::Limit => option_or(alloc, "limit", "L", help, DEFAULT_LIMIT),
            Argument::Seconds => option(alloc, "seconds", "T", help),
            Argument::MaxPushes => option(alloc, "max-pushes", "M", help),
            Argument::From => option(alloc, "from", "A", help),
            Argument::To => option(alloc, "to", "B", help),
            Argument::Moves => flag(alloc, "moves", help),
            Argument::Table => flag(alloc, "table", help),
            Argument::Lurd => flag(alloc, "lurd", help),
            Argument::Progress => flag(alloc, "progress", help),
        }
    }
}

/// An operand that may be left out.
fn optional_operand<'a>(alloc: Global, name: &'a str, help: &'a str) -> Arg<'a>
    ensures { rule_of result ≡ optional_operand name.now }
{
    Arg::new(alloc, name).help(help)
}

/// An operand that must be given.
fn operand<'a>(alloc: Global, name: &'a str, help: &'a str) -> Arg<'a>
    ensures { rule_of result ≡ operand name.now }
{
    Arg::new(alloc, name).help(help).required(true)
}

/// An option whose value the help text calls `value`.
fn option<'a>(alloc: Global, name: &'a str, value: &'a str, help: &'a str) -> Arg<'a>
    ensures { rule_of result ≡ option name.now }
{
    Arg::new(alloc, name)
        .long(name)
        .value_name(value)
        .help(help)
}

/// An option with a default, whose value the help text calls `value`.
fn option_or<'a>(
    alloc: Global,
    name: &'a str,
    value: &'a str,
    help: &'a str,
    default: &'a str,
) -> Arg<'a>
    ensures { rule_of result ≡ option_or name.now default.now }
{
    option(alloc, name, value, help).default_value(default)
}

/// A flag.
fn flag<'a>(alloc: Global, name: &'a str, help: &'a str) -> Arg<'a>
    ensures { rule_of result ≡ flag name.now }
{
    Arg::new(alloc, name)
        .long(name)
        .help(help)
        .action(ArgAction::SetTrue)
}
