//! The subcommands with their arguments.
ghost use Rattle.std.specs.Prelude.{◌≡◌, ◌≢◌, [], IfOk, IfSome, IfNone, fold};
ghost use Rattle.clap.specs.Simple.{app_of, new_app};
ghost use Rattle.cli.specs.CommandLine.{arguments_of, bare_program, program, shape_for, with_argument};
ghost use Rattle.cli.specs.Words.{word_of};

use crate::arguments::Argument;
use crate::help;
use crate::help::Notes;
use clap::Command;
use std::alloc::{AllocError, Global};

/// A subcommand of the program.
#[derive(Clone, Copy, Debug)]
pub enum Subcommand {
    Check,
    Explain,
    Show,
    Dead,
    Replay,
    Solve,
    Best,
    Prove,
}

impl Subcommand {
    /// All subcommands, in the order of the help text.
    const ALL: [Subcommand; 8] = [
        Subcommand::Check,
        Subcommand::Explain,
        Subcommand::Show,
        Subcommand::Dead,
        Subcommand::Replay,
        Subcommand::Solve,
        Subcommand::Best,
        Subcommand::Prove,
    ];

    /// The subcommand with this word.
    pub(crate) fn named(word: &str) -> Option<Subcommand>
        ensures some { IfSome result (λ subcommand. word.now ≡ word_of subcommand) }
        ensures none { IfNone result ((subcommand : Subcommand) → word.now ≢ word_of subcommand) }
    {
        match word {
            "check" => Some(Subcommand::Check),
            "explain" => Some(Subcommand::Explain),
            "show" => Some(Subcommand::Show),
            "dead" => Some(Subcommand::Dead),
            "replay" => Some(Subcommand::Replay),
            "solve" => Some(Subcommand::Solve),
            "best" => Some(Subcommand::Best),
            "prove" => Some(Subcommand::Prove),
            _ => None,
        }
    }

    /// The word of the subcommand.
    fn word<'a>(self) -> &'a str
        ensures { result.now ≡ word_of self }
    {
        match self {
            Subcommand::Check => "check",
            Subcommand::Explain => "explain",
            Subcommand::Show => "show",
            Subcommand::Dead => "dead",
            Subcommand::Replay => "replay",
            Subcommand::Solve => "solve",
            Subcommand::Best => "best",
            Subcommand::Prove => "prove",
        }
    }

    /// The subcommand's line in the help text.
    fn about<'a>(self) -> &'a str {
        match self {
            Subcommand::Check => "Checks each level",
            Subcommand::Explain => "Says where and why levels are faulty",
            Subcommand::Show => "Shows levels in plain rows",
            Subcommand::Dead => "Shows walls, goals and dead squares of a level",
            Subcommand::Replay => "Replays a solution on a level",
            Subcommand::Solve =>
                "Finds the first solution with the fewest pushes, and counts positions",
            Subcommand::Best => "Finds a solution with the fewest pushes, also of harder levels",
            Subcommand::Prove => "Proves that a solution has the fewest pushes",
        }
    }

    /// The last part of its help text, if it has one.
    fn notes(self, notes: &Notes) -> Option<&str> {
        match self {
            Subcommand::Check => Some(notes.check.as_str()),
            Subcommand::Explain => Some(help::EXPLAIN),
            Subcommand::Show => Some(help::SHOW),
            Subcommand::Dead => Some(help::DEAD),
            Subcommand::Replay => Some(notes.replay.as_str()),
            Subcommand::Solve => Some(notes.solve.as_str()),
            Subcommand::Best => Some(notes.best.as_str()),
            Subcommand::Prove => Some(notes.prove.as_str()),
        }
    }

    /// The subcommand's arguments, in the order of the help text.
    fn arguments(self) -> &'static [Argument]
        ensures { result.now ≡ arguments_of self }
    {
        match self {
            Subcommand::Check => &[Argument::File],
            Subcommand::Explain => &[Argument::File, Argument::OptionalNumber],
            Subcommand::Show => &[
                Argument::File,
                Argument::OptionalNumber,
                Argument::From,
                Argument::To,
            ],
            Subcommand::Dead => &[Argument::File, Argument::Number],
            Subcommand::Replay => &[
                Argument::File,
                Argument::OptionalNumber,
                Argument::OptionalSolution,
                Argument::Solutions,
                Argument::From,
                Argument::To,
                Argument::Table,
            ],
            Subcommand::Solve => &[
                Argument::File,
                Argument::Number,
                Argument::Workers,
                Argument::Locks,
                Argument::Limit,
                Argument::MaxPushes,
                Argument::Lurd,
            ],
            Subcommand::Best => &[
                Argument::File,
                Argument::OptionalNumber,
                Argument::From,
                Argument::To,
                Argument::Workers,
                Argument::Limit,
                Argument::Seconds,
                Argument::MaxPushes,
                Argument::Moves,
                Argument::Table,
                Argument::Lurd,
                Argument::Progress,
            ],
            Subcommand::Prove => &[
                Argument::File,
                Argument::OptionalNumber,
                Argument::OptionalSolution,
                Argument::Solutions,
                Argument::From,
                Argument::To,
                Argument::Workers,
                Argument::Limit,
                Argument::Seconds,
                Argument::Moves,
                Argument::Table,
                Argument::Lurd,
                Argument::Progress,
            ],
        }
    }

    /// The subcommand as a command of clap without arguments, with the last part of its help text.
    fn bare_command<'a>(self, alloc: Global, notes: &'a Notes) -> Command<'a>
        ensures { app_of result ≡ new_app (word_of self) }
    {
        let line = Command::new(alloc, self.word()).about(self.about());
        match self.notes(notes) {
            Some(text) => line.after_help(text),
            None => line,
        }
    }

    /// The subcommand as a command of clap, with the last part of its help text.
    pub(crate) fn command<'a>(
        self,
        alloc: Global,
        notes: &'a Notes,
    ) -> Result<Command<'a>, AllocError>
        ensures { IfOk result (λ line. app_of line ≡ record { top = shape_for self; subs = [] }) }
    {
        with_arguments(alloc, self.bare_command(alloc, notes), self.arguments())
    }
}

/// A command line with these arguments more.
fn with_arguments<'a>(
    alloc: Global,
    command: Command<'a>,
    arguments: &[Argument],
) -> Result<Command<'a>, AllocError>
    ensures { IfOk result (λ line. app_of line ≡ fold with_argument (app_of command.entry) arguments.now) }
{
    let mut line = command;
    for argument in arguments {
        line = line.arg(argument.arg(alloc))?;
    }
    Ok(line)
}

/// The program's command line without its subcommands.
fn bare_command<'a>(alloc: Global, notes: &'a str) -> Result<Command<'a>, AllocError>
    ensures { IfOk result (λ line. app_of line ≡ bare_program) }
{
    Ok(
        Command::new(alloc, "sokopar")
            .bin_name("sokopar")?
            .about("Checks, shows, replays and solves Sokoban levels")
            .version(help::VERSION)
            .after_help(notes)
            .subcommand_required(true),
    )
}

/// The command line of the program, given the last parts of its help texts.
pub(crate) fn command<'a>(alloc: Global, notes: &'a Notes) -> Result<Command<'a>, AllocError>
    ensures { IfOk result (λ line. app_of line ≡ program) }
{
    let mut line = bare_command(alloc, notes.program.as_str())?;
    for subcommand in Subcommand::ALL {
        line = line.subcommand(subcommand.command(alloc, notes)?)?;
    }
    Ok(line)
}

/// The command line of a subcommand, whose usage line begins with the program's name.
pub(crate) fn usage_of<'a>(
    alloc: Global,
    subcommand: Subcommand,
    notes: &'a Notes,
) -> Result<Command<'a>, AllocError> {
    let word = subcommand.word();
    let words = format!(in alloc; "sokopar {word}")?;
    subcommand.command(alloc, notes)?.bin_name(words.as_str())
}
