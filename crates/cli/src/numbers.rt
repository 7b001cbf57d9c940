//! The texts, the numbers and the flags of a command line.
ghost use Rattle.std.specs.Prelude.{◌≡◌, ◌==◌, ◌≤◌, false, true, Some, None, IfOk, OnOk, OnErr, IfSome, option_map};
ghost use Rattle.std.specs.Prelude.{slice_index};
ghost use Rattle.clap.specs.Walk.{first_of};
ghost use Rattle.cli.specs.Words.{HasFlag, HasNumber, HasText, LacksText, MayHaveNumber, found_in, number_from};
ghost use Rattle.cli.specs.Words.{number_if_given, number_in};
ghost use Rattle.cli.specs.declared.arguments.TheConstants.{MOST};

use crate::arguments::MOST;
use clap::ArgMatches;
use std::alloc::{AllocError, Global};

/// An argument that is missing, or whose text the program does not accept.
#[derive(Clone, Copy, Debug)]
pub(crate) enum BadArgument<'a> {
    /// The argument, as the usage line shows it, is missing.
    Missing(&'static str),
    /// The first argument is given beside the second, which excludes it.
    Beside(&'static str, &'static str),
    /// The argument is given without the number of a level.
    WithoutLevel(&'static str),
    /// The text is no number from the least to the greatest one that the argument accepts.
    Number {
        argument: &'static str,
        text: &'a str,
        least: u32,
        most: u32,
    },
}

/// The text of the argument with this name, if it has one.
pub(crate) fn given<'a>(matches: &ArgMatches<'a>, name: &str) -> Option<&'a str>
    ensures { option_map (λ text. text.now) result ≡ first_of name.now (found_in matches.now) }
{
    matches.get_str(name)
}

/// The text of the argument with this name; `argument` is its name in the usage line.
pub(crate) fn text_of<'a>(
    matches: &ArgMatches<'a>,
    name: &str,
    argument: &'static str,
) -> Result<&'a str, BadArgument<'a>>
    ensures ok { IfOk result (λ text. HasText (found_in matches.now) name.now text.now) }
    ensures err { OnErr result (LacksText (found_in matches.now) name.now) }
{
    match given(matches, name) {
        Some(text) => Ok(text),
        None => Err(BadArgument::Missing(argument)),
    }
}

/// Whether a word begins with a plus, which `parse` accepts.
fn has_plus(word: &str) -> bool
    ensures { result ≡ (slice_index word.now 0 == 43) }
{
    match word.as_bytes() {
        [first, ..] => *first == b'+',
        [] => false,
    }
}

/// The number that a word writes in decimal digits, if it is in the range.
#[tactic(auto, using(crate::proofs::Digits::readings))]
fn number_from(word: &str, least: u32, most: u32) -> Option<u32>
    ensures value { number_from least most word.now ≡ result }
    ensures range { IfSome result (λ n. (least ≤ n) × (n ≤ most)) }
{
    if has_plus(word) {
        return None;
    }
    let number = word.parse::<u32>().ok()?;
    if number < least {
        return None;
    }
    if most < number {
        return None;
    }
    Some(number)
}

/// The number that the text of an argument writes, if it is in the range; `argument` is its name in the usage line.
fn number_at<'a>(
    text: &'a str,
    argument: &'static str,
    least: u32,
    most: u32,
) -> Result<u32, BadArgument<'a>>
    ensures ok { IfOk result (λ n. number_from least most text.now ≡ Some n) }
    ensures err { OnErr result (number_from least most text.now ≡ None) }
    ensures range { IfOk result (λ n. (least ≤ n) × (n ≤ most)) }
{
    match number_from(text, least, most) {
        Some(number) => Ok(number),
        None => Err(BadArgument::Number {
            argument,
            text,
            least,
            most,
        }),
    }
}

/// The number of the argument with this name, at most `most`; `argument` is its name in the usage line.
pub(crate) fn number_of<'a>(
    matches: &ArgMatches<'a>,
    name: &str,
    argument: &'static str,
    most: u32,
) -> Result<u32, BadArgument<'a>>
    ensures ok { IfOk result (λ n. HasNumber (found_in matches.now) name.now most n) }
    ensures err { OnErr result (number_in (found_in matches.now) name.now most ≡ None) }
    ensures range { IfOk result (λ n. (1 ≤ n) × (n ≤ most)) }
{
    match given(matches, name) {
        Some(text) => number_at(text, argument, 1, most),
        None => Err(BadArgument::Missing(argument)),
    }
}

/// The number of the argument with this name, from `least` to [`MOST`], if the argument is given; `argument` is its
/// name in the usage line.
pub(crate) fn number_if_given<'a>(
    matches: &ArgMatches<'a>,
    name: &str,
    argument: &'static str,
    least: u32,
) -> Result<Option<u32>, BadArgument<'a>>
    ensures ok { IfOk result (λ number. MayHaveNumber (found_in matches.now) name.now least MOST number) }
    ensures err { OnErr result (number_if_given (found_in matches.now) name.now least MOST ≡ None) }
{
    let Some(text) = given(matches, name) else {
        return Ok(None);
    };
    let number = number_at(text, argument, least, MOST)?;
    Ok(Some(number))
}

/// Fails if the argument with this name is given, which another one excludes; `argument` and `other` are their names in
/// the usage line.
pub(crate) fn lacks<'a>(
    matches: &ArgMatches<'a>,
    name: &str,
    argument: &'static str,
    other: &'static str,
) -> Result<(), BadArgument<'a>>
    ensures ok { OnOk result (LacksText (found_in matches.now) name.now) }
    ensures err { OnErr result (¬ (LacksText (found_in matches.now) name.now)) }
{
    match given(matches, name) {
        None => Ok(()),
        Some(_) => Err(BadArgument::Beside(argument, other)),
    }
}

/// Fails with `bad` if the flag with this name is given.
pub(crate) fn lacks_flag<'a>(
    matches: &ArgMatches<'a>,
    name: &str,
    bad: BadArgument<'a>,
) -> Result<(), BadArgument<'a>>
    ensures ok { OnOk result (HasFlag (found_in matches.now) name.now false) }
    ensures err { OnErr result (HasFlag (found_in matches.now) name.now true) }
{
    match given(matches, name) {
        Some("true") => Err(bad),
        _ => Ok(()),
    }
}

/// Whether the flag with this name is given.
pub(crate) fn has_flag(matches: &ArgMatches<'_>, name: &str) -> bool
    ensures { HasFlag (found_in matches.now) name.now result }
{
    match given(matches, name) {
        Some("true") => true,
        _ => false,
    }
}

/// What is wrong with an argument, for the user.
pub(crate) fn words_of(alloc: Global, bad: BadArgument<'_>) -> Result<String, AllocError> {
    match bad {
        BadArgument::Missing(argument) => {
            format!(in alloc; "the argument '{argument}' is missing")
        }
        BadArgument::Beside(argument, other) => {
            format!(in alloc; "the argument '{argument}' cannot be used with '{other}'")
        }
        BadArgument::WithoutLevel(argument) => {
            format!(in alloc; "the argument '{argument}' cannot be used without '[N]'")
        }
        BadArgument::Number {
            argument,
            text,
            least,
            most,
        } => format!(in alloc;
            "invalid value '{text}' for '{argument}': it takes {least} to {most}, in decimal digits alone"
        ),
    }
}
