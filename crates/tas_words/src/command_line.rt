//! The program's command line, as clap takes it.
//!
//! The commands are four lists with a contract each: the proof of one list with all texts met the checker's limit of
//! steps. `help` and `version` as words are the script's: here they would be two commands with no engine, and clap's
//! own definition, on which a contract rests, would have a case more for each.

ghost use Rattle.std.specs.Prelude.{◌≡◌, IfOk, None, false, map};
ghost use Rattle.clap.specs.Words.{app_of, rule_of};
ghost use Rattle.tas_words.specs.CommandLine.{empty_line, flag_rule, lone_flag_rule, may_number_rule, may_word_rule, number_flag_rule, number_rule, output_rule, paired_word_rule, rule_of_word, version_text, with_commands, word_rule, HasRules, HasVersion, IsCommandLine};
ghost use Rattle.tas_words.specs.Guides.{HasUsage};

use crate::subcommands::{
    Subcommand, Word, WordKind, first_subcommands, last_subcommands, later_subcommands,
    next_subcommands,
};
use clap::{Arg, ArgAction, Command, value_parser};
use std::alloc::{AllocError, Global};

/// What `tas --version` prints after the program's name: the program's version, and the number of the machine's profile. The proof
/// compares it with that of `vcs_machine`.
fn version<'a>() -> &'a str
    // Refused: version_has_the_profile_before.
    ensures { result.now ≡ version_text }
{
    "0.3.0, machine profile 2"
}

const TAS_HELP: &str = "\
Standard input is read whole before anything is written to standard output; 'talk' reads it line by
line, and 'desk' and 'new' leave it alone.
Status: 0 done, 1 a fault (one line on standard error), 2 a wrong command line, or a word of 'desk'
or 'talk' that names a file that it may not name (one line, too).";

/// A required word that names a file.
fn file<'a>(alloc: Global, name: &'a str, help: &'a str) -> Arg<'a>
    ensures local { result.global ≡ false }
    ensures rule { rule_of result ≡ word_rule name.now None }
{
    Arg::new(alloc, name)
        .required(true)
        .action(ArgAction::Set)
        .help(help)
}

/// A word that may name a file.
fn optional_file<'a>(alloc: Global, name: &'a str, help: &'a str) -> Arg<'a>
    ensures local { result.global ≡ false }
    ensures rule { rule_of result ≡ may_word_rule name.now }
{
    Arg::new(alloc, name).action(ArgAction::Set).help(help)
}

/// A word that may name a file, and goes with another one.
fn paired_file<'a>(
    alloc: Global,
    name: &'a str,
    other: &'a str,
    help: &'a str,
) -> Result<Arg<'a>, AllocError>
    ensures local { IfOk result (λ arg. arg.global ≡ false) }
    ensures rule { IfOk result (λ arg. rule_of arg ≡ paired_word_rule name.now) }
{
    Arg::new(alloc, name)
        .action(ArgAction::Set)
        .help(help)
        .requires_arg(other)
}

/// A word that names a file, after a flag, and goes with another one.
fn flag<'a>(
    alloc: Global,
    name: &'a str,
    flag: &'a str,
    other: &'a str,
    help: &'a str,
) -> Result<Arg<'a>, AllocError>
    ensures local { IfOk result (λ arg. arg.global ≡ false) }
    ensures rule { IfOk result (λ arg. rule_of arg ≡ flag_rule name.now flag.now) }
{
    Arg::new(alloc, name)
        .long(flag)
        .action(ArgAction::Set)
        .value_name(name)
        .help(help)
        .requires_arg(other)
}

/// A word that names a file, after a flag, and goes with no other one.
fn lone_flag<'a>(alloc: Global, name: &'a str, flag: &'a str, help: &'a str) -> Arg<'a>
    ensures local { result.global ≡ false }
    ensures rule { rule_of result ≡ lone_flag_rule name.now flag.now }
{
    Arg::new(alloc, name)
        .long(flag)
        .action(ArgAction::Set)
        .value_name(name)
        .help(help)
}

/// A word that names the file for the output, after `-o` or `--output`.
fn output<'a>(alloc: Global, name: &'a str, help: &'a str) -> Arg<'a>
    ensures local { result.global ≡ false }
    ensures rule { rule_of result ≡ output_rule name.now }
{
    Arg::new(alloc, name)
        .short('o')
        .long("output")
        .action(ArgAction::Set)
        .value_name(name)
        .help(help)
}

/// A required word that is a number in a range.
fn number<'a>(alloc: Global, name: &'a str, help: &'a str, least: u32, most: u32) -> Arg<'a>
    ensures local { result.global ≡ false }
    ensures rule { rule_of result ≡ number_rule name.now least most }
{
    Arg::new(alloc, name)
        .required(true)
        .action(ArgAction::Set)
        .value_parser(value_parser!(u32).range(i64::from(least)..=i64::from(most)))
        .help(help)
}

/// A number in a range that may be left out.
fn optional_number<'a>(
    alloc: Global,
    name: &'a str,
    help: &'a str,
    least: u32,
    most: u32,
) -> Arg<'a>
    ensures local { result.global ≡ false }
    ensures rule { rule_of result ≡ may_number_rule name.now least most }
{
    Arg::new(alloc, name)
        .action(ArgAction::Set)
        .value_parser(value_parser!(u32).range(i64::from(least)..=i64::from(most)))
        .help(help)
}

/// A number in a range, after a flag, that may be left out.
fn number_flag<'a>(
    alloc: Global,
    name: &'a str,
    flag: &'a str,
    help: &'a str,
    range: (u32, u32),
) -> Arg<'a>
    ensures local { result.global ≡ false }
    ensures rule { rule_of result ≡ number_flag_rule name.now flag.now range.0 range.1 }
{
    let (least, most) = range;
    Arg::new(alloc, name)
        .long(flag)
        .action(ArgAction::Set)
        .value_name(name)
        .value_parser(value_parser!(u32).range(i64::from(least)..=i64::from(most)))
        .help(help)
}

/// A word, as clap takes it.
fn arg_of<'a>(alloc: Global, word: Word) -> Result<Arg<'a>, AllocError>
    ensures local { IfOk result (λ arg. arg.global ≡ false) }
    ensures rule { IfOk result (λ arg. rule_of arg ≡ rule_of_word word) }
{
    let (name, help) = (word.name, word.help);
    match word.kind {
        WordKind::File => Ok(file(alloc, name, help)),
        WordKind::OptionalFile => Ok(optional_file(alloc, name, help)),
        WordKind::PairedFile { other } => paired_file(alloc, name, other, help),
        WordKind::Flag { flag: long, other } => flag(alloc, name, long, other, help),
        WordKind::LoneFlag { flag: long } => Ok(lone_flag(alloc, name, long, help)),
        WordKind::Output => Ok(output(alloc, name, help)),
        WordKind::Number { least, most } => Ok(number(alloc, name, help, least, most)),
        WordKind::OptionalNumber { least, most } => {
            Ok(optional_number(alloc, name, help, least, most))
        }
        WordKind::NumberFlag {
            flag: long,
            least,
            most,
        } => Ok(number_flag(alloc, name, long, help, (least, most))),
    }
}

/// A command with its words, as clap takes it.
fn with_words<'a>(alloc: Global, subcommand: Subcommand) -> Result<Command<'a>, AllocError>
    ensures { IfOk result (HasRules subcommand.name.now (map rule_of_word subcommand.words.now)) }
{
    let mut command = Command::new(alloc, subcommand.name)
        .about(subcommand.about)
        .after_help(subcommand.help);
    for word in subcommand.words {
        command = command.arg(arg_of(alloc, *word)?)?;
    }
    Ok(command)
}

/// A command, as clap takes it.
pub(crate) fn command_of<'a>(
    alloc: Global,
    subcommand: Subcommand,
) -> Result<Command<'a>, AllocError>
    ensures rules { IfOk result
        (HasRules subcommand.name.now (map rule_of_word subcommand.words.now)) }
    // Refused: usage_is_the_summary.
    ensures usage { IfOk result (λ command. HasUsage command subcommand.usage.now) }
{
    // The usage is given last, since clap's `arg` says nothing of it.
    let command = with_words(alloc, subcommand)?;
    Ok(command.override_usage(subcommand.usage))
}

/// The program's command line before it has commands and a version.
fn empty_line<'a>(alloc: Global) -> Result<Command<'a>, AllocError>
    ensures { IfOk result (λ line. app_of line ≡ empty_line) }
{
    Ok(
        Command::new(alloc, "tas")
            .bin_name("tas")?
            .about("Replays movies of Atari 2600 cartridges, exactly and from power-on")
            .after_help(TAS_HELP)
            .subcommand_required(true)
            .disable_help_subcommand(true),
    )
}

/// A command line with these commands after its own.
fn with_commands<'a>(
    alloc: Global,
    line: Command<'a>,
    subcommands: &[Subcommand],
) -> Result<Command<'a>, AllocError>
    ensures { IfOk result (λ new. app_of new ≡ with_commands (app_of line.entry) subcommands.now) }
{
    let mut line = line;
    for subcommand in subcommands {
        line = line.subcommand(command_of(alloc, *subcommand)?)?;
    }
    Ok(line)
}

/// The program's command line.
pub(crate) fn command_line<'a>(alloc: Global) -> Result<Command<'a>, AllocError>
    // The text that clap is given as the program's version, with no long one beside it, has the number of the machine's
    // profile.
    // Refused: command_line_is_given_another_version.
    ensures line { IfOk result IsCommandLine }
    ensures version { IfOk result (λ line. HasVersion line version_text) }
{
    let empty = empty_line(alloc)?;
    let line = with_commands(alloc, empty, first_subcommands())?;
    let line = with_commands(alloc, line, next_subcommands())?;
    let line = with_commands(alloc, line, later_subcommands())?;
    let line = with_commands(alloc, line, last_subcommands())?;
    // The version is given last, since clap's `subcommand` says nothing of it.
    Ok(line.version(version()))
}
