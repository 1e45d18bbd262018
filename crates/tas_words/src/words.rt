//! The words of the command line.
//!
//! `--with` is a flag that goes with SCRIPT, which `tas edit` requires anyway, so it needs no new kind of word. Where
//! memory is refused while words are read the fault is `out of memory`, with status 1: the words may be right.

ghost use Rattle.std.specs.Prelude.{◌≡◌, IfOk, IfSome, codes, map, option_map, string_bytes};
ghost use Rattle.clap.specs.Words.{first_of, found_of, rows_of, subcommand_rows_of};
ghost use Rattle.tas_movie.specs.Content.{most_inputs};
ghost use Rattle.tas_words.specs.Task.{ArePairs, HasWords, IsEvery, IsFrameWord, IsNumberOr, IsNumberWord, IsOptionalFrameWord, IsOptionalNumberWord, IsOptionalPair, IsStart};
ghost use Rattle.tas_words.specs.CommandLine.{HasWordsOf, IsAsked, IsCommandLine};

use crate::command_line::command_line;
use crate::parts::{part_of, refusal_of};
use crate::{
    DEFAULT_EVERY, DEFAULT_HOLD, DEFAULT_STATES, DEFAULT_WORKERS, DeskWords, MAX_EVERY,
    MAX_FRAME_NUMBER, MAX_FRAMES, MAX_INSTRUCTIONS, MAX_LINE, MAX_STATES, MAX_WORKERS, MovieFiles,
    Order, Pair, Pairs, RecoveryWords, SearchWords, Start, TalkWords, Task, VerifyWords,
};
use clap::{ArgMatches, Command, Error};
use std::alloc::{Allocator, Global};

/// The word of this name, where there is one.
pub(crate) fn word_of<'a>(matches: &ArgMatches<'a>, name: &str) -> Option<&'a str>
    ensures { option_map (λ word. word.now) result
        ≡ first_of name.now (rows_of (found_of matches.now)) }
{
    matches.get_str(name)
}

/// The number of this name, where it is in its range.
fn number_of(matches: &ArgMatches<'_>, name: &str, least: u32, most: u32) -> Option<u32>
    ensures { IfSome result (IsNumberWord (rows_of (found_of matches.now)) name.now least most) }
{
    let n = matches.get_one::<u32>(name)?;
    // clap refuses other numbers before; no clause of `get_one` says so.
    if least <= n && n <= most {
        Some(n)
    } else {
        None
    }
}

/// The number of this name, in its range; `Some(None)` where there is none.
fn optional_number_of(
    matches: &ArgMatches<'_>,
    name: &str,
    least: u32,
    most: u32,
) -> Option<Option<u32>>
    ensures { IfSome result
        (IsOptionalNumberWord (rows_of (found_of matches.now)) name.now least most) }
{
    match word_of(matches, name) {
        Some(_) => Some(Some(number_of(matches, name, least, most)?)),
        None => Some(None),
    }
}

/// The number of a frame, of this name.
fn frame_of(matches: &ArgMatches<'_>, name: &str) -> Option<usize>
    ensures { IfSome result (IsFrameWord (rows_of (found_of matches.now)) name.now) }
{
    Some(number_of(matches, name, 0, MAX_FRAME_NUMBER)? as usize)
}

/// The number of a frame, of this name; `Some(None)` where there is none.
fn optional_frame_of(matches: &ArgMatches<'_>, name: &str) -> Option<Option<usize>>
    ensures { IfSome result (IsOptionalFrameWord (rows_of (found_of matches.now)) name.now) }
{
    match optional_number_of(matches, name, 0, MAX_FRAME_NUMBER)? {
        Some(frame) => Some(Some(frame as usize)),
        None => Some(None),
    }
}

/// The number of this name, from 1 to the most; the usual one where there is none.
fn number_or(matches: &ArgMatches<'_>, name: &str, most: u32, usual: u32) -> Option<usize>
    ensures { IfSome result (IsNumberOr (rows_of (found_of matches.now)) name.now most usual) }
{
    match optional_number_of(matches, name, 1, most)? {
        Some(number) => Some(number as usize),
        None => Some(usual as usize),
    }
}

/// How many frames a stretch of a digest has.
fn every_of(matches: &ArgMatches<'_>) -> Option<usize>
    ensures { IfSome result (IsEvery (rows_of (found_of matches.now))) }
{
    number_or(matches, "EVERY", MAX_EVERY, DEFAULT_EVERY)
}

/// How many frames a new movie has, or a search goes through at most.
fn frames_of(matches: &ArgMatches<'_>) -> Option<usize>
    ensures { IfSome result
        (IsNumberWord (rows_of (found_of matches.now)) (codes "FRAMES") 0 most_inputs) }
{
    Some(number_of(matches, "FRAMES", 0, MAX_FRAMES)? as usize)
}

/// What the words of `tas search` ask for.
fn search_task<'a>(matches: &ArgMatches<'a>) -> Option<Task<'a>>
    ensures { IfSome result (HasWords (codes "search") (rows_of (found_of matches.now))) }
{
    Some(Task::Search(SearchWords {
        cart: word_of(matches, "CART")?,
        from: frame_of(matches, "FROM")?,
        frames: frames_of(matches)?,
        goal: word_of(matches, "GOAL")?,
        choices: word_of(matches, "CHOICES"),
        names: word_of(matches, "NAMES"),
        hold: number_or(matches, "N", MAX_FRAMES, DEFAULT_HOLD)?,
        part: part_of(matches)?,
        states: number_or(matches, "STATES", MAX_STATES, DEFAULT_STATES)?,
        workers: number_or(matches, "WORKERS", MAX_WORKERS, DEFAULT_WORKERS)?,
        report: word_of(matches, "REPORT"),
    }))
}

/// What the words of `tas verify` ask for.
fn verify_task<'a>(matches: &ArgMatches<'a>) -> Option<Task<'a>>
    ensures { IfSome result (HasWords (codes "verify") (rows_of (found_of matches.now))) }
{
    Some(Task::Verify(VerifyWords {
        carts: word_of(matches, "DIR"),
        workers: number_or(matches, "WORKERS", MAX_WORKERS, DEFAULT_WORKERS)?,
    }))
}

/// What the words of `tas script` ask for; `None` where they name one file.
fn script_task<'a>(matches: &ArgMatches<'a>) -> Option<Task<'a>>
    ensures { IfSome result (HasWords (codes "script") (rows_of (found_of matches.now))) }
{
    match (word_of(matches, "CART"), word_of(matches, "MOVIE")) {
        (None, None) => Some(Task::Script(None)),
        (Some(cart), Some(movie)) => Some(Task::Script(Some(MovieFiles { cart, movie }))),
        _ => None,
    }
}

/// What the words of `tas talk` start from; `None` where they name a movie alone.
fn start_of<'a>(matches: &ArgMatches<'a>) -> Option<Start<'a>>
    ensures { IfSome result (IsStart (rows_of (found_of matches.now))) }
{
    match (word_of(matches, "CART"), word_of(matches, "MOVIE")) {
        (None, None) => Some(Start::Blank),
        (Some(cart), None) => Some(Start::Cart { cart }),
        (Some(cart), Some(movie)) => Some(Start::Movie(MovieFiles { cart, movie })),
        (None, Some(_)) => None,
    }
}

/// What the words of `tas talk` ask for.
fn talk_task<'a>(matches: &ArgMatches<'a>) -> Option<Task<'a>>
    ensures { IfSome result (HasWords (codes "talk") (rows_of (found_of matches.now))) }
{
    Some(Task::Talk(TalkWords {
        start: start_of(matches)?,
        journal: word_of(matches, "JOURNAL"),
    }))
}

/// The pair of these names; `Some(None)` where there is none, and `None` where one of them is alone.
fn pair_of<'a>(matches: &ArgMatches<'a>, input: &str, output: &str) -> Option<Option<Pair<'a>>>
    ensures { IfSome result
        (IsOptionalPair (rows_of (found_of matches.now)) (input.now, output.now)) }
{
    match (word_of(matches, input), word_of(matches, output)) {
        (Some(input), Some(output)) => Some(Some(Pair { input, output })),
        (None, None) => Some(None),
        _ => None,
    }
}

/// The pairs of files of `tas desk`.
fn pairs_of<'a>(matches: &ArgMatches<'a>) -> Option<Pairs<'a>>
    ensures { IfSome result (ArePairs (rows_of (found_of matches.now))) }
{
    Some(Pairs {
        first: pair_of(matches, "IN0", "OUT0")??,
        second: pair_of(matches, "IN1", "OUT1")?,
        third: pair_of(matches, "IN2", "OUT2")?,
        fourth: pair_of(matches, "IN3", "OUT3")?,
        fifth: pair_of(matches, "IN4", "OUT4")?,
        sixth: pair_of(matches, "IN5", "OUT5")?,
        seventh: pair_of(matches, "IN6", "OUT6")?,
        eighth: pair_of(matches, "IN7", "OUT7")?,
    })
}

/// What the words of `tas desk` ask for; `None` where a pair has one name alone.
fn desk_task<'a>(matches: &ArgMatches<'a>) -> Option<Task<'a>>
    ensures { IfSome result (HasWords (codes "desk") (rows_of (found_of matches.now))) }
{
    let journal = word_of(matches, "JOURNAL");
    Some(Task::Desk(DeskWords {
        cart: word_of(matches, "CART")?,
        movie: word_of(matches, "MOVIE")?,
        pairs: pairs_of(matches)?,
        journal,
    }))
}

/// What the command of this name asks for with its words; `None` where it is none of these, which write texts.
fn text_task<'a>(name: &str, words: &ArgMatches<'a>) -> Option<Task<'a>>
    ensures { IfSome result (HasWords name.now (rows_of (found_of words.now))) }
{
    match name {
        "trace" => Some(Task::Trace {
            instructions: number_of(words, "N", 0, MAX_INSTRUCTIONS)?,
        }),
        "check" => Some(Task::Check {
            cart: word_of(words, "CART")?,
        }),
        "migrate" => Some(Task::Migrate {
            cart: word_of(words, "CART")?,
        }),
        "new" => Some(Task::New {
            cart: word_of(words, "CART")?,
            frames: frames_of(words)?,
        }),
        "recover" => Some(Task::Recover(RecoveryWords {
            cart: word_of(words, "CART")?,
            until: optional_number_of(words, "LINE", 1, MAX_LINE)?,
            image: word_of(words, "IMAGE"),
        })),
        "search" => search_task(words),
        "verify" => verify_task(words),
        "edit" => Some(Task::Edit {
            cart: word_of(words, "CART")?,
            script: word_of(words, "SCRIPT")?,
            other: word_of(words, "OTHER"),
        }),
        "cut" => Some(Task::Cut {
            cart: word_of(words, "CART")?,
            from: frame_of(words, "FROM")?,
            to: frame_of(words, "TO")?,
        }),
        "diff" => Some(Task::Diff {
            cart: word_of(words, "CART")?,
            old: word_of(words, "OLD")?,
        }),
        "script" => script_task(words),
        "talk" => talk_task(words),
        "desk" => desk_task(words),
        _ => None,
    }
}

/// What the command of this name asks for with its words; `None` where it is none of these, which play frames.
fn frames_task<'a>(name: &str, words: &ArgMatches<'a>) -> Option<Task<'a>>
    ensures { IfSome result (HasWords name.now (rows_of (found_of words.now))) }
{
    match name {
        "shot" => Some(Task::Shot {
            cart: word_of(words, "CART")?,
            frame: frame_of(words, "K")?,
        }),
        "film" => Some(Task::Film {
            cart: word_of(words, "CART")?,
            from: optional_frame_of(words, "FROM")?,
            to: optional_frame_of(words, "TO")?,
        }),
        "export" => Some(Task::Export {
            cart: word_of(words, "CART")?,
            from: frame_of(words, "FROM")?,
            to: frame_of(words, "TO")?,
            workers: number_of(words, "WORKERS", 1, MAX_WORKERS)? as usize,
        }),
        "ram" => Some(Task::Ram {
            cart: word_of(words, "CART")?,
            from: frame_of(words, "FROM")?,
            to: frame_of(words, "TO")?,
            names: word_of(words, "NAMES"),
        }),
        "digest" => Some(Task::Digest {
            cart: word_of(words, "CART")?,
            every: every_of(words)?,
        }),
        "compare" => Some(Task::Compare {
            cart: word_of(words, "CART")?,
            old: word_of(words, "OLD")?,
        }),
        "lag" => Some(Task::Lag {
            cart: word_of(words, "CART")?,
        }),
        _ => None,
    }
}

/// What the command of this name asks for with its words; `None` where it is no command of this program.
fn command_task<'a>(name: &str, words: &ArgMatches<'a>) -> Option<Task<'a>>
    ensures { IfSome result (HasWords name.now (rows_of (found_of words.now))) }
{
    match text_task(name, words) {
        Some(task) => Some(task),
        None => frames_task(name, words),
    }
}

/// What matched words ask for; `None` where they are no command of this program.
fn order_of<'a>(matches: &ArgMatches<'a>) -> Option<Order<'a>>
    ensures { IfSome result
        (λ order. HasWordsOf (subcommand_rows_of matches.now) order.task order.output) }
{
    let (name, words) = matches.subcommand()?;
    let task = command_task(name, words)?;
    let output = word_of(words, "FILE");
    Some(Order { task, output })
}

/// What the words ask of this command line.
fn order_by<'a, A: Allocator>(
    global: Global,
    line: &mut Command<'a>,
    words: &'a [String<A>],
) -> Result<Order<'a>, Error>
    requires { IsCommandLine line.now }
    ensures { IfOk result
        (λ order. IsAsked (map string_bytes words.entry.now) order.task order.output) }
{
    let matches = line.try_get_matches_from_mut(words)?;
    match order_of(&matches) {
        Some(order) => Ok(order),
        None => Err(refusal_of(global, line, &matches)?),
    }
}

/// What the words ask for; the first of them is the program's name. The task is that of the command that they name, with its files and
/// numbers, and its output goes to the file that they name for it, where they do. An error is clap's: a text that was asked for, or words
/// that aren't understood, or no memory. clap takes its memory from `global` alone.
pub fn read_words<'a, A: Allocator>(
    global: Global,
    words: &'a [String<A>],
) -> Result<Order<'a>, Error>
    // The task is that of the command that the words name, its numbers in their ranges. `named_command` is clap's own
    // definition of the subcommand that words reach, over the commands' names and the flags for help and version.
    // Refused: shot_is_read_as_check, shot_is_answered_as_check*, new_is_read_as_check*, search_is_read_as_check*,
    // ram_is_read_as_export*, compare_is_read_as_diff*, cut_is_read_as_ram*, trace_of_one_instruction_too_many_is_read,
    // export_by_no_worker_is_read.
    // The task's files and numbers are the words of that command, by their names, as clap's own definition finds them
    // after it; a number is read in decimal digits, before which there may be a plus. What may be left out is missing
    // in the task exactly where it is in the words, as a pair of a desk's files, of which both names are there or
    // none; then EVERY of `digest` is 600, WORKERS is 1, and of `search` N is 1, STATES 100,000 and K/N 1/1. The two
    // numbers of K/N have neither signs nor leading zeros.
    // Refused: script_is_the_cartridges_file*, half_of_the_frame_is_asked*, film_starts_at_its_end*,
    // number_that_is_said_is_left_out*, every_is_600_whatever_is_said,
    // digest_is_of_single_frames_where_nothing_is_said*, second_movie_is_left_out*, names_file_is_the_choices_file,
    // names_of_a_table_are_left_out, states_are_the_frames_of_a_choice, line_of_until_is_left_out, image_of_a_recovery_is_left_out, search_goes_one_frame_far*, files_of_a_script_are_swapped,
    // conversation_over_a_movie_begins_without_it, conversation_has_no_journal, desk_has_no_journal, movie_of_a_desk_is_its_cartridge, names_of_a_pair_are_swapped,
    // answers_without_lines_are_left_out, first_names_of_two_pairs_are_swapped, seventh_pair_is_read_twice,
    // part_0_is_read, part_past_the_last_is_read, last_part_is_refused, numbers_of_a_part_are_swapped,
    // part_that_is_said_is_left_out*, more_than_a_million_parts_are_read*, directory_of_cartridges_is_left_out.
    // A command's output replaces the file FILE exactly where the words name one after `-o` or `--output`.
    // Refused: file_of_the_output_is_left_out, output_has_another_flag.
    ensures { IfOk result
        (λ order. IsAsked (map string_bytes words.entry.now) order.task order.output) }
{
    let mut line = command_line(global)?;
    order_by(global, &mut line, words)
}
