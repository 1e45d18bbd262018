//! The engines, called alike.

use crate::checks::check_same;
use crate::inputs::Bytes;
use std::alloc::{Allocator, Global};
use std::io::{ErrorKind, Write};
use std::process::Abort;
use std::sync::Wait;
use std::thread::Threads;
use tas_engines::{Whole, commands, run as run_command};
use tas_tool::{
    ToolFault, cart_talk_run, export_run, film_run, movie_script_run, movie_talk_run, script_run,
    talk_run,
};
use test_streams::Giver;

/// An engine of the program.
#[derive(Clone, Copy, Debug)]
pub enum Engine {
    Trace,
    Check,
    Migrate,
    New,
    Shot,
    Film,
    Ram,
    RamTable,
    Digest,
    Compare,
    Lag,
    Cut,
    Edit,
    /// With a second movie.
    EditWith,
    Diff,
    /// Of two movies with as many frames.
    DiffReplaced,
    Script,
    MovieScript,
    /// By this many workers.
    Export(usize),
    Talk,
    CartTalk,
    MovieTalk,
}

/// What an engine reads as one of its inputs.
#[derive(Clone, Copy)]
pub enum Part {
    Cart,
    Old,
    New,
    Replaced,
    Changes,
    ChangesWith,
    Names,
    Script,
    Talk,
    /// It has no such input.
    Nothing,
}

/// What an engine reads, in order.
type Parts = [Part; 4];

const CART: Parts = [Part::Cart, Part::Nothing, Part::Nothing, Part::Nothing];

const MOVIE: Parts = [Part::Cart, Part::Old, Part::Nothing, Part::Nothing];

const TWO_MOVIES: Parts = [Part::Cart, Part::Old, Part::New, Part::Nothing];

/// An engine, what it reads, and how many of its growths end it and how many an answer tells.
pub type Row = (Engine, Parts, (u64, u64));

/// All engines. `growth_tests` says where the growths are.
pub static ENGINES: [Row; 24] = [
    (Engine::Trace, CART, (3, 0)),
    (Engine::Check, MOVIE, (8, 0)),
    (Engine::Migrate, MOVIE, (7, 0)),
    (Engine::New, CART, (7, 0)),
    (Engine::Shot, MOVIE, (7, 0)),
    (Engine::Film, MOVIE, (7, 0)),
    (Engine::Ram, MOVIE, (6, 0)),
    (
        Engine::RamTable,
        [Part::Cart, Part::Names, Part::Old, Part::Nothing],
        (13, 0),
    ),
    (Engine::Digest, MOVIE, (16, 0)),
    (Engine::Compare, TWO_MOVIES, (17, 0)),
    (Engine::Lag, MOVIE, (7, 0)),
    (Engine::Cut, MOVIE, (7, 0)),
    (
        Engine::Edit,
        [Part::Cart, Part::Changes, Part::Old, Part::Nothing],
        (10, 0),
    ),
    (
        Engine::EditWith,
        [Part::Cart, Part::ChangesWith, Part::New, Part::Old],
        (14, 0),
    ),
    (Engine::Diff, TWO_MOVIES, (34, 0)),
    (
        Engine::DiffReplaced,
        [Part::Cart, Part::Old, Part::Replaced, Part::Nothing],
        (31, 0),
    ),
    (
        Engine::Script,
        [Part::Script, Part::Nothing, Part::Nothing, Part::Nothing],
        (42, 16),
    ),
    (
        Engine::MovieScript,
        [Part::Cart, Part::Old, Part::Script, Part::Nothing],
        (54, 14),
    ),
    (
        Engine::Talk,
        [Part::Talk, Part::Nothing, Part::Nothing, Part::Nothing],
        (37, 27),
    ),
    (
        Engine::CartTalk,
        [Part::Cart, Part::Talk, Part::Nothing, Part::Nothing],
        (46, 25),
    ),
    (
        Engine::MovieTalk,
        [Part::Cart, Part::Old, Part::Talk, Part::Nothing],
        (49, 25),
    ),
    (Engine::Export(1), MOVIE, (34, 0)),
    (Engine::Export(2), MOVIE, (36, 0)),
    (Engine::Export(4), MOVIE, (38, 0)),
];

impl Engine {
    /// Whether it answers the lines of its last input one by one. The others read their inputs whole before they write anything.
    pub fn is_conversation(self) -> bool {
        matches!(self, Engine::Talk | Engine::CartTalk | Engine::MovieTalk)
    }
}

impl Part {
    /// Its bytes.
    fn bytes<'a>(self, all: &'a Bytes) -> &'a [u8] {
        match self {
            Part::Cart => all.cart.as_slice(),
            Part::Old => all.old.as_slice(),
            Part::New => all.new.as_slice(),
            Part::Replaced => all.replaced.as_slice(),
            Part::Changes => all.changes.as_slice(),
            Part::ChangesWith => all.changes_with.as_slice(),
            Part::Names => all.names.as_slice(),
            Part::Script => all.script.as_slice(),
            Part::Talk => all.talk.as_slice(),
            Part::Nothing => all.none.as_slice(),
        }
    }
}

/// The input that an engine reads at this place, counted from 0; an empty one after its last.
pub fn input<'a>(row: Row, bytes: &'a Bytes, place: usize) -> &'a [u8] {
    let part = row.1.get(place).copied().unwrap_or(Part::Nothing);
    part.bytes(bytes)
}

/// How many inputs an engine reads.
pub fn count(row: Row) -> usize {
    let mut count = 0usize;
    for part in row.1.iter() {
        if !matches!(part, Part::Nothing) {
            count = count.saturating_add(1);
        }
    }
    count
}

/// All inputs of an engine, each given by as few reads as it takes, of which none fails.
pub fn inputs_of(row: Row, bytes: &Bytes) -> Given<'_> {
    Given {
        inputs: [
            input(row, bytes, 0),
            input(row, bytes, 1),
            input(row, bytes, 2),
            input(row, bytes, 3),
        ],
        at_once: usize::MAX,
        fails_at: [0; 4],
        kind: ErrorKind::Other,
    }
}

/// What an engine reads, and how.
#[derive(Clone, Copy)]
pub struct Given<'a> {
    /// Its inputs; those after its last one are empty.
    pub inputs: [&'a [u8]; 4],
    /// How many bytes each read gives at most.
    pub at_once: usize,
    /// Which read of each input fails, counted from 1; at 0 none does.
    pub fails_at: [usize; 4],
    /// The kind of the error.
    pub kind: ErrorKind,
}

impl<'a> Given<'a> {
    /// The reader of one of its inputs.
    fn giver(&self, input: &'a [u8], fails_at: usize) -> Giver<'a> {
        let mut giver = Giver::new(input, self.at_once, fails_at);
        giver.kind = self.kind;
        giver
    }
}

/// How an engine ended, and how often it read each input.
pub type Ran = (Result<(), ToolFault>, [usize; 4]);

/// Runs an engine.
pub fn run<T: Wait + Threads + Sync, A: Allocator + Copy + Send + Sync, W: Write>(
    rt: &T,
    alloc: A,
    engine: Engine,
    given: Given<'_>,
    output: &mut W,
) -> Ran {
    let mut one = given.giver(given.inputs[0], given.fails_at[0]);
    let mut two = given.giver(given.inputs[1], given.fails_at[1]);
    let mut three = given.giver(given.inputs[2], given.fails_at[2]);
    let mut four = given.giver(given.inputs[3], given.fails_at[3]);
    let (first, second, third) = (&mut one, &mut two, &mut three);
    let mut none: [&[u8]; 0] = [];
    let end = match engine {
        Engine::Trace => {
            let command = commands::Trace { instructions: 3 };
            run_command(alloc, &command, &mut none, first, output)
        }
        Engine::Check => run_command(alloc, &commands::Check, &mut [first], second, output),
        Engine::Migrate => {
            run_command(
                alloc,
                &Whole(commands::Migrate),
                &mut [first],
                second,
                output,
            )
        }
        Engine::New => {
            run_command(
                alloc,
                &Whole(commands::New { frames: 3 }),
                &mut none,
                first,
                output,
            )
        }
        Engine::Shot => {
            run_command(
                alloc,
                &commands::Shot { frame: 1 },
                &mut [first],
                second,
                output,
            )
        }
        Engine::Film => film_run(alloc, Some(1), Some(3), first, second, output),
        Engine::Ram => {
            let command = commands::Ram { from: 1, to: 4 };
            run_command(alloc, &command, &mut [first], second, output)
        }
        Engine::RamTable => {
            let mut files = [first, second];
            let command = commands::RamTable { from: 1, to: 4 };
            run_command(alloc, &command, &mut files, third, output)
        }
        Engine::Digest => {
            let command = Whole(commands::Digest { every: 2 });
            run_command(alloc, &command, &mut [first], second, output)
        }
        Engine::Compare => {
            let mut files = [first, second];
            run_command(alloc, &Whole(commands::Compare), &mut files, third, output)
        }
        Engine::Lag => run_command(alloc, &Whole(commands::Lag), &mut [first], second, output),
        Engine::Cut => {
            let command = Whole(commands::Cut { from: 1, to: 3 });
            run_command(alloc, &command, &mut [first], second, output)
        }
        Engine::Edit => {
            let mut files = [first, second];
            run_command(alloc, &Whole(commands::Edit), &mut files, third, output)
        }
        Engine::EditWith => {
            let mut files = [first, second, third];
            run_command(
                alloc,
                &Whole(commands::EditWith),
                &mut files,
                &mut four,
                output,
            )
        }
        Engine::Diff | Engine::DiffReplaced => {
            let mut files = [first, second];
            run_command(alloc, &Whole(commands::Diff), &mut files, third, output)
        }
        Engine::Script => script_run(rt, alloc, first, output),
        Engine::MovieScript => movie_script_run(rt, alloc, first, second, third, output),
        Engine::Export(workers) => export_run(rt, alloc, 1, 3, workers, first, second, output),
        Engine::Talk => talk_run(rt, alloc, first, output).end,
        Engine::CartTalk => cart_talk_run(rt, alloc, first, second, output).end,
        Engine::MovieTalk => movie_talk_run(rt, alloc, first, second, third, output).end,
    };
    (end, [one.reads, two.reads, three.reads, four.reads])
}

/// What an engine writes over good inputs, where nothing is refused.
pub fn whole_of<T: Wait + Threads + Sync + Abort>(
    rt: &T,
    alloc: Global,
    row: Row,
    bytes: &Bytes,
) -> Vec<u8> {
    let mut whole = Vec::new(alloc);
    let (end, _reads) = run(rt, alloc, row.0, inputs_of(row, bytes), &mut whole);
    check_same(rt, row.0, end, Ok(()));
    whole
}
