//! The files of a desk's conversations.

ghost use Rattle.std.specs.Prelude.{◌≡◌, ◌≤◌, All, length, map, IfOk};
ghost use Rattle.tas_desk.specs.Seats.{most_seats};
ghost use Rattle.tas_program.specs.Files.{Reaches};
ghost use Rattle.tas_words.specs.Task.{pairs_in};

use crate::{Folder, Permit};
use std::alloc::{AllocError, Global};
use std::io;
use tas_tool::Door;
use tas_words::{Pair, Pairs};

/// A pair of a folder's files, by their names: a conversation's lines come from one, and its answers go to the other.
#[derive(Drop)]
pub(crate) struct Pipes<'a, F> {
    folder: &'a F,
    pair: Pair<'a>,
    permit: Permit,
}

impl<F: Folder> Door for Pipes<'_, F> {
    type Input = F::File;

    type Output = F::Sink;

    // What was written to an output has reached a file of the folder's when it is closed, and none of it is kept in memory: an
    // output of another type would need a writer of the folder's that holds as much.
    // Refused: none, `close` is handed the folder's own writer.
    ghost facts = { record {
      given = λ pipes. F.bytes_of pipes.folder.now pipes.pair.input.now;
      held = λ pipes. F.held_by pipes.folder.now pipes.pair.output.now;
      left = λ pipes input output. Reaches F.Sink.contents output;
      refused = λ pipes. Unit {0};
    } };

    // A pair's first file is opened for reading, and the second one for writing.
    // Refused: answers_are_written_over_the_lines, lines_are_read_from_the_answers.
    fn open(&mut self) -> io::Result<(F::File, F::Sink)> {
        let input = self.folder.open(self.pair.input)?;
        let output = self.folder.open_to_write(self.permit, self.pair.output)?;
        Ok((input, output))
    }

    fn close(&mut self, input: F::File, output: F::Sink) {
        drop((input, output));
    }
}

/// The pairs' files in a folder, in order.
pub(crate) fn pipes_of<'a, F: Folder>(
    alloc: Global,
    folder: &'a F,
    pairs: Pairs<'a>,
    permit: Permit,
) -> Result<Vec<Pipes<'a, F>>, AllocError>
    ensures pairs { IfOk result (λ doors. map (λ door. door.pair) doors.items
        ≡ pairs_in pairs.entry) }
    ensures folder { IfOk result (λ doors. All (λ door. door.folder.now ≡ folder.now) doors.items) }
    ensures few { length (pairs_in pairs.entry) ≤ most_seats }
{
    let places = [
        Some(pairs.first),
        pairs.second,
        pairs.third,
        pairs.fourth,
        pairs.fifth,
        pairs.sixth,
        pairs.seventh,
        pairs.eighth,
    ];
    let mut doors = Vec::new(alloc);
    for place in places {
        if let Some(pair) = place {
            doors.push(Pipes {
                folder,
                pair,
                permit,
            })?;
        }
    }
    Ok(doors)
}
