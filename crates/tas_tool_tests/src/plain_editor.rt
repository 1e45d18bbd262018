//! A second answerer of scripts of few frames, as plain as can be: each shot is played from power-on, the frames before it without
//! a picture.

use crate::checks::{expect_ok, expect_some};
use crate::plain_script::{Frame, Image, Line, read_line, split_once};
use std::alloc::Global;
use std::process::Abort;
use vcs_cpu::Halt;
use vcs_machine::{Cart, Input, Meter, State, Stick, play, play_unseen};
use vcs_tia::Picture;

/// The most frames of a movie.
const MOST: usize = 262_144;

/// A movie under edits.
#[derive(Drop)]
struct Editor {
    edits: u64,
    image: Image,
    frames: Vec<Frame>,
}

/// Whether a frame has a letter at a place.
fn is_set(frame: &Frame, place: usize) -> bool {
    matches!(frame.get(place), Some(letter) if *letter != b'.')
}

/// The input of a frame.
fn input_of(frame: &Frame) -> Input {
    Input {
        left: Stick {
            right: is_set(frame, 0),
            left: is_set(frame, 1),
            down: is_set(frame, 2),
            up: is_set(frame, 3),
            fire: is_set(frame, 4),
        },
        right: Stick {
            right: is_set(frame, 6),
            left: is_set(frame, 7),
            down: is_set(frame, 8),
            up: is_set(frame, 9),
            fire: is_set(frame, 10),
        },
        reset: is_set(frame, 12),
        select: is_set(frame, 13),
        mono: is_set(frame, 14),
        left_a: is_set(frame, 15),
        right_a: is_set(frame, 16),
    }
}

impl Editor {
    /// The blank cartridge without frames.
    fn new(alloc: Global) -> Editor {
        Editor {
            edits: 0,
            image: Image {
                bytes: [0u8; 4096],
                size: 4096,
            },
            frames: Vec::new(alloc),
        }
    }

    /// The frames with some of them taken out at a place, and copies of one put in there.
    fn change<R: Abort>(
        &mut self,
        rt: &R,
        alloc: Global,
        place: usize,
        taken: usize,
        copies: &[Frame],
    ) {
        let front = expect_some(rt, self.frames.get(..place));
        let rest = expect_some(rt, self.frames.get(place.saturating_add(taken)..));
        let mut frames = Vec::new(alloc);
        for part in [front, copies, rest] {
            expect_ok(rt, frames.extend_from_slice(part));
        }
        self.frames = frames;
    }

    /// Plays up to a frame, of which it makes a picture: why it isn't drawn, if it isn't.
    fn play_up_to(&self, cart: &Cart, k: usize, picture: &mut Picture) -> Option<Halt> {
        let mut state = State::power_on(cart);
        let mut halted = None;
        for (place, frame) in self.frames.iter().enumerate().take(k.saturating_add(1)) {
            let (input, mut meter) = (input_of(frame), Meter::new());
            halted = if place == k {
                play(cart, &mut state, input, picture, &mut meter).err()
            } else {
                play_unseen(cart, &mut state, input, &mut meter).err()
            };
        }
        halted
    }

    /// How many pixels of a frame aren't black, or why it isn't drawn.
    fn draw<R: Abort>(&self, rt: &R, alloc: Global, k: usize) -> Result<usize, Halt> {
        let bytes = expect_some(rt, self.image.bytes.get(..self.image.size));
        let cart = expect_ok(rt, Cart::from_bytes(alloc, bytes));
        let mut picture = expect_ok(rt, Picture::blank(alloc));
        match self.play_up_to(&cart, k, &mut picture) {
            None => Ok(picture.lit()),
            Some(halt) => Err(halt),
        }
    }

    /// The reply to a shot. Below frame 64 no state is kept, so all frames are played.
    fn shot<R: Abort>(&self, rt: &R, alloc: Global, k: usize) -> String {
        let (at, ran) = (self.edits, k.saturating_add(1));
        let reply = match self.draw(rt, alloc, k) {
            Ok(lit) => format!(in alloc; "shot {at} {k} ran {ran} lit {lit}\n"),
            Err(
                Halt::Undocumented {
                    at: address,
                    opcode,
                },
            ) => format!(in alloc; "halted {at} {address:04X} {opcode:02X}\n"),
        };
        expect_ok(rt, reply)
    }

    /// The reply of this name, with the edits so far and the movie's length.
    fn told<R: Abort>(&self, rt: &R, alloc: Global, name: &str) -> String {
        let (at, len) = (self.edits, self.frames.len());
        expect_ok(rt, format!(in alloc; "{name} {at} len {len}\n"))
    }

    /// The reply to an edit that is made.
    fn made<R: Abort>(&mut self, rt: &R, alloc: Global) -> String {
        self.edits = self.edits.saturating_add(1);
        self.told(rt, alloc, "edit")
    }

    /// The reply to a change: this many frames from a place on go, and copies of one come.
    fn edit<R: Abort>(
        &mut self,
        rt: &R,
        alloc: Global,
        place: usize,
        taken: usize,
        copies: (usize, Frame),
    ) -> String {
        let len = self.frames.len();
        let (count, frame) = copies;
        if place.saturating_add(taken) > len {
            return self.told(rt, alloc, "place");
        }
        if len.saturating_sub(taken).saturating_add(count) > MOST {
            return self.told(rt, alloc, "long");
        }
        let copies = expect_ok(rt, vec![in alloc; frame; count]);
        self.change(rt, alloc, place, taken, copies.as_slice());
        self.made(rt, alloc)
    }

    /// The reply to a look at the input of a frame.
    fn input<R: Abort>(&self, rt: &R, alloc: Global, k: usize) -> String {
        let at = self.edits;
        match self.frames.get(k) {
            Some(frame) => {
                let letters = expect_ok(rt, String::from_utf8_lossy(alloc, frame));
                expect_ok(rt, format!(in alloc; "input {at} {letters}\n"))
            }
            None => self.told(rt, alloc, "no frame"),
        }
    }

    /// The reply to a line.
    fn answer<R: Abort>(&mut self, rt: &R, alloc: Global, line: Line) -> String {
        let (at, len) = (self.edits, self.frames.len());
        match line {
            Line::Load(image) => {
                self.image = image;
                self.made(rt, alloc)
            }
            Line::Insert(place, count, frame) => self.edit(rt, alloc, place, 0, (count, frame)),
            Line::Replace(place, count, frame) => {
                self.edit(rt, alloc, place, count, (count, frame))
            }
            Line::Delete(place, count) => self.edit(rt, alloc, place, count, (0, [b'.'; 17])),
            Line::Len => expect_ok(rt, format!(in alloc; "len {at} {len}\n")),
            Line::Input(k) => self.input(rt, alloc, k),
            Line::Shot(k) if k < len => self.shot(rt, alloc, k),
            Line::Shot(_) => self.told(rt, alloc, "no frame"),
            Line::Work(_) => {
                expect_ok(rt, String::from_str(alloc, "work jobs 1 kept 0 stale 0\n"))
            }
        }
    }

    /// Answers the first of some lines, and gives those after it; nothing where it isn't understood.
    fn answer_first<'a, R: Abort>(
        &mut self,
        rt: &R,
        alloc: Global,
        lines: &'a [u8],
        replies: &mut Vec<u8>,
    ) -> Option<&'a [u8]> {
        let (line, others) = split_once(lines, b'\n')?;
        let asked = read_line(rt, alloc, line)?;
        let reply = self.answer(rt, alloc, asked);
        expect_ok(rt, replies.extend_from_slice(reply.as_bytes()));
        Some(others)
    }

    /// Answers a script of few lines up to one that isn't understood, if there is one: its number.
    fn answer_all<R: Abort>(
        &mut self,
        rt: &R,
        alloc: Global,
        script: &[u8],
        replies: &mut Vec<u8>,
    ) -> Option<usize> {
        let mut rest = script;
        for number in 1..20usize {
            if rest.is_empty() {
                return None;
            }
            let Some(others) = self.answer_first(rt, alloc, rest, replies) else {
                return Some(number);
            };
            rest = others;
        }
        Some(20)
    }
}

/// The replies to a script of few lines, and the line that isn't understood, if there is one.
pub fn answer_plainly<R: Abort>(rt: &R, alloc: Global, script: &[u8]) -> (Vec<u8>, Option<usize>) {
    let mut editor = Editor::new(alloc);
    let mut replies = Vec::new(alloc);
    let fault = editor.answer_all(rt, alloc, script, &mut replies);
    (replies, fault)
}
