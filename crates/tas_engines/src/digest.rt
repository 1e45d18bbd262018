//! `tas digest`.
//!
//! A digest is held until the last frame is played: so a movie that halts leaves nothing that looks like the beginning
//! of one. It has one picture for each stretch, since drawing and hashing all would take many times as long; RAM after
//! each frame shows nearly everything, and `tas compare` finds the first picture that differs. A stretch has the RAM of
//! its own frames alone: two movies that differ in one and meet again have equal stretches later.

ghost use Rattle.std.specs.Prelude.{◌≡◌, ℕ, ◌+◌, ◌-◌, ◌≤◌, ◌<◌, max, List, ◌++◌, length, decimal, None, Some, Ok, Err, IfOk, IfErr, OnOk};
ghost use Rattle.std.specs.Int.{div_ceil};
ghost use Rattle.std.specs.List.{flat_map, range_with_len};
ghost use Rattle.hex.specs.Hex.{encode_lower};
ghost use Rattle.sha2.specs.Hashers.{Holds256};
ghost use Rattle.vcs_tia.specs.Image.{ppm_bytes};
ghost use Rattle.tas_green.specs.Run.{state_after, picture_of, answer_of};
ghost use Rattle.tas_engines.specs.Commands.{OfTwo};
ghost use Rattle.tas_engines.specs.Digests.{
  digest_of,
  ram_of_frames,
  stretch_text,
  line_of_stretch,
  digest_line,
  digest_head,
  digest_end,
  digest_text,
  NoneHalted,
  IsDigestFault,
  IsDigestAnswer,
};

use crate::commands::{Text, bytes_of};
use crate::passing::{draw_frame, fill_pixmap, pass_frame};
use crate::{RunFault, halt_fault, movie_of};
use itoa::Buffer;
use sha2::{Digest as Hashing, Sha256};
use std::alloc::{AllocError, Allocator};
use tas_movie::{Movie, print_text};
use vcs_cpu::Halt;
use vcs_machine::{PROFILE, State};
use vcs_tia::{PIXMAP_SIZE, Picture};

/// How many hexadecimal digits a digest has.
const DIGITS: usize = 64;

/// A digest as lower case hexadecimal digits.
fn digits_of(digest: [u8; 32]) -> [u8; DIGITS]
    ensures { result ≡ encode_lower digest }
{
    let mut digits = [0; DIGITS];
    hex::encode_to_slice(digest, &mut digits).unwrap();
    digits
}

/// The digits of the digest of some bytes.
fn digest_of(bytes: &[u8]) -> [u8; DIGITS]
    ensures { result ≡ digest_of bytes.now }
{
    digits_of(Sha256::digest(bytes))
}

/// Adds a state's RAM to a message, or returns its halt.
fn hash_ram(state: &State, hasher: &mut Sha256) -> Result<(), Halt>
    ensures answer { result ≡ answer_of state.now.halt }
    ensures ram { OnOk result
        ((m : List ℕ) → Holds256 hasher.old m → Holds256 hasher.new (m ++ state.now.riot.ram)) }
{
    if let Some(halt) = state.halted() {
        return Err(halt);
    }
    hasher.update(state.ram());
    Ok(())
}

/// Plays the frames of a stretch and draws the last one: the digits of the digest of RAM after each of them, or the
/// halt of one of them.
fn play_stretch<A: Allocator, B: Allocator>(
    movie: &Movie<A>,
    from: usize,
    to: usize,
    state: &mut State,
    picture: &mut Picture<B>,
) -> Result<[u8; DIGITS], Halt>
    requires order { from < to }
    requires within { to ≤ length movie.now.inputs }
    requires start { state.old ≡ state_after movie.now from }
    ensures state { OnOk result (state.new ≡ state_after movie.now to) }
    ensures drawn { OnOk result
        ((f : ℕ) → from ≤ f → f < to → (state_after movie.now (f + 1)).halt ≡ None) }
    ensures ram { IfOk result (λ digits. digits ≡ digest_of (ram_of_frames movie.now from to)) }
    ensures picture { OnOk result (picture.new ≡ picture_of movie.now (to - 1)) }
    ensures halted { IfErr result
        (λ halt. (f : ℕ) × (f < length movie.now.inputs)
        × ((state_after movie.now (f + 1)).halt ≡ Some halt)) }
{
    let mut hasher = Sha256::new();
    let last = to - 1;
    for k in from..last {
        pass_frame(movie, k, state);
        hash_ram(state, &mut hasher)?;
    }
    draw_frame(movie, last, state, picture)?;
    hasher.update(&state.ram());
    Ok(digits_of(hasher.finalize()))
}

/// Pixmaps of pictures that follow one another, of which equal ones are hashed once.
#[derive(Drop)]
struct Pixmaps<A: Allocator> {
    /// The last picture's.
    made: Vec<u8, A>,
    /// The one that was hashed last.
    hashed: Vec<u8, A>,
    /// The digits of its digest.
    digits: [u8; DIGITS],
}

impl<A: Allocator + Copy> Pixmaps<A> {
    /// No picture's, with room for those that come.
    fn new(alloc: A) -> Result<Pixmaps<A>, AllocError>
        ensures { IfOk result (λ pixmaps. pixmaps.digits ≡ digest_of pixmaps.hashed.items) }
    {
        Ok(Pixmaps {
            made: Vec::with_capacity(alloc, PIXMAP_SIZE)?,
            hashed: Vec::with_capacity(alloc, PIXMAP_SIZE)?,
            digits: digest_of(&[]),
        })
    }

    /// The digits of the digest of a picture's pixmap.
    fn digest<B: Allocator>(&mut self, picture: &Picture<B>) -> Result<[u8; DIGITS], AllocError>
        requires { self.old.digits ≡ digest_of self.old.hashed.items }
        ensures digits { IfOk result (λ digits. digits ≡ digest_of (ppm_bytes picture.now)) }
        ensures hashed { OnOk result (self.new.digits ≡ digest_of self.new.hashed.items) }
    {
        fill_pixmap(picture, &mut self.made)?;
        if self.made.as_slice() != self.hashed.as_slice() {
            self.hashed.clear();
            self.hashed.extend_from_slice(self.made.as_slice())?;
            self.digits = digest_of(self.hashed.as_slice());
        }
        Ok(self.digits)
    }
}

/// Adds a number in decimal digits.
pub(crate) fn push_number<A: Allocator>(out: &mut Vec<u8, A>, n: usize) -> Result<(), AllocError>
    ensures { OnOk result (out.new.items ≡ out.old.items ++ decimal n) }
{
    let mut buffer = Buffer::new();
    out.extend_from_slice(buffer.format(n).as_bytes())
}

/// The frames of a stretch, from `from` to `to` - 1, with the digits of their two digests.
#[derive(Drop)]
struct Stretch {
    from: usize,
    to: usize,
    ram: [u8; DIGITS],
    picture: [u8; DIGITS],
}

/// Adds the line of a stretch.
fn push_stretch<A: Allocator>(out: &mut Vec<u8, A>, stretch: &Stretch) -> Result<(), AllocError>
    ensures { OnOk result
        (out.new.items
        ≡ out.old.items
        ++ stretch_text stretch.now.from stretch.now.to stretch.now.ram stretch.now.picture) }
{
    out.extend_from_slice(b"frames ")?;
    push_number(out, stretch.from)?;
    out.extend_from_slice(b" to ")?;
    push_number(out, stretch.to)?;
    out.extend_from_slice(b" ram ")?;
    out.extend_from_slice(&stretch.ram)?;
    out.extend_from_slice(b" picture ")?;
    out.extend_from_slice(&stretch.picture)?;
    out.push(b'\n')?;
    Ok(())
}

/// Plays the frames of a stretch, from `from` to `to` - 1, and makes the two digests.
fn digest_stretch<A: Allocator, B: Allocator + Copy>(
    movie: &Movie<A>,
    from: usize,
    to: usize,
    state: &mut State,
    picture: &mut Picture<B>,
    pixmaps: &mut Pixmaps<B>,
) -> Result<Stretch, RunFault>
    requires order { from < to }
    requires within { to ≤ length movie.now.inputs }
    requires start { state.old ≡ state_after movie.now from }
    requires hashed { pixmaps.old.digits ≡ digest_of pixmaps.old.hashed.items }
    ensures state { OnOk result (state.new ≡ state_after movie.now to) }
    ensures hashed { OnOk result (pixmaps.new.digits ≡ digest_of pixmaps.new.hashed.items) }
    ensures drawn { OnOk result
        ((f : ℕ) → from ≤ f → f < to → (state_after movie.now (f + 1)).halt ≡ None) }
    ensures digests { IfOk result (λ stretch. stretch ≡ record {
      from = from;
      to = to;
      ram = digest_of (ram_of_frames movie.now from to);
      picture = digest_of (ppm_bytes (picture_of movie.now (to - 1)));
    }) }
    ensures fault { IfErr result (IsDigestFault movie.now) }
{
    match play_stretch(movie, from, to, state, picture) {
        Ok(ram) => {
            let picture = pixmaps.digest(picture)?;
            Ok(Stretch {
                from,
                to,
                ram,
                picture,
            })
        }
        Err(halt) => Err(halt_fault(halt)),
    }
}

/// Adds the lines of all stretches of a movie, whose frames are played once.
fn push_stretches<A: Allocator + Copy>(
    alloc: A,
    every: usize,
    movie: &Movie<A>,
    out: &mut Vec<u8, A>,
) -> Result<(), RunFault>
    requires { 1 ≤ every }
    ensures drawn { OnOk result (NoneHalted movie.now) }
    ensures text { OnOk result
        (out.new.items
        ≡ out.old.items
        ++ flat_map (line_of_stretch every movie.now)
        (range_with_len 0 (div_ceil (length movie.now.inputs) every))) }
    ensures fault { IfErr result (IsDigestFault movie.now) }
{
    let len = movie.len();
    let mut state = State::power_on(movie.cart());
    let mut picture = Picture::blank(alloc)?;
    let mut pixmaps = Pixmaps::new(alloc)?;
    for i in 0..len.div_ceil(every) {
        let from = i * every;
        let to = from + every.min(len - from);
        let stretch = digest_stretch(movie, from, to, &mut state, &mut picture, &mut pixmaps)?;
        push_stretch(out, &stretch)?;
    }
    Ok(())
}

/// Adds a line of a name and the digest of some bytes.
fn push_digest<A: Allocator>(
    out: &mut Vec<u8, A>,
    name: &[u8],
    bytes: &[u8],
) -> Result<(), AllocError>
    ensures { OnOk result (out.new.items ≡ out.old.items ++ digest_line name.now bytes.now) }
{
    out.extend_from_slice(name)?;
    out.extend_from_slice(&digest_of(bytes))?;
    out.push(b'\n')?;
    Ok(())
}

/// The first lines: what it is, the machine's profile, and the digests of the cartridge and of the movie's text of runs.
fn digest_head<A: Allocator + Copy>(alloc: A, movie: &Movie<A>) -> Result<Vec<u8, A>, AllocError>
    ensures { IfOk result (λ out. out.items ≡ digest_head movie.now) }
{
    let text = print_text(alloc, movie)?;
    let mut out = Vec::from_slice(alloc, b"a26digest 1\nprofile ")?;
    push_number(&mut out, PROFILE)?;
    out.push(b'\n')?;
    push_digest(&mut out, b"cart ", movie.cart().bytes())?;
    push_digest(&mut out, b"movie ", text.as_slice())?;
    Ok(out)
}

/// Adds the last line.
fn push_end<A: Allocator>(out: &mut Vec<u8, A>, frames: usize) -> Result<(), AllocError>
    ensures { OnOk result (out.new.items ≡ out.old.items ++ digest_end frames) }
{
    out.extend_from_slice(b"end ")?;
    push_number(out, frames)?;
    out.extend_from_slice(b" frames\n")
}

/// A movie's digest, or why it has none.
fn digest_movie<A: Allocator + Copy>(
    alloc: A,
    every: usize,
    movie: &Movie<A>,
) -> Result<Vec<u8, A>, RunFault>
    requires { 1 ≤ every }
    ensures drawn { OnOk result (NoneHalted movie.now) }
    ensures text { IfOk result (λ text. text.items ≡ digest_text every movie.now) }
    ensures fault { IfErr result (IsDigestFault movie.now) }
{
    let mut out = digest_head(alloc, movie)?;
    push_stretches(alloc, every, movie, &mut out)?;
    push_end(&mut out, movie.len())?;
    Ok(out)
}

/// The digest of the movie whose cartridge and text these are, or why there is none.
fn digest_answer<A: Allocator + Copy>(
    alloc: A,
    every: usize,
    image: &[u8],
    bytes: &[u8],
) -> Result<Vec<u8, A>, RunFault>
    requires { 1 ≤ every }
    ensures text { IfOk result (λ text. IsDigestAnswer every image.now bytes.now (Ok text.items)) }
    ensures fault { IfErr result (λ fault. IsDigestAnswer every image.now bytes.now (Err fault)) }
{
    let movie = movie_of(alloc, image, bytes)?;
    digest_movie(alloc, every, &movie)
}

/// `tas digest`: a movie's digest in stretches of `every` frames, of a cartridge and a movie's text: SHA-256 digests of the cartridge, of the
/// movie's text of runs, of RAM after each frame of a stretch and of the pixmap of its last frame. The movie is played once.
///
/// Faults, in order: those of [`movie_of`], then `Halted` where a frame is halted. `Memory` at any point.
#[derive(Clone, Copy)]
pub struct Digest {
    /// How many frames a stretch has; 0 counts as 1.
    pub every: usize,
}

impl Text for Digest {
    // `tas digest` writes the digests of the cartridge, of the movie's text of runs, and for each stretch of EVERY
    // frames those of RAM after each frame and of the last frame's pixmap; none of the movie's frames is halted then.
    // `Halted` only with the halt of such a frame, and nothing written; `Memory` with nothing written.
    // Refused: picture_of_a_stretch_is_its_first, first_picture_stands_for_all, stretch_has_its_last_frame_alone*,
    // stretch_leaves_its_last_frame_out*, digest_of_the_padded_image*, halted_frames_have_a_digest*.
    ghost answers = { λ digest. OfTwo (IsDigestAnswer (max digest.every 1)) };

    fn text<A: Allocator + Copy>(
        &self,
        alloc: A,
        inputs: &[Vec<u8, A>],
    ) -> Result<Vec<u8, A>, RunFault> {
        digest_answer(
            alloc,
            self.every.max(1),
            bytes_of(inputs, 0),
            bytes_of(inputs, 1),
        )
    }
}
