//! A second reader of scripts, as plain as can be.

use crate::checks::expect_ok;
use std::alloc::Global;
use std::process::Abort;

/// The letters of a frame, each where it stands when it is pressed or set.
pub const LETTERS: &[u8; 17] = b"RLDUF RLDUF rsbAB";

/// The letters and dots of a frame.
pub type Frame = [u8; 17];

/// A cartridge's bytes: the first `size` of these.
#[derive(Clone, Copy)]
pub struct Image {
    pub bytes: [u8; 4096],
    pub size: usize,
}

/// What a line of a script asks for.
#[derive(Clone, Copy)]
pub enum Line {
    Load(Image),
    Insert(usize, usize, Frame),
    Replace(usize, usize, Frame),
    Delete(usize, usize),
    Len,
    Input(usize),
    Shot(usize),
    Work(usize),
}

/// What stands before and after the first such byte, if there is one.
pub fn split_once(text: &[u8], byte: u8) -> Option<(&[u8], &[u8])> {
    let end = text.iter().position(|other| *other == byte)?;
    let (front, others) = text.split_at(end);
    Some((front, &others[1..]))
}

/// The words between the spaces of a line.
fn words<'a, R: Abort>(rt: &R, alloc: Global, line: &'a [u8]) -> Vec<&'a [u8]> {
    let mut words = Vec::new(alloc);
    let mut rest = line;
    for _ in 0..line.len() {
        let Some((word, others)) = split_once(rest, b' ') else {
            break;
        };
        expect_ok(rt, words.push(word));
        rest = others;
    }
    expect_ok(rt, words.push(rest));
    words
}

/// A number of one to seven digits, the first of which is 0 only where it is the only one.
fn number(word: &[u8]) -> Option<usize> {
    if word.is_empty() || word.len() > 7 || (word.len() > 1 && word.starts_with(b"0")) {
        return None;
    }
    let mut value = 0usize;
    for digit in word {
        if !digit.is_ascii_digit() {
            return None;
        }
        value = value
            .saturating_mul(10)
            .saturating_add(usize::from(*digit & 15));
    }
    Some(value)
}

/// The number that some upper case hexadecimal digits stand for; at most three are given.
fn hexadecimal(digits: &[u8]) -> Option<usize> {
    let mut value = 0usize;
    for digit in digits {
        let (less, _) = split_once(b"0123456789ABCDEF", *digit)?;
        value = value.saturating_mul(16).saturating_add(less.len());
    }
    Some(value)
}

/// Writes the bytes of a word `OFF=HEX` into an image. Nothing where it is no such word.
fn write_part(word: &[u8], image: &mut [u8]) -> Option<()> {
    let (offset, digits) = split_once(word, b'=')?;
    if offset.len() != 3 || digits.is_empty() || digits.len() % 2 != 0 {
        return None;
    }
    let mut place = hexadecimal(offset)?;
    for pair in digits.chunks(2) {
        *image.get_mut(place)? = u8::try_from(hexadecimal(pair)?).ok()?;
        place = place.saturating_add(1);
    }
    Some(())
}

/// The image of this many bytes with these parts.
fn image_of(size: usize, parts: &[&[u8]]) -> Option<Image> {
    let mut bytes = [0u8; 4096];
    for part in parts {
        write_part(part, bytes.get_mut(..size)?)?;
    }
    if parts.is_empty() {
        None
    } else {
        Some(Image { bytes, size })
    }
}

/// The frame of three words.
fn frame_of(words: &[&[u8]]) -> Option<Frame> {
    let mut frame = [b' '; 17];
    let mut place = 0usize;
    for word in words {
        for byte in word.iter() {
            *frame.get_mut(place)? = *byte;
            place = place.saturating_add(1);
        }
        place = place.saturating_add(1);
    }
    let is_right = frame.iter().zip(LETTERS).all(|(byte, letter)| byte == letter
        || (*byte == b'.' && *letter != b' '));
    let is_parted = words.len() == 3 && words.iter().all(|word| word.len() == 5);
    if is_right && is_parted {
        Some(frame)
    } else {
        None
    }
}

/// A place, a count and a frame.
fn frames(words: &[&[u8]]) -> Option<(usize, usize, Frame)> {
    let [place, count, frame @ ..] = words else {
        return None;
    };
    Some((number(place)?, number(count)?, frame_of(frame)?))
}

/// What a line of at most two words after a name asks for.
fn short_line(name: &[u8], words: &[&[u8]]) -> Option<Line> {
    match words {
        [] if name == b"len".as_slice() => Some(Line::Len),
        [k] if name == b"input".as_slice() => Some(Line::Input(number(k)?)),
        [k] if name == b"shot".as_slice() => Some(Line::Shot(number(k)?)),
        [k] if name == b"work".as_slice() => Some(Line::Work(number(k)?)),
        [place, count] if name == b"delete".as_slice() => {
            Some(Line::Delete(number(place)?, number(count)?))
        }
        _ => None,
    }
}

/// What a line of these words after its name asks for.
fn line_of(name: &[u8], words: &[&[u8]]) -> Option<Line> {
    if name == b"load".as_slice() {
        Some(Line::Load(image_of(4096, words)?))
    } else if name == b"load2".as_slice() {
        Some(Line::Load(image_of(2048, words)?))
    } else if name == b"insert".as_slice() {
        let (place, count, frame) = frames(words)?;
        Some(Line::Insert(place, count, frame))
    } else if name == b"replace".as_slice() {
        let (place, count, frame) = frames(words)?;
        Some(Line::Replace(place, count, frame))
    } else {
        short_line(name, words)
    }
}

/// What a line asks for; nothing where it isn't understood.
pub fn read_line<R: Abort>(rt: &R, alloc: Global, line: &[u8]) -> Option<Line> {
    let words = words(rt, alloc, line);
    match words.as_slice().split_first() {
        Some((name, words)) => line_of(name, words),
        None => None,
    }
}
