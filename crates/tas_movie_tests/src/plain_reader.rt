//! A second reader of movie texts, as plain as can be.

use tas_movie::{TextError, TextErrorKind};

/// The letters of a frame, each where it stands when it is pressed or set.
const LETTERS: &[u8; 17] = b"RLDUF RLDUF rsbAB";

/// How many frames a movie has at most.
const MOST: usize = 262_144;

/// Whether a line is a frame: a letter or a dot at each place, and the two spaces.
fn is_frame(line: &[u8]) -> bool {
    line.len() == 17
        && line.iter().zip(LETTERS).all(|(byte, letter)| byte == letter
            || (*byte == b'.' && *letter != b' '))
}

/// The number of a run: 2 at least, without leading zeros.
fn count_of(digits: &[u8]) -> Option<usize> {
    if digits.is_empty() || digits.len() > 6 || digits.starts_with(b"0") {
        return None;
    }
    let mut count = 0usize;
    for digit in digits {
        if *digit < b'0' || *digit > b'9' {
            return None;
        }
        count = count
            .wrapping_mul(10)
            .wrapping_add((*digit - b'0') as usize);
    }
    if count < 2 || count > MOST {
        return None;
    }
    Some(count)
}

/// The frame that a line says, and how many there are of it.
fn said(line: &[u8], has_runs: bool) -> Option<(&[u8], usize)> {
    if line.len() < 17 {
        return None;
    }
    let (frame, rest) = line.split_at(17);
    if !is_frame(frame) {
        return None;
    }
    if rest.is_empty() {
        return Some((frame, 1));
    }
    if !has_runs {
        return None;
    }
    let count = count_of(rest.strip_prefix(b" x".as_slice())?)?;
    Some((frame, count))
}

/// How many frames there are with one more line of frames, and the frame that it says.
fn with_line<'a>(
    frames: usize,
    before: &[u8],
    line: &'a [u8],
    has_runs: bool,
) -> Result<(usize, &'a [u8]), TextErrorKind> {
    if frames >= MOST {
        return Err(TextErrorKind::TooMany);
    }
    let Some((frame, count)) = said(line, has_runs) else {
        return Err(TextErrorKind::Frame);
    };
    if has_runs && frame == before {
        return Err(TextErrorKind::Run);
    }
    let more = frames.wrapping_add(count);
    if more > MOST {
        return Err(TextErrorKind::TooMany);
    }
    Ok((more, frame))
}

fn fault(line: usize, kind: TextErrorKind) -> Result<usize, TextError> {
    Err(TextError { line, kind })
}

/// How many frames a text of few lines has, or its first line at fault. The second line, with its newline, is the
/// cartridge's.
pub fn read_plainly(text: &[u8], second: &[u8]) -> Result<usize, TextError> {
    let mut rest = text;
    let mut has_runs = false;
    let mut frames = 0usize;
    let mut before = b"".as_slice();
    for number in 1..20usize {
        let Some(end) = rest.iter().position(|byte| *byte == b'\n') else {
            if rest.is_empty() && number > 2 {
                return Ok(frames);
            }
            return fault(number, TextErrorKind::End);
        };
        let is_second = rest.starts_with(second);
        let (line, others) = rest.split_at(end);
        rest = &others[1..];
        if number == 1 {
            has_runs = line == b"a26movie 2".as_slice();
            if !has_runs && line != b"a26movie 1".as_slice() {
                return fault(number, TextErrorKind::Head);
            }
            continue;
        }
        if number == 2 {
            if !is_second {
                return fault(number, TextErrorKind::Digest);
            }
            continue;
        }
        match with_line(frames, before, line, has_runs) {
            Ok((more, frame)) => {
                frames = more;
                before = frame;
            }
            Err(kind) => return fault(number, kind),
        }
    }
    fault(20, TextErrorKind::TooMany)
}
