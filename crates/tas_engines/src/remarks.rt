//! Remarks in scripts of `tas edit`.

ghost use Rattle.std.specs.Prelude.{◌≡◌};
ghost use Rattle.tas_engines.specs.Remarks.{trimmed, words_of};

use byte_text::split_once;

/// These bytes without the spaces at their end.
fn trimmed(bytes: &[u8]) -> &[u8]
    ensures { result.now ≡ trimmed bytes.now }
{
    let mut rest = bytes;
    while let Some((last, front)) = rest.split_last() {
        if *last != b' ' {
            return rest;
        }
        rest = front;
    }
    rest
}

/// The words of a line: it without its remark, the first `#` and all after it, and without the spaces before that.
pub fn words_of(line: &[u8]) -> &[u8]
    ensures { result.now ≡ words_of line.now }
{
    match split_once(line, b'#') {
        Some((front, _)) => trimmed(front),
        None => line,
    }
}
