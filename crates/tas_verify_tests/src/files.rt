//! The files of the tests. The digests come from the oracle (`oracle/look`), a machine of its own.

use crate::checks::expect_ok;
use std::alloc::Global;
use std::process::Abort;

/// Counts in RAM, and keeps the sticks' pins there and in the background's colour: INC 80, LDA 280, STA 81, STA COLUBK, JMP F000.
pub const COUNTS: &[u8] = b"\xe6\x80\xad\x80\x02\x85\x81\x85\x09\x4c\x00\xf0";

/// Five frames, of which the third and the fourth hold the left stick right.
pub const COUNTS_MOVIE: &[u8] =
    b"a26movie 2\ncart 6707df007cd9f49721b2a8942c02ead96586dd0aa6e2c8ad328dbe2deba4e585\n..... ..... ..... x2\nR.... ..... ..... x2\n..... ..... .....\n";

/// Counts in RAM, and halts at F007 where the left stick is held right: INC 80, LDA 280, BMI F008, 02, JMP F000.
pub const STOPS: &[u8] = b"\xe6\x80\xad\x80\x02\x30\x01\x02\x4c\x00\xf0";

/// Three frames of its cartridge, of which the third holds the left stick right.
pub const STOPS_MOVIE: &[u8] =
    b"a26movie 2\ncart d6e713bc50ccd20c6a27ef22630c568c760c7b130a7c788917dfd741c815fee0\n..... ..... ..... x2\nR.... ..... .....\n";

/// A movie of a cartridge of zeros without frames.
pub const EMPTY_MOVIE: &[u8] =
    b"a26movie 2\ncart ad7facb2586fc6e966c004d7d1d16b024f5805ff7cb47c7a85dabd8b48892ca7\n";

/// Its digest.
pub const EMPTY_DIGEST: &[u8] =
    b"a26digest 1\nprofile 2\ncart ad7facb2586fc6e966c004d7d1d16b024f5805ff7cb47c7a85dabd8b48892ca7\nmovie 28a712194b8e9737b187764449c5d5d97c62e6f7f4c5c55bccef3f5aed831e72\nend 0 frames\n";

/// The digest of the movie of five frames, in stretches of one frame.
pub const DIGEST_BY_1: &[u8] =
    b"a26digest 1\nprofile 2\ncart 6707df007cd9f49721b2a8942c02ead96586dd0aa6e2c8ad328dbe2deba4e585\nmovie 7ccef0a68f7bd828c5037dccdcc28f0404e563be775edb36f428af8a4b20e595\nframes 0 to 1 ram 8f1e9821b617fc018fc8a90130c6b7deae8b2aa57d645f334002fd65f55ccebb picture dc81d7ece5e97d788ca7f4491073f7db6c85b1ebdd91a4d53115ddcaa02fcaa5\nframes 1 to 2 ram 5fb2803a9be4a8fbd1b97761b9219d029bcba9cc2ac619fae669ca753453262a picture dc81d7ece5e97d788ca7f4491073f7db6c85b1ebdd91a4d53115ddcaa02fcaa5\nframes 2 to 3 ram ac0fefe4f7d44c3470656dfcbce92b3c7db18a4f4e3ca76f7925efdc04433c41 picture 2c1ce94c5d3fd6113926bf21d3e404069052bf2963a65b2d1746ed7ff4d130b4\nframes 3 to 4 ram c0a1d0f9043a7c2aec05b9e2282ba8026e06deeb9cab3a7876e889fd5ed69106 picture 2c1ce94c5d3fd6113926bf21d3e404069052bf2963a65b2d1746ed7ff4d130b4\nframes 4 to 5 ram c786fa6cecfd2eb2f44c812bb40112b371e1df05f5f3855476f48d75a5800549 picture dc81d7ece5e97d788ca7f4491073f7db6c85b1ebdd91a4d53115ddcaa02fcaa5\nend 5 frames\n";

/// The digest of the movie of five frames, of two.
pub const DIGEST_BY_2: &[u8] =
    b"a26digest 1\nprofile 2\ncart 6707df007cd9f49721b2a8942c02ead96586dd0aa6e2c8ad328dbe2deba4e585\nmovie 7ccef0a68f7bd828c5037dccdcc28f0404e563be775edb36f428af8a4b20e595\nframes 0 to 2 ram 234bf39ad71717602aa863bf8dad70b44aebaed039ba53efc5b4425333cd9687 picture dc81d7ece5e97d788ca7f4491073f7db6c85b1ebdd91a4d53115ddcaa02fcaa5\nframes 2 to 4 ram 1b7ce1fd2bb32222120b0fd40386d60c0580ceb1b387c6e5164ac078d6b53a7f picture 2c1ce94c5d3fd6113926bf21d3e404069052bf2963a65b2d1746ed7ff4d130b4\nframes 4 to 5 ram c786fa6cecfd2eb2f44c812bb40112b371e1df05f5f3855476f48d75a5800549 picture dc81d7ece5e97d788ca7f4491073f7db6c85b1ebdd91a4d53115ddcaa02fcaa5\nend 5 frames\n";

/// The digest of the movie of five frames, of three.
pub const DIGEST_BY_3: &[u8] =
    b"a26digest 1\nprofile 2\ncart 6707df007cd9f49721b2a8942c02ead96586dd0aa6e2c8ad328dbe2deba4e585\nmovie 7ccef0a68f7bd828c5037dccdcc28f0404e563be775edb36f428af8a4b20e595\nframes 0 to 3 ram 0183f847f3656eb7f273f486605876f39187d26c083398556515e7c42ea393da picture 2c1ce94c5d3fd6113926bf21d3e404069052bf2963a65b2d1746ed7ff4d130b4\nframes 3 to 5 ram edc9e7b09cec4ed4e34f25892c8bfaae5fcc37131bbef0ce14fd6efa71fd3b71 picture dc81d7ece5e97d788ca7f4491073f7db6c85b1ebdd91a4d53115ddcaa02fcaa5\nend 5 frames\n";

/// The digest of the movie of five frames, in one stretch.
pub const DIGEST_WHOLE: &[u8] =
    b"a26digest 1\nprofile 2\ncart 6707df007cd9f49721b2a8942c02ead96586dd0aa6e2c8ad328dbe2deba4e585\nmovie 7ccef0a68f7bd828c5037dccdcc28f0404e563be775edb36f428af8a4b20e595\nframes 0 to 5 ram 1b1299fcd27755c53157b413b09c9031385cc6369cac0017d5e4918568be87a5 picture dc81d7ece5e97d788ca7f4491073f7db6c85b1ebdd91a4d53115ddcaa02fcaa5\nend 5 frames\n";

/// The cartridge with a program at F000, where execution starts too; all other bytes are 0.
pub fn image_of<R: Abort>(rt: &R, alloc: Global, program: &[u8]) -> Vec<u8> {
    let mut bytes = expect_ok(rt, vec![in alloc; 0u8; 4096]);
    for (place, byte) in program.iter().enumerate() {
        if let Some(cell) = bytes.get_mut(place) {
            *cell = *byte;
        }
    }
    if let Some(cell) = bytes.get_mut(0xffd) {
        *cell = 0xf0;
    }
    bytes
}

/// These bytes with another one at a place.
pub fn changed<R: Abort>(rt: &R, alloc: Global, bytes: &[u8], place: usize, byte: u8) -> Vec<u8> {
    let mut copy = expect_ok(rt, Vec::from_slice(alloc, bytes));
    if let Some(cell) = copy.get_mut(place) {
        *cell = byte;
    }
    copy
}
