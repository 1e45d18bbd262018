//! Runs of equal frames.

ghost use Rattle.std.specs.Prelude.{◌≡◌, ◌≢◌, ◌<◌, ◌≤◌, length, take, replicate, slice_get, Some};

use vcs_inputs::Input;

/// Consecutive frames with one input.
#[derive(Clone, Copy)]
pub struct FrameRun {
    /// The input of each of them.
    pub input: Input,
    /// How many they are.
    pub count: usize,
}

/// How many inputs at the beginning are this one.
pub fn run_length(inputs: &[Input], input: Input) -> usize
    // How many inputs at the beginning are equal to a given one, and no more are.
    // Refused: run_ends_at_the_last_frame_but_one.
    ensures bound { result ≤ length inputs.now }
    ensures same { take result inputs.now ≡ replicate result input }
    ensures longest { result < length inputs.now → slice_get inputs.now result ≢ Some input }
{
    let mut count = 0;
    while count < inputs.len() && inputs[count] == input {
        count += 1;
    }
    count
}
