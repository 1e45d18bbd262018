//! The common beginning of two lists of inputs.

ghost use Rattle.tas_movie.specs.Front.{IsCommonFront};

use vcs_inputs::Input;

/// The length of the longest common beginning of two lists of inputs, in frames.
pub fn common_front(a: &[Input], b: &[Input]) -> usize
    // Refused: common_front_leaves_out_the_last_input.
    ensures { IsCommonFront a.now b.now result }
{
    let mut front = 0;
    while front < a.len() && front < b.len() && a[front] == b[front] {
        front += 1;
    }
    front
}
