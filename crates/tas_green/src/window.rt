//! The limits of a view's window: the states around the frame that was shown last, so that a step to a frame beside it plays that frame
//! alone.
//!
//! The window has the states before the frame shown last and the 63 frames before it, the one after it, and a mark at
//! each 16th among the 512 places before. Without marks each 64th step back would play up to 512 frames where the
//! stride is 512: 3.3 a step over 1,000 steps forward and as many back, and 2.004 with all 172 states that 64 KB hold.
//! With them it is 1.91 at most, with at most 93 states (the clauses say 98).

ghost use Rattle.std.specs.Prelude.{◌≡◌};
ghost use Rattle.tas_green.specs.declared.window.TheConstants.{MAX_BEFORE, MARK_DISTANCE, MAX_MARKED, MAX_NEAR};
ghost use Rattle.tas_green.specs.Window.{most_before, mark_distance, most_marked, most_near};

use vcs_cpu::Halt;
use vcs_machine::State;

/// How many frames, up to the one shown last, have the state before them kept.
pub const MAX_BEFORE: usize = 64;

/// Further back a state is kept at each multiple of this distance, in frames.
pub const MARK_DISTANCE: usize = 16;

/// How far back there are such marks, in frames.
pub const MAX_MARKED: usize = 512;

/// A bound of a window's states; there are 93 at most (no clause says so).
pub const MAX_NEAR: usize = 98;

/// What a view of a frame took, and how it ended.
#[derive(Clone, Copy, Debug, PartialEq, Eq)]
pub struct Viewed {
    /// How many frames were played.
    pub ran: u64,
    /// Nothing, or the halt of the frame.
    pub end: Result<(), Halt>,
}

/// A state that was reached, and how many frames were played for it.
#[derive(Clone, Copy, Debug)]
pub struct ReachedState {
    /// How many frames were played.
    pub ran: u64,
    /// The state.
    pub state: State,
}

/// The limits are those of the definitions: 64 frames, a mark each 16 frames for 512 frames, and 98 states.
pub fn window_limits_are_exact()
    // The window's limits are those of the definitions.
    // Refused: window_of_63_frames.
    ensures before { MAX_BEFORE ≡ most_before }
    ensures distance { MARK_DISTANCE ≡ mark_distance }
    ensures marked { MAX_MARKED ≡ most_marked }
    ensures near { MAX_NEAR ≡ most_near }
{}
