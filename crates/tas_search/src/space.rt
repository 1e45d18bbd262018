//! A space of sequences of choices.
//!
//! A sequence is a list of numbers of choices, and its place among those of its length is the number with these digits:
//! so 'the first' is a comparison of two numbers, also where two choices are the same input. By a law it is the order
//! of a dictionary (`first_difference_decides`). A goal is looked at after each choice, every `hold` frames, and at the
//! start; so a layer is what sequences of one length reach. A sequence ends where the machine halts: with its last
//! choice it may meet the goal, before that it has no value.

ghost use Rattle.std.specs.Prelude.{◌≡◌, ◌+◌, ◌^◌, ◌<◌, ℕ, IfSome, IfNone, length, replicate, slice_index_or, true};
ghost use Rattle.vcs_inputs.specs.declared.input.Input.{Input};
ghost use Rattle.vcs_inputs.specs.Input.{no_input};
ghost use Rattle.vcs_machine.specs.Machine.{after_from};
ghost use Rattle.tas_search.specs.Space.{after_choice, are_lag_frames, low_at, count_at};
ghost use Rattle.tas_search.specs.Parts.{part_of, IsPart};

use crate::space_part::SpacePart;
use std::alloc::Allocator;
use std::marker::Model;
use vcs_inputs::{Cart, Input};
use vcs_machine::{Meter, State, play_for_lag, play_unseen};

/// What a search goes through: all sequences of some choices from a state on, each choice an input that is held for
/// the same number of frames; or a part of them, by the first choice.
#[derive(Drop)]
pub struct Space<'a, C: Allocator> {
    cart: &'a Cart<C>,
    start: State,
    choices: &'a [Input],
    hold: usize,
    low: usize,
    high: usize,
}

impl<'a, C: Allocator> Model for Space<'a, C> {
    ghost use Rattle.tas_search.specs.Space.{SpaceContent};

    ghost Value = { SpaceContent };

    ghost view = { λ s. record {
      cart = s.cart.now;
      start = s.start;
      choices = s.choices.now;
      hold = s.hold;
      low = s.low;
      high = s.high;
    } };
}

impl<'a, C: Allocator> Space<'a, C> {
    /// The sequences of these choices from a state on, each choice held for `hold` frames. Where `hold` is 0 every
    /// sequence leads to the start; where there are no choices there is the empty sequence alone.
    pub fn new(cart: &'a Cart<C>, start: State, choices: &'a [Input], hold: usize) -> Self
        // A space has the cartridge, the start, the choices and the frames for each that it was made of, and all sequences.
        // Refused: choices_are_held_one_frame_longer.
        ensures { result ≡ record {
          cart = cart.now;
          start = start;
          choices = choices.now;
          hold = hold;
          low = 0;
          high = length choices.now;
        } }
    {
        Space {
            cart,
            start,
            choices,
            hold,
            low: 0,
            high: choices.len(),
        }
    }

    /// The sequences whose first choice is from number `low` on, and below `high`; and the empty one.
    pub(crate) fn bounded(self, low: usize, high: usize) -> Self
        ensures { result ≡ record self.entry { low = low; high = high } }
    {
        Space {
            cart: self.cart,
            start: self.start,
            choices: self.choices,
            hold: self.hold,
            low,
            high,
        }
    }

    /// A part of the whole space, whichever part of it this is: the sequences whose first choice is one of the part's. Each part has the empty sequence.
    /// `None` where there is no such part.
    pub fn in_part(self, part: SpacePart) -> Option<Self>
        // A part has its share of the first choices, and all choices after them.
        // Refused: part_of_a_space_is_all_of_it.
        ensures part { IfSome result (λ space. IsPart part.number part.of) }
        ensures some { IfSome result (λ space. space ≡ part_of self.entry part.number part.of) }
        ensures none { IfNone result (IsPart part.number part.of → ⊥) }
    {
        let (low, high) = part.first_choices(self.choice_count())?;
        Some(self.bounded(low, high))
    }

    /// How many choices there are.
    pub fn choice_count(&self) -> usize
        // Refused: one_choice_is_not_counted.
        ensures { result ≡ length self.now.choices }
    {
        self.choices.len()
    }

    /// The number of the first choice that can come after `after` others.
    pub(crate) fn low_at(&self, after: usize) -> usize
        ensures { result ≡ low_at self.now after }
    {
        if after == 0 { self.low } else { 0 }
    }

    /// How many choices can come after `after` others.
    pub(crate) fn count_at(&self, after: usize) -> usize
        ensures count { result ≡ count_at self.now after }
        ensures fits { low_at self.now after + result < 2 ^ 64 }
    {
        if after == 0 {
            self.high.saturating_sub(self.low)
        } else {
            self.choice_count()
        }
    }

    /// The state that the search starts from.
    pub fn start(&self) -> State
        // Refused: space_starts_at_power_on.
        ensures { result ≡ self.now.start }
    {
        self.start
    }

    /// For how many frames a choice is held.
    pub fn hold(&self) -> usize
        // Refused: none, what a search plays by it is refused at `Space::after_choice`.
        ensures { result ≡ self.now.hold }
    {
        self.hold
    }

    /// The input of choice number `k`; nothing is pressed where there is no such choice.
    pub fn choice(&self, k: usize) -> Input
        // Refused: none, what a search plays by it is refused at `Space::after_choice`.
        ensures { result ≡ slice_index_or self.now.choices k no_input }
    {
        self.choices.get(k).copied().unwrap_or(Input::none())
    }

    /// The state after choice number `k` was held, and whether all its frames were lag frames: then every choice leads
    /// to this state. A halted machine's frames are lag frames.
    pub(crate) fn after_choice_noted(&self, state: &State, k: usize) -> (State, bool)
        // It is noted whether all frames of a choice were lag frames; where they were, every choice leads to the same
        // state.
        // Refused: frames_after_the_first_are_taken_for_lag, no_frames_are_noted_as_lag.
        ensures state { result.0 ≡ after_choice self.now state.now k }
        ensures lag { result.1 ≡ are_lag_frames self.now.cart state.now
            (slice_index_or self.now.choices k no_input) self.now.hold }
        ensures alike { result.1 ≡ true
            → (j : ℕ) → after_choice self.now state.now j ≡ result.0 }
    {
        let input = self.choice(k);
        noted_frames(self.cart, *state, input, self.hold)
    }

    /// The state after choice number `k` was held.
    pub fn after_choice(&self, state: &State, k: usize) -> State
        // A choice is held for as many frames as the space says.
        // Refused: choice_is_held_for_one_frame.
        ensures { result ≡ after_choice self.now state.now k }
    {
        let input = self.choice(k);
        after_frames(self.cart, *state, input, self.hold)
    }
}

/// The state after `count` frames of one input, and whether they were all lag frames: then it is the same after as
/// many frames of any other input.
fn noted_frames<C: Allocator>(
    cart: &Cart<C>,
    start: State,
    input: Input,
    count: usize,
) -> (State, bool)
    ensures state { result.0 ≡ after_from cart.now start (replicate count input) }
    ensures lag { result.1 ≡ are_lag_frames cart.now start input count }
    ensures alike { result.1 ≡ true
        → (other : Input) → after_from cart.now start (replicate count other) ≡ result.0 }
{
    let mut state = start;
    let mut lag = true;
    for played in 0..count {
        let mut meter = Meter::new();
        let ignored = play_for_lag(cart, &mut state, input, &mut meter);
        lag = lag && ignored;
    }
    (state, lag)
}

/// The state after `count` frames of one input.
fn after_frames<C: Allocator>(cart: &Cart<C>, start: State, input: Input, count: usize) -> State
    ensures { result ≡ after_from cart.now start (replicate count input) }
{
    let mut state = start;
    for played in 0..count {
        let mut meter = Meter::new();
        // A halted machine stays as it is: its state has the halt.
        let _ = play_unseen(cart, &mut state, input, &mut meter);
    }
    state
}
