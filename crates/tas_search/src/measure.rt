//! What a search looks at in a state.

ghost use Rattle.std.specs.Prelude.{◌≡◌};
ghost use Rattle.tas_search.specs.Goal.{holds_of, value_in};

use vcs_machine::PackedState;

/// A number that is made of the 128 bytes of RAM.
pub trait Measure {
    ghost use Rattle.std.specs.Prelude.{ℕ, ℤ, List};

    /// The number that is made of RAM.
    ghost value: { Self → List ℕ → ℤ };

    /// The number that is made of these bytes of RAM.
    fn value(&self, ram: &[u8; 128]) -> i64
        ensures { result ≡ value self.now ram.now };
}

/// The number that is made of a state's RAM.
pub(crate) fn value_in<M: Measure>(measure: &M, state: &PackedState) -> i64
    ensures { result ≡ value_in (M.value measure.now) state.now }
{
    measure.value(&state.ram())
}

/// Whether the number that is made of a state's RAM isn't 0.
pub(crate) fn holds<M: Measure>(measure: &M, state: &PackedState) -> bool
    ensures { result ≡ holds_of (M.value measure.now) state.now }
{
    value_in(measure, state) != 0
}
