//! A state that a search has reached, and how.

ghost use Rattle.std.specs.Prelude.{◌≡◌, OnOk};
ghost use Rattle.indexmap.specs.IndexSet.{insert_all};
ghost use Rattle.tas_search.specs.Inside.Arrivals.{are_same_arrivals};

use indexmap::IndexSet;
use std::alloc::{AllocError, Allocator};
use std::hash::{BuildHasherDefault, FoldHasher, Hash, Hasher};
use vcs_machine::PackedState;

/// One step of a path, a parent link: the place among the links of the step before it, and the number of the choice
/// that was made.
#[derive(Clone, Copy, Debug)]
pub(crate) struct Step {
    /// The place of the step before it.
    pub parent: usize,
    /// The number of the choice that was made.
    pub choice: usize,
}

/// A state, and the last step of the first path to it. Arrivals are compared by their states alone.
#[derive(Clone, Copy, Debug)]
pub(crate) struct Arrival {
    /// The state that was reached.
    pub state: PackedState,
    /// The last step of the path to it.
    pub step: Step,
}

/// Arrivals in the order in which they were found, no state twice.
pub(crate) type Layer<A> = IndexSet<Arrival, BuildHasherDefault<FoldHasher>, A>;

/// Puts arrivals into a layer, in order.
pub(crate) fn insert_each<A: Allocator>(
    list: &[Arrival],
    layer: &mut Layer<A>,
) -> Result<(), AllocError>
    ensures { OnOk result
        (layer.new.keys ≡ insert_all are_same_arrivals layer.old.keys list.now) }
{
    for arrival in list {
        layer.insert(*arrival)?;
    }
    Ok(())
}

impl PartialEq for Arrival {
    ghost use Rattle.std.specs.Cmp.{on_per, partial_equiv_from_equiv};
    ghost use Rattle.vcs_machine.specs.Equality.{are_same_machines, machines_equivalence};

    ghost eq = { λ a b. are_same_machines a.state b.state };

    ghost laws = { on_per (λ a. a.state) (partial_equiv_from_equiv machines_equivalence) };

    /// Whether the states are equal.
    // States are merged only where they are equal in all their parts.
    // Refused: arrivals_of_equal_ram_are_merged, arrivals_of_one_hash_are_merged.
    fn eq(&self, other: &Arrival) -> bool {
        self.state == other.state
    }
}

impl Eq for Arrival {
    ghost use Rattle.std.specs.Cmp.{on_equiv};
    ghost use Rattle.vcs_machine.specs.Equality.{machines_equivalence};

    ghost laws = { on_equiv (λ a. a.state) machines_equivalence };
}

impl Hash for Arrival {
    ghost use Rattle.std.specs.Prelude.{[], ◌∷◌};
    ghost use Rattle.std.proofs.Common.{ap};
    ghost use Rattle.vcs_machine.specs.Equality.{machines_decide};
    ghost use Rattle.vcs_tia.specs.Tia.{places_of};

    ghost hash_input = { λ a. a.state.riot.ram ∷ places_of a.state.tia ∷ [] };

    ghost respects_eq = { λ a b same. ap
        (λ m. m.riot.ram ∷ places_of m.tia ∷ [])
        ((machines_decide a.state b.state).0 same) };

    /// The hash of RAM and of the places of the TIA's objects, since a program may keep a place in the TIA alone. States that
    /// differ only elsewhere are told apart by `==`.
    // Equal states have one hash, that of these bytes.
    // Refused: places_are_not_hashed.
    fn hash<H: Hasher>(&self, state: &mut H) {
        state.write(&self.state.ram());
        state.write(&self.state.places());
    }
}
