//! The parent links of all arrivals, by which the path to any of them is read back.

ghost use Rattle.std.specs.Prelude.{◌≡◌, ◌++◌, ◌<◌, length, OnOk, IfOk};
ghost use Rattle.tas_search.specs.Inside.Arrivals.{path, AreWithin, steps_of};

use crate::arrival::{Arrival, Step};
use std::alloc::{AllocError, Allocator};

/// Appends the steps of a layer's arrivals.
pub(crate) fn keep_steps<A: Allocator>(
    layer: &[Arrival],
    parents: &mut Vec<Step, A>,
) -> Result<(), AllocError>
    ensures { OnOk result (parents.new.items ≡ parents.old.items ++ steps_of layer.now) }
{
    for arrival in layer {
        parents.push(arrival.step)?;
    }
    Ok(())
}

/// The numbers of the `depth` choices on the path whose last step this is, in order.
pub(crate) fn path<A: Allocator>(
    alloc: A,
    parents: &[Step],
    depth: usize,
    last: Step,
) -> Result<Vec<usize, A>, AllocError>
    requires within { AreWithin (length parents.now) parents.now }
    requires last { last.parent < length parents.now }
    // The numbers of the choices that lead to a state are read back from the parent links, in order.
    // Refused: path_repeats_its_last_choice.
    ensures { IfOk result (λ choices. choices.items ≡ path parents.now depth last) }
{
    let mut choices = Vec::new(alloc);
    let mut step = last;
    for back in 0..depth {
        choices.push(step.choice)?;
        step = parents[step.parent];
    }
    choices.reverse();
    Ok(choices)
}
