//! What observes the colour clocks that pass on the bus.
#![tactic(auto)]

ghost use Rattle.std.specs.Prelude.{◌≡◌, ℕ, Bool, ◌+◌, ◌<◌, List, [], ◌++◌, false};
ghost use Rattle.vcs_tia.specs.Beam.{most_beam_clocks};
ghost use Rattle.vcs_tia.specs.Tia.{clocks_passed, read_at};
ghost use Rattle.vcs_tia.specs.Trace.{after_clocks, trace, drawn};
ghost use Rattle.vcs_tia.specs.Later.{drawing_of};
ghost use Rattle.vcs_tia.specs.declared.chip.Tia.{Tia};

use std::alloc::Allocator;
use vcs_tia::{Picture, Tia};

/// What observes the colour clocks that pass.
pub(crate) trait Observer {
    /// What it has seen.
    ghost Seen: { Type 0 };

    ghost seen: { Self → Seen };

    /// Whether a run with it stops before an instruction that reads the input.
    ghost watches: { Bool };

    /// What it has seen after further clocks, each of which it observes as it stands before.
    ghost observe: { List Tia → Seen → Seen };

    /// Lets colour clocks pass on a TIA, and observes them.
    fn advance(&mut self, tia: &mut Tia, clocks: u16)
        requires { clocks_passed tia.old + clocks < most_beam_clocks }
        ensures tia { tia.new ≡ after_clocks clocks tia.old }
        ensures seen { seen self.new ≡ observe (trace clocks tia.old) (seen self.old) };

    /// Whether it looks at the clocks at all; if not, it sees the same whatever they draw. `true` proves
    /// nothing.
    fn looks(&self) -> bool
        ensures { result ≡ false → (n : ℕ) (t u : Tia)
            → observe (trace n t) (seen self.now) ≡ observe (trace n u) (seen self.now) };

    /// Whether a run with it stops before an instruction that reads the input.
    fn watches(&self) -> bool
        ensures { result ≡ watches };

    /// It sees only what takes part in drawing.
    ghost observe_alike: { (n : ℕ) (t u : Tia) (s : Seen) → drawing_of t ≡ drawing_of u
        → observe (trace n t) s ≡ observe (trace n u) s };

    /// Without clocks it sees nothing new.
    ghost observe_nil: { (s : Seen) → observe [] s ≡ s };

    /// Clocks that are observed in two parts.
    ghost observe_append: { (xs ys : List Tia) (s : Seen)
        → observe (xs ++ ys) s ≡ observe ys (observe xs s) };
}

impl<A: Allocator> Observer for Picture<A> {
    ghost use Rattle.std.specs.Prelude.{ℕ, List, false};
    ghost use Rattle.vcs_tia.specs.Trace.{drawn};

    ghost Seen = { List ℕ };

    ghost seen = { λ picture. picture };

    ghost watches = { false };

    ghost observe = { drawn };

    fn advance(&mut self, tia: &mut Tia, clocks: u16) {
        tia.advance(clocks, self);
    }

    #[inline(always)]
    fn looks(&self) -> bool {
        true
    }

    #[inline(always)]
    fn watches(&self) -> bool {
        false
    }

    ghost use Rattle.std.specs.Prelude.{◌≡◌};
    ghost use Rattle.vcs_tia.specs.declared.chip.Tia.{Tia};
    ghost use Rattle.vcs_tia.specs.Later.{drawing_of};
    ghost use Rattle.vcs_machine.specs.Inside.Observing.{drawn-nil};
    ghost use Rattle.vcs_tia.proofs.Later.{drawn-alike};

    ghost observe_alike = { drawn-alike };

    ghost use Rattle.vcs_tia.proofs.Traces.{drawn-append};

    ghost observe_nil = { drawn-nil };

    ghost observe_append = { drawn-append };
}

/// An observer that sees nothing.
#[derive(Drop)]
pub(crate) struct Nobody;

impl Observer for Nobody {
    ghost use Rattle.std.specs.Prelude.{false};
    ghost use Rattle.vcs_machine.specs.Bus.{nothing_seen};

    ghost Seen = { Unit {0} };

    ghost seen = { λ _. tt };

    ghost watches = { false };

    ghost observe = { nothing_seen };

    fn advance(&mut self, tia: &mut Tia, clocks: u16) {
        tia.pass(clocks);
    }

    #[inline(always)]
    fn looks(&self) -> bool {
        false
    }

    #[inline(always)]
    fn watches(&self) -> bool {
        false
    }

    ghost use Rattle.std.specs.Prelude.{refl};

    ghost observe_alike = { λ n t u s e. refl };

    ghost observe_nil = { λ s. refl };

    ghost observe_append = { λ xs ys s. refl };
}

/// As many colour clocks as pass at once.
const MOST_CLOCKS: u32 = 65535;

/// Lets colour clocks pass on a TIA, and observes them: more than can pass at once, too.
pub(crate) fn pass_clocks<O: Observer>(observer: &mut O, tia: &mut Tia, clocks: u32)
    requires few { clocks < 131070 }
    requires room { clocks_passed tia.old + clocks < most_beam_clocks }
    ensures tia { tia.new ≡ after_clocks clocks tia.old }
    ensures seen { O.seen observer.new ≡ O.observe (trace clocks tia.old) (O.seen observer.old) }
{
    if clocks <= MOST_CLOCKS {
        observer.advance(tia, clocks as u16);
        return;
    }
    observer.advance(tia, MOST_CLOCKS as u16);
    observer.advance(tia, (clocks - MOST_CLOCKS) as u16);
}

/// The byte that a read address of a TIA will give some colour clocks later: more than it reads ahead at once, too.
pub(crate) fn byte_after(tia: &Tia, clocks: u32, address: u16) -> u8
    requires few { clocks < 131070 }
    requires room { clocks_passed tia.now + clocks < most_beam_clocks }
    ensures { result ≡ read_at address (after_clocks clocks tia.now) }
{
    if clocks <= MOST_CLOCKS {
        return tia.read_after(clocks as u16, address);
    }
    let mut later = *tia;
    later.pass(MOST_CLOCKS as u16);
    later.read_after((clocks - MOST_CLOCKS) as u16, address)
}
