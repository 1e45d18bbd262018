//! A part of a space.
//!
//! A space is divided by the first choices of its sequences: of C choices and N parts, part K has the first choices from
//! number (K - 1) * C / N on, up to K * C / N without it, both rounded down. So the parts are apart and in order, together they are
//! all, and no two differ by more than one first choice; where there are more parts than choices, some have the empty sequence alone.

ghost use Rattle.std.specs.Prelude.{◌≡◌, ◌-◌, ◌<◌, ◌≤◌, IfSome, IfNone};
ghost use Rattle.tas_search.specs.Parts.{part_end, IsPart};

/// A part of a space: number `number` of `of` parts, counted from 1.
#[derive(Clone, Copy, Debug, PartialEq, Eq)]
pub struct SpacePart {
    /// Which part: 1 to `of`.
    pub number: usize,
    /// How many parts there are.
    pub of: usize,
}

/// The number of the choice after those of the first `parts` of `of` parts.
fn part_end(parts: usize, of: usize, choices: usize) -> usize
    requires some { 0 < of }
    requires within { parts ≤ of }
    ensures end { result ≡ part_end parts of choices }
    ensures within { result ≤ choices }
{
    let product = parts as u128 * choices as u128;
    let end = (product / of as u128) as usize;
    end
}

/// How many first choices a part has, of this many.
pub(crate) fn first_count(part: SpacePart, choices: usize) -> usize
    requires { IsPart part.number part.of }
    ensures count { result ≡ part_end part.number part.of choices - part_end (part.number - 1) part.of choices }
    ensures within { result ≤ choices }
{
    let low = part_end(part.number - 1, part.of, choices);
    let high = part_end(part.number, part.of, choices);
    high.saturating_sub(low)
}

impl SpacePart {
    /// The whole space: part 1 of 1.
    pub fn whole() -> Self
        // Refused: none, it is what each search without a part is of.
        ensures { result ≡ record { number = 1; of = 1 } }
    {
        SpacePart { number: 1, of: 1 }
    }

    /// The numbers of its first choices, of this many: from the first one on, up to the second one without it. `None` where there is no such part.
    pub fn first_choices(self, choices: usize) -> Option<(usize, usize)>
        // Part K of N has the choices from (K - 1) * C / N on, up to K * C / N without it, of C choices.
        // Refused: part_has_one_first_choice_more, part_has_one_first_choice_less, part_after_the_last_is_searched.
        ensures part { IfSome result (λ bounds. IsPart self.number self.of) }
        ensures low { IfSome result (λ bounds. bounds.0 ≡ part_end (self.number - 1) self.of choices) }
        ensures high { IfSome result (λ bounds. bounds.1 ≡ part_end self.number self.of choices) }
        ensures within { IfSome result (λ bounds. bounds.1 ≤ choices) }
        ensures none { IfNone result (IsPart self.number self.of → ⊥) }
    {
        if self.number == 0 || self.of < self.number {
            return None;
        }
        let low = part_end(self.number - 1, self.of, choices);
        let high = part_end(self.number, self.of, choices);
        Some((low, high))
    }
}
