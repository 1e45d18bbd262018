//! Laws of the definitions.

ghost use Rattle.std.specs.Prelude.{◌≡◌, ℕ, suc, ◌-◌, ◌*◌, ◌^◌, ◌<◌, ◌≤◌, ◌↔◌, ℤ, Bool, List, ◌∷◌, ◌++◌, length, map, None};
ghost use Rattle.std.specs.List.{Contains, range_with_len};
ghost use Rattle.vcs_machine.specs.Machine.{Machine};
ghost use Rattle.tas_engines.specs.Names.{Names};
ghost use Rattle.tas_search.specs.Best.{IsReachAnswer, IsShortest, NeedsAtLeast};
ghost use Rattle.tas_search.specs.Extreme.{IsExtreme, IsExtremeAnswer};
ghost use Rattle.tas_search.specs.Outcome.{Outcome, nothing};
ghost use Rattle.tas_search.specs.Parts.{HaveExtremes, HaveShortest, IsBestPart, IsPart, IsShortestPart, least_count, part_of, sequence_count, whole};
ghost use Rattle.tas_search.specs.LayerLines.{sequences};
ghost use Rattle.tas_search.specs.declared.extremes.Aim.{Aim};
ghost use Rattle.tas_search.specs.declared.goal.GoalKind.{GoalKind};
ghost use Rattle.tas_search.specs.GoalText.{IsGoalText};
ghost use Rattle.tas_search.specs.Grammar.{Tree};
ghost use Rattle.tas_search.specs.Logs.{LogBytes};
ghost use Rattle.tas_search.specs.Reported.{DifferInTimes};
ghost use Rattle.tas_search.specs.SearchText.{SearchInputs, IsSearchText};
ghost use Rattle.tas_search.specs.Space.{SpaceContent, AreNumbers, AreChoices, rank, reached};

/// Of two sequences of one length that begin alike, the one comes first whose next choice does.
pub fn first_difference_decides()
    // Refused: none, it is a law of the definitions and has no code.
    ensures { (space : SpaceContent) (front a b : List ℕ) (j k : ℕ)
        → j < k → AreNumbers space a → length a ≡ length b
        → rank space (front ++ j ∷ a) < rank space (front ++ k ∷ b) }
{}

/// A text is that of one goal at most.
pub fn one_goal_per_text()
    // Refused: none, they are laws of the definitions and have no code.
    ensures { (names : Names) (text : List ℕ) (j k : GoalKind) (a b : Tree)
        → IsGoalText names text j a → IsGoalText names text k b → (j ≡ k) × (a ≡ b) }
{}

/// A search has one answer, whatever the number of workers.
pub fn one_answer_per_search()
    // Two outcomes that meet the clause of `find_shortest` for the same space, goal and limits are equal: the same sequence, or none in both, or
    // both stopped after as many choices.
    // Refused: none, it is a law of the definitions and has no code.
    ensures shortest { (space : SpaceContent) (goal : Machine → Bool) (most states : ℕ) (a b : Outcome)
        → IsReachAnswer space goal most states a → IsReachAnswer space goal most states b → a ≡ b }
    // The same of `find_extreme`, and so of `find_goal`.
    // Refused: none, it is a law of the definitions and has no code.
    ensures value { (space : SpaceContent) (aim : Aim) (value : Machine → ℤ) (count states : ℕ) (a b : Outcome)
        → IsExtremeAnswer space aim value count states a
        → IsExtremeAnswer space aim value count states b → a ≡ b }
    // Two answers that meet the clause of `search_text` for the same inputs' bytes and numbers have the same script and the same verdict, byte for
    // byte, and reports of as many lines that differ in their rates alone. The number of workers is none of these inputs. Nothing is said of two
    // searches of which one has no answer: it may be out of memory, or fail to write, where the other isn't and doesn't.
    // Refused: none, it is a law of the definitions and has no code.
    ensures text { (i : SearchInputs) (script script' verdict verdict' : List ℕ) (old new old' new' : LogBytes)
        → IsSearchText i script verdict old new → IsSearchText i script' verdict' old' new'
        → (script ≡ script') × (verdict ≡ verdict') × DifferInTimes old new old' new' }
{}

/// The best of the answers of a space's parts is the whole's.
pub fn best_part_is_best()
    // So a space can be searched in parts, one after the other or on several machines: of the parts' answers the sequence with the fewest choices,
    // and of those with as few that of the first part, is the shortest of all, and the first of them. A part that stopped is no matter where its
    // answer says that none of so few choices meets the goal. Each part may have been searched with a limit of states of its own.
    // Refused: none, it is a law of the definitions and has no code.
    ensures { (space : SpaceContent) (goal : Machine → Bool) (most n : ℕ) (states : ℕ → ℕ)
        (answers : ℕ → Outcome) (k : ℕ) (ks : List ℕ)
        → HaveShortest space goal most n states answers → IsShortestPart most n answers k ks
        → IsShortest (whole space) goal ks }
{}

/// The best of the greatest or least values of a space's parts is the whole's.
pub fn best_value_of_parts_is_best()
    // Of the parts' answers the sequence with the best value, and of those with the same that of the first part, is the whole's, where no part stopped.
    // Each part may have been searched with a limit of states of its own.
    // Refused: none, it is a law of the definitions and has no code.
    ensures { (space : SpaceContent) (aim : Aim) (value : Machine → ℤ) (count n : ℕ) (states : ℕ → ℕ)
        (answers : ℕ → Outcome) (k : ℕ) (ks : List ℕ) → HaveExtremes space aim value count n states answers
        → IsBestPart space aim value n answers k ks
        → IsExtreme (whole space) aim value count ks }
{}

/// The list of the sequences of a length has each of them, once, in order.
pub fn sequences_are_listed()
    // So its length is how many sequences of the space have so many choices: a list of numbers is on it where it is such a sequence, and nowhere else.
    // Refused: none, it is a law of the definitions and has no code.
    ensures all { (space : SpaceContent) (count : ℕ) (ks : List ℕ)
        → (AreChoices space ks × (length ks ≡ count)) ↔ Contains (sequences space count) ks }
    // Their places among all sequences follow one another, so none is there twice.
    // Refused: none, it is a law of the definitions and has no code.
    ensures order { (space : SpaceContent) (count : ℕ) → map (rank space) (sequences space (suc count))
        ≡ range_with_len (space.low * length space.choices ^ count) ((space.high - space.low) * length space.choices ^ count) }
{}

/// How many sequences a part has.
pub fn sequences_are_counted()
    // The number in a verdict is that of all sequences of a part that have so many choices.
    // Refused: none, it is a law of the definitions and has no code.
    ensures { (space : SpaceContent) (k n count : ℕ) → length (sequences (part_of space k n) count)
        ≡ sequence_count k n (length space.choices) count }
{}

/// What no part of a space has, the whole doesn't have.
pub fn what_no_part_has_the_whole_lacks()
    // Where by each part's answer no sequence of fewer than `count` choices meets the goal, none of the whole does: so where each answer is `Nothing`,
    // none of the whole does. Here, too, each part has a limit of states of its own.
    // Refused: none, it is a law of the definitions and has no code.
    ensures shortest { (space : SpaceContent) (goal : Machine → Bool) (most n count : ℕ) (states : ℕ → ℕ)
        (answers : ℕ → Outcome) → 1 ≤ n → HaveShortest space goal most n states answers
        → ((k : ℕ) → IsPart k n → count ≤ least_count most (answers k))
        → NeedsAtLeast (whole space) goal count }
    // Where no part has a sequence of `count` choices that reaches a machine, the whole has none.
    // Refused: none, it is a law of the definitions and has no code.
    ensures value { (space : SpaceContent) (aim : Aim) (value : Machine → ℤ) (count n : ℕ) (states : ℕ → ℕ)
        (answers : ℕ → Outcome) → 1 ≤ n → HaveExtremes space aim value count n states answers
        → ((k : ℕ) → IsPart k n → answers k ≡ nothing)
        → (ks : List ℕ) → AreChoices (whole space) ks → length ks ≡ count → reached (whole space) ks ≡ None }
{}
