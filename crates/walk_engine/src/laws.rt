//! Laws of walks. Each function does nothing; its contract is the law, about the definitions alone.

ghost use Rattle.std.specs.Prelude.{◌≡◌, ◌↔◌, ◌⊎◌, ◌||◌, ℕ, Bool, List, IsTrue, IsFalse};
ghost use Rattle.walk_engine.specs.Walks.{Content, Way, Call, IsWay, has_half, Reach, was_made, was_accepted, IsDue, IsLegal, IsComplete, Agrees, Least, GoesAlong, IsWalk};
ghost use Rattle.walk_engine.specs.Laws.{every, only, Leads, AreReverse, IsUngated, AnswersBy};
ghost use Rattle.walk_engine.specs.declared.walks.Half.{Half};
ghost use Rattle.walk_engine.specs.declared.walks.Half.TheVariants.{Required};

use crate::walks::Offerer;

/// A path over all edges leads from `a` to `b` exactly if `b` is in the reach of `a`. It does so exactly if `a`
/// is in the reach of `b` over the reverse edges.
pub fn reach_both_ways()
    ensures forward { (c : Content) (a b : ℕ) → Leads c a b ↔ Reach c (only a) every b }
    ensures reverse { (c d : Content) → AreReverse c d → (a b : ℕ)
        → Leads c a b ↔ Reach d (only b) every a }
{}

/// The reach of the union of two sets is the union of their reaches. Reaching again from a reach adds nothing.
pub fn reach_additive()
    ensures together { (c : Content) (A : ℕ → Half → Bool) (I J : ℕ → Bool) (n : ℕ)
        → Reach c (λ k. I k || J k) A n ↔ (Reach c I A n ⊎ Reach c J A n) }
    ensures again { (c : Content) (A : ℕ → Half → Bool) (I M : ℕ → Bool)
        → ((n : ℕ) → IsTrue (M n) ↔ Reach c I A n) → (n : ℕ) → Reach c M A n ↔ Reach c I A n }
{}

/// Each least set is within the reach over all edges. It grows with the initial nodes and with the accepted
/// offers, and the least set of a least set is that set.
pub fn least_monotone()
    ensures within { (c : Content) (I : ℕ → Bool) (A : ℕ → Half → Bool) (n : ℕ)
        → Least c I A n → Reach c I every n }
    ensures grows { (c : Content) (I J : ℕ → Bool) (A B : ℕ → Half → Bool)
        → ((n : ℕ) → IsTrue (I n) → IsTrue (J n))
        → ((e : ℕ) (h : Half) → IsTrue (A e h) → IsTrue (B e h))
        → (n : ℕ) → Least c I A n → Least c J B n }
    ensures again { (c : Content) (I M : ℕ → Bool) (A : ℕ → Half → Bool)
        → ((n : ℕ) → IsTrue (M n) ↔ Least c I A n) → (n : ℕ) → Least c M A n ↔ Least c I A n }
{}

/// If no half waits for a gate, as in reverse, the least set for all offers is the reach over all edges.
pub fn reverse_accept_all()
    ensures { (c : Content) (I : ℕ → Bool) → IsUngated c → (n : ℕ) → Least c I every n ↔ Reach c I every n }
{}

/// All complete legal runs that agree with one set of offers have the same result.
pub fn one_result()
    ensures { (c : Content) (I : ℕ → Bool) (A : ℕ → Half → Bool) (run other : List Call)
        → IsLegal c I run → IsComplete c I run → IsLegal c I other → IsComplete c I other
        → Agrees A run → Agrees A other → (n : ℕ)
        → Reach c I (was_accepted run) n ↔ Reach c I (was_accepted other) n }
{}

/// A required half that was never offered is due once its start is reached.
pub fn required_half_is_due()
    ensures { (c : Content) (I : ℕ → Bool) (run : List Call) (e : ℕ) (w : Way)
        → IsWay c e w → IsTrue (has_half w.ask Required) → Reach c I (was_accepted run) w.start
        → IsFalse (was_made run e Required) → IsDue c I run e Required }
{}

/// If an offerer returns the results of a test, the test agrees with each of its runs. The members of a walk
/// are then exactly the least set for the test.
pub fn agrees_by_answer<O: Offerer>()
    ensures agrees { (A : ℕ → Half → Bool) (s t : O) (run : List Call) → AnswersBy O.gives A s
        → GoesAlong O.gives s run t → Agrees A run }
    ensures least { (A : ℕ → Half → Bool) (s t : O) (c : Content) (I M : ℕ → Bool) → AnswersBy O.gives A s
        → IsWalk c I O.gives s t M → (n : ℕ) → IsTrue (M n) ↔ Least c I A n }
{}
