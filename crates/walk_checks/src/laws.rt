//! Laws of explanations. Each function does nothing; its contract is the law, about the definitions alone.

ghost use Rattle.std.specs.Prelude.{◌≡◌, ◌↔◌, ℕ, Bool, List, [], ◌∷◌, ◌++◌, Some, slice_get, IsTrue};
ghost use Rattle.walk_engine.specs.Walks.{Content, Least, is_in};
ghost use Rattle.walk_engine.specs.Explanations.{IsExplanation, IsExplainedWalk, nodes_of};
ghost use Rattle.walk_engine.specs.Laws.{every};
ghost use Rattle.walk_engine.specs.declared.walks.Half.{Half};
ghost use Rattle.walk_engine.specs.declared.walks.Step.{Step};
ghost use Rattle.walk_checks.specs.Exact.{named_in, all_but, IsExact, IsExplainedRun};
ghost use Rattle.walk_checks.specs.Whys.{IsWhy};

use walk_engine::Offerer;

/// Each node of an explanation is in every set that is closed for the offers that its steps name.
pub fn explained_in_least()
    ensures { (c : Content) (I : ℕ → Bool) (steps : List Step) → IsExplanation c I every steps
        → (n : ℕ) → IsTrue (is_in (nodes_of steps) n) → Least c I (named_in steps) n }
{}

/// The nodes of an exact explanation are the least set for all offers except the refused.
pub fn exact_is_least()
    ensures { (c : Content) (I : ℕ → Bool) (refused : List (ℕ × Half)) (steps : List Step)
        → IsExact c I refused steps → (n : ℕ) → IsTrue (is_in (nodes_of steps) n) ↔ Least c I (all_but refused) n }
{}

/// The steps of an explained walk are an explanation, and exact for the refused offers of the walk.
pub fn walk_is_exact<O: Offerer>()
    ensures explained { (c : Content) (I : ℕ → Bool) (s t : O) (M : ℕ → Bool) (steps : List Step)
        (refused : List (ℕ × Half)) → IsExplainedWalk c I O.gives s t M steps refused
        → IsExplanation c I every steps }
    ensures exact { (c : Content) (I : ℕ → Bool) (s t : O) (M : ℕ → Bool) (steps : List Step)
        (refused : List (ℕ × Half)) → IsExplainedWalk c I O.gives s t M steps refused
        → IsExact c I refused steps }
{}

/// The steps of any explained walk are an exact explanation, for every offerer.
pub fn run_is_exact()
    ensures explained { (c : Content) (I : ℕ → Bool) (M : ℕ → Bool) (steps : List Step) (refused : List (ℕ × Half))
        → IsExplainedRun c I M steps refused → IsExplanation c I every steps }
    ensures exact { (c : Content) (I : ℕ → Bool) (M : ℕ → Bool) (steps : List Step) (refused : List (ℕ × Half))
        → IsExplainedRun c I M steps refused → IsExact c I refused steps }
{}

/// Each step of an explanation is the last step of the reason why its node is listed.
pub fn each_step_ends_a_why()
    ensures { (c : Content) (I : ℕ → Bool) (A : ℕ → Half → Bool) (steps : List Step) → IsExplanation c I A steps
        → (place : ℕ) (step : Step) → slice_get steps place ≡ Some step
        → (before : List Step) × IsWhy c I A steps step.node (before ++ step ∷ []) }
{}
