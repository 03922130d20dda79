//! Laws of the definitions. Each function does nothing: its contract is the law.
ghost use Rattle.std.specs.Prelude.{◌≡◌, ℕ, List};
ghost use Rattle.platform_specs.specs.Expressions.{Spec, Target};
ghost use Rattle.platform_specs.specs.Grammar.{IsSpecText, IsTarget};
ghost use Rattle.platform_specs.specs.Truth.{truth_of};

/// A text spells at most one spec.
pub fn one_spec()
    ensures { (text : List ℕ) (a b : Spec) → IsSpecText text a → IsSpecText text b → a ≡ b }
{}

/// A triple and a cfg text describe at most one target.
pub fn one_target()
    ensures { (triple text : List ℕ) (s t : Target) → IsTarget triple text s → IsTarget triple text t → s ≡ t }
{}

/// Whether a spec holds depends only on its text, the triple and the cfg text.
pub fn one_answer()
    ensures { (spec triple text : List ℕ) (a b : Spec) (s t : Target) → IsSpecText spec a → IsSpecText spec b
        → IsTarget triple text s → IsTarget triple text t → truth_of s a ≡ truth_of t b }
{}
