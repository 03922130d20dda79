//! Laws of the definitions: a contract is the law, and the body is empty.
ghost use Rattle.std.specs.Prelude.{◌↔◌, List, Contains};
ghost use Rattle.guppy_packages.specs.Rows.{Text};
ghost use Rattle.platform_specs.specs.Expressions.{Target};
ghost use Rattle.guppy_features.specs.graph_platforms.HeldSpecs.{AreHeld, Holds};

/// The texts that hold are exactly those of the texts that spell a spec that holds.
pub fn held_exactly()
    ensures { (target : Target) (texts held : List Text) → AreHeld target texts held
        → (text : Text) → Contains held text ↔ (Contains texts text × Holds target text) }
{}
