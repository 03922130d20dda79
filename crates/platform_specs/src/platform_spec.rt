//! A platform spec: the name of a platform, or an expression over facts.
ghost use Rattle.std.specs.Prelude.{◌≡◌, ◌⊎◌, ℕ, List, ◌++◌, codes, IfOk, IfErr, MatchOption, Some};
ghost use Rattle.platform_specs.specs.Expressions.{Spec};

use crate::expression_reader::Unread;
use crate::expression_text::{read_parts, unread_name};
use crate::fault::SpecFault;
use crate::parts::{Part, write_cfg};
use crate::target_cfg::TargetCfg;
use crate::walk::walk_over;
use std::alloc::Global;
use std::fmt;
use std::marker::Model;

/// The two kinds of platform specs.
#[derive(Debug, Drop)]
pub enum SpecKind {
    Platform(String),
    Cfg(Vec<Part>),
}

/// A platform spec as Cargo reads it. A contract sees it as a `Spec`: a platform name, or an expression.
#[derive(Debug)]
pub struct PlatformSpec {
    kind: SpecKind,
}

impl Drop for PlatformSpec {
    // Written out, so that a crate above calls it. A derived drop is proved in each crate that drops a value, with those of all fields.
    fn drop(self) {
        let PlatformSpec { kind: _kind } = self;
    }
}

impl Model for PlatformSpec {
    ghost use Rattle.platform_specs.specs.Expressions.{Spec};
    ghost use Rattle.platform_specs.specs.contracts.parts.Part.{the_row};
    ghost use Rattle.platform_specs.specs.Codes.{spec_code};

    ghost Value = { Spec };

    ghost coded = { spec_code the_row.coded };

    ghost use Rattle.platform_specs.specs.SpecView.{spec_of, IsSpecKind};

    ghost view = { λ spec. spec_of spec.kind };

    ghost invariant = { λ spec. IsSpecKind spec.kind };
}

/// Returns the text after `cfg(`, or `None` if `text` doesn't begin with it.
fn behind_cfg(text: &str) -> Option<&str>
    ensures { MatchOption result ((rest : List ℕ) → text.now ≡ codes "cfg(" ++ rest → ⊥) (λ rest. text.now ≡ codes "cfg(" ++ rest.now) }
{
    text.strip_prefix("cfg(")
}

impl PlatformSpec {
    ghost use Rattle.platform_specs.specs.Grammar.{IsSpecText};
    ghost use Rattle.platform_specs.specs.Faults.{IsSpecFault};
    ghost use Rattle.platform_specs.specs.Truth.{truth_of};

    /// Reads a platform spec as Cargo does; `specs/Grammar.antt` has the grammar. The error is `Malformed`
    /// with the first byte at which no spec goes on, or `Memory`.
    pub fn parse(alloc: Global, text: &str) -> Result<PlatformSpec, SpecFault>
        // A spec that is returned is the one that the text spells.
        ensures found { IfOk result (λ spec. IsSpecText text.now spec) }

        // If the text spells a spec, it is returned unless an allocation fails.
        ensures only { (spec : Spec) → IsSpecText text.now spec → (result ≡ Ok spec) ⊎ (result ≡ Err SpecFault.Memory) }
        ensures fault { IfErr result (λ fault. IsSpecFault text.now fault) }
    {
        PlatformSpec::read(alloc, text)
    }

    /// Reads a platform spec.
    fn read(alloc: Global, text: &str) -> Result<PlatformSpec, SpecFault>
        ensures found { IfOk result (λ spec. IsSpecText text.now spec) }
        ensures fault { IfErr result (λ fault. IsSpecFault text.now fault) }
    {
        match behind_cfg(text) {
            Some(rest) => PlatformSpec::read_cfg(alloc, text, rest),
            None => PlatformSpec::read_name(alloc, text),
        }
    }

    /// Reads the expression in `text`, which is `cfg(` and `rest`.
    fn read_cfg(alloc: Global, text: &str, rest: &str) -> Result<PlatformSpec, SpecFault>
        requires { text.now ≡ codes "cfg(" ++ rest.now }
        ensures found { IfOk result (λ spec. IsSpecText text.now spec) }
        ensures fault { IfErr result (λ fault. IsSpecFault text.now fault) }
    {
        match read_parts(alloc, rest) {
            Ok(parts) => Ok(PlatformSpec {
                kind: SpecKind::Cfg(parts),
            }),
            Err(Unread::Left(left)) => Err(SpecFault::Malformed {
                at: text.len() - left,
            }),
            Err(Unread::Memory) => Err(SpecFault::Memory),
        }
    }

    /// Reads a platform name.
    fn read_name(alloc: Global, text: &str) -> Result<PlatformSpec, SpecFault>
        requires { (rest : List ℕ) → text.now ≡ codes "cfg(" ++ rest → ⊥ }
        ensures found { IfOk result (λ spec. IsSpecText text.now spec) }
        ensures fault { IfErr result (λ fault. IsSpecFault text.now fault) }
    {
        if let Some(left) = unread_name(text) {
            return Err(SpecFault::Malformed {
                at: text.len() - left,
            });
        }
        let name = String::from_str(alloc, text)?;
        Ok(PlatformSpec {
            kind: SpecKind::Platform(name),
        })
    }

    #[tactic(auto, using(crate::proofs::Walks::walk_expression))]
    /// Returns true if the spec holds for `target`. A platform name holds if it is the triple, and an
    /// expression if it is true for the target's facts.
    pub fn holds(&self, target: &TargetCfg) -> bool
        ensures { result ≡ truth_of target.now self.now }
    {
        match &self.kind {
            SpecKind::Platform(name) => name.as_str() == target.triple(),
            SpecKind::Cfg(parts) => walk_over(target, parts).value,
        }
    }
}

impl fmt::Display for PlatformSpec {
    ghost use Rattle.platform_specs.specs.Shown.{spec_shown};

    ghost output = { λ spec. Some (spec_shown spec) };

    #[tactic(auto, using(crate::proofs::PartTexts::text_expression))]
    /// Writes the name, or the expression as Cargo prints it: `cfg(all(unix, not(target_os = "macos")))`.
    fn fmt<W: fmt::Write>(&self, f: &mut fmt::Formatter<W>) -> fmt::Result {
        match &self.kind {
            SpecKind::Platform(name) => write!(f, "{name}"),
            SpecKind::Cfg(parts) => write_cfg(f, parts.as_slice()),
        }
    }
}
