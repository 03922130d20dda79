//! Facts: a name, and a value if one is written.
ghost use Rattle.std.specs.Prelude.{◌≡◌, IfOk, IfSome, IsSome, Some, None, option_map};
ghost use Rattle.platform_specs.specs.Grammar.{constant_at, constant_named};
ghost use Rattle.platform_specs.specs.Shown.{fact_shown};
ghost use Rattle.platform_specs.specs.Truth.{same_fact};

use crate::fact_reader::is_operator;
use std::fmt;
use std::marker::Model;

/// A fact as `rustc --print cfg` prints it: `name` or `name="value"`.
#[derive(Debug, Drop)]
pub struct Fact {
    pub(crate) name: String,
    pub(crate) value: Option<String>,
}

impl Model for Fact {
    ghost use Rattle.platform_specs.specs.Facts.{FactText};

    ghost Value = { FactText };

    ghost use Rattle.platform_specs.specs.FactView.{fact_text};

    ghost view = { fact_text };
}

/// Returns the constant of this name.
fn constant_named(name: &str) -> Option<bool>
    ensures { result ≡ constant_named name.now }
{
    if name == "true" {
        return Some(true);
    }
    if name == "false" {
        return Some(false);
    }
    None
}

impl Fact {
    /// Returns the constant that this fact spells: `true` or `false` without a value.
    pub(crate) fn constant(&self) -> Option<bool>
        ensures { result ≡ constant_at self.now.name self.now.value }
    {
        match &self.value {
            None => constant_named(self.name.as_str()),
            Some(_) => None,
        }
    }

    /// Returns true if the names are equal, and so are the values, or neither fact has one.
    pub fn is_same(&self, other: &Fact) -> bool
        ensures { result ≡ same_fact self.now other.now }
    {
        if self.name.as_str() != other.name.as_str() {
            return false;
        }
        match (&self.value, &other.value) {
            (None, None) => true,
            (Some(value), Some(wanted)) => value.as_str() == wanted.as_str(),
            _ => false,
        }
    }
}

impl fmt::Display for Fact {
    ghost output = { λ f. Some (fact_shown f) };

    /// Writes the fact as in a spec, with `r#` before the name of an operator.
    fn fmt<W: fmt::Write>(&self, f: &mut fmt::Formatter<W>) -> fmt::Result {
        let name = self.name.as_str();
        if is_operator(name) {
            write!(f, "r#")?;
        }
        match &self.value {
            Some(value) => write!(f, "{name} = \"{value}\""),
            None => write!(f, "{name}"),
        }
    }
}
