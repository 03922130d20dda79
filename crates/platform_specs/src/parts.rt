//! The parts of an expression, in the order of its text.

ghost use Rattle.std.specs.Prelude.{◌≡◌, ◌++◌, Some, codes};
ghost use Rattle.std.specs.Fmt.{WritesOnOk};
ghost use Rattle.platform_specs.specs.inner.PartTexts.{operator_shown, is_closed, part_text, text_of};

use crate::fact::Fact;
use std::fmt;

/// An operator of an expression.
#[derive(Clone, Copy, PartialEq, Eq, Debug)]
pub enum Operator {
    All,
    Any,
    Not,
}

/// A part of an expression. An operator is `Open`, then its parts with a `Join` after each, then `Close`.
#[derive(Debug, Drop)]
pub enum Part {
    Open(Operator),
    Constant(bool),
    Fact(Fact),
    Join(Operator),
    Close,
}

impl fmt::Display for Operator {
    ghost output = { λ operator. Some (operator_shown operator) };

    /// Writes the operator's word.
    fn fmt<W: fmt::Write>(&self, f: &mut fmt::Formatter<W>) -> fmt::Result {
        match self {
            Operator::All => write!(f, "all"),
            Operator::Any => write!(f, "any"),
            Operator::Not => write!(f, "not"),
        }
    }
}

/// Returns true if an operator's `Close` is the first of `parts`.
fn is_closed(parts: &[Part]) -> bool
    ensures { result ≡ is_closed parts.now }
{
    matches!(parts, [Part::Close, ..])
}

/// Writes `part`, with `, ` after a part of an operator unless it `is_last`.
fn write_part<W: fmt::Write>(f: &mut fmt::Formatter<W>, part: &Part, is_last: bool) -> fmt::Result
    ensures { WritesOnOk W.write_str_gives f.old result (part_text part.now is_last) f.new }
{
    match part {
        Part::Open(operator) => write!(f, "{operator}("),
        Part::Constant(constant) => write!(f, "{constant}"),
        Part::Fact(fact) => write!(f, "{fact}"),
        Part::Join(_) => { if is_last { Ok(()) } else { write!(f, ", ") } }
        Part::Close => write!(f, ")"),
    }
}

/// Writes the expression with these parts.
fn write_parts<W: fmt::Write>(f: &mut fmt::Formatter<W>, parts: &[Part]) -> fmt::Result
    ensures { WritesOnOk W.write_str_gives f.old result (text_of parts.now) f.new }
{
    let mut rest = parts;
    'parts: while let [part, behind @ ..] = rest {
        write_part(f, part, is_closed(behind))?;
        rest = behind;
    }
    Ok(())
}

/// Writes the expression of these parts in `cfg(..)`.
pub fn write_cfg<W: fmt::Write>(f: &mut fmt::Formatter<W>, parts: &[Part]) -> fmt::Result
    ensures { WritesOnOk W.write_str_gives f.old result (codes "cfg(" ++ (text_of parts.now ++ codes ")")) f.new }
{
    write!(f, "cfg(")?;
    write_parts(f, parts)?;
    write!(f, ")")
}
