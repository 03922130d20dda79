//! Targets: a triple and its facts.
ghost use Rattle.std.specs.Prelude.{◌≡◌, ◌⊎◌, ◌∷◌, ◌<◌, ◌==◌, length, IfOk, IfErr, IfSome, MatchOption};
ghost use Rattle.std.specs.List.{slice_split};
ghost use Rattle.platform_specs.specs.inner.LineReading.{pieces_behind, lines_behind, ReadsLine};
ghost use Rattle.platform_specs.specs.Facts.{FactText};
ghost use Rattle.platform_specs.specs.Grammar.{SpellsLine, SpellsLines, without_return, lines_of};
ghost use Rattle.platform_specs.specs.Faults.{IsCfgFault};

use crate::fact::Fact;
use crate::fact_reader::FactReader;
use crate::fault::CfgFault;
use std::alloc::{AllocError, Global};
use std::marker::Model;

/// A target for which platform specs may hold. A contract sees it as a `Target`: the triple and the facts.
#[derive(Debug)]
pub struct TargetCfg {
    triple: String,
    facts: Vec<Fact>,
}

impl Drop for TargetCfg {
    // Written out, so that a crate above calls it. A derived drop is proved in each crate that drops a value, with those of all fields.
    fn drop(self) {
        let TargetCfg {
            triple: _triple,
            facts: _facts,
        } = self;
    }
}

impl Model for TargetCfg {
    ghost use Rattle.std.specs.Prelude.{string_bytes};
    ghost use Rattle.platform_specs.specs.Expressions.{Target};

    ghost Value = { Target };

    ghost view = { λ t. record { triple = string_bytes t.triple; facts = t.facts.items } };
}

/// Returns the fact in a line, or `None` if the line isn't a fact.
fn fact_in(alloc: Global, line: &str) -> Result<Option<Fact>, AllocError>
    ensures { IfOk result (λ found. MatchOption found ((f : FactText) → SpellsLine f line.now → ⊥) (λ f. SpellsLine f line.now)) }
{
    let mut reader = FactReader::new(alloc);
    let mut rest = line.chars();
    let mut left = line.len();
    'text: while let Some(c) = rest.next() {
        if !reader.step(c, false)? {
            return Ok(None);
        }
        left = rest.as_str().len();
    }
    let _ = left;
    Ok(reader.take(alloc, false))
}

/// Returns the text before the first line feed, and the text after it, if any.
fn first_piece(text: &str) -> (&str, Option<&str>)
    ensures pieces { slice_split (λ b. b == 10) text.now ≡ result.0.now ∷ pieces_behind result.1 }
    ensures shorter { IfSome result.1 (λ rest. length rest.now < length text.now) }
{
    match text.split_once('\n') {
        Some((line, rest)) => (line, Some(rest)),
        None => (text, None),
    }
}

/// Returns a line without a carriage return at its end.
fn without_return(line: &str) -> &str
    ensures { result.now ≡ without_return line.now }
{
    match line.strip_suffix('\r') {
        Some(rest) => rest,
        None => line,
    }
}

/// Returns the first line of a text, and the text after its line feed, if any.
fn first_line(text: &str) -> (&str, Option<&str>)
    ensures lines { lines_of text.now ≡ result.0.now ∷ lines_behind result.1 }
    ensures shorter { IfSome result.1 (λ rest. length rest.now < length text.now) }
{
    let (piece, rest) = first_piece(text);
    (without_return(piece), rest)
}

/// Appends the fact of a line unless the line is empty. Returns false if the line is malformed.
fn read_line(alloc: Global, line: &str, facts: &mut Vec<Fact>) -> Result<bool, AllocError>
    ensures { IfOk result (λ is_read. ReadsLine is_read line.now facts.old.items facts.new.items) }
{
    if line.is_empty() {
        return Ok(true);
    }
    let Some(fact) = fact_in(alloc, line)? else {
        return Ok(false);
    };
    facts.push(fact)?;
    Ok(true)
}

/// Returns the facts of a cfg text. The error is `Malformed` with the first malformed line, or `Memory`.
fn facts_in(alloc: Global, text: &str) -> Result<Vec<Fact>, CfgFault>
    ensures found { IfOk result (λ facts. SpellsLines (lines_of text.now) facts.items) }
    ensures fault { IfErr result (λ fault. IsCfgFault text.now fault) }
{
    let mut facts = Vec::new(alloc);
    let mut number = 0;
    let mut rest = Some(text);
    'lines: while let Some(current) = rest {
        let (line, behind) = first_line(current);
        if !read_line(alloc, line, &mut facts)? {
            return Err(CfgFault::Malformed { line: number + 1 });
        }
        number += 1;
        rest = behind;
    }
    Ok(facts)
}

impl TargetCfg {
    ghost use Rattle.platform_specs.specs.Expressions.{Target};
    ghost use Rattle.platform_specs.specs.Grammar.{IsTarget};
    ghost use Rattle.platform_specs.specs.Truth.{is_known};

    /// Reads the output of `rustc --print cfg --target TRIPLE`: lines `name` or `name="value"`; empty lines
    /// are skipped. The error is `Malformed` with the number of the first other line, or `Memory`.
    pub fn parse(alloc: Global, triple: &str, text: &str) -> Result<TargetCfg, CfgFault>
        // A target that is returned is the one that the text spells.
        ensures found { IfOk result (λ target. IsTarget triple.now text.now target) }

        // If the text spells a target, it is returned unless an allocation fails.
        ensures only { (target : Target) → IsTarget triple.now text.now target → (result ≡ Ok target) ⊎ (result ≡ Err CfgFault.Memory) }
        ensures fault { IfErr result (λ fault. IsCfgFault text.now fault) }
    {
        TargetCfg::read(alloc, triple, text)
    }

    /// Reads a target.
    fn read(alloc: Global, triple: &str, text: &str) -> Result<TargetCfg, CfgFault>
        ensures found { IfOk result (λ target. IsTarget triple.now text.now target) }
        ensures fault { IfErr result (λ fault. IsCfgFault text.now fault) }
    {
        let facts = facts_in(alloc, text)?;
        let triple = String::from_str(alloc, triple)?;
        Ok(TargetCfg { triple, facts })
    }

    /// Returns the triple.
    pub fn triple(&self) -> &str
        ensures { result.now ≡ self.now.triple }
    {
        self.triple.as_str()
    }

    /// Returns true if the target has the fact.
    pub(crate) fn is_known(&self, fact: &Fact) -> bool
        ensures { result ≡ is_known self.now.facts fact.now }
    {
        self.facts.iter().any(|known| fact.is_same(known))
    }
}
