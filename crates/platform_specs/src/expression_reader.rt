//! Reads an expression, character by character, from after `cfg(` to the closing `)`.
ghost use Rattle.std.specs.Prelude.{◌≡◌, ◌∷◌, [], ◌++◌, reverse, IfOk, OnOk, Some, None, true};
ghost use Rattle.platform_specs.specs.inner.FactReading.{fact_state, fact_step, fact_end, GoesOn};
ghost use Rattle.platform_specs.specs.inner.Reading.{beginning, item, operator_named, operator_at, is_list, leaf, past_comma, past_bracket, past_part, past_list, past_word, past_fact, in_item, step_at, read_step, reading, at_first};

use crate::fact::Fact;
use crate::fact_reader::{self, FactReader};
use crate::parts::{Operator, Part};
use std::alloc::{AllocError, Global};

/// The position of a reader within an expression.
#[derive(Clone, Copy)]
pub enum Stage {
    /// An expression begins; if true, its list may end here instead.
    Beginning(bool),
    /// In a fact, or in an operator's word.
    Item,
    /// After an operator's `)`.
    Closed,
    /// After the last `)`.
    Finished,
}

/// The reason why a text was not read.
#[derive(Clone, Copy)]
pub enum Unread {
    /// No expression goes on at this many bytes before the text's end.
    Left(usize),
    Memory,
}

impl From<AllocError> for Unread {
    ghost use Rattle.platform_specs.specs.declared.expression_reader.Unread.TheVariants.{Memory};

    ghost from_gives = { λ _ unread. unread ≡ Memory };

    fn from(_: AllocError) -> Unread {
        Unread::Memory
    }
}

/// An expression that is being read: the operators with open brackets, and the parts so far.
#[derive(Drop)]
pub struct ExpressionReader {
    pub stage: Stage,
    pub fact: FactReader,
    pub operators: Vec<Operator>,
    pub parts: Vec<Part>,
}

/// Returns the operator of this name.
fn operator_named(name: &str) -> Option<Operator>
    ensures { result ≡ operator_named name.now }
{
    if name == "all" {
        return Some(Operator::All);
    }
    if name == "any" {
        return Some(Operator::Any);
    }
    if name == "not" {
        return Some(Operator::Not);
    }
    None
}

/// Returns the operator whose word has just been read.
fn operator_at(fact: &FactReader) -> Option<Operator>
    ensures { result ≡ operator_at (fact_state fact.now) }
{
    match fact.stage {
        fact_reader::Stage::Naming | fact_reader::Stage::Named => {
            if fact.is_raw {
                return None;
            }
            operator_named(fact.name.as_str())
        }
        _ => None,
    }
}

/// Returns the fact as a part; `true` and `false` are constants.
fn leaf(fact: Fact) -> Part
    ensures { result ≡ leaf fact }
{
    match fact.constant() {
        Some(constant) => Part::Constant(constant),
        None => Part::Fact(fact),
    }
}

impl ExpressionReader {
    pub fn new(alloc: Global) -> ExpressionReader
        ensures { reading result ≡ at_first }
    {
        ExpressionReader {
            stage: Stage::Beginning(false),
            fact: FactReader::new(alloc),
            operators: Vec::new(alloc),
            parts: Vec::new(alloc),
        }
    }

    /// Reads a ',' after a part.
    fn pass_comma(&mut self) -> Result<bool, AllocError>
        ensures { IfOk result (λ went_on. GoesOn went_on
            (past_comma (reverse self.old.operators.items) self.old.parts.items) (reading self.new)) }
    {
        match self.operators.last() {
            None | Some(Operator::Not) => Ok(false),
            Some(&operator) => {
                self.parts.push(Part::Join(operator))?;
                self.stage = Stage::Beginning(true);
                Ok(true)
            }
        }
    }

    /// Reads a ')' after a part.
    fn pass_bracket(&mut self) -> Result<bool, AllocError>
        ensures { IfOk result (λ went_on. GoesOn went_on
            (past_bracket (reverse self.old.operators.items) self.old.parts.items) (reading self.new)) }
    {
        match self.operators.pop() {
            None => self.stage = Stage::Finished,
            Some(operator) => {
                self.parts.push(Part::Join(operator))?;
                self.parts.push(Part::Close)?;
                self.stage = Stage::Closed;
            }
        }
        Ok(true)
    }

    /// Reads `c` after a part.
    fn pass_part(&mut self, c: char) -> Result<bool, AllocError>
        ensures { IfOk result (λ went_on. GoesOn went_on
            (past_part (reverse self.old.operators.items) self.old.parts.items c) (reading self.new)) }
    {
        if c == ',' {
            return self.pass_comma();
        }
        if c == ')' {
            return self.pass_bracket();
        }
        Ok(false)
    }

    /// Reads a ')' where a part may begin.
    fn pass_list(&mut self) -> Result<bool, AllocError>
        ensures { IfOk result (λ went_on. GoesOn went_on
            (past_list (reverse self.old.operators.items) self.old.parts.items) (reading self.new)) }
    {
        match self.operators.pop() {
            None => Ok(false),
            Some(_) => {
                self.parts.push(Part::Close)?;
                self.stage = Stage::Closed;
                Ok(true)
            }
        }
    }

    /// Reads a '(' after the operator's word.
    fn open(&mut self, operator: Operator) -> Result<(), AllocError>
        ensures { OnOk result (past_word (reverse self.old.operators.items) self.old.parts.items
            (fact_state self.old.fact) (Some operator) ≡ Some (reading self.new)) }
    {
        self.operators.push(operator)?;
        self.parts.push(Part::Open(operator))?;
        self.stage = Stage::Beginning(!matches!(operator, Operator::Not));
        Ok(())
    }

    /// Reads `c` as part of a fact.
    fn go_on(&mut self, c: char) -> Result<bool, AllocError>
        ensures { IfOk result (λ went_on. GoesOn went_on (in_item (reverse self.old.operators.items)
            self.old.parts.items (fact_step true (fact_state self.old.fact) c)) (reading self.new)) }
    {
        let went_on = self.fact.step(c, true)?;
        self.stage = Stage::Item;
        Ok(went_on)
    }

    /// Reads a '(' after a word, or in a value.
    fn pass_word(&mut self) -> Result<bool, AllocError>
        ensures { IfOk result (λ went_on. GoesOn went_on (past_word (reverse self.old.operators.items)
            self.old.parts.items (fact_state self.old.fact) (operator_at (fact_state self.old.fact))) (reading self.new)) }
    {
        let Some(operator) = operator_at(&self.fact) else {
            return self.go_on('(');
        };
        self.open(operator)?;
        Ok(true)
    }

    /// Reads a ',' or ')' after a fact, or in a value.
    fn pass_fact(&mut self, alloc: Global, c: char) -> Result<bool, AllocError>
        ensures { IfOk result (λ went_on. GoesOn went_on (past_fact (reverse self.old.operators.items)
            self.old.parts.items (fact_state self.old.fact) c (fact_end true (fact_state self.old.fact))) (reading self.new)) }
    {
        let Some(fact) = self.fact.take(alloc, true) else {
            return self.go_on(c);
        };
        self.parts.push(leaf(fact))?;
        self.pass_part(c)
    }

    /// Reads `c` in a fact or in an operator's word, or after one.
    fn pass_item(&mut self, alloc: Global, c: char) -> Result<bool, AllocError>
        ensures { IfOk result (λ went_on. GoesOn went_on (step_at (item (fact_state self.old.fact))
            (reverse self.old.operators.items) self.old.parts.items c) (reading self.new)) }
    {
        match c {
            '(' => self.pass_word(),
            ',' | ')' => self.pass_fact(alloc, c),
            _ => self.go_on(c),
        }
    }

    /// Reads `c` where an expression begins.
    fn begin(&mut self, c: char, may_close: bool) -> Result<bool, AllocError>
        ensures { IfOk result (λ went_on. GoesOn went_on (step_at (beginning may_close)
            (reverse self.old.operators.items) self.old.parts.items c) (reading self.new)) }
    {
        if c == ' ' {
            self.stage = Stage::Beginning(may_close);
            return Ok(true);
        }
        if c == ')' {
            if may_close {
                return self.pass_list();
            }
            return Ok(false);
        }
        self.fact.restart();
        self.go_on(c)
    }

    /// Reads `c`, and returns true if an expression can go on with it. An allocation that fails is the only
    /// error.
    pub fn step(&mut self, alloc: Global, c: char) -> Result<bool, AllocError>
        ensures { IfOk result (λ went_on. GoesOn went_on (read_step (reading self.old) c) (reading self.new)) }
    {
        match self.stage {
            Stage::Beginning(may_close) => self.begin(c, may_close),
            Stage::Item => self.pass_item(alloc, c),
            Stage::Closed => {
                if c == ' ' {
                    return Ok(true);
                }
                self.pass_part(c)
            }
            Stage::Finished => Ok(false),
        }
    }
}
