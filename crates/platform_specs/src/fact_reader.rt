//! Reads a fact, character by character.
ghost use Rattle.std.specs.Prelude.{◌≡◌, [], IfOk, IfNone, string_bytes, true, false};
ghost use Rattle.platform_specs.specs.Grammar.{is_space, begins_name, continues_name, is_operator};
ghost use Rattle.platform_specs.specs.inner.FactReading.{waiting, naming, quoted, is_taken, name_step, past_name, fact_step, fact_end, fact_state, GoesOn};

use crate::fact::Fact;
use std::alloc::{AllocError, Global};
use std::mem;

/// The position of a reader within a fact.
#[derive(Clone, Copy)]
pub enum Stage {
    Waiting,
    /// After `r#`.
    Raw,
    /// In a name, or at its end.
    Naming,
    /// In the spaces after a name.
    Named,
    /// After a name and `=`.
    Valued,
    /// In the value after a name and `=`.
    Quoted,
    /// After a name and its value.
    Whole,
}

/// A fact that is being read.
#[derive(Drop)]
pub struct FactReader {
    pub stage: Stage,
    pub is_raw: bool,
    pub name: String,
    pub value: String,
}

pub fn begins_name(c: char) -> bool
    ensures { result ≡ begins_name c }
{
    c.is_ascii_alphabetic() || c == '_'
}

pub fn continues_name(c: char) -> bool
    ensures { result ≡ continues_name c }
{
    c.is_ascii_alphanumeric() || c == '_'
}

pub fn is_operator(name: &str) -> bool
    ensures { result ≡ is_operator name.now }
{
    name == "all" || name == "any" || name == "not"
}

impl FactReader {
    pub fn new(alloc: Global) -> FactReader
        ensures { fact_state result ≡ waiting }
    {
        FactReader {
            stage: Stage::Waiting,
            is_raw: false,
            name: String::new(alloc),
            value: String::new(alloc),
        }
    }

    /// Starts the next fact.
    pub fn restart(&mut self)
        ensures { fact_state self.new ≡ waiting }
    {
        self.stage = Stage::Waiting;
    }

    /// Returns true if the name is a bare operator's word and `reserved` is true.
    fn is_taken(&self, reserved: bool) -> bool
        ensures { result ≡ is_taken reserved self.now.is_raw (string_bytes self.now.name) }
    {
        reserved && !self.is_raw && is_operator(self.name.as_str())
    }

    /// Begins the name with `c`; returns false if no name begins with it.
    fn begin_name(&mut self, c: char, is_raw: bool) -> Result<bool, AllocError>
        ensures { IfOk result (λ went_on. GoesOn went_on (name_step is_raw c) (fact_state self.new)) }
    {
        if !begins_name(c) {
            return Ok(false);
        }
        self.name.clear();
        self.name.push(c)?;
        self.is_raw = is_raw;
        self.stage = Stage::Naming;
        Ok(true)
    }

    /// Reads `c` after the name.
    fn pass_name(&mut self, c: char, reserved: bool) -> bool
        ensures { GoesOn result (past_name reserved self.old.is_raw (string_bytes self.old.name) c) (fact_state self.new) }
    {
        if c == ' ' {
            self.stage = Stage::Named;
            return true;
        }
        if c == '=' && !self.is_taken(reserved) {
            self.stage = Stage::Valued;
            return true;
        }
        false
    }

    /// Reads `c` in the name or after it.
    fn go_on_name(&mut self, c: char, reserved: bool) -> Result<bool, AllocError>
        ensures { IfOk result (λ went_on. GoesOn went_on
            (fact_step reserved (naming self.old.is_raw (string_bytes self.old.name)) c) (fact_state self.new)) }
    {
        if continues_name(c) {
            self.name.push(c)?;
            self.stage = Stage::Naming;
            return Ok(true);
        }
        if c == '#' {
            let is_raw = !self.is_raw && self.name.as_str() == "r";
            self.stage = Stage::Raw;
            return Ok(is_raw);
        }
        Ok(self.pass_name(c, reserved))
    }

    /// Reads `c` in the value.
    fn go_on_value(&mut self, c: char) -> Result<bool, AllocError>
        ensures { IfOk result (λ went_on. GoesOn went_on
            (fact_step false (quoted self.old.is_raw (string_bytes self.old.name) (string_bytes self.old.value)) c) (fact_state self.new)) }
    {
        if c == '"' {
            self.stage = Stage::Whole;
            return Ok(true);
        }
        self.value.push(c)?;
        self.stage = Stage::Quoted;
        Ok(true)
    }

    /// Reads `c`, and returns true if a fact can go on with it. If `reserved` is true, operators' bare words
    /// aren't facts. An allocation that fails is the only error.
    pub fn step(&mut self, c: char, reserved: bool) -> Result<bool, AllocError>
        ensures { IfOk result (λ went_on. GoesOn went_on (fact_step reserved (fact_state self.old) c) (fact_state self.new)) }
    {
        match self.stage {
            Stage::Waiting => {
                if c == ' ' {
                    return Ok(true);
                }
                self.begin_name(c, false)
            }
            Stage::Raw => self.begin_name(c, true),
            Stage::Naming => self.go_on_name(c, reserved),
            Stage::Named => Ok(self.pass_name(c, reserved)),
            Stage::Valued => {
                if c == '"' {
                    self.value.clear();
                    self.stage = Stage::Quoted;
                    return Ok(true);
                }
                Ok(c == ' ')
            }
            Stage::Quoted => self.go_on_value(c),
            Stage::Whole => Ok(c == ' '),
        }
    }

    /// Takes the fact if it may end here.
    pub fn take(&mut self, alloc: Global, reserved: bool) -> Option<Fact>
        ensures taken { result ≡ fact_end reserved (fact_state self.old) }
        ensures left { IfNone result (fact_state self.new ≡ fact_state self.old) }
    {
        let has_value = match self.stage {
            Stage::Naming | Stage::Named => {
                if self.is_taken(reserved) {
                    return None;
                }
                false
            }
            Stage::Whole => true,
            _ => return None,
        };
        let name = mem::replace(&mut self.name, String::new(alloc));
        let value = if has_value {
            Some(mem::replace(&mut self.value, String::new(alloc)))
        } else {
            None
        };
        Some(Fact { name, value })
    }
}
