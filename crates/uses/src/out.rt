//! Standard output.
use crate::failure::Failure;
use guppy_features::{Error, FeatureId, FeatureQuery, FeatureSet};
use std::cell::Cell;
use std::fmt;
use std::io::{Stdout, Write};

/// Standard output, with a mark if a write to it has failed.
#[derive(Drop)]
pub struct Out {
    stdout: Stdout,
    has_failed: Cell<bool>,
}

impl Out {
    /// Returns standard output, with no failed write.
    pub fn new(stdout: Stdout) -> Self {
        Out {
            stdout,
            has_failed: Cell::new(false),
        }
    }

    /// Returns true if a write has failed.
    pub fn has_failed(&self) -> bool {
        self.has_failed.get()
    }

    /// Writes a part of a line.
    pub fn part<T: fmt::Display + Drop>(&self, text: T) {
        let mut stdout = self.stdout;
        if write!(stdout, "{text}").is_err() {
            self.has_failed.set(true);
        }
    }

    /// Writes a line, or the rest of one.
    pub fn line<T: fmt::Display + Drop>(&self, text: T) {
        self.part(text);
        self.part("\n");
    }

    /// Writes a blank and an id.
    pub fn id(&self, id: FeatureId<'_>) {
        self.part(" ");
        self.part(id);
    }

    /// Writes a line: a text, a colon, and the features of a set in the order of the rows.
    pub fn members(&self, text: &str, set: &FeatureSet<'_>) {
        self.part(text);
        self.part(":");
        for id in set.ids_by_node() {
            self.id(id);
        }
        self.line("");
    }

    /// Writes the line of `members`, or returns the error of `set`.
    pub fn set(&self, text: &str, set: Result<FeatureSet<'_>, Error<'_>>) -> Result<(), Failure> {
        match set {
            Ok(set) => {
                self.members(text, &set);
                drop(set);
                Ok(())
            }
            Err(error) => Err(Failure::from(error)),
        }
    }

    /// Writes the line of `members` for the initial features of `query`, or returns the error of `query`.
    pub fn initials(
        &self,
        text: &str,
        query: Result<FeatureQuery<'_>, Error<'_>>,
    ) -> Result<(), Failure> {
        match query {
            Ok(query) => {
                self.members(text, query.initials());
                drop(query);
                Ok(())
            }
            Err(error) => Err(Failure::from(error)),
        }
    }
}
