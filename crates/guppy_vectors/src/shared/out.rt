//! Standard output of the test programs.
use crate::shared::failure::Failure;
use feature_labels::FeatureId;
use std::cell::Cell;
use std::fmt;
use std::io::{Stdout, Write};
use std::process::ExitCode;

/// Standard output, with a flag for failed writes. It never allocates, so an allocation that fails is one of the call's.
#[derive(Drop)]
pub struct Out {
    stdout: Stdout,
    has_failed: Cell<bool>,
}

impl Out {
    /// Returns an `Out` for `stdout` without a failed write.
    pub fn new(stdout: Stdout) -> Self {
        Out {
            stdout,
            has_failed: Cell::new(false),
        }
    }

    /// Returns a second `Out` for the same standard output, without a failed write.
    pub fn another(&self) -> Self {
        Out::new(self.stdout)
    }

    /// Marks `self` as failed if a write to `other` has failed.
    pub fn join(&self, other: &Out) {
        if other.has_failed.get() {
            self.has_failed.set(true);
        }
    }

    /// Writes `text`, without the end of the line.
    pub fn part(&self, text: &str) {
        let mut stdout = self.stdout;
        if stdout.write_all(text.as_bytes()).is_err() {
            self.has_failed.set(true);
        }
    }

    /// Writes `text` and ends the line.
    pub fn line(&self, text: &str) {
        self.part(text);
        self.part("\n");
    }

    /// Writes `before` and then `text`.
    pub fn text(&self, before: &str, text: &str) {
        self.part(before);
        self.part(text);
    }

    /// Writes `text` if `answer` is true.
    pub fn part_if(&self, answer: bool, text: &str) {
        if answer {
            self.part(text);
        }
    }

    /// Writes the `Display` text of `value`.
    pub fn shown<T: fmt::Display + Drop>(&self, value: T) {
        let mut stdout = self.stdout;
        if write!(stdout, "{value}").is_err() {
            self.has_failed.set(true);
        }
    }

    /// Writes the `Debug` text of `value`.
    pub fn debug<T: fmt::Debug + Drop>(&self, value: T) {
        let mut stdout = self.stdout;
        if write!(stdout, "{value:?}").is_err() {
            self.has_failed.set(true);
        }
    }

    /// Writes the `Debug` text of `value` and ends the line.
    pub fn debug_line<T: fmt::Debug + Drop>(&self, value: T) {
        self.debug(value);
        self.line("");
    }

    /// Writes `before` and then `number`.
    pub fn number(&self, before: &str, number: usize) {
        self.part(before);
        self.shown(number);
    }

    /// Writes `before`, and then `answer` as `true` or `false`.
    pub fn answer(&self, before: &str, answer: bool) {
        self.part(before);
        self.part(if answer { "true" } else { "false" });
    }

    /// Writes `before`, then `answer` as `true` or `false`, and ends the line.
    pub fn answer_line(&self, before: &str, answer: bool) {
        self.part(before);
        self.line(if answer { "true" } else { "false" });
    }

    /// Writes `before`, and then `place` or `none`.
    pub fn place(&self, before: &str, place: Option<usize>) {
        match place {
            Some(place) => self.number(before, place),
            None => self.text(before, "none"),
        }
    }

    /// Writes a space and then `id`.
    pub fn id(&self, id: FeatureId<'_>) {
        self.part(" ");
        self.shown(id);
    }

    /// Writes `failure` as a line.
    pub fn failure(&self, failure: Failure) {
        match failure {
            Failure::Words => self.line("bad words"),
            Failure::Row(error) => {
                self.number("row ", error.row);
                self.part(": ");
                self.debug_line(error.fault);
            }
            Failure::Memory => self.line("out of memory"),
        }
    }

    /// Returns the program's exit status: `FAILURE` if a write has failed, and `SUCCESS` otherwise.
    pub fn status(&self) -> ExitCode {
        if self.has_failed.get() {
            ExitCode::FAILURE
        } else {
            ExitCode::SUCCESS
        }
    }
}
