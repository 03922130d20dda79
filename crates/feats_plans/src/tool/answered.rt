//! Answers with warnings.

use feats_answers::Answer;
use feats_files::Ended;

/// An answer, and warnings.
#[derive(Drop)]
pub struct Answered {
    pub answer: Answer,
    /// Lines for standard error.
    pub warnings: Vec<String>,
}

/// How a run ended that has an answer, and warnings.
#[derive(Drop)]
pub struct Outcome {
    pub ended: Ended,
    /// Lines for standard error.
    pub warnings: Vec<String>,
}
