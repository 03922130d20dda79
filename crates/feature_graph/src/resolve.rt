//! Resolves queries to sets: over all edges, with a visitor, or with a visitor and the reasons.

mod explained;
mod plain;
mod with;
