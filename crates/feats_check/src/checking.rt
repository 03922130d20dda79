//! The answers to `check`: the rules of a policy that a build breaks, or that some choice breaks, each with what breaks it and why that is on.

mod answers;
mod broken;
mod lines;
mod objects;
mod parted;
mod planned;
mod question;
mod rules;
mod warnings;

pub use answers::policy_answer;
pub use question::{PolicyQuestion, PolicyText};
pub use warnings::{PolicyWords, policy_warnings};
