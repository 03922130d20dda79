//! Questions about policies, and their answers.

use feats_policies::Rule;
use feats_words::Format;
use plan_rows::platforms::HeldSpecs;

/// A question about a policy, and the format of its answer.
#[derive(Clone, Copy)]
pub struct PolicyQuestion<'q, 'p, 'n, 's> {
    pub format: Format,
    /// The path of the policy, as lines and messages name it.
    pub file: &'q str,
    pub rules: &'q [Rule<'p>],
    /// The triple of the host.
    pub host: &'p str,
    /// The triples of the target platforms. If the words name none, it is the triple of the host.
    pub targets: &'p [&'n str],
    /// A platform on which each platform spec of the workspace holds, if the question is about every choice.
    pub every: Option<&'n HeldSpecs<'s>>,
}

/// The answer to a question about a policy.
#[derive(Drop)]
pub struct PolicyText {
    /// The broken rules, in the order of the file. Empty if no rule is broken.
    pub text: Vec<u8>,
    /// True if a rule is broken.
    pub is_broken: bool,
}
