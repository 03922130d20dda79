//! Rules. All texts are borrowed from the policy.

/// What a rule demands.
#[derive(Clone, Copy)]
pub enum RuleKind<'p> {
    /// Nothing that the word `feature` names is on; with `on`, nothing that is built for that platform.
    Deny {
        feature: &'p str,
        on: Option<&'p str>,
    },
    /// Something that the word `feature` names is on.
    Require {
        feature: &'p str,
    },
    /// At most one of the packages that `spec` names is built.
    DenyDuplicates {
        spec: &'p str,
    },
}

/// A rule of a policy.
#[derive(Clone, Copy)]
pub struct Rule<'p> {
    /// The number of its line, from 1.
    pub line: usize,
    pub kind: RuleKind<'p>,
    /// What follows the mark `#`, without white space around it; None if nothing does.
    pub reason: Option<&'p str>,
}
