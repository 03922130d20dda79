//! Where rules are judged.

/// The build in which a rule is judged.
#[derive(Clone, Copy)]
pub enum Judged {
    /// The build of the command line.
    InBuild,
    /// For every choice, a rule for one platform: the build of all members with all their features and with tests, for the platforms of the
    /// command line.
    WithAll,
    /// For every choice, a rule for all platforms: what is on by some choice is on here, and what is on here is perhaps on by none.
    ForEveryChoice,
}
