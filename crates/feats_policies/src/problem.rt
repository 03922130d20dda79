//! What is wrong with a malformed line.
ghost use Rattle.std.specs.Prelude.{◌≡◌};
ghost use Rattle.feats_policies.specs.Problems as spec;

/// What is wrong with a line.
#[derive(Clone, Copy)]
pub enum Problem {
    /// The first word is neither `deny` nor `require` nor `deny-duplicates`.
    NoRule,
    /// No word follows the first one.
    NoWord,
    /// No triple follows `on`.
    NoTriple,
    /// A word follows that the rule doesn't take.
    ExtraWord,
}

impl Problem {
    /// Returns what is wrong, as the end of a sentence that begins with the line.
    pub fn text(self) -> &'static str
        ensures { result.now ≡ spec.problem_text self }
    {
        match self {
            Problem::NoRule => "a rule begins with `deny`, `require` or `deny-duplicates`",
            Problem::NoWord => "the name of a feature or of a package is missing",
            Problem::NoTriple => "the name of a platform is missing after `on`",
            Problem::ExtraWord =>
                "there are more words than the rule takes: a reason begins with `#`",
        }
    }
}
