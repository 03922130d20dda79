//! Questions about a build.

use feats_files::PlatformFile;
use feats_policies::Rule;
use feats_words::CommandArguments;

/// A question about a build: the arguments, the rules of a policy, the files of platforms, the document and the manifests of members.
#[derive(Clone, Copy)]
pub struct Asked<'a, 'w, 'p, 'n> {
    pub arguments: &'a CommandArguments<'w>,
    /// The rules of the policy of `check`. Empty without a policy.
    pub rules: &'a [Rule<'p>],
    /// The files of the target platforms. Empty if the arguments name none.
    pub targets: &'a [PlatformFile<'n>],
    /// The bytes of the document.
    pub document: &'a [u8],
    /// The manifests of `slim`, each ended by a NUL byte. Empty without such a file.
    pub member_manifests: &'a [u8],
}
