//! Messages about the words of a command line.
ghost use Rattle.feats_words.specs.Refusals.{refusal_of};
ghost use Rattle.feats_files.specs.Messages.{IsRefused};
ghost use Rattle.feats_files.specs.WordMessages.{words_message};

use crate::fault::Fault;
use crate::message::refused;
use feats_words::WordsFault;
use std::alloc::Global;

/// Returns the refusal of words.
pub fn words_refused(alloc: Global, fault: WordsFault<'_>) -> Fault
    ensures { IsRefused (words_message (refusal_of fault.entry)) result }
{
    match fault {
        WordsFault::Platform(word) => refused(
            alloc,
            &[
                "`",
                word,
                "` isn't TRIPLE=CFGFILE: write the triple, `=` and the file, as x86_64-unknown-linux-gnu=host.cfg",
            ],
        ),
        WordsFault::Resolver(word) => refused(
            alloc,
            &[
                "`",
                word,
                "` isn't a version of the resolver: write 1, 2 or 3",
            ],
        ),
        WordsFault::TwoResolvers => refused(
            alloc,
            &["--resolver and a manifest are both given: leave one out"],
        ),
        WordsFault::Format(word) => refused(
            alloc,
            &["`", word, "` isn't a format: write text or json"],
        ),
        WordsFault::GraphFormat => refused(
            alloc,
            &["`dot` prints a graph for Graphviz: leave --format out"],
        ),
        WordsFault::SummaryFormat => refused(
            alloc,
            &["`plan --summary` prints TOML: leave --format out"],
        ),
        WordsFault::RoutesOfAll => refused(
            alloc,
            &["--routes and --all are both given: leave one out"],
        ),
        WordsFault::ListOfNothing => refused(
            alloc,
            &["`list` needs a package: write NAME, NAME@VERSION or an id, or --unused"],
        ),
        WordsFault::UnusedOfOne => refused(
            alloc,
            &["`list --unused` is about all members of the workspace: leave the package out"],
        ),
        WordsFault::PackagesOfEveryChoice => refused(
            alloc,
            &["`--every-choice` is about all members of the workspace: leave -p and --exclude out"],
        ),
        WordsFault::ExcludeAlone => refused(
            alloc,
            &["`--exclude` leaves members out of all members: write --workspace too"],
        ),
        WordsFault::Command(word) => refused(
            alloc,
            &[
                "`",
                word,
                "` isn't a command whose build is planned: write build or test",
            ],
        ),
        WordsFault::Depth(word) => refused(
            alloc,
            &["`", word, "` isn't a depth: write a decimal number"],
        ),
        WordsFault::Edges(word) => refused(
            alloc,
            &[
                "`",
                word,
                "` isn't a kind of edges: write packages or features",
            ],
        ),
        WordsFault::Memory => Fault::Memory,
    }
}
