//! What is shown of nodes.
ghost use Rattle.std.specs.Prelude.{◌≡◌, map};
ghost use Rattle.feats_tree.specs.trees.Titles.{title_at, title_text};

/// Where a node is.
#[derive(Clone, Copy)]
pub enum At<'t> {
    /// The node is a package in the place with this name.
    Place(&'t str),
    /// The node is a part of a package on a side: a feature or an optional dependency. Without both, it is the package itself.
    Part {
        feature: Option<&'t str>,
        dependency: Option<&'t str>,
        side: &'t str,
    },
}

/// What an object shows of a node.
#[derive(Clone, Copy)]
pub struct Detail<'t> {
    /// The id of the node's package.
    pub id: &'t str,
    /// The name of that package.
    pub name: &'t str,
    /// The version of that package.
    pub version: &'t str,
    /// Where the node is.
    pub at: At<'t>,
}

/// The title of a node, and the members of its object.
#[derive(Clone, Copy)]
pub struct Title<'t> {
    /// The title in texts.
    pub title: &'t str,
    /// What objects show.
    pub detail: Detail<'t>,
}

/// Returns the title of node `number`; an empty text, if `titles` has none.
pub fn title_of<'t>(titles: &[Title<'t>], number: usize) -> &'t str
    ensures { result.now ≡ title_at (map title_text titles.now) number }
{
    match titles.get(number) {
        Some(title) => title.title,
        None => "",
    }
}
