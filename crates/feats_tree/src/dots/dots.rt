//! The text of a graph in the language of Graphviz.
ghost use Rattle.std.specs.Prelude.{◌≡◌, ◌++◌, ◌∷◌, ◌==◌, [], IfOk, OnOk, if◌then◌else◌, map, string_bytes};
ghost use Rattle.std.specs.Fmt.{decimal};
ghost use Rattle.std.specs.List.{list_any};
ghost use Rattle.feats_tree.specs.dots.Dots as spec;
ghost use Rattle.feats_tree.specs.dots.Dots.{is_special};
ghost use Rattle.feats_tree.specs.dots.Views.{node_text};

use shown_texts::escaped;
use std::alloc::{AllocError, Global};

/// A node of a graph.
#[derive(Clone, Copy)]
pub struct DotNode<'d> {
    /// The number of the cluster in which it is drawn.
    pub cluster: usize,
    /// The text in it.
    pub title: &'d str,
}

/// Appends `part`.
fn push_str(text: &mut Vec<u8>, part: &str) -> Result<(), AllocError>
    ensures { OnOk result (text.new.items ≡ text.old.items ++ part.now) }
{
    text.extend_from_slice(part.as_bytes())
}

/// Returns the decimal text of `number`.
fn decimal_text(alloc: Global, number: usize) -> Result<String, AllocError>
    ensures { IfOk result (λ text. string_bytes text ≡ decimal number) }
{
    format!(in alloc; "{number}")
}

/// Appends the decimal text of `number`.
fn push_number(alloc: Global, text: &mut Vec<u8>, number: usize) -> Result<(), AllocError>
    ensures { OnOk result (text.new.items ≡ text.old.items ++ decimal number) }
{
    let digits = decimal_text(alloc, number)?;
    push_str(text, digits.as_str())
}

/// Appends `byte`, after a backslash if it is a quote or a backslash.
fn push_byte(text: &mut Vec<u8>, byte: u8) -> Result<(), AllocError>
    ensures { OnOk result (text.new.items ≡ text.old.items ++ (if is_special byte then 92 ∷ byte ∷ [] else byte ∷ [])) }
{
    if byte == b'"' || byte == b'\\' {
        text.push(b'\\')?;
    }
    text.push(byte)?;
    Ok(())
}

/// Appends `part` with a backslash before each quote and each backslash.
fn push_escaped(text: &mut Vec<u8>, part: &[u8]) -> Result<(), AllocError>
    ensures { OnOk result (text.new.items ≡ text.old.items ++ spec.escaped part.now) }
{
    for byte in part {
        push_byte(text, *byte)?;
    }
    Ok(())
}

/// Appends `part` between quotes, with its control characters escaped.
fn push_quoted(alloc: Global, text: &mut Vec<u8>, part: &str) -> Result<(), AllocError>
    ensures { OnOk result (text.new.items ≡ text.old.items ++ spec.quoted part.now) }
{
    let shown = escaped(alloc, part)?;
    push_str(text, "\"")?;
    push_escaped(text, shown.as_bytes())?;
    push_str(text, "\"")
}

/// Appends the line of node `number`.
fn push_node(
    alloc: Global,
    text: &mut Vec<u8>,
    number: usize,
    title: &str,
) -> Result<(), AllocError>
    ensures { OnOk result (text.new.items ≡ text.old.items ++ spec.node_line number title.now) }
{
    push_str(text, "    n")?;
    push_number(alloc, text, number)?;
    push_str(text, " [label = ")?;
    push_quoted(alloc, text, title)?;
    push_str(text, "];\n")
}

/// Appends the line of node `number`, if it is in `cluster`.
fn push_node_of(
    alloc: Global,
    text: &mut Vec<u8>,
    cluster: usize,
    number: usize,
    node: DotNode<'_>,
) -> Result<(), AllocError>
    ensures { OnOk result (text.new.items ≡ text.old.items ++ (if node.entry.cluster == cluster then spec.node_line number node.entry.title.now else [])) }
{
    if node.cluster == cluster {
        push_node(alloc, text, number, node.title)?;
    }
    Ok(())
}

/// Appends the lines of the nodes in `cluster`.
fn push_nodes(
    alloc: Global,
    text: &mut Vec<u8>,
    cluster: usize,
    nodes: &[DotNode<'_>],
) -> Result<(), AllocError>
    ensures { OnOk result (text.new.items ≡ text.old.items ++ spec.nodes_in cluster 0 (map node_text nodes.now)) }
{
    for (number, node) in nodes.iter().enumerate() {
        push_node_of(alloc, text, cluster, number, *node)?;
    }
    Ok(())
}

/// Returns whether a node is in `cluster`.
fn is_used(cluster: usize, nodes: &[DotNode<'_>]) -> bool
    ensures { result ≡ list_any (λ node. node.cluster == cluster) (map node_text nodes.now) }
{
    for node in nodes {
        if node.cluster == cluster {
            return true;
        }
    }
    false
}

/// Appends `cluster` with its label and its nodes.
fn push_block(
    alloc: Global,
    text: &mut Vec<u8>,
    cluster: usize,
    label: &str,
    nodes: &[DotNode<'_>],
) -> Result<(), AllocError>
    ensures { OnOk result (text.new.items ≡ text.old.items ++ spec.block_text (map node_text nodes.now) cluster label.now) }
{
    push_str(text, "  subgraph cluster_")?;
    push_number(alloc, text, cluster)?;
    push_str(text, " {\n    label = ")?;
    push_quoted(alloc, text, label)?;
    push_str(text, ";\n")?;
    push_nodes(alloc, text, cluster, nodes)?;
    push_str(text, "  }\n")
}

/// Appends `cluster` with its label and its nodes, if it has nodes.
fn push_cluster(
    alloc: Global,
    text: &mut Vec<u8>,
    cluster: usize,
    label: &str,
    nodes: &[DotNode<'_>],
) -> Result<(), AllocError>
    ensures { OnOk result (text.new.items ≡ text.old.items ++ spec.cluster_text (map node_text nodes.now) cluster label.now) }
{
    if is_used(cluster, nodes) {
        push_block(alloc, text, cluster, label, nodes)?;
    }
    Ok(())
}

/// Appends the clusters that have nodes.
fn push_clusters(
    alloc: Global,
    text: &mut Vec<u8>,
    clusters: &[&str],
    nodes: &[DotNode<'_>],
) -> Result<(), AllocError>
    ensures { OnOk result (text.new.items ≡ text.old.items ++ spec.joined_from (spec.cluster_text (map node_text nodes.now)) 0 (map (λ t. t.now) clusters.now)) }
{
    for (cluster, label) in clusters.iter().enumerate() {
        push_cluster(alloc, text, cluster, label, nodes)?;
    }
    Ok(())
}

/// Appends the line of `link`.
fn push_link(alloc: Global, text: &mut Vec<u8>, link: (usize, usize)) -> Result<(), AllocError>
    ensures { OnOk result (text.new.items ≡ text.old.items ++ spec.link_line link) }
{
    push_str(text, "  n")?;
    push_number(alloc, text, link.0)?;
    push_str(text, " -> n")?;
    push_number(alloc, text, link.1)?;
    push_str(text, ";\n")
}

/// Appends the lines of `links`.
fn push_links(alloc: Global, text: &mut Vec<u8>, links: &[(usize, usize)]) -> Result<(), AllocError>
    ensures { OnOk result (text.new.items ≡ text.old.items ++ spec.links_text links.now) }
{
    for link in links {
        push_link(alloc, text, *link)?;
    }
    Ok(())
}

/// Returns the graph of `nodes` and `links` in the language of Graphviz. `clusters` has the label of each cluster, of which those
/// without nodes are left out; a node whose cluster has no label is drawn only where a link names it. A link is the numbers of the node
/// that it leaves and of the one to which it leads. An allocation's failure is the only error.
pub fn dot_text(
    alloc: Global,
    clusters: &[&str],
    nodes: &[DotNode<'_>],
    links: &[(usize, usize)],
) -> Result<Vec<u8>, AllocError>
    ensures { IfOk result (λ text. text.items ≡ spec.dot_text (map (λ t. t.now) clusters.now) (map node_text nodes.now) links.now) }
{
    let mut text = Vec::new(alloc);
    push_str(&mut text, "digraph feats {\n")?;
    push_clusters(alloc, &mut text, clusters, nodes)?;
    push_links(alloc, &mut text, links)?;
    push_str(&mut text, "}\n")?;
    Ok(text)
}
