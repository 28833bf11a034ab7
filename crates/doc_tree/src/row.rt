ghost use Rattle.std.specs.Prelude.{◌≡◌, unwrap_or, option_map};
ghost use Rattle.doc_tree.specs.Rows.{parent_at, kind_told, kind_at, end_kept, end_at};

use gcx_base::{Name, Text};

/// What a node below the document node is.
#[derive(Drop, Debug)]
pub enum Content {
    /// An element's name.
    Element(Name),
    /// A text's bytes.
    Text(Text),
}

/// A node below the document node. The nodes are numbered in document order, the document node is 0.
#[derive(Drop, Debug)]
pub(crate) struct Row {
    /// The number of its parent.
    pub parent: usize,
    /// The index of the first row behind those below it, once it is closed.
    pub end: Option<usize>,
    pub content: Content,
}

/// The end that is kept for a node.
fn end_kept(rows: &[Row], node: usize) -> Option<usize>
    ensures { result ≡ end_kept rows.now node }
{
    rows.get(node.checked_sub(1)?)?.end
}

/// The index of the first row behind those below a node.
pub(crate) fn end_of(rows: &[Row], node: usize) -> usize
    ensures { result ≡ end_at rows.now node }
{
    end_kept(rows, node).unwrap_or(rows.len())
}

/// The number of the parent that is kept for a node; the document node has no row.
fn parent_kept(rows: &[Row], node: usize) -> Option<usize>
    ensures { unwrap_or result 0 ≡ parent_at rows.now node }
{
    let row = rows.get(node.checked_sub(1)?)?;
    Some(row.parent)
}

/// The number of a node's parent, 0 where there is none.
pub(crate) fn parent_number(rows: &[Row], node: usize) -> usize
    ensures { result ≡ parent_at rows.now node }
{
    parent_kept(rows, node).unwrap_or(0)
}

/// What is kept of a node's kind; the document node has no row.
pub(crate) fn content_of(rows: &[Row], node: usize) -> Option<&Content>
    ensures { kind_told (option_map (λ c. c.now) result) ≡ kind_at rows.now node }
{
    let row = rows.get(node.checked_sub(1)?)?;
    Some(&row.content)
}
