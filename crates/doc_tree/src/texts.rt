//! The string value of a node, from the rows in document order.
ghost use Rattle.std.specs.Prelude.{◌≡◌, IfOk};
ghost use Rattle.gcx_model.specs.Paths.{value};
ghost use Rattle.doc_tree.specs.Rows.{node_at, nodes_of, IsNested};
ghost use Rattle.doc_tree.specs.Copies.{whole, row_texts};

use crate::row::{Content, Row, end_of};
use gcx_base::Memory;
use std::alloc::Global;

/// The texts of the rows, one behind another.
fn texts_of(alloc: Global, rows: &[Row]) -> Result<Vec<u8>, Memory>
    ensures { IfOk result (λ texts. texts.items ≡ row_texts rows.now) }
{
    let mut texts = Vec::new(alloc);
    for row in rows {
        if let Content::Text(text) = &row.content {
            texts.extend_from_slice(text.as_bytes())?;
        }
    }
    Ok(texts)
}

/// The texts in the node, of the document node where there is no such node.
pub(crate) fn value_of(alloc: Global, rows: &[Row], node: usize) -> Result<Vec<u8>, Memory>
    requires nested { IsNested rows.now }
    ensures { IfOk result (λ texts. texts.items ≡ value (whole rows.now) (node_at (nodes_of rows.now) node)) }
{
    let node = if node <= rows.len() { node } else { 0 };
    let end = end_of(rows, node);
    let start = node.saturating_sub(1);
    let texts = texts_of(alloc, &rows[start..end])?;
    Ok(texts)
}
