//! What is written for a node: the copy of an element or a text, from the rows in document order.
ghost use Rattle.std.specs.Prelude.{◌≡◌, ◌≤◌, ◌<◌, ◌+◌, ◌++◌, IfOk, OnOk, length, true, false, suc};
ghost use Rattle.gcx_model.specs.Tree.{kind_of};
ghost use Rattle.gcx_model.specs.Answer.{copy_of};
ghost use Rattle.gcx_base.specs.Kinds.{is_text};
ghost use Rattle.doc_tree.specs.Rows.{node_at, nodes_of, IsNested, IsBehind};
ghost use Rattle.doc_tree.specs.Copies.{whole, bytes_below};

use crate::row::{Content, Row};
use doc_write::{put_end, put_start, put_text};
use gcx_base::Memory;

/// Appends the copies of the node's children. Answers the index of the first row behind them.
#[cycle(copies)]
fn put_below(out: &mut Vec<u8>, rows: &[Row], node: usize) -> Result<usize, Memory>
    requires nested { IsNested rows.now }
    requires there { node ≤ length rows.now }
    requires holder { is_text (kind_of (node_at (nodes_of rows.now) node)) ≡ false }
    ensures written { OnOk result (out.new.items ≡ out.old.items ++ bytes_below rows.now node) }
    ensures behind { IfOk result (λ next. IsBehind rows.now node next) }
{
    let mut next = node;
    while next < rows.len() && rows[next].parent == node {
        next = put_row(out, rows, next)?;
    }
    Ok(next)
}

/// Appends the copy of the node of a row. Answers the index of the first row behind what is below it.
#[cycle(copies)]
fn put_row(out: &mut Vec<u8>, rows: &[Row], index: usize) -> Result<usize, Memory>
    requires nested { IsNested rows.now }
    requires there { index < length rows.now }
    ensures written { OnOk result (out.new.items
        ≡ out.old.items ++ copy_of (whole rows.now) (node_at (nodes_of rows.now) (suc index))) }
    ensures behind { IfOk result (λ next. IsBehind rows.now (suc index) next) }
{
    match &rows[index].content {
        Content::Element(name) => {
            put_start(out, name)?;
            let next = put_below(out, rows, index + 1)?;
            put_end(out, name)?;
            Ok(next)
        }
        Content::Text(text) => {
            put_text(out, text)?;
            Ok(index + 1)
        }
    }
}

/// Appends the copy of the node, of the document node where there is no such node.
pub(crate) fn put_copy(out: &mut Vec<u8>, rows: &[Row], node: usize) -> Result<(), Memory>
    requires nested { IsNested rows.now }
    ensures { OnOk result (out.new.items ≡ out.old.items ++ copy_of (whole rows.now) (node_at (nodes_of rows.now) node)) }
{
    if 0 < node && node <= rows.len() {
        put_row(out, rows, node - 1)?;
    } else {
        put_below(out, rows, 0)?;
    }
    Ok(())
}
