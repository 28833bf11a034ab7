//! The numbered tree of a document's tokens.
ghost use Rattle.std.specs.Prelude.{◌≡◌, ◌≤◌, ◌<◌, ◌↔◌, ◌++◌, ◌∷◌, [], Bool, true, length, map, filter, option_map, OnOk, OnErr, IfOk, IfSome};
ghost use Rattle.gcx_base.specs.declared.kind.Kind.{Kind};
ghost use Rattle.gcx_model.specs.Members.{In};
ghost use Rattle.gcx_model.specs.Tree.{Node, Root, Under, serial_of, kind_of, within, opening, grow};
ghost use Rattle.gcx_model.specs.Paths.{matches, value};
ghost use Rattle.gcx_model.specs.Answer.{children, copy_of};
ghost use Rattle.doc_reader.specs.Standing.{said_of};
ghost use Rattle.doc_tree.specs.Rows.{node_at, kind_told, parent_of, with_end};
ghost use Rattle.doc_tree.specs.Sets.{stepped};

use crate::copies::put_copy;
use crate::row::{Content, Row, content_of, end_of, parent_number};
use crate::sets::{hit, step_from, step_to};
use crate::texts::value_of;
use doc_reader::Token;
use gcx_base::{Axis, Memory, Step, Test};
use std::alloc::Global;
use std::marker::Model;

/// The tree of a document of which tokens come one by one, seen as the open tree of the tokens so far.
#[derive(Drop)]
pub struct Tree {
    /// The nodes 1, 2, .. in document order.
    rows: Vec<Row>,
    /// The innermost open node, if any is open.
    at: Option<usize>,
}

impl Model for Tree {
    ghost use Rattle.gcx_model.specs.Tree.{Tree as OpenTree};
    ghost use Rattle.doc_tree.specs.Coded.{tree_code};

    ghost Value = { OpenTree };

    ghost coded = { tree_code };

    ghost use Rattle.doc_tree.specs.Rows.{tree_of_rows, IsTree};

    ghost view = { λ t. tree_of_rows t.rows.items t.at };

    ghost invariant = { λ t. IsTree t.rows.items t.at };
}

impl Tree {
    /// The open document node alone.
    pub fn new(alloc: Global) -> Result<Tree, Memory>
        ensures { IfOk result (λ tree. tree ≡ opening) }
    {
        Ok(Tree {
            rows: Vec::new(alloc),
            at: Some(0),
        })
    }

    /// The tree with one token more. Behind the end of the document there is none. After `Memory` the
    /// tree is unchanged.
    pub fn take(&mut self, token: Token) -> Result<(), Memory>
        ensures ok { OnOk result (self.new ≡ grow (said_of token) self.old) }
        ensures err { OnErr result (self.new ≡ self.old) }
    {
        let Some(parent) = self.at else {
            return Ok(());
        };
        match token {
            Token::Start(name) => {
                let content = Content::Element(name);
                self.rows.push(Row {
                    parent,
                    end: None,
                    content,
                })?;
                self.at = Some(self.rows.len());
            }
            Token::Text(text) => {
                let end = Some(self.rows.len() + 1);
                let content = Content::Text(text);
                self.rows.push(Row {
                    parent,
                    end,
                    content,
                })?;
            }
            Token::End | Token::EndOfDocument => self.at = close(&mut self.rows, parent),
        }
        Ok(())
    }

    /// How many nodes there are.
    pub fn count(&self) -> usize
        ensures { result ≡ length self.now.nodes }
    {
        self.rows.len() + 1
    }

    /// The number of the innermost open node, if any is open.
    pub fn at(&self) -> Option<usize>
        ensures node { self.now.at ≡ option_map (node_at self.now.nodes) result }
        ensures there { IfSome result (λ node. node < length self.now.nodes) }
    {
        self.at
    }

    /// What the node is; nothing of the document node, and where there is no such node.
    pub fn content(&self, node: usize) -> Option<&Content>
        ensures { kind_told (option_map (λ c. c.now) result) ≡ kind_of (node_at self.now.nodes node) }
    {
        content_of(&self.rows, node)
    }

    /// The number of the node's parent, 0 where there is none.
    pub fn parent(&self, node: usize) -> usize
        ensures { (p : Node) (k : Kind) → In (Under p node k) self.now.nodes → result ≡ serial_of p }
    {
        parent_number(&self.rows, node)
    }

    /// The number of the first node behind the node's subtree.
    pub fn end(&self, node: usize) -> usize
        ensures { (m : Node) → In m self.now.nodes
            → (within node m ≡ true) ↔ ((node ≤ serial_of m) × (serial_of m < result)) }
    {
        end_of(&self.rows, node) + 1
    }

    /// The node's children, in document order.
    pub fn children(&self, alloc: Global, node: usize) -> Result<Vec<usize>, Memory>
        ensures { IfOk result (λ found.
            found.items ≡ map serial_of (children self.now (node_at self.now.nodes node))) }
    {
        let child = Step {
            axis: Axis::Child,
            test: Test::AnyNode,
        };
        self.reached(alloc, node, &child)
    }

    /// What a step reaches from the node, in document order.
    pub fn reached(&self, alloc: Global, node: usize, step: &Step) -> Result<Vec<usize>, Memory>
        ensures { IfOk result (λ found. found.items
            ≡ map serial_of (matches self.now (serial_of (node_at self.now.nodes node)) (step.now ∷ []))) }
    {
        let found = step_to(alloc, &self.rows, node, step)?;
        Ok(found)
    }

    /// What a step reaches from the nodes of a set. A set is the numbers of its nodes in document order.
    pub fn reached_from(
        &self,
        alloc: Global,
        step: &Step,
        set: &[usize],
    ) -> Result<Vec<usize>, Memory>
        ensures { IfOk result (λ found. (f : Node → Bool) → set.now ≡ map serial_of (filter f self.now.nodes)
            → found.items ≡ map serial_of (filter (stepped step.now f) self.now.nodes)) }
    {
        let found = step_from(alloc, &self.rows, step, set)?;
        Ok(found)
    }

    /// What a path of these steps hits from the node, in document order.
    pub fn matches(&self, alloc: Global, node: usize, steps: &[Step]) -> Result<Vec<usize>, Memory>
        ensures root { OnOk result (node_at self.now.nodes 0 ≡ Root) }
        ensures found { IfOk result (λ found. map (node_at self.now.nodes) found.items
            ≡ matches self.now (serial_of (node_at self.now.nodes node)) steps.now) }
        ensures numbers { IfOk result (λ found. found.items
            ≡ map serial_of (matches self.now (serial_of (node_at self.now.nodes node)) steps.now)) }
    {
        let found = hit(alloc, &self.rows, node, steps)?;
        Ok(found)
    }

    /// The string value of the node.
    pub fn value(&self, alloc: Global, node: usize) -> Result<Vec<u8>, Memory>
        ensures { IfOk result (λ texts. texts.items ≡ value self.now (node_at self.now.nodes node)) }
    {
        let texts = value_of(alloc, &self.rows, node)?;
        Ok(texts)
    }

    /// Appends the copy of the node.
    pub fn put_copy(&self, out: &mut Vec<u8>, node: usize) -> Result<(), Memory>
        ensures { OnOk result (out.new.items ≡ out.old.items ++ copy_of self.now (node_at self.now.nodes node)) }
    {
        put_copy(out, &self.rows, node)?;
        Ok(())
    }
}

/// Keeps the end of an open node. Answers its parent, if it isn't the document node.
fn close(rows: &mut [Row], node: usize) -> Option<usize>
    requires { node ≤ length rows.old }
    ensures parent { result ≡ parent_of rows.old node }
    ensures rows { rows.new ≡ with_end rows.old node }
{
    let index = node.checked_sub(1)?;
    rows[index].end = Some(rows.len());
    Some(rows[index].parent)
}
