//! The actions of copies (XQuery 1.0, section 3.7.1), each with its time.
ghost use Rattle.std.specs.Prelude.{◌≡◌, ◌<◌, length, OnOk, IfOk};
ghost use Rattle.gcx_model.specs.Nodes.{Grown};
ghost use Rattle.gcx_model.specs.Written.{start_tag, end_tag, escaped};
ghost use Rattle.doc_tree.specs.Rows.{node_at};
ghost use Rattle.trace_check.specs.Acting.{Adds, WritesAt, whole_copy, copies_below};
ghost use Rattle.trace_check.specs.Timing.{clock_in};

use crate::acts::Acts;
use crate::timed::Timed;
use doc_tree::Content;
use doc_write::{put_end, put_start, put_text};
use gcx_base::{Memory, Name, Text};
use std::alloc::Global;

impl<'p> Acts<'p> {
    /// A start tag is written at this time.
    fn write_start(&mut self, at: usize, name: &Name) -> Result<(), Memory>
        ensures { OnOk result (WritesAt self.old.acts.items self.new.acts.items at (length (start_tag name.now))) }
    {
        self.room.clear();
        put_start(&mut self.room, name)?;
        self.write_room(at)
    }

    /// An end tag is written at this time.
    fn write_end(&mut self, at: usize, name: &Name) -> Result<(), Memory>
        ensures { OnOk result (WritesAt self.old.acts.items self.new.acts.items at (length (end_tag name.now))) }
    {
        self.room.clear();
        put_end(&mut self.room, name)?;
        self.write_room(at)
    }

    /// A text is written at this time.
    fn write_text(&mut self, at: usize, text: &Text) -> Result<(), Memory>
        ensures { OnOk result (WritesAt self.old.acts.items self.new.acts.items at (length (escaped text.now))) }
    {
        self.room.clear();
        put_text(&mut self.room, text)?;
        self.write_room(at)
    }

    /// The copies of the node's children, from a time on. Answers the time from which on no more come.
    #[cycle(copies)]
    fn copy_below(
        &mut self,
        alloc: Global,
        timed: &Timed,
        node: usize,
        now: usize,
    ) -> Result<usize, Memory>
        requires grown { Grown timed.now.tree }
        requires there { node < length timed.now.tree.nodes }
        ensures { IfOk result (Adds self.old.acts.items self.new.acts.items
            (copies_below (clock_in timed.now) timed.now.tree (node_at timed.now.tree.nodes node) now)) }
    {
        let mut done = now;
        let children = timed.tree.children(alloc, node)?;
        for child in &children {
            done = self.copy(alloc, timed, *child, done.max(timed.opened_at(*child)))?;
        }
        Ok(done.max(timed.closed_at(node)))
    }

    /// The copy of the node, from a time on. Answers the time from which on it is done.
    #[cycle(copies)]
    pub fn copy(
        &mut self,
        alloc: Global,
        timed: &Timed,
        node: usize,
        now: usize,
    ) -> Result<usize, Memory>
        requires grown { Grown timed.now.tree }
        requires there { node < length timed.now.tree.nodes }
        ensures { IfOk result (Adds self.old.acts.items self.new.acts.items
            (whole_copy (clock_in timed.now) timed.now.tree (node_at timed.now.tree.nodes node) now)) }
    {
        match timed.tree.content(node) {
            Some(Content::Element(name)) => {
                self.write_start(now, name)?;
                let done = self.copy_below(alloc, timed, node, now)?;
                self.write_end(done, name)?;
                Ok(done)
            }
            Some(Content::Text(text)) => {
                self.write_text(now, text)?;
                Ok(now)
            }
            None => self.copy_below(alloc, timed, node, now),
        }
    }
}
