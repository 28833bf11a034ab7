//! The actions of a run, each with the time from which on it is possible.
ghost use Rattle.std.specs.Prelude.{◌≡◌, [], length, OnOk};
ghost use Rattle.gcx_model.specs.ItemView.{off_tree};
ghost use Rattle.gcx_model.specs.Run.{Offed};
ghost use Rattle.time_laws.specs.Times.{one_act};
ghost use Rattle.trace_check.specs.Acting.{Adds, WritesAt};

use gcx_base::Memory;
use gcx_model::Off;
use std::alloc::Global;

/// What was done.
#[derive(Clone, Copy)]
pub(crate) enum Act<'p> {
    /// So many bytes were written.
    Wrote(usize),
    /// The statement was carried out at this node.
    SignedOff(usize, &'p Off),
}

/// An action, and the time from which on it is possible.
#[derive(Clone, Copy)]
pub(crate) struct TimedAct<'p> {
    pub at: usize,
    pub act: Act<'p>,
}

/// The actions so far.
#[derive(Drop)]
pub(crate) struct Acts<'p> {
    pub acts: Vec<TimedAct<'p>>,
    /// What was written last.
    pub room: Vec<u8>,
}

impl<'p> Acts<'p> {
    /// No action.
    pub fn new(alloc: Global) -> Acts<'p>
        ensures { result.acts.items ≡ [] }
    {
        Acts {
            acts: Vec::new(alloc),
            room: Vec::new(alloc),
        }
    }

    /// So many bytes are written at this time.
    pub fn write(&mut self, at: usize, bytes: usize) -> Result<(), Memory>
        ensures { OnOk result (WritesAt self.old.acts.items self.new.acts.items at bytes) }
    {
        self.acts.push(TimedAct {
            at,
            act: Act::Wrote(bytes),
        })?;
        Ok(())
    }

    /// The bytes in the room are written at this time.
    pub fn write_room(&mut self, at: usize) -> Result<(), Memory>
        ensures { OnOk result (WritesAt self.old.acts.items self.new.acts.items at (length self.old.room.items)) }
    {
        let bytes = self.room.len();
        self.write(at, bytes)
    }

    /// A statement is carried out at this time.
    pub fn sign_off(&mut self, at: usize, node: usize, off: &'p Off) -> Result<(), Memory>
        ensures { OnOk result (Adds self.old.acts.items self.new.acts.items
            (one_act at (Offed (off_tree off.now) node)) at) }
    {
        self.acts.push(TimedAct {
            at,
            act: Act::SignedOff(node, off),
        })?;
        Ok(())
    }
}
