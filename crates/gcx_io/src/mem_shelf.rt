ghost use Rattle.std.specs.Prelude.{◌≡◌, ◌<◌, ◌≤◌, ◌-◌, ◌↔◌, IsTrue, OnOk, OnErr, [], option_copied, vec_len, vec_capacity};
ghost use Rattle.gcx_io.specs.Tallies.{IsToFail, CountsIf, passed};
ghost use Rattle.gcx_io.specs.Held.{held};
ghost use Rattle.gcx_io.specs.MemShelf.{new_shelf, with_put, after_missing};

use crate::calls::Calls;
use crate::files::Files;
use crate::{AttachFault, Failed, Handle, Shelf};
use gcx_base::{Memory, Text};
use std::alloc::Global;
use std::marker::Model;

/// A shelf that moves small pieces, with calls that fail.
#[derive(Drop)]
pub struct MemShelf {
    files: Files,
    room: usize,
    most: usize,
    calls: Calls,
    write_faults: u64,
}

impl Model for MemShelf {
    ghost use Rattle.std.specs.Prelude.{◌<◌};
    ghost use Rattle.gcx_io.specs.MemShelf.{ShelfState};

    ghost Value = { ShelfState };

    ghost view = { λ s. record
        { kept = s.files; room = s.room; most = s.most; calls = s.calls; write_faults = s.write_faults } };

    ghost invariant = { λ s. 0 < s.most };
}

impl MemShelf {
    /// No name is mapped. `room` is the room for the bytes of a file that is made. One call moves at most `most`
    /// bytes, and the calls whose numbers, from 1 over all calls of the trait, are in `fails` fail.
    pub fn new(alloc: Global, room: usize, most: usize, fails: Vec<u64>) -> MemShelf
        requires { 0 < most }
        ensures { result ≡ new_shelf room most fails.items }
    {
        MemShelf {
            files: Files::new(alloc),
            room,
            most,
            calls: Calls::new(fails),
            write_faults: 0,
        }
    }

    /// Maps the name to these bytes, whatever it held. After `Memory` the shelf is as before.
    pub fn put(&mut self, name: Text, bytes: Vec<u8>) -> Result<(), Memory>
        requires { self.old.kept.openings ≡ [] }
        ensures ok { OnOk result
            (self.new ≡ with_put name bytes.items (vec_capacity bytes - vec_len bytes) self.old) }
        ensures err { OnErr result (self.new ≡ self.old) }
    {
        self.files.put(name, bytes)
    }

    /// Whether all the bytes that were taken are kept: false from the first piece on for which no memory was found.
    pub fn is_whole(&self) -> bool
        ensures { result ≡ self.now.kept.whole }
    {
        self.files.is_whole()
    }

    /// What the name holds, None where it isn't mapped.
    pub fn bytes(&self, name: &Text) -> Option<&[u8]>
        requires { IsTrue self.now.kept.whole }
        ensures { option_copied result ≡ held self.now.kept.files name.now }
    {
        self.files.bytes(name)
    }

    /// Counts an `attach` of a name that isn't there: no fault where the shelf tells its names.
    fn count_missing(&mut self)
        ensures calls { self.new ≡ record self.old { calls = after_missing self.old.kept.whole self.old.calls } }
        ensures later { self.old.calls.faults ≤ self.new.calls.faults }
    {
        if self.files.is_whole() {
            self.calls.pass();
        } else {
            self.calls.fail();
        }
    }

    /// Counts a `create` or `write`, and says whether it fails.
    fn is_failing_write(&mut self) -> bool
        ensures which { IsTrue result ↔ IsToFail self.old.calls }
        ensures calls { self.new
            ≡ record self.old { calls = passed self.old.calls; write_faults = self.new.write_faults } }
        ensures faults { CountsIf result self.old.write_faults self.new.write_faults }
        ensures later { self.old.write_faults ≤ self.new.write_faults }
    {
        let fails = self.calls.is_due();
        if fails {
            self.write_faults = self.write_faults.saturating_add(1);
        }
        fails
    }
}

impl Shelf for MemShelf {
    ghost use Rattle.std.specs.Prelude.{◌≡◌, ◌<◌, ◌≤◌, ◌↔◌, [], refl, IfOk, OnOk, OnErr, IsErr, IsErrOf, length};
    ghost use Rattle.std.specs.Io.{ReadsAtMost};
    ghost use Rattle.gcx_io.specs.Bytes.{Moves};
    ghost use Rattle.gcx_io.specs.Tallies.{IsToFail};
    ghost use Rattle.gcx_io.specs.Shelf.{IsMissing, Adds, LeavesOthers, Maps};
    ghost use Rattle.gcx_io.specs.Calls.{Attaches, Creates, ReadsOnce, WritesHandle};
    ghost use Rattle.gcx_io.specs.Held.{held};
    ghost use Rattle.gcx_io.specs.Files.{views};
    ghost use Rattle.gcx_io.specs.MemShelf.{NamesHandle, NamesExtend, OtherHandlesStay, FailsAt, AttachLeaves, ReadLeaves, CreateLeaves, WriteLeaves};
    ghost use Rattle.gcx_io.specs.MemShelf.{shelf_names, shelf_left, shelf_named, shelf_handles, shelf_faults, shelf_seen};
    ghost use Rattle.gcx_io.specs.Files.{owner_told, rests_told, views_count, views_left, views_name};

    ghost names = { shelf_names };

    ghost left = { shelf_left };

    ghost named = { shelf_named };

    ghost handles = { shelf_handles };

    ghost faults = { shelf_faults };

    ghost write_faults = { λ s. s.write_faults };

    ghost given = { λ s. views s.kept.whole s.kept.openings };

    ghost refused = { λ s. s.kept.refused };

    ghost seen = { shelf_seen };

    ghost tells_owners = { λ s k given telling. owner_told s.kept.openings k given };

    ghost tells_rests = { λ s k given telling.
        rests_told s.kept.whole (held s.kept.files) s.kept.openings k given telling };

    ghost sees = { λ _. refl };

    ghost counts = { λ s. views_count s.kept.whole s.kept.openings };

    ghost lefts = { λ s k v there. views_left s.kept.whole s.kept.openings k v there };

    ghost owners = { λ s k v there telling. views_name s.kept.whole s.kept.openings k v there };

    fn attach(&mut self, name: &Text) -> Result<Handle, AttachFault>
        ensures given { IfOk result (λ handle. Adds (shelf_handles self.old) (shelf_handles self.new) handle.0) }
        ensures named { IfOk result (λ handle. NamesHandle self.old self.new name.now handle.0) }
        ensures missing { IsMissing (shelf_names self.old) name.now → IsErrOf result AttachFault.Failed }
        ensures calm { IsMissing (shelf_names self.old) name.now → shelf_faults self.new ≡ shelf_faults self.old }
        ensures later { shelf_faults self.old ≤ shelf_faults self.new }
        ensures writes { self.new.write_faults ≡ self.old.write_faults }
        ensures failed { IsErrOf result AttachFault.Failed ↔ FailsAt name.now self.old }
        ensures leaves { AttachLeaves name.now self.old self.new result }
        ensures attaches { Attaches name.now (shelf_seen self.old) (shelf_seen self.new) result }
    {
        if self.files.bytes(name).is_none() {
            self.count_missing();
            self.files.miss(name);
            return Err(AttachFault::Failed);
        }
        if self.calls.is_failing() {
            self.files.miss(name);
            return Err(AttachFault::Failed);
        }
        Ok(self.files.attach(name)?)
    }

    fn read(&mut self, handle: Handle, buf: &mut [u8]) -> Result<usize, Failed>
        requires given { handle.0 < shelf_handles self.old }
        requires room { 0 < length buf.old }
        ensures bound { ReadsAtMost result buf.new }
        ensures others { LeavesOthers (shelf_left self.old) (shelf_left self.new) handle.0 }
        ensures named { shelf_named self.new ≡ shelf_named self.old }
        ensures handles { shelf_handles self.new ≡ shelf_handles self.old }
        ensures failed { IsErr result ↔ IsToFail self.old.calls }
        ensures leaves { ReadLeaves handle.0 self.old self.new result buf.old buf.new }
        ensures reads { ReadsOnce handle.0 (shelf_seen self.old) (shelf_seen self.new) result buf.new }
    {
        if self.calls.is_failing() {
            self.files.fail(handle, buf);
            return Err(Failed);
        }
        Ok(self.files.read(handle, buf, self.most))
    }

    fn create(&mut self, name: &Text) -> Result<Handle, AttachFault>
        ensures given { IfOk result (λ handle. Adds (shelf_handles self.old) (shelf_handles self.new) handle.0) }
        ensures named { IfOk result (λ handle. NamesHandle self.old self.new name.now handle.0) }
        ensures maps { OnOk result (Maps (shelf_names self.old) (shelf_names self.new) name.now []) }
        ensures later { self.old.write_faults ≤ self.new.write_faults }
        ensures failed { IsErrOf result AttachFault.Failed ↔ IsToFail self.old.calls }
        ensures leaves { CreateLeaves name.now self.old self.new result }
        ensures creates { Creates name.now (shelf_seen self.old) (shelf_seen self.new) result }
    {
        if self.is_failing_write() {
            self.files.miss(name);
            return Err(AttachFault::Failed);
        }
        Ok(self.files.create(name, self.room)?)
    }

    fn write(&mut self, handle: Handle, piece: &[u8]) -> Result<usize, Failed>
        requires given { handle.0 < shelf_handles self.old }
        requires some { 0 < length piece.now }
        ensures bound { Moves result piece.now }
        ensures bytes { NamesExtend handle.0 self.old self.new result piece.now }
        ensures others { OtherHandlesStay handle.0 self.old self.new }
        ensures unmoved { OnErr result (shelf_left self.new ≡ shelf_left self.old) }
        ensures handles { shelf_handles self.new ≡ shelf_handles self.old }
        ensures named { shelf_named self.new ≡ shelf_named self.old }
        ensures failed { IsErr result ↔ IsToFail self.old.calls }
        ensures leaves { WriteLeaves handle.0 self.old self.new result piece.now }
        ensures takes { WritesHandle handle.0 (shelf_seen self.old) (shelf_seen self.new) result piece.now }
    {
        if self.is_failing_write() {
            self.files.deny(handle, piece);
            return Err(Failed);
        }
        let count = piece.len().min(self.most);
        self.files.write(handle, &piece[..count]);
        Ok(count)
    }
}
