ghost use Rattle.std.specs.Prelude.{◌≡◌, ◌-◌, IsTrue, OnOk, OnErr, [], option_copied, vec_len, vec_capacity};
ghost use Rattle.gcx_io.specs.Held.{held};
ghost use Rattle.gcx_io.specs.Files.{no_files};
ghost use Rattle.gcx_io.specs.SureShelf.{sure_with_put};

use crate::files::Files;
use crate::{AttachFault, Failed, Handle, Shelf};
use gcx_base::{Memory, Text};
use std::alloc::Global;
use std::marker::Model;

/// A shelf that never fails. It holds every name: one that it wasn't given holds no bytes.
#[derive(Drop)]
pub struct SureShelf {
    files: Files,
    room: usize,
}

impl Model for SureShelf {
    ghost use Rattle.gcx_io.specs.SureShelf.{SureShelfState};

    ghost Value = { SureShelfState };

    ghost view = { λ s. record { kept = s.files; room = s.room } };
}

impl SureShelf {
    /// No name is mapped. `room` is the room for the bytes of a file that is made.
    pub fn new(alloc: Global, room: usize) -> SureShelf
        ensures { result ≡ record { kept = no_files; room = room } }
    {
        SureShelf {
            files: Files::new(alloc),
            room,
        }
    }

    /// Maps the name to these bytes, whatever it held. After `Memory` the shelf is as before.
    pub fn put(&mut self, name: Text, bytes: Vec<u8>) -> Result<(), Memory>
        requires { self.old.kept.openings ≡ [] }
        ensures ok { OnOk result
            (self.new ≡ sure_with_put name bytes.items (vec_capacity bytes - vec_len bytes) self.old) }
        ensures err { OnErr result (self.new ≡ self.old) }
    {
        self.files.put(name, bytes)
    }

    /// Whether all the bytes that were taken are kept: false from the first piece on for which no memory was found.
    pub fn is_whole(&self) -> bool
        ensures { result ≡ self.now.kept.whole }
    {
        self.files.is_whole()
    }

    /// What the name holds, None where the shelf wasn't given it.
    pub fn bytes(&self, name: &Text) -> Option<&[u8]>
        requires { IsTrue self.now.kept.whole }
        ensures { option_copied result ≡ held self.now.kept.files name.now }
    {
        self.files.bytes(name)
    }
}

impl Shelf for SureShelf {
    ghost use Rattle.std.specs.Prelude.{◌≡◌, ◌<◌, ◌++◌, [], Ok, Some, refl, IfOk, OnOk, OnErr, IsErrOf, length, take, drop, min};
    ghost use Rattle.std.specs.Io.{ReadsAtMost};
    ghost use Rattle.gcx_io.specs.Bytes.{Moves};
    ghost use Rattle.gcx_io.specs.Shelf.{Adds, LeavesOthers, Maps};
    ghost use Rattle.gcx_io.specs.Calls.{Attaches, Creates, ReadsOnce, WritesHandle};
    ghost use Rattle.gcx_io.specs.Held.{held_or_none, rest_at};
    ghost use Rattle.gcx_io.specs.Files.{views, after_attach, after_read, Makes, TakesPiece};
    ghost use Rattle.gcx_io.specs.SureShelf.{SureNamesHandle, SureNamesExtend, SureHandlesStay};
    ghost use Rattle.gcx_io.specs.SureShelf.{sure_names, sure_left, sure_named, sure_handles, sure_shelf_seen};
    ghost use Rattle.gcx_io.specs.Files.{owner_told, rests_told, views_count, views_left, views_name};

    ghost names = { sure_names };

    ghost left = { sure_left };

    ghost named = { sure_named };

    ghost handles = { sure_handles };

    ghost faults = { λ _. 0 };

    ghost write_faults = { λ _. 0 };

    ghost given = { λ s. views s.kept.whole s.kept.openings };

    ghost refused = { λ s. s.kept.refused };

    ghost seen = { sure_shelf_seen };

    ghost tells_owners = { λ s k given telling. owner_told s.kept.openings k given };

    ghost tells_rests = { λ s k given telling.
        rests_told s.kept.whole (λ name. Some (held_or_none s.kept.files name)) s.kept.openings k given telling };

    ghost sees = { λ _. refl };

    ghost counts = { λ s. views_count s.kept.whole s.kept.openings };

    ghost lefts = { λ s k v there. views_left s.kept.whole s.kept.openings k v there };

    ghost owners = { λ s k v there telling. views_name s.kept.whole s.kept.openings k v there };

    fn attach(&mut self, name: &Text) -> Result<Handle, AttachFault>
        ensures given { IfOk result (λ handle. Adds (sure_handles self.old) (sure_handles self.new) handle.0) }
        ensures named { IfOk result (λ handle. SureNamesHandle self.old self.new name.now handle.0) }
        ensures never { IsErrOf result AttachFault.Failed → ⊥ }
        ensures ok { OnOk result (self.new ≡ record self.old { kept = after_attach name.now self.old.kept }) }
        ensures err { OnErr result (self.new ≡ self.old) }
        ensures attaches { Attaches name.now (sure_shelf_seen self.old) (sure_shelf_seen self.new) result }
    {
        Ok(self.files.attach(name)?)
    }

    fn read(&mut self, handle: Handle, buf: &mut [u8]) -> Result<usize, Failed>
        requires given { handle.0 < sure_handles self.old }
        requires room { 0 < length buf.old }
        ensures bound { ReadsAtMost result buf.new }
        ensures others { LeavesOthers (sure_left self.old) (sure_left self.new) handle.0 }
        ensures named { sure_named self.new ≡ sure_named self.old }
        ensures handles { sure_handles self.new ≡ sure_handles self.old }
        ensures count { result ≡ Ok (min (length (rest_at self.old.kept.openings handle.0)) (length buf.old)) }
        ensures moved { IfOk result (λ n. buf.new ≡ take n (rest_at self.old.kept.openings handle.0)
            ++ drop n buf.old) }
        ensures ok { IfOk result
            (λ n. self.new ≡ record self.old { kept = after_read handle.0 (length buf.new) n self.old.kept }) }
        ensures reads { ReadsOnce handle.0 (sure_shelf_seen self.old) (sure_shelf_seen self.new) result buf.new }
    {
        Ok(self.files.read(handle, buf, usize::MAX))
    }

    fn create(&mut self, name: &Text) -> Result<Handle, AttachFault>
        ensures given { IfOk result (λ handle. Adds (sure_handles self.old) (sure_handles self.new) handle.0) }
        ensures named { IfOk result (λ handle. SureNamesHandle self.old self.new name.now handle.0) }
        ensures maps { OnOk result (Maps (sure_names self.old) (sure_names self.new) name.now []) }
        ensures never { IsErrOf result AttachFault.Failed → ⊥ }
        ensures makes { OnOk result (Makes name.now self.old.room self.old.kept self.new.kept) }
        ensures room { self.new.room ≡ self.old.room }
        ensures err { OnErr result (self.new ≡ self.old) }
        ensures creates { Creates name.now (sure_shelf_seen self.old) (sure_shelf_seen self.new) result }
    {
        Ok(self.files.create(name, self.room)?)
    }

    fn write(&mut self, handle: Handle, piece: &[u8]) -> Result<usize, Failed>
        requires given { handle.0 < sure_handles self.old }
        requires some { 0 < length piece.now }
        ensures bound { Moves result piece.now }
        ensures bytes { SureNamesExtend handle.0 self.old self.new result piece.now }
        ensures others { SureHandlesStay handle.0 self.old self.new }
        ensures handles { sure_handles self.new ≡ sure_handles self.old }
        ensures named { sure_named self.new ≡ sure_named self.old }
        ensures ok { result ≡ Ok (length piece.now) }
        ensures leaves { TakesPiece handle.0 piece.now self.old.kept self.new.kept }
        ensures room { self.new.room ≡ self.old.room }
        ensures takes { WritesHandle handle.0 (sure_shelf_seen self.old) (sure_shelf_seen self.new) result piece.now }
    {
        self.files.write(handle, piece);
        Ok(piece.len())
    }
}
