ghost use Rattle.std.specs.Prelude.{◌≡◌, ◌∷◌, ◌++◌, [], length, IfOk, IsErrOf, OnOk, OnErr};
ghost use Rattle.gcx_io.specs.FileShelf.{stream_calls, with_handle, with_miss};
ghost use Rattle.gcx_io.specs.System.{ToRead, AsksOnce};

use crate::file_handle::FileHandle;
use crate::stream::Stream;
use crate::{AttachFault, Failed, Handle, Shelf, System};
use call_history::Misses;
use gcx_base::Text;
use std::io;
use std::marker::Model;

/// Files by their names, which a system opens and makes. `-` is standard input, which can't be made. It tells no
/// contents.
#[derive(Drop)]
pub struct FileShelf<S: System> {
    rt: HostRuntime,
    system: S,
    handles: Vec<FileHandle<S::File>>,
    misses: Misses,
    faults: u64,
    write_faults: u64,
}

impl<S: System> Model for FileShelf<S> {
    ghost use Rattle.gcx_io.specs.FileShelf.{FileShelfState};

    ghost Value = { FileShelfState };

    ghost view = { λ s. record {
      given = s.handles.items;
      refused = s.misses.list;
      faults = s.faults;
      write_faults = s.write_faults;
      asked = S.asked s.system;
    } };
}

impl<S: System> FileShelf<S> {
    /// No handle was given yet. Standard input is that of `rt`.
    pub fn new(rt: HostRuntime, system: S) -> FileShelf<S>
        ensures { result
            ≡ record { given = []; refused = []; faults = 0; write_faults = 0; asked = S.asked system } }
    {
        FileShelf {
            rt,
            system,
            handles: Vec::new(rt.alloc()),
            misses: Misses::new(),
            faults: 0,
            write_faults: 0,
        }
    }

    /// The stream that the name opens for reading.
    fn open(&mut self, name: &Text) -> io::Result<Stream<S::File>>
        ensures stream { IfOk result (λ stream. stream_calls stream ≡ []) }
        ensures asks { AsksOnce ToRead name.now self.old.asked self.new.asked }
        ensures rest { self.new ≡ record self.old { asked = self.new.asked } }
    {
        if name.as_bytes() == b"-".as_slice() {
            return Ok(Stream::standard(self.rt.stdin()));
        }
        Ok(Stream::file(self.system.open(name.as_str())?))
    }

    /// Keeps a stream that the name opened, and answers its handle.
    fn keep(&mut self, name: &Text, stream: Stream<S::File>) -> Result<Handle, AttachFault>
        requires { stream_calls stream ≡ [] }
        ensures number { IfOk result (λ handle. handle.0 ≡ length self.old.given) }
        ensures ok { OnOk result (self.new ≡ with_handle name.now self.old) }
        ensures err { OnErr result (self.new ≡ self.old) }
        ensures memory { IsErrOf result AttachFault.Failed → ⊥ }
    {
        let handle = Handle(self.handles.len());
        match self.handles.push(FileHandle::new(name, stream)) {
            Ok(()) => Ok(handle),
            Err(_) => Err(AttachFault::Memory),
        }
    }

    /// Lists a name that no handle was given for.
    fn miss(&mut self, name: &Text)
        ensures { self.new ≡ with_miss name.now self.old }
    {
        self.misses.note(name.as_bytes(), self.handles.len());
    }
}

impl<S: System> Shelf for FileShelf<S> {
    ghost use Rattle.std.specs.Prelude.{◌≡◌, ◌≤◌, ◌<◌, ◌+◌, ◌⊎◌, None, refl, length, map, IfOk, OnOk, OnErr, IsErrOf, MatchResult};
    ghost use Rattle.std.specs.Io.{ReadsAtMost};
    ghost use Rattle.gcx_io.specs.Tallies.{one_more, CountsFault};
    ghost use Rattle.gcx_io.specs.Bytes.{Moves};
    ghost use Rattle.gcx_io.specs.Calls.{Attaches, Creates, ReadsOnce, WritesHandle};
    ghost use Rattle.gcx_io.specs.FileShelf.{untold, file_shelf_seen, untold_count, untold_left};
    ghost use Rattle.gcx_io.specs.Shelf.{Adds};
    ghost use Rattle.gcx_io.specs.System.{CreateAsks};

    ghost names = { λ _. None };

    ghost left = { λ _ _. None };

    ghost named = { λ _ _. None };

    ghost handles = { λ s. length s.given };

    ghost faults = { λ s. s.faults };

    ghost write_faults = { λ s. s.write_faults };

    ghost given = { λ s. map untold s.given };

    ghost refused = { λ s. s.refused };

    ghost seen = { file_shelf_seen };

    ghost tells_owners = { λ s k given telling. absurd telling };

    ghost tells_rests = { λ s k given telling. absurd telling };

    ghost sees = { λ _. refl };

    ghost counts = { λ s. untold_count s.given };

    ghost lefts = { λ s k v there. untold_left s.given k v there };

    ghost owners = { λ s k v there telling. absurd telling };

    fn attach(&mut self, name: &Text) -> Result<Handle, AttachFault>
        ensures given { IfOk result (λ handle. Adds (length self.old.given) (length self.new.given) handle.0) }
        ensures refused { OnErr result (length self.new.given ≡ length self.old.given) }
        ensures later { self.old.faults ≤ self.new.faults }
        ensures writes { self.new.write_faults ≡ self.old.write_faults }
        ensures fault { IsErrOf result AttachFault.Failed → self.new.faults ≡ one_more self.old.faults }
        ensures asks { AsksOnce ToRead name.now self.old.asked self.new.asked }
        ensures attaches { Attaches name.now (file_shelf_seen self.old) (file_shelf_seen self.new) result }
    {
        match self.open(name) {
            Ok(stream) => self.keep(name, stream),
            Err(_) => {
                self.miss(name);
                self.faults = self.faults.saturating_add(1);
                Err(AttachFault::Failed)
            }
        }
    }

    fn read(&mut self, handle: Handle, buf: &mut [u8]) -> Result<usize, Failed>
        requires given { handle.0 < length self.old.given }
        requires room { 0 < length buf.old }
        ensures bound { ReadsAtMost result buf.new }
        ensures handles { length self.new.given ≡ length self.old.given }
        ensures faults { CountsFault self.old.faults self.new.faults result }
        ensures unasked { self.new.asked ≡ self.old.asked }
        ensures reads { ReadsOnce handle.0 (file_shelf_seen self.old) (file_shelf_seen self.new) result buf.new }
    {
        match self.handles[handle.0].read(buf) {
            Ok(count) => Ok(count),
            Err(Failed) => {
                self.faults = self.faults.saturating_add(1);
                Err(Failed)
            }
        }
    }

    fn create(&mut self, name: &Text) -> Result<Handle, AttachFault>
        ensures given { IfOk result (λ handle. Adds (length self.old.given) (length self.new.given) handle.0) }
        ensures refused { OnErr result (length self.new.given ≡ length self.old.given) }
        ensures later { self.old.write_faults ≤ self.new.write_faults }
        ensures reads { self.new.faults ≡ self.old.faults }
        ensures fault { IsErrOf result AttachFault.Failed → self.new.write_faults ≡ one_more self.old.write_faults }
        ensures asks { CreateAsks name.now self.old.asked self.new.asked result }
        ensures creates { Creates name.now (file_shelf_seen self.old) (file_shelf_seen self.new) result }
    {
        if name.as_bytes() != b"-".as_slice() {
            // Room for the handle comes first: once the file is emptied, no memory may be wanting.
            if self.handles.reserve(1).is_err() {
                return Err(AttachFault::Memory);
            }
            if let Ok(file) = self.system.make(name.as_str()) {
                let handle = Handle(self.handles.len());
                let made = FileHandle::new(name, Stream::made(file));
                self.handles.push_reserved(made);
                return Ok(handle);
            }
        }
        self.miss(name);
        self.write_faults = self.write_faults.saturating_add(1);
        Err(AttachFault::Failed)
    }

    fn write(&mut self, handle: Handle, piece: &[u8]) -> Result<usize, Failed>
        requires given { handle.0 < length self.old.given }
        requires some { 0 < length piece.now }
        ensures bound { Moves result piece.now }
        ensures handles { length self.new.given ≡ length self.old.given }
        ensures faults { CountsFault self.old.write_faults self.new.write_faults result }
        ensures unasked { self.new.asked ≡ self.old.asked }
        ensures takes { WritesHandle handle.0 (file_shelf_seen self.old) (file_shelf_seen self.new) result piece.now }
    {
        match self.handles[handle.0].write(piece) {
            Ok(count) => Ok(count),
            Err(Failed) => {
                self.write_faults = self.write_faults.saturating_add(1);
                Err(Failed)
            }
        }
    }
}
