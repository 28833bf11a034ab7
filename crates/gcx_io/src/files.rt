ghost use Rattle.std.specs.Prelude.{◌≡◌, ◌<◌, ◌++◌, [], true, false, length, take, drop, min, vec_len, vec_capacity, ◌-◌, IfOk, OnOk, OnErr, MatchOption, option_copied};
ghost use Rattle.gcx_io.specs.Held.{held, with_file, rest_at, noted_at, FileGrows, HasOneMore};
ghost use Rattle.gcx_io.specs.Files.{opened, Sets, KeepsInFile, KeepsPiece, IsPlaceOf, IsNewTo};
ghost use Rattle.gcx_io.specs.Files.{after_miss, after_put, after_attach, after_read, after_call};
ghost use Rattle.gcx_io.specs.Views.{Took, Denied, Failed};

use crate::Handle;
use crate::opening::Opening;
use call_history::Misses;
use gcx_base::{Memory, Text};
use std::alloc::Global;
use std::marker::Model;

/// A name and what it holds.
#[derive(Drop)]
struct Entry {
    name: Text,
    bytes: Vec<u8>,
}

impl Model for Entry {
    ghost use Rattle.std.specs.Prelude.{vec_len, vec_capacity, ◌-◌};
    ghost use Rattle.gcx_io.specs.Held.{File};

    ghost Value = { File };

    ghost view = { λ e.
        record { name = e.name; bytes = e.bytes.items; room = vec_capacity e.bytes - vec_len e.bytes } };
}

impl Entry {
    /// Adds the piece, where memory is found for it.
    fn append(&mut self, piece: &[u8]) -> bool
        ensures name { self.new.name ≡ self.old.name }
        ensures kept { result ≡ true → FileGrows self.old self.new piece.now }
        ensures lost { result ≡ false → (self.new.bytes ≡ self.old.bytes) × (self.old.room < length piece.now) }
    {
        self.bytes.extend_from_slice(piece).is_ok()
    }
}

/// The number of the first file of this name.
fn find(entries: &[Entry], name: &[u8]) -> Option<usize>
    ensures { MatchOption result (IsNewTo name.now entries.now) (IsPlaceOf name.now entries.now) }
{
    for (i, entry) in entries.iter().enumerate() {
        if entry.name.as_bytes() == name {
            return Some(i);
        }
    }
    None
}

/// Puts an entry in the place of the first one of its name, or behind the others.
fn place(entries: &mut Vec<Entry>, entry: Entry) -> Result<(), Memory>
    ensures ok { OnOk result (entries.new.items ≡ with_file entry entries.old.items) }
    ensures err { OnErr result (entries.new.items ≡ entries.old.items) }
{
    match find(entries, entry.name.as_bytes()) {
        Some(i) => {
            entries[i] = entry;
            Ok(())
        }
        None => {
            entries.push(entry)?;
            Ok(())
        }
    }
}

/// Puts an entry of this name and piece behind the others.
fn add(alloc: Global, entries: &mut Vec<Entry>, name: &Text, piece: &[u8]) -> Result<(), Memory>
    ensures ok { OnOk result (HasOneMore entries.old.items entries.new.items name.now piece.now) }
    ensures err { OnErr result (entries.new.items ≡ entries.old.items) }
{
    let mut bytes = Vec::new(alloc);
    bytes.extend_from_slice(piece)?;
    let name = name.copy(alloc)?;
    entries.push(Entry { name, bytes })?;
    Ok(())
}

/// Adds the piece to what the name holds, where memory is found for it.
fn append(alloc: Global, entries: &mut Vec<Entry>, name: &Text, piece: &[u8]) -> bool
    requires { 0 < length piece.now }
    ensures { KeepsInFile result entries.old.items entries.new.items name.now piece.now }
{
    match find(entries, name.as_bytes()) {
        Some(i) => entries[i].append(piece),
        None => add(alloc, entries, name, piece).is_ok(),
    }
}

/// Files in memory, and the handles that were given.
#[derive(Drop)]
pub(crate) struct Files {
    alloc: Global,
    entries: Vec<Entry>,
    openings: Vec<Opening>,
    whole: bool,
    misses: Misses,
}

impl Model for Files {
    ghost use Rattle.gcx_io.specs.Files.{OpenFiles};

    ghost Value = { OpenFiles };

    ghost view = { λ f. record
        { files = f.entries.items; openings = f.openings.items; whole = f.whole; refused = f.misses.list } };
}

impl Files {
    /// No file, and no handle.
    pub fn new(alloc: Global) -> Files
        ensures { result ≡ record { files = []; openings = []; whole = true; refused = [] } }
    {
        Files {
            alloc,
            entries: Vec::new(alloc),
            openings: Vec::new(alloc),
            whole: true,
            misses: Misses::new(),
        }
    }

    /// Maps the name to these bytes, whatever it held.
    pub fn put(&mut self, name: Text, bytes: Vec<u8>) -> Result<(), Memory>
        ensures ok { OnOk result
            (self.new ≡ after_put name bytes.items (vec_capacity bytes - vec_len bytes) self.old) }
        ensures err { OnErr result (self.new ≡ self.old) }
    {
        self.entries.insert(0, Entry { name, bytes })?;
        Ok(())
    }

    /// Whether all the bytes that were taken are kept.
    pub fn is_whole(&self) -> bool
        ensures { result ≡ self.now.whole }
    {
        self.whole
    }

    /// What the name holds.
    pub fn bytes(&self, name: &Text) -> Option<&[u8]>
        ensures { option_copied result ≡ held self.now.files name.now }
    {
        let file = find(&self.entries, name.as_bytes())?;
        let entry = &self.entries[file];
        Some(&entry.bytes)
    }

    /// Adds a handle of this name, which has these bytes left.
    fn open(&mut self, name: Text, bytes: Vec<u8>) -> Result<Handle, Memory>
        ensures number { IfOk result (λ handle. handle.0 ≡ length self.old.openings) }
        ensures ok { OnOk result (self.new ≡ record self.old { openings = opened name bytes.items self.old.openings }) }
        ensures err { OnErr result (self.new ≡ self.old) }
    {
        let handle = Handle(self.openings.len());
        self.openings.push(Opening::new(name, bytes))?;
        Ok(handle)
    }

    /// Adds a handle that has left what the name holds, no bytes where it isn't mapped.
    pub fn attach(&mut self, name: &Text) -> Result<Handle, Memory>
        ensures number { IfOk result (λ handle. handle.0 ≡ length self.old.openings) }
        ensures ok { OnOk result (self.new ≡ after_attach name.now self.old) }
        ensures err { OnErr result (self.new ≡ self.old) }
    {
        let mut bytes = Vec::new(self.alloc);
        if let Some(held) = self.bytes(name) {
            bytes.extend_from_slice(held)?;
        }
        let owner = name.copy(self.alloc)?;
        self.open(owner, bytes)
    }

    /// Maps the name to no bytes, whatever it held, with room for so many, and adds a handle of it.
    pub fn create(&mut self, name: &Text, room: usize) -> Result<Handle, Memory>
        ensures number { IfOk result (λ handle. handle.0 ≡ length self.old.openings) }
        ensures files { OnOk result (Sets self.old.files self.new.files name.now [] room) }
        ensures openings { OnOk result (self.new.openings ≡ opened name.now [] self.old.openings) }
        ensures whole { self.new.whole ≡ self.old.whole }
        ensures refused { self.new.refused ≡ self.old.refused }
        ensures err { OnErr result (self.new ≡ self.old) }
    {
        let entry = Entry {
            name: name.copy(self.alloc)?,
            bytes: Vec::with_capacity(self.alloc, room)?,
        };
        let owner = name.copy(self.alloc)?;
        let handle = self.open(owner, Vec::new(self.alloc))?;
        match place(&mut self.entries, entry) {
            Ok(()) => Ok(handle),
            Err(memory) => {
                let _ = self.openings.pop();
                Err(memory)
            }
        }
    }

    /// Moves the first bytes that a handle has left, at most so many.
    pub fn read(&mut self, handle: Handle, buf: &mut [u8], most: usize) -> usize
        requires given { handle.0 < length self.old.openings }
        ensures count { result ≡ min (min (length (rest_at self.old.openings handle.0)) (length buf.old)) most }
        ensures moved { buf.new ≡ take result (rest_at self.old.openings handle.0) ++ drop result buf.old }
        ensures rest { self.new ≡ after_read handle.0 (length buf.new) result self.old }
    {
        self.openings[handle.0].read(buf, most)
    }

    /// Adds the piece to what the name of a handle holds, or from then on keeps nothing more.
    fn keep(&mut self, handle: Handle, piece: &[u8])
        requires given { handle.0 < length self.old.openings }
        requires some { 0 < length piece.now }
        ensures keeps { KeepsPiece self.old self.new handle.0 piece.now }
        ensures lost { self.old.whole ≡ false → self.new ≡ self.old }
        ensures openings { self.new.openings ≡ self.old.openings }
        ensures refused { self.new.refused ≡ self.old.refused }
    {
        if self.whole {
            let opening = &self.openings[handle.0];
            self.whole = append(self.alloc, &mut self.entries, opening.name(), piece);
        }
    }

    /// Takes the piece by a call of the handle, and keeps it where nothing was lost yet and memory is found for it.
    pub fn write(&mut self, handle: Handle, piece: &[u8])
        requires given { handle.0 < length self.old.openings }
        requires some { 0 < length piece.now }
        ensures keeps { KeepsPiece self.old self.new handle.0 piece.now }
        ensures lost { self.old.whole ≡ false → self.new ≡ after_call handle.0 (Took piece.now) self.old }
        ensures openings { self.new.openings ≡ noted_at self.old.openings handle.0 (Took piece.now) }
        ensures refused { self.new.refused ≡ self.old.refused }
    {
        self.keep(handle, piece);
        self.take(handle, piece);
    }

    /// Notes that a write of a handle took these bytes.
    fn take(&mut self, handle: Handle, piece: &[u8])
        requires { handle.0 < length self.old.openings }
        ensures { self.new ≡ after_call handle.0 (Took piece.now) self.old }
    {
        self.openings[handle.0].took(piece);
    }

    /// A read of a handle that failed.
    pub fn fail(&mut self, handle: Handle, buf: &[u8])
        requires { handle.0 < length self.old.openings }
        ensures { self.new ≡ after_call handle.0 Failed self.old }
    {
        self.openings[handle.0].fail(buf);
    }

    /// A write of the piece into a handle that failed.
    pub fn deny(&mut self, handle: Handle, piece: &[u8])
        requires { handle.0 < length self.old.openings }
        ensures { self.new ≡ after_call handle.0 (Denied piece.now) self.old }
    {
        self.openings[handle.0].deny(piece);
    }

    /// An `attach` or a `create` of this name that failed.
    pub fn miss(&mut self, name: &Text)
        ensures { self.new ≡ after_miss name.now self.old }
    {
        self.misses.note(name.as_bytes(), self.openings.len());
    }
}
