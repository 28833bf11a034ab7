//! What the shelf of the file system asks its system for.
ghost use Rattle.std.specs.Prelude.{◌≡◌, ◌∷◌, ◌++◌, [], true};

use crate::outside::text;
use gcx_base::Text;
use gcx_io::{AttachFault, FileShelf, Handle, Shelf, System};
use std::alloc::Global;
use std::io::{self, Empty};
use std::process::Abort;
use std::test::Fail;

/// A file that was asked for, and whether it was to be made.
#[derive(Drop)]
struct Asked {
    name: Text,
    made: bool,
}

/// A system of empty files. It lists what it is asked for, and tells it while there is memory for the list.
#[derive(Drop)]
struct Listing<'a> {
    alloc: Global,
    list: &'a mut Vec<Asked>,
    whole: bool,
}

impl<'a> Listing<'a> {
    fn new(alloc: Global, list: &'a mut Vec<Asked>) -> Listing<'a> {
        Listing {
            alloc,
            list,
            whole: true,
        }
    }

    /// Lists one file more, where there is memory for it.
    fn note(&mut self, name: &str, made: bool)
        ensures whole { self.new.whole ≡ true → self.old.whole ≡ true }
        ensures listed { self.new.whole ≡ true → self.new.list.now.items
            ≡ self.old.list.now.items ++ record { name = name.now; made = made } ∷ [] }
    {
        let listed = match Text::of_text(self.alloc, name.as_bytes()) {
            Ok(name) => self.list.push(Asked { name, made }).is_ok(),
            Err(_) => false,
        };
        self.whole = self.whole && listed;
    }
}

impl System for Listing<'_> {
    ghost use Rattle.std.specs.Prelude.{Some, None, map, if◌then◌else◌};
    ghost use Rattle.gcx_io.specs.System.{ToRead, ToWrite};

    type File = Empty;

    ghost asked = { λ s. if s.whole
        then Some (map (λ a. if a.made then ToWrite a.name else ToRead a.name) s.list.now.items)
        else None };

    fn open(&mut self, name: &str) -> io::Result<Empty> {
        self.note(name, false);
        Ok(io::empty())
    }

    fn make(&mut self, name: &str) -> io::Result<Empty> {
        self.note(name, true);
        Ok(io::empty())
    }
}

/// Attaches and makes files. Standard input can be attached, and not made.
fn use_names(
    rt: &(impl Abort + AllocGlobal),
    shelf: &mut FileShelf<Listing<'_>>,
) -> Result<(), Fail> {
    for name in [b"q", b"-", b"d", b"q"] {
        shelf.attach(&text(rt, name)?)?;
    }
    assert_eq!(rt;
        shelf.create(&text(rt, b"-")?).err(),
        Some(AttachFault::Failed)
    );
    shelf.create(&text(rt, b"o")?)?;
    Ok(())
}

fn assert_listed(rt: &impl Abort, list: &[Asked], rows: &[(&[u8], bool)]) {
    assert_eq!(rt; list.len(), rows.len());
    for (asked, (name, made)) in list.iter().zip(rows) {
        assert_eq!(rt; asked.name.as_bytes(), *name);
        assert_eq!(rt; asked.made, *made);
    }
}

#[test]
fn each_file_is_asked_for_once(rt: HostRuntime) -> Result<(), Fail> {
    let mut list = Vec::new(rt.alloc());
    let mut shelf = FileShelf::new(rt, Listing::new(rt.alloc(), &mut list));
    use_names(&rt, &mut shelf)?;
    drop(shelf);
    assert_listed(
        &rt,
        &list,
        &[(b"q", false), (b"d", false), (b"q", false), (b"o", true)],
    );
    Ok(())
}

/// Makes a file, with memory for its handle or without.
fn create(rt: HostRuntime, list: &mut Vec<Asked>) -> Result<Result<Handle, AttachFault>, Fail> {
    let name = text(&rt, b"o")?;
    let mut shelf = FileShelf::new(rt, Listing::new(rt.alloc(), list));
    Ok(shelf.create(&name))
}

/// The list has room, so that the handle is the next thing to want memory. Where the second allocation fails, the file
/// isn't asked for.
#[test]
fn without_memory_no_file_is_made(rt: HostRuntime) -> Result<(), Fail> {
    let mut list = Vec::with_capacity(rt.alloc(), 1)?;
    let made = create(rt, &mut list)?;
    assert_eq!(rt; list.len(), usize::from(made.is_ok()));
    Ok(())
}
