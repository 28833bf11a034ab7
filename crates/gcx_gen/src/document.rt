//! A whole document in memory.
ghost use Rattle.std.specs.Prelude.{◌≡◌, ◌≤◌, ◌++◌, ◌-◌, codes, IfOk, OnOk};
ghost use Rattle.gcx_gen.specs.Generated.{document, items};

use crate::item::put_item;
use gcx_base::Memory;
use std::alloc::Global;

/// Appends the items from one number up to another.
pub(crate) fn put_items(out: &mut Vec<u8>, seed: u32, from: u32, to: u32) -> Result<(), Memory>
    requires { from ≤ to }
    ensures { OnOk result (out.new.items ≡ out.old.items ++ items seed from (to - from)) }
{
    for index in from..to {
        put_item(out, seed, index)?;
    }
    Ok(())
}

/// The document of this seed and so many items.
pub fn document_bytes(alloc: Global, seed: u32, count: u32) -> Result<Vec<u8>, Memory>
    ensures { IfOk result (λ bytes. bytes.items ≡ document seed count) }
{
    let mut out = Vec::new(alloc);
    out.extend_from_slice(b"<items>")?;
    put_items(&mut out, seed, 0, count)?;
    out.extend_from_slice(b"</items>")?;
    Ok(out)
}
