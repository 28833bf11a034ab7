//! A link that may be missing, in one word.
ghost use Rattle.std.specs.Prelude.{◌≡◌, Some, None, IfSome, ⊤};
ghost use Rattle.raw_nodes.specs.Spots.{IsInSomeBlock};

use crate::arena::Link;
use std::alloc::AllocError;
use std::marker::Model;
use std::ptr::{NonNull, null_mut};

/// A link, or none: a pointer, which is null where there is none.
pub struct MaybeLink {
    ptr: *mut u8,
}

impl Model for MaybeLink {
    ghost use Rattle.std.specs.Prelude.{Option};
    ghost use Rattle.raw_nodes.specs.declared.arena.Link.{Link};
    ghost use denote.RawPtr.{Testable};
    ghost use Rattle.raw_nodes.specs.MaybeLinks.{maybe_code, link_to, ptr_of, ptr_back};

    ghost Value = { Option Link };

    ghost coded = { maybe_code };

    ghost view = { λ m. link_to m.ptr };

    ghost invariant = { λ m. Testable m.ptr };

    ghost inverse = { λ l. record { ptr = ptr_of l } };

    ghost inverse_ok = { λ m h i. record { ptr = ptr_back m.ptr i } };
}

impl Clone for MaybeLink {
    ghost is_clone = { λ x y. y ≡ x };

    ghost is_infallible = { λ _. ⊤ };

    fn clone(&self) -> Result<MaybeLink, AllocError> {
        Ok(*self)
    }
}

impl Copy for MaybeLink {}

impl MaybeLink {
    #[inline(always)]
    pub(crate) fn none() -> MaybeLink
        ensures { result ≡ None }
    {
        MaybeLink { ptr: null_mut() }
    }

    #[inline(always)]
    pub(crate) fn to(link: Link) -> MaybeLink
        requires { IsInSomeBlock link.ptr }
        ensures { result ≡ Some link }
    {
        MaybeLink { ptr: link.ptr }
    }

    pub(crate) fn of(link: Option<Link>) -> MaybeLink
        requires { IfSome link (λ l. IsInSomeBlock l.ptr) }
        ensures { result ≡ link }
    {
        match link {
            Some(link) => MaybeLink::to(link),
            None => MaybeLink::none(),
        }
    }

    #[inline(always)]
    pub(crate) fn get(self) -> Option<Link>
        ensures { result ≡ self }
    {
        match NonNull::new(self.ptr) {
            Some(cell) => Some(Link { ptr: cell.as_ptr() }),
            None => None,
        }
    }
}
