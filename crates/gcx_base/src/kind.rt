ghost use Rattle.std.specs.Prelude.{◌≡◌, IfOk};
ghost use Rattle.gcx_base.specs.Kinds.{is_text};

use crate::{Memory, Name, Text};
use std::alloc::Global;

/// What a node is.
#[derive(Drop, Debug)]
pub enum Kind {
    /// The document node.
    Document,
    Element(Name),
    Text(Text),
}

impl Kind {
    /// Whether a node of this kind is a text.
    #[inline(always)]
    pub fn is_text(&self) -> bool
        ensures { result ≡ is_text self.now }
    {
        matches!(self, Kind::Text(_))
    }

    /// A copy of the kind. `Memory`: there was no room for it.
    pub fn copy(&self, alloc: Global) -> Result<Kind, Memory>
        ensures { IfOk result (λ kind. kind ≡ self.now) }
    {
        Ok(match self {
            Kind::Document => Kind::Document,
            Kind::Element(name) => Kind::Element(name.copy(alloc)?),
            Kind::Text(text) => Kind::Text(text.copy(alloc)?),
        })
    }
}
