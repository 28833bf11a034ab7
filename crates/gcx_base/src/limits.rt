ghost use Rattle.std.specs.Prelude.{◌≡◌};
ghost use Rattle.gcx_base.specs.Limits.{full_limits};

/// What a reader takes at most.
#[derive(Clone, Copy, Debug, PartialEq, Eq)]
pub struct Limits {
    /// Bytes of the document.
    pub bytes: u64,
    /// Elements open at once.
    pub depth: u32,
    /// Bytes of a name in a start tag.
    pub name: u32,
    /// Bytes of the value of one run of text.
    pub text: u32,
}

impl Limits {
    /// The limits of the program: 1,099,511,627,776 bytes, 1,000 elements, 1,024 and 16,777,216 bytes.
    pub fn full() -> Limits
        ensures { result ≡ full_limits }
    {
        Limits {
            bytes: 1_099_511_627_776,
            depth: 1_000,
            name: 1_024,
            text: 16_777_216,
        }
    }
}
