//! Bytes that are compared in line, since names and values are short.
ghost use Rattle.std.specs.Prelude.{◌≡◌, ◌≢◌, ◌+◌, ◌<◌, ◌≤◌, ℕ, ◌↔◌, IfSome, IsNone, IsTrue, length, slice_index, bytes_eq};
ghost use Rattle.std.specs.Int.{w32, to_le_bytes};
ghost use Rattle.gcx_base.specs.Fours.{four_at};

/// Four bytes from this index on, as one number.
#[inline(always)]
fn four(bytes: &[u8], at: usize) -> u32
    requires { at + 4 ≤ length bytes.now }
    ensures { to_le_bytes w32 result ≡ four_at bytes.now at }
{
    u32::from_le_bytes([bytes[at], bytes[at + 1], bytes[at + 2], bytes[at + 3]])
}

/// Whether both have the same four bytes from this index on.
#[inline(always)]
fn same_four(one: &[u8], other: &[u8], at: usize) -> bool
    requires one { at + 4 ≤ length one.now }
    requires other { at + 4 ≤ length other.now }
    ensures { IsTrue result ↔ ((k : ℕ) → k < 4 → slice_index one.now (at + k) ≡ slice_index other.now (at + k)) }
{
    four(one, at) == four(other, at)
}

/// Where the last bytes begin, which don't make four, behind bytes that are the same in both. None where these differ.
#[inline(always)]
fn behind_fours(one: &[u8], other: &[u8]) -> Option<usize>
    requires { length one.now ≡ length other.now }
    ensures same { IfSome result (λ n. (k : ℕ) → k < n → slice_index one.now k ≡ slice_index other.now k) }
    ensures none { IsNone result → one.now ≢ other.now }
{
    let mut at = 0;
    while one.len() - at >= 4 {
        if !same_four(one, other, at) {
            return None;
        }
        at += 4;
    }
    Some(at)
}

/// Whether both have the same bytes from this index on.
#[inline(always)]
fn same_from(one: &[u8], other: &[u8], from: usize) -> bool
    requires { length one.now ≡ length other.now }
    ensures { IsTrue result
        ↔ ((k : ℕ) → from ≤ k → k < length one.now → slice_index one.now k ≡ slice_index other.now k) }
{
    for at in from..one.len() {
        if one[at] != other[at] {
            return false;
        }
    }
    true
}

/// Whether both have the same bytes. They are compared in line, four at a time.
#[inline(always)]
pub fn same_bytes(one: &[u8], other: &[u8]) -> bool
    ensures same { IsTrue result ↔ (one.now ≡ other.now) }
    ensures test { result ≡ bytes_eq one.now other.now }
{
    if one.len() != other.len() {
        return false;
    }
    match behind_fours(one, other) {
        Some(last) => same_from(one, other, last),
        None => false,
    }
}
