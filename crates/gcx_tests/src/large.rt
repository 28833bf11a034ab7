//! Large queries.
use gcx_base::Memory;
use std::alloc::Global;

const LOOKING: &[u8] = b"if (exists(/a)) then () else ()";

/// So many copies of a piece.
pub(crate) fn repeated(alloc: Global, piece: &[u8], count: usize) -> Result<Vec<u8>, Memory> {
    let mut bytes = Vec::new(alloc);
    for _ in 0..count {
        bytes.extend_from_slice(piece)?;
    }
    Ok(bytes)
}

/// These parts, one behind the other.
pub(crate) fn joined(alloc: Global, parts: &[&[u8]]) -> Result<Vec<u8>, Memory> {
    let mut bytes = Vec::new(alloc);
    for part in parts {
        bytes.extend_from_slice(part)?;
    }
    Ok(bytes)
}

/// So many copies of a part of a query.
fn listed(alloc: Global, part: &[u8], count: usize) -> Result<Vec<u8>, Memory> {
    let more = joined(alloc, &[b", ", part])?;
    let behind = repeated(alloc, &more, count.saturating_sub(1))?;
    joined(alloc, &[part, &behind])
}

/// `if (exists(P)) then () else ()`, where P has so many steps.
fn looking_far(alloc: Global, steps: usize) -> Result<Vec<u8>, Memory> {
    let path = repeated(alloc, b"/a", steps)?;
    joined(alloc, &[b"if (exists(", &path, b")) then () else ()"])
}

/// `if (/a = "S") then (B) else ()`, where S has 1,000,000 letters and B is `/b` so many times.
fn copied(alloc: Global, loops: usize) -> Result<Vec<u8>, Memory> {
    let letters = repeated(alloc, b"x", 1_000_000)?;
    let paths = listed(alloc, b"/b", loops)?;
    joined(
        alloc,
        &[
            b"if (/a = \"",
            &letters,
            b"\") then (",
            &paths,
            b") else ()",
        ],
    )
}

/// A part of a query, with its size.
#[derive(Clone, Copy)]
pub(crate) enum Part {
    /// A path of so many steps.
    Paths(usize),
    /// So many branches on `exists(/a)`.
    Looking(usize),
    /// A branch on a path of so many steps.
    LookingFar(usize),
    /// So many loops, into each of which a condition of 1,000,000 letters is copied.
    Copied(usize),
    Text(&'static [u8]),
}

fn part_made(alloc: Global, part: Part) -> Result<Vec<u8>, Memory> {
    match part {
        Part::Paths(count) => repeated(alloc, b"/a", count),
        Part::Looking(count) => listed(alloc, LOOKING, count),
        Part::LookingFar(count) => looking_far(alloc, count),
        Part::Copied(count) => copied(alloc, count),
        Part::Text(text) => Ok(text.to_vec(alloc)?),
    }
}

/// A query of these parts, with commas between them.
pub(crate) fn joined_by_commas(alloc: Global, parts: &[Part]) -> Result<Vec<u8>, Memory> {
    let mut query = Vec::new(alloc);
    for part in parts {
        if !query.is_empty() {
            query.extend_from_slice(b", ")?;
        }
        query.extend_from_slice(&part_made(alloc, *part)?)?;
    }
    Ok(query)
}
