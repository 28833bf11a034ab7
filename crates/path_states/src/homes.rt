//! Where the kept states may be found by their parts.
use crate::state::State;
use gcx_base::Memory;
use std::alloc::Global;

/// How many places there are: a power of two.
const PLACES: usize = 1_024;

/// In how many places from its own on a state may stand.
pub(crate) const NEAR: usize = 4;

/// Stands where no state does.
const NONE: u32 = u32::MAX;

/// The numbers of kept states, by their parts. One that isn't found is made once more, so no contract says where they
/// stand.
#[derive(Drop, Debug)]
pub(crate) struct Homes {
    places: Vec<u32>,
}

/// A number by which these numbers and those mixed before are told apart from most others.
fn mixed(before: usize, numbers: &[u32]) -> usize {
    let mut mix = before.wrapping_mul(31).wrapping_add(numbers.len());
    for number in numbers {
        mix = mix.wrapping_mul(31).wrapping_add(*number as usize);
    }
    mix
}

/// The first place of a state with these parts.
pub(crate) fn place_of(state: &State) -> usize {
    let parts = mixed(mixed(0, state.pending()), state.whole());
    mixed(parts, state.active()) & (PLACES - 1)
}

impl Homes {
    /// No state stands anywhere.
    pub(crate) fn new(alloc: Global) -> Result<Homes, Memory> {
        let mut places = Vec::new(alloc);
        for _ in 0..PLACES + NEAR {
            places.push(NONE)?;
        }
        Ok(Homes { places })
    }

    /// The number that stands at the place, which may be that of no state.
    pub(crate) fn at(&self, place: usize) -> usize {
        match self.places.get(place) {
            Some(number) => *number as usize,
            None => usize::MAX,
        }
    }

    /// Puts the number at the place, if none stands there, and answers whether none did.
    fn put_at(&mut self, place: usize, number: u32) -> bool {
        if self.at(place) != NONE as usize || place >= self.places.len() {
            return false;
        }
        self.places[place] = number;
        true
    }

    /// Puts the state's number at the first free place of those in which it may stand. Takes no memory.
    pub(crate) fn put(&mut self, first: usize, state: usize) {
        if let Ok(number) = u32::try_from(state) {
            for place in first..first.saturating_add(NEAR) {
                if self.put_at(place, number) {
                    return;
                }
            }
        }
    }
}
