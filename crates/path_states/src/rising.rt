//! Rising lists of numbers.
ghost use Rattle.std.specs.Prelude.{slice_get, Some, ◌≡◌, ◌≤◌, false, true, length, OnOk};
ghost use Rattle.gcx_model.specs.Members.{In};
ghost use Rattle.path_states.specs.Lists.{Climbs, Gains, Parted};

use gcx_base::Memory;

/// How many of the rising numbers are below this one. Most come in order, so the search begins at the end.
fn place(numbers: &[u32], number: u32) -> usize
    ensures within { result ≤ length numbers.now }
    ensures parts { Climbs numbers.now → Parted numbers.now result number }
{
    let mut place = numbers.len();
    while place > 0 && numbers[place - 1] >= number {
        place -= 1;
    }
    place
}

/// Whether the number stands at that place.
fn is_at(numbers: &[u32], place: usize, number: u32) -> bool
    ensures yes { result ≡ true → In number numbers.now }
    ensures no { result ≡ false → slice_get numbers.now place ≡ Some number → ⊥ }
{
    match numbers.get(place) {
        Some(other) => *other == number,
        None => false,
    }
}

/// Adds a number at its place in the rising list, unless the list has it.
pub fn rise(numbers: &mut Vec<u32>, number: u32) -> Result<(), Memory>
    ensures gains { OnOk result (Gains numbers.old.items numbers.new.items (λ y. number ≡ y)) }
    ensures climbs { OnOk result (Climbs numbers.old.items → Climbs numbers.new.items) }
{
    let place = place(numbers, number);
    if place == numbers.len() {
        numbers.push(number)?;
    } else if !is_at(numbers, place, number) {
        numbers.insert(place, number)?;
    }
    Ok(())
}

/// Adds all of them.
pub fn rise_all(numbers: &mut Vec<u32>, more: &[u32]) -> Result<(), Memory>
    ensures gains { OnOk result (Gains numbers.old.items numbers.new.items (λ y. In y more.now)) }
    ensures climbs { OnOk result (Climbs numbers.old.items → Climbs numbers.new.items) }
{
    for number in more {
        rise(numbers, *number)?;
    }
    Ok(())
}
