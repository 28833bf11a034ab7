//! The statements that are signed at open nodes.
ghost use Rattle.std.specs.Prelude.{◌≡◌, ◌≤◌, ◌==◌, ℕ, length, filter, not, true, false, OnOk, OnErr, take, drop};
ghost use Rattle.gcx_model.specs.Members.{In};
ghost use Rattle.path_states.specs.Lists.{Gains};
ghost use Rattle.matcher.specs.Signs.{InTurn, SignAt};
ghost use Rattle.matcher.specs.declared.signs.Sign.{Sign};

use gcx_base::Memory;

/// A statement that is signed at the node of this level, with the number of steps from the base to the role's variable.
#[derive(Clone, Copy, Debug)]
pub(crate) struct Sign {
    pub role: u32,
    pub level: usize,
    pub steps: usize,
}

/// How many of the first ones are of no greater role.
fn place(signs: &[Sign], role: u32) -> usize
    ensures within { result ≤ length signs.now }
    ensures before { InTurn signs.now → (s : Sign) → In s (take result signs.now) → s.role ≤ role }
    ensures behind { (s : Sign) → In s (drop result signs.now) → role ≤ s.role }
{
    let mut place = signs.len();
    while place > 0 && signs[place - 1].role > role {
        place -= 1;
    }
    place
}

/// Adds one, by rising role. After `Memory` the list is unchanged.
pub(crate) fn put_sign(signs: &mut Vec<Sign>, sign: Sign) -> Result<(), Memory>
    ensures ok { OnOk result (Gains signs.old.items signs.new.items (λ s. sign ≡ s)) }
    ensures turn { OnOk result (InTurn signs.old.items → InTurn signs.new.items) }
    ensures err { OnErr result (signs.new.items ≡ signs.old.items) }
{
    let place = place(signs, sign.role);
    signs.insert(place, sign)?;
    Ok(())
}

fn is_at(sign: &Sign, role: u32, level: usize) -> bool
    ensures yes { result ≡ true → (sign.now.role ≡ role) × (sign.now.level ≡ level) }
    ensures no { result ≡ false → sign.now.role ≡ role → sign.now.level ≡ level → ⊥ }
{
    sign.role == role && sign.level == level
}

/// Whether the role's statement is signed at the level.
fn is_signed(signs: &[Sign], role: u32, level: usize) -> bool
    ensures yes { result ≡ true → SignAt signs.now role level }
    ensures no { result ≡ false → SignAt signs.now role level → ⊥ }
{
    for sign in signs {
        if is_at(sign, role, level) {
            return true;
        }
    }
    false
}

/// Whether it is signed at each of these levels.
pub(crate) fn are_signed(signs: &[Sign], role: u32, levels: &[usize]) -> bool
    ensures yes { result ≡ true → (l : ℕ) → In l levels.now → SignAt signs.now role l }
    ensures no { result ≡ false → ((l : ℕ) → In l levels.now → SignAt signs.now role l) → ⊥ }
{
    for level in levels {
        if !is_signed(signs, role, *level) {
            return false;
        }
    }
    true
}

/// Takes those at the level away.
pub(crate) fn drop_level(signs: &mut Vec<Sign>, level: usize)
    ensures { signs.new.items ≡ filter (λ s. not (s.level == level)) signs.old.items }
{
    signs.retain(|sign| sign.level != level);
}
