//! What the variables are bound to.
ghost use Rattle.std.specs.Prelude.{◌≡◌, ℕ, Some, OnOk, OnErr, option_map};
ghost use Rattle.std.specs.FinMap as map;

use gcx_base::{Memory, Serial, VarId};
use node_store::Place;
use std::alloc::Global;
use std::marker::Model;

/// The node of a variable.
#[derive(Clone, Copy, Debug, PartialEq, Eq)]
struct Bound {
    place: Place,
    serial: Serial,
}

/// The nodes to which variables are bound: their places and serials. The node of variable n is the nth.
#[derive(Drop, Debug)]
pub struct Env {
    nodes: Vec<Option<Bound>>,
}

impl Model for Env {
    ghost use Rattle.std.specs.FinMap as map;
    ghost use Rattle.std.specs.Coded.{coded_ℕ, coded×};
    ghost use Rattle.cond_eval.specs.Bindings.{Bindings, bindings};

    ghost Value = { Bindings };

    ghost coded = { map.code coded_ℕ (coded× coded_ℕ coded_ℕ) };

    ghost view = { λ e. bindings e.nodes.items };
}

impl Env {
    /// No variable is bound.
    pub fn new(alloc: Global) -> Env
        ensures { result ≡ map.empty }
    {
        Env {
            nodes: Vec::new(alloc),
        }
    }

    /// Binds the variable to the node, whatever it was bound to. After `Memory` nothing changed.
    #[inline(always)]
    pub fn bind(&mut self, var: VarId, place: Place, serial: Serial) -> Result<(), Memory>
        ensures ok { OnOk result (self.new ≡ map.insert self.old var.0 (place.0, serial.0)) }
        ensures err { OnErr result (self.new ≡ self.old) }
    {
        let index = var.0 as usize;
        while self.nodes.len() <= index {
            self.nodes.push(None)?;
        }
        self.nodes[index] = Some(Bound { place, serial });
        Ok(())
    }

    /// The variable isn't bound any more.
    pub fn unbind(&mut self, var: VarId)
        ensures { self.new ≡ map.remove self.old var.0 }
    {
        if let Some(node) = self.nodes.get_mut(var.0 as usize) {
            *node = None;
        }
    }

    /// The place and the serial of the variable's node, or None where it isn't bound.
    #[inline(always)]
    pub fn get(&self, var: VarId) -> Option<(Place, Serial)>
        ensures { option_map (λ b. (b.0.0, b.1.0)) result ≡ map.get self.now var.0 }
    {
        let Some(cell) = self.nodes.get(var.0 as usize) else {
            return None;
        };
        let Some(bound) = *cell else {
            return None;
        };
        Some((bound.place, bound.serial))
    }
}

/// The place of the node to which a variable is bound.
#[inline(always)]
pub fn place_of(env: &Env, var: VarId) -> Place
    requires { (s : ℕ) × (p : ℕ) × (map.get env.now var.0 ≡ Some (p, s)) }
    ensures { (p s : ℕ) → map.get env.now var.0 ≡ Some (p, s) → result.0 ≡ p }
{
    match env.get(var) {
        Some((place, _)) => place,
        None => unreachable!(),
    }
}
