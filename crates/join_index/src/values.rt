//! Values in byte order, and look-ups among them.
ghost use Rattle.std.specs.Prelude.{◌≡◌, ◌<◌, ◌≤◌, ◌+◌, ◌^◌, ◌↔◌, ℕ, suc, true, length, List, IfOk};
ghost use Rattle.std.specs.Ordering.{nat_cmp};
ghost use Rattle.std.specs.Cmp.Lexicographic.{slice_cmp};
ghost use Rattle.gcx_model.specs.Members.{In};
ghost use Rattle.join_index.specs.Rising.{IsEnough};

use gcx_base::{Memory, Text};
use std::cmp::Ordering;
use std::marker::Model;
use xq_values::compare_text;

/// Counts comparisons with kept texts, seen as their number.
#[derive(Drop, Debug)]
pub struct Probes {
    steps: u64,
}

impl Model for Probes {
    ghost use Rattle.std.specs.Prelude.{ℕ};

    ghost Value = { ℕ };

    ghost view = { λ p. p.steps };
}

impl Probes {
    /// No comparison was made.
    pub fn new() -> Probes
        ensures { result ≡ 0 }
    {
        Probes { steps: 0 }
    }

    /// How the kept text and the value compare, by bytes. One comparison more was made.
    pub fn compare(&mut self, kept: &Text, value: &[u8]) -> Ordering
        requires { self.old < 2 ^ 63 }
        ensures one { self.new ≡ suc self.old }
        ensures order { result ≡ slice_cmp nat_cmp kept.now value.now }
    {
        self.steps += 1;
        compare_text(kept.as_bytes(), value)
    }

    /// How many comparisons were made.
    pub fn steps(&self) -> u64
        ensures { result ≡ self.now }
    {
        self.steps
    }
}

/// Texts in byte order, each once, seen as the list of their bytes.
#[derive(Drop, Debug)]
pub struct Values {
    texts: Vec<Text>,
}

impl Model for Values {
    ghost use Rattle.std.specs.Prelude.{List, ℕ};
    ghost use Rattle.join_index.specs.Rising.{RisesByBytes};

    ghost Value = { List (List ℕ) };

    ghost view = { λ v. v.texts.items };

    ghost invariant = { λ v. RisesByBytes v.texts.items };
}

impl Values {
    /// The distinct ones of these texts.
    pub fn make(values: Vec<Text>) -> Result<Values, Memory>
        ensures { IfOk result (λ v. (w : List ℕ) → In w v ↔ In w values.items) }
    {
        let mut texts = values;
        texts.sort_by(|one, other| compare_text(one.as_bytes(), other.as_bytes()))?;
        texts.dedup();
        Ok(Values { texts })
    }

    /// Whether the value is one of them.
    pub fn contains(&self, value: &[u8], probes: &mut Probes) -> bool
        requires { probes.old ≤ 2 ^ 62 }
        ensures found { (result ≡ true) ↔ In value.now self.now }
        ensures steps { (p : ℕ) × (probes.new ≡ probes.old + p) × IsEnough (length self.now) p }
    {
        let mut from = 0;
        let mut to = self.texts.len();
        'halves: while from < to {
            let middle = from + (to - from) / 2;
            match probes.compare(&self.texts[middle], value) {
                Ordering::Equal => return true,
                Ordering::Less => from = middle + 1,
                Ordering::Greater => to = middle,
            }
        }
        false
    }
}
