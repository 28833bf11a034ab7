ghost use Rattle.std.specs.Prelude.{◌≡◌};
ghost use Rattle.std.specs.Ordering.{nat_cmp};
ghost use Rattle.std.specs.Cmp.Lexicographic.{slice_cmp};
ghost use Rattle.gcx_model.specs.Values.{rel_holds};

use gcx_base::Rel;
use std::cmp::Ordering;

/// Whether the relation holds of two values, of which the first is less than, equal to or greater
/// than the second (XQuery 1.0, section 3.5.2).
pub fn holds(rel: Rel, order: Ordering) -> bool
    ensures { result ≡ rel_holds rel order }
{
    match rel {
        Rel::Eq => order.is_eq(),
        Rel::Ne => order.is_ne(),
        Rel::Lt => order.is_lt(),
        Rel::Le => order.is_le(),
        Rel::Gt => order.is_gt(),
        Rel::Ge => order.is_ge(),
    }
}

/// Compares two texts by their bytes, which for UTF-8 is the order of their code points.
pub fn compare_text(a: &[u8], b: &[u8]) -> Ordering
    ensures { result ≡ slice_cmp nat_cmp a.now b.now }
{
    a.cmp(b)
}
