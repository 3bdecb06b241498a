//! The order of paths.
ghost use Rattle.std.specs.Prelude.{◌≡◌};
ghost use Rattle.std.specs.Ordering.{is_lt};
ghost use Rattle.pd_paths.specs.Tree.{is_before};

use pd_values::NodeId;
use std::cmp::Ordering;

/// Paths by their first node that differs; a part of a path comes before it.
pub(crate) fn compare(a: &[NodeId], b: &[NodeId]) -> Ordering
    ensures { is_lt result ≡ is_before a.now b.now }
{
    let mut i = 0;
    while i < a.len() && i < b.len() {
        let (x, y) = (a[i], b[i]);
        if x.0 != y.0 {
            return x.0.cmp(&y.0);
        }
        i += 1;
    }
    a.len().cmp(&b.len())
}
