//! Short lists.
ghost use Rattle.std.specs.Prelude.{◌≡◌, [], ◌∷◌, IfOk};

use pd_values::Items;
use std::alloc::{AllocError, Global};

/// A list without items.
pub(crate) fn none<T: Drop>(alloc: Global) -> Items<T>
    ensures { result ≡ [] }
{
    Items::of(Vec::new(alloc))
}

/// A list of this one item.
pub(crate) fn one<T: Drop>(alloc: Global, item: T) -> Result<Items<T>, AllocError>
    ensures { IfOk result (λ items. items ≡ item ∷ []) }
{
    let mut items = Vec::new(alloc);
    items.push(item)?;
    Ok(Items::of(items))
}

/// A list of these two items.
pub(crate) fn two<T: Drop>(alloc: Global, first: T, second: T) -> Result<Items<T>, AllocError>
    ensures { IfOk result (λ items. items ≡ first ∷ second ∷ []) }
{
    let mut items = one(alloc, first)?;
    items.push(second)?;
    Ok(items)
}
