//! Which bindings a call tree is made of.
ghost use Rattle.std.specs.Prelude.{◌≡◌};
ghost use Rattle.pd_filter.specs.Matching.{is_empty};
ghost use Rattle.pd_record.specs.Logs.{has_binding};
ghost use Rattle.pd_calltree.specs.Suits.{are_roots, asks_tags_alone, observes_roots, is_for_tree};

use crate::steady::is_steady;
use pd_plan::{BindingSpec, Filter, Plan};
use pd_values::{Items, Tag};

fn is_empty<T: Drop>(list: &Items<T>) -> bool
    ensures { result ≡ is_empty list.now }
{
    list.is_empty()
}

// Whether these tags are that of functions and procedures alone.
fn are_roots(tags: &[Tag]) -> bool
    ensures { result ≡ are_roots tags.now }
{
    matches!(tags, [Tag::Root])
}

// Whether a filter asks for tags, and for nothing else.
fn asks_tags_alone(filter: &Filter) -> bool
    ensures { result ≡ asks_tags_alone filter.now }
{
    is_empty(&filter.not_tags)
        && (is_empty(&filter.sources) && (is_empty(&filter.lines) && is_empty(&filter.roots)))
}

fn observes_roots(spec: &BindingSpec) -> bool
    ensures { result ≡ observes_roots spec.now }
{
    match spec {
        BindingSpec::Observe(filter) => are_roots(filter.tags.as_slice())
            && asks_tags_alone(filter),
        _ => false,
    }
}

fn has_roots(plan: &Plan, binding: u32) -> bool
    ensures { result ≡ has_binding plan.now binding observes_roots }
{
    match plan.bindings.get(binding as usize) {
        Some(spec) => observes_roots(spec),
        None => false,
    }
}

/// Whether a call tree can be made of the plan's binding of this number: an observer of functions and procedures, and of
/// nothing else, which a session attaches before the run, and which nothing in the plan disposes or switches off. It
/// takes no memory.
pub fn is_for_tree(plan: &Plan, binding: u32) -> bool
    ensures { result ≡ is_for_tree plan.now binding }
{
    is_steady(plan, binding) && has_roots(plan, binding)
}
