//! The fuel that words give.
ghost use Rattle.std.specs.Prelude.{◌≡◌, map, IfOk};
ghost use Rattle.pd_words.specs.Fuel.{context_with, with_fuel};

use pd_plan::{ContextSpec, Plan};
use pd_values::Items;
use std::alloc::{AllocError, Global};

// The context with this fuel.
fn context_with(context: &ContextSpec, fuel: u32) -> Result<ContextSpec, AllocError>
    ensures { IfOk result (λ c. c ≡ context_with fuel context.now) }
{
    Ok(ContextSpec {
        source: context.source,
        entry: context.entry.copy()?,
        fuel,
    })
}

// These contexts, each with this fuel.
fn contexts_with(
    alloc: Global,
    contexts: &[ContextSpec],
    fuel: u32,
) -> Result<Items<ContextSpec>, AllocError>
    ensures { IfOk result (λ cs. cs ≡ map (context_with fuel) contexts.now) }
{
    let mut all = Vec::new(alloc);
    for context in contexts {
        all.push(context_with(context, fuel)?)?;
    }
    Ok(Items::of(all))
}

/// The plan with this fuel for every context, where one is given. The only error is `AllocError`, where memory runs out.
pub fn with_fuel(alloc: Global, mut plan: Plan, fuel: Option<u32>) -> Result<Plan, AllocError>
    ensures { IfOk result (λ p. p ≡ with_fuel fuel plan) }
{
    if let Some(fuel) = fuel {
        plan.contexts = contexts_with(alloc, plan.contexts.as_slice(), fuel)?;
    }
    Ok(plan)
}
