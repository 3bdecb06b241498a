//! The exports and the entries of a plan.
ghost use Rattle.std.specs.Prelude.{◌≡◌, ◌<◌, ◌≤◌, List, [], length, Ok, IfOk, IfErr};
ghost use Rattle.std.specs.List.{AllByRecursion};
ghost use Rattle.pd_load.specs.Names.{Symbol, Interface};
ghost use Rattle.pd_load.specs.Linked.{exported_item, exports_from, entry_item, entries_from};
ghost use Rattle.pd_load.specs.Tables.{IsTable, AreTables, StopsWith};

use crate::names::{Callables, Table, define, item_of};
use crate::refusal::{LoadCause, LoadRefusal};
use pd_plan::{ContextSpec, ExportSpec};
use pd_sections::Stop;
use std::alloc::Global;
use std::collections::BTreeMap;

/// The item that export `number` names; `earlier` has the exports before it.
fn item_exported(
    export: &ExportSpec,
    number: u32,
    earlier: &Table,
    tables: &[Callables],
) -> Result<u32, LoadRefusal>
    requires { export.now.source < length tables.now }
    ensures { (all : List Interface) → AreTables tables.now all → (symbols : List Symbol) → IsTable earlier.now symbols →
        result ≡ exported_item all number symbols export.now }
{
    let source = export.source;
    if item_of(earlier, export.name.as_str()).is_some() {
        let cause = LoadCause::DoubledExport { export: number };
        return Err(LoadRefusal { source, cause });
    }
    match item_of(&tables[source as usize].symbols, export.item.as_str()) {
        Some(item) => Ok(item),
        None => {
            let cause = LoadCause::NoSuchItem { export: number };
            Err(LoadRefusal { source, cause })
        }
    }
}

/// The items of the exports by their names, or the first export that is refused.
pub fn exports_of(
    alloc: Global,
    exports: &[ExportSpec],
    tables: &[Callables],
) -> Result<Table, Stop<LoadRefusal>>
    requires few { length exports.now ≤ 256 }
    requires refers { AllByRecursion (λ e. e.source < length tables.now) exports.now }
    ensures found { IfOk result (λ table. (all : List Interface) → AreTables tables.now all →
        (symbols : List Symbol) × IsTable table symbols × (exports_from all 0 [] exports.now ≡ Ok symbols)) }
    ensures refused { IfErr result (λ stop. (all : List Interface) → AreTables tables.now all →
        StopsWith (exports_from all 0 [] exports.now) stop) }
{
    let mut table = BTreeMap::new(alloc);
    for (index, export) in exports.iter().enumerate() {
        match item_exported(export, index as u32, &table, tables) {
            Ok(item) => define(alloc, &mut table, export.name.as_str(), item)?,
            Err(refusal) => return Err(Stop::Refused(refusal)),
        }
    }
    Ok(table)
}

/// The item that context `number` calls.
fn item_entered(
    context: &ContextSpec,
    number: u32,
    tables: &[Callables],
) -> Result<u32, LoadRefusal>
    requires { context.now.source < length tables.now }
    ensures { (all : List Interface) → AreTables tables.now all → result ≡ entry_item all number context.now }
{
    let source = context.source;
    match tables[source as usize].entry(context.entry.as_str()) {
        Some(item) => Ok(item),
        None => {
            let cause = LoadCause::NoSuchEntry { context: number };
            Err(LoadRefusal { source, cause })
        }
    }
}

/// The items that the contexts call, or the first context that is refused.
pub fn entries_of(
    alloc: Global,
    contexts: &[ContextSpec],
    tables: &[Callables],
) -> Result<Vec<u32>, Stop<LoadRefusal>>
    requires few { length contexts.now ≤ 16 }
    requires refers { AllByRecursion (λ c. c.source < length tables.now) contexts.now }
    ensures found { IfOk result (λ entries. (all : List Interface) → AreTables tables.now all →
        entries_from all 0 [] contexts.now ≡ Ok entries.items) }
    ensures refused { IfErr result (λ stop. (all : List Interface) → AreTables tables.now all →
        StopsWith (entries_from all 0 [] contexts.now) stop) }
{
    let mut entries = Vec::new(alloc);
    for (index, context) in contexts.iter().enumerate() {
        match item_entered(context, index as u32, tables) {
            Ok(item) => entries.push(item)?,
            Err(refusal) => return Err(Stop::Refused(refusal)),
        }
    }
    Ok(entries)
}
