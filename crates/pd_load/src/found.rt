//! The items that the names in the trees mean.
ghost use Rattle.std.specs.Prelude.{◌≡◌, ℕ, ◌+◌, ◌<◌, ◌≤◌, ◌^◌, List, ◌++◌, length, Option, Some, OnOk, IfOk};
ghost use Rattle.pd_tree.specs.Linked.{joined};
ghost use Rattle.pd_load.specs.Names as definition;
ghost use Rattle.pd_load.specs.Names.{Symbol};
ghost use Rattle.pd_load.specs.Scopes.{IsScope};
ghost use Rattle.pd_load.specs.Linked.{interfaces, all_found};
ghost use Rattle.pd_plan.specs.declared.plan.Language.{Language};
ghost use Rattle.pd_load.specs.Tables.{IsTable, IsInterface, AreTables};

use crate::names::{Callables, Table, item_of, next_item};
use crate::scope::Scope;
use pd_plan::SourceSpec;
use pd_tree::{Addition, Kind, Meaning, Tree};
use std::alloc::{AllocError, Global};

/// The item of the built-in `println`.
const PRINTLN: u32 = 0;

/// The item that a name of SL means where it is no variable.
fn sl_item(own: &Table, exports: &Table, name: &str) -> Option<u32>
    ensures { (mine : List Symbol) → IsTable own.now mine → (shared : List Symbol) → IsTable exports.now shared →
        result ≡ definition.sl_item mine shared name.now }
{
    match item_of(own, name) {
        Some(item) => Some(item),
        None if name == "println" => Some(PRINTLN),
        None => item_of(exports, name),
    }
}

/// The item found for a node of SL.
fn sl_found(own: &Table, exports: &Table, node: &Addition) -> Option<u32>
    ensures { (mine : List Symbol) → IsTable own.now mine → (shared : List Symbol) → IsTable exports.now shared →
        result ≡ definition.sl_found mine shared node.now.kind node.now.meaning }
{
    match &node.kind {
        Kind::SlName(name) => match node.meaning {
            Meaning::Nothing => sl_item(own, exports, name.as_str()),
            _ => None,
        },
        _ => None,
    }
}

fn add_sl(
    own: &Table,
    exports: &Table,
    tree: &[Addition],
    found: &mut Vec<Option<u32>>,
) -> Result<(), AllocError>
    ensures { OnOk result ((mine : List Symbol) → IsTable own.now mine → (shared : List Symbol) → IsTable exports.now shared →
        found.new.items ≡ found.old.items ++ definition.sl_all_found mine shared tree.now) }
{
    for node in tree {
        found.push(sl_found(own, exports, node))?;
    }
    Ok(())
}

/// The item found for a node of PL/0.
fn pl0_found(scope: &Scope, exports: &Table, kind: &Kind) -> Option<u32>
    ensures { (s : definition.Scope) → IsScope scope.now s → (shared : List Symbol) → IsTable exports.now shared →
        result ≡ definition.pl0_found s.visible shared kind.now }
{
    match kind {
        Kind::PlCall(name) => match scope.find(name.as_str()) {
            Some(item) => Some(item),
            None => item_of(exports, name.as_str()),
        },
        _ => None,
    }
}

/// Adds for each node of a source of PL/0, whose first item has this number, the item that was found for it.
fn add_pl0(
    alloc: Global,
    first: u32,
    exports: &Table,
    tree: &[Addition],
    found: &mut Vec<Option<u32>>,
) -> Result<(), AllocError>
    requires { first + length tree.now < 2 ^ 32 }
    ensures { OnOk result ((shared : List Symbol) → IsTable exports.now shared →
        found.new.items ≡ found.old.items ++ definition.pl0_all_found shared first definition.no_scope tree.now) }
{
    let mut scope = Scope::new(alloc);
    let mut item = first;
    for node in tree {
        found.push(pl0_found(&scope, exports, &node.kind))?;
        scope.pass(node, item)?;
        item = next_item(&node.kind, item);
    }
    Ok(())
}

/// Adds for each node of a source the item that was found for it, if one was. A main block is the first item of its
/// source.
fn add_found(
    alloc: Global,
    own: &Callables,
    exports: &Table,
    tree: &[Addition],
    found: &mut Vec<Option<u32>>,
) -> Result<(), AllocError>
    requires { (first : ℕ) → own.now.main ≡ Some first → first + length tree.now < 2 ^ 32 }
    ensures { OnOk result ((language : Language) → (first : ℕ) → IsInterface own.now (definition.interface_of language first tree.now) →
        (shared : List Symbol) → IsTable exports.now shared →
        found.new.items ≡ found.old.items ++ definition.found_in language shared first tree.now) }
{
    match own.main {
        None => add_sl(&own.symbols, exports, tree, found),
        Some(main) => add_pl0(alloc, main, exports, tree, found),
    }
}

/// For each node of all sources the item that was found for it, if one was.
pub fn found_for(
    alloc: Global,
    specs: &[SourceSpec],
    trees: &[Tree],
    tables: &[Callables],
    exports: &Table,
) -> Result<Vec<Option<u32>>, AllocError>
    requires each { length trees.now ≡ length specs.now }
    requires few { length (joined trees.now) ≤ 65536 }
    requires counted { length tables.now ≡ length specs.now }
    requires tables { AreTables tables.now (interfaces 1 specs.now trees.now) }
    ensures { IfOk result (λ found. (shared : List Symbol) → IsTable exports.now shared →
        found.items ≡ all_found shared 1 specs.now trees.now) }
{
    let mut found = Vec::new(alloc);
    for (index, tree) in trees.iter().enumerate() {
        add_found(alloc, &tables[index], exports, tree.additions(), &mut found)?;
    }
    Ok(found)
}
