//! Tables of names.
ghost use Rattle.std.specs.Prelude.{◌≡◌, ℕ, ◌+◌, ◌<◌, ◌≤◌, ◌^◌, [], ◌∷◌, length, List, OnOk, IfOk};
ghost use Rattle.std.specs.BTreeMap.{get_by_text};
ghost use Rattle.pd_load.specs.Names as definition;
ghost use Rattle.pd_load.specs.Names.{Symbol, Interface};
ghost use Rattle.pd_tree.specs.Linked.{joined};
ghost use Rattle.pd_load.specs.Linked.{interfaces};
ghost use Rattle.pd_load.specs.Tables.{IsTable, IsInterface, AreTables, Gains};
ghost use Rattle.pd_load.specs.Scopes.{IsScope};

use crate::scope::Scope;
use pd_plan::{Language, SourceSpec};
use pd_tree::{Addition, Kind, Tree};
use std::alloc::{AllocError, Global};
use std::collections::BTreeMap;

/// The items that names mean.
pub type Table = BTreeMap<String, u32>;

/// What can be called from outside a source: its main block, where it has one, and functions and procedures by their
/// names.
#[derive(Drop)]
pub struct Callables {
    pub main: Option<u32>,
    pub symbols: Table,
}

impl Callables {
    /// The item that a context calls by this name.
    pub fn entry(&self, name: &str) -> Option<u32>
        ensures { (i : Interface) → IsInterface self.now i → result ≡ definition.entry_in i name.now }
    {
        match self.main {
            Some(main) if name == "main" => Some(main),
            _ => item_of(&self.symbols, name),
        }
    }
}

/// The item of a name.
pub fn item_of(table: &Table, name: &str) -> Option<u32>
    ensures { result ≡ get_by_text table.now name.now }
{
    table.get(name).copied()
}

/// Makes a name mean this item, and no longer any earlier one.
pub fn define(alloc: Global, table: &mut Table, name: &str, item: u32) -> Result<(), AllocError>
    ensures { OnOk result (Gains table.old table.new (record { name = name.now; item = item } ∷ [])) }
{
    let key = String::from_str(alloc, name)?;
    table.insert(key, item)?;
    Ok(())
}

/// Defines the function that a node of SL may be, which is the item of this number; gives the number of the next item.
fn define_function(
    alloc: Global,
    table: &mut Table,
    kind: &Kind,
    item: u32,
) -> Result<u32, AllocError>
    requires { item + 1 < 2 ^ 32 }
    ensures gains { OnOk result (Gains table.old table.new (definition.function_symbol kind.now item [])) }
    ensures next { IfOk result (λ n. n ≡ definition.next_item kind.now item) }
{
    match kind {
        Kind::SlFunction { name, .. } => {
            define(alloc, table, name.as_str(), item)?;
            Ok(item + 1)
        }
        Kind::PlProcedure { .. } => Ok(item + 1),
        _ => Ok(item),
    }
}

/// The functions of a source of SL, whose first item has this number, and the number of the next item.
pub fn functions(alloc: Global, tree: &[Addition], first: u32) -> Result<(Table, u32), AllocError>
    requires { first + length tree.now < 2 ^ 32 }
    ensures table { IfOk result (λ r. IsTable r.0 (definition.functions first tree.now)) }
    ensures next { IfOk result (λ r. r.1 ≡ definition.item_behind first tree.now) }
{
    let mut table = BTreeMap::new(alloc);
    let mut item = first;
    for addition in tree {
        item = define_function(alloc, &mut table, &addition.kind, item)?;
    }
    Ok((table, item))
}

/// Defines the procedure that a node of PL/0 may be, which is the item of this number, if it is declared directly in the
/// main block.
fn define_procedure(
    alloc: Global,
    table: &mut Table,
    scope: &Scope,
    kind: &Kind,
    item: u32,
) -> Result<(), AllocError>
    ensures { OnOk result ((s : definition.Scope) → IsScope scope.now s
        → Gains table.old table.new (definition.procedure_symbol kind.now item s.unfinished [])) }
{
    if let Kind::PlProcedure { name, .. } = kind {
        if scope.is_in_main() {
            let name = name.as_str();
            define(alloc, table, name, item)?;
        }
    }
    Ok(())
}

/// The number of the next item after a node, where the node is the item of this number if it is one.
pub fn next_item(kind: &Kind, item: u32) -> u32
    requires { item + 1 < 2 ^ 32 }
    ensures { result ≡ definition.next_item kind.now item }
{
    match kind {
        Kind::SlFunction { .. } | Kind::PlProcedure { .. } => item + 1,
        _ => item,
    }
}

/// The procedures that are declared directly in the main block of a source of PL/0, whose first item has this number, and
/// the number of the next item.
fn procedures(alloc: Global, tree: &[Addition], first: u32) -> Result<(Table, u32), AllocError>
    requires { first + length tree.now < 2 ^ 32 }
    ensures table { IfOk result (λ r. IsTable r.0 (definition.procedures first definition.no_scope tree.now)) }
    ensures next { IfOk result (λ r. r.1 ≡ definition.item_behind first tree.now) }
{
    let mut table = BTreeMap::new(alloc);
    let mut scope = Scope::new(alloc);
    let mut item = first;
    for addition in tree {
        define_procedure(alloc, &mut table, &scope, &addition.kind, item)?;
        scope.pass(addition, item)?;
        item = next_item(&addition.kind, item);
    }
    Ok((table, item))
}

/// What can be called from outside a source, whose first item has this number, and the number of the next item.
fn callables_of(
    alloc: Global,
    language: Language,
    tree: &[Addition],
    first: u32,
) -> Result<(Callables, u32), AllocError>
    requires { first + length tree.now < 2 ^ 32 }
    ensures table { IfOk result (λ r. IsInterface r.0 (definition.interface_of language first tree.now)) }
    ensures next { IfOk result (λ r. r.1 ≡ definition.item_behind first tree.now) }
{
    match language {
        Language::Sl => {
            let (symbols, next) = functions(alloc, tree, first)?;
            let main = None;
            Ok((Callables { main, symbols }, next))
        }
        Language::Pl0 => {
            let (symbols, next) = procedures(alloc, tree, first)?;
            let main = Some(first);
            Ok((Callables { main, symbols }, next))
        }
    }
}

/// What can be called from outside each source. Items are numbered over all sources, from 1 on.
pub fn tables_of(
    alloc: Global,
    specs: &[SourceSpec],
    trees: &[Tree],
) -> Result<Vec<Callables>, AllocError>
    requires each { length trees.now ≡ length specs.now }
    requires few { length (joined trees.now) ≤ 65536 }
    ensures tables { IfOk result (λ tables. AreTables tables.items (interfaces 1 specs.now trees.now)) }
    ensures counted { IfOk result (λ tables. length tables.items ≡ length specs.now) }
{
    let mut tables = Vec::new(alloc);
    let mut first = 1;
    for (number, tree) in trees.iter().enumerate() {
        let (table, next) = callables_of(alloc, specs[number].language, tree.additions(), first)?;
        tables.push(table)?;
        first = next;
    }
    Ok(tables)
}
