//! A run as it begins.
ghost use Rattle.std.specs.Prelude.{◌≡◌, [], ℕ, map, IfOk};
ghost use Rattle.pd_tree.specs.Program.{node_at};
ghost use Rattle.pd_meaning.specs.Meaning.{entry_frame, is_main_block, main_variables, opening};
ghost use Rattle.pd_meaning.specs.Machine.{start};
ghost use Rattle.pd_meaning.specs.Steps.{with_events};

use pd_cross::{filled, first_variables, frame_for, level_of, slots_of, source_of};
use pd_machine::{Frame, Home, Machine};
use pd_tree::{Kind, Program};
use pd_values::{Items, NodeId, Value};
use std::alloc::{AllocError, Global};

/// A machine that begins with the root, called without arguments.
pub fn open_machine(
    alloc: Global,
    program: &Program,
    root: NodeId,
    fuel: u32,
) -> Result<Machine, AllocError>
    ensures begun { IfOk result (λ m. with_events m [] ≡ start program.now fuel root) }
    ensures told { IfOk result (λ m. m.told ≡ 0) }
    ensures fuel { IfOk result (λ m. m.fuel ≡ fuel) }
{
    let frame = first_frame(alloc, program, root)?;
    let mains = main_blocks(alloc, program)?;
    Machine::new(alloc, frame, mains, fuel)
}

/// The frame of the entry; the variables of a main block stand in the context.
fn first_frame(alloc: Global, program: &Program, root: NodeId) -> Result<Frame, AllocError>
    ensures { IfOk result (λ f. (fuel : ℕ) → f ≡ entry_frame root (node_at program.now root) (opening program.now fuel)) }
{
    if is_main_block(program, root) {
        let mut blocks = Vec::new(alloc);
        blocks.push(Home::InMain(source_of(program, root)))?;
        return Ok(Frame {
            root,
            at: root,
            variables: Items::of(Vec::new(alloc)),
            blocks: Items::of(blocks),
        });
    }
    let variables = match first_variables(alloc, program, root, &[])? {
        Ok(variables) => variables,
        Err(_) => Items::of(Vec::new(alloc)),
    };
    frame_for(alloc, program, root, variables, 0, &[])
}

/// Whether a root is a main block.
#[tactic(auto, using(std::proofs::lemmas::List::get_or_past))]
fn is_main_block(program: &Program, root: NodeId) -> bool
    ensures { result ≡ is_main_block (node_at program.now root).kind (node_at program.now root).level }
{
    if root.0 >= program.nodes() {
        return false;
    }
    match program.kind(root) {
        Kind::PlProcedure { .. } => level_of(program, root) == 0,
        _ => false,
    }
}

/// The variables of the main block of each source: 0 as the run begins.
fn main_blocks(alloc: Global, program: &Program) -> Result<Vec<Items<Value>>, AllocError>
    ensures { IfOk result (λ v. v.items ≡ map (main_variables program.now) program.now.mains) }
{
    let mut blocks = Vec::new(alloc);
    for main in program.mains() {
        blocks.push(main_block(alloc, program, *main)?)?;
    }
    Ok(blocks)
}

/// The variables of a main block, each 0; none where there is no main block.
fn main_block(
    alloc: Global,
    program: &Program,
    main: Option<u32>,
) -> Result<Items<Value>, AllocError>
    ensures { IfOk result (λ xs. xs ≡ main_variables program.now main) }
{
    match main {
        Some(root) => {
            let count = slots_of(program, NodeId(root)) as usize;
            filled(Vec::new(alloc), count, &Value::Number(0))
        }
        None => Ok(Items::of(Vec::new(alloc))),
    }
}
