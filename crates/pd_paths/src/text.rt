//! The text of a context's call tree.
ghost use Rattle.std.specs.Prelude.{◌≡◌, ◌++◌, string_bytes, OnOk, flat_map};
ghost use Rattle.pd_tree.specs.Kinds.{root_name_of};
ghost use Rattle.pd_tree.specs.Program.{node_at};
ghost use Rattle.pd_paths.specs.Text.{next_name, names_text, path_text, tree_text};

use crate::PathCount;
use pd_tree::{Kind, Program};
use pd_values::NodeId;
use std::alloc::AllocError;

// The name of the function or procedure that a node is; it is empty for another node.
fn root_name(program: &Program, root: NodeId) -> &str
    ensures { result.now ≡ root_name_of (node_at program.now root).kind }
{
    if root.0 >= program.nodes() {
        return "";
    }
    match program.kind(root) {
        Kind::SlFunction { name, .. } | Kind::PlProcedure { name, .. } => name.as_str(),
        _ => "",
    }
}

// Further names, each behind a slash.
fn push_further(text: &mut String, program: &Program, path: &[NodeId]) -> Result<(), AllocError>
    ensures { OnOk result (string_bytes text.new ≡ string_bytes text.old ++ flat_map (next_name program.now) path.now) }
{
    for root in path {
        text.push_str("/")?;
        text.push_str(root_name(program, *root))?;
    }
    Ok(())
}

// The names of a path, with slashes between them.
fn push_names(text: &mut String, program: &Program, path: &[NodeId]) -> Result<(), AllocError>
    ensures { OnOk result (string_bytes text.new ≡ string_bytes text.old ++ names_text program.now path.now) }
{
    match path.split_first() {
        Some((root, further)) => {
            text.push_str(root_name(program, *root))?;
            push_further(text, program, further)
        }
        None => Ok(()),
    }
}

fn push_path(text: &mut String, program: &Program, path: &PathCount) -> Result<(), AllocError>
    ensures { OnOk result (string_bytes text.new ≡ string_bytes text.old ++ path_text program.now path.now) }
{
    let (count, own) = (path.count, path.own);
    write!(text, "  {count} {own} ")?;
    push_names(text, program, path.path.as_slice())?;
    text.push_str("\n")
}

fn push_paths(text: &mut String, program: &Program, paths: &[PathCount]) -> Result<(), AllocError>
    ensures { OnOk result (string_bytes text.new ≡ string_bytes text.old ++ flat_map (path_text program.now) paths.now) }
{
    for path in paths {
        push_path(text, program, path)?;
    }
    Ok(())
}

/// Writes the call tree of a context behind a text: its number and that of its events, and then each path with its
/// numbers and the names of its functions and procedures. Where memory runs out it answers `AllocError`.
pub fn push_tree(
    text: &mut String,
    program: &Program,
    context: usize,
    events: u32,
    paths: &[PathCount],
) -> Result<(), AllocError>
    ensures { OnOk result (string_bytes text.new ≡ string_bytes text.old ++ tree_text program.now context events paths.now) }
{
    writeln!(text, "calltree {context} events {events}")?;
    push_paths(text, program, paths)
}
