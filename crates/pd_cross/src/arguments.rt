//! The variables with which a callee begins.
ghost use Rattle.std.specs.Prelude.{◌≡◌, ◌∷◌, [], drop, position, bytes_eq, slice_set, IfOk};
ghost use Rattle.pd_tree.specs.Program.{node_at};
ghost use Rattle.pd_meaning.specs.Meaning as rule;

use crate::items::{parameters_of, slots_of};
use pd_tree::Program;
use pd_values::{Fault, Items, NodeId, Text, Value};
use std::alloc::{AllocError, Global};

/// The variables with which a callee begins: an SL function's parameters, where a missing argument is NULL and
/// one too many is dropped, and then NULL; a procedure's first variables from the arguments, and then 0.
/// `CrossArity` where a procedure has fewer variables than there are arguments, and then `CrossType` where one
/// of them isn't a number.
pub fn first_variables(
    alloc: Global,
    program: &Program,
    root: NodeId,
    arguments: &[Value],
) -> Result<Result<Items<Value>, Fault>, AllocError>
    ensures { IfOk result (λ r. r ≡ rule.first_variables (node_at program.now root) arguments.now) }
{
    let slots = slots_of(program, root) as usize;
    if let Some(parameters) = parameters_of(program, root) {
        let values = parameter_values(alloc, parameters, arguments)?;
        return Ok(Ok(filled(values, slots, &Value::Null)?));
    }
    if slots < arguments.len() {
        return Ok(Err(Fault::CrossArity));
    }
    if !all_numbers(arguments) {
        return Ok(Err(Fault::CrossType));
    }
    let values = copied(alloc, arguments)?;
    Ok(Ok(filled(values, slots, &Value::Number(0))?))
}

/// The values of an SL function's parameters: a missing argument is NULL, one too many is dropped, and a
/// parameter that is named twice is one variable, set by the later argument.
fn parameter_values(
    alloc: Global,
    parameters: &[Text],
    arguments: &[Value],
) -> Result<Vec<Value>, AllocError>
    ensures { IfOk result (λ v. v.items ≡ rule.parameter_values [] [] parameters.now arguments.now) }
{
    let mut names: Vec<&Text> = Vec::new(alloc);
    let mut values = Vec::new(alloc);
    for (i, name) in parameters.iter().enumerate() {
        let value = argument(arguments, i)?;
        match place_of(names.as_slice(), name) {
            Some(k) => put(&mut values, k, value),
            None => {
                names.push(name)?;
                values.push(value)?;
            }
        }
    }
    Ok(values)
}

/// A copy of the argument at a place, or NULL where there is none.
fn argument(arguments: &[Value], i: usize) -> Result<Value, AllocError>
    ensures { IfOk result (λ a. a ≡ rule.first_or_null (drop i arguments.now)) }
{
    match arguments.get(i) {
        Some(value) => value.copy(),
        None => Ok(Value::Null),
    }
}

/// Puts a value at a place; past the end nothing changes.
fn put(values: &mut Vec<Value>, k: usize, value: Value)
    ensures { values.new.items ≡ slice_set values.old.items k value }
{
    if k < values.len() {
        values[k] = value;
    }
}

/// The first place of a name among names.
fn place_of(names: &[&Text], name: &Text) -> Option<usize>
    ensures { result ≡ position (λ r. bytes_eq name.now r.now) names.now }
{
    names.iter().position(|x| name.as_str() == x.as_str())
}

/// Whether each value is a number.
fn all_numbers(values: &[Value]) -> bool
    ensures { result ≡ rule.all_numbers values.now }
{
    for value in values {
        if !is_number(value) {
            return false;
        }
    }
    true
}

fn is_number(value: &Value) -> bool
    ensures { result ≡ rule.all_numbers (value.now ∷ []) }
{
    matches!(value, Value::Number(_))
}

/// Second values with the same content.
fn copied(alloc: Global, values: &[Value]) -> Result<Vec<Value>, AllocError>
    ensures { IfOk result (λ v. v.items ≡ values.now) }
{
    let mut copies = Vec::with_capacity(alloc, values.len())?;
    for value in values {
        copies.push(value.copy()?)?;
    }
    Ok(copies)
}

/// The values, filled up to so many with a value.
pub fn filled(values: Vec<Value>, size: usize, value: &Value) -> Result<Items<Value>, AllocError>
    ensures { IfOk result (λ xs. xs ≡ rule.filled size value.now values.items) }
{
    let mut all = values;
    while all.len() < size {
        all.push(value.copy()?)?;
    }
    Ok(Items::of(all))
}
