//! The sources of the workload.
ghost use Rattle.std.specs.Prelude.{◌≡◌, ◌≤◌, length, [], ◌∷◌, IfOk, string_bytes, codes};
ghost use Rattle.std.specs.List.{AllByRecursion};
ghost use Rattle.std.specs.Str.{IsUtf8};
ghost use Rattle.pd_gen.specs.Workload.{sl_text, pl0_text, sl_source, pl0_source, workload_sources};

use crate::lines::{push_functions, push_main};
use crate::lists::two;
use pd_sections::{Source, Stop};
use pd_values::Items;
use std::alloc::{AllocError, Global};

// The number of the last function.
const LAST_FUNCTION: u32 = 199;

// The source of this name with this text.
fn source_of(alloc: Global, name: &str, text: String) -> Result<Source, AllocError>
    requires { length (string_bytes text) ≤ 1048576 }
    ensures source { IfOk result (λ source. source ≡ record { name = name.now; bytes = string_bytes text }) }
    ensures text { IfOk result (λ source. IsUtf8 source.bytes) }
{
    let name = String::from_str(alloc, name)?;
    match Source::new(alloc, name, text.into_bytes()) {
        Ok(source) => Ok(source),
        Err(Stop::Memory) => Err(AllocError),
        Err(Stop::Refused(_)) => unreachable!(),
    }
}

// The text of the source of SL.
fn sl_text(alloc: Global, number: u32) -> Result<String, AllocError>
    ensures { IfOk result (λ text. string_bytes text ≡ sl_text number) }
{
    let mut text = String::new(alloc);
    push_functions(&mut text, number, LAST_FUNCTION)?;
    push_main(&mut text)?;
    Ok(text)
}

// The text of the source of PL/0: a procedure that gives its argument.
fn pl0_text(alloc: Global) -> Result<String, AllocError>
    ensures { IfOk result (λ text. string_bytes text ≡ pl0_text) }
{
    String::from_str(alloc, "procedure pass; var v; v := v;\n.\n")
}

// The first source.
fn sl_source(alloc: Global, number: u32) -> Result<Source, AllocError>
    ensures source { IfOk result (λ source. source ≡ sl_source number) }
    ensures text { IfOk result (λ source. IsUtf8 source.bytes) }
{
    let text = sl_text(alloc, number)?;
    source_of(alloc, "gen.sl", text)
}

// The second source.
fn pl0_source(alloc: Global) -> Result<Source, AllocError>
    ensures source { IfOk result (λ source. source ≡ pl0_source) }
    ensures text { IfOk result (λ source. IsUtf8 source.bytes) }
{
    let text = pl0_text(alloc)?;
    source_of(alloc, "gen.pl0", text)
}

/// The sources of the workload of a number, in the order of its plan.
pub(crate) fn workload_sources(alloc: Global, number: u32) -> Result<Items<Source>, AllocError>
    ensures sources { IfOk result (λ sources. sources ≡ workload_sources number) }
    ensures texts { IfOk result (λ sources. AllByRecursion (λ source. IsUtf8 source.bytes) sources) }
{
    let sl = sl_source(alloc, number)?;
    let pl0 = pl0_source(alloc)?;
    two(alloc, sl, pl0)
}
