//! From the name of a plan's file to the plan and its program.
ghost use Rattle.std.specs.Prelude.{◌≡◌, ◌≤◌, length, vec_len, IfOk, IfSome};
ghost use Rattle.pd_plan.specs.Sound.{IsSound};
ghost use Rattle.case_plans.specs.Entries.{HasEntries};

use pd_load::load;
use pd_outside::{FetchFault, FolderLibrary, Library};
use pd_plan::{Plan, SourceSpec};
use pd_plan_json::read_plan;
use pd_sections::{MOST_BYTES, Source, Stop};
use pd_tree::Program;
use std::alloc::{AllocError, Global};
use std::rt::Files;

/// A plan, its sources, and their program.
#[derive(Drop)]
pub struct Loaded {
    pub plan: Plan,
    pub sources: Vec<Source>,
    pub program: Program,
}

/// The bytes of a file; `None` where it can't be read.
fn bytes_of<L: Library>(
    alloc: Global,
    name: &str,
    files: &mut L,
) -> Result<Option<Vec<u8>>, AllocError>
    ensures { IfOk result (λ some. IfSome some (λ bytes. vec_len bytes ≤ MOST_BYTES)) }
{
    match files.fetch(alloc, name, MOST_BYTES as u32) {
        Ok(bytes) => Ok(Some(bytes)),
        Err(FetchFault::Failed) => Ok(None),
        Err(FetchFault::Memory) => Err(AllocError),
    }
}

/// A source; `None` where its file can't be read or is no text.
fn source_of<L: Library>(
    alloc: Global,
    spec: &SourceSpec,
    files: &mut L,
) -> Result<Option<Source>, AllocError> {
    let name = spec.name.as_str();
    let Some(bytes) = bytes_of(alloc, name, files)? else {
        return Ok(None);
    };
    match Source::new(alloc, String::from_str(alloc, name)?, bytes) {
        Ok(source) => Ok(Some(source)),
        Err(Stop::Refused(_)) => Ok(None),
        Err(Stop::Memory) => Err(AllocError),
    }
}

/// The sources of a plan, without those that can't be read or are no text.
fn sources_of<L: Library>(
    alloc: Global,
    specs: &[SourceSpec],
    files: &mut L,
) -> Result<Vec<Source>, AllocError> {
    let mut sources = Vec::new(alloc);
    for spec in specs {
        if let Some(source) = source_of(alloc, spec, files)? {
            sources.push(source)?;
        }
    }
    Ok(sources)
}

/// The program of these sources of a plan; `None` where one of them is missing or is refused.
fn program_of(alloc: Global, plan: &Plan, sources: &[Source]) -> Result<Option<Program>, AllocError>
    requires { IsSound plan.now }
    ensures { IfOk result (λ some. IfSome some (HasEntries plan.now)) }
{
    if sources.len() != plan.sources.as_slice().len() {
        return Ok(None);
    }
    match load(alloc, sources, plan) {
        Ok(program) => Ok(Some(program)),
        Err(Stop::Refused(_)) => Ok(None),
        Err(Stop::Memory) => Err(AllocError),
    }
}

/// The plan of a file; `None` where it can't be read or isn't one.
fn plan_of<L: Library>(alloc: Global, name: &str, files: &mut L) -> Result<Option<Plan>, AllocError>
    ensures { IfOk result (λ some. IfSome some IsSound) }
{
    let Some(bytes) = bytes_of(alloc, name, files)? else {
        return Ok(None);
    };
    match read_plan(alloc, bytes.as_slice()) {
        Ok(plan) => Ok(Some(plan)),
        Err(pd_values::Stop::Refused(_)) => Ok(None),
        Err(pd_values::Stop::Memory) => Err(AllocError),
    }
}

/// The plan of a file with the program of its sources, whose files lie beside it; `None` where a file can't be read, or
/// what it has is refused. The only error is `AllocError`, where memory runs out.
pub fn load_files<R: Files>(rt: &R, alloc: Global, name: &str) -> Result<Option<Loaded>, AllocError>
    ensures sound { IfOk result (λ some. IfSome some (λ it. IsSound it.plan)) }
    ensures entries { IfOk result (λ some. IfSome some (λ it. HasEntries it.plan it.program)) }
{
    let mut files = FolderLibrary::new(rt);
    let Some(plan) = plan_of(alloc, name, &mut files)? else {
        return Ok(None);
    };
    let sources = sources_of(alloc, plan.sources.as_slice(), &mut files)?;
    match program_of(alloc, &plan, sources.as_slice())? {
        Some(program) => Ok(Some(Loaded {
            plan,
            sources,
            program,
        })),
        None => Ok(None),
    }
}
