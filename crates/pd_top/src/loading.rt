//! From the files of a plan to its sources.
ghost use Rattle.std.specs.Prelude.{◌≡◌, ◌≤◌, length, IfOk, OnOk, IfErr};
ghost use Rattle.std.specs.List.{AllByRecursion};
ghost use Rattle.pd_load.specs.Tables.{IsText};
ghost use Rattle.pd_top.specs.Files.{read_between, IsGrown, AreSources};
ghost use Rattle.pd_top.specs.Causes.{AreGiven};
ghost use Rattle.pd_top.specs.Stops.{AreFit, StopsSource, StopsTexts, StopsReading, StopsGiving};

use crate::files::{File, files_of};
use crate::outcome::Outcome;
use pd_load::{LoadCause, LoadRefusal};
use pd_outside::Library;
use pd_plan::Plan;
use pd_sections::{NotUtf8, Source, Stop};
use pd_values::Items;
use std::alloc::Global;

// The source of this number, made of its file. A source's bytes are UTF-8.
fn source_of(alloc: Global, number: u32, file: File) -> Result<Source, Stop<LoadRefusal>>
    ensures source { IfOk result (λ source. source ≡ file) }
    ensures text { OnOk result (IsText file) }
    ensures refused { IfErr result (StopsSource number file) }
{
    match Source::new(alloc, file.name, file.bytes) {
        Ok(source) => Ok(source),
        Err(Stop::Memory) => Err(Stop::Memory),
        Err(Stop::Refused(NotUtf8 { at })) => Err(Stop::Refused(LoadRefusal {
            source: number,
            cause: LoadCause::NotUtf8 { at },
        })),
    }
}

// The sources of these files, in their order, or the first whose bytes aren't UTF-8.
fn sources_of(alloc: Global, files: Vec<File>) -> Result<Vec<Source>, Stop<LoadRefusal>>
    requires few { length files.items ≤ 16 }
    ensures sources { IfOk result (λ sources. sources.items ≡ files.items) }
    ensures texts { OnOk result (AllByRecursion IsText files.items) }
    ensures refused { IfErr result (StopsTexts files.items) }
{
    let mut sources = Vec::new(alloc);
    for file in files {
        let number = sources.len() as u32;
        sources.push(source_of(alloc, number, file)?)?;
    }
    Ok(sources)
}

// The sources of a plan, read from their files in the plan's order.
fn read_sources<L: Library>(
    alloc: Global,
    plan: &Plan,
    files: &mut L,
) -> Result<Items<Source>, Outcome>
    requires few { length plan.now.sources ≤ 16 }
    ensures sources { IfOk result (AreSources (read_between L.held L.given files.old files.new) plan.now.sources) }
    ensures each { IfOk result (λ sources. length sources ≡ length plan.now.sources) }
    ensures texts { IfOk result (AllByRecursion IsText) }
    ensures stopped { IfErr result (StopsReading (read_between L.held L.given files.old files.new) plan.now.sources (L.faults files.old) (L.faults files.new) (L.last_fault files.new)) }
    ensures held { L.held files.new ≡ L.held files.old }
    ensures given { IsGrown (L.given files.old) (L.given files.new) }
    ensures count { L.faults files.old ≤ L.faults files.new }
{
    let read = files_of(alloc, plan.sources.as_slice(), files)?;
    match sources_of(alloc, read) {
        Ok(sources) => Ok(Items::of(sources)),
        Err(Stop::Refused(refusal)) => Err(Outcome::SourceRefused(refusal)),
        Err(Stop::Memory) => Err(Outcome::Memory),
    }
}

/// The sources of a plan, in its order: those that are made already, or else those of its files.
pub(crate) fn sources_for<L: Library>(
    alloc: Global,
    plan: &Plan,
    made: Option<Items<Source>>,
    files: &mut L,
) -> Result<Items<Source>, Outcome>
    requires few { length plan.now.sources ≤ 16 }
    requires fit { AreFit plan.now made }
    ensures sources { IfOk result (AreGiven (read_between L.held L.given files.old files.new) made plan.now.sources) }
    ensures each { IfOk result (λ sources. length sources ≡ length plan.now.sources) }
    ensures texts { IfOk result (AllByRecursion IsText) }
    ensures stopped { IfErr result (StopsGiving (read_between L.held L.given files.old files.new) made plan.now.sources (L.faults files.old) (L.faults files.new) (L.last_fault files.new)) }
    ensures held { L.held files.new ≡ L.held files.old }
    ensures given { IsGrown (L.given files.old) (L.given files.new) }
    ensures count { L.faults files.old ≤ L.faults files.new }
{
    match made {
        Some(sources) => Ok(sources),
        None => read_sources(alloc, plan, files),
    }
}
