//! The files of a command.
ghost use Rattle.std.specs.Prelude.{◌≡◌, ◌≤◌, vec_len, IfOk, IfErr};
ghost use Rattle.pd_top.specs.Files.{read_between, IsGrown, IsShort, AreSources};
ghost use Rattle.pd_top.specs.Stops.{StopsFetch, StopsSources};

use crate::outcome::Outcome;
use pd_outside::{FetchFault, Library};
use pd_plan::SourceSpec;
use pd_sections::MOST_BYTES;
use pd_values::Text;
use std::alloc::{AllocError, Global};
use std::marker::Model;

/// A source that was read: its name and its bytes, at most `MOST_BYTES` of them.
#[derive(Drop)]
pub(crate) struct File {
    pub(crate) name: String,
    pub(crate) bytes: Vec<u8>,
}

impl Model for File {
    ghost use Rattle.std.specs.Prelude.{string_bytes, vec_len, ◌≤◌};
    ghost use Rattle.pd_sections.specs.Written.{Written};

    ghost Value = { Written };

    ghost view = { λ file. record { name = string_bytes file.name; bytes = file.bytes.items } };

    ghost invariant = { λ file. vec_len file.bytes ≤ 1048576 };
}

// The most bytes of a file that are asked for: one more than a plan or source may have.
const MOST_FETCHED: u32 = 1_048_577;

fn named(alloc: Global, name: &str) -> Result<Text, AllocError>
    ensures { IfOk result (λ text. text ≡ name.now) }
{
    Ok(Text::of(String::from_str(alloc, name)?))
}

/// The bytes of the file, at most 1,048,576: as many as a plan or source may have.
pub(crate) fn fetched<L: Library>(
    alloc: Global,
    name: &str,
    files: &mut L,
) -> Result<Vec<u8>, Outcome>
    ensures content { IfOk result (λ bytes. IsShort (read_between L.held L.given files.old files.new) name.now bytes.items) }
    ensures short { IfOk result (λ bytes. vec_len bytes ≤ 1048576) }
    ensures stopped { IfErr result (StopsFetch (read_between L.held L.given files.old files.new) name.now (L.faults files.old) (L.faults files.new) (L.last_fault files.new)) }
    ensures held { L.held files.new ≡ L.held files.old }
    ensures given { IsGrown (L.given files.old) (L.given files.new) }
    ensures count { L.faults files.old ≤ L.faults files.new }
{
    let bytes = match files.fetch(alloc, name, MOST_FETCHED) {
        Ok(bytes) => bytes,
        Err(FetchFault::Memory) => return Err(Outcome::Memory),
        Err(FetchFault::Failed) => return Err(Outcome::Unreadable(named(alloc, name)?)),
    };
    if bytes.len() > MOST_BYTES {
        return Err(Outcome::TooLong(named(alloc, name)?));
    }
    Ok(bytes)
}

// The file of this name, with its bytes.
fn file_named<L: Library>(alloc: Global, name: &str, files: &mut L) -> Result<File, Outcome>
    ensures name { IfOk result (λ file. file.name ≡ name.now) }
    ensures content { IfOk result (λ file. IsShort (read_between L.held L.given files.old files.new) name.now file.bytes) }
    ensures stopped { IfErr result (StopsFetch (read_between L.held L.given files.old files.new) name.now (L.faults files.old) (L.faults files.new) (L.last_fault files.new)) }
    ensures held { L.held files.new ≡ L.held files.old }
    ensures given { IsGrown (L.given files.old) (L.given files.new) }
    ensures count { L.faults files.old ≤ L.faults files.new }
{
    let bytes = fetched(alloc, name, files)?;
    let name = String::from_str(alloc, name)?;
    Ok(File { name, bytes })
}

/// The files of these sources, read in their order.
pub(crate) fn files_of<L: Library>(
    alloc: Global,
    sources: &[SourceSpec],
    files: &mut L,
) -> Result<Vec<File>, Outcome>
    ensures sources { IfOk result (λ read. AreSources (read_between L.held L.given files.old files.new) sources.now read.items) }
    ensures stopped { IfErr result (StopsSources (read_between L.held L.given files.old files.new) sources.now (L.faults files.old) (L.faults files.new) (L.last_fault files.new)) }
    ensures held { L.held files.new ≡ L.held files.old }
    ensures given { IsGrown (L.given files.old) (L.given files.new) }
    ensures count { L.faults files.old ≤ L.faults files.new }
{
    let mut read = Vec::new(alloc);
    for source in sources {
        read.push(file_named(alloc, source.name.as_str(), files)?)?;
    }
    Ok(read)
}
