//! `pd_top`: runs whose writes fail, and the workloads that differ.
use pd_outside::{MemoryLibrary, MemorySink, OpenGate};
use pd_top::run;
use std::alloc::{AllocError, Global};
use std::test::Fail;
use std::thread::Threads;

fn strings(alloc: Global, words: &[&str]) -> Result<Vec<String>, AllocError> {
    let mut all = Vec::new(alloc);
    for word in words {
        all.push(String::from_str(alloc, word)?)?;
    }
    Ok(all)
}

/// A program whose transcript is a text of three pieces.
fn three_pieces(alloc: Global) -> Result<Vec<u8>, AllocError> {
    let mut source = String::from_str(alloc, "function main() {\n")?;
    for _ in 0..150 {
        source.push_str("println(123456 + 654321);\n")?;
    }
    source.push_str("}\n")?;
    source.as_bytes().to_vec(alloc)
}

fn status(
    rt: &(impl Threads + Sync),
    alloc: Global,
    words: &[String],
    files: &mut MemoryLibrary,
    out: &mut MemorySink,
) -> u8 {
    run(rt, alloc, words, files, out, &OpenGate).status()
}

/// The status, and what the sink has taken, where the write of this number fails.
fn taken(
    rt: &(impl Threads + Sync),
    alloc: Global,
    write: u32,
) -> Result<(u8, Vec<u8>), AllocError> {
    let words = strings(alloc, &["trace", "main.sl"])?;
    let mut held = Vec::new(alloc);
    held.push((String::from_str(alloc, "main.sl")?, three_pieces(alloc)?))?;
    let mut files = MemoryLibrary::new(held, Vec::new(alloc));
    let mut out = MemorySink::new(alloc, 20_000, [write].to_vec(alloc)?)?;
    let status = status(rt, alloc, words.as_slice(), &mut files, &mut out);
    Ok((status, out.bytes().to_vec(alloc)?))
}

#[test]
fn failing_writes_are_answered(rt: HostRuntime) -> Result<(), Fail> {
    let alloc = rt.alloc();
    let (status, whole) = taken(&rt, alloc, 9)?;
    assert_eq!(rt; status, 0);
    assert!(rt; whole.len() > 8192 && whole.len() <= 12288);
    for (write, pieces) in [(0, 0), (1, 4096), (2, 8192)] {
        let (status, part) = taken(&rt, alloc, write)?;
        assert_eq!(rt; status, 5);
        assert!(rt; pieces <= whole.len());
        assert_eq!(rt; part.as_slice(), &whole.as_slice()[..pieces]);
    }
    Ok(())
}

const BRANCH: &str = "function main() {\n  if (1 == 2) {\n    println(1);\n  }\n  println(2);\n}\n";

const PLAN: &str =
    "{\"version\":1,\"sources\":[{\"name\":\"main.sl\",\"language\":\"sl\"}],\"contexts\":[{\"source\":0}],\
\"bindings\":[{\"kind\":\"observe\",\"filter\":{\"tags\":[\"Statement\"]}}],\"sessions\":[{\"before\":[0]}]}";

/// The status of `coverage`, and what the sink has taken, where the write of this number fails.
fn covered(
    rt: &(impl Threads + Sync),
    alloc: Global,
    write: u32,
) -> Result<(u8, Vec<u8>), AllocError> {
    let words = strings(alloc, &["coverage", "plan.json", "0"])?;
    let mut held = Vec::new(alloc);
    held.push((
        String::from_str(alloc, "plan.json")?,
        PLAN.as_bytes().to_vec(alloc)?,
    ))?;
    held.push((
        String::from_str(alloc, "main.sl")?,
        BRANCH.as_bytes().to_vec(alloc)?,
    ))?;
    let mut files = MemoryLibrary::new(held, Vec::new(alloc));
    let mut out = MemorySink::new(alloc, 20_000, [write].to_vec(alloc)?)?;
    let status = status(rt, alloc, words.as_slice(), &mut files, &mut out);
    Ok((status, out.bytes().to_vec(alloc)?))
}

#[test]
fn coverage_is_written_or_the_write_fails(rt: HostRuntime) -> Result<(), Fail> {
    let alloc = rt.alloc();
    let (status, whole) = covered(&rt, alloc, 9)?;
    assert_eq!(rt; status, 0);
    let text = "coverage 0 source 0 main.sl statements 2/3 lines 2/3\n  missed 3\n\
                coverage all source 0 main.sl statements 2/3 lines 2/3\n  missed 3\n";
    assert_eq!(rt; whole.as_slice(), text.as_bytes());
    let (status, none) = covered(&rt, alloc, 0)?;
    assert_eq!(rt; status, 5);
    assert!(rt; none.is_empty());
    Ok(())
}

/// Whether `gen` of this number writes the summary of a workload whose last line is this.
fn has_summary(
    rt: &(impl Threads + Sync),
    alloc: Global,
    number: &str,
    last: &str,
) -> Result<bool, AllocError> {
    let words = strings(alloc, &["gen", number])?;
    let mut files = MemoryLibrary::new(Vec::new(alloc), Vec::new(alloc));
    let mut out = MemorySink::new(alloc, 1_000, Vec::new(alloc))?;
    let status = status(rt, alloc, words.as_slice(), &mut files, &mut out);
    let mut text = String::new(alloc);
    write!(text, "gen {number}\ncontexts 4 done 4\nevents 885256\n")?;
    write!(
        text,
        "binding 0 count 80408\nbinding 1 count 161216\nlast {last}\n"
    )?;
    Ok(status == 0 && out.bytes() == text.as_bytes())
}

#[test]
fn workload_0_is_summed(rt: HostRuntime) -> Result<(), Fail> {
    let is_summed = has_summary(&rt, rt.alloc(), "0", "101")?;
    assert!(rt; is_summed);
    Ok(())
}

#[test]
fn workload_1_is_summed(rt: HostRuntime) -> Result<(), Fail> {
    let is_summed = has_summary(&rt, rt.alloc(), "1", "103")?;
    assert!(rt; is_summed);
    Ok(())
}

#[test]
fn workload_2_is_summed(rt: HostRuntime) -> Result<(), Fail> {
    let is_summed = has_summary(&rt, rt.alloc(), "2", "103")?;
    assert!(rt; is_summed);
    Ok(())
}

#[test]
fn workload_3_is_summed(rt: HostRuntime) -> Result<(), Fail> {
    let is_summed = has_summary(&rt, rt.alloc(), "3", "107")?;
    assert!(rt; is_summed);
    Ok(())
}

#[test]
fn workload_4_is_summed(rt: HostRuntime) -> Result<(), Fail> {
    let is_summed = has_summary(&rt, rt.alloc(), "4", "104")?;
    assert!(rt; is_summed);
    Ok(())
}

#[test]
fn workload_5_is_summed(rt: HostRuntime) -> Result<(), Fail> {
    let is_summed = has_summary(&rt, rt.alloc(), "5", "111")?;
    assert!(rt; is_summed);
    Ok(())
}

#[test]
fn workload_6_is_summed(rt: HostRuntime) -> Result<(), Fail> {
    let is_summed = has_summary(&rt, rt.alloc(), "6", "106")?;
    assert!(rt; is_summed);
    Ok(())
}
