//! `pd_outside`: a library and a sink over memory, over real files and a real writer.
use pd_outside::{
    Failed, FetchFault, FolderLibrary, Gate, Library, MemoryLibrary, MemorySink, OpenGate,
    OutputSink, Sink,
};
use std::alloc::{AllocError, Global};
use std::process::Abort;
use std::test::Fail;
use std::{env, fs};

fn two_files(alloc: Global) -> Result<Vec<(String, Vec<u8>)>, AllocError> {
    let mut files = Vec::new(alloc);
    files.push((String::from_str(alloc, "a.sl")?, b"first".to_vec(alloc)?))?;
    files.push((String::from_str(alloc, "a.sl")?, b"second".to_vec(alloc)?))?;
    files.push((String::from_str(alloc, "empty.sl")?, Vec::new(alloc)))?;
    Ok(files)
}

// What a fetch gives, as text; `-` stands for a fault.
fn check_fetch<L: Library>(
    rt: &impl Abort,
    alloc: Global,
    files: &mut L,
    (name, limit, wanted): (&str, u32, &str),
) {
    match files.fetch(alloc, name, limit) {
        Ok(bytes) => assert_eq!(rt; bytes.as_slice(), wanted.as_bytes(), "{name} {limit}"),
        Err(fault) => {
            assert_eq!(rt; fault, FetchFault::Failed);
            assert_eq!(rt; wanted, "-", "{name} {limit}");
        }
    }
}

#[test]
fn memory_library_gives_the_first_file_of_a_name(rt: HostRuntime) -> Result<(), Fail> {
    let alloc = rt.alloc();
    let mut files = MemoryLibrary::new(two_files(alloc)?, [3, 5].to_vec(alloc)?);
    for case in [
        ("a.sl", 5, "first"),
        ("a.sl", 3, "fir"),
        ("a.sl", 0, ""),
        ("a.sl", 9, "-"),
        ("b.sl", 9, "-"),
        ("empty.sl", 9, "-"),
        ("empty.sl", 9, ""),
        ("a.sl", 9, "first"),
    ] {
        check_fetch(&rt, alloc, &mut files, case);
    }
    Ok(())
}

#[test]
fn memory_sink_takes_whole_pieces_up_to_its_room(rt: HostRuntime) -> Result<(), Fail> {
    let alloc = rt.alloc();
    let mut sink = MemorySink::new(alloc, 6, [1].to_vec(alloc)?)?;
    for (piece, wanted) in [
        ("abc", true),
        ("d", false),
        ("defg", false),
        ("", true),
        ("def", true),
    ] {
        assert_eq!(rt; sink.write(piece.as_bytes()).is_ok(), wanted, "{piece}");
    }
    assert_eq!(rt; sink.bytes(), b"abcdef".as_slice());
    assert_eq!(rt; sink.write(b"g"), Err(Failed));
    Ok(())
}

#[test]
fn folder_library_reads_files(rt: HostRuntime) -> Result<(), Fail> {
    let alloc = rt.alloc();
    let mut path = env::temp_dir(&rt)?.into_string();
    path.push_str("/polydbg_outside_test.sl")?;
    fs::write(&rt, path.as_str(), "function main() { }")?;
    let mut files = FolderLibrary::new(&rt);
    check_fetch(&rt, alloc, &mut files, (path.as_str(), 8, "function"));
    check_fetch(
        &rt,
        alloc,
        &mut files,
        (path.as_str(), 99, "function main() { }"),
    );
    fs::remove_file(&rt, path.as_str())?;
    check_fetch(&rt, alloc, &mut files, (path.as_str(), 99, "-"));
    check_fetch(&rt, alloc, &mut files, ("/", 99, "-"));
    Ok(())
}

#[test]
fn output_sink_writes(rt: HostRuntime) -> Result<(), Fail> {
    let mut bytes = [0u8; 5];
    {
        let mut sink = OutputSink::new(bytes.as_mut_slice());
        assert_eq!(rt; sink.write(b"abc"), Ok(()));
        assert_eq!(rt; sink.write(b""), Ok(()));
        assert_eq!(rt; sink.write(b"def"), Err(Failed));
    }
    assert_eq!(rt; bytes.as_slice(), b"abcde".as_slice());
    Ok(())
}

#[test]
fn open_gate_lets_all_through() {
    OpenGate.at(0, 3);
    OpenGate.act(1, 2);
}
