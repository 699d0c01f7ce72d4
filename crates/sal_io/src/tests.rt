ghost use Rattle.std.specs.Prelude.{◌≡◌, ◌+◌, ◌<◌, length, OnOk, OnErr};

use super::*;
use sal_base::Bytes;
use std::alloc::{AllocError, Global};
use std::test::Fail;

fn source(alloc: Global, bytes: &[u8], failing: &[u64]) -> Result<MemSource, AllocError> {
    Ok(MemSource::new(
        Bytes::from_slice(alloc, b"in")?,
        Bytes::from_slice(alloc, bytes)?,
        Vec::from_slice(alloc, failing)?,
    ))
}

fn file(alloc: Global, name: &[u8], failing: &[u64]) -> Result<MemFile, AllocError> {
    Ok(MemFile {
        name: Bytes::from_slice(alloc, name)?,
        bytes: Bytes::from_slice(alloc, name)?,
        failing: Vec::from_slice(alloc, failing)?,
    })
}

// The calls of sources, sinks and shelves as generic code makes them.
fn took<S: Source>(source: &mut S, buf: &mut [u8]) -> Took
    requires { 0 < length buf.old }
{
    source.read(buf)
}

fn wrote<K: Sink>(sink: &mut K, bytes: &[u8]) -> Wrote
    requires { 0 < length bytes.now }
{
    sink.write(bytes)
}

fn opened<F: Shelf>(files: &mut F, alloc: Global, name: &str) -> Result<F::In, ShelfFault>
    ensures spare { OnOk result (F.spare files.new ≡ F.spare files.old + 1) }
    ensures kept { OnErr result (F.spare files.new ≡ F.spare files.old) }
{
    files.open(alloc, name)
}

fn created<F: Shelf>(files: &mut F, alloc: Global, name: &str) -> Result<F::Out, ShelfFault>
    ensures spare { OnOk result (F.spare files.new ≡ F.spare files.old + 1) }
    ensures kept { OnErr result (F.spare files.new ≡ F.spare files.old) }
{
    files.create(alloc, name)
}

#[test]
fn contents_up_to_a_limit(rt: HostRuntime) -> Result<(), Fail> {
    let alloc = rt.alloc();
    for (long, most, whole) in [
        (0usize, 0usize, true),
        (1, 0, false),
        (65536, 65536, true),
        (65537, 65536, false),
        (200000, 200000, true),
        (200000, 199999, false),
    ] {
        let bytes = Bytes::repeat(alloc, 7, long)?;
        let mut source = source(alloc, bytes.as_slice(), &[])?;
        match read_all(alloc, &mut source, most) {
            Contents::All(all) => assert!(rt; whole && all.as_slice() == bytes.as_slice()),
            Contents::More(front) => assert!(rt; !whole && front.len() > most),
            Contents::Failed | Contents::Memory => panic!(rt; "no contents"),
        }
    }
    let mut failing = source(alloc, b"abc", &[2])?;
    assert!(rt; matches!(read_all(alloc, &mut failing, 9), Contents::Failed));
    assert_eq!(rt; failing.faults(), 1);
    Ok(())
}

#[test]
fn lines_and_blocks(rt: HostRuntime) -> Result<(), Fail> {
    let alloc = rt.alloc();
    let mut source = source(alloc, b"ab\n\nlonger\nlast", &[])?;
    let mut line = [0u8; 4];
    assert_eq!(rt; read_line(&mut source, &mut line), LineRead::Whole(2));
    assert_eq!(rt; &line[..2], b"ab".as_slice());
    assert_eq!(rt; read_line(&mut source, &mut line), LineRead::Whole(0));
    assert_eq!(rt; read_line(&mut source, &mut line), LineRead::Broken);
    assert_eq!(rt; fill(&mut source, &mut line), Filled::Full);
    assert_eq!(rt; line, *b"er\nl");
    assert_eq!(rt; fill(&mut source, &mut line), Filled::Short(3));
    assert_eq!(rt; read_line(&mut source, &mut line), LineRead::End);
    Ok(())
}

#[test]
fn shelf_in_memory(rt: HostRuntime) -> Result<(), Fail> {
    let alloc = rt.alloc();
    let mut files = Vec::new(alloc);
    files.push(file(alloc, b"clip", &[2])?)?;
    files.push(file(alloc, b"out", &[3])?)?;
    let mut shelf = MemShelf::new(alloc, files, Vec::from_slice(alloc, &[3])?);
    let Ok(mut input) = opened(&mut shelf, alloc, "clip") else {
        panic!(rt; "not opened");
    };
    let Ok(mut output) = created(&mut shelf, alloc, "out") else {
        panic!(rt; "not created");
    };
    assert!(rt; opened(&mut shelf, alloc, "clip").is_err());
    assert_eq!(rt; shelf.faults(), 1);
    assert!(rt; opened(&mut shelf, alloc, "absent").is_err());
    assert_eq!(rt; shelf.faults(), 2);
    let mut word = [0u8; 4];
    assert_eq!(rt; took(&mut input, &mut word), Took::Got(4));
    assert_eq!(rt; word, *b"clip");
    assert_eq!(rt; took(&mut input, &mut word), Took::Failed);
    assert_eq!(rt; took(&mut input, &mut word), Took::End);
    assert_eq!(rt;
        put_parts(&mut output, &[b"ab", b"", b"c", b"d"]),
        Put::Failed
    );
    assert_eq!(rt; (input.faults(), output.faults()), (1, 1));
    shelf.shut_in(input);
    shelf.shut_out(output);
    match shelf.shut() {
        [Shut::Source(_), Shut::Sink(sink)] => {
            assert_eq!(rt; sink.name(), b"out".as_slice());
            assert_eq!(rt; sink.bytes(), b"abc".as_slice());
        }
        _ => panic!(rt; "not what was shut"),
    }
    Ok(())
}

#[test]
fn adapters_over_std(rt: HostRuntime) -> Result<(), Fail> {
    let alloc = rt.alloc();
    let mut input = StdSource::new(Bytes::new(alloc), b"abc".as_slice());
    let mut word = [0u8; 2];
    assert_eq!(rt; took(&mut input, &mut word), Took::Got(2));
    assert_eq!(rt; took(&mut input, &mut word), Took::Got(1));
    assert_eq!(rt; took(&mut input, &mut word), Took::End);
    assert_eq!(rt; (word, input.faults()), (*b"cb", 0));
    let mut room = [0u8; 2];
    let mut output = StdSink::new(Bytes::new(alloc), room.as_mut_slice());
    assert_eq!(rt; wrote(&mut output, b"abc"), Wrote::Wrote(2));
    assert_eq!(rt; wrote(&mut output, b"c"), Wrote::Failed);
    assert_eq!(rt; output.faults(), 1);
    drop(output);
    assert_eq!(rt; room, *b"ab");
    Ok(())
}

#[test]
fn shelf_of_files(rt: HostRuntime) -> Result<(), Fail> {
    let alloc = rt.alloc();
    let mut shelf = StdShelf::new(&rt, alloc);
    assert!(rt; shelf.open(alloc, "/no/such/file").is_err());
    assert!(rt; shelf.create(alloc, "/no/such/file").is_err());
    assert_eq!(rt; shelf.faults(), 2);
    let Ok(mut zeros) = shelf.open(alloc, "/dev/zero") else {
        panic!(rt; "not opened");
    };
    let mut word = [1u8; 4];
    assert_eq!(rt; fill(&mut zeros, &mut word), Filled::Full);
    assert_eq!(rt; word, [0; 4]);
    let Ok(mut full) = shelf.create(alloc, "/dev/full") else {
        panic!(rt; "not created");
    };
    assert_eq!(rt; put_all(&mut full, b"abc"), Put::Failed);
    assert_eq!(rt; full.faults(), 1);
    shelf.shut_in(zeros);
    shelf.shut_out(full);
    Ok(())
}

#[test]
fn created_file_takes_bytes(rt: HostRuntime) -> Result<(), Fail> {
    let alloc = rt.alloc();
    let mut shelf = StdShelf::new(&rt, alloc);
    let Ok(mut sink) = shelf.create(alloc, "/dev/null") else {
        panic!(rt; "not created");
    };
    assert_eq!(rt; put_parts(&mut sink, &[b"ab", b"", b"cde"]), Put::Done);
    assert_eq!(rt; (sink.faults(), shelf.faults()), (0, 0));
    shelf.shut_out(sink);
    Ok(())
}
