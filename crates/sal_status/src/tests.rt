use super::*;
use sal_base::Bytes;
use sal_io::{MemSink, Put, Sink};
use sal_run::Summary;
use sal_y4m::Why;
use std::alloc::{AllocError, Global};
use std::test::Fail;

const COUNTS: Summary = Summary {
    pictures: 17,
    chosen: 16,
    nothing: 1,
    keys: 2,
    datagrams: 4294967295,
    shown: 0,
};

const COUNTED: &[u8] =
    b"pictures 17\nchosen 16\nnothing 1\nkeys 2\ndatagrams 4294967295\nshown 0\n";

fn words(alloc: Global) -> Result<Vec<String>, AllocError> {
    let mut words = Vec::new(alloc);
    for word in ["loop", "a", "b.script", "c d"] {
        words.push(String::from_str(alloc, word)?)?;
    }
    Ok(words)
}

// What a screen on which the call of this number fails then holds of a status, and whether all was printed.
fn printed(alloc: Global, status: Status, failing: u64) -> Result<(Vec<u8>, bool), AllocError> {
    let words = words(alloc)?;
    let mut screen = MemSink::new(
        Bytes::new(alloc),
        Bytes::new(alloc),
        Vec::from_slice(alloc, &[failing])?,
    );
    let put = show_any(&mut screen, &words, status);
    Ok((Vec::from_slice(alloc, screen.bytes())?, put == Put::Done))
}

// Sees the screen as any sink.
fn show_any<K: Sink>(screen: &mut K, words: &[String], status: Status) -> Put {
    show(screen, words, status)
}

#[test]
fn each_status_has_its_number_and_its_line(rt: HostRuntime) -> Result<(), Fail> {
    let alloc = rt.alloc();
    let rows: [(Status, u8, &[u8]); 12] = [
        (Status::Ok(Shows::Loop(COUNTS)), 0, COUNTED),
        (
            Status::Usage,
            2,
            b"usage: salsify loop, send, receive, check or generate\n",
        ),
        (
            Status::BadInput(Named::Word(1), 13, Why::Missing),
            3,
            b"bad input a at byte 13: missing\n",
        ),
        (Status::BadScript(262144), 4, b"bad script at line 262144\n"),
        (Status::ReadFault(Named::Word(1)), 6, b"read fault a\n"),
        (
            Status::ReadFault(Named::Word(2)),
            6,
            b"read fault b.script\n",
        ),
        (Status::WriteFault(Named::Word(3)), 7, b"write fault c d\n"),
        (
            Status::WriteFault(Named::Screen),
            7,
            b"write fault screen\n",
        ),
        (
            Status::OpenFault(Named::Word(2)),
            8,
            b"open fault b.script\n",
        ),
        (Status::TooLong, 11, b"too long\n"),
        (Status::TooMany, 12, b"too many\n"),
        (Status::Memory, 15, b"no memory\n"),
    ];
    for (status, number, text) in rows {
        let (found, whole) = printed(alloc, status, 0)?;
        assert_eq!(rt; (status.number(), whole), (number, true));
        assert_eq!(rt; found.as_slice(), text);
    }
    Ok(())
}

#[test]
fn a_screen_that_fails_holds_a_front(rt: HostRuntime) -> Result<(), Fail> {
    let alloc = rt.alloc();
    let status = Status::OpenFault(Named::Word(1));
    let (found, whole) = printed(alloc, status, 2)?;
    assert!(rt; !whole && found.as_slice() == b"open fault ".as_slice());
    let (none, whole) = printed(alloc, Status::Usage, 1)?;
    assert!(rt; !whole && none.is_empty());
    Ok(())
}
