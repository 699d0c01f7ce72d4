use super::*;
use sal_base::{Bytes, Name};
use sal_io::{MemSink, MemSource, Source};
use sal_sender::{JobRole, Size};
use sal_world::{Diary, DiaryFault, Line, ReportSize};
use sal_y4m::Head;
use std::alloc::{AllocError, Global};
use std::test::Fail;

const HEAD: Head = Head {
    width: 16,
    height: 16,
    rate: (30, 1),
};

const NAME: Name = Name([
    0, 0xa1, 0xb2, 0xc3, 0xd4, 0xe5, 0xf6, 7, 0, 0, 0, 0, 0, 0, 0, 0,
]);

// A journal that has each kind of line.
const TEXT: &[u8] =
    b"salsify 1 16 16 30 1\nmoment 18446744073709551615\nnext 1\ntake 1 coarse\ntake 2 spare\n\
report 1 frame 10 00a1b2c3d4e5f607\nreport 2 oversize 600000 late\ntake 3 fine\nreport 3 frame 0 00a1b2c3d4e5f607 late\n\
choose 1 2 0 1\nnothing 0 1 -600000\nnothing 3 -\ndown 4294967295 taken\nup 1 heard\nup 20 old\nready 1\n\
decoded 1 shown\ndecoded 2 older\nend\n";

// The events of that journal.
const EVENTS: [JournalEvent; 17] = [
    JournalEvent::Moment(18446744073709551615),
    JournalEvent::Next(1),
    JournalEvent::Take(1, JobRole::Coarse),
    JournalEvent::Take(2, JobRole::Spare),
    JournalEvent::Report(1, ReportSize::Frame(10, NAME), false),
    JournalEvent::Report(2, ReportSize::Oversize(600000), true),
    JournalEvent::Take(3, JobRole::Fine),
    JournalEvent::Report(3, ReportSize::Frame(0, NAME), true),
    JournalEvent::Choose(1, 2, 0, 1),
    JournalEvent::Nothing(0, Size::Datagrams(1), Some(Size::Oversize(600000))),
    JournalEvent::Nothing(3, Size::NoMemory, None),
    JournalEvent::Down(4294967295),
    JournalEvent::Up(1, true),
    JournalEvent::Up(20, false),
    JournalEvent::Ready(1),
    JournalEvent::Decoded(1, true),
    JournalEvent::Decoded(2, false),
];

// What reading this text answers where these calls fail, and how often the source failed.
fn read(
    alloc: Global,
    text: &[u8],
    failing: &[u64],
) -> Result<(Result<Journal, JournalFault>, u64), AllocError> {
    let mut source = MemSource::new(
        Bytes::from_slice(alloc, b"journal")?,
        Bytes::from_slice(alloc, text)?,
        Vec::from_slice(alloc, failing)?,
    );
    let answer = read_events(alloc, &mut source);
    Ok((answer, source.faults()))
}

// The fault of the text that a head line and these bytes make, or None where it is a journal.
fn fault_behind(alloc: Global, text: &[u8]) -> Result<Option<JournalFault>, AllocError> {
    let mut whole = Vec::from_slice(alloc, b"salsify 1 16 16 30 1\n")?;
    whole.extend_from_slice(text)?;
    Ok(read(alloc, &whole, &[])?.0.err())
}

#[test]
fn each_kind_of_line_is_read(rt: HostRuntime) -> Result<(), Fail> {
    let alloc = rt.alloc();
    match read(alloc, TEXT, &[])?.0 {
        Ok(journal) => {
            assert_eq!(rt; journal.head(), HEAD);
            assert!(rt; journal.events() == EVENTS.as_slice());
        }
        Err(_) => assert!(rt; false),
    }
    match read(alloc, b"salsify 1 1280 720 4294967295 1\nend\n", &[])?.0 {
        Ok(journal) => {
            assert_eq!(rt; (journal.head().width, journal.head().height), (1280, 720));
            assert!(rt; journal.events().is_empty());
        }
        Err(_) => assert!(rt; false),
    }
    Ok(())
}

#[test]
fn lines_outside_the_grammar(rt: HostRuntime) -> Result<(), Fail> {
    let alloc = rt.alloc();
    let lines: [&[u8]; 38] = [
        b"",
        b"jump",
        b"moment",
        b"moment 05",
        b"moment 18446744073709551616",
        b"moment +5",
        b"next",
        b"next 1 ",
        b" next 1",
        b"next  1",
        b"next 4294967296",
        b"next 1\r",
        b"take 1",
        b"take 1 coarser",
        b"report 1",
        b"report 1 again",
        b"report 1 givenup late",
        b"report 1 frame 10 00a1b2c3d4e5f6",
        b"report 1 frame 10 00A1B2C3D4E5F607",
        b"report 1 frame 10 00a1b2c3d4e5f60708",
        b"report 1 frame 10 00a1b2c3d4e5f607 early",
        b"report 1 frame 10 00a1b2c3d4e5f607 late late",
        b"report 1 oversize",
        b"choose 1 2 3",
        b"choose 1 2 0 1 1",
        b"nothing 1",
        b"nothing 1 2 3 4",
        b"nothing 1 -01",
        b"nothing 1 --1",
        b"down 1",
        b"up 1",
        b"up 1 heard old",
        b"decoded 1",
        b"ready 1 2",
        b"lost 3",
        b"heard 00",
        b"sender 1 16 16 30 1",
        b"salsify 1 16 16 30 1",
    ];
    for line in lines {
        let mut text = Vec::from_slice(alloc, b"next 1\n")?;
        text.extend_from_slice(line)?;
        text.extend_from_slice(b"\nend\n")?;
        assert_eq!(rt; fault_behind(alloc, &text)?, Some(JournalFault::Bad(3)));
    }
    Ok(())
}

#[test]
fn the_first_line_is_the_head(rt: HostRuntime) -> Result<(), Fail> {
    let alloc = rt.alloc();
    let texts: [&[u8]; 10] = [
        b"",
        b"end\n",
        b"\nsalsify 1 16 16 30 1\nend\n",
        b"salsify 1 16 16 30 1",
        b"salsify 2 16 16 30 1\nend\n",
        b"salsify 1 0 16 30 1\nend\n",
        b"salsify 1 1281 16 30 1\nend\n",
        b"salsify 1 16 721 30 1\nend\n",
        b"salsify 1 16 16 0 1\nend\n",
        b"salsify 1 16 16 30 01\nend\n",
    ];
    for text in texts {
        assert_eq!(rt; read(alloc, text, &[])?.0.err(), Some(JournalFault::Bad(1)));
    }
    Ok(())
}

#[test]
fn the_end_is_the_last_line(rt: HostRuntime) -> Result<(), Fail> {
    let alloc = rt.alloc();
    let texts: [(&[u8], Option<JournalFault>); 8] = [
        (b"end\n", None),
        (b"", Some(JournalFault::Bad(2))),
        (b"end", Some(JournalFault::Bad(2))),
        (b"next 1\n", Some(JournalFault::Bad(3))),
        (b"next 1", Some(JournalFault::Bad(2))),
        (b"end\nend\n", Some(JournalFault::Bad(3))),
        (b"end\n\n", Some(JournalFault::Bad(3))),
        (b"next 1\nend\nx", Some(JournalFault::Bad(4))),
    ];
    for (text, wanted) in texts {
        assert_eq!(rt; fault_behind(alloc, text)?, wanted);
    }
    Ok(())
}

#[test]
fn a_source_that_fails(rt: HostRuntime) -> Result<(), Fail> {
    let alloc = rt.alloc();
    let (answer, faults) = read(alloc, b"jump\n", &[2])?;
    assert_eq!(rt; (answer.err(), faults), (Some(JournalFault::ReadFault), 1));
    Ok(())
}

// Gives lines to a diary, up to the first that isn't written.
fn keep<D: Diary>(diary: &mut D, lines: &[Line]) -> Result<(), DiaryFault> {
    for line in lines {
        diary.line(line)?;
    }
    Ok(())
}

// What a book's sink holds after these lines where the call of this number fails, and the answer.
fn written(
    alloc: Global,
    lines: &[Line],
    failing: u64,
) -> Result<(Vec<u8>, Result<(), DiaryFault>), AllocError> {
    let sink = MemSink::new(
        Bytes::from_slice(alloc, b"journal")?,
        Bytes::new(alloc),
        Vec::from_slice(alloc, &[failing])?,
    );
    let mut book = Book::new(alloc, sink);
    let answer = keep(&mut book, lines);
    let sink = book.into_sink();
    Ok((Vec::from_slice(alloc, sink.bytes())?, answer))
}

#[test]
fn each_kind_of_line_is_written(rt: HostRuntime) -> Result<(), Fail> {
    let alloc = rt.alloc();
    let lines = [
        Line::Head(HEAD),
        Line::Moment(18446744073709551615),
        Line::Next(1),
        Line::Take(1, JobRole::Coarse),
        Line::Take(2, JobRole::Spare),
        Line::Report(1, ReportSize::Frame(10, NAME), false),
        Line::Report(2, ReportSize::Oversize(600000), true),
        Line::Take(3, JobRole::Fine),
        Line::Report(3, ReportSize::Frame(0, NAME), true),
        Line::Choose(1, 2, 0, 1),
        Line::Down(4294967295),
        Line::Up(1, true),
        Line::Up(20, false),
        Line::Ready(1),
        Line::Decoded(1, true),
        Line::Decoded(2, false),
        Line::Sender(HEAD),
        Line::Heard(Bytes::from_slice(alloc, b"\x00\xfe")?),
        Line::Heard(Bytes::new(alloc)),
        Line::Lost(7),
        Line::GivenUp(1, true),
        Line::GivenUp(1, false),
        Line::End,
    ];
    let text =
        b"salsify 1 16 16 30 1\nmoment 18446744073709551615\nnext 1\ntake 1 coarse\ntake 2 spare\n\
report 1 frame 10 00a1b2c3d4e5f607\nreport 2 oversize 600000 late\ntake 3 fine\nreport 3 frame 0 00a1b2c3d4e5f607 late\n\
choose 1 2 0 1\ndown 4294967295 taken\nup 1 heard\nup 20 old\nready 1\ndecoded 1 shown\ndecoded 2 older\n\
sender 1 16 16 30 1\nheard 00fe\nheard\nlost 7\nreport 1 givenup late\nreport 1 again\nend\n";
    let (found, answer) = written(alloc, &lines, 0)?;
    assert!(rt; answer.is_ok() && found.as_slice() == text.as_slice());
    Ok(())
}

#[test]
fn a_line_that_fails_is_the_last(rt: HostRuntime) -> Result<(), Fail> {
    let alloc = rt.alloc();
    let lines = [Line::Head(HEAD), Line::Next(1), Line::End];
    let (found, answer) = written(alloc, &lines, 2)?;
    assert_eq!(rt; answer, Err(DiaryFault::Failed));
    assert!(rt; found.as_slice() == b"salsify 1 16 16 30 1\n".as_slice());
    Ok(())
}
