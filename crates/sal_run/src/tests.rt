ghost use Rattle.std.specs.Prelude.{true};

use super::*;
use sal_base::{Bytes, Name};
use sal_codec::Plain;
use sal_io::{MemSink, MemSource};
use sal_script::read_script;
use sal_sender::{JobRole, Size};
use sal_world::{Diary, DiaryFault, Line, NoDiary, ReportSize};
use sal_y4m::{Reader, Writer};
use std::alloc::{AllocError, Global};
use std::test::Fail;

const HEADER: &[u8] = b"YUV4MPEG2 W16 H16\n";

// A picture of luma 128 and one of luma 90 have these names as states.
const NAME_128: Name = Name([
    0xcd, 0xec, 0x5b, 0x78, 0xf0, 0x8d, 0xb2, 0xcf, 0, 0, 0, 0, 0, 0, 0, 0,
]);

const NAME_90: Name = Name([
    0x43, 0x8b, 0x65, 0x0e, 0x7a, 0xc7, 0xfc, 0xfd, 0, 0, 0, 0, 0, 0, 0, 0,
]);

// A key frame of luma 128, one of luma 90, and an inter frame of that.
// A picture that is lost, after one that was acknowledged.
const SIX: &[u8] =
    b"next\ndown 1\nup 1\nnext\nnext\ndown 3\nup 2\nnext\ndown 4\nup 3\nnext\ndown 5\nup 4\nnext\ndown 6\n";

const KEY_128: ReportSize = ReportSize::Frame(389, NAME_128);

const KEY_90: ReportSize = ReportSize::Frame(389, NAME_90);

const INTER_90: ReportSize = ReportSize::Frame(385, NAME_90);

// What a line says.
#[derive(Clone, Copy, Debug, PartialEq, Eq)]
enum Note {
    Head(u16, u16),
    Moment(u64),
    Next(u32),
    Take(u32, JobRole),
    Report(u32, ReportSize, bool),
    Choose(u32, u32, u32, u32),
    Nothing(u32, Option<Size>, Option<Size>),
    Down(u32),
    Up(u64, bool),
    Ready(u32),
    Decoded(u32, bool),
    End,
}

// The sizes of a picture for which nothing fits: at most two.
fn nothing_note(budget: u32, sizes: &[Size]) -> Note {
    Note::Nothing(budget, sizes.first().copied(), sizes.get(1).copied())
}

fn note_of(line: &Line) -> Option<Note> {
    match line {
        Line::Head(head) => Some(Note::Head(head.width, head.height)),
        Line::Moment(moment) => Some(Note::Moment(*moment)),
        Line::Next(number) => Some(Note::Next(*number)),
        Line::Take(job, role) => Some(Note::Take(*job, *role)),
        Line::Report(job, size, late) => Some(Note::Report(*job, *size, *late)),
        Line::Choose(number, job, source, count) => {
            Some(Note::Choose(*number, *job, *source, *count))
        }
        Line::Nothing(budget, sizes) => Some(nothing_note(*budget, sizes.as_slice())),
        Line::Down(number) => Some(Note::Down(*number)),
        Line::Up(number, heard) => Some(Note::Up(*number, *heard)),
        Line::Ready(number) => Some(Note::Ready(*number)),
        Line::Decoded(number, shown) => Some(Note::Decoded(*number, *shown)),
        Line::End => Some(Note::End),
        _ => None,
    }
}

// Whether a note says what was chosen, came late, came back or was decoded.
fn tells_of_choices(note: Note) -> bool {
    matches!(
        note,
        Note::Choose(..)
            | Note::Nothing(..)
            | Note::Report(_, _, true)
            | Note::Up(..)
            | Note::Decoded(..)
    )
}

// The notes of a run, in order: all of them, or those that tell of choices.
#[derive(Drop)]
struct Notes {
    kept: Vec<Note>,
    all: bool,
}

impl Diary for Notes {
    ghost gives = { λ fault. true };

    ghost faults = { λ d. 0 };

    fn faults(&self) -> u64 {
        0
    }

    fn line(&mut self, line: &Line) -> Result<(), DiaryFault> {
        let Some(note) = note_of(line) else {
            return Ok(());
        };
        if (self.all || tells_of_choices(note)) && self.kept.push(note).is_err() {
            return Err(DiaryFault::Memory);
        }
        Ok(())
    }
}

// A clip of 16 by 16 whose pictures have these values of luma.
fn clip(alloc: Global, lumas: &[u8]) -> Result<Bytes, AllocError> {
    let mut bytes = Vec::from_slice(alloc, HEADER)?;
    for luma in lumas {
        bytes.extend_from_slice(b"FRAME\n")?;
        bytes.extend_from_slice(&[*luma; 256])?;
        bytes.extend_from_slice(&[128; 128])?;
    }
    Bytes::from_slice(alloc, bytes.as_slice())
}

fn source(alloc: Global, name: &[u8], bytes: Bytes) -> Result<MemSource, AllocError> {
    Ok(MemSource::new(Bytes::from_slice(alloc, name)?, bytes, Vec::new(alloc)))
}

// How a run of this script over a clip of these pictures ends, if the script is in its grammar.
fn run_of<J: Diary>(
    alloc: Global,
    lumas: &[u8],
    text: &[u8],
    journal: &mut J,
) -> Result<Option<RunEnd>, AllocError> {
    let mut lines = source(alloc, b"script", Bytes::from_slice(alloc, text)?)?;
    let Ok(script) = read_script(alloc, &mut lines) else {
        return Ok(None);
    };
    let mut pictures = Reader::new(source(alloc, b"in", clip(alloc, lumas)?)?);
    let name = Bytes::from_slice(alloc, b"out")?;
    let nothing = Bytes::from_slice(alloc, b"")?;
    let mut out = Writer::new(MemSink::new(name, nothing, Vec::new(alloc)));
    if pictures.open().is_err() {
        return Ok(None);
    }
    Ok(Some(run_alone(alloc, Plain, &mut pictures, &script, &mut out, journal)))
}

// A summary of pictures, choices, those of nothing, key frames, datagrams and pictures shown.
fn summary(counts: [u32; 6]) -> Summary {
    let [pictures, chosen, nothing, keys, datagrams, shown] = counts;
    Summary {
        pictures,
        chosen,
        nothing,
        keys,
        datagrams,
        shown,
    }
}

// Whether a run ends well and gives these notes, and then those.
fn gives(
    alloc: Global,
    lumas: &[u8],
    text: &[u8],
    all: bool,
    first: &[Note],
    then: &[Note],
) -> Result<bool, AllocError> {
    let mut notes = Notes {
        kept: Vec::new(alloc),
        all,
    };
    let end = run_of(alloc, lumas, text, &mut notes)?;
    let kept = notes.kept.as_slice();
    let well = matches!(end, Some(RunEnd::Ok(_)));
    Ok(well && kept.starts_with(first) && kept.get(first.len()..) == Some(then))
}

#[test]
fn every_line_of_a_run(rt: HostRuntime) -> Result<(), Fail> {
    let wanted = [
        Note::Head(16, 16),
        Note::Next(1),
        Note::Take(1, JobRole::Coarse),
        Note::Report(1, KEY_128, false),
        Note::Take(2, JobRole::Fine),
        Note::Report(2, KEY_128, false),
        Note::Choose(1, 2, 0, 1),
        Note::Moment(7),
        Note::Down(1),
        Note::Ready(1),
        Note::Decoded(1, true),
        Note::Up(1, true),
        Note::Moment(33_340),
        Note::End,
    ];
    let holds = gives(
        rt.alloc(),
        &[128],
        b"next\nwait 7\ndownall\nupall\nwait 33333\nupall\n",
        true,
        &wanted,
        &[],
    )?;
    assert!(rt; holds);
    Ok(())
}

// The time passes after all that comes of a picture was delivered.
#[test]
fn every_line_of_a_rest(rt: HostRuntime) -> Result<(), Fail> {
    let wanted = [
        Note::Head(16, 16),
        Note::Next(1),
        Note::Take(1, JobRole::Coarse),
        Note::Report(1, KEY_128, false),
        Note::Take(2, JobRole::Fine),
        Note::Report(2, KEY_128, false),
        Note::Choose(1, 2, 0, 1),
        Note::Down(1),
        Note::Ready(1),
        Note::Decoded(1, true),
        Note::Up(1, true),
        Note::Moment(33_333),
        Note::Next(2),
        Note::Take(3, JobRole::Coarse),
        Note::Report(3, INTER_90, false),
        Note::Take(4, JobRole::Spare),
        Note::Report(4, KEY_90, false),
        Note::Take(5, JobRole::Fine),
        Note::Report(5, INTER_90, false),
        Note::Choose(2, 5, 1, 1),
        Note::Down(2),
        Note::Ready(2),
        Note::Decoded(2, true),
        Note::Up(2, true),
        Note::Moment(66_666),
        Note::End,
    ];
    assert!(rt; gives(rt.alloc(), &[128, 90], b"rest\n", true, &wanted, &[])?);
    Ok(())
}

// Sixteen choices in a row.
const WINDOW: [Note; 16] = [
    Note::Choose(1, 2, 0, 1),
    Note::Choose(2, 5, 1, 1),
    Note::Choose(3, 8, 2, 1),
    Note::Choose(4, 11, 3, 1),
    Note::Choose(5, 14, 4, 1),
    Note::Choose(6, 17, 5, 1),
    Note::Choose(7, 20, 6, 1),
    Note::Choose(8, 23, 7, 1),
    Note::Choose(9, 26, 8, 1),
    Note::Choose(10, 29, 9, 1),
    Note::Choose(11, 32, 10, 1),
    Note::Choose(12, 35, 11, 1),
    Note::Choose(13, 38, 12, 1),
    Note::Choose(14, 41, 13, 1),
    Note::Choose(15, 44, 14, 1),
    Note::Choose(16, 47, 15, 1),
];

// The second picture is lost, and the sixth is made from what was acknowledged.
const LOSS: [Note; 12] = [
    Note::Choose(1, 2, 0, 1),
    Note::Decoded(1, true),
    Note::Up(1, true),
    Note::Choose(2, 5, 1, 1),
    Note::Choose(3, 8, 2, 1),
    Note::Up(2, true),
    Note::Choose(4, 11, 3, 1),
    Note::Up(3, true),
    Note::Choose(5, 14, 4, 1),
    Note::Up(4, true),
    Note::Choose(6, 16, 1, 1),
    Note::Decoded(6, true),
];

const LOSS_SCRIPT: &[u8] =
    b"next\ndown 1\nup 1\nnext\nnext\ndown 3\nup 2\nnext\ndown 4\nup 3\nnext\ndown 5\nup 4\nnext\ndown 6\ndown 2\n";

#[test]
fn what_was_lost_comes_after_all(rt: HostRuntime) -> Result<(), Fail> {
    let alloc = rt.alloc();
    let six = [128, 100, 72, 44, 90, 60];
    // all that waited for what was lost is older than what was shown
    let older = [
        Note::Decoded(2, false),
        Note::Decoded(3, false),
        Note::Decoded(4, false),
        Note::Decoded(5, false),
    ];
    let before = LOSS_SCRIPT.strip_suffix(b"down 2\n").unwrap_or(b"");
    assert!(rt; gives(alloc, &six, before, false, &LOSS, &[])?);
    assert!(rt; gives(alloc, &six, LOSS_SCRIPT, false, &LOSS, &older)?);
    Ok(())
}

#[test]
fn an_acknowledgement_that_comes_again_is_old(rt: HostRuntime) -> Result<(), Fail> {
    let first = [
        Note::Choose(1, 2, 0, 1),
        Note::Decoded(1, true),
        Note::Choose(2, 5, 1, 1),
        Note::Decoded(2, true),
        Note::Up(2, true),
        Note::Choose(3, 8, 2, 1),
        Note::Decoded(3, true),
        Note::Up(3, true),
        Note::Choose(4, 11, 3, 1),
    ];
    let script = b"next\ndown 1\nnext\ndown 2\nup 2\nnext\ndown 3\nup 3\nnext\nup 2\n";
    assert!(rt;
        gives(
            rt.alloc(),
            &[128; 4],
            script,
            false,
            &first,
            &[Note::Up(2, false)]
        )?
    );
    Ok(())
}

#[test]
fn the_fine_job_comes_after_the_choice(rt: HostRuntime) -> Result<(), Fail> {
    let first = [Note::Choose(1, 1, 0, 1)];
    let then = [Note::Report(2, KEY_128, true), Note::Decoded(1, true)];
    assert!(rt;
        gives(
            rt.alloc(),
            &[128],
            b"next late\ndownall\n",
            false,
            &first,
            &then
        )?
    );
    Ok(())
}

const FULL_SCRIPT: &[u8] =
    b"next\nnext\nnext\nnext\nnext\nnext\nnext\nnext\nnext\nnext\nnext\nnext\nnext\nnext\nnext\nnext\nnext\n";

const HALF_A_SECOND_SCRIPT: &[u8] =
    b"next\nnext\nnext\nnext\nnext\nnext\nnext\nnext\nnext\nnext\nnext\nnext\nnext\nnext\nnext\nnext\nwait 500000\nnext\n";

#[test]
fn a_window_that_is_full(rt: HostRuntime) -> Result<(), Fail> {
    let alloc = rt.alloc();
    let one = Some(Size::Datagrams(1));
    let nothing = [Note::Nothing(0, one, one)];
    assert!(rt; gives(alloc, &[128; 17], FULL_SCRIPT, false, &WINDOW, &nothing)?);
    // after half a second nothing counts as in flight, and a key frame is sent
    let key = [Note::Choose(17, 49, 0, 1)];
    assert!(rt;
        gives(
            alloc,
            &[128; 17],
            HALF_A_SECOND_SCRIPT,
            false,
            &WINDOW,
            &key
        )?
    );
    Ok(())
}

// A diary that gives a fault at its line of this number and all later ones.
#[derive(Drop)]
struct Stops {
    at: u32,
    fault: DiaryFault,
    given: u32,
    faults: u64,
}

impl Diary for Stops {
    ghost gives = { λ fault. true };

    ghost faults = { λ d. d.faults };

    fn faults(&self) -> u64 {
        self.faults
    }

    fn line(&mut self, _line: &Line) -> Result<(), DiaryFault> {
        self.given = self.given.saturating_add(1);
        if self.given < self.at {
            return Ok(());
        }
        self.faults = self.faults.saturating_add(1);
        Err(self.fault)
    }
}

// How a run of one picture ends whose diary gives this fault at a line, and how many lines it was given.
fn stopped(alloc: Global, at: u32, fault: DiaryFault) -> Result<(Option<RunEnd>, u32), AllocError> {
    let mut diary = Stops {
        at,
        fault,
        given: 0,
        faults: 0,
    };
    let end = run_of(alloc, &[128], b"next\n", &mut diary)?;
    Ok((end, diary.given))
}

#[test]
fn no_line_is_given_after_a_fault(rt: HostRuntime) -> Result<(), Fail> {
    let alloc = rt.alloc();
    let failed = Some(RunEnd::WriteFault(Which::Journal));
    // the head, the picture, two jobs with their reports, the choice, and the end
    for at in 1..9u32 {
        assert_eq!(rt; stopped(alloc, at, DiaryFault::Failed)?, (failed, at));
    }
    assert_eq!(rt;
        stopped(alloc, 9, DiaryFault::Failed)?,
        (Some(RunEnd::Ok(summary([1, 1, 0, 1, 1, 0]))), 8)
    );
    assert_eq!(rt;
        stopped(alloc, 4, DiaryFault::TooLong)?,
        (Some(RunEnd::TooLong), 4)
    );
    assert_eq!(rt;
        stopped(alloc, 4, DiaryFault::Memory)?,
        (Some(RunEnd::Memory), 4)
    );
    Ok(())
}

#[test]
fn what_a_run_counts(rt: HostRuntime) -> Result<(), Fail> {
    let alloc = rt.alloc();
    let six = [128, 100, 72, 44, 90, 60];
    // the pictures, the script, and the counts: no picture, one, frames whose source didn't come, a return after a loss, all
    // pictures left, and a picture that no line starts
    let rows: [(&[u8], &[u8], [u32; 6]); 6] = [
        (&[], b"", [0, 0, 0, 0, 0, 0]),
        (&[128], b"next\ndownall\n", [1, 1, 0, 1, 1, 1]),
        (
            &[1, 2, 3],
            b"next\nnext\nnext\ndown 3\ndown 1\n",
            [3, 3, 0, 1, 3, 1],
        ),
        (&six, SIX, [6, 6, 0, 1, 6, 2]),
        (&[128; 17], b"rest\n", [17, 17, 0, 1, 17, 17]),
        (&[128; 2], b"next\n", [1, 1, 0, 1, 1, 0]),
    ];
    for (lumas, text, counts) in rows {
        let end = run_of(alloc, lumas, text, &mut NoDiary)?;
        assert_eq!(rt; end, Some(RunEnd::Ok(summary(counts))));
    }
    Ok(())
}

// Sixteen choices of which nothing is heard, so many microseconds, and one more.
fn after_sixteen(alloc: Global, wait: &[u8]) -> Result<Option<RunEnd>, AllocError> {
    let mut text = Vec::new(alloc);
    for _line in 0..16 {
        text.extend_from_slice(b"next\n")?;
    }
    text.extend_from_slice(wait)?;
    text.extend_from_slice(b"next\n")?;
    run_of(alloc, &[128; 17], text.as_slice(), &mut NoDiary)
}

#[test]
fn choices_of_nothing_and_of_key_frames_are_counted(rt: HostRuntime) -> Result<(), Fail> {
    let alloc = rt.alloc();
    let full = after_sixteen(alloc, b"")?;
    assert_eq!(rt; full, Some(RunEnd::Ok(summary([17, 16, 1, 1, 16, 0]))));
    let again = after_sixteen(alloc, b"wait 500000\n")?;
    assert_eq!(rt; again, Some(RunEnd::Ok(summary([17, 17, 0, 2, 17, 0]))));
    Ok(())
}
