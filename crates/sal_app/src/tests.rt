use super::*;
use sal_base::Bytes;
use sal_io::{Host, MemFile, MemShelf, MemSink, Shut};
use sal_run::Summary;
use sal_y4m::Why;
use std::alloc::{AllocError, Global};
use std::test::Fail;

const READ: &[u8] = b"YUV4MPEG2 W16 H16\n";

const WRITTEN: &[u8] = b"YUV4MPEG2 W16 H16 F30:1 Ip A0:0 C420jpeg\n";

// A picture that is lost, after one that was acknowledged.
const SIX: &[u8] =
    b"next\ndown 1\nup 1\nnext\nnext\ndown 3\nup 2\nnext\ndown 4\nup 3\nnext\ndown 5\nup 4\nnext\ndown 6\n";

const SIXTEEN: &[u8] =
    b"next\nnext\nnext\nnext\nnext\nnext\nnext\nnext\nnext\nnext\nnext\nnext\nnext\nnext\nnext\nnext\n";

// Which calls on IN, SCRIPT, OUT, the shelf and the screen fail.
#[derive(Clone, Copy)]
struct Failing {
    input: u64,
    script: u64,
    out: u64,
    shelf: u64,
    screen: u64,
}

const NONE: Failing = Failing {
    input: 0,
    script: 0,
    out: 0,
    shelf: 0,
    screen: 0,
};

fn file(alloc: Global, name: &str, bytes: &[u8], failing: u64) -> Result<MemFile, AllocError> {
    Ok(MemFile {
        name: Bytes::from_slice(alloc, name.as_bytes())?,
        bytes: Bytes::from_slice(alloc, bytes)?,
        failing: Vec::from_slice(alloc, &[failing])?,
    })
}

// A clip of 16 by 16 whose pictures have these values of luma, after this header.
fn clip(alloc: Global, header: &[u8], lumas: &[u8]) -> Result<Vec<u8>, AllocError> {
    let mut bytes = Vec::from_slice(alloc, header)?;
    for luma in lumas {
        bytes.extend_from_slice(b"FRAME\n")?;
        bytes.extend_from_slice(&[*luma; 256])?;
        bytes.extend_from_slice(&[128; 128])?;
    }
    Ok(bytes)
}

// One text after the other.
fn joined(alloc: Global, first: &[u8], second: &[u8]) -> Result<Vec<u8>, AllocError> {
    let mut bytes = Vec::from_slice(alloc, first)?;
    bytes.extend_from_slice(second)?;
    Ok(bytes)
}

// The first bytes.
fn front(bytes: &[u8], count: usize) -> &[u8] {
    &bytes[..count.min(bytes.len())]
}

// What a run came to: the status, what OUT then holds, and what was printed.
#[derive(Drop)]
struct Ran {
    status: Status,
    out: Vec<u8>,
    printed: Vec<u8>,
}

// A screen on which the call of this number fails.
fn screen(alloc: Global, failing: u64) -> Result<MemSink, AllocError> {
    Ok(MemSink::new(
        Bytes::new(alloc),
        Bytes::new(alloc),
        Vec::from_slice(alloc, &[failing])?,
    ))
}

// Runs `loop a b c`.
fn run(alloc: Global, input: &[u8], script: &[u8], failing: Failing) -> Result<Ran, AllocError> {
    let mut files = Vec::new(alloc);
    files.push(file(alloc, "a", input, failing.input)?)?;
    files.push(file(alloc, "b", script, failing.script)?)?;
    files.push(file(alloc, "c", b"", failing.out)?)?;
    let mut host = Host {
        files: MemShelf::new(alloc, files, Vec::from_slice(alloc, &[failing.shelf])?),
        screen: screen(alloc, failing.screen)?,
    };
    let mut words = Vec::new(alloc);
    for word in ["loop", "a", "b", "c"] {
        words.push(String::from_str(alloc, word)?)?;
    }
    let status = salsify_alone(alloc, &words, &mut host);
    let mut out = Vec::new(alloc);
    for object in host.files.shut() {
        if let Shut::Sink(sink) = object {
            out.extend_from_slice(sink.bytes())?;
        }
    }
    Ok(Ran {
        status,
        out,
        printed: Vec::from_slice(alloc, host.screen.bytes())?,
    })
}

// Whether a run ends with this status, this is printed, and OUT has pictures of these values of luma, or nothing.
fn ends(
    alloc: Global,
    input: &[u8],
    script: &[u8],
    wanted: Status,
    printed: &[u8],
    shown: Option<&[u8]>,
) -> Result<bool, AllocError> {
    let ran = run(alloc, input, script, NONE)?;
    let text = match shown {
        None => Vec::new(alloc),
        Some(lumas) => clip(alloc, WRITTEN, lumas)?,
    };
    Ok(
        ran.status == wanted
            && ran.printed.as_slice() == printed
            && ran.out.as_slice() == text.as_slice(),
    )
}

// A summary of pictures, choices, those of nothing, key frames, datagrams and pictures shown.
fn well(counts: [u32; 6]) -> Status {
    let [pictures, chosen, nothing, keys, datagrams, shown] = counts;
    Status::Ok(Shows::Loop(Summary {
        pictures,
        chosen,
        nothing,
        keys,
        datagrams,
        shown,
    }))
}

// The six lines of these counts.
fn six_lines(alloc: Global, counts: [u32; 6]) -> Result<Vec<u8>, AllocError> {
    let mut text = Vec::new(alloc);
    let keys = [
        "pictures ",
        "chosen ",
        "nothing ",
        "keys ",
        "datagrams ",
        "shown ",
    ];
    for (key, count) in keys.iter().zip(counts) {
        text.extend_from_slice(key.as_bytes())?;
        let tens = u8::try_from(count / 10).unwrap_or(0);
        if tens > 0 {
            text.push(b'0'.wrapping_add(tens))?;
        }
        text.push(b"0123456789"[(count % 10) as usize])?;
        text.push(b'\n')?;
    }
    Ok(text)
}

#[test]
fn what_is_shown_of_a_clip(rt: HostRuntime) -> Result<(), Fail> {
    let alloc = rt.alloc();
    let six = [128, 100, 72, 44, 90, 60];
    let mut long = [128; 17];
    long[16] = 9;
    // the pictures, the script in two parts, the pictures that are shown, and the counts
    let rows: [(&[u8], &[u8], &[u8], &[u8], [u32; 6]); 14] = [
        (&[128], b"next\ndown 1\n", b"", &[128], [1, 1, 0, 1, 1, 1]),
        (&[128], b"next\ndownall\n", b"", &[128], [1, 1, 0, 1, 1, 1]),
        (
            &[128],
            b"next late\n",
            b"downall\n",
            &[128],
            [1, 1, 0, 1, 1, 1],
        ),
        (
            &[128],
            b"# one\n\nnext\n",
            b"downall",
            &[128],
            [1, 1, 0, 1, 1, 1],
        ),
        (&[1, 2, 3], b"", b"", &[], [0, 0, 0, 0, 0, 0]),
        // each waits for its source
        (
            &[1, 2, 3],
            b"next\nnext\nnext\n",
            b"down 2\ndown 1\ndown 3\ndown 3\n",
            &[1, 2, 3],
            [3, 3, 0, 1, 3, 3],
        ),
        (&[1, 2, 3], b"rest\n", b"", &[1, 2, 3], [3, 3, 0, 1, 3, 3]),
        (
            &[128, 128],
            b"next\ndownall\n",
            b"next\ndownall\n",
            &[128, 128],
            [2, 2, 0, 1, 2, 2],
        ),
        // the loss is found, and the next picture comes from what was acknowledged
        (&six, SIX, b"", &[128, 60], [6, 6, 0, 1, 6, 2]),
        (&six, SIX, b"down 2\n", &[128, 60], [6, 6, 0, 1, 6, 2]),
        (
            &[7, 8, 9, 10],
            b"next\ndown 1\nnext\ndown 2\nup 2\n",
            b"next\ndown 3\nup 3\nnext\nup 2\n",
            &[7, 8, 9],
            [4, 4, 0, 1, 4, 3],
        ),
        (
            &long,
            SIXTEEN,
            b"wait 500000\nnext\n",
            &[],
            [17, 17, 0, 2, 17, 0],
        ),
        // after half a second without an answer a key frame is sent, and without that time nothing
        (
            &long,
            SIXTEEN,
            b"wait 500000\nnext\ndown 17\n",
            &[9],
            [17, 17, 0, 2, 17, 1],
        ),
        (
            &long,
            SIXTEEN,
            b"next\ndown 16\n",
            &[],
            [17, 16, 1, 1, 16, 0],
        ),
    ];
    for (lumas, first, second, shown, counts) in rows {
        let input = clip(alloc, READ, lumas)?;
        let script = joined(alloc, first, second)?;
        let printed = six_lines(alloc, counts)?;
        assert!(rt; ends(alloc, &input, &script, well(counts), &printed, Some(shown))?);
    }
    Ok(())
}

// A clip of pictures of these sides, each of one value.
fn grey(
    alloc: Global,
    header: &[u8],
    samples: usize,
    pictures: u32,
) -> Result<Vec<u8>, AllocError> {
    let mut bytes = Vec::from_slice(alloc, header)?;
    let picture = vec![in alloc; 128u8; samples]?;
    for _picture in 0..pictures {
        bytes.extend_from_slice(b"FRAME\n")?;
        bytes.extend_from_slice(picture.as_slice())?;
    }
    Ok(bytes)
}

// Where there is memory, wide and high pictures are shown, and long runs end well.
#[test]
fn all_pictures_are_shown_with_ample_memory(rt: HostRuntime) -> Result<(), Fail> {
    let alloc = rt.alloc();
    let rows: [(&[u8], usize, u32); 5] = [
        (b"YUV4MPEG2 W641 H9\n", 641 * 9 + 2 * 321 * 5, 3),
        (b"YUV4MPEG2 W1280 H8\n", 1280 * 8 + 2 * 640 * 4, 3),
        (b"YUV4MPEG2 W2 H720\n", 2 * 720 + 2 * 360, 3),
        (b"YUV4MPEG2 W16 H16\n", 384, 130),
        (b"YUV4MPEG2 W1 H1\n", 3, 300),
    ];
    for (header, samples, pictures) in rows {
        let input = grey(alloc, header, samples, pictures)?;
        let ran = run(alloc, &input, b"rest\n", NONE)?;
        let Status::Ok(shows) = ran.status else {
            panic!(rt; "not Ok");
        };
        let counts = shows.counts();
        assert_eq!(rt; (counts.pictures, counts.nothing), (pictures, 0));
        assert_eq!(rt; (counts.chosen, counts.shown), (pictures, pictures));
    }
    Ok(())
}

// IN isn't in the grammar at this byte, for this reason.
fn bad(place: u64, why: Why) -> Status {
    Status::BadInput(Named::Word(1), place, why)
}

// The header of other programs is read, with its rate, and so is the text of a line before a picture.
#[test]
fn header_of_other_programs(rt: HostRuntime) -> Result<(), Fail> {
    let alloc = rt.alloc();
    let mut input = Vec::from_slice(
        alloc,
        b"YUV4MPEG2 W16 H16 F25:1 Ip A1:1 C420jpeg XYSCSS=420JPEG\nFRAME Ip\n",
    )?;
    input.extend_from_slice(&[128; 384])?;
    let ran = run(alloc, &input, b"rest\n", NONE)?;
    let wanted = clip(alloc, b"YUV4MPEG2 W16 H16 F25:1 Ip A0:0 C420jpeg\n", &[128])?;
    assert_eq!(rt; ran.status, well([1, 1, 0, 1, 1, 1]));
    assert!(rt; ran.out.as_slice() == wanted.as_slice());
    Ok(())
}

#[test]
fn every_refusal(rt: HostRuntime) -> Result<(), Fail> {
    let alloc = rt.alloc();
    let one = clip(alloc, READ, &[128])?;
    let three = clip(alloc, READ, &[1, 2, 3])?;
    let long = clip(alloc, READ, &[128; 17])?;
    let seventeen = joined(alloc, SIXTEEN, b"next\ndown 17\n")?;
    let interlaced = clip(alloc, b"YUV4MPEG2 W16 H16 It\n", &[128])?;
    let lines = joined(alloc, &one, b"FRAMES\n")?;
    let first = b"bad script at line 1\n".as_slice();
    let second = b"bad script at line 2\n".as_slice();
    let third = b"bad script at line 3\n".as_slice();
    let late = b"bad script at line 18\n".as_slice();
    let rows: [(&[u8], &[u8], Status, &[u8], Option<&[u8]>); 17] = [
        (&one, b"down 1\n", Status::BadScript(1), first, Some(&[])),
        (
            &one,
            b"next\nnext\n",
            Status::BadScript(2),
            second,
            Some(&[]),
        ),
        (
            &one,
            b"next\n#\ndown 2\n",
            Status::BadScript(3),
            third,
            Some(&[]),
        ),
        (
            &one,
            b"next\nup 1\n",
            Status::BadScript(2),
            second,
            Some(&[]),
        ),
        (
            &one,
            b"next\ndown 1\nnext late\n",
            Status::BadScript(3),
            third,
            Some(&[128]),
        ),
        (&long, &seventeen, Status::BadScript(18), late, Some(&[])),
        (&one, b"next\njump\n", Status::BadScript(2), second, None),
        (&one, b"next\ndown 0\n", Status::BadScript(2), second, None),
        (
            &interlaced,
            b"next\n",
            bad(18, Why::Interlace),
            b"bad input a at byte 18: interlace\n",
            None,
        ),
        (&interlaced, b"jump\n", Status::BadScript(1), first, None),
        (
            b"YUV4MPEG2 W0 H16\n",
            b"",
            bad(10, Why::Side),
            b"bad input a at byte 10: side\n",
            None,
        ),
        (
            b"YUV4MPEG2 W16\n",
            b"",
            bad(13, Why::Missing),
            b"bad input a at byte 13: missing\n",
            None,
        ),
        (
            front(&one, 407),
            b"next\n",
            bad(407, Why::Cut),
            b"bad input a at byte 407: cut\n",
            Some(&[]),
        ),
        (
            front(&one, 19),
            b"",
            bad(19, Why::Cut),
            b"bad input a at byte 19: cut\n",
            Some(&[]),
        ),
        (
            &lines,
            b"rest\n",
            bad(408, Why::Frame),
            b"bad input a at byte 408: frame\n",
            Some(&[128]),
        ),
        (
            front(&three, 1187),
            b"next\nrest\n",
            bad(1187, Why::Cut),
            b"bad input a at byte 1187: cut\n",
            Some(&[1, 2]),
        ),
        (
            front(&three, 1187),
            b"rest\ndown 9\n",
            bad(1187, Why::Cut),
            b"bad input a at byte 1187: cut\n",
            Some(&[1, 2]),
        ),
    ];
    for (input, script, wanted, printed, shown) in rows {
        assert!(rt; ends(alloc, input, script, wanted, printed, shown)?);
    }
    Ok(())
}

#[test]
fn sides_that_are_odd(rt: HostRuntime) -> Result<(), Fail> {
    let alloc = rt.alloc();
    let mut input = Vec::from_slice(alloc, b"YUV4MPEG2 W17 H33\nFRAME\n")?;
    input.extend_from_slice(&[128; 867])?;
    let mut wanted = Vec::from_slice(alloc, b"YUV4MPEG2 W17 H33 F30:1 Ip A0:0 C420jpeg\nFRAME\n")?;
    wanted.extend_from_slice(&[128; 867])?;
    let ran = run(alloc, &input, b"next\ndownall\n", NONE)?;
    assert_eq!(rt; ran.status, well([1, 1, 0, 1, 1, 1]));
    assert_eq!(rt; ran.out.len(), 914);
    assert_eq!(rt; ran.out.as_slice(), wanted.as_slice());
    Ok(())
}

#[test]
fn each_call_fails_in_turn(rt: HostRuntime) -> Result<(), Fail> {
    let alloc = rt.alloc();
    let input = clip(alloc, READ, &[128])?;
    let whole = clip(alloc, WRITTEN, &[128])?;
    let lines = six_lines(alloc, [1, 1, 0, 1, 1, 1])?;
    let mut ends = [0u64; 5];
    for kind in 0..5usize {
        for call in 1..60u64 {
            let (mut failing, wanted) = (
                NONE,
                [
                    Status::ReadFault(Named::Word(1)),
                    Status::ReadFault(Named::Word(2)),
                    Status::WriteFault(Named::Word(3)),
                    Status::OpenFault(Named::Word(call as u32)),
                    Status::WriteFault(Named::Screen),
                ],
            );
            match kind {
                0 => failing.input = call,
                1 => failing.script = call,
                2 => failing.out = call,
                3 => failing.shelf = call,
                _ => failing.screen = call,
            }
            let ran = run(alloc, &input, b"next\ndown 1\n", failing)?;
            assert!(rt; whole.starts_with(&ran.out));
            if matches!(ran.status, Status::Ok(_)) {
                assert_eq!(rt; ran.out.len(), 431);
                assert_eq!(rt; ran.printed.as_slice(), lines.as_slice());
                ends[kind] = call;
                break;
            }
            assert_eq!(rt; ran.status, wanted[kind]);
            assert!(rt; call > 1 || kind > 3 || ran.out.is_empty());
            assert!(rt; kind < 4 || lines.starts_with(&ran.printed));
        }
    }
    // 24 reads of one byte for both lines, three planes, and the end; one read and the end; a write for each part; three opens; a write
    // for each part of the text.
    assert_eq!(rt; ends, [29, 3, 14, 4, 14]);
    Ok(())
}

// A fault is the status, also where its text can't be printed.
#[test]
fn a_screen_that_fails_changes_ok_alone(rt: HostRuntime) -> Result<(), Fail> {
    let alloc = rt.alloc();
    let input = clip(alloc, READ, &[128])?;
    let mut failing = NONE;
    failing.screen = 2;
    let ran = run(alloc, &input, b"down 1\n", failing)?;
    assert_eq!(rt; ran.status, Status::BadScript(1));
    assert_eq!(rt; ran.printed.as_slice(), b"bad script at line ".as_slice());
    failing.shelf = 2;
    failing.screen = 0;
    let unopened = run(alloc, &input, b"down 1\n", failing)?;
    assert_eq!(rt; unopened.printed.as_slice(), b"open fault b\n".as_slice());
    Ok(())
}

#[test]
fn words_outside_the_grammar(rt: HostRuntime) -> Result<(), Fail> {
    let alloc = rt.alloc();
    let lists: [&[&str]; 5] = [
        &[],
        &["loop", "a", "b"],
        &["loop", "a", "b", "c", "d"],
        &["loops", "a", "b", "c"],
        &["check", "a", "b", "c"],
    ];
    for list in lists {
        let mut words = Vec::new(alloc);
        for word in list {
            words.push(String::from_str(alloc, word)?)?;
        }
        let mut host = Host {
            files: MemShelf::new(alloc, Vec::new(alloc), Vec::new(alloc)),
            screen: screen(alloc, 0)?,
        };
        assert_eq!(rt; salsify(&rt, alloc, &words, &mut host), Status::Usage);
        assert!(rt;
            host.screen
                .bytes()
                .starts_with(b"usage: salsify loop, send, receive")
        );
    }
    Ok(())
}
