use super::*;
use sal_base::Bytes;
use sal_io::{MemSource, Source};
use std::alloc::{AllocError, Global};
use std::test::Fail;

const MOST_SCRIPT: usize = 16_777_216;

// What reading this text answers where these calls fail, and how often the source failed.
fn read(
    alloc: Global,
    text: &[u8],
    failing: &[u64],
) -> Result<(Result<Script, ScriptFault>, u64), AllocError> {
    let mut source = MemSource::new(
        Bytes::from_slice(alloc, b"script")?,
        Bytes::from_slice(alloc, text)?,
        Vec::from_slice(alloc, failing)?,
    );
    let answer = read_script(alloc, &mut source);
    Ok((answer, source.faults()))
}

// Whether this text is a script of these lines.
fn says(alloc: Global, text: &[u8], lines: &[(u32, ScriptLine)]) -> Result<bool, AllocError> {
    match read(alloc, text, &[])?.0 {
        Ok(script) => Ok(script.lines() == lines),
        Err(_) => Ok(false),
    }
}

// The fault of a text, or None where it is a script.
fn fault(alloc: Global, text: &[u8], failing: &[u64]) -> Result<Option<ScriptFault>, AllocError> {
    Ok(read(alloc, text, failing)?.0.err())
}

// A comment of so many bytes, without its newline.
fn comment(alloc: Global, count: usize) -> Result<Vec<u8>, AllocError> {
    Ok(Bytes::repeat(alloc, b'#', count)?.into_vec())
}

#[test]
fn every_kind_of_line(rt: HostRuntime) -> Result<(), Fail> {
    let alloc = rt.alloc();
    let kinds: [(&[u8], ScriptLine); 13] = [
        (b"next", ScriptLine::Next),
        (b"next late", ScriptLine::NextLate),
        (b"down 1", ScriptLine::Down(1)),
        (b"down 4294967295", ScriptLine::Down(4294967295)),
        (b"down 01", ScriptLine::Down(1)),
        (b"down 0000000001", ScriptLine::Down(1)),
        (b"up 20", ScriptLine::Up(20)),
        (b"downall", ScriptLine::DownAll),
        (b"upall", ScriptLine::UpAll),
        (b"wait 0", ScriptLine::Wait(0)),
        (b"wait 1000000000", ScriptLine::Wait(1000000000)),
        (b"wait 0033333333", ScriptLine::Wait(33333333)),
        (b"rest", ScriptLine::Rest),
    ];
    for (line, wanted) in kinds {
        let mut text = Vec::from_slice(alloc, b"next\n")?;
        text.extend_from_slice(line)?;
        let lines = [(1, ScriptLine::Next), (2, wanted)];
        assert!(rt; says(alloc, &text, &lines)?);
        text.push(b'\n')?;
        assert!(rt; says(alloc, &text, &lines)?);
    }
    Ok(())
}

#[test]
fn lines_outside_the_grammar(rt: HostRuntime) -> Result<(), Fail> {
    let alloc = rt.alloc();
    let lines: [&[u8]; 26] = [
        b"jump",
        b"Next",
        b" next",
        b"next ",
        b"next\r",
        b"next  late",
        b"nextlate",
        b"next\tlate",
        b"down",
        b"down ",
        b"down 0",
        b"down 00",
        b"down  1",
        b"down 1 ",
        b"down 1x",
        b"down +1",
        b"down -1",
        b"down 4294967296",
        b"down 00000000001",
        b"up 0",
        b"upall ",
        b"wait",
        b"wait 1000000001",
        b"wait -1",
        b" ",
        b" # no comment",
    ];
    for line in lines {
        let mut text = Vec::from_slice(alloc, b"next\n")?;
        text.extend_from_slice(line)?;
        assert_eq!(rt; fault(alloc, &text, &[])?, Some(ScriptFault::Bad(2)));
        text.extend_from_slice(b"\nalso bad\n")?;
        assert_eq!(rt; fault(alloc, &text, &[])?, Some(ScriptFault::Bad(2)));
    }
    Ok(())
}

#[test]
fn skipped_lines_count(rt: HostRuntime) -> Result<(), Fail> {
    let alloc = rt.alloc();
    let text = b"# two pictures\n\nnext\n#\n\n\ndown 1\n#rest\nup 1\n\n# end";
    let lines = [
        (3, ScriptLine::Next),
        (7, ScriptLine::Down(1)),
        (9, ScriptLine::Up(1)),
    ];
    assert!(rt; says(alloc, text, &lines)?);
    assert!(rt; says(alloc, b"", &[])?);
    assert!(rt; says(alloc, b"\n", &[])?);
    assert_eq!(rt; fault(alloc, b"#\n\njump", &[])?, Some(ScriptFault::Bad(3)));
    match read(alloc, text, &[])?.0 {
        Ok(script) => {
            assert_eq!(rt; script.lines().len(), 3);
            assert_eq!(rt; script.get(1), Some((7, ScriptLine::Down(1))));
            assert_eq!(rt; script.get(3), None);
        }
        Err(_) => assert!(rt; false),
    }
    Ok(())
}

#[test]
fn limits(rt: HostRuntime) -> Result<(), Fail> {
    let alloc = rt.alloc();
    // the bytes of a line, whether a newline ends it, and whether the line is in the grammar
    for (count, ended, good) in [
        (63usize, true, true),
        (64, false, true),
        (64, true, false),
        (65, false, false),
        (100000, true, false),
    ] {
        let mut text = comment(alloc, count)?;
        if ended {
            text.extend_from_slice(b"\nnext\n")?;
        }
        let wanted = if good {
            None
        } else {
            Some(ScriptFault::Bad(1))
        };
        assert_eq!(rt; fault(alloc, &text, &[])?, wanted);
    }
    // blank lines up to the last byte that a script may have, and past it
    for (count, wanted) in [
        (MOST_SCRIPT, None),
        (MOST_SCRIPT + 1, Some(ScriptFault::Bad(16777217))),
        (MOST_SCRIPT + 200000, Some(ScriptFault::Bad(16777217))),
    ] {
        let text = Bytes::repeat(alloc, b'\n', count)?;
        assert_eq!(rt; fault(alloc, text.as_slice(), &[])?, wanted);
    }
    Ok(())
}

#[test]
fn a_read_that_fails(rt: HostRuntime) -> Result<(), Fail> {
    let alloc = rt.alloc();
    let long = Bytes::repeat(alloc, b'\n', 100000)?;
    let texts: [&[u8]; 3] = [b"next\n", b"jump\nnext\n", long.as_slice()];
    for text in texts {
        for call in [1u64, 2] {
            let (answer, faults) = read(alloc, text, &[call])?;
            assert_eq!(rt; answer.err(), Some(ScriptFault::ReadFault));
            assert_eq!(rt; faults, 1);
        }
    }
    assert_eq!(rt; fault(alloc, b"jump\n", &[3])?, Some(ScriptFault::Bad(1)));
    Ok(())
}
