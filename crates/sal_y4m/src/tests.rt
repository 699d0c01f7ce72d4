ghost use Rattle.std.specs.Prelude.{Some, []};

use super::*;
use sal_base::Bytes;
use sal_io::{MemSink, MemSource, Sink, Source, Wrote};
use std::alloc::{AllocError, Global};
use std::test::Fail;

const CLIP: &[u8] = b"YUV4MPEG2 W2 H2\nFRAME\nabcdUVFRAME\nefghXY";

const WRITTEN: &[u8] = b"YUV4MPEG2 W2 H2 F30:1 Ip A0:0 C420jpeg\nFRAME\nabcdUVFRAME\nefghXY";

fn reader(alloc: Global, bytes: &[u8], failing: &[u64]) -> Result<Reader<MemSource>, AllocError> {
    Ok(Reader::new(MemSource::new(
        Bytes::new(alloc),
        Bytes::from_slice(alloc, bytes)?,
        Vec::from_slice(alloc, failing)?,
    )))
}

// A sink that takes one byte in each call.
#[derive(Drop)]
struct Slow {
    bytes: Bytes,
    faults: u64,
}

impl Sink for Slow {
    ghost name = { λ _. [] };

    ghost held = { λ s. Some s.bytes };

    ghost faults = { λ s. s.faults };

    fn faults(&self) -> u64 {
        self.faults
    }

    fn write(&mut self, bytes: &[u8]) -> Wrote {
        match self.bytes.extend(&bytes[..1]) {
            Ok(()) => Wrote::Wrote(1),
            Err(_) => {
                self.faults = self.faults.saturating_add(1);
                Wrote::Failed
            }
        }
    }
}

#[test]
fn clip_through_short_writes(rt: HostRuntime) -> Result<(), Fail> {
    let alloc = rt.alloc();
    let mut reader = reader(alloc, CLIP, &[])?;
    let mut writer = Writer::new(Slow {
        bytes: Bytes::new(alloc),
        faults: 0,
    });
    assert_eq!(rt; reader.open(), Ok(()));
    let head = reader.head();
    assert_eq!(rt; (head.width, head.height, head.rate), (2, 2, (30, 1)));
    assert_eq!(rt; writer.open(head), Ok(()));
    for pass in 0..4 {
        match reader.next(alloc) {
            Ok(Some(picture)) => {
                assert!(rt; pass < 2);
                assert_eq!(rt; writer.put(&picture), Ok(()));
            }
            Ok(None) => assert!(rt; pass >= 2),
            Err(_) => panic!(rt; "not read"),
        }
    }
    assert_eq!(rt; writer.into_sink().bytes.as_slice(), WRITTEN);
    Ok(())
}

// What the header of these bytes is read as.
fn head_of(alloc: Global, bytes: &[u8]) -> Result<Result<Head, Y4mFault>, AllocError> {
    let mut reader = reader(alloc, bytes, &[])?;
    Ok(match reader.open() {
        Ok(()) => Ok(reader.head()),
        Err(fault) => Err(fault),
    })
}

#[test]
fn headers_are_read(rt: HostRuntime) -> Result<(), Fail> {
    let alloc = rt.alloc();
    let lines: [(&[u8], u16, u16, (u32, u32)); 11] = [
        (b"YUV4MPEG2 W16 H16\n", 16, 16, (30, 1)),
        (b"YUV4MPEG2 W16 H16 F25:1\n", 16, 16, (25, 1)),
        // What ffmpeg writes.
        (
            b"YUV4MPEG2 W64 H48 F30:1 Ip A1:1 C420jpeg XYSCSS=420JPEG\n",
            64,
            48,
            (30, 1),
        ),
        (
            b"YUV4MPEG2 W64 H48 F30000:1001 Ip A1:1 C420mpeg2 XYSCSS=420MPEG2\nFRAME\n",
            64,
            48,
            (30_000, 1_001),
        ),
        (
            b"YUV4MPEG2 W64 H48 F25:1 I? A0:0 C420paldv XYSCSS=420PALDV\n",
            64,
            48,
            (25, 1),
        ),
        // Spaces, any order, and the longest numbers.
        (
            b"YUV4MPEG2   C420 X H0000000720  W1280 F4294967295:0000000002  \n",
            1280,
            720,
            (4_294_967_295, 2),
        ),
        (b"YUV4MPEG2 W1 H1 F0:0\n", 1, 1, (30, 1)),
        // The last of a letter counts, and what comes after its text doesn't.
        (b"YUV4MPEG2 W1 H2 F0:0 W3 F1:2 H5 F3:4\n", 3, 5, (3, 4)),
        (b"YUV4MPEG2 F5:1 W2 H2 F0:0\n", 2, 2, (30, 1)),
        (b"YUV4MPEG2 W16 H16 XW0 X\xffH0\t\n", 16, 16, (30, 1)),
        // 256 bytes with the newline.
        (
            b"YUV4MPEG2 W16 H16 X01234567890123456789012345678901234567890123456789012345678901234567890123456789012345678901234567890123456789012345678901234567890123456789012345678901234567890123456789012345678901234567890123456789012345678901234567890123456789012345\n",
            16,
            16,
            (30, 1),
        ),
    ];
    for (line, width, height, rate) in lines {
        let head = Head {
            width,
            height,
            rate,
        };
        assert_eq!(rt; head_of(alloc, line)?, Ok(head));
    }
    Ok(())
}

#[test]
fn faults_of_headers_stand_at_their_places(rt: HostRuntime) -> Result<(), Fail> {
    let alloc = rt.alloc();
    let lines: [(&[u8], u64, Why); 44] = [
        (b"", 0, Why::Magic),
        (b"YUV4MPEG", 0, Why::Magic),
        (b"YUV4MPEG2W16 H16\n", 0, Why::Magic),
        (b"yuv4mpeg2 W16 H16\n", 0, Why::Magic),
        (b"\nYUV4MPEG2 W16 H16\n", 0, Why::Magic),
        // No newline among 256 bytes, and one byte fewer.
        (
            b"YUV4MPEG2 W0 X01234567890123456789012345678901234567890123456789012345678901234567890123456789012345678901234567890123456789012345678901234567890123456789012345678901234567890123456789012345678901234567890123456789012345678901234567890123456789012345678901\n",
            0,
            Why::Line,
        ),
        (
            b"ZUV4MPEG2 W0 X01234567890123456789012345678901234567890123456789012345678901234567890123456789012345678901234567890123456789012345678901234567890123456789012345678901234567890123456789012345678901234567890123456789012345678901234567890123456789012345678901\n",
            0,
            Why::Magic,
        ),
        (
            b"YUV4MPEG2 W0 X0123456789012345678901234567890123456789012345678901234567890123456789012345678901234567890123456789012345678901234567890123456789012345678901234567890123456789012345678901234567890123456789012345678901234567890123456789012345678901234567890",
            255,
            Why::Cut,
        ),
        (b"YUV4MPEG2", 9, Why::Cut),
        (b"YUV4MPEG2 W0 Q", 14, Why::Cut),
        (b"YUV4MPEG2 W0 H16\n", 10, Why::Side),
        (b"YUV4MPEG2 W16 H0\n", 14, Why::Side),
        (b"YUV4MPEG2 W1281 H16\n", 10, Why::Side),
        (b"YUV4MPEG2 W16 H721\n", 14, Why::Side),
        (b"YUV4MPEG2 W H16\n", 10, Why::Side),
        (b"YUV4MPEG2 W16x H16\n", 10, Why::Side),
        (b"YUV4MPEG2 W00000000016 H16\n", 10, Why::Side),
        // 16 and 2 to the 32.
        (b"YUV4MPEG2 W4294967312 H16\n", 10, Why::Side),
        (b"YUV4MPEG2 W16  H-1\n", 15, Why::Side),
        (b"YUV4MPEG2 W0 W16 H16\n", 10, Why::Side),
        (b"YUV4MPEG2 W16 H16 F30\n", 18, Why::Rate),
        (b"YUV4MPEG2 W16 H16 F0:1\n", 18, Why::Rate),
        (b"YUV4MPEG2 W16 H16 F1:0\n", 18, Why::Rate),
        (b"YUV4MPEG2 W16 H16 F00:0\n", 18, Why::Rate),
        (b"YUV4MPEG2 W16 H16 F30:1:1\n", 18, Why::Rate),
        (b"YUV4MPEG2 W16 H16 F4294967296:1\n", 18, Why::Rate),
        (b"YUV4MPEG2 F W16 H16\n", 10, Why::Rate),
        (b"YUV4MPEG2 W16 H16 It\n", 18, Why::Interlace),
        (b"YUV4MPEG2 W16 H16 I\n", 18, Why::Interlace),
        (b"YUV4MPEG2 W16 H16 Ip I??\n", 21, Why::Interlace),
        (b"YUV4MPEG2 W16 H16 C422\n", 18, Why::Colour),
        (b"YUV4MPEG2 W16 H16 C\n", 18, Why::Colour),
        (b"YUV4MPEG2 W16 H16 C420p10\n", 18, Why::Colour),
        (b"YUV4MPEG2 W16 H16 A1\n", 18, Why::Param),
        (b"YUV4MPEG2 W16 H16 A1:\n", 18, Why::Param),
        (b"YUV4MPEG2 W16 Z H16\n", 14, Why::Param),
        (b"YUV4MPEG2 W16 w16 H16\n", 14, Why::Param),
        (b"YUV4MPEG2 \tW16 H16\n", 10, Why::Param),
        // The first from left to right.
        (b"YUV4MPEG2 Q W0\n", 10, Why::Param),
        (b"YUV4MPEG2 C1 F1 W0\n", 10, Why::Colour),
        (b"YUV4MPEG2\n", 9, Why::Missing),
        (b"YUV4MPEG2 W16\n", 13, Why::Missing),
        (b"YUV4MPEG2 H16  \nW16\n", 15, Why::Missing),
        (b"YUV4MPEG2 F1:1 C420 Xa\n", 22, Why::Missing),
    ];
    for (line, place, why) in lines {
        assert_eq!(rt; head_of(alloc, line)?, Err(Y4mFault::Bad(place, why)));
    }
    Ok(())
}

#[test]
fn faults_of_pictures_stand_at_their_places(rt: HostRuntime) -> Result<(), Fail> {
    let alloc = rt.alloc();
    // Each begins with a header of 16 bytes.
    let clips: [(&[u8], &[u64], Y4mFault); 14] = [
        (b"YUV4MPEG2 W2 H2\nFRAME", &[], Y4mFault::Bad(21, Why::Cut)),
        (b"YUV4MPEG2 W2 H2\nX", &[], Y4mFault::Bad(17, Why::Cut)),
        (
            b"YUV4MPEG2 W2 H2\nFRAME\n",
            &[],
            Y4mFault::Bad(22, Why::Cut),
        ),
        (
            b"YUV4MPEG2 W2 H2\nFRAME\nabc",
            &[],
            Y4mFault::Bad(25, Why::Cut),
        ),
        (
            b"YUV4MPEG2 W2 H2\nFRAME\nabcdU",
            &[],
            Y4mFault::Bad(27, Why::Cut),
        ),
        (
            b"YUV4MPEG2 W2 H2\n\nabcdUV",
            &[],
            Y4mFault::Bad(16, Why::Frame),
        ),
        (
            b"YUV4MPEG2 W2 H2\nFRAMES\nabcdUV",
            &[],
            Y4mFault::Bad(16, Why::Frame),
        ),
        (
            b"YUV4MPEG2 W2 H2\n FRAME\n",
            &[],
            Y4mFault::Bad(16, Why::Frame),
        ),
        (
            b"YUV4MPEG2 W2 H2\nFRAM\n",
            &[],
            Y4mFault::Bad(16, Why::Frame),
        ),
        (
            b"YUV4MPEG2 W2 H2\nFRAME X012345678901234567890123456789012345678901234567890123456789012345678901234567890123456789012345678901234567890123456789012345678901234567890123456789012345678901234567890123456789012345678901234567890123456789012345678901234567890123456789012345678\nabcdUV",
            &[],
            Y4mFault::Bad(16, Why::Line),
        ),
        (
            b"YUV4MPEG2 W2 H2\nABCDEFX012345678901234567890123456789012345678901234567890123456789012345678901234567890123456789012345678901234567890123456789012345678901234567890123456789012345678901234567890123456789012345678901234567890123456789012345678901234567890123456789012345678",
            &[],
            Y4mFault::Bad(16, Why::Line),
        ),
        (CLIP, &[17], Y4mFault::ReadFault),
        (CLIP, &[23], Y4mFault::ReadFault),
        (CLIP, &[25], Y4mFault::ReadFault),
    ];
    for (bytes, failing, fault) in clips {
        let mut reader = reader(alloc, bytes, failing)?;
        assert_eq!(rt; reader.open(), Ok(()));
        assert_eq!(rt; reader.next(alloc).err(), Some(fault));
        assert_eq!(rt; reader.next(alloc).err(), Some(fault));
        let faults = reader.into_source().faults();
        assert_eq!(rt; faults, failing.len() as u64);
    }
    Ok(())
}

#[test]
fn text_of_a_frame_line_is_skipped(rt: HostRuntime) -> Result<(), Fail> {
    let alloc = rt.alloc();
    let clip = b"YUV4MPEG2 W2 H2 F25:1\nFRAME \nabcdUVFRAME Ip XFRAME\nefghXYFRAME\nefghX";
    let mut reader = reader(alloc, clip, &[])?;
    assert_eq!(rt; reader.open(), Ok(()));
    let mut writer = Writer::new(Slow {
        bytes: Bytes::new(alloc),
        faults: 0,
    });
    for pass in 0..3 {
        match reader.next(alloc) {
            Ok(Some(picture)) => {
                assert!(rt; pass < 2);
                assert_eq!(rt; writer.put(&picture), Ok(()));
            }
            Ok(None) => panic!(rt; "no end"),
            Err(fault) => {
                assert!(rt; pass == 2);
                assert_eq!(rt; fault, Y4mFault::Bad(68, Why::Cut));
            }
        }
    }
    assert_eq!(rt;
        writer.into_sink().bytes.as_slice(),
        b"FRAME\nabcdUVFRAME\nefghXY".as_slice()
    );
    Ok(())
}

#[test]
fn last_byte_of_a_clip_is_missing(rt: HostRuntime) -> Result<(), Fail> {
    let alloc = rt.alloc();
    let mut bytes = Bytes::new(alloc);
    bytes.extend(b"YUV4MPEG2 W16 H16\nFRAME\n")?;
    bytes.extend(&[128; 383])?;
    let mut reader = Reader::new(MemSource::new(Bytes::new(alloc), bytes, Vec::new(alloc)));
    assert_eq!(rt; reader.open(), Ok(()));
    assert_eq!(rt;
        reader.next(alloc).err(),
        Some(Y4mFault::Bad(407, Why::Cut))
    );
    Ok(())
}

#[test]
fn faults_are_kept(rt: HostRuntime) -> Result<(), Fail> {
    let alloc = rt.alloc();
    let mut reader = reader(alloc, b"YUV4MPEG2 W16 H16 It\nFRAME\n", &[])?;
    let fault = Y4mFault::Bad(18, Why::Interlace);
    assert_eq!(rt; reader.open(), Err(fault));
    assert_eq!(rt; reader.next(alloc).err(), Some(fault));
    let mut writer = Writer::new(MemSink::new(
        Bytes::new(alloc),
        Bytes::new(alloc),
        Vec::from_slice(alloc, &[3])?,
    ));
    let head = Head {
        width: 2,
        height: 2,
        rate: (30, 1),
    };
    assert_eq!(rt; writer.open(head), Err(WriteFault));
    assert_eq!(rt; writer.open(head), Err(WriteFault));
    let sink = writer.into_sink();
    assert_eq!(rt; sink.bytes(), b"YUV4MPEG2 W2".as_slice());
    assert_eq!(rt; sink.faults(), 1);
    Ok(())
}

#[test]
fn words_of_the_reasons(rt: HostRuntime) {
    let words: [(Why, &[u8]); 10] = [
        (Why::Magic, b"magic"),
        (Why::Cut, b"cut"),
        (Why::Line, b"line"),
        (Why::Side, b"side"),
        (Why::Rate, b"rate"),
        (Why::Interlace, b"interlace"),
        (Why::Colour, b"colour"),
        (Why::Param, b"param"),
        (Why::Missing, b"missing"),
        (Why::Frame, b"frame"),
    ];
    for (why, word) in words {
        assert_eq!(rt; why.word(), word);
    }
}
