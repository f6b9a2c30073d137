//! What a run is asked by: its words, the nodes of its rack, and how its script may come.
use block_disk::{CrashDisk, Disk, MemPlatter};
use std::alloc::Global;
use std::io::{self, Read};
use std::test::Fail;
use test_scripts::one_node::{COMMITTING, OPENING, run_over, shown};
use test_scripts::racks::zeros;
use test_scripts::texts::{joined, repeated};
use test_scripts::{Exit, NodeUnits, Rack, RackCause, run};
use transcript::{MemSink, MemSource, ReaderSource, Source};
use vms_base::NodeName;

#[test]
fn a_last_line_needs_no_line_feed(rt: HostRuntime) -> Result<(), Fail> {
    let table: [(&[u8], &[u8], Exit); 3] = [
        (b"A: PUT T F 1 \"a", b"1 BADLINE 14\n", Exit::BadLine),
        (b"A: INIT", b"1 SS$_NORMAL\n", Exit::Done),
        (b"! no statement", b"", Exit::Done),
    ];
    for (script, want, end) in table {
        let mut source = MemSource::new(rt.alloc(), script.to_vec(rt.alloc())?);
        let mut sink = MemSink::new(rt.alloc(), 100)?;
        let platter = MemPlatter::new(rt.alloc(), 8_192)?;
        let exit = run_over(rt.alloc(), platter, &mut source, &mut sink)?;
        assert_eq!(rt; exit, end);
        assert_eq!(rt; sink.bytes(), want);
    }
    Ok(())
}

#[test]
fn scripts_need_not_open_a_node(rt: HostRuntime) -> Result<(), Fail> {
    for (script, want) in [
        (b"".as_slice(), b"".as_slice()),
        (b"A: PUT T F 1 \"a\"\n", b"1 NODEDOWN\n"),
    ] {
        let mut source = MemSource::new(rt.alloc(), script.to_vec(rt.alloc())?);
        let mut sink = MemSink::new(rt.alloc(), 100)?;
        let platter = MemPlatter::new(rt.alloc(), 8_192)?;
        let exit = run_over(rt.alloc(), platter, &mut source, &mut sink)?;
        assert_eq!(rt; exit, Exit::Done);
        assert_eq!(rt; sink.bytes(), want);
    }
    Ok(())
}

// Gives at most so many bytes at a time.
#[derive(Drop)]
struct Pieces<'a> {
    rest: &'a [u8],
    most: usize,
}

impl Read for Pieces<'_> {
    fn read(&mut self, buf: &mut [u8]) -> io::Result<usize> {
        let n = self.rest.len().min(self.most).min(buf.len());
        buf[..n].copy_from_slice(&self.rest[..n]);
        self.rest = &self.rest[n..];
        Ok(n)
    }
}

#[test]
fn a_script_may_come_in_pieces(rt: HostRuntime) -> Result<(), Fail> {
    let script = joined(rt.alloc(), &[OPENING, COMMITTING])?;
    let want = shown(rt.alloc(), COMMITTING, Exit::Done)?;
    for most in 1..8usize {
        let mut source = ReaderSource::new(Pieces {
            rest: &script,
            most,
        });
        let mut sink = MemSink::new(rt.alloc(), 1_000)?;
        let exit = run_over(
            rt.alloc(),
            MemPlatter::new(rt.alloc(), 8_192)?,
            &mut source,
            &mut sink,
        )?;
        assert_eq!(rt; exit, Exit::Done, "pieces of {most}");
        assert_eq!(rt; sink.bytes(), want.as_slice());
    }
    Ok(())
}

#[test]
fn a_script_has_a_million_lines(rt: HostRuntime) -> Result<(), Fail> {
    for (lines, exit, text) in [
        (1_000_000usize, Exit::Done, b"".as_slice()),
        (1_000_001, Exit::TooLong, b"1000001 TOOLONG\n"),
    ] {
        let mut source = MemSource::new(rt.alloc(), repeated(rt.alloc(), b'\n', lines)?);
        let mut sink = MemSink::new(rt.alloc(), 100)?;
        let exit_seen = run_over(
            rt.alloc(),
            MemPlatter::new(rt.alloc(), 8_192)?,
            &mut source,
            &mut sink,
        )?;
        assert_eq!(rt; exit_seen, exit);
        assert_eq!(rt; sink.bytes(), text);
    }
    Ok(())
}

#[test]
fn a_line_has_20000_bytes(rt: HostRuntime) -> Result<(), Fail> {
    for (length, exit, text) in [
        (19_999usize, Exit::Done, b"".as_slice()),
        (20_000, Exit::TooLong, b"1 TOOLONG\n"),
    ] {
        let comment = repeated(rt.alloc(), b'x', length)?;
        let mut source = MemSource::new(rt.alloc(), joined(rt.alloc(), &[b"!", &comment, b"\n"])?);
        let mut sink = MemSink::new(rt.alloc(), 100)?;
        let exit_seen = run_over(
            rt.alloc(),
            MemPlatter::new(rt.alloc(), 8_192)?,
            &mut source,
            &mut sink,
        )?;
        assert_eq!(rt; exit_seen, exit);
        assert_eq!(rt; sink.bytes(), text);
    }
    Ok(())
}

#[test]
fn a_run_makes_100000_labels(rt: HostRuntime) -> Result<(), Fail> {
    let mut script = joined(rt.alloc(), &[OPENING])?;
    for number in 0..100_000u32 {
        let lines = format!(in rt.alloc(); "A: START_TRANS L{number}\nA: ABORT_TRANS L{number}\n")?;
        script.extend_from_slice(lines.as_bytes())?;
    }
    script.extend_from_slice(b"A: START_TRANS M\n")?;
    let mut source = MemSource::new(rt.alloc(), script);
    let mut sink = MemSink::new(rt.alloc(), 16_000_000)?;
    let exit = run_over(
        rt.alloc(),
        MemPlatter::new(rt.alloc(), 8_192)?,
        &mut source,
        &mut sink,
    )?;
    assert_eq!(rt; exit, Exit::Done);
    assert!(rt;
        sink.bytes()
            .ends_with(b"\n200004 SS$_NORMAL\n200005 LABEL\n")
    );
    Ok(())
}

// Adds a node with a disk of so many blocks, and tells why it was refused, with the blocks of the disk that came back.
fn added(
    alloc: Global,
    rack: &mut Rack<CrashDisk<MemPlatter>>,
    name: &[u8],
    blocks: u32,
) -> Result<Option<(RackCause, u32)>, Fail> {
    let name = NodeName::new(name).ok_or("a name")?;
    let disk = zeros(alloc, blocks)?;
    match rack.add(name, disk) {
        Ok(()) => Ok(None),
        Err(refused) => Ok(Some((refused.cause, refused.disk.blocks()))),
    }
}

#[test]
fn a_rack_refuses_a_node_and_gives_its_disk_back(rt: HostRuntime) -> Result<(), Fail> {
    let mut rack = Rack::new(rt.alloc());
    for (name, blocks, refusal) in [
        (b"A".as_slice(), 4_096, None),
        (b"a", 4_097, Some((RackCause::Name, 4_097))),
        (b"B", 4_095, Some((RackCause::Size, 4_095))),
        (b"B", 4_096, None),
        (b"C", 4_096, None),
        (b"D", 4_096, None),
        (b"E", 4_096, None),
        (b"F", 4_096, None),
        (b"G", 4_096, None),
        (b"H", 4_096, None),
        (b"I", 4_098, Some((RackCause::Full, 4_098))),
    ] {
        assert_eq!(rt; added(rt.alloc(), &mut rack, name, blocks)?, refusal);
    }
    assert_eq!(rt; rack.len(), 8);
    Ok(())
}

#[test]
fn words_that_are_no_command_leave_the_script_unread(rt: HostRuntime) -> Result<(), Fail> {
    for texts in [
        ["dtm", "RUN"].as_slice(),
        ["dtm", "MAKE", "0", "1"].as_slice(),
    ] {
        let mut words = Vec::new(rt.alloc());
        for text in texts {
            words.push(String::from_str(rt.alloc(), text)?)?;
        }
        let mut rack: Rack<CrashDisk<MemPlatter>> = Rack::new(rt.alloc());
        let mut source = MemSource::new(rt.alloc(), b"A: INIT\n".to_vec(rt.alloc())?);
        let mut sink = MemSink::new(rt.alloc(), 100)?;
        let exit = run::<_, _, _, NodeUnits>(rt.alloc(), &words, &mut source, &mut sink, &mut rack);
        assert_eq!(rt; exit, Exit::Usage);
        assert_eq!(rt;
            sink.bytes(),
            b"usage: dtm RUN NODE=IMAGE ... or dtm MAKE n start\n".as_slice()
        );
        let mut left = [0u8; 20];
        assert_eq!(rt; source.read(&mut left), Ok(8));
    }
    Ok(())
}
