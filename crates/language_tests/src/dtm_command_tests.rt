ghost use Rattle.dtm_command.specs.Images.{untold};

use block_disk::{CrashDisk, Disk, MemPlatter};
use dtm_command::{
    Failed, ImageFiles, OpenErr, Refusal, Tail, WatchedSink, WatchedSource, bad_line, blocks_in,
    image_words, node_and_image, open_image, said_of_images, too_long,
};
use std::alloc::{AllocError, Global};
use std::test::Fail;
use transcript::{MemSink, MemSource, Sink, Source};
use vms_base::NodeName;

#[test]
fn words_name_nodes_and_images(rt: HostRuntime) -> Result<(), Fail> {
    let a = NodeName::new(b"A").ok_or("a name")?;
    assert_eq!(rt; node_and_image("a=x=y"), Some((a, "x=y")));
    for word in ["", "A", "A=", "=x", "-A=x", "ABCDEFGHI=x"] {
        assert_eq!(rt; node_and_image(word), None, "{word}");
    }
    Ok(())
}

#[test]
fn images_have_whole_blocks(rt: HostRuntime) -> Result<(), Fail> {
    for (bytes, blocks) in [
        (2_097_152u64, Some(4_096u32)),
        (2_096_640, None),
        (2_097_153, None),
        (33_554_432, Some(65_536)),
        (33_554_944, None),
        (0, None),
    ] {
        assert_eq!(rt; blocks_in(bytes), blocks, "{bytes} bytes");
    }
    Ok(())
}

// Files in memory: `small`, `odd` and `broken`, a file that is not there, and under any other path one of 4,096 blocks.
#[derive(Drop)]
struct TestFiles;

impl ImageFiles for TestFiles {
    type File = u64;

    type Image = CrashDisk<MemPlatter>;

    ghost store = { λ files. untold };

    fn open(&self, path: &str) -> Result<Option<u64>, Failed> {
        match path {
            "new" | "full" => Ok(None),
            "small" => Ok(Some(4_095 * 512)),
            "odd" => Ok(Some(4_096 * 512 + 1)),
            "broken" => Err(Failed::Held),
            _ => Ok(Some(4_096 * 512)),
        }
    }

    fn make(&self, path: &str, bytes: u64) -> Result<u64, Failed> {
        if path == "full" {
            Err(Failed::Stream)
        } else {
            Ok(bytes)
        }
    }

    fn bytes(&self, _path: &str, file: &u64) -> Result<u64, Failed> {
        Ok(*file)
    }

    fn disk(
        &self,
        alloc: Global,
        _file: u64,
        blocks: u32,
    ) -> Result<CrashDisk<MemPlatter>, AllocError> {
        CrashDisk::new(alloc, MemPlatter::new(alloc, blocks)?)
    }
}

// The words of a command.
fn owned(alloc: Global, texts: &[&str]) -> Result<Vec<String>, Fail> {
    let mut words = Vec::new(alloc);
    for text in texts {
        words.push(String::from_str(alloc, text)?)?;
    }
    Ok(words)
}

// Which path is told of images that were not opened, and whether its size is told.
fn told<'a>(e: &OpenErr<'a>) -> Option<(&'a str, Option<u64>)> {
    match e {
        OpenErr::Image(path, Refusal::Size(bytes)) => Some((path, Some(*bytes))),
        OpenErr::Image(path, Refusal::Call(_)) => Some((path, None)),
        OpenErr::Memory => None,
    }
}

#[test]
fn an_image_is_opened_or_made(rt: HostRuntime) -> Result<(), Fail> {
    for (path, blocks, error) in [
        ("x", Some(4_096u32), None),
        ("new", Some(8_192), None),
        ("broken", None, Some(("broken", None))),
        ("full", None, Some(("full", None))),
        ("small", None, Some(("small", Some(2_096_640u64)))),
        ("odd", None, Some(("odd", Some(2_097_153)))),
    ] {
        match open_image(&TestFiles, rt.alloc(), path) {
            Ok(image) => {
                assert_eq!(rt; None, error, "{path}");
                assert_eq!(rt; Some(image.blocks()), blocks, "{path}");
            }
            Err(e) => assert_eq!(rt; told(&e), error, "{path}"),
        }
    }
    Ok(())
}

#[test]
fn words_behind_run_name_images_up_to_a_dash(rt: HostRuntime) -> Result<(), Fail> {
    let table: [(&[&str], usize); 6] = [
        (&["dtm", "RUN", "A=x", "help", "=", ""], 4),
        (&["dtm", "RUN", "A=x", "--", "B=y"], 1),
        (&["dtm", "RUN", "-h"], 0),
        (&["dtm", "RUN"], 0),
        (&["dtm", "run", "A=x"], 0),
        (&[], 0),
    ];
    for (texts, count) in table {
        let words = owned(rt.alloc(), texts)?;
        let images = image_words(rt.alloc(), &words)?;
        assert_eq!(rt; images.len(), count, "{texts:?}");
        for (i, image) in images.iter().enumerate() {
            assert_eq!(rt; *image, texts[i + 2], "{texts:?}");
        }
    }
    Ok(())
}

// A source of which this script was read to its end.
fn read_through(alloc: Global, script: Vec<u8>) -> Result<WatchedSource<MemSource>, Fail> {
    let mut source = WatchedSource {
        source: MemSource::new(alloc, script),
        tail: Tail::reserve(alloc)?,
    };
    let mut buffer = [0; 512];
    for _ in 0..4_096u32 {
        if source.read(&mut buffer).is_err() {
            return Err(Fail::from("a read failed"));
        }
    }
    Ok(source)
}

// A sink to which this transcript was written.
fn written(alloc: Global, transcript: &[u8]) -> Result<WatchedSink<MemSink>, Fail> {
    let mut sink = WatchedSink {
        sink: MemSink::new(alloc, 100)?,
        tail: Tail::reserve(alloc)?,
    };
    if transcript.is_empty() {
        return Err(Fail::from("no transcript"));
    }
    match sink.write(transcript) {
        Ok(_) => Ok(sink),
        Err(_) => Err(Fail::from("a write failed")),
    }
}

#[test]
fn a_faulty_line_is_shown_with_what_is_wanted(rt: HostRuntime) -> Result<(), Fail> {
    let table: [(&[u8], &[u8], &str); 4] = [
        (b"A: INIT\n", b"1 SS$_NORMAL\n", ""),
        (
            b"! one\nA: PUT T F 1 %xAA\nA: BOOT\n",
            b"2 BADLINE 14\n",
            "dtm: line 2 is no statement, from column 14 on:
    A: PUT T F 1 %xAA
                 ^
dtm: wanted there: bytes: \"text\" in quotes, or %X and pairs of hexadecimal digits
",
        ),
        (
            b"A: BOOT \x1b[0m",
            b"1 BADLINE 9\n",
            "dtm: line 1 is no statement, from column 9 on:
    A: BOOT .[0m
            ^
dtm: wanted there: the end of the line
",
        ),
        (
            b"A: DUMP",
            b"1 BADLINE 8\n",
            "dtm: line 1 is no statement, from column 8 on:
    A: DUMP
           ^
dtm: wanted there: a file: 1 to 39 letters, digits, _, $ and ., a letter first
",
        ),
    ];
    for (script, transcript, text) in table {
        let source = read_through(rt.alloc(), script.to_vec(rt.alloc())?)?;
        let sink = written(rt.alloc(), transcript)?;
        let seen = bad_line(rt.alloc(), &source.tail, &sink.tail)?;
        assert_eq!(rt; seen.as_str(), text);
    }
    Ok(())
}

#[test]
fn a_limit_that_is_passed_is_told(rt: HostRuntime) -> Result<(), Fail> {
    let table: [(usize, u8, &[u8], &str); 3] = [
        (
            20_001,
            b'x',
            b"1 TOOLONG\n",
            "dtm: line 1 has more than 20000 bytes before its line feed\n",
        ),
        (
            2_000_000,
            b' ',
            b"1 TOOLONG\n",
            "dtm: line 1 has more than 20000 bytes before its line feed\n",
        ),
        (
            1_000_001,
            b'\n',
            b"1000001 TOOLONG\n",
            "dtm: the script has more than 1000000 lines\n",
        ),
    ];
    for (bytes, byte, transcript, text) in table {
        let source = read_through(rt.alloc(), vec![in rt.alloc(); byte; bytes]?)?;
        let sink = written(rt.alloc(), transcript)?;
        let seen = too_long(rt.alloc(), &source.tail, &sink.tail)?;
        assert_eq!(rt; seen.as_str(), text);
    }
    Ok(())
}

#[test]
fn an_image_that_is_refused_is_told_with_its_cause(rt: HostRuntime) -> Result<(), Fail> {
    for (e, text) in [
        (
            OpenErr::Image("x", Refusal::Size(512)),
            "dtm: cannot open x\ndtm: it has 512 bytes, and an image has 4096 to 65536 blocks of 512 bytes\n",
        ),
        (
            OpenErr::Image("x", Refusal::Call(Failed::Held)),
            "dtm: cannot open x\ndtm: another run has it, or another word names it\n",
        ),
        (OpenErr::Memory, "dtm: memory is missing\n"),
    ] {
        let seen = said_of_images(rt.alloc(), &e)?;
        assert_eq!(rt; seen.as_str(), text);
    }
    Ok(())
}
