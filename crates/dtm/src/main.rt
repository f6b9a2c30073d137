//! The program `dtm`: runs the script of the standard input over one image file for each node, and writes its transcript to the
//! standard output; or runs a day of transactions over disks in memory, and writes its summary there.
#![tactic(auto)]

mod command;
mod day;
mod ending;
mod help;
mod images;

use dtm_command::{
    OpenErr, SystemFiles, Tail, WatchedSink, WatchedSource, hold_streams, said_of_images,
};
use dtm_run::Exit;
use ending::{status_of, status_unopened, words_ended};
use help::said_of;
use std::alloc::AllocError;
use std::env;
use std::io::{ErrorKind, writer};
use std::process::ExitCode;
use transcript::{ReaderSource, WriterSink};

// The words of the process. None where memory is missing; words that are not UTF-8 are no words.
fn words_of(rt: &HostRuntime) -> Option<Vec<String>> {
    match env::args(rt) {
        Ok(args) => args.collect::<Vec<String>>(rt.alloc()).ok(),
        Err(e) if e.kind() == ErrorKind::OutOfMemory => None,
        Err(_) => Some(Vec::new(rt.alloc())),
    }
}

// Says how a run ended, where there is memory for what is said.
fn say(rt: &impl Eprint, said: Result<String, AllocError>) {
    if let Ok(text) = said {
        let _ = rt.eprint(text.as_str());
    }
}

fn main(rt: HostRuntime) -> ExitCode {
    hold_streams(&rt);
    let alloc = rt.alloc();
    let (Some(words), Ok(script), Ok(transcript)) = (
        words_of(&rt),
        Tail::reserve(alloc),
        Tail::reserve(alloc),
    ) else {
        say(&rt, said_of_images(alloc, &OpenErr::Memory));
        return ExitCode::from(status_of(Exit::Memory));
    };
    let files = SystemFiles { system: &rt, alloc };
    let mut source = WatchedSource {
        source: ReaderSource::new(rt.reader()),
        tail: script,
    };
    let mut sink = WatchedSink {
        sink: WriterSink::new(writer(&rt)),
        tail: transcript,
    };
    match words_ended(&files, alloc, &words, &mut source, &mut sink) {
        Ok(exit) => {
            say(&rt, said_of(alloc, exit, &source.tail, &sink.tail));
            ExitCode::from(status_of(exit))
        }
        Err(e) => {
            say(&rt, said_of_images(alloc, &e));
            ExitCode::from(status_unopened(&e))
        }
    }
}
