//! Where the program `dtm` meets its process: the words of its command, the files of images, the streams it reads and writes, and what is said of a run.
#![tactic(auto)]

mod help;
mod images;
mod system;
mod watch;
mod words;

pub use help::{bad_line, said_of_images, too_long, usage};
pub use images::{Failed, ImageFiles, OpenErr, Refusal, blocks_in, node_and_image, open_image};
pub use system::{SystemFiles, hold_streams};
pub use watch::{Tail, WatchedSink, WatchedSource};
pub use words::image_words;
