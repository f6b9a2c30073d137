//! The words of the command that name images.
ghost use Rattle.std.specs.Prelude.{◌≡◌, ◌≤◌, [], false, IfOk, codes, map, string_bytes, option_map, unwrap_or};
ghost use Rattle.std.specs.List.{list_any};
ghost use Rattle.clap.specs.Words.{all_of, found_of, rows_of};
ghost use Rattle.clap.specs.Matches.{matched_of, raw_values};
ghost use Rattle.dtm_command.specs.Images.{images_of as images_said, is_dashed as is_dashed_said, undashed as undashed_of};

use clap::error::ErrorKind;
use clap::{Arg, ArgAction, ArgMatches, Command};
use std::alloc::{AllocError, Global};

// Whether a word begins with a dash.
fn is_dashed(word: &[u8]) -> bool
    ensures { result ≡ is_dashed_said word.now }
{
    match word {
        [first, ..] => *first == b'-',
        [] => false,
    }
}

// The words in front of the first that begins with a dash.
fn undashed(words: &[String]) -> &[String]
    ensures value { map string_bytes result.now ≡ undashed_of (map string_bytes words.now) }
    ensures none { list_any is_dashed_said (map string_bytes result.now) ≡ false }
{
    let mut used = 0;
    while used < words.len() && !is_dashed(words[used].as_bytes()) {
        used += 1;
    }
    &words[..used]
}

// The words behind RUN, up to the first that begins with a dash.
fn words_behind_run(words: &[String]) -> &[String]
    ensures value { map string_bytes result.now ≡ images_said (map string_bytes words.now) }
    ensures none { list_any is_dashed_said (map string_bytes result.now) ≡ false }
{
    match words {
        [_, command, images @ ..] if command.as_bytes() == b"RUN".as_slice() => undashed(images),
        _ => &[],
    }
}

// Reads words of which none begins with a dash.
fn read_words<'a>(alloc: Global, words: &'a [String]) -> Result<ArgMatches<'a>, AllocError>
    requires { list_any is_dashed_said (map string_bytes words.now) ≡ false }
    ensures { IfOk result (λ matches. unwrap_or (all_of (codes "IMAGE") (rows_of (found_of matches))) [] ≡ map string_bytes words.now) }
{
    let image = Arg::new(alloc, "IMAGE").action(ArgAction::Append);
    let command = Command::new(alloc, "dtm")
        .no_binary_name(true)
        .disable_help_flag(true)
        .arg(image)?;
    match command.try_get_matches_from(words) {
        Ok(matches) => Ok(matches),
        Err(e) => {
            let is_memory = e.kind() == ErrorKind::OutOfMemory;
            prove!(is_memory);
            Err(AllocError)
        }
    }
}

// The values of words that were read.
fn values_of<'a>(alloc: Global, matches: &ArgMatches<'a>) -> Result<Vec<&'a str>, AllocError>
    ensures { IfOk result (λ values. map (λ value. value.now) values.items ≡ unwrap_or (option_map raw_values (matched_of (found_of matches.now) (codes "IMAGE"))) []) }
{
    match matches.get_strs("IMAGE") {
        Some(values) => values.to_vec(alloc),
        None => Ok(Vec::new(alloc)),
    }
}

/// The words that name nodes and their images, where the words of a command may be one that runs a script: those behind RUN, up to
/// the first that begins with a dash.
pub fn image_words<'a>(alloc: Global, words: &'a [String]) -> Result<Vec<&'a str>, AllocError>
    ensures { IfOk result (λ images. map (λ image. image.now) images.items ≡ images_said (map string_bytes words.now)) }
{
    let matches = read_words(alloc, words_behind_run(words))?;
    values_of(alloc, &matches)
}
