// The form of the words of the command. The words that name images are read by clap in the command itself.
ghost use Rattle.std.specs.Prelude.{◌≡◌, map, codes, string_bytes, List, ℕ};
ghost use Rattle.script_model.specs.Command.{names as names_of, is_disk_of as is_disk_of_said, are_disks_of as are_disks_of_said, is_run_form as is_run_form_of};

use vms_base::{NodeName, part_at};

// Whether a text names this node.
fn names(node: &NodeName, text: &[u8]) -> bool
    ensures { result ≡ names_of node.now text.now }
{
    match NodeName::new(text) {
        Some(name) => name.bytes() == node.bytes(),
        None => false,
    }
}

fn is_disk_of(node: &NodeName, word: &[u8]) -> bool
    ensures { result ≡ is_disk_of_said node.now word.now }
{
    match part_at(b'=', word) {
        Some((text, image)) => names(node, text) && !image.is_empty(),
        None => false,
    }
}

// Whether there is one word for each node, in order.
fn are_disks_of(nodes: &[NodeName], words: &[String]) -> bool
    ensures { result ≡ are_disks_of_said nodes.now (map string_bytes words.now) }
{
    match nodes {
        [] => words.is_empty(),
        [node, nodes @ ..] => match words {
            [] => false,
            [word, words @ ..] => is_disk_of(node, word.as_bytes()) && are_disks_of(nodes, words),
        },
    }
}

/// Whether the words of a command are `dtm RUN NODE=IMAGE ..`: the program's name, `RUN` in capitals, and for each node of the rack, of which
/// there is at least one, its name in either case of letters, `=` and an image that is not empty, in the order of the rack.
pub fn is_run_form(nodes: &[NodeName], words: &[String]) -> bool
    ensures { result ≡ is_run_form_of nodes.now (map string_bytes words.now) }
{
    match words {
        [_, command, disks @ ..] => command.as_bytes() == b"RUN".as_slice()
            && !nodes.is_empty()
            && are_disks_of(nodes, disks),
        _ => false,
    }
}
