//! What the words of a command ask for.
ghost use Rattle.std.specs.Prelude.{◌≤◌, length, map, string_bytes};
ghost use Rattle.dtm_run.specs.Asked.{IsCommandOf};
ghost use Rattle.dtm_run.specs.Racks.{names_in};

use crate::rack::Rack;
use day_script::{Day, day_asked};
use script_lang::is_run_form;
use vms_base::NodeName;

const MOST_NODES: usize = 8;

/// What the words of a command ask for, over the nodes of a rack.
pub enum Command {
    /// A script is run.
    Script,
    /// A day is run.
    Day(Day),
    /// They are no command.
    Nothing,
}

// What words ask for, over nodes of these names.
fn command_over(names: &[NodeName], words: &[String]) -> Command
    ensures { IsCommandOf names.now (map string_bytes words.now) result }
{
    if is_run_form(names, words) {
        return Command::Script;
    }
    match day_asked(names, words) {
        Some(asked) => Command::Day(asked),
        None => Command::Nothing,
    }
}

/// What words ask for, over the nodes of a rack.
pub fn command_of<D>(rack: &Rack<D>, words: &[String]) -> Command
    requires few { length (names_in rack.now) ≤ 8 }
    ensures { IsCommandOf (names_in rack.now) (map string_bytes words.now) result }
{
    let mut names = [NodeName::default(); MOST_NODES];
    let count = rack.len();
    for place in 0..count {
        if let Some(name) = rack.name(place) {
            names[place] = name;
        }
    }
    command_over(&names[..count], words)
}
