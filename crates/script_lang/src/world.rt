// The statements of the world.
ghost use Rattle.script_model.specs.Grammar.{world_operands as world_operands_of, WorldVerb as TheWorldVerb};
ghost use Rattle.script_lang.specs.Statements.{ReadsPlain, world_verb_of};

use crate::grammar::ends;
use crate::statement::{Request, Statement, WorldVerb};
use crate::words::{LineErr, Words};

fn fuse(words: &mut Words<'_>) -> Result<Statement, LineErr>
    ensures { ReadsPlain (world_operands_of TheWorldVerb.Fuse) words.old result }
{
    let node = words.node()?;
    let writes = words.number()?;
    let choice = words.long_number()?;
    ends(Statement::At(node, Request::Fuse { writes, choice }), words)
}

fn crash(words: &mut Words<'_>) -> Result<Statement, LineErr>
    ensures { ReadsPlain (world_operands_of TheWorldVerb.Crash) words.old result }
{
    let node = words.node()?;
    ends(Statement::At(node, Request::Crash), words)
}

fn clock(words: &mut Words<'_>) -> Result<Statement, LineErr>
    ensures { ReadsPlain (world_operands_of TheWorldVerb.Clock) words.old result }
{
    let node = words.node()?;
    let now = words.time()?;
    ends(Statement::At(node, Request::Clock(now)), words)
}

fn deliver(words: &mut Words<'_>) -> Result<Statement, LineErr>
    ensures { ReadsPlain (world_operands_of TheWorldVerb.Deliver) words.old result }
{
    let number = words.number()?;
    ends(Statement::Deliver(number), words)
}

fn link_down(words: &mut Words<'_>) -> Result<Statement, LineErr>
    ensures { ReadsPlain (world_operands_of TheWorldVerb.LinkDown) words.old result }
{
    let one = words.node()?;
    let other = words.node()?;
    ends(Statement::LinkDown(one, other), words)
}

fn settle(words: &mut Words<'_>) -> Result<Statement, LineErr>
    ensures { ReadsPlain (world_operands_of TheWorldVerb.Settle) words.old result }
{
    ends(Statement::Settle, words)
}

/// The statement of a verb of the world with the words behind it. An error where a word is missing or cannot stand.
pub fn world_operands(verb: WorldVerb, words: &mut Words<'_>) -> Result<Statement, LineErr>
    ensures { ReadsPlain (world_operands_of (world_verb_of verb)) words.old result }
{
    match verb {
        WorldVerb::Fuse => fuse(words),
        WorldVerb::Crash => crash(words),
        WorldVerb::Clock => clock(words),
        WorldVerb::Deliver => deliver(words),
        WorldVerb::LinkDown => link_down(words),
        WorldVerb::Settle => settle(words),
    }
}
