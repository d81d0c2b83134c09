//! Ropes by number, and runs of commands on them.
ghost use Rattle.std.specs.Prelude.{◌≡◌, ◌+◌, ◌<◌, [], length, OnOk, OnErr, IfErr, IfOk, vec_len, map};
ghost use Rattle.rope_text.specs.declared.error.Error.TheVariants.{OutOfMemory};
ghost use Rattle.ropey.specs.View.{content};
ghost use Rattle.rope_script.specs.Step.{Step, Ran};

use crate::asking::ask;
use crate::changing::{insert, insert_char, join, remove, shrink};
use crate::making::{copy, cut, make_clone, make_empty, make_text};
use crate::script::{Command, Reply};
use ropey::{LineBreaks, Result, Rope};
use std::alloc::Global;
use std::marker::Model;

/// A list of ropes that only grows, numbered from 0 in the order in which they were made.
#[derive(Drop)]
pub struct Session {
    alloc: Global,
    ropes: Vec<Rope>,
}

impl Model for Session {
    ghost use Rattle.std.specs.Prelude.{List, map};
    ghost use Rattle.rope_text.specs.Content.{Content};
    ghost use Rattle.ropey.specs.View.{content};

    ghost Value = { List Content };

    ghost view = { λ s. map content s.ropes.items };
}

impl Session {
    /// Returns a session without ropes. Takes no memory.
    pub fn new(alloc: Global) -> Session
        ensures { result ≡ [] }
    {
        Session {
            alloc,
            ropes: Vec::new(alloc),
        }
    }

    /// Runs the commands in order, and appends a reply for each to `replies`.
    ///
    /// The run continues after a command that fails, which has its own reply.
    ///
    /// # Errors
    ///
    /// `OutOfMemory` alone, if the list of replies, the list of ropes or the texts of a reply could
    /// not grow. The command that failed so has done nothing, and those before it are done.
    pub fn run(&mut self, commands: &[Command], replies: &mut Vec<Reply>) -> Result<()>
        ensures run { Ran self.old commands.now replies.old.items replies.new.items self.new }
        ensures all { OnOk result
            (vec_len replies.new ≡ vec_len replies.old + length commands.now) }
        ensures stopped { OnErr result
            (vec_len replies.new < vec_len replies.old + length commands.now) }
        ensures err { IfErr result (λ e. e ≡ OutOfMemory) }
    {
        for command in commands {
            replies.reserve(1)?;
            let reply = self.step(command)?;
            replies.push(reply).unwrap();
        }
        Ok(())
    }

    /// Runs one command and returns its reply. A command that fails has its own reply.
    ///
    /// # Errors
    ///
    /// `OutOfMemory` alone, if the list of ropes or the texts of the reply could not grow. Then the
    /// command has done nothing.
    pub fn step(&mut self, command: &Command) -> Result<Reply>
        ensures step { IfOk result (λ reply. Step self.old command.now reply self.new) }
        ensures err { OnErr result (self.new ≡ self.old) }
        ensures memory { IfErr result (λ e. e ≡ OutOfMemory) }
    {
        run_command(self.alloc, &mut self.ropes, command)
    }
}

/// Runs one command on ropes and returns its reply. Does nothing when it runs out of memory.
fn run_command(alloc: Global, ropes: &mut Vec<Rope>, command: &Command) -> Result<Reply>
    ensures step { IfOk result (λ reply. Step (map content ropes.old.items) command.now reply
        (map content ropes.new.items)) }
    ensures err { OnErr result (ropes.new.items ≡ ropes.old.items) }
    ensures memory { IfErr result (λ e. e ≡ OutOfMemory) }
{
    match command {
        Command::New => make_empty(alloc, ropes),
        Command::Text(text) => make_text(alloc, ropes, LineBreaks::Unicode, text.as_str()),
        Command::TextWith(breaks, text) => make_text(alloc, ropes, *breaks, text.as_str()),
        Command::Clone(rope) => make_clone(ropes, *rope),
        Command::Copy((rope, range)) => copy(alloc, ropes, *rope, *range),
        Command::Insert(rope, char_idx, text) => {
            Ok(insert(ropes, *rope, *char_idx, text.as_str()))
        }
        Command::InsertChar(rope, char_idx, c) => Ok(insert_char(ropes, *rope, *char_idx, *c)),
        Command::Remove(rope, start, end) => Ok(remove(ropes, *rope, *start, *end)),
        Command::Cut(rope, char_idx) => cut(ropes, *rope, *char_idx),
        Command::Join(rope, other) => Ok(join(ropes, *rope, *other)),
        Command::Shrink(rope) => Ok(shrink(ropes, *rope)),
        Command::Ask(rope, range, query) => ask(alloc, ropes, *rope, *range, query),
    }
}
