//! Sessions of commands, and lines that are served.
use crate::TRIES;
use rope_protocol::{Ended, serve};
use rope_script::{At, Command, Move, Query, Reply, Session, Unit};
use ropey::{Error, LineBreaks};
use std::alloc::Global;
use std::cmp::Ordering;
use std::io::Print;

const INPUT: &str =
    "text one\\r\\ntwo\nins 0 3 \\u{85}\nlen 0\nchunks 0\nins 0 99 x\nins 7 0 x\ntextb lf a\\r\\nb\nbreaks 1\n";

/// Returns a string, made again if memory was refused.
fn owned(alloc: Global, text: &str) -> Option<String> {
    for _ in 0..TRIES {
        if let Ok(text) = String::from_str(alloc, text) {
            return Some(text);
        }
    }
    None
}

/// Returns whether a command is run and its reply added; false if memory was refused.
fn is_run(session: &mut Session, commands: &[Command], replies: &mut Vec<Reply>) -> bool {
    let is_replied = session.run(commands, replies).is_ok();
    is_replied && !matches!(replies.last(), Some(Reply::Refused(Error::OutOfMemory)))
}

/// Runs one command, again if memory was refused, and returns its reply.
fn reply_to(alloc: Global, session: &mut Session, commands: &[Command]) -> Option<Reply> {
    for _ in 0..TRIES {
        let mut replies = Vec::new(alloc);
        if is_run(session, commands, &mut replies) {
            return replies.pop();
        }
    }
    None
}

/// Runs one command; returns `None` if it has no reply.
fn run_one(alloc: Global, session: &mut Session, command: Command) -> Option<()> {
    let commands = [command];
    match reply_to(alloc, session, &commands) {
        Some(_) => Some(()),
        None => None,
    }
}

/// Runs commands that make three ropes and edit them.
fn make_each(alloc: Global, session: &mut Session) -> Option<()> {
    run_one(alloc, session, Command::Text(owned(alloc, "a\r\nb")?))?;
    run_one(alloc, session, Command::Insert(0, 3, owned(alloc, "x")?))?;
    run_one(alloc, session, Command::Text(owned(alloc, "")?))?;
    run_one(alloc, session, Command::Insert(1, 0, owned(alloc, "y")?))?;
    let lines = owned(alloc, "a\rb\n")?;
    run_one(alloc, session, Command::TextWith(LineBreaks::Lf, lines))?;
    run_one(alloc, session, Command::Shrink(0))
}

/// Prints lengths, or the number of texts.
fn show_counts(rt: &impl Print, reply: &Reply) -> bool {
    match reply {
        Reply::Lens(bytes, chars, lines, units) => {
            print!(rt; "{bytes} {chars} {lines} {units} in ").is_ok()
        }
        Reply::Texts(texts) => println!(rt; "{}", texts.len()).is_ok(),
        _ => false,
    }
}

/// Queries a rope of the session for its lengths or its chunks, and prints them or their number.
fn ask(rt: &impl Print, alloc: Global, session: &mut Session, rope: usize, query: Query) -> bool {
    let commands = [Command::Ask(rope, None, query)];
    match reply_to(alloc, session, &commands) {
        Some(reply) => show_counts(rt, &reply),
        None => false,
    }
}

/// Prints the three ropes.
fn show_each(rt: &impl Print, alloc: Global, session: &mut Session) -> bool {
    for rope in 0..3usize {
        if !ask(rt, alloc, session, rope, Query::Lens)
            || !ask(rt, alloc, session, rope, Query::Chunks)
        {
            return false;
        }
    }
    true
}

/// Runs commands on three ropes of a session that begins with none, and prints them.
fn run_commands(rt: &impl Print, alloc: Global) -> bool {
    let mut session = Session::new(alloc);
    make_each(alloc, &mut session).is_some() && show_each(rt, alloc, &mut session)
}

const STEPS: [Move; 4] = [Move::Next, Move::Next, Move::Reverse, Move::Next];

/// Fills an empty list with the steps of a walk. Only its capacity takes memory.
fn fill(moves: &mut Vec<Move>) -> bool {
    moves.reserve(STEPS.len()).is_ok() && moves.extend_from_slice(&STEPS).is_ok()
}

/// Returns the steps of a walk, made again if memory was refused.
fn moves(alloc: Global) -> Option<Vec<Move>> {
    for _ in 0..TRIES {
        let mut moves = Vec::new(alloc);
        if fill(&mut moves) {
            return Some(moves);
        }
    }
    None
}

/// Returns commands most of which take memory, with their two texts and steps.
fn commands_with(text: String, line: String, moves: Vec<Move>) -> [Command; 14] {
    [
        Command::Text(text),
        Command::Copy((0, Some((1, 4)))),
        Command::Insert(1, 0, line),
        Command::InsertChar(0, 2, 'é'),
        Command::Ask(0, None, Query::Show),
        Command::Ask(1, None, Query::Chunks),
        Command::Ask(0, Some((3, 6)), Query::Line(1)),
        Command::Ask(0, None, Query::ChunkAt(At::Char, 1)),
        Command::Ask(1, None, Query::Walk(Unit::Lines, 0, moves)),
        Command::Ask(0, None, Query::Compare((1, None))),
        Command::Cut(0, 2),
        Command::Join(0, 2),
        Command::Clone(0),
        Command::Ask(3, None, Query::Lens),
    ]
}

/// Returns these commands, made again if memory was refused.
fn many_commands(alloc: Global) -> Option<[Command; 14]> {
    let text = owned(alloc, "a\r\nbこ🐸")?;
    let line = owned(alloc, "x\n")?;
    match moves(alloc) {
        Some(moves) => Some(commands_with(text, line, moves)),
        None => None,
    }
}

/// Runs the commands; if memory was refused, those without a reply again, on the ropes that the
/// others left.
fn run_all(session: &mut Session, commands: &[Command], replies: &mut Vec<Reply>) -> bool {
    for _ in 0..TRIES {
        let Some(left) = commands.get(replies.len()..) else {
            return false;
        };
        if session.run(left, replies).is_ok() {
            return replies.len() == commands.len();
        }
    }
    false
}

/// Runs the commands on a session that begins without ropes.
fn run_anew(alloc: Global, commands: &[Command], replies: &mut Vec<Reply>) -> bool {
    let mut session = Session::new(alloc);
    run_all(&mut session, commands, replies)
}

/// Prints a reply, in a line.
fn show_reply(rt: &impl Print, reply: &Reply) -> bool {
    match reply {
        Reply::Done => println!(rt; "ok").is_ok(),
        Reply::Made(rope) => println!(rt; "rope {rope}").is_ok(),
        Reply::Lens(bytes, chars, lines, units) => {
            println!(rt; "{bytes} {chars} {lines} {units}").is_ok()
        }
        Reply::Text(text) => println!(rt; "a text of {}", text.len()).is_ok(),
        Reply::Texts(texts) => println!(rt; "{} texts", texts.len()).is_ok(),
        Reply::Chunk(text, bytes, chars, break_count) => {
            println!(rt;
                "a chunk of {} at {bytes} {chars} {break_count}",
                text.len()
            )
            .is_ok()
        }
        Reply::Walk(items) => println!(rt; "{} items", items.len()).is_ok(),
        Reply::Order(Ordering::Less) => println!(rt; "less").is_ok(),
        _ => println!(rt; "another reply").is_ok(),
    }
}

/// Returns whether a command's rope ran out of memory: the command has that reply, and the rest
/// continues without it.
fn is_refused(replies: &[Reply]) -> bool {
    for reply in replies {
        if matches!(reply, Reply::Refused(Error::OutOfMemory)) {
            return true;
        }
    }
    false
}

fn show_all(rt: &impl Print, replies: &[Reply]) -> bool {
    for reply in replies {
        if !show_reply(rt, reply) {
            return false;
        }
    }
    true
}

/// Runs commands at once, again if memory was refused, and prints their replies.
fn run_and_show(rt: &impl Print, alloc: Global, commands: &[Command]) -> bool {
    for _ in 0..TRIES {
        let mut replies = Vec::new(alloc);
        if !run_anew(alloc, commands, &mut replies) {
            return false;
        }
        if !is_refused(&replies) {
            return show_all(rt, &replies);
        }
    }
    false
}

fn run_at_once(rt: &impl Print, alloc: Global) -> bool {
    match many_commands(alloc) {
        Some(commands) => run_and_show(rt, alloc, &commands),
        None => false,
    }
}

/// Returns the text written, unless memory was refused for a part of it: such a command has the
/// error as its reply, and the rest continues without it.
fn complete(written: &[u8]) -> Option<&str> {
    match str::from_utf8(written) {
        Ok(text) if !text.contains("error: Out of memory\n") => Some(text),
        _ => None,
    }
}

/// Serves the lines, again if memory was refused, and prints the output.
fn serve_lines(rt: &impl Print, alloc: Global) -> bool {
    for _ in 0..TRIES {
        let mut written = Vec::new(alloc);
        let mut reader = INPUT.as_bytes();
        if serve(alloc, &mut reader, &mut written) == Ended::Done {
            if let Some(text) = complete(&written) {
                return print!(rt; "{text}").is_ok();
            }
        }
    }
    false
}

/// Runs commands and serves lines, and prints the output.
pub fn run(rt: &impl Print, alloc: Global) -> bool {
    run_commands(rt, alloc) && run_at_once(rt, alloc) && serve_lines(rt, alloc)
}
