//! The parser of command lines.
use crate::escapes::unescape;
use crate::words::{bound, conversion, line_breaks, moves, number, only_char, part, place, unit};
use rope_script::{At, Command, Part, Query, Unit};
use std::alloc::{AllocError, Global};

/// Parses a line, without its end, as a command. Returns `None` if the line is bad.
///
/// A line is words, separated by single spaces:
///
/// - `new`, `text TEXT`, `textb SET TEXT`, `clone ROPE`, `copy PART` make ropes;
/// - `ins ROPE INDEX TEXT`, `insc ROPE INDEX CHAR`, `del ROPE BOUND BOUND`, `cut ROPE INDEX`,
///   `join ROPE ROPE`, `fit ROPE` edit them;
/// - `len PART`, `show PART`, `chunks PART`, `breaks PART`, `byte PART INDEX`, `char PART INDEX`,
///   `line PART INDEX`, `cmp PART PART`, `c2p PART INDEX`, `p2c PART LINE COLUMN` are queries;
/// - so are the conversions `b2c`, `b2l`, `c2b`, `c2l`, `c2u`, `u2c`, `l2b`, `l2c`, as
///   `b2c PART INDEX`, of bytes, characters, lines and UTF-16 code units;
/// - and `chunk PART b INDEX`, where `c` and `l` stand for characters and line breaks, and
///   `walk PART UNIT INDEX MOVES`.
///
/// A PART is `ROPE`, or `ROPE:START..END` for a range of characters. A SET is `lf`, `crlf` or
/// `unicode`. A TEXT is the rest of the line and may be empty; a CHAR is a TEXT of one character. A
/// BOUND is a number, or `-` if it is open. A UNIT is `bytes`, `chars`, `lines`, `chunks-b`,
/// `chunks-c` or `chunks-l`; MOVES are one or more letters of `n`, `p` and `r`.
pub(crate) fn parse(alloc: Global, line: &str) -> Result<Option<Command>, AllocError> {
    let Some((name, words)) = line.split_once(' ') else {
        return Ok(lone(line));
    };
    match name {
        "text" => make(alloc, words),
        "textb" => make_with(alloc, words),
        "clone" => Ok(clone(words)),
        "copy" => Ok(copy(words)),
        "ins" => insert(alloc, words),
        "insc" => insert_char(alloc, words),
        "del" => Ok(remove(words)),
        "cut" => Ok(cut(words)),
        "join" => Ok(join(words)),
        "fit" => Ok(shrink(words)),
        "walk" => walk(alloc, words),
        _ => Ok(ask(name, words)),
    }
}

/// Parses a command of one word.
fn lone(word: &str) -> Option<Command> {
    match word {
        "new" => Some(Command::New),
        _ => None,
    }
}

/// Parses `TEXT`, of a rope to make.
fn make(alloc: Global, words: &str) -> Result<Option<Command>, AllocError> {
    match unescape(alloc, words)? {
        Some(text) => Ok(Some(Command::Text(text))),
        None => Ok(None),
    }
}

/// Parses `SET TEXT`, of a rope to make.
fn make_with(alloc: Global, words: &str) -> Result<Option<Command>, AllocError> {
    let Some((word, text)) = words.split_once(' ') else {
        return Ok(None);
    };
    let Some(breaks) = line_breaks(word) else {
        return Ok(None);
    };
    match unescape(alloc, text)? {
        Some(text) => Ok(Some(Command::TextWith(breaks, text))),
        None => Ok(None),
    }
}

/// Parses `ROPE`, of a clone.
fn clone(words: &str) -> Option<Command> {
    Some(Command::Clone(number(words)?))
}

/// Parses `PART`, of a copy.
fn copy(words: &str) -> Option<Command> {
    Some(Command::Copy(part(words)?))
}

/// Parses `ROPE INDEX TEXT`, of an insert.
fn insert(alloc: Global, words: &str) -> Result<Option<Command>, AllocError> {
    let Some((rope, char_idx, text)) = place(words) else {
        return Ok(None);
    };
    match unescape(alloc, text)? {
        Some(text) => Ok(Some(Command::Insert(rope, char_idx, text))),
        None => Ok(None),
    }
}

/// Parses `ROPE INDEX CHAR`, of an insert.
fn insert_char(alloc: Global, words: &str) -> Result<Option<Command>, AllocError> {
    let Some((rope, char_idx, text)) = place(words) else {
        return Ok(None);
    };
    let Some(text) = unescape(alloc, text)? else {
        return Ok(None);
    };
    match only_char(text.as_str()) {
        Some(c) => Ok(Some(Command::InsertChar(rope, char_idx, c))),
        None => Ok(None),
    }
}

/// Parses `ROPE BOUND BOUND`, of a removal.
fn remove(words: &str) -> Option<Command> {
    let (rope, bounds) = words.split_once(' ')?;
    let (start, end) = bounds.split_once(' ')?;
    Some(Command::Remove(number(rope)?, bound(start)?, bound(end)?))
}

/// Parses `ROPE INDEX`, of a split.
fn cut(words: &str) -> Option<Command> {
    let (rope, char_idx) = words.split_once(' ')?;
    Some(Command::Cut(number(rope)?, number(char_idx)?))
}

/// Parses `ROPE ROPE`, of an append.
fn join(words: &str) -> Option<Command> {
    let (rope, other) = words.split_once(' ')?;
    Some(Command::Join(number(rope)?, number(other)?))
}

/// Parses `ROPE`, of a rope to re-chunk.
fn shrink(words: &str) -> Option<Command> {
    Some(Command::Shrink(number(words)?))
}

/// Parses `PART UNIT INDEX MOVES`, of a walk.
fn walk(alloc: Global, words: &str) -> Result<Option<Command>, AllocError> {
    let Some((asked, unit, index, letters)) = walk_start(words) else {
        return Ok(None);
    };
    match moves(alloc, letters)? {
        Some(moves) => {
            let (rope, range) = asked;
            Ok(Some(Command::Ask(rope, range, Query::Walk(unit, index, moves))))
        }
        None => Ok(None),
    }
}

/// Parses `PART UNIT INDEX`, and returns the text after one more space too.
fn walk_start(words: &str) -> Option<(Part, Unit, usize, &str)> {
    let (asked, words) = words.split_once(' ')?;
    let (name, words) = words.split_once(' ')?;
    let (index, letters) = words.split_once(' ')?;
    Some((part(asked)?, unit(name)?, number(index)?, letters))
}

/// Parses `PART` and its query.
fn ask(name: &str, words: &str) -> Option<Command> {
    let (asked, query) = match words.split_once(' ') {
        None => (words, query(name)?),
        Some((asked, words)) => (asked, query_with(name, words)?),
    };
    let (rope, range) = part(asked)?;
    Some(Command::Ask(rope, range, query))
}

/// Parses a query of one word.
fn query(name: &str) -> Option<Query> {
    match name {
        "len" => Some(Query::Lens),
        "show" => Some(Query::Show),
        "chunks" => Some(Query::Chunks),
        "breaks" => Some(Query::Breaks),
        _ => None,
    }
}

/// Parses a query with the words after its `PART`.
fn query_with(name: &str, words: &str) -> Option<Query> {
    match name {
        "byte" => Some(Query::Byte(number(words)?)),
        "char" => Some(Query::Char(number(words)?)),
        "line" => Some(Query::Line(number(words)?)),
        "chunk" => chunk(words),
        "cmp" => Some(Query::Compare(part(words)?)),
        "c2p" => Some(Query::ToPosition(number(words)?)),
        "p2c" => from_position(words),
        _ => Some(Query::Convert(conversion(name)?, number(words)?)),
    }
}

/// Parses `UNIT INDEX`, of a chunk.
fn chunk(words: &str) -> Option<Query> {
    let (unit, index) = words.split_once(' ')?;
    let at = match unit {
        "b" => At::Byte,
        "c" => At::Char,
        "l" => At::LineBreak,
        _ => return None,
    };
    Some(Query::ChunkAt(at, number(index)?))
}

/// Parses `LINE COLUMN`, of a position.
fn from_position(words: &str) -> Option<Query> {
    let (line, column) = words.split_once(' ')?;
    Some(Query::FromPosition(number(line)?, number(column)?))
}
