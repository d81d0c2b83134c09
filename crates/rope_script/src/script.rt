//! The commands of a session of ropes, which make and change ropes, its queries, which read them,
//! and their replies.
use ropey::{Error, LineBreaks};
use std::cmp::Ordering;

/// The number of a rope, and a range of its characters by start and excluded end, or `None` for the
/// whole rope.
pub type Part = (usize, Option<(usize, usize)>);

/// A command of a session.
///
/// Ropes are numbered from 0, in the order in which they were made, and each has its set of line
/// breaks. The reply to a command for a rope that does not exist is [`Reply::NoRope`], before any
/// other test. Indices count characters.
#[derive(Drop)]
pub enum Command {
    /// Makes an empty rope with Unicode's line breaks.
    New,
    /// Makes a rope of the text with Unicode's line breaks.
    Text(String),
    /// Makes a rope of the text with the given line breaks.
    TextWith(LineBreaks, String),
    /// Clones a rope, with the same chunks.
    Clone(usize),
    /// Makes a rope of a slice of a rope, with its line breaks.
    Copy(Part),
    /// Inserts a text into a rope before a character.
    Insert(usize, usize, String),
    /// Inserts a character into a rope before a character.
    InsertChar(usize, usize, char),
    /// Removes from a rope the characters from a start up to an end, each `None` if it is open.
    Remove(usize, Option<usize>, Option<usize>),
    /// Keeps the first characters of a rope, and makes a rope of the rest.
    Cut(usize, usize),
    /// Appends the text of a second rope to the first. The second is unchanged, and may be the
    /// first. Ropes with different line breaks are not joined, even if one is empty.
    Join(usize, usize),
    /// Re-chunks the text of a rope, into at most one chunk for each 981 bytes and one for the
    /// rest.
    Shrink(usize),
    /// Queries a rope, or its characters from a start up to an end.
    Ask(usize, Option<(usize, usize)>, Query),
}

/// A conversion of an index.
#[derive(Clone, Copy, PartialEq, Eq, Debug)]
pub enum Conv {
    /// From a byte to its character.
    ByteToChar,
    /// From a byte to its line.
    ByteToLine,
    /// From a character to its byte.
    CharToByte,
    /// From a character to its line.
    CharToLine,
    /// From a character to its UTF-16 code unit.
    CharToUtf16,
    /// From a UTF-16 code unit to its character.
    Utf16ToChar,
    /// From a line to its first byte.
    LineToByte,
    /// From a line to its first character.
    LineToChar,
}

/// The unit of an index that looks up a chunk.
#[derive(Clone, Copy, PartialEq, Eq, Debug)]
pub enum At {
    /// Bytes.
    Byte,
    /// Characters.
    Char,
    /// Line breaks.
    LineBreak,
}

/// The items of a cursor.
#[derive(Clone, Copy, PartialEq, Eq, Debug)]
pub enum Unit {
    /// Bytes, from an index on.
    Bytes,
    /// Characters, from an index on.
    Chars,
    /// Lines, from an index on.
    Lines,
    /// Chunks, from the one that an index looks up.
    Chunks(At),
}

/// A move of a cursor.
#[derive(Clone, Copy, PartialEq, Eq, Debug)]
pub enum Move {
    /// Returns the next item.
    Next,
    /// Returns the previous item.
    Prev,
    /// Reverses the direction.
    Reverse,
}

/// A query of a rope, or of a slice of one, whose indices begin at its own start.
#[derive(Drop)]
pub enum Query {
    /// Its lengths.
    Lens,
    /// Its text.
    Show,
    /// Its chunks.
    Chunks,
    /// Its line breaks.
    Breaks,
    /// An index in another unit.
    Convert(Conv, usize),
    /// The byte at an index.
    Byte(usize),
    /// The character at an index.
    Char(usize),
    /// The line at an index, with its break.
    Line(usize),
    /// The chunk that an index looks up.
    ChunkAt(At, usize),
    /// The results of a cursor that starts at an index and makes these moves.
    Walk(Unit, usize, Vec<Move>),
    /// Its order against another slice.
    Compare(Part),
    /// The position of a character: its line, and its column in UTF-16 code units.
    ToPosition(usize),
    /// The character at a line and a column.
    FromPosition(usize, usize),
}

/// The result of a cursor's step.
#[derive(Drop)]
pub enum Item {
    /// A byte.
    Byte(u8),
    /// A character.
    Char(char),
    /// A line or a chunk.
    Text(String),
}

/// The reply to a command.
#[derive(Drop)]
pub enum Reply {
    /// An edit was done.
    Done,
    /// A rope was made, with this number.
    Made(usize),
    /// There is no rope with the command's number. Nothing has changed.
    NoRope,
    /// The range is not within the rope. Nothing has changed.
    NoSlice,
    /// There is no such byte, character, line or chunk, or no such start of a cursor.
    Absent,
    /// The command failed with this error. Nothing has changed.
    Refused(Error),
    /// The numbers of bytes, characters, lines and UTF-16 code units.
    Lens(usize, usize, usize, usize),
    /// A converted index, or the character at a position.
    Number(usize),
    /// A byte.
    Byte(u8),
    /// A character.
    Char(char),
    /// A text.
    Text(String),
    /// The chunks, in order.
    Texts(Vec<String>),
    /// The line breaks.
    Breaks(LineBreaks),
    /// A chunk, and the bytes, characters and line breaks before it.
    Chunk(String, usize, usize, usize),
    /// The result of each step of a cursor, in order, `None` at an end.
    Walk(Vec<Option<Item>>),
    /// The order of the slice against the other.
    Order(Ordering),
    /// A line, and a column in UTF-16 code units.
    Position(usize, usize),
}
