//! Commands on many ropes, their replies, and the line language.
ghost use Rattle.std.specs.Prelude.{◌≡◌, ◌++◌, ◌∷◌, [], List, codes, length, IfOk, OnErr, Some};
ghost use Rattle.std.specs.Str.{chars};
ghost use Rattle.std.specs.String.{string_bytes};
ghost use Rattle.rope_text.specs.Content.{Content};
ghost use Rattle.rope_text.specs.Conversions.{char_to_line};
ghost use Rattle.rope_text.specs.Lines.{line_count};
ghost use Rattle.rope_text.specs.Lookup.{FoundChunk};
ghost use Rattle.rope_text.specs.Text.{byte_len, utf16_len};
ghost use Rattle.rope_text.specs.Position.{char_to_column, position_error, position_to_char};
ghost use Rattle.rope_script.specs.Ask.{Answers, IsChunkReply, refusal_or};
ghost use Rattle.rope_script.specs.Step.{Asks, Copies, Cuts, Inserts, Joins, Removes, RunsKeepRopes, Step};
ghost use Rattle.rope_protocol.specs.EndedText.{ended_text};
ghost use Rattle.std.specs.Fmt.{decimal};

use rope_protocol::{Ended, serve};
use rope_script::{At, Command, Conv, Item, Move, Part, Query, Reply, Session, Unit, laws};
use ropey::{Error, LineBreaks};
use std::alloc::{AllocError, Global};
use std::cmp::Ordering;
use std::io::{Read, Write};

/// Makes a part of a rope, with a range of characters.
pub fn part(rope: usize, start: usize, end: usize) -> Part {
    let range: Option<(usize, usize)> = Some((start, end));
    (rope, range)
}

/// Makes the commands that make a rope of no other rope.
pub fn makers(text: String, breaks: LineBreaks, other: String) -> (Command, Command, Command) {
    (
        Command::New,
        Command::Text(text),
        Command::TextWith(breaks, other),
    )
}

/// Makes the commands that take a rope alone.
pub fn of_rope(rope: usize) -> (Command, Command) {
    (Command::Clone(rope), Command::Shrink(rope))
}

/// Makes the command that copies a part of a rope.
pub fn copy(rope: usize, start: usize, end: usize) -> Command
    ensures { (old : List Content) (reply : Reply) (new : List Content) → Step old result reply new
        → Copies rope (Some (start, end)) old reply new }
{
    let asked: Part = (rope, Some((start, end)));
    Command::Copy(asked)
}

/// Makes the command that inserts a text.
pub fn insert(rope: usize, char_idx: usize, text: String) -> Command
    ensures { (old : List Content) (reply : Reply) (new : List Content) → Step old result reply new
        → Inserts rope char_idx (chars (string_bytes text)) old reply new }
{
    Command::Insert(rope, char_idx, text)
}

/// Makes the command that inserts a character.
pub fn insert_char(rope: usize, char_idx: usize, c: char) -> Command
    ensures { (old : List Content) (reply : Reply) (new : List Content) → Step old result reply new
        → Inserts rope char_idx (c ∷ []) old reply new }
{
    Command::InsertChar(rope, char_idx, c)
}

/// Makes the command that removes a range of characters.
pub fn remove(rope: usize, start: Option<usize>, end: Option<usize>) -> Command
    ensures { (old : List Content) (reply : Reply) (new : List Content) → Step old result reply new
        → Removes rope start end old reply new }
{
    Command::Remove(rope, start, end)
}

/// Makes the command that cuts a rope.
pub fn cut(rope: usize, char_idx: usize) -> Command
    ensures { (old : List Content) (reply : Reply) (new : List Content) → Step old result reply new
        → Cuts rope char_idx old reply new }
{
    Command::Cut(rope, char_idx)
}

/// Makes the command that appends a second rope to a first.
pub fn join(rope: usize, other: usize) -> Command
    ensures { (old : List Content) (reply : Reply) (new : List Content) → Step old result reply new
        → Joins rope other old reply new }
{
    Command::Join(rope, other)
}

/// Makes the command that asks a rope.
pub fn ask(rope: usize, range: Option<(usize, usize)>, query: Query) -> Command
    ensures { (old : List Content) (reply : Reply) (new : List Content) → Step old result reply new
        → Asks rope range query old reply new }
{
    Command::Ask(rope, range, query)
}

/// Returns which command it is, counted from 0.
pub fn command_number(command: &Command) -> u8 {
    match command {
        Command::New => 0,
        Command::Text(_) => 1,
        Command::TextWith(_, _) => 2,
        Command::Clone(_) => 3,
        Command::Copy(_) => 4,
        Command::Insert(_, _, _) => 5,
        Command::InsertChar(_, _, _) => 6,
        Command::Remove(_, _, _) => 7,
        Command::Cut(_, _) => 8,
        Command::Join(_, _) => 9,
        Command::Shrink(_) => 10,
        Command::Ask(_, _, _) => 11,
    }
}

/// Returns the conversions, in order.
pub fn conversions() -> [Conv; 8] {
    [
        Conv::ByteToChar,
        Conv::ByteToLine,
        Conv::CharToByte,
        Conv::CharToLine,
        Conv::CharToUtf16,
        Conv::Utf16ToChar,
        Conv::LineToByte,
        Conv::LineToChar,
    ]
}

/// Returns what a chunk is looked up by, in order.
pub fn ats() -> [At; 3] {
    [At::Byte, At::Char, At::LineBreak]
}

/// Returns what a cursor steps through, in order.
pub fn units(at: At) -> [Unit; 4] {
    [Unit::Bytes, Unit::Chars, Unit::Lines, Unit::Chunks(at)]
}

/// Returns the moves of a cursor, in order.
pub fn moves() -> [Move; 3] {
    [Move::Next, Move::Prev, Move::Reverse]
}

/// Makes the queries without an index.
pub fn plain_queries() -> (Query, Query, Query, Query) {
    (Query::Lens, Query::Show, Query::Chunks, Query::Breaks)
}

/// Makes the queries of an index.
pub fn index_queries(conv: Conv, at: At, index: usize) -> (Query, Query, Query, Query, Query) {
    (
        Query::Convert(conv, index),
        Query::Byte(index),
        Query::Char(index),
        Query::Line(index),
        Query::ChunkAt(at, index),
    )
}

/// Makes the queries of a cursor and of another part.
pub fn other_queries(unit: Unit, index: usize, moves: Vec<Move>, other: Part) -> (Query, Query) {
    (Query::Walk(unit, index, moves), Query::Compare(other))
}

/// Makes the query of a character's position.
pub fn to_position(char_idx: usize) -> Query {
    Query::ToPosition(char_idx)
}

/// Makes the query of the character at a position.
pub fn from_position(line: usize, column: usize) -> Query
    ensures { (ropes : List Content) (c : Content) (reply : Reply) → Answers ropes c result reply
        → reply ≡ refusal_or (position_error c.breaks c.text line column)
        (Reply.Number (position_to_char c.breaks c.text line column)) }
{
    Query::FromPosition(line, column)
}

/// Makes the items that a cursor gives.
pub fn items(byte: u8, c: char, text: String) -> (Item, Item, Item) {
    (Item::Byte(byte), Item::Char(c), Item::Text(text))
}

/// Makes the replies without a value.
pub fn plain_replies() -> (Reply, Reply, Reply, Reply) {
    (Reply::Done, Reply::NoRope, Reply::NoSlice, Reply::Absent)
}

/// Makes the replies of one number.
pub fn number_replies(number: usize, byte: u8, c: char) -> (Reply, Reply, Reply, Reply) {
    (
        Reply::Made(number),
        Reply::Number(number),
        Reply::Byte(byte),
        Reply::Char(c),
    )
}

/// Makes the replies of a value of its own type.
pub fn value_replies(error: Error, breaks: LineBreaks, order: Ordering) -> (Reply, Reply, Reply) {
    (
        Reply::Refused(error),
        Reply::Breaks(breaks),
        Reply::Order(order),
    )
}

/// Makes the replies of texts and items.
pub fn text_replies(
    text: String,
    texts: Vec<String>,
    given: Vec<Option<Item>>,
) -> (Reply, Reply, Reply) {
    (Reply::Text(text), Reply::Texts(texts), Reply::Walk(given))
}

/// Returns the bytes, characters, lines and code units of a reply.
pub fn lengths_of(reply: &Reply) -> Option<(usize, usize, usize, usize)>
    ensures { (ropes : List Content) (c : Content) → Answers ropes c Query.Lens reply.now
        → result ≡ Some (
          byte_len c.text,
          length c.text,
          line_count c.breaks c.text,
          utf16_len c.text,
        ) }
{
    match reply {
        Reply::Lens(bytes, characters, lines, units) => {
            Some((*bytes, *characters, *lines, *units))
        }
        _ => None,
    }
}

/// Returns the bytes, characters and line breaks before the chunk of a reply.
pub fn place_of_chunk(reply: &Reply) -> Option<(usize, usize, usize)>
    ensures { (found : FoundChunk) → IsChunkReply reply.now found
        → result ≡ Some (found.bytes, found.chars, found.break_count) }
{
    match reply {
        Reply::Chunk(_, bytes, characters, breaks) => Some((*bytes, *characters, *breaks)),
        _ => None,
    }
}

/// Returns the line and the column of a reply.
pub fn position_of(reply: &Reply) -> Option<(usize, usize)>
    ensures { (ropes : List Content) (c : Content) → Answers ropes c (Query.ToPosition 0) reply.now
        → result ≡ Some (char_to_line c.breaks c.text 0, char_to_column c.breaks c.text 0) }
{
    match reply {
        Reply::Position(line, column) => Some((*line, *column)),
        _ => None,
    }
}

/// Runs commands on a new session.
pub fn run(alloc: Global, commands: &[Command], replies: &mut Vec<Reply>) -> Result<(), Error> {
    let mut session: Session = Session::new(alloc);
    session.run(commands, replies)
}

/// Runs one command on a session.
pub fn step(session: &mut Session, command: &Command) -> Result<Reply, Error>
    ensures { OnErr result (session.new ≡ session.old) }
{
    session.step(command)
}

/// Holds by the law of runs.
pub fn runs_keep_ropes()
    ensures { RunsKeepRopes }
{
    laws::runs_keep_ropes();
}

/// Serves a reader's lines.
pub fn serve_lines<R: Read, W: Write>(alloc: Global, reader: &mut R, writer: &mut W) -> Ended {
    serve(alloc, reader, writer)
}

/// Returns the ends of a run, the second at this line.
pub fn ends(line: u64) -> (Ended, Ended, Ended, Ended)
    ensures done { ended_text result.0 ≡ [] }
    ensures bad_line { ended_text result.1 ≡ codes "bad line " ++ decimal line }
    ensures out_of_memory { ended_text result.2 ≡ codes "out of memory" }
    ensures failed { ended_text result.3 ≡ codes "input or output failed" }
{
    (
        Ended::Done,
        Ended::BadLine(line),
        Ended::OutOfMemory,
        Ended::Failed,
    )
}

/// Prints the end of a run, with the status of its program.
pub fn print_end(alloc: Global, ended: Ended) -> Result<(u8, String), AllocError>
    ensures { IfOk result (λ told. string_bytes told.1 ≡ ended_text ended) }
{
    Ok((ended.status(), format!(in alloc; "{ended}")?))
}
