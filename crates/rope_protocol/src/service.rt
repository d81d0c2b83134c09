//! The loop of the program: reads a line, runs its command and writes the reply.
ghost use Rattle.std.specs.Prelude.{◌≡◌, ◌≢◌, ◌≤◌, List, [], false, IfOk, IfErr, OnOk};
ghost use Rattle.std.specs.Io.KnownBytes.{IsAtEnd};
ghost use Rattle.rope_text.specs.Content.{Content};
ghost use Rattle.rope_protocol.specs.Serving.{Puts, PutsRun, WritesReplies};

use crate::ended::Ended;
use crate::language::parse;
use crate::output::Output;
use crate::replies::write_reply;
use rope_script::Session;
use rope_text::utf8;
use std::alloc::{AllocError, Global};
use std::io::{self, Read, Write};

/// The reason why a line has no reply.
#[derive(Clone, Copy)]
enum Fault {
    BadLine,
    OutOfMemory,
    Failed,
}

impl From<AllocError> for Fault {
    ghost use Rattle.std.specs.Prelude.{◌≡◌};
    ghost use Rattle.rope_protocol.specs.declared.service.Fault.TheVariants.{OutOfMemory};

    ghost from_gives = { λ _ fault. fault ≡ OutOfMemory };

    fn from(_error: AllocError) -> Fault {
        Fault::OutOfMemory
    }
}

impl From<io::Error> for Fault {
    ghost use Rattle.std.specs.Prelude.{◌≡◌};
    ghost use Rattle.rope_protocol.specs.declared.service.Fault.TheVariants.{Failed};

    ghost from_gives = { λ _ fault. fault ≡ Failed };

    fn from(_error: io::Error) -> Fault {
        Fault::Failed
    }
}

/// Reads lines to the reader's end, runs each on one session, and writes its reply.
///
/// A line ends with LF, which the last one may lack. The run ends at the first bad line, at an
/// allocation that fails for a line or its reply, and at a read or a write that fails. The replies
/// to the lines before are written and flushed, unless a write failed. A line past number
/// `u64::MAX` is a bad line of that number.
///
/// All replies are written and flushed before each read, so a client may wait for a reply before it
/// sends its next line.
pub fn serve<R: Read, W: Write>(alloc: Global, reader: &mut R, writer: &mut W) -> Ended
    ensures done { result ≡ Ended.Done → IsAtEnd (R.remaining reader.new) }
    ensures written { result ≢ Ended.Failed
        → WritesReplies (W.contents writer.old) (W.contents writer.new) }
{
    let mut output = Output::new();
    let mut service = Service::new(alloc);
    let ended = service.answer_lines(reader, writer, &mut output);
    match output.flush(writer) {
        Ok(()) => ended,
        Err(_) => Ended::Failed,
    }
}

/// Returns the outcome for a fault in the line of this number.
fn end_of(fault: Fault, number: u64) -> Ended
    ensures unfinished { result ≢ Ended.Done }
    ensures failed { result ≢ Ended.Failed → fault ≢ Fault.Failed }
{
    match fault {
        Fault::BadLine => Ended::BadLine(number),
        Fault::OutOfMemory => Ended::OutOfMemory,
        Fault::Failed => Ended::Failed,
    }
}

/// A session, and the input that no command has read yet.
#[derive(Drop)]
struct Service {
    alloc: Global,
    session: Session,
    input: Input,
    /// The line that is read or run.
    line: Vec<u8>,
}

impl Service {
    /// Creates a service without ropes or input.
    fn new(alloc: Global) -> Service
        ensures { result.session ≡ [] }
    {
        Service {
            alloc,
            session: Session::new(alloc),
            input: Input::new(),
            line: Vec::new(alloc),
        }
    }

    /// Replies to each line, up to the first fault.
    fn answer_lines<R: Read, W: Write>(
        &mut self,
        reader: &mut R,
        writer: &mut W,
        output: &mut Output,
    ) -> Ended
        ensures done { result ≡ Ended.Done → IsAtEnd (R.remaining reader.new) }
        ensures put { result ≢ Ended.Failed
            → (left : List Content) × PutsRun self.old.session left (W.contents writer.old)
            (W.contents writer.new) output.old output.new }
    {
        for earlier in 0..u64::MAX {
            match self.input.next_line(reader, &mut self.line, writer, output) {
                Ok(true) => {}
                Ok(false) => return Ended::Done,
                Err(fault) => return end_of(fault, earlier + 1),
            }
            if let Err(fault) = answer(self.alloc, &mut self.session, &self.line, writer, output) {
                return end_of(fault, earlier + 1);
            }
        }
        // No input reaches this. The bound shows that the loop ends.
        match self.input.next_line(reader, &mut self.line, writer, output) {
            Ok(true) => Ended::BadLine(u64::MAX),
            Ok(false) => Ended::Done,
            Err(fault) => end_of(fault, u64::MAX),
        }
    }
}

/// Replies to one line.
fn answer<W: Write>(
    alloc: Global,
    session: &mut Session,
    line: &[u8],
    writer: &mut W,
    output: &mut Output,
) -> Result<(), Fault>
    ensures put { OnOk result (PutsRun session.old session.new (W.contents writer.old)
        (W.contents writer.new) output.old output.new) }
    ensures kept { IfErr result
        (λ fault. fault ≢ Fault.Failed → (writer.new ≡ writer.old) × (output.new ≡ output.old)) }
{
    let Some(line) = utf8::text_of(line) else {
        return Err(Fault::BadLine);
    };
    let Some(command) = parse(alloc, line)? else {
        return Err(Fault::BadLine);
    };
    let Ok(reply) = session.step(&command) else {
        return Err(Fault::OutOfMemory);
    };
    let mut reply_line = String::new(alloc);
    write_reply(&mut reply_line, &reply)?;
    match output.put(writer, reply_line.as_bytes()) {
        Ok(()) => Ok(()),
        Err(_) => Err(Fault::Failed),
    }
}

/// The number of bytes of a read.
const INPUT_BYTES: usize = 4096;

/// The bytes read that belong to no line yet.
#[derive(Drop)]
struct Input {
    buffer: [u8; INPUT_BYTES],
    start: usize,
    end: usize,
    ghost ordered: { start ≤ end },
    ghost held: { end ≤ 4096 },
}

impl Input {
    fn new() -> Input {
        Input {
            buffer: [0; INPUT_BYTES],
            start: 0,
            end: 0,
        }
    }

    /// Reads the next line, without its LF. Returns none at the end of the input.
    ///
    /// A read may wait for a client that waits for the replies, so these are written and flushed
    /// before it.
    fn next_line<R: Read, W: Write>(
        &mut self,
        reader: &mut R,
        line: &mut Vec<u8>,
        writer: &mut W,
        output: &mut Output,
    ) -> Result<bool, Fault>
        ensures end { IfOk result (λ found. found ≡ false → IsAtEnd (R.remaining reader.new)) }
        ensures put { OnOk result (Puts (W.contents writer.old) (W.contents writer.new) output.old
            output.new []) }
        ensures kept { IfErr result (λ fault. fault ≢ Fault.Failed → Puts (W.contents writer.old)
            (W.contents writer.new) output.old output.new []) }
    {
        line.clear();
        for _ in 0..u64::MAX {
            if self.take_line(line)? {
                return Ok(true);
            }
            output.flush(writer)?;
            if !self.fill(reader)? {
                return Ok(!line.is_empty());
            }
        }
        // A line of 2^64 reads fits in no memory. The bound shows that the loop ends.
        Err(Fault::OutOfMemory)
    }

    /// Appends the bytes read to the line, and returns whether the line is complete.
    fn take_line(&mut self, line: &mut Vec<u8>) -> Result<bool, AllocError> {
        let held = &self.buffer[self.start..self.end];
        match held.iter().position(|byte| *byte == b'\n') {
            Some(at) => {
                line.extend_from_slice(&held[..at])?;
                self.start += at + 1;
                Ok(true)
            }
            None => {
                line.extend_from_slice(held)?;
                self.start = self.end;
                Ok(false)
            }
        }
    }

    /// Reads once, and returns whether any bytes came.
    fn fill<R: Read>(&mut self, reader: &mut R) -> Result<bool, Fault>
        ensures end { IfOk result (λ found. found ≡ false → IsAtEnd (R.remaining reader.new)) }
    {
        let count = reader.read(&mut self.buffer)?;
        self.start = 0;
        self.end = count;
        Ok(count > 0)
    }
}
