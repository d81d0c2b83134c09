//! Replies as lines of text.
ghost use Rattle.std.specs.Prelude.{◌≡◌, ◌++◌, ◌∷◌, [], length, codes, OnOk};
ghost use Rattle.std.specs.Fmt.{decimal};
ghost use Rattle.std.specs.List.{flat_map};
ghost use Rattle.std.specs.Str.{chars};
ghost use Rattle.std.specs.String.{string_bytes};
ghost use Rattle.rope_protocol.specs.ReplyLine as words;
ghost use Rattle.rope_protocol.specs.ReplyLine.{quoted_char, quoted, item_words, reply_words, reply_line};

use rope_script::{Item, Reply};
use ropey::LineBreaks;
use std::alloc::AllocError;
use std::cmp::Ordering;
use std::fmt::Write as _;

/// Appends the line of a reply, with its LF.
pub(crate) fn write_reply(out: &mut String, reply: &Reply) -> Result<(), AllocError>
    ensures { OnOk result (string_bytes out.new ≡ string_bytes out.old ++ reply_line reply.now) }
{
    write_words(out, reply)?;
    out.push('\n')
}

/// Appends the words of a reply.
fn write_words(out: &mut String, reply: &Reply) -> Result<(), AllocError>
    ensures { OnOk result (string_bytes out.new ≡ string_bytes out.old ++ reply_words reply.now) }
{
    match reply {
        Reply::Done => out.push_str("ok"),
        Reply::Made(rope) => write!(out, "rope {rope}"),
        Reply::NoRope => out.push_str("no rope"),
        Reply::NoSlice => out.push_str("no slice"),
        Reply::Absent => out.push_str("none"),
        Reply::Refused(error) => write!(out, "error: {error}"),
        Reply::Lens(bytes, chars, lines, units) => write!(out, "{bytes} {chars} {lines} {units}"),
        Reply::Number(number) => write!(out, "{number}"),
        Reply::Byte(byte) => write!(out, "{byte}"),
        Reply::Char(c) => quote_alone(out, *c),
        Reply::Text(text) => quote(out, text.as_str()),
        Reply::Texts(texts) => write_texts(out, texts),
        Reply::Breaks(breaks) => out.push_str(breaks_word(*breaks)),
        Reply::Chunk(text, bytes, chars, break_count) => {
            quote(out, text.as_str())?;
            write!(out, " {bytes} {chars} {break_count}")
        }
        Reply::Walk(items) => write_items(out, items),
        Reply::Order(order) => out.push_str(order_word(*order)),
        Reply::Position(line, column) => write!(out, "{line} {column}"),
    }
}

/// Returns the word that names a set of line breaks.
fn breaks_word(break_count: LineBreaks) -> &'static str
    ensures { result.now ≡ words.breaks_word break_count }
{
    match break_count {
        LineBreaks::Lf => "lf",
        LineBreaks::CrLf => "crlf",
        LineBreaks::Unicode => "unicode",
    }
}

/// Returns the word for an order.
fn order_word(order: Ordering) -> &'static str
    ensures { result.now ≡ words.order_word order }
{
    match order {
        Ordering::Less => "less",
        Ordering::Equal => "equal",
        Ordering::Greater => "greater",
    }
}

/// Appends the number of texts, and each of them quoted.
fn write_texts(out: &mut String, texts: &[String]) -> Result<(), AllocError>
    ensures { OnOk result
        (string_bytes out.new
        ≡ string_bytes out.old
        ++ (decimal (length texts.now) ++ flat_map
        (λ s. codes " " ++ quoted (chars (string_bytes s))) texts.now)) }
{
    let count = texts.len();
    write!(out, "{count}")?;
    for text in texts {
        out.push(' ')?;
        quote(out, text.as_str())?;
    }
    Ok(())
}

/// Appends the number of items, and each of them.
fn write_items(out: &mut String, items: &[Option<Item>]) -> Result<(), AllocError>
    ensures { OnOk result
        (string_bytes out.new
        ≡ string_bytes out.old
        ++ (decimal (length items.now) ++ flat_map (λ item. codes " " ++ item_words item)
        items.now)) }
{
    let count = items.len();
    write!(out, "{count}")?;
    for item in items {
        out.push(' ')?;
        write_item(out, item)?;
    }
    Ok(())
}

/// Appends an item of a walk, or a sign that there is none.
fn write_item(out: &mut String, item: &Option<Item>) -> Result<(), AllocError>
    ensures { OnOk result (string_bytes out.new ≡ string_bytes out.old ++ item_words item.now) }
{
    match item {
        None => out.push_str("-"),
        Some(Item::Byte(byte)) => write!(out, "{byte}"),
        Some(Item::Char(c)) => quote_alone(out, *c),
        Some(Item::Text(text)) => quote(out, text.as_str()),
    }
}

/// Appends a character between quotation marks.
fn quote_alone(out: &mut String, c: char) -> Result<(), AllocError>
    ensures { OnOk result (string_bytes out.new ≡ string_bytes out.old ++ quoted (c ∷ [])) }
{
    out.push('"')?;
    quote_char(out, c)?;
    out.push('"')
}

/// Appends a text between quotation marks, in one line.
fn quote(out: &mut String, text: &str) -> Result<(), AllocError>
    ensures { OnOk result (string_bytes out.new ≡ string_bytes out.old ++ quoted (chars text.now)) }
{
    out.push('"')?;
    for c in text.chars() {
        quote_char(out, c)?;
    }
    out.push('"')
}

/// Appends a character of a quoted text: itself, unless it ends a line, is a control, or has a
/// meaning between quotation marks.
fn quote_char(out: &mut String, c: char) -> Result<(), AllocError>
    ensures { OnOk result (string_bytes out.new ≡ string_bytes out.old ++ quoted_char c) }
{
    match c {
        '\n' => out.push_str("\\n"),
        '\r' => out.push_str("\\r"),
        '\\' => out.push_str("\\\\"),
        '"' => out.push_str("\\\""),
        '\0'..='\u{1f}' | '\u{7f}' | '\u{85}' | '\u{2028}' | '\u{2029}' => {
            let code = c as u32;
            write!(out, "\\u{{{code:x}}}")
        }
        _ => out.push(c),
    }
}
