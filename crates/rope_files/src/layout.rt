//! The bytes of single characters in UTF-16 and Latin-1.
ghost use Rattle.std.specs.Prelude.{◌≡◌, ◌<◌, ◌≤◌, length, take};
ghost use Rattle.rope_files.specs.Layouts.{code_unit, unit_bytes, Fronts};
ghost use Rattle.rope_files.specs.declared.layout.Layout.TheVariants.{CodeUnits};

/// Which byte of a code unit comes first.
#[derive(Clone, Copy)]
pub(crate) enum ByteOrder {
    /// The low byte.
    Little,
    /// The high byte.
    Big,
}

/// How the bytes of a character lie.
#[derive(Clone, Copy)]
pub(crate) enum Layout {
    /// A byte for each character.
    Bytes,
    /// The one or two code units of UTF-16, of two bytes each.
    CodeUnits(ByteOrder),
}

/// What some bytes begin with.
#[derive(Clone, Copy)]
pub(crate) enum Front {
    /// A character, in this many bytes.
    Char(char, usize),
    /// A part of a character, which is cut off by the end of the bytes.
    Part,
    /// A surrogate that is not in a pair.
    Unpaired,
}

// The code unit that the first two bytes are.
fn code_unit(order: ByteOrder, bytes: &[u8]) -> u16
    requires { 2 ≤ length bytes.now }
    ensures value { result ≡ code_unit order bytes.now }
    ensures bytes { take 2 bytes.now ≡ unit_bytes order result }
{
    match order {
        ByteOrder::Little => u16::from(bytes[0]) + u16::from(bytes[1]) * 0x100,
        ByteOrder::Big => u16::from(bytes[0]) * 0x100 + u16::from(bytes[1]),
    }
}

// What bytes of UTF-16 begin with.
fn front_units(order: ByteOrder, bytes: &[u8]) -> Front
    ensures { Fronts (CodeUnits order) bytes.now result }
{
    if bytes.len() < 2 {
        return Front::Part;
    }
    let high = u32::from(code_unit(order, bytes));
    if let Some(c) = char::from_u32(high) {
        return Front::Char(c, 2);
    }
    if 0xDC00 <= high {
        return Front::Unpaired;
    }
    if bytes.len() < 4 {
        return Front::Part;
    }
    let low = u32::from(code_unit(order, &bytes[2..]));
    if low < 0xDC00 || 0xE000 <= low {
        return Front::Unpaired;
    }
    match char::from_u32(0x1_0000 + (high - 0xD800) * 0x400 + (low - 0xDC00)) {
        Some(c) => Front::Char(c, 4),
        None => unreachable!(),
    }
}

/// What some bytes begin with.
pub(crate) fn front_char(layout: Layout, bytes: &[u8]) -> Front
    requires { 0 < length bytes.now }
    ensures { Fronts layout bytes.now result }
{
    match layout {
        Layout::Bytes => Front::Char(char::from(bytes[0]), 1),
        Layout::CodeUnits(order) => front_units(order, bytes),
    }
}
