//! Bytes, characters and chunks of a rope by their index, and conversions between indices of bytes,
//! characters, UTF-16 code units and lines. Each call costs one lookup and takes no memory.
//!
//! Of `"héllo"`, `byte(1)` is 0xC3 and `char(1)` is `é`. For the text `"é\r\nx"` with Unicode's
//! line breaks, `byte_to_char(1)` is 0, since byte 1 is inside the `é`; `char_to_byte(1)` is 2;
//! `char_to_line(2)` is 0, since the index between CR and LF is on the first line;
//! `line_to_char(1)` is 3.
//!
//! The calls for chunks also return the numbers of bytes, characters and line breaks before the
//! chunk. A rope of `"one\ntwo"` has one chunk, and `chunk_at_char(5)` is `("one\ntwo", 0, 0, 0)`.
//! A caller that reads the text around an index takes the chunk there, and continues with
//! `chunks_at_char`.
//!
//! The last calls count their steps: the nodes entered, and the running totals compared with an
//! index. Each sets the counts to 0 first. In a rope of one chunk, `byte_counted(0, &mut steps)`
//! leaves `steps.nodes` at 1 and `steps.compares` at 0.
ghost use Rattle.std.specs.Prelude.{◌≡◌, ◌<◌, ◌≤◌, length, slice_get, Some, ℕ, IfOk};
ghost use Rattle.std.specs.Str.{encode_utf8_all};
ghost use Rattle.rope_text.specs.Text.{byte_len, utf16_len};
ghost use Rattle.rope_text.specs.Lines.{line_count};
ghost use Rattle.rope_text.specs.Lookup.{chunk_index_at_byte, chunk_index_at_char, chunk_index_at_line_break};
ghost use Rattle.rope_slice.specs.Found.{GivesWithin, ShowsChunk};
ghost use Rattle.ropey.specs.View.{content, IsRope};
ghost use Rattle.rope_text.specs.Conversions.{byte_to_char, byte_to_line, char_to_byte, char_to_line, char_to_utf16, line_to_byte, line_to_char, utf16_to_char};
ghost use Rattle.rope_text.specs.Edit.{byte_index_error, char_index_error, line_index_error, utf16_index_error};
ghost use Rattle.rope_text.specs.Answer.{checked};
ghost use Rattle.rope_text.specs.declared.TheConstants.{MAX_HEIGHT};
ghost use Rattle.rope_leaf.specs.Tree.{text};
ghost use Rattle.ropey.specs.Counted.{IsLookUp, WentDown, IsLookUpAt, IsLineLookUp};

use crate::rope::Rope;
use rope_slice::ChunkAt;
use rope_text::{Error, Result, Steps};
use rope_tree::Unit::{Byte, Char, CodeUnit, LineBreak};
use rope_tree::{Node, byte_at, char_at, convert};

impl Rope {
    /// Returns the byte `byte_idx`.
    ///
    /// The index is below `len_bytes()`. With the text `"ab"`, `byte(1)` is `b'b'`.
    pub fn byte(&self, byte_idx: usize) -> u8
        requires { byte_idx < byte_len self.now.text }
        ensures { slice_get (encode_utf8_all self.now.text) byte_idx ≡ Some result }
    {
        self.byte_counted(byte_idx, &mut Steps::new())
    }

    /// Returns the character `char_idx`.
    ///
    /// The index is below `len_chars()`. With the text `"éa"`, `char(1)` is `'a'`.
    pub fn char(&self, char_idx: usize) -> char
        requires { char_idx < length self.now.text }
        ensures { slice_get self.now.text char_idx ≡ Some result }
    {
        self.char_counted(char_idx, &mut Steps::new())
    }

    /// Returns the chunk that contains the byte `byte_idx`, and at the end of the text the last
    /// chunk. Also returns the numbers of bytes, characters and line breaks that end before the
    /// chunk; for an empty rope `("", 0, 0, 0)`.
    ///
    /// The index is at most `len_bytes()`. With the text `"ab"`, `chunk_at_byte(1)` is
    /// `("ab", 0, 0, 0)`.
    pub fn chunk_at_byte(&self, byte_idx: usize) -> ChunkAt<'_>
        requires { byte_idx ≤ byte_len self.now.text }
        ensures { ShowsChunk (content self.now)
            (chunk_index_at_byte self.now.chunks byte_idx) result }
    {
        self.whole().chunk_at_byte(byte_idx)
    }

    /// Returns the chunk that contains the character `char_idx`, and at the end of the text the
    /// last chunk. Also returns the numbers of bytes, characters and line breaks that end before
    /// the chunk; for an empty rope `("", 0, 0, 0)`.
    ///
    /// The index is at most `len_chars()`. With the text `"éb"`, `chunk_at_char(1)` is
    /// `("éb", 0, 0, 0)`.
    pub fn chunk_at_char(&self, char_idx: usize) -> ChunkAt<'_>
        requires { char_idx ≤ length self.now.text }
        ensures { ShowsChunk (content self.now)
            (chunk_index_at_char self.now.chunks char_idx) result }
    {
        self.whole().chunk_at_char(char_idx)
    }

    /// Returns the first chunk that ends after `line_break_idx` line breaks, or else the last
    /// chunk. Also returns the numbers of bytes, characters and line breaks that end before the
    /// chunk; for an empty rope `("", 0, 0, 0)`.
    ///
    /// The index is at most `len_lines()`. With the text `"a\n"`, `chunk_at_line_break(1)` is
    /// `("a\n", 0, 0, 0)`.
    pub fn chunk_at_line_break(&self, line_break_idx: usize) -> ChunkAt<'_>
        requires { line_break_idx ≤ line_count self.now.breaks self.now.text }
        ensures { ShowsChunk (content self.now)
            (chunk_index_at_line_break self.now.breaks self.now.chunks line_break_idx) result }
    {
        self.whole().chunk_at_line_break(line_break_idx)
    }

    /// Returns the byte `byte_idx`, or `None` exactly if the index is `len_bytes()` or more. With
    /// the text `"ab"`, `get_byte(2)` is `None`.
    pub fn get_byte(&self, byte_idx: usize) -> Option<u8>
        ensures { result ≡ slice_get (encode_utf8_all self.now.text) byte_idx }
    {
        if byte_idx < self.len_bytes() {
            return Some(self.byte(byte_idx));
        }
        None
    }

    /// Returns the character `char_idx`, or `None` exactly if the index is `len_chars()` or more.
    /// With the text `"ab"`, `get_char(2)` is `None`.
    pub fn get_char(&self, char_idx: usize) -> Option<char>
        ensures { result ≡ slice_get self.now.text char_idx }
    {
        if char_idx < self.len_chars() {
            return Some(self.char(char_idx));
        }
        None
    }

    /// Returns a chunk as `chunk_at_byte` does, or `None` exactly if the index is past
    /// `len_bytes()`. With the text `"ab"`, `get_chunk_at_byte(3)` is `None`.
    pub fn get_chunk_at_byte(&self, byte_idx: usize) -> Option<ChunkAt<'_>>
        ensures { GivesWithin byte_idx (byte_len self.now.text) result
            (ShowsChunk (content self.now) (chunk_index_at_byte self.now.chunks byte_idx)) }
    {
        self.whole().try_chunk_at_byte(byte_idx).ok()
    }

    /// Returns a chunk as `chunk_at_char` does, or `None` exactly if the index is past
    /// `len_chars()`. With the text `"ab"`, `get_chunk_at_char(3)` is `None`.
    pub fn get_chunk_at_char(&self, char_idx: usize) -> Option<ChunkAt<'_>>
        ensures { GivesWithin char_idx (length self.now.text) result
            (ShowsChunk (content self.now) (chunk_index_at_char self.now.chunks char_idx)) }
    {
        self.whole().get_chunk_at_char(char_idx)
    }

    /// Returns a chunk as `chunk_at_line_break` does, or `None` exactly if the index is past
    /// `len_lines()`. With the text `"ab"`, `get_chunk_at_line_break(2)` is `None`.
    pub fn get_chunk_at_line_break(&self, line_break_idx: usize) -> Option<ChunkAt<'_>>
        ensures { GivesWithin line_break_idx (line_count self.now.breaks self.now.text) result
            (ShowsChunk (content self.now)
            (chunk_index_at_line_break self.now.breaks self.now.chunks line_break_idx)) }
    {
        self.whole().get_chunk_at_line_break(line_break_idx)
    }

    /// Returns the index of the character that contains the byte `byte_idx`, which may be inside
    /// the character; at the end of the text, the number of characters.
    ///
    /// The index is at most `len_bytes()`. With the text `"éa"`, `byte_to_char(1)` is 0.
    pub fn byte_to_char(&self, byte_idx: usize) -> usize
        requires { byte_idx ≤ byte_len self.now.text }
        ensures value { result ≡ byte_to_char self.now.text byte_idx }
        ensures within { result ≤ length self.now.text }
    {
        self.byte_to_char_counted(byte_idx, &mut Steps::new())
    }

    /// Converts as `byte_to_char` does, for any index.
    ///
    /// With the text `"éa"`, `try_byte_to_char(4)` is `Err(Error::ByteIndexOutOfBounds(4, 3))`.
    ///
    /// # Errors
    ///
    /// `ByteIndexOutOfBounds`, with the index and the number of bytes, exactly if the index is past
    /// `len_bytes()`.
    pub fn try_byte_to_char(&self, byte_idx: usize) -> Result<usize>
        ensures { result ≡ checked (byte_index_error byte_idx (byte_len self.now.text))
            (byte_to_char self.now.text byte_idx) }
    {
        Ok(self.byte_to_char(self.within_bytes(byte_idx)?))
    }

    /// Returns the line of the byte `byte_idx`: the number of line breaks that end at or before it.
    /// A byte inside a break of several bytes, such as between CR and LF, is on the line that the
    /// break ends.
    ///
    /// The index is at most `len_bytes()`. With the text `"é\na"`, `byte_to_line(3)` is 1.
    pub fn byte_to_line(&self, byte_idx: usize) -> usize
        requires { byte_idx ≤ byte_len self.now.text }
        ensures { result ≡ byte_to_line self.now.breaks self.now.text byte_idx }
    {
        self.byte_to_line_counted(byte_idx, &mut Steps::new())
    }

    /// Converts as `byte_to_line` does, for any index.
    ///
    /// With the text `"éa"`, `try_byte_to_line(4)` is `Err(Error::ByteIndexOutOfBounds(4, 3))`.
    ///
    /// # Errors
    ///
    /// `ByteIndexOutOfBounds`, with the index and the number of bytes, exactly if the index is past
    /// `len_bytes()`.
    pub fn try_byte_to_line(&self, byte_idx: usize) -> Result<usize>
        ensures { result ≡ checked (byte_index_error byte_idx (byte_len self.now.text))
            (byte_to_line self.now.breaks self.now.text byte_idx) }
    {
        Ok(self.byte_to_line(self.within_bytes(byte_idx)?))
    }

    /// Returns the byte offset at which the character `char_idx` begins; at the end of the text,
    /// the number of bytes.
    ///
    /// The index is at most `len_chars()`. With the text `"éa"`, `char_to_byte(1)` is 2.
    pub fn char_to_byte(&self, char_idx: usize) -> usize
        requires { char_idx ≤ length self.now.text }
        ensures { result ≡ char_to_byte self.now.text char_idx }
    {
        self.char_to_byte_counted(char_idx, &mut Steps::new())
    }

    /// Converts as `char_to_byte` does, for any index.
    ///
    /// With the text `"éa"`, `try_char_to_byte(3)` is `Err(Error::CharIndexOutOfBounds(3, 2))`.
    ///
    /// # Errors
    ///
    /// `CharIndexOutOfBounds`, with the index and the number of characters, exactly if the index is
    /// past `len_chars()`.
    pub fn try_char_to_byte(&self, char_idx: usize) -> Result<usize>
        ensures { result ≡ checked (char_index_error char_idx (length self.now.text))
            (char_to_byte self.now.text char_idx) }
    {
        Ok(self.char_to_byte(self.within_chars(char_idx)?))
    }

    /// Returns the line of the character `char_idx`: the number of line breaks that end at or
    /// before it. An index between CR and LF is on the line that the pair ends.
    ///
    /// The index is at most `len_chars()`. With the text `"é\na"`, `char_to_line(2)` is 1.
    pub fn char_to_line(&self, char_idx: usize) -> usize
        requires { char_idx ≤ length self.now.text }
        ensures value { result ≡ char_to_line self.now.breaks self.now.text char_idx }
        ensures within { result < line_count self.now.breaks self.now.text }
    {
        self.char_to_line_counted(char_idx, &mut Steps::new())
    }

    /// Converts as `char_to_line` does, for any index.
    ///
    /// With the text `"éa"`, `try_char_to_line(3)` is `Err(Error::CharIndexOutOfBounds(3, 2))`.
    ///
    /// # Errors
    ///
    /// `CharIndexOutOfBounds`, with the index and the number of characters, exactly if the index is
    /// past `len_chars()`.
    pub fn try_char_to_line(&self, char_idx: usize) -> Result<usize>
        ensures { result ≡ checked (char_index_error char_idx (length self.now.text))
            (char_to_line self.now.breaks self.now.text char_idx) }
    {
        Ok(self.char_to_line(self.within_chars(char_idx)?))
    }

    /// Returns the index of the first UTF-16 code unit of the character `char_idx`; at the end of
    /// the text, the number of code units.
    ///
    /// The index is at most `len_chars()`. With the text `"😀a"`, `char_to_utf16_cu(1)` is 2.
    pub fn char_to_utf16_cu(&self, char_idx: usize) -> usize
        requires { char_idx ≤ length self.now.text }
        ensures { result ≡ char_to_utf16 self.now.text char_idx }
    {
        self.char_to_utf16_cu_counted(char_idx, &mut Steps::new())
    }

    /// Converts as `char_to_utf16_cu` does, for any index.
    ///
    /// With the text `"éa"`, `try_char_to_utf16_cu(3)` is `Err(Error::CharIndexOutOfBounds(3, 2))`.
    ///
    /// # Errors
    ///
    /// `CharIndexOutOfBounds`, with the index and the number of characters, exactly if the index is
    /// past `len_chars()`.
    pub fn try_char_to_utf16_cu(&self, char_idx: usize) -> Result<usize>
        ensures { result ≡ checked (char_index_error char_idx (length self.now.text))
            (char_to_utf16 self.now.text char_idx) }
    {
        Ok(self.char_to_utf16_cu(self.within_chars(char_idx)?))
    }

    /// Returns the index of the character that contains the UTF-16 code unit `utf16_cu_idx`, which
    /// may be the second half of a surrogate pair; at the end of the text, the number of
    /// characters.
    ///
    /// The index is at most `len_utf16_cu()`. With the text `"😀a"`, `utf16_cu_to_char(1)` is 0.
    pub fn utf16_cu_to_char(&self, utf16_cu_idx: usize) -> usize
        requires { utf16_cu_idx ≤ utf16_len self.now.text }
        ensures { result ≡ utf16_to_char self.now.text utf16_cu_idx }
    {
        self.utf16_cu_to_char_counted(utf16_cu_idx, &mut Steps::new())
    }

    /// Converts as `utf16_cu_to_char` does, for any index.
    ///
    /// With the text `"😀a"`, `try_utf16_cu_to_char(4)` is
    /// `Err(Error::Utf16IndexOutOfBounds(4, 3))`.
    ///
    /// # Errors
    ///
    /// `Utf16IndexOutOfBounds`, with the index and the number of code units, exactly if the index
    /// is past `len_utf16_cu()`.
    pub fn try_utf16_cu_to_char(&self, utf16_cu_idx: usize) -> Result<usize>
        ensures { result ≡ checked (utf16_index_error utf16_cu_idx (utf16_len self.now.text))
            (utf16_to_char self.now.text utf16_cu_idx) }
    {
        Ok(self.utf16_cu_to_char(self.within_code_units(utf16_cu_idx)?))
    }

    /// Returns the byte offset at which the line `line_idx` starts; for `len_lines()`, the end of
    /// the text.
    ///
    /// The index is at most `len_lines()`. With the text `"é\na"`, `line_to_byte(1)` is 3.
    pub fn line_to_byte(&self, line_idx: usize) -> usize
        requires { line_idx ≤ line_count self.now.breaks self.now.text }
        ensures { result ≡ line_to_byte self.now.breaks self.now.text line_idx }
    {
        self.line_to_byte_counted(line_idx, &mut Steps::new())
    }

    /// Converts as `line_to_byte` does, for any index.
    ///
    /// With the text `"é\na"`, `try_line_to_byte(3)` is `Err(Error::LineIndexOutOfBounds(3, 2))`.
    ///
    /// # Errors
    ///
    /// `LineIndexOutOfBounds`, with the index and the number of lines, exactly if the index is past
    /// `len_lines()`.
    pub fn try_line_to_byte(&self, line_idx: usize) -> Result<usize>
        ensures { result ≡ checked
            (line_index_error line_idx (line_count self.now.breaks self.now.text))
            (line_to_byte self.now.breaks self.now.text line_idx) }
    {
        Ok(self.line_to_byte(self.within_lines(line_idx)?))
    }

    /// Returns the index of the first character of the line `line_idx`; for `len_lines()`, the end
    /// of the text.
    ///
    /// The index is at most `len_lines()`. With the text `"é\na"`, `line_to_char(1)` is 2.
    pub fn line_to_char(&self, line_idx: usize) -> usize
        requires { line_idx ≤ line_count self.now.breaks self.now.text }
        ensures value { result ≡ line_to_char self.now.breaks self.now.text line_idx }
        ensures within { result ≤ length self.now.text }
        ensures ordered { (later : ℕ) → line_idx ≤ later
            → result ≤ line_to_char self.now.breaks self.now.text later }
    {
        self.line_to_char_counted(line_idx, &mut Steps::new())
    }

    /// Converts as `line_to_char` does, for any index.
    ///
    /// With the text `"é\na"`, `try_line_to_char(3)` is `Err(Error::LineIndexOutOfBounds(3, 2))`.
    ///
    /// # Errors
    ///
    /// `LineIndexOutOfBounds`, with the index and the number of lines, exactly if the index is past
    /// `len_lines()`.
    pub fn try_line_to_char(&self, line_idx: usize) -> Result<usize>
        ensures { result ≡ checked
            (line_index_error line_idx (line_count self.now.breaks self.now.text))
            (line_to_char self.now.breaks self.now.text line_idx) }
    {
        Ok(self.line_to_char(self.within_lines(line_idx)?))
    }

    // Returns the byte index, or its error.
    fn within_bytes(&self, byte_idx: usize) -> Result<usize>
        ensures value { result
            ≡ checked (byte_index_error byte_idx (byte_len self.now.text)) byte_idx }
        ensures within { IfOk result (λ idx. idx ≤ byte_len self.now.text) }
    {
        let bytes = self.len_bytes();
        if byte_idx > bytes {
            return Err(Error::ByteIndexOutOfBounds(byte_idx, bytes));
        }
        Ok(byte_idx)
    }

    // Returns the character index, or its error.
    pub(crate) fn within_chars(&self, char_idx: usize) -> Result<usize>
        ensures value { result
            ≡ checked (char_index_error char_idx (length self.now.text)) char_idx }
        ensures within { IfOk result (λ idx. idx ≤ length self.now.text) }
        ensures kept { IsRope self.now }
    {
        let chars = self.len_chars();
        if char_idx > chars {
            return Err(Error::CharIndexOutOfBounds(char_idx, chars));
        }
        Ok(char_idx)
    }

    // Returns the code unit index, or its error.
    fn within_code_units(&self, utf16_cu_idx: usize) -> Result<usize>
        ensures value { result
            ≡ checked (utf16_index_error utf16_cu_idx (utf16_len self.now.text)) utf16_cu_idx }
        ensures within { IfOk result (λ idx. idx ≤ utf16_len self.now.text) }
    {
        let code_units = self.len_utf16_cu();
        if utf16_cu_idx > code_units {
            return Err(Error::Utf16IndexOutOfBounds(utf16_cu_idx, code_units));
        }
        Ok(utf16_cu_idx)
    }

    // Returns the line index, or its error.
    fn within_lines(&self, line_idx: usize) -> Result<usize>
        ensures value { result ≡ checked
            (line_index_error line_idx (line_count self.now.breaks self.now.text)) line_idx }
        ensures within { IfOk result (λ idx. idx ≤ line_count self.now.breaks self.now.text) }
    {
        let lines = self.len_lines();
        if line_idx > lines {
            return Err(Error::LineIndexOutOfBounds(line_idx, lines));
        }
        Ok(line_idx)
    }

    // Sets the counts to 0 and returns the root of the tree.
    fn begin(&self, steps: &mut Steps) -> &Node
        ensures text { text result.now ≡ self.now.text }
        ensures breaks { result.now.breaks ≡ self.now.breaks }
        ensures depth { result.now.height ≡ self.now.depth }
        ensures low { result.now.height ≤ MAX_HEIGHT }
        ensures zero { steps.new ≡ record { nodes = 0; compares = 0; made = 0 } }
    {
        *steps = Steps::new();
        &self.root
    }

    /// Converts as `byte_to_char` does, under the same precondition, and sets `steps`: at most one
    /// node a level entered, at most five totals compared in each inner node on the path, none
    /// made. With the text `"éa"`, `byte_to_char_counted(1, &mut steps)` is 0, and `steps.nodes` is
    /// 1.
    pub fn byte_to_char_counted(&self, byte_idx: usize, steps: &mut Steps) -> usize
        requires { byte_idx ≤ byte_len self.now.text }
        ensures value { result ≡ byte_to_char self.now.text byte_idx }
        ensures steps { IsLookUpAt byte_idx (byte_len self.now.text) self.now.depth steps.new }
    {
        convert(self.begin(steps), Byte, Char, byte_idx, steps)
    }

    /// Converts as `byte_to_line` does, under the same precondition, and sets `steps`: at most one
    /// node a level entered, at most five totals compared in each inner node on the path, none
    /// made. With the text `"é\na"`, `byte_to_line_counted(3, &mut steps)` is 1, and `steps.nodes`
    /// is 1.
    pub fn byte_to_line_counted(&self, byte_idx: usize, steps: &mut Steps) -> usize
        requires { byte_idx ≤ byte_len self.now.text }
        ensures value { result ≡ byte_to_line self.now.breaks self.now.text byte_idx }
        ensures steps { IsLookUpAt byte_idx (byte_len self.now.text) self.now.depth steps.new }
    {
        convert(self.begin(steps), Byte, LineBreak, byte_idx, steps)
    }

    /// Converts as `char_to_byte` does, under the same precondition, and sets `steps`: at most one
    /// node a level entered, at most five totals compared in each inner node on the path, none
    /// made. With the text `"éa"`, `char_to_byte_counted(1, &mut steps)` is 2, and `steps.nodes` is
    /// 1.
    pub fn char_to_byte_counted(&self, char_idx: usize, steps: &mut Steps) -> usize
        requires { char_idx ≤ length self.now.text }
        ensures value { result ≡ char_to_byte self.now.text char_idx }
        ensures steps { IsLookUpAt char_idx (length self.now.text) self.now.depth steps.new }
    {
        convert(self.begin(steps), Char, Byte, char_idx, steps)
    }

    /// Converts as `char_to_line` does, under the same precondition, and sets `steps`: at most one
    /// node a level entered, at most five totals compared in each inner node on the path, none
    /// made. With the text `"é\na"`, `char_to_line_counted(2, &mut steps)` is 1, and `steps.nodes`
    /// is 1.
    pub fn char_to_line_counted(&self, char_idx: usize, steps: &mut Steps) -> usize
        requires { char_idx ≤ length self.now.text }
        ensures value { result ≡ char_to_line self.now.breaks self.now.text char_idx }
        ensures steps { IsLookUpAt char_idx (length self.now.text) self.now.depth steps.new }
    {
        convert(self.begin(steps), Char, LineBreak, char_idx, steps)
    }

    /// Converts as `char_to_utf16_cu` does, under the same precondition, and sets `steps`: at most
    /// one node a level entered, at most five totals compared in each inner node on the path, none
    /// made. With the text `"😀a"`, `char_to_utf16_cu_counted(1, &mut steps)` is 2, and
    /// `steps.nodes` is 1.
    pub fn char_to_utf16_cu_counted(&self, char_idx: usize, steps: &mut Steps) -> usize
        requires { char_idx ≤ length self.now.text }
        ensures value { result ≡ char_to_utf16 self.now.text char_idx }
        ensures steps { IsLookUpAt char_idx (length self.now.text) self.now.depth steps.new }
    {
        convert(self.begin(steps), Char, CodeUnit, char_idx, steps)
    }

    /// Converts as `utf16_cu_to_char` does, under the same precondition, and sets `steps`: at most
    /// one node a level entered, at most five totals compared in each inner node on the path, none
    /// made. With the text `"😀a"`, `utf16_cu_to_char_counted(1, &mut steps)` is 0, and
    /// `steps.nodes` is 1.
    pub fn utf16_cu_to_char_counted(&self, utf16_cu_idx: usize, steps: &mut Steps) -> usize
        requires { utf16_cu_idx ≤ utf16_len self.now.text }
        ensures value { result ≡ utf16_to_char self.now.text utf16_cu_idx }
        ensures steps { IsLookUpAt utf16_cu_idx (utf16_len self.now.text) self.now.depth steps.new }
    {
        convert(self.begin(steps), CodeUnit, Char, utf16_cu_idx, steps)
    }

    /// Converts as `line_to_byte` does, under the same precondition, and sets `steps`: at most one
    /// node a level entered, at most five totals compared in each inner node on the path, none
    /// made. With the text `"é\na"`, `line_to_byte_counted(1, &mut steps)` is 3, and `steps.nodes`
    /// is 1.
    pub fn line_to_byte_counted(&self, line_idx: usize, steps: &mut Steps) -> usize
        requires { line_idx ≤ line_count self.now.breaks self.now.text }
        ensures value { result ≡ line_to_byte self.now.breaks self.now.text line_idx }
        ensures steps { IsLineLookUp line_idx (line_count self.now.breaks self.now.text)
            self.now.depth steps.new }
    {
        convert(self.begin(steps), LineBreak, Byte, line_idx, steps)
    }

    /// Converts as `line_to_char` does, under the same precondition, and sets `steps`: at most one
    /// node a level entered, at most five totals compared in each inner node on the path, none
    /// made. With the text `"é\na"`, `line_to_char_counted(1, &mut steps)` is 2, and `steps.nodes`
    /// is 1.
    pub fn line_to_char_counted(&self, line_idx: usize, steps: &mut Steps) -> usize
        requires { line_idx ≤ line_count self.now.breaks self.now.text }
        ensures value { result ≡ line_to_char self.now.breaks self.now.text line_idx }
        ensures steps { IsLineLookUp line_idx (line_count self.now.breaks self.now.text)
            self.now.depth steps.new }
    {
        convert(self.begin(steps), LineBreak, Char, line_idx, steps)
    }

    /// Returns the byte as `byte` does, under the same precondition, and sets `steps`: exactly one
    /// node a level entered, one to five totals compared in each inner node on the path, none made.
    /// With the text `"ab"`, `byte_counted(1, &mut steps)` is `b'b'`, and `steps.nodes` is 1.
    pub fn byte_counted(&self, byte_idx: usize, steps: &mut Steps) -> u8
        requires { byte_idx < byte_len self.now.text }
        ensures value { slice_get (encode_utf8_all self.now.text) byte_idx ≡ Some result }
        ensures steps { IsLookUp self.now.depth steps.new }
        ensures down { WentDown self.now.depth steps.new }
    {
        byte_at(self.begin(steps), byte_idx, steps)
    }

    /// Returns the character as `char` does, under the same precondition, and sets `steps`: exactly
    /// one node a level entered, one to five totals compared in each inner node on the path, none
    /// made. With the text `"éa"`, `char_counted(1, &mut steps)` is `'a'`, and `steps.nodes` is 1.
    pub fn char_counted(&self, char_idx: usize, steps: &mut Steps) -> char
        requires { char_idx < length self.now.text }
        ensures value { slice_get self.now.text char_idx ≡ Some result }
        ensures steps { IsLookUp self.now.depth steps.new }
        ensures down { WentDown self.now.depth steps.new }
    {
        char_at(self.begin(steps), char_idx, steps)
    }
}
