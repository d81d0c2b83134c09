//! Edits of ropes: texts and characters inserted, ranges removed, ropes split and appended to each
//! other. No edit scans the rope's text, and one that fails leaves the rope unchanged.
//!
//! With the text `"held"`, `insert(3, "lo worl")` makes `"hello world"`. From there `remove(5..)`
//! leaves `"hello"`; `split_off(6)` leaves `"hello "` and returns a rope of `"world"`, and an
//! `append` of that restores it.
ghost use Rattle.std.specs.Prelude.{true, ◌≡◌, ◌+◌, ◌*◌, ◌<◌, ◌≤◌, ◌^◌, [], ◌∷◌, length, None, Some, IsOk, IfErr, OnOk, max, IfOk};
ghost use Rattle.std.specs.Str.{chars};
ghost use Rattle.rope_text.specs.declared.TheConstants.{MAX_SHORT_BYTES};
ghost use Rattle.rope_text.specs.Text.{byte_len};
ghost use Rattle.rope_text.specs.Edit.{IsRefusal, char_index_error, append_error};
ghost use Rattle.rope_slice.specs.Sliced.{HasCharRange, IsEmptyRange};
ghost use Rattle.rope_leaf.specs.Searched.{HasSearched};
ghost use Rattle.ropey.specs.View.{IsRope};
ghost use Rattle.ropey.specs.Counted.{IsEditCount, IsLongInsertCount, no_steps, insert_nodes, long_insert_nodes, removal_nodes, split_nodes, append_nodes};
ghost use Rattle.ropey.specs.Edited.{IsEdit, IsIdle, CanInsert, IsInsert, IsInsertRefusal, IsRemoval, IsRemovalRefusal, CanAppend, CannotAppend, IsAppend, IsAppendRefusal, IsCutAt};
ghost use Rattle.rope_text.specs.declared.error.Error.TheVariants.{OutOfMemory};

use crate::rope::Rope;
use rope_join::cut::split_off;
use rope_join::long_edits::{append_to, insert_into, remove};
use rope_text::range::{IndexRange, char_bounds};
use rope_text::{Error, MAX_TEXT_BYTES, Result, Steps};
use rope_tree::Editor;
use std::mem;

// The calls without `try_` are inlined: each call in between would store the seven words of a
// result and load them again, some with a store-forwarding stall.
impl Rope {
    // Inserts a text before a character, and counts the steps.
    #[inline(always)]
    fn insert_by(&mut self, editor: &mut Editor, char_idx: usize, text: &str) -> Result<()>
        requires { char_idx ≤ length self.old.text }
        ensures ok { OnOk result (IsInsert self.old.text char_idx (chars text.now) self.new.text) }
        ensures refused { IfErr result (IsInsertRefusal self.old.text char_idx (chars text.now)) }
        ensures empty { length (chars text.now) ≡ 0
            → CanInsert self.old.text char_idx (chars text.now) → IsIdle result self.old self.new }
        ensures kept { IsEdit result self.old self.new }
        ensures made { length text.now ≤ MAX_SHORT_BYTES
            → editor.new.maker.made ≤ editor.old.maker.made + insert_nodes self.old.depth }
        ensures made_long { editor.new.maker.made
            ≤ editor.old.maker.made + long_insert_nodes (length text.now) self.old.depth }
        ensures searched { length text.now ≤ MAX_SHORT_BYTES → HasSearched
            (4 * self.old.depth + 3) (33 * self.old.depth) editor.old editor.new }
        ensures searched_long { HasSearched
            (37 * self.old.depth + 149) (185 * self.old.depth + 720) editor.old editor.new }
        ensures outside { length (chars text.now) ≡ 0 → editor.new ≡ editor.old }
        ensures too_long { 2 ^ 63 ≤ byte_len self.old.text + length text.now
            → editor.new ≡ editor.old }
        ensures inside { editor.old.is_counting ≡ true → 1 ≤ length text.now
            → byte_len self.old.text + length text.now < 2 ^ 63 → 1 ≤ editor.new.nodes }
    {
        let bytes = self.len_bytes();
        if text.len() > MAX_TEXT_BYTES - bytes {
            return Err(Error::TooLong);
        }
        if text.is_empty() {
            return Ok(());
        }
        editor.enter();
        Ok(insert_into(editor, &mut self.root, char_idx, text)?)
    }

    /// Inserts a text as `insert` does, at any index.
    ///
    /// With the text `"ac"`, `try_insert(3, "b")` is `Err(Error::CharIndexOutOfBounds(3, 2))`.
    ///
    /// # Errors
    ///
    /// First `CharIndexOutOfBounds`, with the index and the number of characters, if the index is
    /// past `len_chars()`; then `TooLong`, if the text would have more than `isize::MAX` bytes;
    /// then `OutOfMemory`.
    pub fn try_insert(&mut self, char_idx: usize, text: &str) -> Result<()>
        ensures ok { OnOk result (IsInsert self.old.text char_idx (chars text.now) self.new.text) }
        ensures refused { IfErr result (IsInsertRefusal self.old.text char_idx (chars text.now)) }
        ensures empty { length (chars text.now) ≡ 0
            → CanInsert self.old.text char_idx (chars text.now) → IsIdle result self.old self.new }
        ensures kept { IsEdit result self.old self.new }
    {
        let char_idx = self.within_chars(char_idx)?;
        self.insert(char_idx, text)
    }

    /// Inserts `text` before the character `char_idx`; for `len_chars()`, at the end.
    ///
    /// The index is at most `len_chars()`. An empty text takes no memory and changes nothing. A
    /// short one goes into the chunk around the index, and takes no memory if the chunk has room
    /// and no node on the path to it is shared with a clone; else nodes on the path are made. A
    /// text of up to 4,096 bytes and the chunk at the index become up to six chunks, and a longer
    /// text becomes chunks of its own.
    ///
    /// With the text `"ac"`, `insert(1, "b")` makes `"abc"`.
    ///
    /// # Errors
    ///
    /// First `TooLong`, if the text would have more than `isize::MAX` bytes; then `OutOfMemory`.
    #[inline(always)]
    pub fn insert(&mut self, char_idx: usize, text: &str) -> Result<()>
        requires { char_idx ≤ length self.old.text }
        ensures ok { OnOk result (IsInsert self.old.text char_idx (chars text.now) self.new.text) }
        ensures refused { IfErr result (IsInsertRefusal self.old.text char_idx (chars text.now)) }
        ensures empty { length (chars text.now) ≡ 0
            → CanInsert self.old.text char_idx (chars text.now) → IsIdle result self.old self.new }
        ensures kept { IsEdit result self.old self.new }
    {
        self.insert_by(&mut Editor::uncounted(self.alloc), char_idx, text)
    }

    /// Inserts `text` as [`insert`](Rope::insert) does, and sets all counts of `steps` to those of
    /// this call, also when it fails. They are 0 if the text is empty or too long; else the root
    /// counts as entered. In a rope of depth d a text of at most 981 bytes makes at most 3 d + 5
    /// nodes, enters at most 7 d + 5 and compares at most 37 d totals. A longer text makes at most
    /// two nodes for each 981 bytes and 298 d + 603 more, enters at most 37 d + 149 and compares at
    /// most 185 d + 720.
    ///
    /// The index is at most `len_chars()`.
    ///
    /// With the text `"ac"`, `insert_counted(1, "b", &mut steps)` makes `"abc"`.
    ///
    /// # Errors
    ///
    /// First `TooLong`, then `OutOfMemory`, as for `insert`.
    #[inline(always)]
    pub fn insert_counted(&mut self, char_idx: usize, text: &str, steps: &mut Steps) -> Result<()>
        requires { char_idx ≤ length self.old.text }
        ensures ok { OnOk result (IsInsert self.old.text char_idx (chars text.now) self.new.text) }
        ensures refused { IfErr result (IsInsertRefusal self.old.text char_idx (chars text.now)) }
        ensures empty { length (chars text.now) ≡ 0
            → CanInsert self.old.text char_idx (chars text.now) → IsIdle result self.old self.new }
        ensures kept { IsEdit result self.old self.new }
        ensures steps { length text.now ≤ MAX_SHORT_BYTES
            → IsEditCount (insert_nodes self.old.depth) self.old.depth steps.new }
        ensures steps_long { IsLongInsertCount (length text.now) self.old.depth steps.new }
        ensures steps_empty { length (chars text.now) ≡ 0 → steps.new ≡ no_steps }
        ensures steps_too_long { 2 ^ 63 ≤ byte_len self.old.text + length text.now
            → steps.new ≡ no_steps }
        ensures steps_inside { 1 ≤ length text.now
            → byte_len self.old.text + length text.now < 2 ^ 63 → 1 ≤ steps.new.nodes }
    {
        let mut editor = Editor::new(self.alloc);
        let inserted = self.insert_by(&mut editor, char_idx, text);
        *steps = editor.steps();
        inserted
    }

    /// Inserts a character as `insert_char` does, at any index.
    ///
    /// With the text `"ac"`, `try_insert_char(3, 'b')` is `Err(Error::CharIndexOutOfBounds(3, 2))`.
    ///
    /// # Errors
    ///
    /// First `CharIndexOutOfBounds`, with the index and the number of characters, if the index is
    /// past `len_chars()`; then `TooLong`, if the text would have more than `isize::MAX` bytes;
    /// then `OutOfMemory`.
    pub fn try_insert_char(&mut self, char_idx: usize, c: char) -> Result<()>
        ensures ok { OnOk result (IsInsert self.old.text char_idx (c ∷ []) self.new.text) }
        ensures refused { IfErr result (IsInsertRefusal self.old.text char_idx (c ∷ [])) }
        ensures kept { IsEdit result self.old self.new }
    {
        let char_idx = self.within_chars(char_idx)?;
        self.insert_char(char_idx, c)
    }

    /// Inserts the character `c` before the character `char_idx`; for `len_chars()`, at the end.
    ///
    /// The index is at most `len_chars()`. The character goes into the chunk around the index, and
    /// takes no memory if the chunk has room and no node on the path to it is shared with a clone;
    /// else it takes memory for at most 3 d + 5 nodes, where d is the rope's depth.
    ///
    /// With the text `"ac"`, `insert_char(1, 'b')` makes `"abc"`.
    ///
    /// # Errors
    ///
    /// First `TooLong`, if the text would have more than `isize::MAX` bytes; then `OutOfMemory`.
    #[inline(always)]
    pub fn insert_char(&mut self, char_idx: usize, c: char) -> Result<()>
        requires { char_idx ≤ length self.old.text }
        ensures ok { OnOk result (IsInsert self.old.text char_idx (c ∷ []) self.new.text) }
        ensures refused { IfErr result (IsInsertRefusal self.old.text char_idx (c ∷ [])) }
        ensures kept { IsEdit result self.old self.new }
    {
        self.insert(char_idx, c.encode_utf8(&mut [0; 4]))
    }

    /// Inserts the character `c` as [`insert_char`](Rope::insert_char) does, and sets all counts of
    /// `steps` to those of this call, also when it fails, within the bounds of
    /// [`insert_counted`](Rope::insert_counted) for a short text.
    ///
    /// The index is at most `len_chars()`.
    ///
    /// With the text `"ac"`, `insert_char_counted(1, 'b', &mut steps)` makes `"abc"`.
    ///
    /// # Errors
    ///
    /// First `TooLong`, then `OutOfMemory`, as for `insert_char`.
    #[inline(always)]
    pub fn insert_char_counted(&mut self, char_idx: usize, c: char, steps: &mut Steps) -> Result<()>
        requires { char_idx ≤ length self.old.text }
        ensures ok { OnOk result (IsInsert self.old.text char_idx (c ∷ []) self.new.text) }
        ensures refused { IfErr result (IsInsertRefusal self.old.text char_idx (c ∷ [])) }
        ensures kept { IsEdit result self.old self.new }
        ensures steps { IsEditCount (insert_nodes self.old.depth) self.old.depth steps.new }
        ensures steps_too_long { 2 ^ 63 ≤ byte_len self.old.text + byte_len (c ∷ [])
            → steps.new ≡ no_steps }
        ensures steps_inside { byte_len self.old.text + byte_len (c ∷ []) < 2 ^ 63
            → 1 ≤ steps.new.nodes }
    {
        self.insert_counted(char_idx, c.encode_utf8(&mut [0; 4]), steps)
    }

    /// Splits the rope as `split_off` does, at any index.
    ///
    /// With the text `"abc"`, `try_split_off(4)` is `Err(Error::CharIndexOutOfBounds(4, 3))`.
    ///
    /// # Errors
    ///
    /// `CharIndexOutOfBounds`, with the index and the number of characters, exactly if the index is
    /// past `len_chars()`; else `OutOfMemory`.
    pub fn try_split_off(&mut self, char_idx: usize) -> Result<Rope>
        ensures ok { IfOk result (λ back. (char_index_error char_idx (length self.old.text) ≡ None)
            × IsCutAt char_idx self.old self.new back) }
        ensures refused { IfErr result
            (IsRefusal (char_index_error char_idx (length self.old.text))) }
        ensures kept { IsEdit result self.old self.new }
    {
        let char_idx = self.within_chars(char_idx)?;
        self.split_off(char_idx)
    }

    /// Keeps the first `char_idx` characters, and returns the rest as a rope with the same set of
    /// line breaks. The two may share nodes.
    ///
    /// The index is at most `len_chars()`. Takes memory for at most 12 d + 2 nodes, where d is the
    /// rope's depth.
    ///
    /// With the text `"abc"`, `split_off(1)` leaves `"a"` and returns `"bc"`.
    ///
    /// # Errors
    ///
    /// `OutOfMemory`.
    pub fn split_off(&mut self, char_idx: usize) -> Result<Rope>
        requires { char_idx ≤ length self.old.text }
        ensures ok { IfOk result (λ back. IsCutAt char_idx self.old self.new back) }
        ensures refused { IfErr result (λ e. e ≡ OutOfMemory) }
        ensures kept { IsEdit result self.old self.new }
    {
        self.split_off_counted(char_idx, &mut Steps::new())
    }

    /// Splits the rope as [`split_off`](Rope::split_off) does, and sets all counts of `steps` to
    /// those of this call, also when it fails. In a rope of depth d it makes at most 12 d + 2
    /// nodes, enters the root and at most 7 d + 5 nodes in all, and compares at most 37 d totals.
    ///
    /// The index is at most `len_chars()`.
    ///
    /// With the text `"abc"`, `split_off_counted(1, &mut steps)` leaves `"a"` and returns `"bc"`.
    ///
    /// # Errors
    ///
    /// `OutOfMemory`.
    pub fn split_off_counted(&mut self, char_idx: usize, steps: &mut Steps) -> Result<Rope>
        requires { char_idx ≤ length self.old.text }
        ensures ok { IfOk result (λ back. IsCutAt char_idx self.old self.new back) }
        ensures refused { IfErr result (λ e. e ≡ OutOfMemory) }
        ensures kept { IsEdit result self.old self.new }
        ensures steps { IsEditCount (split_nodes self.old.depth) self.old.depth steps.new }
        ensures steps_inside { 1 ≤ steps.new.nodes }
    {
        let mut editor = Editor::new(self.alloc);
        editor.enter();
        let back = split_off(&mut editor, &mut self.root, char_idx);
        *steps = editor.steps();
        Ok(Rope {
            root: back?,
            alloc: self.alloc,
        })
    }

    // Removes a range, and counts the steps.
    #[inline(always)]
    fn remove_by<R: IndexRange>(&mut self, editor: &mut Editor, range: R) -> Result<()>
        requires { HasCharRange self.old.text (R.given_start range) (R.given_end range) }
        ensures ok { OnOk result
            (IsRemoval self.old.text (R.given_start range) (R.given_end range) self.new.text) }
        ensures refused { IfErr result (λ e. e ≡ OutOfMemory) }
        ensures empty { IsEmptyRange self.old.text (R.given_start range) (R.given_end range)
            → IsIdle result self.old self.new }
        ensures kept { IsEdit result self.old self.new }
        ensures made { editor.new.maker.made
            ≤ editor.old.maker.made + removal_nodes self.old.depth }
        ensures searched { HasSearched (7 * self.old.depth + 5) (37 * self.old.depth)
            editor.old editor.new }
        ensures outside { IsEmptyRange self.old.text (R.given_start range) (R.given_end range)
            → editor.new ≡ editor.old }
        ensures inside { editor.old.is_counting ≡ true → editor.new.nodes < 1
            → IsEmptyRange self.old.text (R.given_start range) (R.given_end range) }
    {
        let (start, end) = char_bounds(&range, self.len_chars()).unwrap();
        if start == end {
            return Ok(());
        }
        editor.enter();
        let removed = remove(editor, &mut self.root, start, end);
        Ok(removed?)
    }

    /// Removes a range as `remove` does, for any range.
    ///
    /// With the text `"abc"`, `try_remove(2..9)` is
    /// `Err(Error::CharRangeOutOfBounds(Some(2), Some(9), 3))`.
    ///
    /// # Errors
    ///
    /// First `CharRangeOutOfBounds`, with the bounds and the number of characters, if a bound is
    /// past `len_chars()`; then `CharRangeInvalid`, if the start is past the end; then
    /// `OutOfMemory`.
    pub fn try_remove<R: IndexRange>(&mut self, range: R) -> Result<()>
        ensures ok { OnOk result
            (IsRemoval self.old.text (R.given_start range) (R.given_end range) self.new.text) }
        ensures refused { IfErr result
            (IsRemovalRefusal self.old.text (R.given_start range) (R.given_end range)) }
        ensures empty { HasCharRange self.old.text (R.given_start range) (R.given_end range)
            → IsEmptyRange self.old.text (R.given_start range) (R.given_end range)
            → IsIdle result self.old self.new }
        ensures kept { IsEdit result self.old self.new }
    {
        let (start, end) = char_bounds(&range, self.len_chars())?;
        self.remove(start..end)
    }

    /// Removes the characters of a range.
    ///
    /// The range's bounds are at most `len_chars()`, and its start is at most its end. An empty
    /// range takes no memory and changes nothing; any other takes memory for at most 17 d + 12
    /// nodes, where d is the rope's depth. If the characters are in one chunk that keeps enough
    /// bytes, or in two adjacent ones below one node that do, memory is taken only for copies of
    /// nodes shared with clones: for none if nothing is shared.
    ///
    /// With the text `"abc"`, `remove(1..2)` makes `"ac"`.
    ///
    /// # Errors
    ///
    /// `OutOfMemory`.
    #[inline(always)]
    pub fn remove<R: IndexRange>(&mut self, range: R) -> Result<()>
        requires { HasCharRange self.old.text (R.given_start range) (R.given_end range) }
        ensures ok { OnOk result
            (IsRemoval self.old.text (R.given_start range) (R.given_end range) self.new.text) }
        ensures refused { IfErr result (λ e. e ≡ OutOfMemory) }
        ensures empty { IsEmptyRange self.old.text (R.given_start range) (R.given_end range)
            → IsIdle result self.old self.new }
        ensures kept { IsEdit result self.old self.new }
    {
        self.remove_by(&mut Editor::uncounted(self.alloc), range)
    }

    /// Removes a range as [`remove`](Rope::remove) does, and sets all counts of `steps` to those of
    /// this call, also when it fails. They are 0 for an empty range; else the root counts as
    /// entered. In a rope of depth d it makes at most 17 d + 12 nodes, enters at most 7 d + 5 and
    /// compares at most 37 d totals.
    ///
    /// The range's bounds are at most `len_chars()`, and its start is at most its end.
    ///
    /// With the text `"abc"`, `remove_counted(1..2, &mut steps)` makes `"ac"`.
    ///
    /// # Errors
    ///
    /// `OutOfMemory`.
    #[inline(always)]
    pub fn remove_counted<R: IndexRange>(&mut self, range: R, steps: &mut Steps) -> Result<()>
        requires { HasCharRange self.old.text (R.given_start range) (R.given_end range) }
        ensures ok { OnOk result
            (IsRemoval self.old.text (R.given_start range) (R.given_end range) self.new.text) }
        ensures refused { IfErr result (λ e. e ≡ OutOfMemory) }
        ensures empty { IsEmptyRange self.old.text (R.given_start range) (R.given_end range)
            → IsIdle result self.old self.new }
        ensures kept { IsEdit result self.old self.new }
        ensures steps { IsEditCount (removal_nodes self.old.depth) self.old.depth steps.new }
        ensures steps_empty { IsEmptyRange self.old.text (R.given_start range) (R.given_end range)
            → steps.new ≡ no_steps }
        ensures steps_inside { steps.new.nodes < 1
            → IsEmptyRange self.old.text (R.given_start range) (R.given_end range) }
    {
        let mut editor = Editor::new(self.alloc);
        let removed = self.remove_by(&mut editor, range);
        *steps = editor.steps();
        removed
    }

    /// Returns the error with which [`append`](Rope::append) refuses the other rope, however much
    /// memory there is: `LineBreaksDiffer` if the two have different sets of line breaks, empty or
    /// not; else `TooLong` if the text would have more than `isize::MAX` bytes; else `None`.
    ///
    /// With ropes of `"a"` and `"bc"` that have one set of line breaks, it is `None`.
    pub fn append_error(&self, other: &Rope) -> Option<Error>
        ensures error { result ≡ append_error self.now.breaks other.now.breaks
            self.now.text other.now.text }
        ensures kept { IsRope self.now }
        ensures other { IsRope other.now }
    {
        let (bytes, more) = (self.len_bytes(), other.len_bytes());
        if self.line_breaks() != other.line_breaks() {
            return Some(Error::LineBreaksDiffer);
        }
        if more > MAX_TEXT_BYTES - bytes {
            return Some(Error::TooLong);
        }
        None
    }

    // Refuses a rope that can't be appended, however much memory there is.
    #[inline(always)]
    fn may_append(&self, other: &Rope) -> Result<()>
        ensures same { OnOk result (other.now.breaks ≡ self.now.breaks) }
        ensures fits { OnOk result (byte_len self.now.text + byte_len other.now.text < 2 ^ 63) }
        ensures refused { IfErr result (λ e. append_error self.now.breaks other.now.breaks
            self.now.text other.now.text ≡ Some e) }
    {
        match self.append_error(other) {
            Some(error) => Err(error),
            None => Ok(()),
        }
    }

    /// Appends the text of another rope.
    ///
    /// If one of the two is empty, it takes no memory, and the rope has the chunks of the other;
    /// else it takes memory for at most 16 d + 11 nodes, where d is the greater depth of the two.
    ///
    /// With the text `"a"` and a rope of `"bc"`, it makes `"abc"`.
    ///
    /// # Errors
    ///
    /// First `LineBreaksDiffer`, if the two have different sets of line breaks, empty or not; then
    /// `TooLong`, if the text would have more than `isize::MAX` bytes; then `OutOfMemory`.
    pub fn append(&mut self, other: Rope) -> Result<()>
        ensures ok { OnOk result (IsAppend self.old other self.new) }
        ensures refused { IfErr result (IsAppendRefusal self.old other) }
        ensures empty_other { CanAppend self.old other → length other.text ≡ 0
            → IsIdle result self.old self.new }
        ensures empty_self { CanAppend self.old other → length self.old.text ≡ 0
            → 0 < length other.text → IsOk result × (self.new ≡ other) }
        ensures kept { IsEdit result self.old self.new }
    {
        self.append_counted(other, &mut Steps::new())
    }

    /// Appends a rope as [`append`](Rope::append) does, and sets all counts of `steps` to those of
    /// this call, also when it fails. They are 0 if a rope is empty, or refused for its set of line
    /// breaks or its length; else the root counts as entered. With d the greater depth of the two,
    /// it makes at most 16 d + 11 nodes, enters at most 7 d + 5 and compares at most 37 d totals.
    ///
    /// With the text `"a"` and a rope of `"bc"`, it makes `"abc"`.
    ///
    /// # Errors
    ///
    /// First `LineBreaksDiffer`, then `TooLong`, then `OutOfMemory`, as for `append`.
    pub fn append_counted(&mut self, mut other: Rope, steps: &mut Steps) -> Result<()>
        ensures ok { OnOk result (IsAppend self.old other self.new) }
        ensures refused { IfErr result (IsAppendRefusal self.old other) }
        ensures empty_other { CanAppend self.old other → length other.text ≡ 0
            → IsIdle result self.old self.new }
        ensures empty_self { CanAppend self.old other → length self.old.text ≡ 0
            → 0 < length other.text → IsOk result × (self.new ≡ other) }
        ensures kept { IsEdit result self.old self.new }
        ensures steps { IsEditCount (append_nodes (max self.old.depth other.depth))
            (max self.old.depth other.depth) steps.new }
        ensures steps_outside { CannotAppend self.old other → steps.new ≡ no_steps }
        ensures steps_empty_other { length other.text ≡ 0 → steps.new ≡ no_steps }
        ensures steps_empty_self { length self.old.text ≡ 0 → steps.new ≡ no_steps }
        ensures steps_inside { CanAppend self.old other → 0 < length self.old.text
            → 0 < length other.text → 1 ≤ steps.new.nodes }
    {
        *steps = Steps::new();
        let bytes = self.len_bytes();
        self.may_append(&other)?;
        if other.len_bytes() == 0 {
            return Ok(());
        }
        if bytes == 0 {
            mem::swap(&mut self.root, &mut other.root);
            return Ok(());
        }
        let mut editor = Editor::new(self.alloc);
        editor.enter();
        let appended = append_to(&mut editor, &mut self.root, &mut other.root);
        *steps = editor.steps();
        Ok(appended?)
    }
}
