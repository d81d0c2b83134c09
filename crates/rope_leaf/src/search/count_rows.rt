//! Running totals in rows: one for each kind of count, with 32 bits for each entry.
ghost use Rattle.std.specs.Prelude.{◌≡◌, ℕ, ◌+◌, ◌-◌, ◌%◌, ◌<◌, ◌≤◌, ◌^◌, [], ◌∷◌, true, ◌++◌, length, take, drop, slice_index, slice_index_or};
ghost use Rattle.std.specs.List.{insert};
ghost use Rattle.rope_text.specs.declared.TheConstants.{MAX_CHILDREN};
ghost use Rattle.rope_text.specs.declared.text_info.TextInfo.{TextInfo};
ghost use Rattle.rope_text.specs.TextInfo.{info_sum, HasPart};
ghost use Rattle.rope_leaf.specs.Narrow.{IsNarrow, AreNarrow, FitsWith};
ghost use Rattle.rope_leaf.specs.RunningTotals.{HavePart, FitFrom, SameBefore, ChangedFrom, MovedFrom};

use rope_text::{MAX_CHILDREN, TextInfo};
use std::marker::Model;

/// The totals of a list of at most 24 children, modelled as the list of their counts. Each kind of
/// count has a row of 24 entries. The first `len` are in use.
#[derive(Drop)]
pub(crate) struct CountRows {
    len: usize,
    bytes: [u32; MAX_CHILDREN],
    chars: [u32; MAX_CHILDREN],
    pairs: [u32; MAX_CHILDREN],
    breaks: [u32; MAX_CHILDREN],
}

impl Model for CountRows {
    ghost use Rattle.std.specs.Prelude.{List};
    ghost use Rattle.rope_text.specs.declared.text_info.TextInfo.{TextInfo};

    ghost Value = { List TextInfo };

    ghost use Rattle.rope_leaf.specs.CountRows.{all_totals, IsTotals};

    ghost view = { all_totals };

    ghost invariant = { IsTotals };
}

/// All bits set.
const ALL: u32 = 4_294_967_295;

/// 24 masks of no bit, followed by 24 of all bits.
static MASKS: [u32; 2 * MAX_CHILDREN] = [
    0, 0, 0, 0, 0, 0, 0, 0, 0, 0, 0, 0, 0, 0, 0, 0, 0, 0, 0, 0, 0, 0, 0, 0, ALL, ALL, ALL, ALL,
    ALL, ALL, ALL, ALL, ALL, ALL, ALL, ALL, ALL, ALL, ALL, ALL, ALL, ALL, ALL, ALL, ALL, ALL, ALL,
    ALL,
];

/// Returns 24 masks: no bit before the index `from`, and all bits from it on.
fn masks_from(from: usize) -> &'static [u32]
    requires { from ≤ MAX_CHILDREN }
    ensures len { length result.now ≡ MAX_CHILDREN }
    ensures before { (j : ℕ) → j < from → slice_index result.now j ≡ 0 }
    ensures following { (j : ℕ) → from ≤ j → j < MAX_CHILDREN
        → slice_index result.now j ≡ 2 ^ 32 - 1 }
{
    &MASKS[MAX_CHILDREN - from..2 * MAX_CHILDREN - from]
}

/// Half the entries of a row.
const HALF: usize = 12;

/// Adds `more` to those of the 12 counts from `start` on whose index is `from` or above. Adds to
/// all 12 under a mask, so that the loop is vectorized.
#[inline(always)]
fn add_half(counts: &mut [u32], from: usize, start: usize, more: u32)
    requires len { length counts.old ≡ MAX_CHILDREN }
    requires place { from ≤ MAX_CHILDREN }
    requires start { start + HALF ≤ MAX_CHILDREN }
    ensures len { length counts.new ≡ MAX_CHILDREN }
    ensures before { (j : ℕ) → j < from → slice_index counts.new j ≡ slice_index counts.old j }
    ensures under { (j : ℕ) → j < start → slice_index counts.new j ≡ slice_index counts.old j }
    ensures over { (j : ℕ) → start + HALF ≤ j
        → slice_index counts.new j ≡ slice_index counts.old j }
    ensures done { (j : ℕ) → from ≤ j → start ≤ j → j < start + HALF
        → slice_index counts.new j ≡ (slice_index counts.old j + more) % 2 ^ 32 }
{
    let masks = masks_from(from);
    for k in 0..HALF {
        let j = start + k;
        counts[j] = counts[j].wrapping_add(more & masks[j]);
    }
}

/// Replaces the count `old` by `new` in the first `len` counts of a row, from the index `from` on.
/// Skips a half of the row that has none of them: the branches are predicted, since most edits are
/// near the last one. If `mostly_same`, first tests whether both counts are equal.
#[inline(always)]
fn shift(counts: &mut [u32], from: usize, len: usize, old: usize, new: usize, mostly_same: bool)
    requires len { length counts.old ≡ MAX_CHILDREN }
    requires place { from ≤ MAX_CHILDREN }
    requires old { old < 2 ^ 32 }
    requires new { new < 2 ^ 32 }
    ensures len { length counts.new ≡ MAX_CHILDREN }
    ensures before { (j : ℕ) → j < from → slice_index counts.new j ≡ slice_index counts.old j }
    ensures after { (j : ℕ) → from ≤ j → j < len → j < MAX_CHILDREN
        → old ≤ slice_index counts.old j → slice_index counts.old j + new < 2 ^ 32 + old
        → slice_index counts.new j + old ≡ slice_index counts.old j + new }
{
    if mostly_same && old == new {
        return;
    }
    let more = (new as u32).wrapping_sub(old as u32);
    if from >= HALF {
        add_half(counts, from, HALF, more);
        return;
    }
    add_half(counts, from, 0, more);
    if len > HALF {
        add_half(counts, from, HALF, more);
    }
}

/// Returns the count at an index of a row.
fn at(row: &[u32], place: usize) -> usize
    requires { place < length row.now }
    ensures { result ≡ slice_index row.now place }
{
    row[place] as usize
}

/// Inserts a count before the one at an index of a row, and drops the last one.
fn put_in(row: &mut [u32], place: usize, count: u32)
    requires { place < length row.old }
    ensures { row.new ≡ insert (take (length row.old - 1) row.old) place count }
{
    let last = row.len() - 1;
    row.copy_within(place..last, place + 1);
    row[place] = count;
}

/// Copies `count` counts of another row, from the index `from` on, into a row at the index `place`.
fn put_row(row: &mut [u32], place: usize, others: &[u32], from: usize, count: usize)
    requires room { place + count ≤ length row.old }
    requires within { from + count ≤ length others.now }
    ensures { row.new ≡ take place row.old
        ++ (take count (drop from others.now) ++ drop (place + count) row.old) }
{
    row[place..place + count].copy_from_slice(&others[from..from + count]);
}

impl CountRows {
    /// Returns the totals of no children.
    pub fn new() -> CountRows
        ensures { result ≡ [] }
    {
        CountRows {
            len: 0,
            bytes: [0; MAX_CHILDREN],
            chars: [0; MAX_CHILDREN],
            pairs: [0; MAX_CHILDREN],
            breaks: [0; MAX_CHILDREN],
        }
    }

    /// Returns the number of children.
    pub fn len(&self) -> usize
        ensures { result ≡ length self.now }
    {
        self.len
    }

    /// Returns the counts of all children up to and including the one at `place`.
    pub fn get(&self, place: usize) -> TextInfo
        requires { place < length self.now }
        ensures { (d : TextInfo) → result ≡ slice_index_or self.now place d }
    {
        TextInfo {
            bytes: at(&self.bytes, place),
            chars: at(&self.chars, place),
            utf16_surrogates: at(&self.pairs, place),
            break_count: at(&self.breaks, place),
        }
    }

    /// Returns whether the child at this index exists and contains the character `at_char`.
    #[inline(always)]
    pub fn holds(&self, place: usize, at_char: usize) -> bool
        ensures within { result ≡ true → place < length self.now }
        ensures before { result ≡ true → (d : TextInfo) → 0 < place
            → (slice_index_or self.now (place - 1) d).chars ≤ at_char }
        ensures past { result ≡ true → (d : TextInfo)
            → at_char < (slice_index_or self.now place d).chars }
    {
        if place >= self.len {
            return false;
        }
        let past = at(&self.chars, place);
        if place == 0 {
            return at_char < past;
        }
        at_char < past && at(&self.chars, place - 1) <= at_char
    }

    /// Appends the total of one more child.
    pub fn push(&mut self, total: TextInfo)
        requires room { length self.old < MAX_CHILDREN }
        requires narrow { AreNarrow self.old → IsNarrow total }
        ensures { self.new ≡ self.old ++ total ∷ [] }
    {
        let len = self.len;
        self.bytes[len] = total.bytes as u32;
        self.chars[len] = total.chars as u32;
        self.pairs[len] = total.utf16_surrogates as u32;
        self.breaks[len] = total.break_count as u32;
        self.len = len + 1;
    }

    /// Keeps the first `len` totals.
    pub fn truncate(&mut self, len: usize)
        requires { len ≤ length self.old }
        ensures { self.new ≡ take len self.old }
    {
        self.len = len;
    }

    /// Inserts the total of one more child before the one at an index.
    pub fn insert(&mut self, place: usize, total: TextInfo)
        requires within { place ≤ length self.old }
        requires room { length self.old < MAX_CHILDREN }
        requires narrow { AreNarrow self.old → IsNarrow total }
        ensures len { length self.new ≡ length self.old + 1 }
        ensures before { SameBefore place self.old self.new }
        ensures here { (d : TextInfo) → slice_index_or self.new place d ≡ total }
        ensures following { MovedFrom place self.old self.new }
    {
        put_in(&mut self.bytes, place, total.bytes as u32);
        put_in(&mut self.chars, place, total.chars as u32);
        put_in(&mut self.pairs, place, total.utf16_surrogates as u32);
        put_in(&mut self.breaks, place, total.break_count as u32);
        self.len += 1;
    }

    /// Replaces the counts `old` by `new` in all totals from an index on.
    #[inline(always)]
    pub fn retotal(&mut self, place: usize, old: TextInfo, new: TextInfo)
        requires within { place < length self.old }
        requires part { HavePart place self.old old }
        requires fits { AreNarrow self.old → FitFrom (2 ^ 32) place self.old old new }
        ensures len { length self.new ≡ length self.old }
        ensures before { SameBefore place self.old self.new }
        ensures after { ChangedFrom place self.old self.new old new }
    {
        let len = self.len;
        shift(&mut self.bytes, place, len, old.bytes, new.bytes, false);
        shift(&mut self.chars, place, len, old.chars, new.chars, false);
        // Most edits change neither surrogate pairs nor line breaks.
        shift(
            &mut self.pairs,
            place,
            len,
            old.utf16_surrogates,
            new.utf16_surrogates,
            true,
        );
        shift(
            &mut self.breaks,
            place,
            len,
            old.break_count,
            new.break_count,
            true,
        );
    }

    /// Appends `count` totals of another list, from the index `from` on. If these are the first of
    /// both lists, whole rows are copied: a copy of known length is a few loads and stores.
    fn put_rows(&mut self, others: &Self, from: usize, count: usize)
        requires within { from + count ≤ length others.now }
        requires room { length self.old + count ≤ MAX_CHILDREN }
        ensures len { length self.new ≡ length self.old + count }
        ensures before { SameBefore (length self.old) self.old self.new }
        ensures following { (j : ℕ) (d : TextInfo) → j < count
            → slice_index_or self.new (length self.old + j) d
            ≡ slice_index_or others.now (from + j) d }
    {
        let len = self.len;
        if len == 0 && from == 0 {
            self.bytes = others.bytes;
            self.chars = others.chars;
            self.pairs = others.pairs;
            self.breaks = others.breaks;
            self.len = count;
            return;
        }
        put_row(&mut self.bytes, len, &others.bytes, from, count);
        put_row(&mut self.chars, len, &others.chars, from, count);
        put_row(&mut self.pairs, len, &others.pairs, from, count);
        put_row(&mut self.breaks, len, &others.breaks, from, count);
        self.len = len + count;
    }

    /// Appends `count` totals of another list, from the index `from` on, with the counts `old` in
    /// each replaced by `new`.
    pub fn append(&mut self, others: &Self, from: usize, count: usize, old: TextInfo, new: TextInfo)
        requires some { 1 ≤ count }
        requires within { from + count ≤ length others.now }
        requires room { length self.old + count ≤ MAX_CHILDREN }
        requires part { (j : ℕ) (d : TextInfo) → j < count
            → HasPart (slice_index_or others.now (from + j) d) old }
        requires fits { (j : ℕ) (d : TextInfo) → j < count
            → FitsWith (slice_index_or others.now (from + j) d) old new }
        ensures len { length self.new ≡ length self.old + count }
        ensures before { SameBefore (length self.old) self.old self.new }
        ensures following { (j : ℕ) (d : TextInfo) → j < count
            → info_sum (slice_index_or self.new (length self.old + j) d) old
            ≡ info_sum (slice_index_or others.now (from + j) d) new }
    {
        let len = self.len;
        self.put_rows(others, from, count);
        self.retotal(len, old, new);
    }
}
