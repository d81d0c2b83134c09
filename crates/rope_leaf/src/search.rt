//! Running totals over the children of a node, and the search for the child that contains an index.
//!
//! Entry `i` has the counts of children 0 to `i`. An index in bytes, characters, code units or line
//! breaks is found by a binary search over one of the counts, with at most five comparisons for 24
//! children. The counts of a child are the difference of two totals, so a search or an edit knows
//! them without a read of the child. An edit of child `i` changes the entries from `i` on.
//!
//! Totals have one of two widths. If each text below them has fewer than 4 GiB, each count takes 32
//! bits, and each kind of count has a row of its own ([`count_rows`]). Other totals are a boxed
//! list in words. Functions over the wide form are never inlined, so that the narrow path stays
//! short.
ghost use Rattle.std.specs.Prelude.{◌≡◌, ℕ, ◌+◌, ◌-◌, ◌<◌, ◌≤◌, ◌^◌, [], ◌∷◌, ◌++◌, true, false, length, take, slice_index_or, IfOk, OnOk, OnErr};
ghost use Rattle.rope_text.specs.declared.TheConstants.{MAX_CHILDREN};
ghost use Rattle.rope_text.specs.declared.line_breaks.LineBreaks.{LineBreaks};
ghost use Rattle.rope_text.specs.declared.text_info.TextInfo.{TextInfo};
ghost use Rattle.rope_text.specs.TextInfo.{info_of, info_sum, HasPart};
ghost use Rattle.rope_leaf.specs.declared.search.Unit.TheVariants.{Char};
ghost use Rattle.rope_leaf.specs.Search.{count_of, IsSmall};
ghost use Rattle.rope_leaf.specs.Narrow.{IsBelow, IsNarrow, AreNarrow, FitsWith};
ghost use Rattle.rope_leaf.specs.Searched.{HasSearched};
ghost use Rattle.rope_leaf.specs.Change.{no_counts};
ghost use Rattle.rope_leaf.specs.RunningTotals.{AreSmall, HavePart, FitFrom, SameBefore, ChangedFrom, MovedFrom};

use crate::{Editor, Made};
use arrayvec::ArrayVec;
use rope_text::{MAX_CHILDREN, Steps, TextInfo};
use std::alloc::{AllocError, Global};
use std::marker::Model;

mod count_rows;

use count_rows::CountRows;

/// The unit of an index: the kind of count that a search compares.
#[derive(Clone, Copy)]
pub enum Unit {
    Byte,
    Char,
    CodeUnit,
    LineBreak,
}

/// Returns the count in this unit.
pub fn count(info: TextInfo, unit: Unit) -> usize
    requires { IsSmall info }
    ensures { result ≡ count_of unit info }
{
    match unit {
        Unit::Byte => info.bytes,
        Unit::Char => info.chars,
        Unit::CodeUnit => info.chars + info.utf16_surrogates,
        Unit::LineBreak => info.break_count,
    }
}

/// Running totals over at most 24 children: for each child, the counts of all children up to and
/// including it. Modelled as the list of those counts.
#[derive(Drop)]
pub struct Totals {
    width: Width,
}

/// The two widths of totals: 32 bits or words.
#[derive(Drop)]
enum Width {
    Narrow(CountRows),
    Wide(Box<WideTotals>),
}

type WideTotals = ArrayVec<TextInfo, MAX_CHILDREN>;

impl Model for Totals {
    ghost use Rattle.std.specs.Prelude.{List};
    ghost use Rattle.rope_text.specs.declared.text_info.TextInfo.{TextInfo};

    ghost Value = { List TextInfo };

    ghost use Rattle.rope_leaf.specs.TotalsShape.{totals_of};

    ghost view = { totals_of };
}

/// Copies totals to words.
#[inline(never)]
fn widened(alloc: Global, totals: &CountRows) -> Made<Box<WideTotals>>
    requires { length totals.now ≤ MAX_CHILDREN }
    ensures { IfOk result (λ wide. wide.value.items ≡ totals.now) }
{
    // Matched by hand: `?` would also move the totals of a failed allocation on the path that
    // succeeds.
    let Ok(mut wide) = Box::new(alloc, WideTotals::new()) else {
        return Err(AllocError);
    };
    for place in 0..totals.len() {
        wide.push(totals.get(place));
    }
    Ok(wide)
}

/// Replaces the counts `old` by `new` in all totals from an index on.
// Cold: reached only by totals of 4 GiB or more.
#[inline(never)]
fn shift_wide(totals: &mut [TextInfo], from: usize, old: TextInfo, new: TextInfo)
    requires part { HavePart from totals.old old }
    requires fits { FitFrom (2 ^ 64) from totals.old old new }
    ensures len { length totals.new ≡ length totals.old }
    ensures before { SameBefore from totals.old totals.new }
    ensures after { ChangedFrom from totals.old totals.new old new }
{
    for j in from..totals.len() {
        totals[j] = totals[j].minus(old).plus(new);
    }
}

/// Appends totals, with the counts `old` in each replaced by `new`.
// Cold: reached only by totals of 4 GiB or more.
#[inline(never)]
fn append_wide(totals: &mut WideTotals, others: &[TextInfo], old: TextInfo, new: TextInfo)
    requires room { length totals.old.items + length others.now ≤ MAX_CHILDREN }
    requires part { HavePart 0 others.now old }
    requires fits { FitFrom (2 ^ 64) 0 others.now old new }
    ensures len { length totals.new.items ≡ length totals.old.items + length others.now }
    ensures before { SameBefore (length totals.old.items) totals.old.items totals.new.items }
    ensures following { (j : ℕ) (d : TextInfo) → j < length others.now
        → info_sum (slice_index_or totals.new.items (length totals.old.items + j) d) old
        ≡ info_sum (slice_index_or others.now j d) new }
{
    for other in others {
        totals.push(other.minus(old).plus(new));
    }
}

/// Appends the totals of another list from the index `from` on, one by one.
// Cold: reached only by totals of a text that had 4 GiB or more.
#[inline(never)]
fn push_each(totals: &mut Totals, others: &Totals, from: usize, old: TextInfo, new: TextInfo)
    requires within { from < length others.now }
    requires room { length totals.old + (length others.now - from) ≤ MAX_CHILDREN }
    requires part { (j : ℕ) (d : TextInfo) → j < length others.now - from
        → HasPart (slice_index_or others.now (from + j) d) old }
    requires fits { (j : ℕ) (d : TextInfo) → j < length others.now - from
        → FitsWith (slice_index_or others.now (from + j) d) old new }
    ensures len { length totals.new ≡ length totals.old + (length others.now - from) }
    ensures before { SameBefore (length totals.old) totals.old totals.new }
    ensures following { (j : ℕ) (d : TextInfo) → j < length others.now - from
        → info_sum (slice_index_or totals.new (length totals.old + j) d) old
        ≡ info_sum (slice_index_or others.now (from + j) d) new }
{
    for place in from..others.len() {
        let total = others.get(place).minus(old).plus(new);
        totals.insert(totals.len(), total);
    }
}

/// Returns a copy of the counts. Callees take counts by address: without the copy, the narrow path
/// would load as vectors the words that an edit has just stored, a store-forwarding stall.
#[inline(always)]
fn copied(info: TextInfo) -> TextInfo
    ensures { result ≡ info }
{
    TextInfo {
        bytes: info.bytes,
        chars: info.chars,
        utf16_surrogates: info.utf16_surrogates,
        break_count: info.break_count,
    }
}

/// Adds counts to all totals from an index on.
// Cold: reached only by totals of 4 GiB or more. Takes the counts by reference, so that the narrow
// path stores no copy.
#[inline(never)]
fn grow_wide(totals: &mut [TextInfo], from: usize, more: &TextInfo)
    requires fits { FitFrom (2 ^ 64) from totals.old no_counts more.now }
    ensures len { length totals.new ≡ length totals.old }
    ensures before { SameBefore from totals.old totals.new }
    ensures after { ChangedFrom from totals.old totals.new no_counts more.now }
{
    shift_wide(totals, from, NONE, *more);
}

/// The counts of an empty text.
const NONE: TextInfo = TextInfo {
    chars: 0,
    utf16_surrogates: 0,
    break_count: 0,
    bytes: 0,
};

/// Returns whether the child at this index exists and contains the character `at`.
// Cold: reached only by totals of 4 GiB or more.
#[inline(never)]
fn holds_wide(totals: &[TextInfo], place: usize, at: usize) -> bool
    ensures within { result ≡ true → place < length totals.now }
    ensures before { result ≡ true → (d : TextInfo) → 0 < place
        → (slice_index_or totals.now (place - 1) d).chars ≤ at }
    ensures past { result ≡ true → (d : TextInfo)
        → at < (slice_index_or totals.now place d).chars }
{
    if place >= totals.len() {
        return false;
    }
    let past = totals[place].chars;
    if place == 0 {
        return at < past;
    }
    at < past && totals[place - 1].chars <= at
}

/// The smallest number of bytes of a text whose counts may not fit in 32 bits.
const TOO_WIDE: usize = 4_294_967_296;

/// Returns whether totals of `all` bytes keep their width if the text grows by `bytes` bytes.
#[inline(always)]
fn keeps_width(all: usize, bytes: usize) -> bool
    ensures room { result ≡ true → all < 2 ^ 32 → all + bytes < 2 ^ 32 }
    ensures none { result ≡ false → 2 ^ 32 ≤ all + bytes }
{
    all >= TOO_WIDE || bytes < TOO_WIDE - all
}

impl Totals {
    /// Returns the totals of no children.
    pub fn new() -> Totals
        ensures { result ≡ [] }
    {
        let width = Width::Narrow(CountRows::new());
        Totals { width }
    }

    /// Returns the number of children.
    pub fn len(&self) -> usize
        ensures { result ≡ length self.now }
    {
        match &self.width {
            Width::Narrow(totals) => totals.len(),
            Width::Wide(totals) => totals.len(),
        }
    }

    /// Returns the counts of all children up to and including the one at `place`.
    pub fn get(&self, place: usize) -> TextInfo
        requires { place < length self.now }
        ensures { (d : TextInfo) → result ≡ slice_index_or self.now place d }
    {
        match &self.width {
            Width::Narrow(totals) => totals.get(place),
            Width::Wide(totals) => totals[place],
        }
    }

    /// Returns whether the child at this index exists and contains the character `at`.
    #[inline(always)]
    fn holds(&self, place: usize, at: usize) -> bool
        ensures within { result ≡ true → place < length self.now }
        ensures before { result ≡ true → (d : TextInfo) → 0 < place
            → (slice_index_or self.now (place - 1) d).chars ≤ at }
        ensures past { result ≡ true → (d : TextInfo)
            → at < (slice_index_or self.now place d).chars }
    {
        match &self.width {
            Width::Narrow(totals) => totals.holds(place, at),
            Width::Wide(totals) => holds_wide(totals.as_slice(), place, at),
        }
    }

    /// Returns whether the totals keep their width if the text grows by `bytes` bytes.
    pub fn has_room_for(&self, bytes: usize) -> bool
        requires { 1 ≤ length self.now }
        ensures room { result ≡ true → AreNarrow self.now → (d : TextInfo)
            → (slice_index_or self.now (length self.now - 1) d).bytes + bytes < 2 ^ 32 }
        ensures none { result ≡ false → (d : TextInfo)
            → 2 ^ 32 ≤ (slice_index_or self.now (length self.now - 1) d).bytes + bytes }
    {
        match &self.width {
            Width::Narrow(totals) => keeps_width(totals.get(totals.len() - 1).bytes, bytes),
            Width::Wide(totals) => keeps_width(totals[totals.len() - 1].bytes, bytes),
        }
    }

    /// Appends the total of one more child.
    pub fn push(&mut self, alloc: Global, total: TextInfo) -> Made<()>
        requires room { length self.old < MAX_CHILDREN }
        requires small { IsSmall total }
        ensures ok { OnOk result (self.new ≡ self.old ++ total ∷ []) }
        ensures err { OnErr result (self.new ≡ self.old) }
    {
        match &mut self.width {
            Width::Narrow(totals) => {
                if total.bytes < TOO_WIDE {
                    totals.push(total);
                    return Ok(());
                }
                let mut wide = widened(alloc, totals)?;
                wide.push(total);
                self.width = Width::Wide(wide);
            }
            Width::Wide(totals) => totals.push(total),
        }
        Ok(())
    }

    /// Appends `count` totals of another list, from the index `from` on, with the counts `old` in
    /// each replaced by `new`. Returns whether it did: if the result and `others` would have
    /// different widths, nothing changes.
    pub fn append(
        &mut self,
        alloc: Global,
        others: &Totals,
        from: usize,
        count: usize,
        old: TextInfo,
        new: TextInfo,
    ) -> Made<bool>
        requires some { 1 ≤ count }
        requires within { from + count ≤ length others.now }
        requires few { length others.now ≤ MAX_CHILDREN }
        requires room { length self.old + count ≤ MAX_CHILDREN }
        requires small { AreSmall self.old }
        requires small_others { (j : ℕ) (d : TextInfo) → j < count
            → IsSmall (slice_index_or others.now (from + j) d) }
        requires part { (j : ℕ) (d : TextInfo) → j < count
            → HasPart (slice_index_or others.now (from + j) d) old }
        requires new { IsSmall new }
        requires fits { (j : ℕ) (d : TextInfo) → j < count
            → (slice_index_or others.now (from + count - 1) d).bytes + new.bytes
            < 2 ^ 32 + old.bytes → FitsWith (slice_index_or others.now (from + j) d) old new }
        ensures len { IfOk result (λ did. did ≡ true → length self.new ≡ length self.old + count) }
        ensures before { IfOk result (λ did. did ≡ true
            → SameBefore (length self.old) self.old self.new) }
        ensures following { IfOk result (λ did. did ≡ true → (j : ℕ) (d : TextInfo) → j < count
            → info_sum (slice_index_or self.new (length self.old + j) d) old
            ≡ info_sum (slice_index_or others.now (from + j) d) new) }
        ensures kept { IfOk result (λ did. did ≡ false → self.new ≡ self.old) }
    {
        let last = others.get(from + count - 1);
        let is_wide = last.bytes - old.bytes + new.bytes >= TOO_WIDE;
        if is_wide {
            if let Width::Narrow(totals) = &self.width {
                self.width = Width::Wide(widened(alloc, totals)?);
            }
        }
        match (&mut self.width, &others.width) {
            (Width::Narrow(totals), Width::Narrow(others)) if !is_wide => {
                totals.append(others, from, count, old, new);
                Ok(true)
            }
            (Width::Wide(totals), Width::Wide(others)) => {
                append_wide(totals, &others[from..from + count], old, new);
                Ok(true)
            }
            _ => Ok(false),
        }
    }

    /// Keeps the first `len` totals.
    pub fn truncate(&mut self, len: usize)
        requires { len ≤ length self.old }
        ensures { self.new ≡ take len self.old }
    {
        match &mut self.width {
            Width::Narrow(totals) => totals.truncate(len),
            Width::Wide(totals) => totals.truncate(len),
        }
    }

    /// Moves the totals of another list from the index `from` on to the end of this one, with the
    /// counts `old` in each replaced by `new`. They fit in 32 bits then.
    pub fn take_from(&mut self, others: &mut Totals, from: usize, old: TextInfo, new: TextInfo)
        requires within { from < length others.old }
        requires room { length self.old + (length others.old - from) ≤ MAX_CHILDREN }
        requires part { (j : ℕ) (d : TextInfo) → j < length others.old - from
            → HasPart (slice_index_or others.old (from + j) d) old }
        requires fits { (j : ℕ) (d : TextInfo) → j < length others.old - from
            → FitsWith (slice_index_or others.old (from + j) d) old new }
        ensures len { length self.new ≡ length self.old + (length others.old - from) }
        ensures before { SameBefore (length self.old) self.old self.new }
        ensures following { (j : ℕ) (d : TextInfo) → j < length others.old - from
            → info_sum (slice_index_or self.new (length self.old + j) d) old
            ≡ info_sum (slice_index_or others.old (from + j) d) new }
        ensures rest { others.new ≡ take from others.old }
    {
        match (&mut self.width, &others.width) {
            (Width::Narrow(totals), Width::Narrow(others)) => {
                totals.append(others, from, others.len() - from, old, new);
            }
            _ => push_each(self, others, from, old, new),
        }
        others.truncate(from);
    }

    /// Appends the total of one more child, which fits in 32 bits if the others do.
    pub fn push_fitting(&mut self, total: TextInfo)
        requires room { length self.old < MAX_CHILDREN }
        requires narrow { AreNarrow self.old → IsNarrow total }
        ensures { self.new ≡ self.old ++ total ∷ [] }
    {
        match &mut self.width {
            Width::Narrow(totals) => totals.push(total),
            Width::Wide(totals) => totals.push(total),
        }
    }

    /// Puts a child of these counts before the others.
    pub fn push_front(&mut self, info: TextInfo)
        requires room { length self.old < MAX_CHILDREN }
        requires small { AreSmall self.old }
        requires narrow { IsNarrow info }
        requires fits { FitFrom (2 ^ 32) 0 self.old no_counts info }
        ensures len { length self.new ≡ length self.old + 1 }
        ensures first { (d : TextInfo) → slice_index_or self.new 0 d ≡ info }
        ensures later { (j : ℕ) (d : TextInfo) → j < length self.old
            → slice_index_or self.new (j + 1) d ≡ info_sum (slice_index_or self.old j d) info }
    {
        if self.len() > 0 {
            self.grow(0, &info);
        }
        self.insert(0, info);
    }

    /// Inserts the total of one more child before the one at an index.
    pub fn insert(&mut self, place: usize, total: TextInfo)
        requires within { place ≤ length self.old }
        requires room { length self.old < MAX_CHILDREN }
        requires narrow { AreNarrow self.old → IsNarrow total }
        ensures len { length self.new ≡ length self.old + 1 }
        ensures before { SameBefore place self.old self.new }
        ensures here { (d : TextInfo) → slice_index_or self.new place d ≡ total }
        ensures following { MovedFrom place self.old self.new }
    {
        match &mut self.width {
            Width::Narrow(totals) => totals.insert(place, total),
            Width::Wide(totals) => totals.insert(place, total),
        }
    }

    /// Adds counts to all totals from an index on.
    #[inline(always)]
    pub fn grow(&mut self, place: usize, more: &TextInfo)
        requires within { place < length self.old }
        requires small { AreSmall self.old }
        requires more { IsBelow (2 ^ 63) more.now }
        requires fits { AreNarrow self.old → FitFrom (2 ^ 32) place self.old no_counts more.now }
        ensures len { length self.new ≡ length self.old }
        ensures before { SameBefore place self.old self.new }
        ensures after { ChangedFrom place self.old self.new no_counts more.now }
    {
        match &mut self.width {
            Width::Narrow(totals) => totals.retotal(place, NONE, *more),
            Width::Wide(totals) => grow_wide(totals.as_mut_slice(), place, more),
        }
    }

    /// Replaces the counts `old` by `new` in all totals from an index on.
    #[inline(always)]
    pub fn retotal(&mut self, place: usize, old: TextInfo, new: TextInfo)
        requires within { place < length self.old }
        requires small { AreSmall self.old }
        requires part { HavePart place self.old old }
        requires new { IsBelow (2 ^ 63) new }
        requires fits { AreNarrow self.old → FitFrom (2 ^ 32) place self.old old new }
        ensures len { length self.new ≡ length self.old }
        ensures before { SameBefore place self.old self.new }
        ensures after { ChangedFrom place self.old self.new old new }
    {
        match &mut self.width {
            Width::Narrow(totals) => totals.retotal(place, old, new),
            Width::Wide(totals) => {
                shift_wide(totals.as_mut_slice(), place, copied(old), copied(new))
            }
        }
    }
}

/// Returns the counts of the children before an index.
pub fn total_before(totals: &Totals, place: usize) -> TextInfo
    requires { place ≤ length totals.now }
    ensures first { place ≡ 0 → (breaks : LineBreaks) → result ≡ info_of breaks [] }
    ensures later { (d : TextInfo) → 0 < place → result ≡ slice_index_or totals.now (place - 1) d }
{
    if place == 0 {
        TextInfo::new()
    } else {
        totals.get(place - 1)
    }
}

/// Returns the index of the child that contains `at`, by a binary search with at most five
/// comparisons.
#[inline(always)]
pub fn place_of(totals: &Totals, unit: Unit, at: usize, steps: &mut Steps) -> usize
    requires some { 0 < length totals.now }
    requires few { length totals.now ≤ MAX_CHILDREN }
    requires small { AreSmall totals.now }
    requires last { (d : TextInfo)
        → at < count_of unit (slice_index_or totals.now (length totals.now - 1) d) }
    requires room { steps.old.compares + 5 < 2 ^ 64 }
    ensures within { result < length totals.now }
    ensures before { (d : TextInfo) → 0 < result
        → count_of unit (slice_index_or totals.now (result - 1) d) ≤ at }
    ensures past { (d : TextInfo) → at < count_of unit (slice_index_or totals.now result d) }
    ensures compares { steps.new.compares ≤ steps.old.compares + 5 }
    ensures counted { 2 ≤ length totals.now → steps.old.compares < steps.new.compares }
    ensures nodes { steps.new.nodes ≡ steps.old.nodes }
    ensures made { steps.new.made ≡ steps.old.made }
{
    let mut base = 0;
    let mut room = 32;
    while room > 1 {
        let half = room / 2;
        if base + half < totals.len() {
            steps.compares += 1;
            let passes = count(totals.get(base + half - 1), unit) <= at;
            base += half * usize::from(passes);
        }
        room = half;
    }
    base
}

/// Returns the index of the child that contains the character `at`, and whether the path still
/// follows that of the last edit. While it does, the child of that edit is tried before the search.
/// Counts the child as entered.
#[inline(always)]
pub fn try_place(
    editor: &mut Editor,
    totals: &Totals,
    at: usize,
    likely: usize,
    follows: bool,
) -> (usize, bool)
    requires some { 0 < length totals.now }
    requires few { length totals.now ≤ MAX_CHILDREN }
    requires small { AreSmall totals.now }
    requires last { (d : TextInfo)
        → at < count_of Char (slice_index_or totals.now (length totals.now - 1) d) }
    ensures within { result.0 < length totals.now }
    ensures before { (d : TextInfo) → 0 < result.0
        → count_of Char (slice_index_or totals.now (result.0 - 1) d) ≤ at }
    ensures past { (d : TextInfo) → at < count_of Char (slice_index_or totals.now result.0 d) }
    ensures made { editor.new.maker.made ≡ editor.old.maker.made }
    ensures searched { HasSearched 1 7 editor.old editor.new }
    ensures searched_anew { follows ≡ false → HasSearched 1 5 editor.old editor.new }
{
    if follows {
        if totals.holds(likely, at) {
            editor.compare_two();
            editor.enter();
            return (likely, true);
        }
        editor.compare_two();
    }
    let place = editor.child_at(totals, at);
    (place, false)
}

/// Returns the character that the child which takes a text must contain: at a boundary between two
/// children, the one after it if `to_right`, else the one before it.
pub fn char_to_hold(at: usize, to_right: bool) -> usize
    ensures right { to_right ≡ true → result ≡ at }
    ensures first { to_right ≡ false → at ≡ 0 → result ≡ 0 }
    ensures left { to_right ≡ false → 0 < at → result + 1 ≡ at }
{
    at.saturating_sub(usize::from(!to_right))
}
