//! Removals in place across the boundary between two leaves of one list: the first leaf loses its
//! end, the second its start.
ghost use Rattle.std.specs.Prelude.{◌≡◌, ◌+◌, ◌-◌, ◌<◌, ◌≤◌, true, false, length, take, slice_index_or, IfOk, OnErr, IfSome, IfNone};
ghost use Rattle.rope_text.specs.declared.TheConstants.{MIN_TWO_LEAVES_BYTES};
ghost use Rattle.rope_text.specs.Text.{byte_len};
ghost use Rattle.rope_text.specs.Edit.{removed};
ghost use Rattle.rope_leaf.specs.Tree.{Tree, text, joined, leaf_tree, height_of, IsTree, AreFamily};
ghost use Rattle.rope_leaf.specs.Change.{FallsBy, FallBy};
ghost use Rattle.rope_leaf.specs.Removal.{Spares, AreShortened, AreRemoved};
ghost use Rattle.rope_tree.specs.Tries.{IsTried};

use super::in_place::own_leaf;
use super::{Children, Form, Node};
use crate::{Made, Maker};
use rope_leaf::{Leaf, Least, least_at};
use rope_text::{MIN_TWO_LEAVES_BYTES, TextInfo};
use std::alloc::AllocError;
use std::rc::Rc;

/// The decrease of the counts of two leaves.
#[derive(Clone, Copy)]
struct Losses {
    left: TextInfo,
    right: TextInfo,
}

/// A removal across the boundary between two leaves: its bounds, and the bytes that remain.
#[derive(Clone, Copy)]
struct Kept {
    /// The character index in the first leaf at which the removal starts.
    start: usize,
    /// The character index in the second leaf at which it ends.
    end: usize,
    /// The number of bytes that the first leaf keeps.
    left: usize,
    /// The number of bytes that the second leaf keeps.
    right: usize,
}

/// Removes the end of one leaf and the start of the next one.
fn shorten(left: &mut Leaf, right: &mut Leaf, kept: Kept, least: Least) -> Losses
    requires start { kept.start < length (text left.old) }
    requires some { 0 < kept.end }
    requires end { kept.end ≤ length (text right.old) }
    requires left { kept.left
        ≡ byte_len (removed (text left.old) kept.start (length (text left.old))) }
    requires right { kept.right ≡ byte_len (removed (text right.old) 0 kept.end) }
    requires spares_end { Spares kept.left kept.start (length (text left.old)) (text left.old) }
    requires spares_start { Spares kept.right 0 kept.end (text right.old) }
    requires first { least.first ≤ kept.left }
    requires last { least.last ≤ kept.right }
    requires meet { MIN_TWO_LEAVES_BYTES ≤ kept.left + kept.right }
    ensures done { AreShortened least.first least.last kept.start kept.end
        left.old left.new right.old right.new }
    ensures left { FallsBy result.left left.old left.new }
    ensures right { FallsBy result.right right.old right.new }
    ensures left_leaf { left.new ≡ leaf_tree left.old.breaks
        (removed (text left.old) kept.start (length (text left.old))) }
    ensures right_leaf { right.new ≡ leaf_tree right.old.breaks
        (removed (text right.old) 0 kept.end) }
{
    let mut losses = Losses {
        left: TextInfo::new(),
        right: TextInfo::new(),
    };
    let chars = left.info().chars;
    let outer = Least {
        first: least.first,
        last: MIN_TWO_LEAVES_BYTES.saturating_sub(kept.right),
    };
    left.remove_in_place(kept.start, chars, outer, &mut losses.left);
    let outer = Least {
        first: MIN_TWO_LEAVES_BYTES.saturating_sub(kept.left),
        last: least.last,
    };
    right.remove_in_place(0, kept.end, outer, &mut losses.right);
    losses
}

/// Returns the removal of the first leaf's characters from `start` on and the second one's up to
/// `end`. Returns `None` if the leaves would become too short, or if an LF would be first or a CR
/// last that wasn't.
fn kept_of(left: &Leaf, right: &Leaf, start: usize, end: usize, least: Least) -> Option<Kept>
    requires start { start < length (text left.now) }
    requires some { 0 < end }
    requires end { end ≤ length (text right.now) }
    ensures start { IfSome result (λ kept. kept.start ≡ start) }
    ensures end { IfSome result (λ kept. kept.end ≡ end) }
    ensures left { IfSome result (λ kept. kept.left
        ≡ byte_len (removed (text left.now) start (length (text left.now)))) }
    ensures right { IfSome result (λ kept. kept.right ≡ byte_len (removed (text right.now) 0 end)) }
    ensures spares_end { IfSome result
        (λ kept. Spares kept.left start (length (text left.now)) (text left.now)) }
    ensures spares_start { IfSome result (λ kept. Spares kept.right 0 end (text right.now)) }
    ensures first { IfSome result (λ kept. least.first ≤ kept.left) }
    ensures last { IfSome result (λ kept. least.last ≤ kept.right) }
    ensures meet { IfSome result (λ kept. MIN_TWO_LEAVES_BYTES ≤ kept.left + kept.right) }
{
    let (Some(front), Some(back)) = (
        left.bytes_without(start, left.info().chars),
        right.bytes_without(0, end),
    ) else {
        return None;
    };
    let least_front = MIN_TWO_LEAVES_BYTES.saturating_sub(back);
    if front < least.first.max(least_front) || back < least.last {
        return None;
    }
    Some(Kept {
        start,
        end,
        left: front,
        right: back,
    })
}

/// Removes the end of one leaf and the start of the next one, after copying those that are shared.
/// If an allocation fails, both are unchanged.
fn shorten_shared(
    maker: &mut Maker,
    left: &mut Rc<Leaf>,
    right: &mut Rc<Leaf>,
    kept: Kept,
    least: Least,
) -> Made<Losses>
    requires start { kept.start < length (text left.old.value) }
    requires some { 0 < kept.end }
    requires end { kept.end ≤ length (text right.old.value) }
    requires left { kept.left
        ≡ byte_len (removed (text left.old.value) kept.start (length (text left.old.value))) }
    requires right { kept.right ≡ byte_len (removed (text right.old.value) 0 kept.end) }
    requires spares_end { Spares
        kept.left kept.start (length (text left.old.value)) (text left.old.value) }
    requires spares_start { Spares kept.right 0 kept.end (text right.old.value) }
    requires first { least.first ≤ kept.left }
    requires last { least.last ≤ kept.right }
    requires meet { MIN_TWO_LEAVES_BYTES ≤ kept.left + kept.right }
    ensures done { IfOk result (λ _. AreShortened least.first least.last kept.start kept.end
        left.old.value left.new.value right.old.value right.new.value) }
    ensures left { IfOk result (λ losses. FallsBy losses.left left.old.value left.new.value) }
    ensures right { IfOk result (λ losses. FallsBy losses.right right.old.value right.new.value) }
    ensures err { OnErr result
        ((left.new.value ≡ left.old.value) × (right.new.value ≡ right.old.value)) }
    ensures made { maker.new.made ≤ maker.old.made + 2 }
{
    own_leaf(left, maker)?;
    own_leaf(right, maker)?;
    // Neither has another owner now, so neither lookup fails.
    let Some(left) = Rc::get_mut(left) else {
        return Err(AllocError);
    };
    let Some(right) = Rc::get_mut(right) else {
        return Err(AllocError);
    };
    Ok(shorten(left, right, kept, least))
}

/// Removes the characters of one leaf from `start` on, and those of the next one up to `end`, if
/// both leaves may lose them. Returns by how much their counts fell, or `None` if nothing has
/// changed. If an allocation fails, both are unchanged.
fn shorten_nodes(
    maker: &mut Maker,
    left: &mut Node,
    right: &mut Node,
    start: usize,
    end: usize,
    least: Least,
) -> Made<Option<Losses>>
    requires start { start < length (text left.old) }
    requires some { 0 < end }
    requires end { end ≤ length (text right.old) }
    ensures done { IfOk result (λ found. IfSome found (λ _. AreShortened
        least.first least.last start end left.old left.new right.old right.new)) }
    ensures left { IfOk result (λ found. IfSome found
        (λ losses. FallsBy losses.left left.old left.new)) }
    ensures right { IfOk result (λ found. IfSome found
        (λ losses. FallsBy losses.right right.old right.new)) }
    ensures kept { IfOk result (λ found. IfNone found
        ((left.new ≡ left.old) × (right.new ≡ right.old))) }
    ensures err { OnErr result ((left.new ≡ left.old) × (right.new ≡ right.old)) }
    ensures idle { IfOk result (λ found. IfNone found (maker.new.made ≡ maker.old.made)) }
    ensures made { maker.new.made ≤ maker.old.made + 2 }
{
    let Form::Leaf(left) = &mut left.form else {
        return Ok(None);
    };
    let Form::Leaf(right) = &mut right.form else {
        return Ok(None);
    };
    let Some(kept) = kept_of(left, right, start, end, least) else {
        return Ok(None);
    };
    Ok(Some(shorten_shared(maker, left, right, kept, least)?))
}

impl Node {
    /// Removes the characters of a leaf from `at` on, and the first `end` ones of another, if
    /// neither has another owner, and both stay long enough beside each other and beside leaves of
    /// `before` and `after` bytes. Returns whether it did.
    pub(super) fn shorten_both(
        &mut self,
        right: &mut Node,
        at: usize,
        end: usize,
        before: usize,
        after: usize,
    ) -> bool
        requires leaf { self.old.height ≡ 0 }
        requires right { right.old.height ≡ 0 }
        requires within { at < length (text self.old) }
        requires some { 0 < end }
        requires end { end ≤ length (text right.old) }
        ensures left { result ≡ true → self.new ≡ leaf_tree self.old.breaks
            (removed (text self.old) at (length (text self.old))) }
        ensures right { result ≡ true → right.new ≡ leaf_tree right.old.breaks
            (removed (text right.old) 0 end) }
        ensures spares { result ≡ true → Spares (MIN_TWO_LEAVES_BYTES - before) at
            (length (text self.old)) (text self.old) }
        ensures spares_right { result ≡ true
            → Spares (MIN_TWO_LEAVES_BYTES - after) 0 end (text right.old) }
        ensures meet { result ≡ true → MIN_TWO_LEAVES_BYTES
            ≤ byte_len (removed (text self.old) at (length (text self.old)))
            + byte_len (removed (text right.old) 0 end) }
        ensures tree { IsTree self.new }
        ensures right_tree { IsTree right.new }
        ensures kept { result ≡ false → self.new ≡ self.old }
        ensures kept_right { result ≡ false → right.new ≡ right.old }
    {
        let Form::Leaf(left) = &mut self.form else {
            return false;
        };
        let Form::Leaf(right) = &mut right.form else {
            return false;
        };
        let Some(left) = Rc::get_mut(left) else {
            return false;
        };
        let Some(right) = Rc::get_mut(right) else {
            return false;
        };
        let least = Least {
            first: MIN_TWO_LEAVES_BYTES.saturating_sub(before),
            last: MIN_TWO_LEAVES_BYTES.saturating_sub(after),
        };
        let Some(kept) = kept_of(left, right, at, end, least) else {
            return false;
        };
        shorten(left, right, kept, least);
        true
    }
}

impl Children {
    /// Removes the characters from `start` up to `end`, which start `inside` characters into the
    /// child at `place`, if they end in the next child, both children are leaves, and both stay
    /// long enough beside their neighbours. Returns whether it did, and in `less` by how much the
    /// counts fell. If an allocation fails, the children are unchanged.
    #[cold]
    #[inline(never)]
    pub(super) fn remove_across(
        &mut self,
        maker: &mut Maker,
        place: usize,
        start: usize,
        inside: usize,
        end: usize,
        least: Least,
        less: &mut TextInfo,
    ) -> Made<bool>
        requires children { AreFamily self.old }
        requires child { place < length self.old }
        requires place { start ≡ length (joined (take place self.old)) + inside }
        requires inside { (child : Tree)
            → inside < length (text (slice_index_or self.old place child)) }
        ensures change { IfOk result (λ did. did ≡ true → FallBy less.new self.old self.new) }
        ensures made { maker.new.made ≤ maker.old.made + 2 }
        ensures idle { IfOk result (λ did. did ≡ false → maker.new.made ≡ maker.old.made) }
        ensures tried { IsTried result self.old self.new
            (AreRemoved least.first least.last self.old self.new start end) }
    {
        let next = place + 1;
        if self.height > 1 || next >= self.totals.len() {
            return Ok(false);
        }
        let past = self.totals.get(place).chars;
        if end <= past || end > self.totals.get(next).chars {
            return Ok(false);
        }
        let outer = Least {
            first: least_at(1, &self.totals, place, least).first,
            last: least_at(1, &self.totals, next, least).last,
        };
        let before = self.total();
        let (front, back) = self.nodes.split_at_mut(next);
        let (left, right) = (&mut front[place], &mut back[0]);
        let Some(losses) = shorten_nodes(maker, left, right, inside, end - past, outer)? else {
            return Ok(false);
        };
        self.totals.retotal(place, losses.left, TextInfo::new());
        self.totals.retotal(next, losses.right, TextInfo::new());
        *less = before.minus(self.total());
        Ok(true)
    }
}
