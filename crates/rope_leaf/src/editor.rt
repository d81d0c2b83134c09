//! The state of an edit: the maker of its nodes, and the counts of its searches.
ghost use Rattle.std.specs.Prelude.{◌≡◌, ◌+◌, ◌-◌, ◌<◌, ◌≤◌, true, length, slice_index_or};
ghost use Rattle.rope_text.specs.declared.text_info.TextInfo.{TextInfo};
ghost use Rattle.rope_text.specs.declared.TheConstants.{MAX_CHILDREN};
ghost use Rattle.rope_leaf.specs.declared.search.Unit.TheVariants.{Char};
ghost use Rattle.rope_leaf.specs.Search.{count_of};
ghost use Rattle.rope_leaf.specs.RunningTotals.{AreSmall};
ghost use Rattle.rope_leaf.specs.Searched.{HasSearched};

use crate::{Maker, Totals, Unit, place_of};
use rope_text::Steps;
use std::alloc::Global;

/// Makes the nodes of one edit. If `is_counting`, also counts the nodes that its searches enter and
/// the totals that they compare. A search counts the node that it finds; the caller that starts the
/// edit counts the root.
#[derive(Clone, Copy)]
pub struct Editor {
    pub maker: Maker,
    pub is_counting: bool,
    pub nodes: u64,
    pub compares: u64,
}

impl Editor {
    /// Creates an editor that counts, with all counts 0.
    pub fn new(alloc: Global) -> Editor
        ensures counting { result.is_counting ≡ true }
        ensures made { result.maker.made ≡ 0 }
        ensures nodes { result.nodes ≡ 0 }
        ensures compares { result.compares ≡ 0 }
    {
        Editor {
            maker: Maker::new(alloc),
            is_counting: true,
            nodes: 0,
            compares: 0,
        }
    }

    /// Creates an editor that counts only the nodes that are made.
    pub fn uncounted(alloc: Global) -> Editor {
        Editor {
            is_counting: false,
            ..Editor::new(alloc)
        }
    }

    /// Returns the counts of the edit so far.
    #[inline(always)]
    pub fn steps(&self) -> Steps
        ensures nodes { result.nodes ≡ self.now.nodes }
        ensures compares { result.compares ≡ self.now.compares }
        ensures made { result.made ≡ self.now.maker.made }
    {
        Steps {
            nodes: self.nodes,
            compares: self.compares,
            made: self.maker.made,
        }
    }

    /// Counts one entered node. The counts of an editor saturate.
    #[inline(always)]
    pub fn enter(&mut self)
        ensures made { self.new.maker.made ≡ self.old.maker.made }
        ensures entered { self.old.is_counting ≡ true → self.old.nodes < 1 → 1 ≤ self.new.nodes }
        ensures searched { HasSearched 1 0 self.old self.new }
    {
        if self.is_counting {
            self.nodes = self.nodes.saturating_add(1);
        }
    }

    /// Counts two compared totals.
    #[inline(always)]
    pub fn compare_two(&mut self)
        ensures made { self.new.maker.made ≡ self.old.maker.made }
        ensures searched { HasSearched 0 2 self.old self.new }
    {
        if self.is_counting {
            self.compares = self.compares.saturating_add(2);
        }
    }

    /// Adds the steps of a search that was counted apart.
    pub fn add(&mut self, steps: Steps)
        ensures made { self.new.maker.made ≡ self.old.maker.made }
        ensures searched { HasSearched steps.nodes steps.compares self.old self.new }
    {
        if self.is_counting {
            self.nodes = self.nodes.saturating_add(steps.nodes);
            self.compares = self.compares.saturating_add(steps.compares);
        }
    }

    /// Returns the index of the child that contains the character `at`, and enters that child. A
    /// binary search over the totals, with at most five comparisons.
    #[inline(always)]
    pub fn child_at(&mut self, totals: &Totals, at: usize) -> usize
        requires some { 0 < length totals.now }
        requires few { length totals.now ≤ MAX_CHILDREN }
        requires small { AreSmall totals.now }
        requires last { (d : TextInfo)
            → at < count_of Char (slice_index_or totals.now (length totals.now - 1) d) }
        ensures within { result < length totals.now }
        ensures before { (d : TextInfo) → 0 < result
            → count_of Char (slice_index_or totals.now (result - 1) d) ≤ at }
        ensures past { (d : TextInfo)
            → at < count_of Char (slice_index_or totals.now result d) }
        ensures made { self.new.maker.made ≡ self.old.maker.made }
        ensures searched { HasSearched 1 5 self.old self.new }
    {
        if self.is_counting {
            return self.counted_child_at(totals, at);
        }
        place_of(totals, Unit::Char, at, &mut Steps::new())
    }

    // Never inlined, so that the hot path, which counts nothing, stays short.
    #[inline(never)]
    fn counted_child_at(&mut self, totals: &Totals, at: usize) -> usize
        requires some { 0 < length totals.now }
        requires few { length totals.now ≤ MAX_CHILDREN }
        requires small { AreSmall totals.now }
        requires last { (d : TextInfo)
            → at < count_of Char (slice_index_or totals.now (length totals.now - 1) d) }
        ensures within { result < length totals.now }
        ensures before { (d : TextInfo) → 0 < result
            → count_of Char (slice_index_or totals.now (result - 1) d) ≤ at }
        ensures past { (d : TextInfo)
            → at < count_of Char (slice_index_or totals.now result d) }
        ensures made { self.new.maker.made ≡ self.old.maker.made }
        ensures searched { HasSearched 1 5 self.old self.new }
    {
        let mut steps = Steps::new();
        steps.nodes = 1;
        let place = place_of(totals, Unit::Char, at, &mut steps);
        self.add(steps);
        place
    }
}
