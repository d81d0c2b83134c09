//! Trees of texts that are passed in one after another.
ghost use Rattle.std.specs.Prelude.{◌≡◌, ◌+◌, ◌-◌, ◌*◌, ◌/◌, ◌<◌, ◌≤◌, ◌^◌, ◌++◌, [], false, length, drop, None, IsOk, IfOk, IfErr, IfSome, IfNone, OnOk, OnErr};
ghost use Rattle.std.specs.Str.{chars, encode_utf8_all, IsCharBoundary};
ghost use Rattle.rope_text.specs.declared.TheConstants.{MAX_BYTES, MIN_CUT_BYTES};
ghost use Rattle.rope_text.specs.Text.{byte_len};
ghost use Rattle.rope_text.specs.Cutting.{parts_crlf};
ghost use Rattle.rope_text.specs.Edit.{size_error, IsRefusal};
ghost use Rattle.rope_leaf.specs.Tree.{text, joined, leaf_tree, leaves_of, IsTree};
ghost use Rattle.rope_tree.specs.Fronts.{AreFrontNodes};

use crate::build::root_over;
use crate::{Made, Maker, Node, NodeText, leaf_of};
use rope_leaf::{first_leaf_len, text_of_parts};
use rope_text::crlf::{prev_break, seam_is_break};
use rope_text::{Error, LineBreaks, MAX_BYTES, MAX_TEXT_BYTES, MIN_CUT_BYTES, Result};
use std::alloc::{AllocError, Global};
use std::marker::Model;

// The maximum number of bytes of the next text that a split of a leaf reads: the bytes of a leaf,
// and four more, since the position may have to be up to three bytes before.
const MAX_AHEAD_BYTES: usize = MAX_BYTES + 4;

// The maximum number of bytes of a rest, at most a leaf's, and of the text read after it.
const MAX_SEAM_BYTES: usize = MAX_BYTES + MAX_AHEAD_BYTES;

// A leaf that was split off a rest and the text after it, and the number of bytes of the text in
// it.
#[derive(Drop)]
struct SeamCut {
    leaf: Node,
    taken: usize,
}

// Splits the first leaf off a text that begins with `rest` and continues with `added`. Leaves in
// `rest` the bytes of it after the leaf. Never inlined: its caller would clear stack for its texts
// at each call.
#[inline(never)]
fn cut_at_seam(
    maker: &mut Maker,
    breaks: LineBreaks,
    rest: &mut NodeText,
    added: &str,
) -> Made<SeamCut>
    requires { MAX_BYTES < byte_len rest.old + length added.now }
    ensures leaf { IfOk result (λ cut. cut.leaf ≡ leaf_tree breaks (text cut.leaf)) }
    ensures tree { IfOk result (λ cut. IsTree cut.leaf) }
    ensures boundary { IfOk result (λ cut. IsCharBoundary added.now cut.taken) }
    ensures whole { IfOk result (λ cut.
        text cut.leaf ++ (rest.new ++ chars (drop cut.taken added.now))
        ≡ rest.old ++ chars added.now) }
    ensures apart { IfOk result (λ cut.
        parts_crlf (text cut.leaf) (rest.new ++ chars (drop cut.taken added.now)) ≡ false) }
    ensures long { IfOk result (λ cut. MIN_CUT_BYTES ≤ byte_len (text cut.leaf)) }
    ensures short { IfOk result (λ cut. byte_len (text cut.leaf) ≤ MAX_BYTES) }
    ensures left { IfOk result (λ cut. byte_len (text cut.leaf)
        + (byte_len rest.new + (length added.now - cut.taken))
        ≡ byte_len rest.old + length added.now) }
{
    let first = rest.as_str();
    let ahead_len = if added.len() <= MAX_AHEAD_BYTES {
        added.len()
    } else {
        prev_break(MAX_AHEAD_BYTES + 1, added.as_bytes())
    };
    let ahead = text_of_parts::<MAX_SEAM_BYTES>(first, &added[..ahead_len], "");
    let ahead = ahead.as_str();
    let len = first_leaf_len(ahead);
    let leaf = leaf_of(maker, breaks, &ahead[..len])?;
    if len < first.len() {
        *rest = NodeText::from_str(&first[len..]);
        return Ok(SeamCut { leaf, taken: 0 });
    }
    let taken = len - first.len();
    *rest = NodeText::new();
    Ok(SeamCut { leaf, taken })
}

// Appends a prefix of a text, possibly empty, to `rest`, so that the two are a full leaf, and
// returns the length of the prefix. Returns `None`, leaving `rest` unchanged, if that leaf would be
// too short, or if a CR LF would be split at the start of the text.
fn fill_up(rest: &mut NodeText, text: &str) -> Option<usize>
    requires { MAX_BYTES < byte_len rest.old + length text.now }
    ensures kept { IfNone result (rest.new ≡ rest.old) }
    ensures boundary { IfSome result (λ taken. IsCharBoundary text.now taken) }
    ensures whole { IfSome result
        (λ taken. rest.new ++ chars (drop taken text.now) ≡ rest.old ++ chars text.now) }
    ensures apart { IfSome result
        (λ taken. parts_crlf rest.new (chars (drop taken text.now)) ≡ false) }
    ensures long { IfSome result (λ _. MIN_CUT_BYTES ≤ byte_len rest.new) }
    ensures short { byte_len rest.new ≤ MAX_BYTES }
    ensures left { IfSome result (λ taken. byte_len rest.new + (length text.now - taken)
        ≡ byte_len rest.old + length text.now) }
{
    let room = MAX_BYTES - rest.len();
    let taken = prev_break(room + 1, text.as_bytes());
    if rest.len() + taken < MIN_CUT_BYTES {
        return None;
    }
    if taken == 0 && !seam_is_break(rest.as_str().as_bytes(), text.as_bytes()) {
        return None;
    }
    rest.push_str(&text[..taken]);
    Some(taken)
}

// Splits leaves off `rest` and the text after it, until the remainder fits in one. If `rest` is
// empty, a leaf is made directly from the text.
#[inline(never)]
fn cut_leaves(
    alloc: Global,
    breaks: LineBreaks,
    leaves: &mut Vec<Node>,
    rest: &mut NodeText,
    text: &str,
) -> Made<()>
    requires some { 0 < length text.now }
    requires nodes { AreFrontNodes breaks (joined leaves.old.items ++ (rest.old ++ chars text.now))
        leaves.old.items (rest.old ++ chars text.now) }
    ensures nodes { IfOk result (λ _.
        AreFrontNodes breaks (joined leaves.old.items ++ (rest.old ++ chars text.now))
        leaves.new.items rest.new) }
    ensures long { IfOk result (λ _.
        MIN_CUT_BYTES * length (leaves_of leaves.new.items) + byte_len rest.new
        ≤ MIN_CUT_BYTES * length (leaves_of leaves.old.items) + byte_len rest.old
        + length text.now) }
    ensures followed { IfOk result (λ _. 0 < byte_len rest.new) }
{
    let mut maker = Maker::new(alloc);
    let mut left = text;
    while rest.len() + left.len() > MAX_BYTES {
        if rest.len() == 0 {
            let len = first_leaf_len(left);
            leaves.push(leaf_of(&mut maker, breaks, &left[..len])?)?;
            left = &left[len..];
        } else if let Some(taken) = fill_up(rest, left) {
            leaves.push(leaf_of(&mut maker, breaks, rest.as_str())?)?;
            rest.set("");
            left = &left[taken..];
        } else {
            let SeamCut { leaf, taken } = cut_at_seam(&mut maker, breaks, rest, left)?;
            leaves.push(leaf)?;
            left = &left[taken..];
        }
    }
    rest.push_str(left);
    Ok(())
}

/// Builds a tree of texts that are passed in one after another. Modelled as the text so far and the
/// set of line breaks.
#[derive(Drop)]
pub struct Builder {
    alloc: Global,
    breaks: LineBreaks,
    leaves: Vec<Node>,
    rest: NodeText,
    bytes: usize,
}

impl Model for Builder {
    ghost use Rattle.rope_tree.specs.Fronts.{Building, building_of, IsBuilding};

    ghost Value = { Building };

    ghost view = { building_of };

    ghost invariant = { IsBuilding };
}

impl Builder {
    /// Creates a builder without text. It allocates nothing.
    pub fn new(alloc: Global, breaks: LineBreaks) -> Builder
        ensures text { result.text ≡ [] }
        ensures breaks { result.breaks ≡ breaks }
    {
        Builder {
            alloc,
            breaks,
            leaves: Vec::new(alloc),
            rest: NodeText::new(),
            bytes: 0,
        }
    }

    /// Returns the number of bytes passed in.
    pub fn len_bytes(&self) -> usize
        ensures value { result ≡ byte_len self.now.text }
        ensures fits { byte_len self.now.text < 2 ^ 63 }
    {
        self.bytes
    }

    /// Appends a text. If an allocation fails, the builder is empty again. An empty text allocates
    /// nothing.
    pub fn append(&mut self, text: &str) -> Made<()>
        requires { byte_len self.old.text + length text.now < 2 ^ 63 }
        ensures ok { OnOk result (self.new.text ≡ self.old.text ++ chars text.now) }
        ensures err { OnErr result (self.new.text ≡ []) }
        ensures empty { length text.now ≡ 0 → IsOk result }
        ensures breaks { self.new.breaks ≡ self.old.breaks }
    {
        if text.is_empty() {
            return Ok(());
        }
        let (alloc, breaks) = (self.alloc, self.breaks);
        if self.rest.len() + text.len() <= MAX_BYTES {
            self.rest.push_str(text);
        } else if let Err(_) = cut_leaves(alloc, breaks, &mut self.leaves, &mut self.rest, text) {
            *self = Builder::new(alloc, breaks);
            return Err(AllocError);
        }
        self.bytes += text.len();
        Ok(())
    }

    /// Appends a text of any length. An empty text allocates nothing.
    ///
    /// # Errors
    ///
    /// First `TooLong`, if all texts would have more than `isize::MAX` bytes; then `OutOfMemory`,
    /// as for [`append`](Builder::append).
    pub fn try_append(&mut self, text: &str) -> Result<()>
        ensures ok { OnOk result ((size_error (byte_len self.old.text + length text.now) ≡ None)
            × (self.new.text ≡ self.old.text ++ chars text.now)) }
        ensures text { OnOk result
            (encode_utf8_all self.new.text ≡ encode_utf8_all self.old.text ++ text.now) }
        ensures empty { length text.now ≡ 0 → IsOk result }
        ensures fits { OnOk result (byte_len self.new.text < 2 ^ 63) }
        ensures breaks { self.new.breaks ≡ self.old.breaks }
        ensures refused { IfErr result
            (IsRefusal (size_error (byte_len self.old.text + length text.now))) }
    {
        if text.len() > MAX_TEXT_BYTES - self.len_bytes() {
            return Err(Error::TooLong);
        }
        Ok(self.append(text)?)
    }

    /// Returns the tree of the texts passed in, with at most one leaf for each 981 bytes and one
    /// for the rest. Counts all its nodes here, including the leaves made before.
    pub fn finish(self, maker: &mut Maker) -> Made<Node>
        ensures text { IfOk result (λ node. text node ≡ self.text) }
        ensures breaks { IfOk result (λ node. node.breaks ≡ self.breaks) }
        ensures tree { IfOk result (λ node. IsTree node) }
        ensures few { IfOk result (λ node. length node.leaves
            ≤ (byte_len self.text + (MIN_CUT_BYTES - 1)) / MIN_CUT_BYTES) }
        ensures made { maker.new.made ≤ maker.old.made
            + 2 * ((byte_len self.text + (MIN_CUT_BYTES - 1)) / MIN_CUT_BYTES) + 1 }
    {
        maker.add_all_made(self.leaves.len());
        let rest = leaf_of(maker, self.breaks, self.rest.as_str())?;
        if self.leaves.is_empty() {
            return Ok(rest);
        }
        let mut leaves = self.leaves;
        leaves.push(rest)?;
        root_over(maker, leaves)
    }
}
