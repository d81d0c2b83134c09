//! Random versions of a text, against a plain tree of texts.
use crate::makers::{Sizes, copy, refused, replace_after, rope_of};
use rope_changes::ChangeSet;
use rope_history::History;
use rope_plain::failure::{Failure, within};
use rope_plain::numbers::Numbers;
use rope_plain::sums::minus;
use rope_plain::texts::{chars_of, expect_chars, random_text};
use rope_plain::{holds, same, some};
use ropey::Rope;
use std::alloc::Global;
use std::process::Abort;

/// The number of steps from one seed.
const STEPS: usize = 150;

/// The versions of a text: for each its text, its parent and the version to which `redo` leads.
#[derive(Drop)]
struct Tree {
    texts: Vec<Vec<char>>,
    parents: Vec<Option<usize>>,
    redo: Vec<Option<usize>>,
    current: usize,
}

/// The last step, with the version that it led to.
#[derive(Clone, Copy, Debug)]
enum Step {
    Commit,
    Undo(Option<usize>),
    Redo(Option<usize>),
    GoTo(usize),
}

impl Tree {
    fn new(alloc: Global) -> Tree {
        Tree {
            texts: Vec::new(alloc),
            parents: Vec::new(alloc),
            redo: Vec::new(alloc),
            current: 0,
        }
    }

    fn add(&mut self, rt: &impl Abort, parent: Option<usize>, text: Vec<char>) {
        self.current = self.texts.len();
        self.texts.push(text).expect(rt, "there is memory");
        self.parents.push(parent).expect(rt, "there is memory");
        self.redo.push(None).expect(rt, "there is memory");
    }

    fn text(&self) -> &[char] {
        match self.texts.get(self.current) {
            Some(text) => text.as_slice(),
            None => &[],
        }
    }

    /// Moves to the parent, and returns the version that was left.
    fn undo(&mut self) -> Option<usize> {
        let left = self.current;
        let parent = (*self.parents.get(left)?)?;
        if let Some(redo) = self.redo.get_mut(parent) {
            *redo = Some(left);
        }
        self.current = parent;
        Some(left)
    }

    /// Moves to the child that was left last.
    fn redo(&mut self) -> Option<usize> {
        let child = (*self.redo.get(self.current)?)?;
        self.current = child;
        Some(child)
    }

    /// Returns whether a version is the current one or an ancestor of it.
    fn descends_from(&self, version: usize) -> bool {
        let mut at = self.current;
        for _ in 0..self.texts.len() {
            if at == version {
                return true;
            }
            match self.parents.get(at) {
                Some(Some(parent)) => at = *parent,
                _ => return false,
            }
        }
        false
    }

    /// Moves up by `undo` to an ancestor of `version`, and then down to it.
    fn go_to(&mut self, version: usize) {
        let mut top = version;
        for _ in 0..self.texts.len() {
            if self.descends_from(top) {
                break;
            }
            match self.parents.get(top) {
                Some(Some(parent)) => top = *parent,
                _ => return,
            }
        }
        for _ in 0..self.texts.len() {
            if self.current == top {
                break;
            }
            self.undo();
        }
        self.current = version;
    }
}

/// Returns a change of up to three ranges of a text, and the text after it.
fn random_change(
    rt: &impl Abort,
    alloc: Global,
    numbers: &mut Numbers,
    text: &[char],
) -> (ChangeSet, Vec<char>) {
    let mut change = ChangeSet::new(alloc, text.len()).expect(rt, "the text fits");
    let mut after = Vec::new(alloc);
    let sizes = Sizes {
        kept: 9,
        deleted: if text.len() > 60 { 20 } else { 3 },
        inserted: 9,
    };
    let mut at = 0;
    for _ in 0..3 {
        at = replace_after(rt, alloc, numbers, sizes, text, at, &mut change, &mut after);
    }
    copy(rt, &mut after, text, at, text.len());
    (change, after)
}

/// Commits a random change to the history and to the tree.
fn commit(
    rt: &impl Abort,
    alloc: Global,
    numbers: &mut Numbers,
    rope: &mut Rope,
    history: &mut History,
    tree: &mut Tree,
) {
    let (change, after) = random_change(rt, alloc, numbers, tree.text());
    history.commit(rope, change).expect(rt, "there is memory");
    tree.add(rt, Some(tree.current), after);
}

fn undo(rope: &mut Rope, history: &mut History, tree: &mut Tree) -> Result<Step, Failure> {
    let left = history.undo(rope).map_err(refused)?;
    same!(left, tree.undo());
    Ok(Step::Undo(left))
}

fn redo(rope: &mut Rope, history: &mut History, tree: &mut Tree) -> Result<Step, Failure> {
    let child = history.redo(rope).map_err(refused)?;
    same!(child, tree.redo());
    Ok(Step::Redo(child))
}

fn go_to(
    version: usize,
    rope: &mut Rope,
    history: &mut History,
    tree: &mut Tree,
) -> Result<Step, Failure> {
    holds!(version < history.len_versions());
    history.go_to(rope, version).map_err(refused)?;
    tree.go_to(version);
    Ok(Step::GoTo(version))
}

/// Makes a random step with the history and with the tree.
fn take_step(
    rt: &impl Abort,
    alloc: Global,
    numbers: &mut Numbers,
    rope: &mut Rope,
    history: &mut History,
    tree: &mut Tree,
) -> Result<Step, Failure> {
    match numbers.take() % 8 {
        0..=2 => {
            commit(rt, alloc, numbers, rope, history, tree);
            Ok(Step::Commit)
        }
        3..=4 => undo(rope, history, tree),
        5 => redo(rope, history, tree),
        _ => {
            let version = numbers.up_to(minus(tree.texts.len(), 1));
            go_to(version, rope, history, tree)
        }
    }
}

/// Fails unless the rope has the current version's text.
fn expect_text(rt: &impl Abort, alloc: Global, rope: &Rope, tree: &Tree) -> Result<(), Failure> {
    let text = rope.try_to_string(alloc).expect(rt, "there is memory");
    expect_chars(text.as_str(), tree.text())
}

/// Fails unless the history equals the tree.
fn expect_current(history: &History, tree: &Tree) -> Result<(), Failure> {
    same!(history.current(), tree.current);
    same!(history.len_chars(), tree.text().len());
    same!(history.len_versions(), tree.texts.len());
    let version = tree.current;
    holds!(version < history.len_versions());
    same!(history.parent(version), *some!(tree.parents.get(version)));
    same!(history.redo_version(), *some!(tree.redo.get(version)));
    Ok(())
}

/// Fails unless a random step leads to the text and the version of the tree.
fn expect_step(
    rt: &impl Abort,
    alloc: Global,
    numbers: &mut Numbers,
    rope: &mut Rope,
    history: &mut History,
    tree: &mut Tree,
) -> Result<(), Failure> {
    let done = take_step(rt, alloc, numbers, rope, history, tree)?;
    within(format_args!("{done:?}"), expect_text(rt, alloc, rope, tree))?;
    within(format_args!("{done:?}"), expect_current(history, tree))
}

fn expect_steps_of(
    rt: &impl Abort,
    alloc: Global,
    numbers: &mut Numbers,
    rope: &mut Rope,
    history: &mut History,
    tree: &mut Tree,
) -> Result<(), Failure> {
    for k in 0..STEPS {
        within(
            format_args!("step {k}"),
            expect_step(rt, alloc, numbers, rope, history, tree),
        )?;
    }
    Ok(())
}

/// Fails unless the steps from a text lead to the texts and the versions of a tree.
fn expect_steps_from(
    rt: &impl Abort,
    alloc: Global,
    numbers: &mut Numbers,
    text: &str,
) -> Result<(), Failure> {
    let mut rope = rope_of(rt, alloc, text);
    let mut history = History::new(alloc, rope.len_chars()).expect(rt, "there is memory");
    let mut tree = Tree::new(alloc);
    let chars = chars_of(alloc, text).expect(rt, "there is memory");
    tree.add(rt, None, chars);
    expect_steps_of(rt, alloc, numbers, &mut rope, &mut history, &mut tree)
}

fn expect_steps(rt: &impl Abort, alloc: Global, seed: u64) -> Result<(), Failure> {
    let mut numbers = Numbers::new(seed);
    let text = random_text(alloc, &mut numbers, 40).expect(rt, "there is memory");
    expect_steps_from(rt, alloc, &mut numbers, text.as_str())
}

#[test]
fn random_versions_are_those_of_a_plain_tree(rt: HostRuntime) -> Result<(), Failure> {
    for seed in 1..=4 {
        within(
            format_args!("seed {seed}"),
            expect_steps(&rt, rt.alloc(), seed),
        )?;
    }
    Ok(())
}
