//! An undo history of clones.
ghost use Rattle.std.specs.Prelude.{◌≡◌, ◌≤◌, [], ◌∷◌, ◌++◌, length, OnOk, OnErr};
ghost use Rattle.std.specs.Bool.{OnTrue, OnFalse};
ghost use Rattle.std.specs.Str.{chars};
ghost use Rattle.rope_text.specs.Edit.{inserted};

use ropey::{Result, Rope};

/// A text and its earlier versions, the newest last.
#[derive(Drop)]
pub struct History {
    pub text: Rope,
    pub past: Vec<Rope>,
}

impl History {
    /// Inserts a text and keeps the old version.
    pub fn insert(&mut self, char_idx: usize, text: &str) -> Result<()>
        requires { char_idx ≤ length self.old.text.text }
        ensures text { OnOk result
            (self.new.text.text ≡ inserted self.old.text.text char_idx (chars text.now)) }
        ensures past { OnOk result
            (self.new.past.items ≡ self.old.past.items ++ self.old.text ∷ []) }
        ensures err { OnErr result
            ((self.new.text ≡ self.old.text) × (self.new.past.items ≡ self.old.past.items)) }
    {
        self.past.reserve(1)?;
        let before = self.text.clone()?;
        self.text.insert(char_idx, text)?;
        self.past.push(before).unwrap();
        Ok(())
    }

    /// Restores the newest old version; returns false if there is none.
    pub fn undo(&mut self) -> bool
        ensures undone { OnTrue result
            (self.old.past.items ≡ self.new.past.items ++ self.new.text ∷ []) }
        ensures none { OnFalse result ((self.new.text ≡ self.old.text)
            × (self.old.past.items ≡ []) × (self.new.past.items ≡ [])) }
    {
        match self.past.pop() {
            Some(before) => {
                self.text = before;
                true
            }
            None => false,
        }
    }
}
