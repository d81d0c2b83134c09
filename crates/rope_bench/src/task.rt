//! The command line.
use crate::fault::Fault;
use crate::sample::Size;

/// The kind and the size of the work.
#[derive(Clone, Copy)]
pub enum Mode {
    /// Every workload in small, without times: no argument.
    Small,
    /// Workloads in full, with times: `time`.
    Full,
    /// A few workloads on texts of 1 MB to 1 GB: `grow`.
    Growth,
    /// A rope whose memory can be measured from outside: `mem`.
    Memory,
}

impl Mode {
    /// Returns the mode of the first word.
    pub fn of_word(word: &str) -> Result<Mode, Fault> {
        match word {
            "time" => Ok(Mode::Full),
            "grow" => Ok(Mode::Growth),
            "mem" => Ok(Mode::Memory),
            _ => Err(Fault::Usage),
        }
    }
}

/// The work and the selected workloads.
#[derive(Drop)]
pub struct Task {
    /// The kind of work, and whether times are printed.
    pub mode: Mode,
    /// A workload is selected if its name contains one of these words, or if there is none. A word
    /// after a `=` is a whole name.
    pub words: Vec<String>,
}

impl Task {
    /// Returns whether a workload of this name is selected.
    pub fn wants(&self, name: &str) -> bool {
        self.words.is_empty() || self.words.iter().any(|word| names(word.as_str(), name))
    }

    /// Returns the size of a workload.
    pub fn size(&self) -> Size {
        match self.mode {
            Mode::Small => Size::Small,
            Mode::Full | Mode::Growth | Mode::Memory => Size::Full,
        }
    }
}

/// Returns whether a word of the command line selects a workload.
fn names(word: &str, name: &str) -> bool {
    match word.strip_prefix('=') {
        Some(whole) => name == whole,
        None => name.contains(word),
    }
}
