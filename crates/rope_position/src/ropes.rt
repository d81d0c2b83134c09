//! Positions in ropes, by the slice of the whole rope.
use crate::encoding::Encoding;
use crate::position::{Position, Positions};
use ropey::{Result, Rope};

// Calls the slice of the whole text, which costs no lookup.
impl Positions for Rope {
    ghost use Rattle.ropey.specs.View.{content};

    ghost shown = { content };

    fn try_char_to_position(&self, char_idx: usize) -> Result<Position> {
        self.slice(..).try_char_to_position(char_idx)
    }

    fn try_position_to_char(&self, position: Position) -> Result<usize> {
        self.slice(..).try_position_to_char(position)
    }

    fn try_char_to_position_in(&self, char_idx: usize, encoding: Encoding) -> Result<Position> {
        self.slice(..).try_char_to_position_in(char_idx, encoding)
    }

    fn clamped_position_to_char(&self, position: Position, encoding: Encoding) -> usize {
        self.slice(..).clamped_position_to_char(position, encoding)
    }
}
