//! Laws of positions. Each function does nothing: its contract is the law.
ghost use Rattle.rope_position.specs.Positions.{PositionsReturn};

/// Proves that the position of a character is always valid, and converts back to that character.
pub fn positions_return()
    ensures { PositionsReturn }
{}
