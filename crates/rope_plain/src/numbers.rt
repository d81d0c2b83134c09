//! Pseudorandom numbers, equal in every run.
ghost use Rattle.std.specs.Prelude.{◌≡◌};

/// A pseudorandom sequence by a xorshift of 64 bits, determined by its start.
#[derive(Drop)]
pub struct Numbers {
    state: u64,
}

impl Numbers {
    /// Returns a sequence that begins at a number other than 0.
    pub fn new(start: u64) -> Numbers {
        Numbers { state: start }
    }

    /// Returns the next number of the sequence.
    pub fn draw(&mut self) -> u64
        ensures { result ≡ self.new.state }
    {
        let mut x = self.state;
        x ^= x << 13;
        x ^= x >> 7;
        x ^= x << 17;
        self.state = x;
        x
    }

    /// Returns the next number without its last eight bits.
    pub fn take(&mut self) -> usize {
        (self.draw() >> 8) as usize
    }

    /// Returns the next number, reduced to the range from 0 to `most` by its remainder.
    pub fn up_to(&mut self, most: usize) -> usize {
        let number = self.take();
        match most.checked_add(1) {
            Some(count) => number % count,
            None => number,
        }
    }
}
