use rand_core::Rng;
use rand_pcg::Pcg32;

/// Random numbers, the same in each run.
#[derive(Drop)]
pub struct Dice {
    generator: Pcg32,
}

impl Dice {
    pub fn new() -> Dice {
        Dice {
            generator: Pcg32::new(42, 54),
        }
    }

    /// A number below this one, or 0 where there is none.
    pub fn below(&mut self, count: u32) -> u32 {
        self.generator.next_u32().checked_rem(count).unwrap_or(0)
    }

    pub fn byte(&mut self) -> u8 {
        let [byte, ..] = self.generator.next_u32().to_be_bytes();
        byte
    }

    /// True in so many of a hundred.
    pub fn chance(&mut self, percent: u32) -> bool {
        self.below(100) < percent
    }

    /// A number of up to 16 bits, where small ones are more common.
    pub fn number(&mut self) -> u32 {
        let wide = self.below(65_536);
        wide.checked_shr(self.below(16)).unwrap_or(wide)
    }

    /// A place in a list of so many, or 0 where it is empty.
    pub fn place(&mut self, len: usize) -> usize {
        self.below(u32::try_from(len).unwrap_or(u32::MAX)) as usize
    }

    /// One of these.
    pub fn pick<'a, T>(&mut self, items: &'a [T]) -> Option<&'a T> {
        items.get(self.place(items.len()))
    }
}
