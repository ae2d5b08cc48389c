// A small source of numbers, the same in every run: x becomes 1664525 x + 1013904223 modulo 2^32.
use array::{Cell, Term};
use field::Symbol;
use std::alloc::{AllocError, Global};

#[derive(Drop)]
pub struct Source {
    state: u32,
}

impl Source {
    pub fn new(seed: u32) -> Self {
        Source { state: seed }
    }

    // The next number: the upper half of x, modulo `n`.
    pub fn below(&mut self, n: u16) -> u16 {
        self.state = self.state.wrapping_mul(1664525).wrapping_add(1013904223);
        let half = (self.state >> 16) as u16;
        if n == 0 { 0 } else { half % n }
    }

    // A symbol of a field of `order` symbols that is not 0.
    pub fn nonzero(&mut self, order: u16) -> Symbol {
        self.below(order.saturating_sub(1)).saturating_add(1)
    }

    // A cell of `count` terms, whose shifts rise by 1 to 120.
    pub fn cell(&mut self, alloc: Global, order: u16, count: u16) -> anyhow::Result<Cell> {
        let mut low: u16 = 0;
        let terms: Vec<Term> = (0..count)
            .map(|_| {
                let shift = low.saturating_add(self.below(120));
                low = shift.saturating_add(1);
                Term {
                    shift,
                    coefficient: self.nonzero(order),
                }
            })
            .collect(alloc)?;
        Ok(Cell::try_from(terms.as_slice())?)
    }

    // A word of `count` symbols of a field of `order` symbols.
    pub fn word(
        &mut self,
        alloc: Global,
        order: u16,
        count: usize,
    ) -> Result<Vec<Symbol>, AllocError> {
        (0..count).map(|_| self.below(order)).collect(alloc)
    }
}
