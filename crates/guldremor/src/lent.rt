// A buffer of which a first part is lent to the library's calls, so long as the script wants it.
ghost use Rattle.std.specs.Prelude.{◌≡◌, take, replicate, IfOk};
ghost use Rattle.std.specs.Borrow.{sem};
ghost use Rattle.guldremor.specs.Lending.{LendsFirst};

use std::alloc::{AllocError, Global};

#[derive(Drop)]
pub struct Lent<T> {
    items: Vec<T>,
    length: usize,
}

impl<T: Copy + Drop> Lent<T> {
    // As many items as `places`, all alike, of which `length` are lent.
    pub fn new(heap: Global, item: T, places: usize, length: usize) -> Result<Self, AllocError>
        ensures length { IfOk result (λ b. b.length ≡ length) }
        ensures items { IfOk result (λ b. b.items.items ≡ replicate places item) }
    {
        let mut items = Vec::new(heap);
        items.resize(places, item)?;
        Ok(Lent { items, length })
    }

    // Lends so many items from now on.
    pub fn lend(&mut self, length: usize)
        ensures { (self.new.length ≡ length) × (self.new.items ≡ self.old.items) }
    {
        self.length = length;
    }

    // All items.
    pub fn all(&self) -> &[T]
        ensures { result.now ≡ self.now.items.items }
    {
        self.items.as_slice()
    }

    // The items that are lent: all where there are fewer than that.
    pub fn first(&self) -> &[T]
        ensures { result.now ≡ take self.now.length self.now.items.items }
    {
        let n = self.length.min(self.items.len());
        &self.items.as_slice()[..n]
    }

    // The same, to write: what is left there is what the first items are afterwards, and all else stays.
    pub fn first_mut(&mut self) -> &mut [T]
        ensures* writes_back { sem 𝓛 (LendsFirst T.row self.entry result) }
        ensures value { result.now ≡ take self.old.length self.old.items.items }
    {
        let n = self.length.min(self.items.len());
        self.items.slice_mut(..n)
    }
}
