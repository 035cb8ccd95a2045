// The set of used entry numbers.
ghost use Rattle.std.specs.Prelude.{◌≡◌, ◌<◌, ℕ, IfOk, false, slice_index_or, slice_set, true, vec_len};

use std::alloc::{AllocError, Global};

/// A set of numbers below 32768, as one flag per number. Equal to a search through the entries.
#[derive(Drop)]
pub struct Numbers {
    taken: Vec<bool>,
    ghost whole: { vec_len taken ≡ 32768 },
}

impl Numbers {
    /// Returns the empty set.
    pub fn new(alloc: Global) -> Result<Self, AllocError>
        ensures { IfOk result (λ numbers. (n : ℕ) → slice_index_or numbers.taken.items n false ≡ false) }
    {
        let taken = cleared_flags(alloc, LIMIT)?;
        Ok(Numbers { taken })
    }

    /// Returns whether the set contains a number.
    pub fn contains(&self, number: u32) -> bool
        requires { number < 32768 }
        ensures { result ≡ slice_index_or self.now.taken.items number false }
    {
        self.taken[number as usize]
    }

    /// Adds a number.
    pub fn insert(&mut self, number: u32)
        requires { number < 32768 }
        ensures { self.new.taken.items ≡ slice_set self.old.taken.items number true }
    {
        self.taken[number as usize] = true;
    }
}

const LIMIT: usize = 32_768;

/// Returns `count` cleared flags.
fn cleared_flags(alloc: Global, count: usize) -> Result<Vec<bool>, AllocError>
    ensures count { IfOk result (λ flags. vec_len flags ≡ count) }
    ensures cleared { IfOk result (λ flags. (n : ℕ) → slice_index_or flags.items n false ≡ false) }
{
    vec![in alloc; false; count]
}
