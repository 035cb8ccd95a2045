// The bound indexes, with a table by number. `find` is equal to a linear search.
ghost use Rattle.std.specs.Prelude.{◌≡◌, ◌^◌, ◌<◌, length, ℕ, List, [], ◌∷◌, ◌++◌, IfOk, is_ok, if◌then◌else◌, None, slice_index_or};
ghost use Rattle.sound_terms.specs.Mix.{index_of};
ghost use Rattle.sound_terms.specs.declared.BoundIndex.{BoundIndex};
ghost use Rattle.sourceindex.specs.Places.{ArePlaces};

use sound_terms::BoundIndex;
use std::alloc::{AllocError, Global};
use std::marker::Model;

/// The length of the table. A list has no higher index numbers.
const PLACES: usize = 32_768;

/// The maximum number of indexes, whose positions fit in 32 bits.
const MOST: usize = 4_294_967_295;

/// The indexes bound so far, in the order of their sources.
#[derive(Drop)]
pub struct BoundIndexes {
    indexes: Vec<BoundIndex>,
    places: Vec<Option<usize>>,
}

impl Model for BoundIndexes {
    ghost use Rattle.std.specs.Prelude.{◌^◌, ◌<◌, List, length};
    ghost use Rattle.sound_terms.specs.declared.BoundIndex.{BoundIndex};
    ghost use Rattle.sourceindex.specs.Places.{ArePlaces};

    ghost Value = { List BoundIndex };

    ghost view = { λ bound. bound.indexes.items };

    ghost invariant = { λ bound. ArePlaces bound.indexes.items bound.places.items
        × (length bound.indexes.items < 2 ^ 32) };
}

/// Returns a table of `count` numbers without positions.
fn no_places(alloc: Global, count: usize) -> Result<Vec<Option<usize>>, AllocError>
    ensures { IfOk result (λ places. (n : ℕ) → slice_index_or places.items n None ≡ None) }
{
    vec![in alloc; None; count]
}

impl BoundIndexes {
    /// Returns an empty list. The table is allocated with the first index.
    pub fn new(alloc: Global) -> Self
        ensures { result ≡ [] }
    {
        BoundIndexes {
            indexes: Vec::new(alloc),
            places: Vec::new(alloc),
        }
    }

    /// Returns all indexes.
    pub fn as_slice(&self) -> &[BoundIndex]
        ensures all { result.now ≡ self.now }
        ensures few { length result.now < 2 ^ 32 }
    {
        self.indexes.as_slice()
    }

    /// Returns the first index with this number. Numbers outside the table are found by a linear search.
    pub fn find(&self, number: u32) -> Option<BoundIndex>
        ensures { result ≡ index_of self.now number }
    {
        if self.places.len() <= number as usize {
            return self
                .indexes
                .iter()
                .copied()
                .find(|index| index.number == number);
        }
        let position = self.places[number as usize]?;
        Some(self.indexes[position])
    }

    /// Allocates the table before the first index.
    fn make_places(&mut self, alloc: Global) -> Result<(), AllocError>
        ensures { self.new ≡ self.old }
    {
        if self.indexes.is_empty() {
            self.places = no_places(alloc, PLACES)?;
        }
        Ok(())
    }

    /// Appends an index. Returns `AllocError` if out of memory or if there are 2^32 - 1 indexes already, and then
    /// leaves them unchanged.
    pub fn push(&mut self, alloc: Global, index: BoundIndex) -> Result<(), AllocError>
        ensures { self.new ≡ (if is_ok result then self.old ++ index ∷ [] else self.old) }
    {
        self.make_places(alloc)?;
        let position = self.indexes.len();
        if position >= MOST {
            return Err(AllocError);
        }
        let number = index.number as usize;
        self.indexes.push(index)?;
        if number < self.places.len() && self.places[number].is_none() {
            self.places[number] = Some(position);
        }
        Ok(())
    }
}
