// A list of marks with an ordered index to each mark's first position.
ghost use Rattle.std.specs.Prelude.{◌≡◌, ◌++◌, ◌∷◌, [], ◌<◌, length, None, Some, slice_get, slice_set, IfOk, OnOk};
ghost use Rattle.passes.specs.Ends.{IsFirst, is_end};

use crate::ends::End;
use std::alloc::{AllocError, Global};
use std::collections::BTreeSet;
use std::marker::Model;

/// A list of optional marks with an index that finds the first position of a mark without a search.
/// Contracts see the list.
#[derive(Drop)]
pub(crate) struct Marks {
    marks: Vec<Option<End>>,
    places: BTreeSet<(End, usize)>,
}

impl Model for Marks {
    ghost use Rattle.std.specs.Prelude.{List, Option};
    ghost use Rattle.passes.specs.declared.ends.End.{End};
    ghost use Rattle.passes.specs.Ends.{IsIndexOf};

    ghost Value = { List (Option End) };

    ghost view = { λ it. it.marks.items };

    ghost invariant = { λ it. IsIndexOf it.marks.items it.places };
}

impl Marks {
    /// Creates an empty list with room for `count` marks.
    pub(crate) fn new(alloc: Global, count: usize) -> Result<Self, AllocError>
        ensures { IfOk result (λ marks. marks ≡ []) }
    {
        Ok(Marks {
            marks: Vec::with_capacity(alloc, count)?,
            places: BTreeSet::new(alloc),
        })
    }

    /// Returns the first position of a mark.
    pub(crate) fn first(&self, end: End) -> Option<usize>
        ensures { IsFirst (is_end end) self.now result }
    {
        let mut after = self.places.range((end, 0)..);
        let found = after.next()?;
        if found.0 == end { Some(found.1) } else { None }
    }

    /// Sets the mark of a position that has none.
    fn put(&mut self, position: usize, end: End) -> Result<(), AllocError>
        requires { slice_get self.old position ≡ Some None }
        ensures { OnOk result (self.new ≡ slice_set self.old position (Some end)) }
    {
        self.places.insert((end, position))?;
        self.marks[position] = Some(end);
        Ok(())
    }

    /// Removes the mark of a position.
    fn clear(&mut self, position: usize)
        requires { position < length self.old }
        ensures { self.new ≡ slice_set self.old position None }
    {
        if let Some(end) = self.marks[position] {
            self.places.remove(&(end, position));
            self.marks[position] = None;
        }
    }

    /// Appends a mark, or an entry without one.
    pub(crate) fn push(&mut self, mark: Option<End>) -> Result<(), AllocError>
        ensures { OnOk result (self.new ≡ self.old ++ mark ∷ []) }
    {
        let position = self.marks.len();
        self.marks.push(None)?;
        match mark {
            Some(end) => self.put(position, end),
            None => Ok(()),
        }
    }

    /// Replaces the mark of a position, or removes it.
    pub(crate) fn set(&mut self, position: usize, mark: Option<End>) -> Result<(), AllocError>
        requires { position < length self.old }
        ensures { OnOk result (self.new ≡ slice_set self.old position mark) }
    {
        self.clear(position);
        match mark {
            Some(end) => self.put(position, end),
            None => Ok(()),
        }
    }
}
