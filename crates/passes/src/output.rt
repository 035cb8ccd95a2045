// Output of a pass.
ghost use Rattle.std.specs.Prelude.{◌≡◌, ◌++◌, ◌∷◌, [], IfOk, OnOk};

use crate::ends::End;
use crate::marks::Marks;
use groups::Group;
use std::alloc::{AllocError, Global};

/// The groups that a pass has produced, each with its mark in the index.
#[derive(Drop)]
pub(crate) struct Output {
    pub(crate) groups: Vec<Group>,
    pub(crate) ends: Marks,
}

impl Output {
    /// Creates an empty output with room for `count` groups.
    pub(crate) fn new(alloc: Global, count: usize) -> Result<Self, AllocError>
        ensures groups { IfOk result (λ output. output.groups.items ≡ []) }
        ensures ends { IfOk result (λ output. output.ends ≡ []) }
    {
        Ok(Output {
            groups: Vec::with_capacity(alloc, count)?,
            ends: Marks::new(alloc, count)?,
        })
    }

    /// Appends a group.
    pub(crate) fn push(&mut self, group: Group, end: Option<End>) -> Result<(), AllocError>
        ensures groups { OnOk result (self.new.groups.items ≡ self.old.groups.items ++ group ∷ []) }
        ensures ends { OnOk result (self.new.ends ≡ self.old.ends ++ end ∷ []) }
    {
        self.ends.push(end)?;
        self.groups.push(group)?;
        Ok(())
    }
}
