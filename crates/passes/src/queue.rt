// Queue of the groups that a pass still has to process.
ghost use Rattle.std.specs.Prelude.{◌≡◌, ◌∷◌, [], MatchOption};

use groups::Group;
use std::marker::Model;

/// Number of groups between releases of unused memory.
const MANY: usize = 1024;

/// A queue of groups. Memory is released as groups are removed, so that the output can use it.
/// Contracts see the list.
#[derive(Drop)]
pub(crate) struct Waiting {
    /// In reverse order: the first group is last.
    groups: Vec<Group>,
}

impl Model for Waiting {
    ghost use Rattle.std.specs.Prelude.{List, reverse};
    ghost use Rattle.sound_terms.specs.declared.piece.Piece.{Piece};

    ghost Value = { List (List Piece) };

    ghost view = { λ waiting. reverse waiting.groups.items };
}

impl Waiting {
    /// Creates a queue from a list of groups.
    pub(crate) fn of(mut groups: Vec<Group>) -> Self
        ensures { result ≡ groups.items }
    {
        groups.reverse();
        Waiting { groups }
    }

    /// Removes and returns the first group.
    pub(crate) fn next(&mut self) -> Option<Group>
        ensures { MatchOption result (self.old ≡ []) (λ group. self.old ≡ group ∷ self.new) }
    {
        let group = self.groups.pop()?;
        if self.groups.len() % MANY == 0 {
            self.groups.shrink_to_fit();
        }
        Some(group)
    }
}
