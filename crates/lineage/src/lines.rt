// Entries sorted by line. Only entries on one line can play together, so a group taken from one line is equal to
// `group_among` over all entries.
ghost use Rattle.std.specs.Prelude.{◌≡◌, IfOk};
ghost use Rattle.lineage.specs.Lines.{PlayAlike, line_of};
ghost use Rattle.lineage.specs.Played.{numbers_of};

use crate::Played;
use std::alloc::{AllocError, Global};
use std::marker::Model;

/// Entries sorted by line; the order within a line is unchanged.
#[derive(Drop)]
pub struct Lined {
    entries: Vec<Played>,
}

impl Model for Lined {
    ghost use Rattle.std.specs.Prelude.{List};
    ghost use Rattle.std.specs.List.Sorted.{IsNonDecreasingBy};
    ghost use Rattle.lineage.specs.declared.played.Played.{Played};
    ghost use Rattle.lineage.specs.Lines.{line_of};

    ghost Value = { List Played };

    ghost view = { λ lined. lined.entries.items };

    ghost invariant = { λ lined. IsNonDecreasingBy line_of lined.entries.items };
}

impl Played {
    /// Returns the line of an entry: its file, and its position in the file minus its start time. Entries that play
    /// together have the same line.
    fn line(&self) -> u128
        ensures { result ≡ line_of self.now }
    {
        u128::from(self.file) * (1 << 66)
            + (u128::from(self.frame) + (1 << 64) - u128::from(self.start))
    }
}

impl Lined {
    /// Sorts entries by line.
    pub fn of(alloc: Global, given: &[Played]) -> Result<Self, AllocError>
        ensures { IfOk result (λ lined. PlayAlike lined given.now) }
    {
        let mut entries = Vec::with_capacity(alloc, given.len())?;
        entries.extend_from_slice(given)?;
        entries.sort_by_key(|entry| entry.line())?;
        Ok(Lined { entries })
    }

    /// Returns the entries on the same line as `entry`, which include all that may play together with it.
    pub fn beside(&self, entry: &Played) -> &[Played]
        ensures { numbers_of result.now entry.now ≡ numbers_of self.now entry.now }
    {
        let line = entry.line();
        let from = self.entries.partition_point(|other| other.line() < line);
        let rest = &self.entries[from..];
        let count = rest.partition_point(|other| other.line() <= line);
        &rest[..count]
    }
}
