// Home indexes of the files.
ghost use Rattle.std.specs.Prelude.{◌≡◌, slice_get};
ghost use Rattle.sound_terms.specs.Homes.{AreHomes, base_by, place_by};

use crate::Home;
use std::marker::Model;

/// The home index of each file, by file number. No two files share a home index, and the addressable samples of each
/// file end within the day. Contracts see the list of homes.
#[derive(Drop)]
pub struct Homes {
    homes: Vec<Home>,
}

impl Model for Homes {
    ghost use Rattle.std.specs.Prelude.{List};
    ghost use Rattle.sound_terms.specs.declared.piece.Home.{Home};
    ghost use Rattle.sound_terms.specs.Homes.{AreHomes};

    ghost Value = { List Home };

    ghost view = { λ table. table.homes.items };

    ghost invariant = { λ table. AreHomes table.homes.items };
}

impl Homes {
    /// Creates the table from a list whose first item is the home of file 0.
    pub fn of(homes: Vec<Home>) -> Self
        requires { AreHomes homes.items }
        ensures { result ≡ homes.items }
    {
        Homes { homes }
    }

    /// Returns the homes of all files, by file number.
    pub fn as_slice(&self) -> &[Home]
        ensures lent { result.now ≡ self.now }
        ensures sound { AreHomes self.now }
    {
        self.homes.as_slice()
    }

    /// Returns the home of a file, or `None` if the file has none.
    pub fn get(&self, file: u32) -> Option<Home>
        ensures home { result ≡ slice_get self.now file }
        ensures sound { AreHomes self.now }
    {
        self.homes.get(file as usize).copied()
    }

    /// Returns the time of a file's first sample, in samples since midnight; 0 for a file without a home.
    pub fn base(&self, file: u32) -> u64
        ensures { result ≡ base_by self.now file }
    {
        match self.homes.get(file as usize) {
            Some(home) => home.base,
            None => 0,
        }
    }

    /// Returns the position of a file's home index among the bound indexes; 0 for a file without a home.
    pub fn position(&self, file: u32) -> u32
        ensures { result ≡ place_by self.now file }
    {
        match self.homes.get(file as usize) {
            Some(home) => home.position,
            None => 0,
        }
    }
}
