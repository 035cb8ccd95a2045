// Paths by which files are named.
ghost use Rattle.std.specs.Prelude.{◌≡◌, ◌∷◌, ◌++◌, [], List, IfOk, OnOk};
ghost use Rattle.list_terms.specs.Names as names;
ghost use Rattle.opening.specs.Paths.{Knows, naming_of, path_among};

use adlmodel::{Bytes, Place};
use std::alloc::{AllocError, Global};
use std::collections::BTreeMap;

/// Naming of a file, compared with the path by which it was named before.
#[derive(Clone, Copy, Debug, PartialEq, Eq)]
pub enum Naming {
    First,
    Again,
    ByOtherPath,
}

/// The path by which each file was first named, by file name.
#[derive(Drop)]
pub struct Paths {
    paths: BTreeMap<String, Bytes>,
}

impl Paths {
    /// Creates an empty map.
    pub fn new(alloc: Global) -> Self
        ensures { Knows result [] }
    {
        Paths {
            paths: BTreeMap::new(alloc),
        }
    }

    /// Records the path of the file at this location, and returns how it was named before.
    pub fn note(&mut self, alloc: Global, location: &Place) -> Result<Naming, AllocError>
        ensures naming { (places : List names.Place) → Knows self.old places → IfOk result (λ naming. naming
            ≡ naming_of (path_among location.now.name places) location.now.path) }
        ensures noted { (places : List names.Place) → Knows self.old places
            → OnOk result (Knows self.new (places ++ location.now ∷ [])) }
    {
        if let Some(path) = self.paths.get(location.name()) {
            let is_same = path.as_slice() == location.path();
            return Ok(if is_same {
                Naming::Again
            } else {
                Naming::ByOtherPath
            });
        }
        let name = String::from_str(alloc, location.name())?;
        let path = Bytes::from_slice(alloc, location.path())?;
        self.paths.insert(name, path)?;
        Ok(Naming::First)
    }
}
