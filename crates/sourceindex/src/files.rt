// Opened files, with a lookup by name.
ghost use Rattle.std.specs.Prelude.{◌≡◌, ◌<◌, ◌∷◌, ◌++◌, [], IfOk, None, OnErr, OnOk, Some, length, map, slice_get, string_bytes};
ghost use Rattle.list_terms.specs.Binding.{OpenedFile, file_named};

use adlmodel::Bytes;
use std::alloc::{AllocError, Global};
use std::collections::BTreeMap;
use std::marker::Model;
use wavread::Sound;

/// Opened sound files in the order of opening, with the paths that name them.
#[derive(Drop)]
pub struct Files {
    sounds: Vec<Sound>,
    paths: Vec<Bytes>,
    places: BTreeMap<String, u32>,
}

impl Model for Files {
    ghost use Rattle.std.specs.Prelude.{List};
    ghost use Rattle.list_terms.specs.Binding.{OpenedFile};
    ghost use Rattle.sourceindex.specs.Files.{ArePlaced, opened_of};

    ghost Value = { List OpenedFile };

    ghost view = { λ files. opened_of files.paths.items files.sounds.items };

    ghost invariant = { λ files. ArePlaced files.paths.items files.sounds.items files.places };
}

impl Files {
    /// Returns an empty set of files.
    pub fn new(alloc: Global) -> Self
        ensures { result ≡ [] }
    {
        Files {
            sounds: Vec::new(alloc),
            paths: Vec::new(alloc),
            places: BTreeMap::new(alloc),
        }
    }

    /// Returns the position of the file with this name, from 0.
    pub fn position(&self, name: &str) -> Option<u32>
        ensures { result ≡ file_named name.now self.now }
    {
        self.places.get(name).copied()
    }

    /// Returns the path of the file at this position.
    pub fn path(&self, position: u32) -> &[u8]
        requires { position < length self.now }
        ensures { (file : OpenedFile) → slice_get self.now position ≡ Some file → result.now ≡ file.path }
    {
        self.paths[position as usize].as_slice()
    }

    /// Returns the file at this position.
    pub fn sound(&self, position: u32) -> &Sound
        requires { position < length self.now }
        ensures { (file : OpenedFile) → slice_get self.now position ≡ Some file → result.now ≡ file.facts }
    {
        &self.sounds[position as usize]
    }

    /// Returns all files.
    pub fn sounds(&self) -> &[Sound]
        ensures { result.now ≡ map (λ file. file.facts) self.now }
    {
        self.sounds.as_slice()
    }

    /// Returns the name of the file at this position, without copying.
    pub fn into_name(self, position: u32) -> String
        requires { position < length self }
        ensures { (file : OpenedFile) → slice_get self position ≡ Some file → string_bytes result ≡ file.facts.name }
    {
        let mut sounds = self.sounds;
        sounds.swap_remove(position as usize).into_name()
    }

    /// Appends a file and returns its position. Returns `AllocError` if out of memory or if there are 2^32 files
    /// already, and then leaves the files unchanged.
    pub fn push(&mut self, alloc: Global, path: Bytes, sound: Sound) -> Result<u32, AllocError>
        requires missing { file_named sound.name self.old ≡ None }
        ensures position { IfOk result (λ position. position ≡ length self.old) }
        ensures pushed { OnOk result (self.new ≡ self.old ++ record { path = path; facts = sound } ∷ []) }
        ensures unchanged { OnErr result (self.new ≡ self.old) }
    {
        let Ok(position) = u32::try_from(self.sounds.len()) else {
            return Err(AllocError);
        };
        let name = String::from_str(alloc, sound.name())?;
        self.sounds.reserve(1)?;
        self.paths.reserve(1)?;
        self.places.insert(name, position)?;
        self.sounds.push(sound)?;
        self.paths.push(path)?;
        Ok(position)
    }
}
