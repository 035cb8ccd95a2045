// Bound projects.
ghost use Rattle.std.specs.Prelude.{◌≡◌, ◌^◌, ◌<◌, ◌≤◌, IfOk, IfSome, IsSome, Some, length, slice_get, string_bytes};
ghost use Rattle.sound_terms.specs.Homes.{addressable_by};
ghost use Rattle.sound_terms.specs.Mix.{index_of};
ghost use Rattle.sound_terms.specs.Sounds.{SoundFacts};
ghost use Rattle.list_terms.specs.BoundHomes.{IsBinding, IsBoundTo, home_from, homes_of};
ghost use Rattle.list_terms.specs.Heard.{sounds_of};

use crate::binder::Binder;
use crate::homes::{home_among, homes_by};
use list_terms::Notice;
use sound_terms::{BoundIndex, Home, Homes};
use std::alloc::{AllocError, Global};
use std::marker::Model;
use wavread::Sound;

/// A binding of a project: the files of its used indexes, each opened once, in the order of the indexes; the base
/// and the reach of each index in sample frames; and notices.
pub struct Bound {
    binder: Binder,
}

// Written by hand so that callers drop it with a single call.
impl Drop for Bound {
    fn drop(self) {
        let Bound { binder } = self;
        drop(binder);
    }
}

impl Model for Bound {
    ghost use Rattle.list_terms.specs.Binding.{Binding};
    ghost use Rattle.list_terms.specs.BoundHomes.{IsBinding};

    ghost Value = { Binding };

    ghost view = { λ bound. bound.binder };

    ghost invariant = { λ bound. IsBinding bound.binder };
}

impl Bound {
    /// Wraps a binding whose invariants hold.
    pub(crate) fn of(binder: Binder) -> Self
        requires { IsBinding binder }
        ensures { result ≡ binder }
    {
        Bound { binder }
    }

    /// Returns the files in the order in which they were opened. Indexes refer to them by position.
    pub fn sounds(&self) -> &[Sound]
        ensures sounds { result.now ≡ sounds_of self.now }
        ensures bound { IsBinding self.now }
    {
        self.binder.sounds()
    }

    /// Returns the bound indexes in the order of their sources.
    pub fn indexes(&self) -> &[BoundIndex]
        ensures indexes { result.now ≡ self.now.indexes }
        ensures few { length result.now < 2 ^ 32 }
        ensures bound { IsBinding self.now }
    {
        self.binder.indexes()
    }

    /// Returns the bound index with this number, in constant time.
    pub fn index(&self, number: u32) -> Option<BoundIndex>
        ensures index { result ≡ index_of self.now.indexes number }
        ensures bound { IfSome result (IsBoundTo self.now.files) }
        ensures at_home { IfSome result (λ index. index.addressable ≤ addressable_by (homes_of self.now) index.file) }
    {
        self.binder.index(number)
    }

    /// Returns the name of the file at this position, without copying.
    pub fn into_name(self, file: u32) -> String
        requires there { IsSome (slice_get (sounds_of self) file) }
        ensures { (facts : SoundFacts) → slice_get (sounds_of self) file ≡ Some facts
            → string_bytes result ≡ facts.name }
    {
        let Bound { binder } = self;
        binder.into_name(file)
    }

    /// Returns the notices of binding, by index number. Kind 3: no entry names the index. Kind 4: its base isn't
    /// the TimeReference of the file's `bext`. For the first index of a file, kind 5: the `bext` is too short; 6:
    /// some chunks aren't carried over; 7: the end of the CodingHistory isn't carried over.
    pub fn notices(&self) -> &[Notice]
        ensures { result.now ≡ self.now.notices }
    {
        self.binder.notices()
    }

    /// Returns the home index of the file at this position: the first of its indexes with the smallest base.
    /// Returns `None` past the last file.
    pub fn home(&self, file: u32) -> Option<Home>
        ensures { result ≡ home_from 0 self.now.indexes file }
    {
        home_among(self.indexes(), file)
    }

    /// Returns the home index of each file: the first of its indexes with the smallest base. Returns `AllocError`
    /// if out of memory.
    pub fn homes(&self, alloc: Global) -> Result<Homes, AllocError>
        ensures { IfOk result (λ homes. homes ≡ homes_of self.now) }
    {
        let homes = homes_by(alloc, self.indexes(), self.sounds().len())?;
        Ok(Homes::of(homes))
    }
}
