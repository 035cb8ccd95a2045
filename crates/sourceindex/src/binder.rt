// A binding under construction.
ghost use Rattle.std.specs.Prelude.{◌≡◌, ◌^◌, ◌<◌, ◌⊎◌, IfErr, IsTrue, None, OnOk, Some, length, slice_get, string_bytes, true};
ghost use Rattle.sound_terms.specs.Mix.{index_of};
ghost use Rattle.devices.specs.Frame.{OnlyReads};
ghost use Rattle.list_terms.specs.Binding.{OpenedFile, file_named, is_used, nothing_bound, with_index, with_known_file};
ghost use Rattle.list_terms.specs.Bound.{bound_source, bound_to_new, with_source};
ghost use Rattle.list_terms.specs.BoundHomes.{IsBinding};
ghost use Rattle.list_terms.specs.Heard.{sounds_of};
ghost use Rattle.list_terms.specs.Names.{place_of_url};
ghost use Rattle.sourceindex.specs.Fault.{name_of_source};
ghost use Rattle.sourceindex.specs.Taken.{IsNamedAs, Takes, TakesNamed};

use crate::bound_indexes::BoundIndexes;
use crate::fault::{NamedFault, SourceFault};
use crate::files::Files;
use crate::told::{index_over, tell, tell_if};
use crate::used_numbers::UsedNumbers;
use adlmodel::{Bytes, Place, Source, place_of};
use devices::Shelf;
use list_terms::Notice;
use sound_terms::BoundIndex;
use std::alloc::{AllocError, Global};
use std::marker::Model;
use wavread::{MediaFault, Sound, open};

/// The files, indexes and notices bound so far.
#[derive(Drop)]
pub struct Binder {
    files: Files,
    indexes: BoundIndexes,
    notices: Vec<Notice>,
}

impl Model for Binder {
    ghost use Rattle.list_terms.specs.Binding.{Binding};

    ghost Value = { Binding };

    ghost view = { λ b. record { files = b.files; indexes = b.indexes; notices = b.notices.items } };
}

impl Binder {
    /// Returns an empty binding.
    pub fn new(alloc: Global) -> Self
        ensures { result ≡ nothing_bound }
    {
        Binder {
            files: Files::new(alloc),
            indexes: BoundIndexes::new(alloc),
            notices: Vec::new(alloc),
        }
    }

    /// Returns the files opened so far.
    pub fn sounds(&self) -> &[Sound]
        ensures { result.now ≡ sounds_of self.now }
    {
        self.files.sounds()
    }

    /// Returns the indexes bound so far.
    pub fn indexes(&self) -> &[BoundIndex]
        ensures all { result.now ≡ self.now.indexes }
        ensures few { length result.now < 2 ^ 32 }
    {
        self.indexes.as_slice()
    }

    /// Returns the bound index with this number.
    pub fn index(&self, number: u32) -> Option<BoundIndex>
        ensures { result ≡ index_of self.now.indexes number }
    {
        self.indexes.find(number)
    }

    /// Returns the notices so far.
    pub fn notices(&self) -> &[Notice]
        ensures { result.now ≡ self.now.notices }
    {
        self.notices.as_slice()
    }

    /// Returns the name of the file at this position, without copying.
    pub fn into_name(self, file: u32) -> String
        requires { file < length self.files }
        ensures { (opened : OpenedFile) → slice_get self.files file ≡ Some opened
            → string_bytes result ≡ opened.facts.name }
    {
        self.files.into_name(file)
    }

    /// Adds the index of a source, bound to the file at this position.
    fn push_index(
        &mut self,
        alloc: Global,
        source: &Source,
        file: u32,
        is_new: bool,
    ) -> Result<(), AllocError>
        requires { file < length self.old.files }
        ensures { (opened : OpenedFile) → slice_get self.old.files file ≡ Some opened
            → OnOk result (self.new ≡ with_index self.old source.now file opened.facts is_new self.old.files) }
    {
        let sound = self.files.sound(file);
        self.indexes.push(alloc, index_over(source, sound, file))?;
        tell(&mut self.notices, source, sound, is_new)
    }

    /// Binds a source to a file that is already open. Returns an error if the source names another path.
    fn add_known(
        &mut self,
        alloc: Global,
        source: &Source,
        location: &Place,
        file: u32,
    ) -> Result<(), SourceFault>
        requires location { place_of_url source.now.url ≡ Some location.now }
        requires opened { file_named location.now.name self.old.files ≡ Some file }
        ensures added { Takes source.now result self.new
            (with_known_file self.old source.now location.now file (slice_get self.old.files file)) }
        ensures sound { IsBinding self.old → OnOk result (IsBinding self.new) }
        ensures no_device { IfErr result (λ fault. fault ≡ SourceFault.Media MediaFault.Device → ⊥) }
    {
        if self.files.path(file) != location.path() {
            return Err(SourceFault::SameName);
        }
        self.push_index(alloc, source, file, false)?;
        Ok(())
    }

    /// Opens a file and binds a source to it.
    fn add_new<S: Shelf>(
        &mut self,
        alloc: Global,
        source: &Source,
        location: &Place,
        shelf: &mut S,
    ) -> Result<(), SourceFault>
        requires location { place_of_url source.now.url ≡ Some location.now }
        requires missing { file_named location.now.name self.old.files ≡ None }
        ensures added { IsTrue (S.honest shelf.old)
            → Takes source.now result self.new (bound_to_new (S.stored shelf.old) self.old source.now location.now) }
        ensures sound { IsBinding self.old → OnOk result (IsBinding self.new) }
        ensures only_reads { OnlyReads S.Shelf shelf.old shelf.new result
            (λ fault. fault ≡ SourceFault.Media MediaFault.Device) (λ _ failed. failed (name_of_source source.now)) }
    {
        let sound = open(alloc, shelf, location.name())?;
        let path = Bytes::from_slice(alloc, location.path())?;
        let file = self.files.push(alloc, path, sound)?;
        self.push_index(alloc, source, file, true)?;
        Ok(())
    }

    /// Binds a source to the file at this location, which is opened if it isn't open yet.
    fn add_at<S: Shelf>(
        &mut self,
        alloc: Global,
        source: &Source,
        location: &Place,
        shelf: &mut S,
    ) -> Result<(), SourceFault>
        requires location { place_of_url source.now.url ≡ Some location.now }
        ensures added { IsTrue (S.honest shelf.old)
            → Takes source.now result self.new (bound_source (S.stored shelf.old) self.old source.now
            (Some location.now)) }
        ensures sound { IsBinding self.old → OnOk result (IsBinding self.new) }
        ensures only_reads { OnlyReads S.Shelf shelf.old shelf.new result
            (λ fault. fault ≡ SourceFault.Media MediaFault.Device) (λ _ failed. failed (name_of_source source.now)) }
    {
        match self.files.position(location.name()) {
            Some(file) => self.add_known(alloc, source, location, file),
            None => self.add_new(alloc, source, location, shelf),
        }
    }

    /// Binds a source to the file that its URL names.
    fn add<S: Shelf>(
        &mut self,
        alloc: Global,
        source: &Source,
        shelf: &mut S,
    ) -> Result<(), NamedFault>
        ensures added { IsTrue (S.honest shelf.old)
            → TakesNamed source.now result self.new (bound_source (S.stored shelf.old) self.old source.now
            (place_of_url source.now.url)) }
        ensures sound { IsBinding self.old → OnOk result (IsBinding self.new) }
        ensures named { IfErr result (IsNamedAs source.now) }
        ensures only_reads { OnlyReads S.Shelf shelf.old shelf.new result
            (λ named. named.fault ≡ SourceFault.Media MediaFault.Device)
            (λ _ failed. failed (name_of_source source.now)) }
    {
        let Some(location) = place_of(alloc, source.url())? else {
            return Ok(());
        };
        match self.add_at(alloc, source, &location, shelf) {
            Ok(()) => Ok(()),
            Err(fault) => Err(fault.at(location)),
        }
    }

    /// Adds a source: binds it if an entry names it, or else adds a notice.
    pub fn take<S: Shelf>(
        &mut self,
        alloc: Global,
        source: &Source,
        used: &UsedNumbers,
        shelf: &mut S,
    ) -> Result<(), NamedFault>
        ensures taken { IsTrue (S.honest shelf.old)
            → TakesNamed source.now result self.new (with_source (S.stored shelf.old)
            used.now self.old source.now) }
        ensures used { IfErr result (λ named. (named.fault ≡ SourceFault.Media MediaFault.Memory)
            ⊎ (is_used used.now source.now.number ≡ true)) }
        ensures sound { IsBinding self.old → OnOk result (IsBinding self.new) }
        ensures named { IfErr result (IsNamedAs source.now) }
        ensures only_reads { OnlyReads S.Shelf shelf.old shelf.new result
            (λ named. named.fault ≡ SourceFault.Media MediaFault.Device)
            (λ _ failed. failed (name_of_source source.now)) }
    {
        let number = source.number();
        if used.contains(number) {
            return self.add(alloc, source, shelf);
        }
        tell_if(&mut self.notices, true, 3, number)?;
        Ok(())
    }
}
