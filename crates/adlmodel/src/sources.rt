// Sources by number.
ghost use Rattle.std.specs.Prelude.{◌≡◌, ◌++◌, ◌==◌, ◌∷◌, [], IfOk, OnErr, OnOk, false, option_copied};
ghost use Rattle.std.specs.List.{list_any};
ghost use Rattle.indexmap.specs.IndexMap.{keys, values};
ghost use Rattle.list_terms.specs.WholeProject.{AreDistinct, index_numbers};
ghost use Rattle.adlmodel.specs.Numbered.{source_of};

use crate::source::Source;
use indexmap::IndexMap;
use std::alloc::{AllocError, Global};
use std::marker::Model;

/// Sources in the order of their lines, with distinct numbers by which they can be looked up.
#[derive(Debug, Drop)]
pub struct Sources {
    by_number: IndexMap<u32, Source>,
}

impl Model for Sources {
    ghost use Rattle.std.specs.Prelude.{◌≡◌, List};
    ghost use Rattle.indexmap.specs.IndexMap.{keys, values};
    ghost use Rattle.list_terms.specs.Project as list;
    ghost use Rattle.list_terms.specs.WholeProject.{index_numbers};

    ghost Value = { List list.Source };

    ghost view = { λ s. values s.by_number };

    ghost invariant = { λ s. keys s.by_number ≡ index_numbers (values s.by_number) };
}

impl Sources {
    /// Returns an empty set of sources.
    pub fn new(alloc: Global) -> Self
        ensures { result ≡ [] }
    {
        Sources {
            by_number: IndexMap::new(alloc),
        }
    }

    /// Copies sources, whose numbers must be distinct. Returns `AllocError` if out of memory.
    pub fn from_slice(alloc: Global, sources: &[Source]) -> Result<Self, AllocError>
        requires { AreDistinct (index_numbers sources.now) }
        ensures { IfOk result (λ copies. copies ≡ sources.now) }
    {
        let mut copies = Sources::new(alloc);
        for source in sources {
            let copy = source.try_copy()?;
            copies.push(copy)?;
        }
        Ok(copies)
    }

    /// Appends a source, whose number must be new. Returns `AllocError` if out of memory, and then leaves the
    /// sources unchanged.
    pub fn push(&mut self, source: Source) -> Result<(), AllocError>
        requires { list_any (λ other. other.number == source.number) self.old ≡ false }
        ensures pushed { OnOk result (self.new ≡ self.old ++ source ∷ []) }
        ensures unchanged { OnErr result (self.new ≡ self.old) }
    {
        let number = source.number();
        self.by_number.insert(number, source)?;
        Ok(())
    }

    /// Returns whether a source has this number.
    pub fn contains(&self, number: u32) -> bool
        ensures { result ≡ list_any (λ other. other.number == number) self.now }
    {
        self.by_number.contains_key(&number)
    }

    /// Returns the source with this number.
    pub fn get(&self, number: u32) -> Option<&Source>
        ensures { option_copied result ≡ source_of self.now number }
    {
        self.by_number.get(&number)
    }

    /// Returns the sources in the order of their lines.
    pub fn as_slice(&self) -> &[Source]
        ensures sources { result.now ≡ self.now }
        ensures distinct { AreDistinct (index_numbers result.now) }
    {
        let _ = self.by_number.len();
        self.by_number.values().as_slice()
    }
}

/// Returns the sources by their numbers, in the order of their lines.
pub fn by_number(sources: &Sources) -> &IndexMap<u32, Source>
    ensures sources { values result.now ≡ sources.now }
    ensures numbers { keys result.now ≡ index_numbers sources.now }
{
    let _ = sources.by_number.len();
    &sources.by_number
}

/// Makes sources of a map that has each source under its own number.
pub fn sources_by_number(by_number: IndexMap<u32, Source>) -> Sources
    requires { keys by_number ≡ index_numbers (values by_number) }
    ensures { result ≡ values by_number }
{
    Sources { by_number }
}
