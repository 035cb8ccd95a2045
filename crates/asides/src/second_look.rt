// A second look at the source files of a refused list, for details of its faults.
use crate::beside::Asides;
use adlmodel::Project;
use adlread::read;
use findings::{FoundSound, Look, Near, Played};
use opening::Fault;
use projectcheck::EventFault;
use shelf::Shelf;
use sourceindex::{Bound, bind};
use std::alloc::Global;
use wavread::MediaFault;

/// Maximum number of missing files to search for.
const MOST_SEARCHES: usize = 100;

/// A list that was read and bound again.
#[derive(Drop)]
struct BoundList {
    project: Project,
    bound: Bound,
}

impl BoundList {
    /// Reads and binds the list over these sources.
    fn of<S: Shelf>(alloc: Global, list: &[u8], sources: &mut S) -> Option<BoundList> {
        let project = read(alloc, list).ok()?;
        let bound = bind(alloc, &project, sources).ok()?;
        Some(BoundList { project, bound })
    }

    /// Returns the details of an invalid entry.
    fn played(&self, alloc: Global, fault: EventFault) -> Option<Played> {
        let event = self
            .project
            .events()
            .iter()
            .find(|event| event.number == fault.entry)?;
        Some(Played::of(alloc, &self.bound, event, fault.fault))
    }
}

/// Takes a second look at the source files for one fault of the list.
pub fn look_at<A: Asides>(alloc: Global, list: &[u8], fault: &Fault, asides: &A) -> Look {
    SecondLook::new(asides.sources(alloc)).at(alloc, list, fault, asides)
}

/// The sources of a refused list, for a second look. Finds nothing if a source fails or if out of memory.
#[derive(Drop)]
pub struct SecondLook<S: Shelf + Drop> {
    sources: Option<S>,
    list: Option<BoundList>,
    /// Whether reading and binding the list was tried.
    is_list_tried: bool,
    searches: usize,
}

impl<S: Shelf + Drop> SecondLook<S> {
    /// Creates a second look at these sources.
    pub fn new(sources: Option<S>) -> Self {
        SecondLook {
            sources,
            list: None,
            is_list_tried: false,
            searches: 0,
        }
    }

    /// Returns the details of a fault of the list.
    pub fn at<A: Asides>(&mut self, alloc: Global, list: &[u8], fault: &Fault, asides: &A) -> Look {
        match fault {
            Fault::List(_) | Fault::SameName { .. } => Look::nothing(),
            Fault::Media {
                name: Some(name),
                fault,
                ..
            } => self.at_file(alloc, name.as_str(), *fault, asides),
            Fault::Media { name: None, .. } => Look::nothing(),
            Fault::Entry(fault) => Look {
                near: None,
                sound: None,
                played: self.at_entry(alloc, list, *fault),
            },
        }
    }

    /// Returns the details of a fault of the file with this name.
    fn at_file<A: Asides>(
        &mut self,
        alloc: Global,
        name: &str,
        fault: MediaFault,
        asides: &A,
    ) -> Look {
        Look {
            near: self.near(alloc, name, fault, asides),
            sound: match &mut self.sources {
                Some(sources) => FoundSound::of(sources, name, fault),
                None => None,
            },
            played: None,
        }
    }

    /// Returns where a missing file may be.
    fn near<A: Asides>(
        &mut self,
        alloc: Global,
        name: &str,
        fault: MediaFault,
        asides: &A,
    ) -> Option<Near> {
        if fault != MediaFault::NotFound || self.searches >= MOST_SEARCHES {
            return None;
        }
        self.searches = self.searches.saturating_add(1);
        asides.near(alloc, name)
    }

    /// Returns the details of an invalid entry. Reads and binds the list at the first call.
    fn at_entry(&mut self, alloc: Global, list: &[u8], fault: EventFault) -> Option<Played> {
        if !self.is_list_tried {
            self.is_list_tried = true;
            self.list = match &mut self.sources {
                Some(sources) => BoundList::of(alloc, list, sources),
                None => None,
            };
        }
        let bound_list = self.list.as_ref()?;
        bound_list.played(alloc, fault)
    }
}
