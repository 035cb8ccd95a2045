// Whole projects.
ghost use Rattle.std.specs.Prelude.{◌≡◌, ◌≤◌, [], IfOk, IsTrue, length};
ghost use Rattle.std.specs.List.{list_all};
ghost use Rattle.sampletime.specs.FrameRate.{frames_per_second, is_rate};
ghost use Rattle.sampletime.specs.TimeCode.{default_separators};
ghost use Rattle.list_terms.specs.Renewed as renewed;
ghost use Rattle.list_terms.specs.Renewed.{with_lists};
ghost use Rattle.list_terms.specs.WholeProject.{AreDistinct, AreEvents, AreSources, IsHeader, IsProject, entry_numbers, index_numbers, is_event, is_source};
ghost use Rattle.adlmodel.specs.Header.{header_view, project_of};

use crate::header::Header;
use crate::sources::Sources;
use list_terms::Notice;
use sampletime::{Rate, Separators};
use sound_terms::Event;
use std::alloc::AllocError;
use std::marker::Model;

/// A project: its header, the frame rate and the separators of its times, its sources and events in line order, and
/// the notices of reading it.
#[derive(Debug)]
pub struct Project {
    header: Header,
    rate: Rate,
    sources: Sources,
    events: Vec<Event>,
    separators: Separators,
    notices: Vec<Notice>,
}

// Written by hand so that callers drop a project with a single call.
impl Drop for Project {
    fn drop(self) {
        let Project {
            header,
            rate: _,
            sources,
            events,
            separators: _,
            notices,
        } = self;
        drop(header);
        drop(sources);
        drop(events);
        drop(notices);
    }
}

impl Model for Project {
    ghost use Rattle.list_terms.specs.Project.{ListProject};
    ghost use Rattle.list_terms.specs.WholeProject.{IsProject};
    ghost use Rattle.adlmodel.specs.Header.{project_of};

    ghost Value = { ListProject };

    ghost view = { λ p. project_of p.header p.rate p.sources p.events.items p.separators p.notices.items };

    ghost invariant = { λ p. IsProject (project_of p.header p.rate p.sources p.events.items p.separators p.notices.items) };
}

impl Project {
    /// Creates a project from its parts, at 48,000 samples a second and the given frame rate. A project without
    /// events must have the default separators.
    pub fn new(
        header: Header,
        rate: Rate,
        sources: Sources,
        events: Vec<Event>,
        separators: Separators,
        notices: Vec<Notice>,
    ) -> Self
        requires header { IsHeader (frames_per_second rate) (header_view header) }
        requires sources { AreSources sources }
        requires events { AreEvents events.items }
        requires standard { events.items ≡ [] → separators ≡ default_separators }
        ensures { result ≡ project_of header rate sources events.items separators notices.items }
    {
        let _ = separators.bytes();
        Project {
            header,
            rate,
            sources,
            events,
            separators,
            notices,
        }
    }

    /// Creates a project with other sources and events, but the same header and frame rate, and without notices.
    /// The separators stay the same, or become the default ones if there are no events.
    ///
    /// Returns `AllocError` if out of memory.
    pub fn with(&self, sources: Sources, events: Vec<Event>) -> Result<Project, AllocError>
        requires sources { AreSources sources }
        requires events { AreEvents events.items }
        ensures renewed { IfOk result (λ project. project ≡ with_lists self.now sources events.items) }
    {
        let header = self.header.try_copy()?;
        let separators = separators_for(&events, self.separators);
        let notices = Vec::new(*self.notices.allocator());
        Ok(Project::new(header, self.rate, sources, events, separators, notices))
    }

    /// Copies the project. Returns `AllocError` if out of memory.
    pub fn try_copy(&self) -> Result<Project, AllocError>
        ensures copy { IfOk result (λ copy. copy ≡ self.now) }
    {
        let header = self.header.try_copy()?;
        let sources = Sources::from_slice(*self.events.allocator(), self.sources.as_slice())?;
        let events = Vec::from_slice(*self.events.allocator(), self.events.as_slice())?;
        let notices = Vec::from_slice(*self.notices.allocator(), self.notices.as_slice())?;
        Ok(Project::new(header, self.rate, sources, events, self.separators, notices))
    }

    /// Returns the kept header lines.
    pub fn header(&self) -> &Header
        ensures header { header_view result.now ≡ self.now.header }
        ensures whole { IsProject self.now }
    {
        &self.header
    }

    /// Returns the sources in the order of their lines. There are at most 32,767, with distinct numbers.
    pub fn sources(&self) -> &Sources
        ensures sources { result.now ≡ self.now.sources }
        ensures again { AreSources result.now }
        ensures whole { IsTrue (list_all is_source result.now) }
        ensures distinct { AreDistinct (index_numbers result.now) }
        ensures few { length result.now ≤ 32767 }
    {
        &self.sources
    }

    /// Returns the entries in the order of their lines. There are at most 32,767, with distinct numbers.
    pub fn events(&self) -> &[Event]
        ensures events { result.now ≡ self.now.events }
        ensures again { AreEvents result.now }
        ensures whole { IsTrue (list_all is_event result.now) }
        ensures distinct { AreDistinct (entry_numbers result.now) }
        ensures few { length result.now ≤ 32767 }
    {
        self.events.as_slice()
    }

    /// Returns the frame rate at which times are written.
    pub fn rate(&self) -> Rate
        ensures rate { frames_per_second result ≡ self.now.rate }
        ensures known { IsTrue (is_rate self.now.rate) }
    {
        self.rate
    }

    /// Returns the separators with which times are written.
    pub fn separators(&self) -> Separators
        ensures { result ≡ self.now.separators }
    {
        self.separators
    }

    /// Returns the notices of reading the list: kind 1 for a skipped section, kind 2 for a dropped line of
    /// SOURCE_INDEX, each with its line number.
    pub fn notices(&self) -> &[Notice]
        ensures { result.now ≡ self.now.notices }
    {
        self.notices.as_slice()
    }
}

/// Returns the separators, or the default ones if there are no events.
fn separators_for(events: &Vec<Event>, separators: Separators) -> Separators
    ensures chosen { result ≡ renewed.separators_for events.now.items separators }
    ensures standard { events.now.items ≡ [] → result ≡ default_separators }
{
    if events.is_empty() {
        Separators::DEFAULT
    } else {
        separators
    }
}
