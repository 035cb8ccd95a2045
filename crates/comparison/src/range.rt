// Selection of the samples and channels to compare.
ghost use Rattle.std.specs.Prelude.{◌≡◌, ◌<◌, ◌≤◌, ◌++◌, max, min, IsTrue};
ghost use Rattle.std.specs.List.{list_all};
ghost use Rattle.list_terms.specs.Accepted.{greatest_of, least_of};
ghost use Rattle.list_terms.specs.WholeProject.{is_event};
ghost use Rattle.comparison.specs.Range.{HasChannels, compared_in};

use adlmodel::Project;
use sampletime::SampleTime;

/// The part of two projects to compare: samples from time `from` to time `to` (exclusive), on
/// channels 1 to `channels` (1 to 64). By default it runs from the earliest start of an entry to the
/// latest end, of both projects, on channels 1 up to the highest that an entry names.
#[derive(Clone, Copy, Debug, PartialEq, Eq)]
pub struct Selection {
    pub from: Option<SampleTime>,
    pub to: Option<SampleTime>,
    pub channels: Option<u8>,
}

impl Default for Selection {
    ghost use Rattle.std.specs.Prelude.{◌≡◌, None};

    ghost is_default = { λ selection. selection ≡ record { from = None; to = None; channels = None } };

    /// Selects everything audible, on all channels.
    fn default() -> Self {
        Selection {
            from: None,
            to: None,
            channels: None,
        }
    }
}

/// A possibly empty range of samples, `from` to `to` (exclusive), on channels from 1 on.
#[derive(Clone, Copy)]
pub struct Extent {
    pub from: SampleTime,
    pub to: SampleTime,
    pub channels: u8,
    ghost some_channels: { 1 ≤ channels },
    ghost few_channels: { channels ≤ 64 },
}

/// A non-empty range of samples, `from` to `to` (exclusive), on channels from 1 on.
#[derive(Clone, Copy)]
pub struct Region {
    pub from: SampleTime,
    pub to: SampleTime,
    pub channels: u8,
    ghost some_time: { from < to },
    ghost some_channels: { 1 ≤ channels },
    ghost few_channels: { channels ≤ 64 },
}

/// Returns the start of the first entry of either project, or 0 if there are no entries.
fn first_in_both(first: &Project, second: &Project) -> SampleTime
    ensures { result ≡ least_of (λ event. event.dest_in) (first.now.events ++ second.now.events) }
{
    let events = first.events();
    let others = second.events();
    if events.is_empty() {
        second.first_in()
    } else if others.is_empty() {
        first.first_in()
    } else {
        first.first_in().min(second.first_in())
    }
}

/// Returns the range that a selection denotes for two projects.
pub fn compared_in(selection: &Selection, first: &Project, second: &Project) -> Extent
    requires { HasChannels selection.now }
    ensures from { result.from ≡ (compared_in selection.now first.now.events second.now.events).from }
    ensures to { result.to ≡ (compared_in selection.now first.now.events second.now.events).to }
    ensures channels { result.channels ≡ (compared_in selection.now first.now.events second.now.events).channels }
    ensures whole { IsTrue (list_all is_event (first.now.events ++ second.now.events)) }
{
    let from = first_in_both(first, second);
    let to = first.last_out().max(second.last_out());
    let channels = first.last_channel().max(second.last_channel());
    let _ = first.events();
    let _ = second.events();
    Extent {
        from: selection.from.unwrap_or(from),
        to: selection.to.unwrap_or(to),
        channels: selection.channels.unwrap_or(channels),
    }
}
