// A rendering as it is asked for, as it is planned, and as it was made.
ghost use Rattle.std.specs.Prelude.{◌≡◌};
ghost use Rattle.consolidate.specs.Approaches.{handing_of};

use crate::choice::{Clipping, RenderChoice};
use job_terms::{BoardEvent, Progress};
use projectcheck::Checked;
use rendering::{Order, Rendered, RenderingWork};

/// How jobs are handed out: in rounds of one worker until all are done, or by these events of any number of workers.
#[derive(Clone, Copy)]
pub(crate) enum HandingOut<'a> {
    Rounds,
    Events(&'a [BoardEvent]),
}

/// Whether a rendering is begun, or gone on with in rounds from the marks that are there.
#[derive(Clone, Copy)]
pub(crate) enum Approach<'a> {
    Anew(HandingOut<'a>),
    Again,
}

impl<'a> Approach<'a> {
    /// How its jobs are handed out.
    pub(crate) fn handing(self) -> HandingOut<'a>
        ensures { result ≡ handing_of self.entry }
    {
        match self {
            Approach::Anew(handing) => handing,
            Approach::Again => HandingOut::Rounds,
        }
    }
}

/// A rendering that is asked for: the text of its list, what is chosen, and how it is done.
#[derive(Clone, Copy)]
pub(crate) struct RenderRequest<'a, 'e> {
    pub list: &'a [u8],
    pub choice: RenderChoice,
    pub approach: Approach<'e>,
}

/// A planned rendering of the project, in this order, of which so many blocks were found to be marked, where any marks
/// were.
#[derive(Drop)]
pub(crate) struct Planned<'a, 'e> {
    pub work: RenderingWork<'a>,
    pub checked: &'a Checked,
    pub order: Order,
    pub approach: Approach<'e>,
    pub found: Option<u32>,
}

/// How far a rendering is, what it makes, how many of its blocks were marked before, and what was clipped of the
/// others.
#[derive(Clone, Copy)]
pub(crate) struct Made {
    pub progress: Progress,
    pub rendered: Rendered,
    pub marked: u32,
    pub clipping: Clipping,
}
