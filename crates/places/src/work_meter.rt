// How far a command's work has come.
use crate::progress::Progress;
use asides::Meter;
use commandline::Request;
use devices::Watch;

/// What stands behind the frames of a rendering: it is still there to be read once Ctrl-C has stopped the program, which
/// no program of the kit can catch.
const STOPPED: &str = " (if stopped, adlcons resume goes on)";

/// What a command's work reports to the line that shows how far it has come.
#[derive(Drop)]
pub struct WorkMeter<'a, L: Progress> {
    line: &'a L,
    can_resume: bool,
}

impl<'a, L: Progress> WorkMeter<'a, L> {
    /// Of a work that can't be resumed.
    pub fn new(line: &'a L) -> Self {
        WorkMeter {
            line,
            can_resume: false,
        }
    }

    /// Of the work of a request.
    pub fn of_request(line: &'a L, request: Request<'_>) -> Self {
        let can_resume = matches!(request, Request::Render(_, _) | Request::Resume(_, _));
        WorkMeter { line, can_resume }
    }
}

impl<L: Progress> Watch for WorkMeter<'_, L> {
    fn reached(&mut self, done: u64, whole: u64) {
        let how = if self.can_resume { STOPPED } else { "" };
        self.line.reached(done, whole, how);
    }

    fn looked(&mut self, done: u64, whole: u64) {
        self.line.reached(done, whole, " looked at for silence");
    }
}

impl<L: Progress> Meter for WorkMeter<'_, L> {
    fn clear(&mut self) {
        self.line.clear();
    }
}
