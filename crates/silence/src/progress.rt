// Progress of a search for silence.

use devices::Watch;

/// The progress of a search: reports to a watch how many sample frames of all pieces have been searched.
#[derive(Drop)]
pub struct Looking<'a, W: Watch> {
    watch: &'a mut W,
    answered: u64,
    whole: u64,
}

impl<'a, W: Watch> Looking<'a, W> {
    /// Creates the progress of a search over `whole` sample frames.
    pub fn new(watch: &'a mut W, whole: u64) -> Self {
        Looking {
            watch,
            answered: 0,
            whole,
        }
    }

    /// Reports that `frames` sample frames of the current piece have been searched.
    pub fn at(&mut self, frames: u64) {
        self.watch
            .looked(self.answered.saturating_add(frames), self.whole);
    }

    /// Reports that a piece of `frames` sample frames is done.
    pub fn answered(&mut self, frames: u64) {
        self.answered = self.answered.saturating_add(frames);
        self.at(0);
    }
}
