// How far a long call has come.

/// Is told how far a call has come.
pub trait Watch {
    /// So many frames are there, of so many.
    fn reached(&mut self, done: u64, whole: u64);

    /// So many frames are looked at for silence, of so many.
    fn looked(&mut self, done: u64, whole: u64);
}

/// Tells nobody.
#[derive(Clone, Copy, Debug, PartialEq, Eq)]
pub struct Unwatched;

impl Watch for Unwatched {
    fn reached(&mut self, _done: u64, _whole: u64) {}

    fn looked(&mut self, _done: u64, _whole: u64) {}
}
