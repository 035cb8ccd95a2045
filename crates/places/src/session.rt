// One run of the program.
use crate::media::Manner;

/// What each command over folders works with: the file system, what the words ask for beside the request, and the line
/// that shows how far it has come.
#[derive(Drop)]
pub struct Session<'a, R, L> {
    pub rt: &'a R,
    pub manner: Manner,
    pub line: &'a L,
}
