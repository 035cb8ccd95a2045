//! What is printed besides an answer: what a second look at the sources finds for a refused list, further faults, meanings
//! of notices, and how many bytes the outputs of a list take. No contract specifies these texts. A `Terminal` holds standard
//! output, standard error, the progress line and these.
//!
//! Proved: the place of a project's fault is that of its definition (`project_place`), and the search for further faults
//! only reads the sources (`tell_further`).
#![tactic(auto)]

mod beside;
mod changed;
mod explainer;
mod further;
mod kept;
mod meter;
mod place;
mod reach;
mod room;
mod second_look;
mod terminal;
mod told;

pub use beside::{Asides, AsidesOfTwo, FEW_FAULTS, NoAsides};
pub use changed::ChangedSources;
pub use explainer::{Explainer, explained_unread};
pub use further::tell_further;
pub use meter::Meter;
pub use place::project_place;
pub use room::{DEFAULT_HANDLE, media_size, rendering_info, rendering_size, report_room, room_of};
pub use second_look::look_at;
pub use terminal::Terminal;
pub use told::{tell_changed, tell_meanings, tell_meanings_of_two};
