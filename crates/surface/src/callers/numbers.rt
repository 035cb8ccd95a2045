// Refusal numbers of all errors.

use adlread::{AdlFault, Location, TextFault};
use adltoken::TokenFault;
use adlwrite::WriteFault;
use blockmachine::MachineFault;
use interval::IntervalFault;
use mediacopy::{CopyFault, LayoutFault};
use mediaset::RunFault;
use passes::PassFault;
use projectcheck::EventFault;
use relink::RelinkFault;
use renderplan::PlanFault;
use riff::MediaFault;
use shelf::{DeviceFault, ShelfFault};
use sourceindex::BindFault;
use wavwrite::HeaderFault;
use workboard::BoardFault;

/// Returns the refusal numbers of errors in a list.
pub fn of_lists(token: &TokenFault, list: &AdlFault, written: &WriteFault) -> [u8; 3] {
    [token.number(), list.number(), written.number()]
}

/// Returns the line that can't be split into tokens, and whether it has a byte that lists must not
/// contain.
pub fn line_of_token(fault: &TokenFault) -> (u64, bool) {
    let is_byte = match fault {
        TokenFault::BadByte { .. } => true,
        TokenFault::BadLine { .. } => false,
    };
    (fault.line(), is_byte)
}

/// Returns the location of a missing field.
pub fn missing_field(fault: &AdlFault) -> Option<Location> {
    match fault {
        AdlFault::Text {
            fault: TextFault::MissingField,
            location,
            ..
        } => Some(*location),
        _ => None,
    }
}

/// Returns the line of an error in a list, and its entry or index.
pub fn place_in_list(fault: &AdlFault) -> (u64, Option<u32>, Option<u32>) {
    (fault.line(), fault.entry(), fault.index())
}

/// Returns the refusal numbers of errors of devices.
pub fn of_devices(source: &ShelfFault, output: &DeviceFault) -> [u8; 2] {
    [source.number(), output.number()]
}

/// Returns the refusal numbers of errors of files and entries.
pub fn of_files(
    media: &MediaFault,
    bound: &BindFault,
    entry: &EventFault,
    header: &HeaderFault,
) -> [u8; 4] {
    [
        media.number(),
        bound.number(),
        entry.number(),
        header.number(),
    ]
}

/// Returns the refusal numbers of errors of groups and media.
pub fn of_groups(
    interval: &IntervalFault,
    pass: &PassFault,
    run: &RunFault,
    laid: &LayoutFault,
    copied: &CopyFault,
    linked: &RelinkFault,
) -> [u8; 6] {
    [
        interval.number(),
        pass.number(),
        run.number(),
        laid.number(),
        copied.number(),
        linked.number(),
    ]
}

/// Returns the refusal numbers of errors of renderings and boards.
pub fn of_work(plan: &PlanFault, machine: &MachineFault, board: &BoardFault) -> [u8; 3] {
    [plan.number(), machine.number(), board.number()]
}
