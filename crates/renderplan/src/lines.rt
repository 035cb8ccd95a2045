// Instructions for the pieces that are audible in a block.
ghost use Rattle.std.specs.Prelude.{◌≡◌, ◌+◌, ◌≤◌, ◌++◌, length, option_to_list};
ghost use Rattle.std.specs.List.{flat_map};
ghost use Rattle.sampletime.specs.TimeCode.{day};
ghost use Rattle.sound_terms.specs.Groups.{IsPiece};
ghost use Rattle.sound_terms.specs.Blocks.{lines_of};

use crate::reach::Reached;
use sound_terms::{Instruction, Piece, Program, Stretch};

/// The extent of a block: `frames` sample frames from time `from` on, on channels 1 to `channels`.
#[derive(Clone, Copy)]
pub struct Window {
    pub from: u64,
    pub frames: u32,
    pub channels: u8,
    ghost in_day: { from + frames ≤ day },
    ghost few_channels: { channels ≤ 64 },
}

/// Returns the instruction for the part of a piece within the window, or `None` if there is no such
/// part.
fn line_of(piece: &Piece, window: Window) -> Option<Instruction>
    requires { IsPiece piece.now }
    ensures { option_to_list result ≡ lines_of window.from window.frames window.channels piece.now }
{
    let first = window.from.max(piece.start);
    let last = (window.from + u64::from(window.frames)).min(piece.start + piece.length);
    if first >= last || piece.dest > window.channels {
        return None;
    }
    let stretch = Stretch {
        at: (first - window.from) as u32,
        length: (last - first) as u32,
        frame: piece.frame + (first - piece.start),
        file: piece.file,
        first: piece.first,
        dest: piece.dest,
        width: piece.width.min(window.channels + 1 - piece.dest),
    };
    let shape = piece.shape.after(first - piece.start);
    Some(Instruction::adding(stretch, shape))
}

impl Reached {
    /// Adds one instruction for each piece that is audible in the window to a program with enough
    /// room.
    pub fn push_lines(&self, window: Window, program: &mut Program)
        requires { length program.old.lines + length self.now ≤ program.old.room }
        ensures few { length program.new.lines ≤ length program.old.lines + length self.now }
        ensures written { program.new ≡ record program.old {
          lines = program.old.lines ++ flat_map (lines_of window.from window.frames window.channels) self.now;
        } }
    {
        let pieces = self.pieces();
        let mut next = self.next_near(0, window);
        while next < pieces.len() {
            if let Some(line) = line_of(&pieces[next], window) {
                program.push(line);
            }
            next = self.next_near(next + 1, window);
        }
    }
}
