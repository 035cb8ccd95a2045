// The first file and sample that are audible in a block.
ghost use Rattle.std.specs.Prelude.{◌≡◌, ◌+◌, ◌≤◌, if◌then◌else◌, IfSome, None, Some};
ghost use Rattle.sound_terms.specs.Groups.{IsPiece};
ghost use Rattle.renderplan.specs.Sources as spec;
ghost use Rattle.renderplan.specs.Sources.{IsInDay, sounds_in, source_at};

use crate::lines::Window;
use crate::reach::Reached;
use sound_terms::Piece;

/// Returns the file of a piece and the first sample of it in the window, or `None` if the piece is
/// silent there.
fn heard_first(piece: &Piece, window: Window) -> Option<(u32, u64)>
    requires { IsPiece piece.now }
    ensures source { result ≡ (if sounds_in window.from window.frames window.channels piece.now
        then Some (source_at window.from piece.now) else None) }
    ensures in_day { IfSome result IsInDay }
{
    let first = window.from.max(piece.start);
    let last = (window.from + u64::from(window.frames)).min(piece.start + piece.length);
    if first >= last || piece.dest > window.channels {
        return None;
    }
    Some((piece.file, piece.frame + (first - piece.start)))
}

impl Reached {
    /// Returns the file and the first sample of the first piece that is audible in the window, or
    /// `None` if all are silent.
    pub fn first_source(&self, window: Window) -> Option<(u32, u64)>
        ensures source { result ≡ spec.first_source window.from window.frames window.channels self.now }
        ensures in_day { IfSome result IsInDay }
    {
        let pieces = self.pieces();
        let mut next = self.next_near(0, window);
        while next < pieces.len() {
            if let Some(source) = heard_first(&pieces[next], window) {
                return Some(source);
            }
            next = self.next_near(next + 1, window);
        }
        None
    }
}
