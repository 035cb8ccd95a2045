// A cache of equal sample ranges of two files; a hit is equal to a `read_match` of both ranges.
ghost use Rattle.std.specs.Prelude.{◌≡◌, ◌+◌, ◌-◌, ◌<◌, ◌≤◌, ℕ, IfSome, IsTrue};
ghost use Rattle.std.specs.List.{All};
ghost use Rattle.sound_terms.specs.Mix.{Reading};
ghost use Rattle.comparison.specs.Matched.{AreSameFrames, Follows};

use std::marker::Model;

/// Number of ranges in the cache.
const KEPT: usize = 32;

/// Equal ranges of two files: samples `frame` to `end` (exclusive) of a file of the first side, and
/// the same number of samples of a file of the second side from `other_frame` on, on channels 1 to
/// `channels`.
#[derive(Clone, Copy)]
pub struct Match {
    pub file: u32,
    pub frame: u64,
    pub end: u64,
    pub other_file: u32,
    pub other_frame: u64,
    pub channels: u8,
}

const NONE: Match = Match {
    file: 0,
    frame: 0,
    end: 0,
    other_file: 0,
    other_frame: 0,
    channels: 0,
};

/// Returns whether the later range begins within the earlier one or at its end, at the same
/// distance in both files.
fn follows(earlier: &Match, later: &Match) -> bool
    ensures { IsTrue result → Follows earlier.now later.now }
{
    if earlier.file != later.file || earlier.other_file != later.other_file {
        return false;
    }
    if earlier.channels != later.channels || later.frame < earlier.frame {
        return false;
    }
    later.frame <= earlier.end
        && later.other_frame >= earlier.other_frame
        && later.frame - earlier.frame == later.other_frame - earlier.other_frame
}

/// Extends a range by one that follows it.
fn continued(earlier: &Match, later: &Match) -> Match
    requires { Follows earlier.now later.now }
    ensures { (reading other : Reading) → AreSameFrames reading other earlier.now
        → AreSameFrames reading other later.now → AreSameFrames reading other result }
{
    Match {
        end: earlier.end.max(later.end),
        ..*earlier
    }
}

/// Merges two ranges if one follows the other.
fn joined(one: &Match, two: &Match) -> Option<Match>
    ensures { IfSome result (λ both. (reading other : Reading) → AreSameFrames reading other one.now
        → AreSameFrames reading other two.now → AreSameFrames reading other both) }
{
    if follows(one, two) {
        return Some(continued(one, two));
    }
    if follows(two, one) {
        return Some(continued(two, one));
    }
    None
}

/// The most recently found equal ranges. Contracts see the list of them.
#[derive(Drop)]
pub struct Matches {
    kept: [Match; KEPT],
    next: usize,
    ghost inside: { next < 32 },
}

impl Model for Matches {
    ghost use Rattle.std.specs.Prelude.{List};
    ghost use Rattle.comparison.specs.declared.matches.Match.{Match};

    ghost Value = { List Match };

    ghost view = { λ matches. matches.kept };
}

impl Matches {
    /// Creates an empty cache.
    pub fn new() -> Self
        ensures { (reading other : Reading) → All (AreSameFrames reading other) result }
    {
        Matches {
            kept: [NONE; KEPT],
            next: 0,
        }
    }

    /// Returns whether a cached range covers `wanted`.
    pub fn cover(&self, wanted: &Match) -> bool
        ensures { IsTrue result → (reading other : Reading) → All (AreSameFrames reading other) self.now
            → AreSameFrames reading other wanted.now }
    {
        for k in 0..KEPT {
            let found = self.kept[k];
            if follows(&found, wanted) && wanted.end <= found.end {
                return true;
            }
        }
        false
    }

    /// Adds a range, merged with the cached ranges that adjoin it. Replaces the oldest one.
    pub fn add(&mut self, more: Match)
        ensures { (reading other : Reading) → All (AreSameFrames reading other) self.old
            → AreSameFrames reading other more → All (AreSameFrames reading other) self.new }
    {
        let mut whole = more;
        for k in 0..KEPT {
            let found = self.kept[k];
            if let Some(both) = joined(&found, &whole) {
                whole = both;
                self.kept[k] = NONE;
            }
        }
        self.kept[self.next] = whole;
        self.next = (self.next + 1) % KEPT;
    }
}
