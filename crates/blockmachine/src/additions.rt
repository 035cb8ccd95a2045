// Upper bound of the number of stretches added to any sample of a block.
ghost use Rattle.std.specs.Prelude.{◌≡◌, ◌+◌, ◌^◌, ◌<◌};
ghost use Rattle.blockmachine.specs.Sums.{Counts, few_additions};

use sound_terms::Stretch;

/// The maximum number of stretches added at any sample frame. From frame `fewer_from` on it is one
/// less. A layer that is added in consecutive parts counts once.
#[derive(Clone, Copy, Drop)]
pub struct Additions {
    pub most: u32,
    pub fewer_from: u32,
}

impl Additions {
    /// Returns the bound after one more stretch is added.
    pub fn with(self, stretch: &Stretch) -> Self
        requires inside { stretch.now.at + stretch.now.length < 2 ^ 32 }
        ensures from { result.fewer_from ≡ stretch.now.at + stretch.now.length }
        ensures counted { result.most < few_additions → Counts self.most self.fewer_from stretch.now.at result.most }
    {
        let is_part = self.most > 0 && self.fewer_from <= stretch.at;
        Additions {
            most: if is_part {
                self.most
            } else {
                self.most.saturating_add(1)
            },
            fewer_from: stretch.at + stretch.length,
        }
    }
}
