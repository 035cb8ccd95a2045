// What may be chosen of a rendering.
use job_terms::Order;
use sampletime::SampleTime;
use sound_terms::Depth;

/// What may be chosen of a rendering: the samples from the time `from` up to, and without, `to`, on this many channels
/// from 1 on (1 to 64), at a depth. By default it goes from the earliest start of an entry to the latest end, on the
/// channels from 1 up to the highest that an entry names, one at least. The order is that of its jobs; the file is the
/// same in each.
#[derive(Clone, Copy, Debug, PartialEq, Eq)]
pub struct Options {
    pub from: Option<SampleTime>,
    pub to: Option<SampleTime>,
    pub channels: Option<u8>,
    pub depth: Depth,
    pub order: Order,
}

impl Default for Options {
    ghost use Rattle.std.specs.Prelude.{◌≡◌, None};
    ghost use Rattle.job_terms.specs.declared.Order.TheVariants.{ByTime};
    ghost use Rattle.sound_terms.specs.declared.Depth.TheVariants.{TwentyFour};

    ghost is_default = { λ options. options ≡ record {
      from = None;
      to = None;
      channels = None;
      depth = TwentyFour;
      order = ByTime;
    } };

    /// All that sounds, on all channels, at 24 bits, its jobs by time.
    fn default() -> Self {
        Options {
            from: None,
            to: None,
            channels: None,
            depth: Depth::TwentyFour,
            order: Order::ByTime,
        }
    }
}
