// The sums of one block on both sides.
ghost use Rattle.std.specs.Prelude.{◌≡◌, ◌*◌, ◌≤◌, length};
ghost use Rattle.sampletime.specs.TimeCode.{day};

/// The sums of one block on both sides, interleaved, and the start time of the block in samples.
#[derive(Clone, Copy)]
pub struct BlockSums<'a> {
    pub sums: &'a [i64],
    pub others: &'a [i64],
    pub frames: usize,
    pub channels: u8,
    pub start: u64,
    ghost whole: { length sums.now ≡ frames * channels },
    ghost others_whole: { length others.now ≡ frames * channels },
    ghost few_frames: { frames ≤ 4096 },
    ghost some_channels: { 1 ≤ channels },
    ghost few_channels: { channels ≤ 64 },
    ghost in_day: { start ≤ day },
}
