// The channels on which samples were clipped.
ghost use Rattle.std.specs.Prelude.{◌≡◌, ◌<◌, ◌++◌, ◌||◌, OnOk, decimal};
ghost use Rattle.serde_json.specs.Written.{comma_if};
ghost use Rattle.devices.specs.Frame.{Appends};
ghost use Rattle.renderreport.specs.Parts.{all_of, channel_text, item_text, listed};
ghost use Rattle.renderreport.specs.Report.{channels_of, is_marked, report_name};

use crate::texts::{Part, put};
use devices::{Bench, DeviceFault};

/// Appends the 1-based numbers of the channels whose bits are set, separated by commas.
#[tactic(auto, unfolding(crate::specs::Report::channels_of))]
pub fn put_channels<B: Bench>(bench: &mut B, mask: u64) -> Result<(), DeviceFault>
    ensures { Appends B.Bench report_name (listed (channels_of mask)) bench.old bench.new result }
{
    let mut is_later = false;
    for channel in 0..64u32 {
        put_channel(bench, mask, channel, &mut is_later)?;
    }
    Ok(())
}

/// Appends the number of a channel, counted from 0, if its bit is set, preceded by a comma unless it is the first.
fn put_channel<B: Bench>(
    bench: &mut B,
    mask: u64,
    channel: u32,
    is_later: &mut bool,
) -> Result<(), DeviceFault>
    requires { channel < 64 }
    ensures appends { Appends B.Bench report_name (channel_text is_later.old mask channel) bench.old bench.new result }
    ensures later { OnOk result (is_later.new ≡ (is_later.old || is_marked mask channel)) }
{
    if has_channel(mask, channel) {
        put_item(bench, *is_later, channel + 1)?;
        *is_later = true;
    }
    Ok(())
}

/// Returns whether the bit of the channel is set. Channels count from 0.
fn has_channel(mask: u64, channel: u32) -> bool
    requires { channel < 64 }
    ensures { result ≡ is_marked mask channel }
{
    mask >> channel & 1 == 1
}

/// Appends a number, preceded by a comma unless it is the first.
#[tactic(auto, unfolding(crate::specs::Parts::item_text, crate::specs::Parts::all_of))]
fn put_item<B: Bench>(bench: &mut B, is_later: bool, number: u32) -> Result<(), DeviceFault>
    ensures { Appends B.Bench report_name (item_text is_later number) bench.old bench.new result }
{
    let digits = Part::Number(u128::from(number));
    if is_later {
        put(bench, &[Part::Plain(b","), digits])
    } else {
        put(bench, &[digits])
    }
}
