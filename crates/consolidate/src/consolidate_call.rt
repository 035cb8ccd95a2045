// Consolidates a list.
ghost use Rattle.std.specs.Prelude.{None, option_map};
ghost use Rattle.passes.specs.Left.{left_by};
ghost use Rattle.passes.specs.Standard.{AreStandard};
ghost use Rattle.sound_terms.specs.Passes.{standard_groups};
ghost use Rattle.consolidate.specs.Asked.{asked_on};
ghost use Rattle.consolidate.specs.Commands.{IsConsolidation};

use crate::Fault;
use crate::choice::{ConsolidateChoice, Keeping};
use crate::copy_call::{MediaRequest, copy_list};
use crate::report::report_on;
use crate::request::HandingOut;
use consolidation::Sizes;
use devices::{Bench, Shelf, Unwatched, Watch};
use list_terms::Notice;
use passes::Pass;
use std::alloc::Global;

/// What was written: so many media, and a list of so many entries; how many bytes that took; and what the given list's
/// user should know of.
#[derive(Debug, Drop)]
pub struct Written {
    pub media: u32,
    pub entries: u32,
    pub sizes: Sizes,
    pub notices: Vec<Notice>,
}

/// Consolidates a list over the sources of a shelf. The passes go over the pieces of its entries, one after the other;
/// the standard ones are `SplitFades`, `DropSilent`, `JoinCuts` and `Regroup`, which leave out what is silent. Kept are
/// the frames that the pieces play that are left, and those at most `handle` frames away. Each run of kept frames becomes
/// a medium (`M00001.wav` and so on, Broadcast Wave, EBU Tech 3285), with the channels, the depth and the texts of its
/// source and the time of its first frame as TimeReference; `consolidated.adl` is the list over these media. Whatever the
/// passes, it sounds as the given list does, sample for sample.
///
/// The list is refused first, then a file in the order of the source index, then an entry in the order of the list,
/// then more than 32,767 runs (53) or entries (55), and want of memory. All of these come before the first write, and no
/// memory is taken behind it. The media are laid out at their full length; then the pieces of their runs are jobs, done
/// in turn by one worker. A job whose device fails is done again; the third time it is given up (66). Outside the jobs a
/// device that fails ends the call at once (62). The list is written last, so an unfinished output has none.
pub fn consolidate<S: Shelf, B: Bench>(
    alloc: Global,
    list: &[u8],
    handle: u64,
    passes: Vec<Box<dyn Pass>>,
    shelf: &mut S,
    bench: &mut B,
) -> Result<Written, Fault>
    ensures consolidated { IsConsolidation S.Shelf B.Bench
        (left_by (λ pass. looking pass) (λ pass. gives pass) passes.items)
        list.now handle None shelf.old shelf.new bench.old bench.new result }
    ensures standard { AreStandard (λ pass. looking pass) (λ pass. gives pass) passes.items
        → IsConsolidation S.Shelf B.Bench standard_groups list.now handle None shelf.old shelf.new bench.old bench.new
        result }
{
    let choice = ConsolidateChoice {
        keeping: Keeping { handle, passes },
        report: None,
    };
    consolidate_watched(alloc, list, choice, shelf, bench, &mut Unwatched)
}

/// The same with a report, where one is asked for, and with a watch: `consolidated.json` says where each medium and each
/// entry comes from, with the digests of this list and of the new one, and `SHA256SUMS` has the checksums of all files, as
/// `sha256sum -c` takes them. A report is made before the first write, by one more reading of the kept frames, and of each
/// source as a whole, where it has the digests of these (52 where a source fails, 56 where no memory was left), and
/// written after the media, before the list. The watch is notified how many frames are looked at for silence, and then
/// after each job how many frames of all media are there.
pub fn consolidate_watched<S: Shelf, B: Bench, W: Watch>(
    alloc: Global,
    list: &[u8],
    choice: ConsolidateChoice<'_>,
    shelf: &mut S,
    bench: &mut B,
    watch: &mut W,
) -> Result<Written, Fault>
    ensures consolidated { IsConsolidation S.Shelf B.Bench
        (left_by (λ pass. looking pass) (λ pass. gives pass) choice.entry.keeping.passes.items)
        list.now choice.entry.keeping.handle (option_map (asked_on list.now) choice.entry.report)
        shelf.old shelf.new bench.old bench.new result }
    ensures standard { AreStandard (λ pass. looking pass) (λ pass. gives pass) choice.entry.keeping.passes.items
        → IsConsolidation S.Shelf B.Bench standard_groups list.now choice.entry.keeping.handle
        (option_map (asked_on list.now) choice.entry.report) shelf.old shelf.new bench.old bench.new result }
{
    let ConsolidateChoice { keeping, report } = choice;
    let request = MediaRequest {
        keeping,
        report: report_on(list, report),
        handing: HandingOut::Rounds,
    };
    match copy_list(alloc, list, request, shelf, bench, watch) {
        Ok(made) => {
            return Ok(Written {
                media: made.copied.written.media,
                entries: made.copied.written.entries,
                sizes: made.copied.written.sizes,
                notices: made.notices,
            });
        }
        Err(fault) => return Err(fault),
    }
}
