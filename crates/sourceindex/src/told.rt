// An index and its file: the time of the first sample, the reach, and notices.
ghost use Rattle.std.specs.Prelude.{◌≡◌, ◌++◌, OnOk};
ghost use Rattle.list_terms.specs.Binding as spec;
ghost use Rattle.list_terms.specs.Binding.{addressable_from, notice_if};
ghost use Rattle.sourceindex.specs.Taken.{is_other_base};

use adlmodel::Source;
use list_terms::Notice;
use sampletime::SampleTime;
use sound_terms::BoundIndex;
use std::alloc::AllocError;
use wavread::Sound;

fn time_reference(sound: &Sound) -> Option<u64>
    ensures { result ≡ sound.now.time_reference }
{
    match sound.bext() {
        Some(bext) => Some(bext.time_reference),
        None => None,
    }
}

/// Returns the time of the file's first sample: the index's in, or else the TimeReference of the file's `bext` (EBU
/// Tech 3285), or else midnight.
fn base_of(source: &Source, sound: &Sound) -> u64
    ensures { result ≡ spec.base_of source.now sound.now }
{
    match source.start() {
        Some(start) => start.get(),
        None => time_reference(sound).unwrap_or(0),
    }
}

/// Returns the index of a source, bound to the file at this position. Its reach ends with the file or the day.
pub fn index_over(source: &Source, sound: &Sound, file: u32) -> BoundIndex
    ensures { result ≡ record {
      number = source.now.number;
      file = file;
      base = spec.base_of source.now sound.now;
      addressable = addressable_from (spec.base_of source.now sound.now) sound.now;
    } }
{
    let base = base_of(source, sound);
    let left = SampleTime::DAY.get().saturating_sub(base);
    BoundIndex {
        number: source.number(),
        file,
        base,
        addressable: sound.frames().min(left),
    }
}

/// Adds a notice at an index if `is_reported` is set.
pub fn tell_if(
    notices: &mut Vec<Notice>,
    is_reported: bool,
    kind: u8,
    number: u32,
) -> Result<(), AllocError>
    ensures { OnOk result (notices.new.items ≡ notices.old.items ++ notice_if is_reported kind number) }
{
    if is_reported {
        notices.push(Notice {
            kind,
            at: u64::from(number),
        })?;
    }
    Ok(())
}

/// Returns whether the file's TimeReference differs from the base of the index.
fn tells_other_base(source: &Source, sound: &Sound) -> bool
    ensures { result ≡ is_other_base source.now sound.now }
{
    match time_reference(sound) {
        Some(reference) => reference != base_of(source, sound),
        None => false,
    }
}

/// Adds the notices of an index and, if its file is new, those for the file.
pub fn tell(
    notices: &mut Vec<Notice>,
    source: &Source,
    sound: &Sound,
    is_new: bool,
) -> Result<(), AllocError>
    ensures { OnOk result (notices.new.items ≡ notices.old.items ++ spec.notices_of is_new source.now sound.now) }
{
    let number = source.number();
    tell_if(notices, tells_other_base(source, sound), 4, number)?;
    tell_if(notices, is_new && sound.short_bext(), 5, number)?;
    tell_if(notices, is_new && sound.others(), 6, number)?;
    tell_if(notices, is_new && sound.history_cut(), 7, number)?;
    Ok(())
}
