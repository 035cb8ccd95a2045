// The played, kept and dropped parts of each file.
use crate::escaped::Escaped;
use crate::legend::put_box;
use crate::scale::{DRAWN, LEFT, Scale, Tenths};
use sound_terms::Run;
use std::fmt;
use wavread::Sound;

/// Height of a file's row and of its bar, in pixels.
const ROW: u64 = 40;

const BAR: u64 = 16;

/// The files, with their played runs and the runs kept with a handle of the given number of
/// samples.
#[derive(Clone, Copy)]
pub struct SourceBars<'a> {
    pub sounds: &'a [Sound],
    pub played: &'a [Run],
    pub kept: &'a [Run],
    pub handle: u64,
    pub top: u64,
}

/// Returns the number of samples of a file in runs.
fn frames_in(runs: &[Run], file: usize) -> u64 {
    let mut frames: u64 = 0;
    for run in runs {
        if run.file as usize == file {
            frames = frames.saturating_add(run.length);
        }
    }
    frames
}

/// Returns a number of samples in seconds.
fn seconds(frames: u64) -> Tenths {
    Tenths(frames / 4_800)
}

impl SourceBars<'_> {
    /// Returns the end of the last row, in pixels from the top.
    pub fn bottom(&self) -> u64 {
        (self.sounds.len() as u64)
            .saturating_mul(ROW)
            .saturating_add(self.top)
            .saturating_add(ROW)
    }

    /// Writes the legend, and a row for each file.
    pub fn put<W: fmt::Write>(&self, f: &mut fmt::Formatter<W>) -> fmt::Result {
        self.put_legend(f)?;
        let mut top = self.top.saturating_add(ROW);
        for (file, sound) in self.sounds.iter().enumerate() {
            self.put_file(f, file, sound, top)?;
            top = top.saturating_add(ROW);
        }
        Ok(())
    }

    /// Writes the legend.
    fn put_legend<W: fmt::Write>(&self, f: &mut fmt::Formatter<W>) -> fmt::Result {
        let text = self.top.saturating_add(24);
        let box_top = self.top.saturating_add(13);
        writeln!(
            f,
            "<text x='{LEFT}' y='{text}' font-weight='bold'>Files</text>"
        )?;
        writeln!(f, "<g stroke='#000'>")?;
        put_box(f, 220, box_top, "")?;
        put_box(f, 330, box_top, " fill-opacity='.25'")?;
        put_box(f, 660, box_top, " fill='#fff'")?;
        writeln!(f, "</g>")?;
        writeln!(f, "<text x='250' y='{text}'>played</text>")?;
        let handle = self.handle;
        writeln!(
            f,
            "<text x='360' y='{text}'>kept by a handle of {handle} frames</text>"
        )?;
        writeln!(f, "<text x='690' y='{text}'>dropped</text>")?;
        writeln!(
            f,
            "<text x='820' y='{text}'>each bar is a whole file</text>"
        )
    }

    /// Writes the text and the bar of a file.
    fn put_file<W: fmt::Write>(
        &self,
        f: &mut fmt::Formatter<W>,
        file: usize,
        sound: &Sound,
        top: u64,
    ) -> fmt::Result {
        let name = Escaped(sound.name());
        let frames = sound.frames();
        let played = frames_in(self.played, file);
        let kept = frames_in(self.kept, file);
        let all = seconds(frames);
        let (played, kept) = (seconds(played), seconds(kept));
        // The difference of the rounded numbers, so that the printed numbers add up.
        let dropped = Tenths(all.0.saturating_sub(kept.0));
        let text = top.saturating_add(12);
        let bar = top.saturating_add(17);
        write!(
            f,
            "<text x='{LEFT}' y='{text}'>{name}: {all} s, {played} s played, "
        )?;
        writeln!(f, "{kept} s kept, {dropped} s dropped</text>")?;
        write!(
            f,
            "<rect x='{LEFT}' y='{bar}' width='{DRAWN}' height='{BAR}'"
        )?;
        writeln!(f, " fill='#fff' stroke='#000'/>")?;
        let scale = Scale::new(0, frames);
        writeln!(f, "<g fill-opacity='.25'>")?;
        put_runs(f, self.kept, file, scale, bar)?;
        writeln!(f, "</g>")?;
        put_runs(f, self.played, file, scale, bar)
    }
}

/// Writes the runs of a file in its bar.
fn put_runs<W: fmt::Write>(
    f: &mut fmt::Formatter<W>,
    runs: &[Run],
    file: usize,
    scale: Scale,
    bar: u64,
) -> fmt::Result {
    for run in runs {
        if run.file as usize == file {
            let from = scale.position(run.first);
            let width = scale.width(run.length);
            writeln!(
                f,
                "<rect x='{from}' y='{bar}' width='{width}' height='{BAR}'/>"
            )?;
        }
    }
    Ok(())
}
