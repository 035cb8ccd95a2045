// Renderings interrupted at each of their calls, and interrupted again after a resume, until they
// are complete.
use crate::tests::works::{Call, Job, MARKS, RENDERED_BY_EVENTS, SOUND, bench_of};
use shelf::MemoryBench;
use std::alloc::{AllocError, Global};
use std::process::Abort;
use std::test::Fail;
use trials_projects::recorded::Recorded;

/// Upper bound of the number of output calls.
const MANY: u64 = 1_000;

/// Effect of a crash on the bytes of each call since the last sync of its file.
#[derive(Clone, Copy)]
struct Left {
    /// Number of leading bytes kept.
    kept: u64,
    /// Value of all other bytes.
    fill: u8,
}

/// No bytes, one byte and all bytes kept; filled with zeros, with marks and with neither.
const LEFT: [Left; 7] = [
    Left { kept: 0, fill: 0 },
    Left { kept: 0, fill: 1 },
    Left { kept: 0, fill: 7 },
    Left { kept: 1, fill: 0 },
    Left { kept: 1, fill: 1 },
    Left { kept: 1, fill: 7 },
    Left {
        kept: u64::MAX,
        fill: 0,
    },
];

/// The files of a rendering on disk.
#[derive(PartialEq, Eq, Drop)]
struct Files {
    sound: Option<Vec<u8>>,
    marks: Option<Vec<u8>>,
}

fn copied(alloc: Global, bytes: Option<&[u8]>) -> Result<Option<Vec<u8>>, AllocError> {
    match bytes {
        Some(bytes) => Ok(Some(bytes.to_vec(alloc)?)),
        None => Ok(None),
    }
}

impl Files {
    fn none() -> Self {
        Files {
            sound: None,
            marks: None,
        }
    }

    fn of(alloc: Global, bench: &MemoryBench) -> Result<Self, AllocError> {
        Ok(Files {
            sound: copied(alloc, bench.bytes(SOUND))?,
            marks: copied(alloc, bench.bytes(MARKS))?,
        })
    }

    fn bench(&self, alloc: Global) -> Result<MemoryBench, Fail> {
        let sound = self.sound.as_ref().map(|bytes| bytes.as_slice());
        let marks = self.marks.as_ref().map(|bytes| bytes.as_slice());
        bench_of(alloc, sound, marks)
    }

    /// Returns the marks of the blocks, one byte each, if there are marks.
    fn blocks(&self) -> Option<&[u8]> {
        let marks = self.marks.as_ref()?;
        if *marks.first()? == 1 {
            marks.get(44..)
        } else {
            None
        }
    }

    /// Returns the number of marked blocks.
    fn marked(&self) -> u64 {
        match self.blocks() {
            Some(blocks) => blocks.iter().filter(|block| **block == 1).count() as u64,
            None => 0,
        }
    }
}

/// Returns one of seven, in turn.
fn one_of(lefts: &[Left], turn: u64) -> &[Left] {
    let place = (turn % 7) as usize;
    lefts.get(place..place + 1).unwrap_or(&[])
}

/// Runs of one rendering.
#[derive(Drop)]
struct Runs {
    job: Job,
    shelf: Recorded,
    /// The first call of a resumed run that is interrupted, and the distance between interrupted
    /// calls.
    first: u64,
    every: u64,
    /// Number of resumed renderings that were completed.
    ended: u32,
}

impl Runs {
    fn new(job: Job, every: u64) -> Result<Self, Fail> {
        let shelf = job.recorded()?;
        Ok(Runs {
            job,
            shelf,
            first: 0,
            every,
            ended: 0,
        })
    }

    /// Returns the files after a run over these files is interrupted at a call and crashes, or
    /// `None` if the run has fewer calls.
    fn stopped(
        &mut self,
        files: &Files,
        by: Call,
        call: u64,
        left: Left,
    ) -> Result<Option<Files>, Fail> {
        let alloc = self.job.alloc;
        let mut bench = files.bench(alloc)?.stop_at(call, left.kept);
        if self.job.run_by(by, &mut self.shelf, &mut bench)?.is_ok() {
            return Ok(None);
        }
        let bench = bench.after_crash(left.kept, left.fill)?;
        Ok(Some(Files::of(alloc, &bench)?))
    }

    /// Resumes with these files and checks that the rendering is complete and that no sample of a
    /// marked block was read.
    fn ends(&mut self, rt: &impl Abort, files: &Files) -> Result<(), Fail> {
        let mut bench = files.bench(self.job.alloc)?;
        let marked = files.marked();
        self.shelf.take_range();
        let resumed = self.job.resume(&mut self.shelf, &mut bench)?;
        assert_eq!(rt; u64::from(resumed.marked), marked);
        assert_eq!(rt;
            self.shelf.take_range(),
            self.job.range_behind(marked),
            "{marked}"
        );
        assert!(rt; self.job.is_whole(&bench), "{marked}");
        assert!(rt; self.job.is_marked(&bench), "{marked}");
        self.ended = self.ended.saturating_add(1);
        Ok(())
    }

    /// Interrupts a resumed run over these files, then resumes it to its end. Tries all of `lefts`
    /// if every call is interrupted, otherwise one of them in turn.
    fn stop_again(&mut self, rt: &impl Abort, files: &Files, lefts: &[Left]) -> Result<(), Fail> {
        for turn in 0..MANY {
            let call = self.first.saturating_add(turn.saturating_mul(self.every));
            let lefts = if self.every == 1 {
                lefts
            } else {
                one_of(lefts, call)
            };
            for left in lefts {
                let Some(again) = self.stopped(files, Call::Resume, call, *left)? else {
                    self.first = self.first.saturating_add(1) % self.every.max(1);
                    return Ok(());
                };
                // the files are often unchanged
                if again != *files {
                    self.ends(rt, &again)?;
                }
            }
        }
        Err("it never ends".into())
    }

    /// Interrupts a new run at each call, resumes it, and interrupts that run too. If not every
    /// call is interrupted, a run without marks isn't interrupted again, as it starts over, and as
    /// long as no marks file exists only one of `lefts` is tried.
    fn stop_each(&mut self, rt: &impl Abort, by: Call, lefts: &[Left]) -> Result<u64, Fail> {
        let mut is_begun = self.every == 1;
        for call in 0..MANY {
            let mut met: Vec<Files> = Vec::new(self.job.alloc);
            let lefts = if is_begun { lefts } else { one_of(lefts, call) };
            for left in lefts {
                let Some(files) = self.stopped(&Files::none(), by, call, *left)? else {
                    return Ok(call);
                };
                is_begun = is_begun || files.marks.is_some();
                if met.iter().all(|earlier| *earlier != files) {
                    self.ends(rt, &files)?;
                    if self.every == 1 || files.blocks().is_some() {
                        self.stop_again(rt, &files, lefts)?;
                    }
                    met.push(files)?;
                }
            }
        }
        Err("it never ends".into())
    }
}

/// Interrupts the rendering of three blocks, by rounds and by events, at each call, and the resumed
/// run at each call again, with each of these effects of a crash.
fn sweep(rt: &impl Abort, alloc: Global, lefts: &[Left]) -> Result<(), Fail> {
    for by in [Call::Render, RENDERED_BY_EVENTS] {
        let mut runs = Runs::new(Job::new(alloc, by)?, 1)?;
        let calls = runs.stop_each(rt, by, lefts)?;
        // the files are created, and each block is written, synced, marked and synced
        assert!(rt; calls > 20, "{calls}");
        assert!(rt; runs.ended > 100, "{}", runs.ended);
    }
    Ok(())
}

#[test]
fn crashes_that_keep_nothing(rt: HostRuntime) -> Result<(), Fail> {
    sweep(&rt, rt.alloc(), &LEFT[..3])
}

#[test]
fn crashes_that_keep_a_byte(rt: HostRuntime) -> Result<(), Fail> {
    sweep(&rt, rt.alloc(), &LEFT[3..6])
}

#[test]
fn crashes_that_keep_all(rt: HostRuntime) -> Result<(), Fail> {
    sweep(&rt, rt.alloc(), &LEFT[6..])
}

#[test]
fn crashes_within_jobs_of_many_blocks(rt: HostRuntime) -> Result<(), Fail> {
    let mut runs = Runs::new(Job::of_many_blocks(rt.alloc())?, 5)?;
    let calls = runs.stop_each(&rt, Call::Render, &LEFT)?;
    assert!(rt; calls > 20, "{calls}");
    assert!(rt; runs.ended > 120, "{}", runs.ended);
    Ok(())
}
