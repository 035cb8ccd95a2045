// Indexes for runs.
ghost use Rattle.std.specs.Prelude.{◌≡◌, ◌≤◌, ◌++◌, IfOk, codes};
ghost use Rattle.sampletime.specs.TimeCode.{day};
ghost use Rattle.list_terms.specs.Renewed as spec;
ghost use Rattle.list_terms.specs.Renewed.{numbered, run_source};
ghost use Rattle.mediaset.specs.Runs.{AreIndexable, EndsInDay};

use crate::names::media_name;
use adlmodel::{Bytes, Source, Sources};
use mediaset::Runs;
use sampletime::SampleTime;
use sound_terms::{Homes, Run};
use std::alloc::{AllocError, Global};

/// The URL of the media folder.
const FOLDER: &[u8] = b"URL:file://localhost/";

/// Converts a number of samples, at most a day, to a time.
pub(crate) fn time_of(samples: u64) -> SampleTime
    requires { samples ≤ day }
    ensures { result ≡ samples }
{
    SampleTime::new(samples).unwrap_or(SampleTime::DAY)
}

/// Returns the URL of a medium.
fn url_of(alloc: Global, number: u32) -> Result<Bytes, AllocError>
    ensures { IfOk result (λ url. url ≡ codes "URL:file://localhost/" ++ spec.media_name number) }
{
    let name = media_name(alloc, number)?;
    let mut url = Vec::from_slice(alloc, FOLDER)?;
    url.extend_from_slice(name.as_bytes())?;
    Ok(Bytes::from(url))
}

/// Returns the index of a run.
fn index_of(alloc: Global, homes: &Homes, number: u32, run: &Run) -> Result<Source, AllocError>
    requires { EndsInDay homes.now run.now }
    ensures { IfOk result (λ source. source ≡ run_source homes.now number run.now) }
{
    let url = url_of(alloc, number)?;
    let uid = Bytes::from_slice(alloc, b"_")?;
    let start = time_of(homes.base(run.file) + run.first);
    let length = time_of(run.length);
    Ok(Source::new(number, url, uid, Some(start), Some(length)))
}

/// Returns the indexes of the runs, numbered from 1.
pub(crate) fn indexes_of(alloc: Global, runs: &Runs) -> Result<Sources, AllocError>
    ensures indexes { IfOk result (λ sources. sources ≡ numbered (run_source runs.now.homes) 1 runs.now.runs) }
    ensures sound { AreIndexable runs.now }
{
    let homes = runs.homes();
    let list = runs.as_slice();
    let mut sources = Sources::new(alloc);
    for (position, run) in list.iter().enumerate() {
        let source = index_of(alloc, homes, position as u32 + 1, run)?;
        sources.push(source)?;
    }
    Ok(sources)
}
