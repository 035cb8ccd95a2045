// The report of a consolidation.
ghost use Rattle.std.specs.Prelude.{◌≡◌, All, IfOk, IsTrue, map, string_bytes};
ghost use Rattle.serde_json.specs.View.{view};
ghost use Rattle.sound_terms.specs.Media.{IsRunOf};
ghost use Rattle.list_terms.specs.Heard.{sounds_of};
ghost use Rattle.devices.specs.Frame.{OnlyReads};
ghost use Rattle.provenance.specs.Asked.{asked_of};
ghost use Rattle.digests.specs.Fault.{FailsAt, IsDevice};
ghost use Rattle.digests.specs.Media.{IsTellable};
ghost use Rattle.provenance.specs.Report as spec;
ghost use Rattle.provenance.specs.Report.{IsReportOf, consolidation_data, report_data};

use crate::entries::{entry_values, group_values};
use crate::media::media_values;
use crate::notices::notice_values;
use crate::{Medium, ReportFault, ReportOn};
use adlmodel::Project;
use devices::Shelf;
use digests::{hashed_media, sums_text};
use lineage::{given_entries, group_entries, new_entries};
use mediaset::Runs;
use serde_json::{Map, Value, put};
use sha2::{Digest, Sha256};
use sound_terms::Event;
use sourceindex::Bound;
use std::alloc::{AllocError, Global};

/// Version of the report format.
const FORM: u32 = 6;

/// The report of a consolidation: the provenance of its media as one line of JSON (RFC 8259), and
/// the checksums of all files written, in the format of `sha256sum -c`.
#[derive(Debug, Drop)]
pub struct Report {
    pub json: Vec<u8>,
    pub sums: Vec<u8>,
}

/// Values of the media, of the groups, of the new entries and of the notices.
#[derive(Drop)]
struct Parts {
    media: Vec<Value>,
    groups: Vec<Value>,
    entries: Vec<Value>,
    notices: Vec<Value>,
}

/// Returns the JSON value of a report, from the digests of both lists in hexadecimal.
fn consolidation_value(
    alloc: Global,
    handle: u64,
    asked: ReportOn<'_>,
    given: String,
    new: String,
    parts: Parts,
) -> Result<Value, AllocError>
    ensures { IfOk result (λ value. view value
        ≡ consolidation_data handle asked.entry.program.now asked.entry.version.now (string_bytes given) (string_bytes new)
        (map view parts.media.items) (map view parts.groups.items) (map view parts.entries.items)
        (map view parts.notices.items)) }
{
    let Parts {
        media,
        groups,
        entries,
        notices,
    } = parts;
    let mut told = Map::new(alloc);
    put(&mut told, alloc, "entries", Value::Array(entries))?;
    put(&mut told, alloc, "form", Value::from(FORM))?;
    put(&mut told, alloc, "given_list_sha256", Value::String(given))?;
    put(&mut told, alloc, "groups", Value::Array(groups))?;
    put(&mut told, alloc, "handle", Value::from(handle))?;
    put(&mut told, alloc, "media", Value::Array(media))?;
    put(&mut told, alloc, "new_list_sha256", Value::String(new))?;
    put(&mut told, alloc, "notices", Value::Array(notices))?;
    let program = Value::try_from_str(alloc, asked.program)?;
    put(&mut told, alloc, "program", program)?;
    let version = Value::try_from_str(alloc, asked.version)?;
    put(&mut told, alloc, "version", version)?;
    Ok(Value::Object(told))
}

/// Returns the JSON value of a report, from the texts of both lists.
fn report_value(
    alloc: Global,
    handle: u64,
    asked: ReportOn<'_>,
    text: &[u8],
    parts: Parts,
) -> Result<Value, AllocError>
    ensures { IfOk result (λ value. view value ≡ report_data handle (asked_of asked.entry) text.now
        (map view parts.media.items) (map view parts.groups.items) (map view parts.entries.items)
        (map view parts.notices.items)) }
{
    let given = hex::encode(alloc, &Sha256::digest(asked.list))?;
    let new = hex::encode(alloc, &Sha256::digest(text))?;
    consolidation_value(alloc, handle, asked, given, new, parts)
}

/// Returns the text of the report, with its final line feed.
fn json_text(
    alloc: Global,
    project: &Project,
    bound: &Bound,
    runs: &Runs,
    events: &[Event],
    text: &[u8],
    handle: u64,
    asked: ReportOn<'_>,
    media: &[Medium],
) -> Result<Vec<u8>, AllocError>
    requires { All (IsTellable (sounds_of bound.now) runs.now.homes) media.now }
    ensures { IfOk result (λ json. json.items ≡ spec.json_of (record {
      project = project.now;
      binding = bound.now;
      kept = runs.now;
      events = events.now;
      text = text.now;
      handle = handle;
      asked = asked_of asked.entry;
    }) media.now) }
{
    let media = media_values(
        alloc,
        project.sources(),
        bound.indexes(),
        bound.sounds(),
        runs.homes(),
        media,
    )?;
    let given = given_entries(alloc, bound, project.events())?;
    let entries = new_entries(alloc, runs, events)?;
    let grouped = group_entries(alloc, &given, &entries)?;
    let groups = group_values(alloc, grouped.groups.as_slice())?;
    let entries = entry_values(alloc, &grouped.entries)?;
    let notices = notice_values(alloc, project.notices(), bound.notices())?;
    let parts = Parts {
        media,
        groups,
        entries,
        notices,
    };
    let report = report_value(alloc, handle, asked, text, parts)?;
    let line = report.to_string(alloc)?;
    let mut json = line.into_bytes();
    json.push(b'\n')?;
    Ok(json)
}

/// Returns the report of a consolidation into the given runs and handle: `events` and `text` are
/// the entries and the text of the new list. Reads the kept samples of the sources once, as they
/// are copied. If whole digests are requested, also reads each source of a medium from start to
/// end. Returns `ReportFault::Device` if a source can't be read, and `ReportFault::Memory` if out
/// of memory.
pub fn report_of<S: Shelf>(
    alloc: Global,
    project: &Project,
    bound: &Bound,
    runs: &Runs,
    events: &[Event],
    text: &[u8],
    handle: u64,
    asked: ReportOn<'_>,
    shelf: &mut S,
) -> Result<Report, ReportFault>
    requires { All (IsRunOf (sounds_of bound.now)) runs.now.runs }
    ensures report { IsTrue (S.honest shelf.old) → IfOk result (IsReportOf (S.stored shelf.old) (record {
      project = project.now;
      binding = bound.now;
      kept = runs.now;
      events = events.now;
      text = text.now;
      handle = handle;
      asked = asked_of asked.entry;
    })) }
    ensures only_reads { OnlyReads S.Shelf shelf.old shelf.new result IsDevice (FailsAt (sounds_of bound.now)) }
{
    let media = hashed_media(alloc, bound.sounds(), runs, asked.digests, shelf)?;
    let json = json_text(
        alloc, project, bound, runs, events, text, handle, asked, &media,
    )?;
    let sums = sums_text(alloc, &media, text, &json)?;
    Ok(Report { json, sums })
}
