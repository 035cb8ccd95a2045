// JSON values of media.
ghost use Rattle.std.specs.Prelude.{◌≡◌, IfOk, map, option_copied};
ghost use Rattle.std.specs.List.{All};
ghost use Rattle.serde_json.specs.View.{view};
ghost use Rattle.digests.specs.Media.{IsTellable};
ghost use Rattle.provenance.specs.Report as spec;
ghost use Rattle.provenance.specs.Report.{known_digest, medium_data, medium_told, origin_data, text_data};

use crate::Medium;
use adlmodel::{Source, Sources};
use relink::media_name;
use serde_json::{Map, Value, json, push, put};
use sound_terms::{BoundIndex, Homes};
use std::alloc::{AllocError, Global};
use std::str;
use wavread::Sound;

/// Returns the bytes as a string if they are UTF-8, otherwise null.
fn text_value(alloc: Global, bytes: &[u8]) -> Result<Value, AllocError>
    ensures { IfOk result (λ value. view value ≡ text_data bytes.now) }
{
    match str::from_utf8(bytes) {
        Ok(text) => Value::try_from_str(alloc, text),
        Err(_) => Ok(Value::Null),
    }
}

/// Returns the digest as 64 hexadecimal digits, or null.
fn digest_value(alloc: Global, digest: &Option<[u8; 32]>) -> Result<Value, AllocError>
    ensures { IfOk result (λ value. view value ≡ known_digest digest.now) }
{
    match digest {
        Some(digest) => {
            let digits = hex::encode(alloc, digest)?;
            Value::try_from_str(alloc, digits.as_str())
        }
        None => Ok(Value::Null),
    }
}

/// Returns the line of the source index for the home index of a file.
fn home_source<'a>(
    sources: &'a Sources,
    indexes: &[BoundIndex],
    homes: &Homes,
    file: u32,
) -> Option<&'a Source>
    ensures { option_copied result ≡ spec.home_source sources.entry.now indexes.now homes.now file }
{
    let index = indexes.get(homes.position(file) as usize)?;
    sources.get(index.number)
}

/// Returns the origin of a medium.
fn origin_value(
    alloc: Global,
    sound: &Sound,
    first: u64,
    source: Option<&Source>,
    digest: &Option<[u8; 32]>,
) -> Result<Value, AllocError>
    ensures { IfOk result (λ value. view value
        ≡ origin_data sound.now first (option_copied source.entry) digest.now) }
{
    let file = sound.name();
    let sha256 = digest_value(alloc, digest)?;
    let Some(source) = source else {
        return json!(in alloc; {
            "file": file,
            "first": first,
            "identifier": null,
            "index": null,
            "sha256": sha256,
            "url": null
        });
    };
    let identifier = text_value(alloc, source.uid())?;
    let index = source.number();
    let url = text_value(alloc, source.url())?;
    json!(in alloc; {
        "file": file,
        "first": first,
        "identifier": identifier,
        "index": index,
        "sha256": sha256,
        "url": url
    })
}

/// Returns the value of a medium whose first sample is at time `base`.
fn medium_value(
    alloc: Global,
    sound: &Sound,
    base: u64,
    origin: Value,
    medium: &Medium,
) -> Result<Value, AllocError>
    ensures { IfOk result (λ value. view value ≡ medium_data sound.now base (view origin) medium.now) }
{
    let file = media_name(alloc, medium.number)?;
    let digits = hex::encode(alloc, &medium.digest)?;
    let mut told = Map::new(alloc);
    put(&mut told, alloc, "base", Value::from(base))?;
    put(&mut told, alloc, "channels", Value::from(sound.channels()))?;
    put(&mut told, alloc, "depth", Value::from(sound.depth().bits()))?;
    put(&mut told, alloc, "file", Value::String(file))?;
    put(&mut told, alloc, "frames", Value::from(medium.run.length))?;
    put(&mut told, alloc, "sha256", Value::String(digits))?;
    put(&mut told, alloc, "source", origin)?;
    Ok(Value::Object(told))
}

/// Returns the value of a medium, with its origin.
fn told_value(
    alloc: Global,
    sources: &Sources,
    indexes: &[BoundIndex],
    sounds: &[Sound],
    homes: &Homes,
    medium: &Medium,
) -> Result<Value, AllocError>
    requires { IsTellable sounds.now homes.now medium.now }
    ensures { IfOk result (λ value. view value
        ≡ medium_told sources.now indexes.now sounds.now homes.now medium.now) }
{
    let file = medium.run.file;
    let sound = &sounds[file as usize];
    let source = home_source(sources, indexes, homes, file);
    let origin = origin_value(alloc, sound, medium.run.first, source, &medium.source)?;
    let base = homes.base(file) + medium.run.first;
    medium_value(alloc, sound, base, origin, medium)
}

/// Returns the values of media over open files. Returns `AllocError` if out of memory.
pub fn media_values(
    alloc: Global,
    sources: &Sources,
    indexes: &[BoundIndex],
    sounds: &[Sound],
    homes: &Homes,
    media: &[Medium],
) -> Result<Vec<Value>, AllocError>
    requires { All (IsTellable sounds.now homes.now) media.now }
    ensures { IfOk result (λ values. map view values.items
        ≡ map (medium_told sources.now indexes.now sounds.now homes.now) media.now) }
{
    let mut values = Vec::with_capacity(alloc, media.len())?;
    for medium in media {
        let value = told_value(alloc, sources, indexes, sounds, homes, medium)?;
        push(&mut values, value)?;
    }
    Ok(values)
}
