// The home index of each file. `homes_by` is equal to calling `home_among` for each file, but takes one pass.
ghost use Rattle.std.specs.Prelude.{◌≡◌, ◌^◌, ◌<◌, List, [], IfOk, length, map, unwrap_or};
ghost use Rattle.list_terms.specs.Binding.{OpenedFile};
ghost use Rattle.list_terms.specs.BoundHomes as spec;
ghost use Rattle.list_terms.specs.BoundHomes.{homes_from, no_home};
ghost use Rattle.sourceindex.specs.Homes.{AreLeast, least_so_far};

use sound_terms::{BoundIndex, Home};
use std::alloc::{AllocError, Global};

/// The home of a file without an index, which no binding has.
const NO_HOME: Home = Home {
    base: 0,
    addressable: 0,
    position: 0,
};

/// Returns `files` files without homes.
fn no_homes(alloc: Global, files: usize) -> Result<Vec<Option<Home>>, AllocError>
    ensures none { IfOk result (λ homes. AreLeast homes.items []) }
    ensures count { IfOk result (λ homes. length homes.items ≡ files) }
{
    vec![in alloc; None; files]
}

/// Returns the home with the smaller base, or the earlier one if the bases are equal.
fn least(home: Option<Home>, later: Home) -> Home
    ensures { result ≡ least_so_far home later }
{
    match home {
        Some(home) => if home.base <= later.base { home } else { later },
        None => later,
    }
}

fn home_at(position: u32, index: &BoundIndex) -> Home
    ensures { result ≡ spec.home_at position index.now }
{
    Home {
        base: index.base,
        addressable: index.addressable,
        position,
    }
}

/// Returns the home index of a file: the first of its indexes with the smallest base, or `None` if it has none.
pub fn home_among(indexes: &[BoundIndex], file: u32) -> Option<Home>
    requires { length indexes.now < 2 ^ 32 }
    ensures { result ≡ spec.home_from 0 indexes.now file }
{
    let mut home = None;
    for (i, index) in indexes.iter().enumerate() {
        if index.file == file {
            home = Some(least(home, home_at(i as u32, index)));
        }
    }
    home
}

/// Returns the home index of each file, or `None` for files without an index. Returns an error if out of memory or
/// if positions don't fit in 32 bits.
fn least_homes(
    alloc: Global,
    indexes: &[BoundIndex],
    files: usize,
) -> Result<Vec<Option<Home>>, AllocError>
    ensures least { IfOk result (λ homes. AreLeast homes.items indexes.now) }
    ensures count { IfOk result (λ homes. length homes.items ≡ files) }
{
    let mut homes = no_homes(alloc, files)?;
    for (i, index) in indexes.iter().enumerate() {
        let Ok(position) = u32::try_from(i) else {
            return Err(AllocError);
        };
        let home = home_at(position, index);
        let file = index.file as usize;
        if file < homes.len() {
            homes[file] = Some(least(homes[file], home));
        }
    }
    Ok(homes)
}

/// Unwraps the homes of files that all have one.
fn filled(alloc: Global, least: &[Option<Home>]) -> Result<Vec<Home>, AllocError>
    ensures { IfOk result (λ homes. homes.items ≡ map (λ home. unwrap_or home no_home) least.now) }
{
    least
        .iter()
        .map(|home| home.unwrap_or(NO_HOME))
        .collect(alloc)
}

/// Returns the home of each of the first `files` files.
pub fn homes_by(
    alloc: Global,
    indexes: &[BoundIndex],
    files: usize,
) -> Result<Vec<Home>, AllocError>
    ensures { (opened : List OpenedFile) → length opened ≡ files
        → IfOk result (λ homes. homes.items ≡ homes_from indexes.now 0 opened) }
{
    let least = least_homes(alloc, indexes, files)?;
    filled(alloc, least.as_slice())
}
