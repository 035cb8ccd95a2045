// Meanings of refusal numbers. Help, explanations and README agree with this table.
ghost use Rattle.std.specs.Prelude.{◌≡◌, IfSome, IsNone, IsOk};

mod entries;
mod lists;
mod media;
mod work;

use entries::ENTRIES;
use lists::LISTS;
use media::MEDIA;
use std::fmt;
use std::fmt::Display;
use thiserror::Error;
use work::WORK;

/// The kind of location reported with a refusal number.
#[derive(Clone, Copy, Debug, PartialEq, Eq)]
pub enum Spot {
    Nowhere,
    Line,
    File,
    IndexFile,
    Index,
    Entry,
    Job,
}

/// The meaning of a refusal number with this kind of location, its cause and its remedy.
#[derive(Clone, Copy, Debug, PartialEq, Eq)]
pub struct Meaning {
    pub number: u8,
    pub spot: Spot,
    pub meaning: &'static str,
    pub cause: &'static str,
    pub remedy: &'static str,
    /// Whether this version returns the refusal.
    pub is_answered: bool,
}

/// Highest refusal number.
const MOST: u8 = 69;

/// Returns the sorted part of the table with this number. Number 21 has two meanings: for an index, and for the list
/// itself.
fn meanings_beside(number: u8) -> &'static [Meaning] {
    match number {
        0..=19 => &LISTS,
        20..=31 => &MEDIA,
        32..=47 => &ENTRIES,
        _ => &WORK,
    }
}

/// Returns the meaning of the number with this kind of location, or else with any.
pub fn meaning_at(number: u8, spot: Spot) -> Option<Meaning>
    ensures { IfSome result (λ meaning. meaning.number ≡ number) }
{
    let part = meanings_beside(number);
    let there = part
        .iter()
        .find(|meaning| meaning.number == number && meaning.spot == spot);
    let anywhere = part.iter().find(|meaning| meaning.number == number);
    there.or(anywhere).copied()
}

/// No refusal has the given number.
#[derive(Clone, Copy, Debug, PartialEq, Eq, Error)]
#[error("error: no refusal has this number; 'adlcons explain' tells all of them")]
pub struct NoSuchNumber;

/// The meaning of one refusal number, or of all.
#[derive(Clone, Copy)]
pub struct Explained {
    number: Option<u8>,
}

/// Parses a refusal number; `None` means all numbers. Returns `NoSuchNumber` if no refusal has this number.
pub fn meanings_of(number: Option<&str>) -> Result<Explained, NoSuchNumber>
    ensures { IsNone number.entry → IsOk result }
{
    let Some(text) = number else {
        return Ok(Explained { number: None });
    };
    let number = text.parse::<u8>().map_err(|_| NoSuchNumber)?;
    match meaning_at(number, Spot::Nowhere) {
        Some(_) => Ok(Explained {
            number: Some(number),
        }),
        None => Err(NoSuchNumber),
    }
}

impl fmt::Display for Explained {
    fn fmt<W: fmt::Write>(&self, f: &mut fmt::Formatter<W>) -> fmt::Result {
        for number in 1..=MOST {
            if self.number.is_none_or(|asked| asked == number) {
                fmt_meanings(number, f)?;
            }
        }
        Ok(())
    }
}

/// Writes each meaning of a number.
fn fmt_meanings<W: fmt::Write>(number: u8, f: &mut fmt::Formatter<W>) -> fmt::Result {
    for meaning in meanings_beside(number) {
        if meaning.number == number {
            meaning.fmt(f)?;
        }
    }
    Ok(())
}

impl fmt::Display for Meaning {
    fn fmt<W: fmt::Write>(&self, f: &mut fmt::Formatter<W>) -> fmt::Result {
        writeln!(f, "{:02}{}: {}.", self.number, self.spot, self.meaning)?;
        writeln!(f, "    Cause: {}.", self.cause)?;
        writeln!(f, "    Remedy: {}.", self.remedy)?;
        if self.is_answered {
            Ok(())
        } else {
            f.write_str("    This version doesn't answer it.\n")
        }
    }
}

impl fmt::Display for Spot {
    fn fmt<W: fmt::Write>(&self, f: &mut fmt::Formatter<W>) -> fmt::Result {
        f.write_str(match self {
            Spot::Nowhere => "",
            Spot::Line => " at line N",
            Spot::File => " at file NAME",
            Spot::IndexFile => " at index N file NAME",
            Spot::Index => " at index N",
            Spot::Entry => " at entry N",
            Spot::Job => " at job N",
        })
    }
}
