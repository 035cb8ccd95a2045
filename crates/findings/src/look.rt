// What a second look at the media finds about a fault of a list.
use crate::found_sound::FoundSound;
use crate::names::PrintedName;
use crate::played::Played;
use std::fmt;
use std::fmt::Display;

/// Where a missing file may be.
#[derive(Drop)]
pub enum Near {
    /// Under this name, which differs only in case or in its form of Unicode.
    Spelled(String),
    /// In this folder below the media folder, where it wasn't looked for.
    Folder(String),
    /// In this folder below the media folder, from which it wasn't taken.
    NotTaken(String),
    /// Under this name, the part after the last `\`.
    Backslash(String),
}

impl Near {
    /// What to do about it.
    fn remedy(&self) -> &'static str {
        match self {
            Near::Spelled(_) => {
                "rename that file, or write its name in the list as it is in the folder"
            }
            Near::Folder(_) => "add --search, or put it into the folder itself",
            Near::NotTaken(_) => "put the right file into the folder itself",
            Near::Backslash(_) => "correct the list, in which \\ is a part of the name",
        }
    }
}

impl fmt::Display for Near {
    fn fmt<W: fmt::Write>(&self, f: &mut fmt::Formatter<W>) -> fmt::Result {
        match self {
            Near::Spelled(name) => {
                let name = PrintedName(name.as_str());
                write!(
                    f,
                    "the folder has {name}, in other capitals or another form of Unicode (NFC, NFD)"
                )
            }
            Near::Folder(folder) => {
                let folder = PrintedName(folder.as_str());
                write!(f, "found in {folder}/")
            }
            Near::NotTaken(folder) => {
                let folder = PrintedName(folder.as_str());
                write!(f, "found in {folder}/ and not taken")
            }
            Near::Backslash(name) => {
                let name = PrintedName(name.as_str());
                write!(f, "{name} is there: write / for \\")
            }
        }
    }
}

/// What a second look at the media found about a fault: where a missing file may be, what a file is that isn't read, and
/// what an entry plays.
#[derive(Drop)]
pub struct Look {
    pub near: Option<Near>,
    pub sound: Option<FoundSound>,
    pub played: Option<Played>,
}

impl Look {
    /// Nothing was found.
    pub fn nothing() -> Look {
        Look {
            near: None,
            sound: None,
            played: None,
        }
    }

    /// What to do, where that is another thing than the number says.
    pub fn remedy(&self) -> Option<&'static str> {
        match (&self.near, &self.sound) {
            (Some(near), _) => Some(near.remedy()),
            (None, Some(sound)) => sound.remedy(),
            (None, None) => None,
        }
    }

    /// Writes what was found to be at fault, behind these words; nothing where nothing was.
    pub fn fmt_cause<W: fmt::Write>(&self, f: &mut fmt::Formatter<W>) -> fmt::Result {
        match (&self.sound, &self.played) {
            (Some(sound), _) => sound.fmt(f),
            (None, Some(played)) => played.fmt(f),
            (None, None) => Ok(()),
        }
    }

    /// Whether it was found what is at fault.
    pub fn has_cause(&self) -> bool {
        self.sound.is_some() || self.played.is_some()
    }
}
