// What a command found at its output before it made its bench.
use super::identity::Identity;
use std::alloc::{AllocError, Global};
use std::collections::BTreeMap;
use std::fs::Metadata;

/// The output folder and the files that may be replaced in it, as a command found them before its first write. A bench
/// that is made with it syncs in no other folder and writes to no other existing file.
#[derive(Drop)]
pub struct FoundOutput {
    alloc: Global,
    folder: Option<Identity>,
    /// The existing files that may be written to, by name. Absent if the folder wasn't examined.
    files: Option<BTreeMap<String, Identity>>,
}

impl FoundOutput {
    /// Creates the record of a folder that wasn't examined: any plain file in it may be written to.
    pub fn unknown(alloc: Global) -> Self {
        FoundOutput {
            alloc,
            folder: None,
            files: None,
        }
    }

    /// Creates the record of an empty folder: no existing file may be written to.
    pub fn empty(alloc: Global) -> Self {
        FoundOutput {
            alloc,
            folder: None,
            files: Some(BTreeMap::new(alloc)),
        }
    }

    /// Records the folder by the metadata of its open handle.
    pub fn set_folder(&mut self, found: &Metadata) {
        self.folder = Some(Identity::of(found));
    }

    /// Records the file of a name, which may be written to as long as it is the file of the name.
    pub fn add(&mut self, name: &str, found: &Metadata) -> Result<(), AllocError> {
        let name = String::from_str(self.alloc, name)?;
        if let Some(files) = &mut self.files {
            files.insert(name, Identity::of(found))?;
        }
        Ok(())
    }

    /// Returns the identity of the folder, if it is known.
    pub fn folder(&self) -> Option<Identity> {
        self.folder
    }

    /// Returns whether this existing file may be written to under this name.
    pub fn allows(&self, name: &str, file: Identity) -> bool {
        match &self.files {
            Some(files) => files.get(name) == Some(&file),
            None => true,
        }
    }
}
