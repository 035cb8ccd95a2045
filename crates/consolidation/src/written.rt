// What a consolidation tells of what it wrote.

/// How many bytes a consolidation had, kept and wrote; the greatest number of 64 bits where there are more.
#[derive(Clone, Copy, Debug, Default, PartialEq, Eq)]
pub struct Sizes {
    /// The samples of all files that the list uses.
    pub sources: u64,
    /// The samples of the frames that are kept of them.
    pub kept: u64,
    /// All files that were written: the media with their headers, and the list.
    pub written: u64,
}

/// What was written: so many media, and a list of so many entries.
#[derive(Clone, Copy, Debug, PartialEq, Eq)]
pub struct Written {
    /// The media, at most 32,767.
    pub media: u32,
    /// The entries of the list, at most 32,767.
    pub entries: u32,
    /// The bytes of what was there and of what was written.
    pub sizes: Sizes,
}
