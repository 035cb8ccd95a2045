// Sources that record reads.
use shelf::{MemoryShelf, Shelf, ShelfFault};

/// Sources that record the range of sample bytes read.
#[derive(Drop)]
pub struct Recorded {
    shelf: MemoryShelf,
    /// Offset of the samples in the file.
    samples: u64,
    least: u64,
    behind: u64,
    /// Number of reads of samples, and number of bytes read.
    reads: u32,
    bytes: u64,
}

impl Recorded {
    /// Wraps sources whose file has its samples from offset `samples` on.
    pub fn new(shelf: MemoryShelf, samples: u64) -> Self {
        Recorded {
            shelf,
            samples,
            least: u64::MAX,
            behind: 0,
            reads: 0,
            bytes: 0,
        }
    }

    /// Returns the number of reads of samples.
    pub fn reads(&self) -> u32 {
        self.reads
    }

    /// Returns the number of sample bytes read.
    pub fn bytes(&self) -> u64 {
        self.bytes
    }

    /// Returns the range of sample bytes read since the last call, as offsets from the first
    /// sample, or `None` if there was no read. Resets the range.
    pub fn take_range(&mut self) -> Option<(u64, u64)> {
        let range = if self.least < self.behind {
            Some((self.least, self.behind))
        } else {
            None
        };
        self.least = u64::MAX;
        self.behind = 0;
        range
    }
}

impl Shelf for Recorded {
    ghost stored = { λ it. ⟦<MemoryShelf as Shelf>⟧.stored it.shelf };

    ghost honest = { λ it. ⟦<MemoryShelf as Shelf>⟧.honest it.shelf };

    ghost failures = { λ it. ⟦<MemoryShelf as Shelf>⟧.failures it.shelf };

    ghost failed_at = { λ it. ⟦<MemoryShelf as Shelf>⟧.failed_at it.shelf };

    fn length(&mut self, name: &str) -> Result<u64, ShelfFault> {
        self.shelf.length(name)
    }

    fn read_at(&mut self, name: &str, at: u64, buffer: &mut [u8]) -> Result<(), ShelfFault> {
        let first = at.saturating_sub(self.samples);
        let end = at
            .saturating_add(buffer.len() as u64)
            .saturating_sub(self.samples);
        if first < end {
            self.least = self.least.min(first);
            self.behind = self.behind.max(end);
            self.reads = self.reads.saturating_add(1);
            self.bytes = self.bytes.saturating_add(end - first);
        }
        self.shelf.read_at(name, at, buffer)
    }
}
