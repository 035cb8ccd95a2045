// How much a consolidation saved.
use consolidate::Sizes;
use std::fmt;

/// How many bytes of samples a consolidation kept.
#[derive(Clone, Copy)]
pub struct Saved(pub Sizes);

impl fmt::Display for Saved {
    fn fmt<W: fmt::Write>(&self, f: &mut fmt::Formatter<W>) -> fmt::Result {
        let Sizes {
            sources,
            kept,
            written,
        } = self.0;
        write!(
            f,
            "kept {kept} of {sources} bytes of samples; wrote {written} bytes in all"
        )
    }
}
