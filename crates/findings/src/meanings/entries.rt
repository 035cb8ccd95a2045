// Meanings of the refusal numbers 41 to 47: entries.
use crate::meanings::{Meaning, Spot};

/// The meanings, in order.
pub static ENTRIES: [Meaning; 7] = [
    Meaning {
        number: 41,
        spot: Spot::Entry,
        meaning: "the entry plays an unknown index",
        cause: "SOURCE_INDEX has no index of that number",
        remedy: "add the index, or correct the entry",
        is_answered: true,
    },
    Meaning {
        number: 42,
        spot: Spot::Entry,
        meaning: "the entry ends before it starts",
        cause: "its destination out is below its destination in",
        remedy: "correct its times",
        is_answered: true,
    },
    Meaning {
        number: 43,
        spot: Spot::Entry,
        meaning: "the fades are longer than the entry",
        cause: "in-fade and out-fade together are longer than from in to out",
        remedy: "shorten the fades",
        is_answered: true,
    },
    Meaning {
        number: 44,
        spot: Spot::Entry,
        meaning: "the file has fewer channels",
        cause: "the entry plays a source channel that its file lacks",
        remedy: "correct the channels, or name another file; a mono clip on two channels is two entries, one on each",
        is_answered: true,
    },
    Meaning {
        number: 45,
        spot: Spot::Nowhere,
        meaning: "out of memory for the check",
        cause: "there are more entries than free memory can hold",
        remedy: "free memory, or split the list",
        is_answered: false,
    },
    Meaning {
        number: 46,
        spot: Spot::Entry,
        meaning: "the entry plays what its file doesn't have",
        cause: "its source in lies before the file's first frame, or its length goes past the last one",
        remedy: "correct its source in or its length, or the time of its index; if the file was cut short, get the whole one",
        is_answered: true,
    },
    Meaning {
        number: 47,
        spot: Spot::Nowhere,
        meaning: "out of memory for the entries",
        cause: "there are more entries than free memory can hold, where two lists are compared those of both",
        remedy: "free memory, or split the list",
        is_answered: true,
    },
];
