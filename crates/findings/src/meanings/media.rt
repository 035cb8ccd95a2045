// Meanings of the refusal numbers 20 to 31: folders and their files.
use crate::meanings::{Meaning, Spot};

/// The meanings, in order.
pub static MEDIA: [Meaning; 13] = [
    Meaning {
        number: 20,
        spot: Spot::File,
        meaning: "the output isn't an empty folder",
        cause: "it doesn't exist, can't be listed or is at work, or something is in it",
        remedy: "make an empty folder and name that",
        is_answered: true,
    },
    Meaning {
        number: 21,
        spot: Spot::IndexFile,
        meaning: "there is no such file",
        cause: "the media folder has no file of that name, or its name is spelled differently",
        remedy: "put the file into the folder, or name the folder that has it",
        is_answered: true,
    },
    Meaning {
        number: 21,
        spot: Spot::File,
        meaning: "the list can't be read",
        cause: "it doesn't exist, is a folder, may not be read, or doesn't end",
        remedy: "check the path and its permissions",
        is_answered: true,
    },
    Meaning {
        number: 22,
        spot: Spot::IndexFile,
        meaning: "the file can't be read",
        cause: "the device failed, the file may not be read, or it was changed meanwhile; \
                a comparison names the file alone where that comes while it makes its sums",
        remedy: "check the file and its permissions, and run again into an empty folder",
        is_answered: true,
    },
    Meaning {
        number: 23,
        spot: Spot::IndexFile,
        meaning: "this isn't a WAVE file",
        cause: "it doesn't begin as RIFF or RF64 of form WAVE",
        remedy: "convert the file to WAVE",
        is_answered: true,
    },
    Meaning {
        number: 24,
        spot: Spot::IndexFile,
        meaning: "the file doesn't say its format",
        cause: "it has no 'fmt ' chunk",
        remedy: "convert the file again",
        is_answered: true,
    },
    Meaning {
        number: 25,
        spot: Spot::IndexFile,
        meaning: "the file has no sound",
        cause: "it has no 'data' chunk",
        remedy: "convert the file again",
        is_answered: true,
    },
    Meaning {
        number: 26,
        spot: Spot::IndexFile,
        meaning: "the file is cut off",
        cause: "a chunk is longer than the rest of the file: an interrupted copy, \
                or a recording that was never closed",
        remedy: "copy the file again, or repair its sizes",
        is_answered: true,
    },
    Meaning {
        number: 27,
        spot: Spot::IndexFile,
        meaning: "unsupported format",
        cause: "the file has floating point, 8 bits, a compressed format or more than 64 channels",
        remedy: "only integer PCM of 16, 24 or 32 bits is read: ffmpeg -i IN -c:a pcm_s24le -write_bext 1 OUT \
                keeps the TimeReference, and clips what lies above full scale",
        is_answered: true,
    },
    Meaning {
        number: 28,
        spot: Spot::IndexFile,
        meaning: "the ds64 chunk is wrong",
        cause: "an RF64 file has its sizes there (EBU Tech 3306); it is missing, too short or cut off",
        remedy: "convert the file again",
        is_answered: true,
    },
    Meaning {
        number: 29,
        spot: Spot::IndexFile,
        meaning: "the file has another sample rate",
        cause: "all sources must have 48000 samples a second",
        remedy: "convert the file to 48000, and its TimeReference with it, which counts samples at the file's own rate \
                and is left as it is by a conversion",
        is_answered: true,
    },
    Meaning {
        number: 30,
        spot: Spot::Index,
        meaning: "two files have the same name",
        cause: "an earlier index has a file of this name in another folder",
        remedy: "give one of them another name, in the list too",
        is_answered: true,
    },
    Meaning {
        number: 31,
        spot: Spot::IndexFile,
        meaning: "out of memory for the files",
        cause: "there are more files and indexes than free memory can hold",
        remedy: "free memory, or split the list",
        is_answered: true,
    },
];
