// Sources and outputs in a folder of the file system. Each test has its own folder in the working
// directory.
use crate::tests::calls::{Call, Row, made, reads};
use shelf::{
    Bench, FolderBench, FolderShelf, FolderStores, FoundOutput, Overwrite, Reasons, Shelf,
    ShelfFault,
};
use std::fs;
use std::io::ErrorKind;
use std::os::unix::fs::symlink;
use std::test::Fail;

/// Creates an empty folder.
fn fresh_folder(rt: &HostRuntime, folder: &str) -> Result<(), Fail> {
    let _ = fs::remove_dir_all(rt, folder);
    fs::create_dir(rt, folder)?;
    Ok(())
}

/// Creates a folder with the file `A.wav` (`abcdef`), a symbolic link to it and the folder `in`.
fn filled_folder(rt: &HostRuntime, folder: &str) -> Result<(), Fail> {
    fresh_folder(rt, folder)?;
    fs::write(rt, format!(in rt.alloc(); "{folder}/A.wav")?, "abcdef")?;
    fs::create_dir(rt, format!(in rt.alloc(); "{folder}/in")?)?;
    symlink(rt, "A.wav", format!(in rt.alloc(); "{folder}/link.wav")?)?;
    Ok(())
}

/// Expected reads from the filled folder.
const READ: [Row; 8] = [
    ("A.wav", 2, Ok(*b"cdef")),
    ("A.wav", 0, Ok(*b"abcd")),
    ("A.wav", 1, Ok(*b"bcde")),
    ("A.wav", 3, Err(ShelfFault::Device)),
    ("A.wav", u64::MAX, Err(ShelfFault::Device)),
    ("B.wav", 0, Err(ShelfFault::Device)),
    ("in", 0, Err(ShelfFault::Device)),
    ("../folder_shelf/A.wav", 0, Err(ShelfFault::Device)),
];

/// Names that denote no file directly in a folder.
const NO_NAMES: [&str; 8] = [
    "", ".", "..", "/", "../A.wav", "in/B.wav", "A.wav/", "A.wav\0",
];

/// Returns whether none of these names is found.
fn finds_none(shelf: &mut impl Shelf) -> bool {
    let mut finds_none = true;
    for name in &NO_NAMES {
        finds_none = finds_none & (shelf.length(name) == Err(ShelfFault::NotFound));
    }
    finds_none
}

#[test]
fn a_folder_shelf_reads_plain_files_inside_it(rt: HostRuntime) -> Result<(), Fail> {
    filled_folder(&rt, "folder_shelf")?;
    let mut shelf = FolderShelf::new(rt.alloc(), &rt, "folder_shelf")?;
    reads(&rt, &mut shelf, &READ);
    assert!(rt; finds_none(&mut shelf));
    let lengths = [
        shelf.length("A.wav"),
        shelf.length("B.wav"),
        shelf.length("in"),
    ];
    assert_eq!(rt;
        lengths,
        [Ok(6), Err(ShelfFault::NotFound), Err(ShelfFault::Device)]
    );
    assert_eq!(rt; shelf.failures(), 6);
    fs::remove_dir_all(&rt, "folder_shelf")?;
    Ok(())
}

/// Returns whether every call with this name fails.
fn all_fail(bench: &mut impl Bench, name: &str) -> bool {
    bench.create(name).is_err()
        & bench.append(name, &[1]).is_err()
        & bench.append_zeros(name, 1).is_err()
        & bench.write_at(name, 0, &[]).is_err()
        & bench.sync(name).is_err()
        & (bench.length(name) == Err(ShelfFault::Device))
        & (bench.read_at(name, 0, &mut []) == Err(ShelfFault::Device))
}

/// Returns whether every call fails with each of these names and with a folder.
fn writes_none(bench: &mut impl Bench) -> bool {
    let mut writes_none = all_fail(bench, "in");
    for name in &NO_NAMES {
        writes_none = writes_none & all_fail(bench, name);
    }
    writes_none
}

/// Calls that succeed in an empty folder.
const WRITTEN: [Call; 7] = [
    Call::Create("B.wav"),
    Call::Append("B.wav", &[1, 2, 3]),
    Call::Append("B.wav", &[0]),
    Call::Zeros("B.wav", 1),
    Call::Append("B.wav", &[4]),
    Call::Write("B.wav", 1, &[20, 30]),
    Call::Sync("B.wav"),
];

/// Calls on a missing file, and outside of an existing one.
const OUTSIDE: [Call; 5] = [
    Call::Append("C.wav", &[]),
    Call::Zeros("C.wav", 1),
    Call::Sync("C.wav"),
    Call::Write("B.wav", 5, &[7, 8]),
    Call::Write("B.wav", u64::MAX, &[7, 8]),
];

#[test]
fn a_folder_bench_writes_inside_its_files(rt: HostRuntime) -> Result<(), Fail> {
    fresh_folder(&rt, "folder_bench")?;
    let mut bench = FolderBench::new(rt.alloc(), &rt, "folder_bench", Overwrite::Never)?;
    assert_eq!(rt; made(&mut bench, &WRITTEN), 7);
    assert_eq!(rt; made(&mut bench, &OUTSIDE), 0);
    assert_eq!(rt; bench.length("C.wav"), Err(ShelfFault::NotFound));
    assert_eq!(rt; bench.failures(), 5);
    assert!(rt; fs::read(&rt, "folder_bench/B.wav")?.as_slice() == [1, 20, 30, 0, 0, 4].as_slice());
    fs::remove_dir_all(&rt, "folder_bench")?;
    Ok(())
}

#[test]
fn a_folder_bench_writes_nowhere_else(rt: HostRuntime) -> Result<(), Fail> {
    filled_folder(&rt, "folder_names")?;
    let mut bench = FolderBench::new(rt.alloc(), &rt, "folder_names", Overwrite::Never)?;
    assert!(rt; writes_none(&mut bench));
    assert_eq!(rt; bench.failures(), 9 * 7);
    fs::remove_dir_all(&rt, "folder_names")?;
    Ok(())
}

/// Forbidden calls on an existing file, on a folder and through a link.
const REPLACED: [Call; 4] = [
    Call::Create("in"),
    Call::Append("link.wav", &[1]),
    Call::Create("link.wav"),
    Call::Create("A.wav"),
];

/// Calls that are forbidden even if files may be replaced: on a folder and through a link.
const FOLLOWED: [Call; 3] = [
    Call::Create("in"),
    Call::Append("link.wav", &[1]),
    Call::Create("link.wav"),
];

fn has_reason(bench: &impl Reasons, kind: ErrorKind) -> bool {
    match bench.reason() {
        Some(reason) => reason.error.kind() == kind,
        None => false,
    }
}

/// Returns whether every call fails on a file, a link to it and a folder, the last call for the
/// given reason, and the file is unchanged.
fn stays(
    rt: &HostRuntime,
    overwrite: Overwrite,
    calls: &[Call],
    kind: ErrorKind,
) -> Result<bool, Fail> {
    filled_folder(rt, "folder_links")?;
    let mut bench = FolderBench::new(rt.alloc(), rt, "folder_links", overwrite)?;
    let is_refused = (made(&mut bench, calls) == 0) & has_reason(&bench, kind);
    Ok(is_refused & (fs::read(rt, "folder_links/A.wav")?.as_slice() == b"abcdef".as_slice()))
}

#[test]
fn no_file_is_replaced_and_no_link_followed(rt: HostRuntime) -> Result<(), Fail> {
    assert!(rt; stays(&rt, Overwrite::Never, &REPLACED, ErrorKind::AlreadyExists)?);
    assert!(rt; stays(&rt, Overwrite::Files, &FOLLOWED, ErrorKind::InvalidInput)?);
    fs::remove_dir_all(&rt, "folder_links")?;
    Ok(())
}

/// Returns whether a bench over what was found in a folder can't empty or append to `A.wav` there, which stays as it is.
fn keeps(rt: &HostRuntime, stores: &FolderStores, found: FoundOutput) -> Result<bool, Fail> {
    let mut bench = stores.bench(rt, "folder_given", Overwrite::Files, found)?;
    let calls = [Call::Create("A.wav"), Call::Append("A.wav", &[1])];
    let is_refused = (made(&mut bench, &calls) == 0) & has_reason(&bench, ErrorKind::InvalidData);
    Ok(is_refused & (fs::read(rt, "folder_given/A.wav")?.as_slice() == b"abcdef".as_slice()))
}

#[test]
fn no_given_file_is_written_to(rt: HostRuntime) -> Result<(), Fail> {
    filled_folder(&rt, "folder_given")?;
    let alloc = rt.alloc();
    let stores = FolderStores::new(alloc)?;
    let mut shelf = stores.shelf(&rt, "folder_given")?;
    assert_eq!(rt; shelf.length("link.wav"), Ok(6));
    assert!(rt;
        keeps(&rt, &stores, FoundOutput::unknown(alloc))?,
        "a source, opened by its link"
    );
    let stores = FolderStores::new(alloc)?;
    stores.add_list(Some(&fs::metadata(&rt, "folder_given/A.wav")?))?;
    assert!(rt;
        keeps(&rt, &stores, FoundOutput::unknown(alloc))?,
        "the list"
    );
    let stores = FolderStores::new(alloc)?;
    stores.add_list(None)?;
    assert!(rt;
        keeps(&rt, &stores, FoundOutput::unknown(alloc))?,
        "a list that can't be identified"
    );
    let stores = FolderStores::new(alloc)?;
    assert!(rt;
        keeps(&rt, &stores, FoundOutput::empty(alloc))?,
        "a folder that was empty"
    );
    let mut found = FoundOutput::empty(alloc);
    found.add("A.wav", &fs::metadata(&rt, "folder_given/in")?)?;
    assert!(rt;
        keeps(&rt, &stores, found)?,
        "another file than the one that was found"
    );
    fs::hard_link(&rt, "folder_given/A.wav", "folder_given/B.wav")?;
    assert!(rt;
        keeps(&rt, &stores, FoundOutput::unknown(alloc))?,
        "a file with two names"
    );
    fs::remove_file(&rt, "folder_given/B.wav")?;
    let mut found = FoundOutput::empty(alloc);
    found.add("A.wav", &fs::metadata(&rt, "folder_given/A.wav")?)?;
    assert!(rt; !keeps(&rt, &stores, found)?, "the file that was found");
    fs::remove_dir_all(&rt, "folder_given")?;
    Ok(())
}

#[test]
fn an_exchanged_output_folder_is_not_synced(rt: HostRuntime) -> Result<(), Fail> {
    fresh_folder(&rt, "folder_held")?;
    let _ = fs::remove_dir_all(&rt, "folder_away");
    let mut bench = FolderBench::new(rt.alloc(), &rt, "folder_held", Overwrite::Never)?;
    fs::rename(&rt, "folder_held", "folder_away")?;
    fresh_folder(&rt, "folder_held")?;
    let calls = [Call::Create("A.wav"), Call::Sync("A.wav")];
    assert_eq!(rt; made(&mut bench, &calls), 1);
    assert!(rt; has_reason(&bench, ErrorKind::InvalidData));
    fs::remove_dir_all(&rt, "folder_held")?;
    fs::remove_dir_all(&rt, "folder_away")?;
    Ok(())
}

/// Three appends; the second one may run out of disk space.
const APPENDED: [Call; 4] = [
    Call::Create("A.wav"),
    Call::Append("A.wav", &[1, 2, 3, 4]),
    Call::Append("A.wav", &[5, 6, 7, 8]),
    Call::Append("A.wav", &[9]),
];

// The end-to-end tests run this again on a nearly full disk.
#[test]
fn appends_go_on_behind_what_is_there(rt: HostRuntime) -> Result<(), Fail> {
    fresh_folder(&rt, "folder_appends")?;
    let mut bench = FolderBench::new(rt.alloc(), &rt, "folder_appends", Overwrite::Never)?;
    let count = made(&mut bench, &APPENDED);
    let written = fs::read(&rt, "folder_appends/A.wav")?;
    println!(rt; "{count} of 4 calls: {written:?}")?;
    let wanted: &[u8] = if count == 4 {
        &[1, 2, 3, 4, 5, 6, 7, 8, 9]
    } else {
        &[1, 2, 3, 4, 5, 6, 9]
    };
    assert!(rt; written.as_slice() == wanted);
    fs::remove_dir_all(&rt, "folder_appends")?;
    Ok(())
}
