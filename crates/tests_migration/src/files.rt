//! A file that is looked at, and cut meanwhile. What is missing or no file is shown by `bench/transcripts`.

use hill_look::{FileSource, Source};
use sector_disk::Fault;
use std::fs;
use std::fs::File;
use std::process::Abort;
use std::rt::Files;

/// The file that is looked at.
const PATH: &str = "looked.bytes";

/// Writes two sectors and a half: of sixes, and then of sevens.
fn put(rt: &(impl Abort + Files<File = File>)) {
    let mut bytes = [6; 1280];
    bytes[512..].fill(7);
    fs::write(rt, PATH, &bytes).expect(rt, "it is written");
}

/// Cuts the file to its first sector.
fn cut(rt: &(impl Abort + Files<File = File>)) {
    fs::write(rt, PATH, &[6; 512]).expect(rt, "it is written");
}

/// The source has sector `n`, and each of its bytes is this one; with none it can't be read.
fn expect_read<S: Source>(rt: &impl Abort, source: &mut S, n: u32, byte: Option<u8>) {
    assert!(rt; n < source.sectors(), "it has the sector");
    let mut content = [0; 512];
    let found = match source.read(n, &mut content) {
        Ok(()) => Some(content),
        Err(Fault) => None,
    };
    let due = match byte {
        Some(byte) => Some([byte; 512]),
        None => None,
    };
    assert!(rt; found == due, "a sector");
}

/// A file has its whole sectors as a source, and one that can't be read any more is a fault that is counted.
#[test]
fn a_file_that_is_read(rt: HostRuntime) {
    put(&rt);
    let mut source = FileSource::open(&rt, PATH).expect(&rt, "it opens");
    assert!(&rt; source.sectors() == 2, "two sectors");
    expect_read(&rt, &mut source, 1, Some(7));
    expect_read(&rt, &mut source, 0, Some(6));
    cut(&rt);
    expect_read(&rt, &mut source, 1, None);
    expect_read(&rt, &mut source, 0, Some(6));
    drop(source);
    assert!(&rt; rt.remove_file(PATH).is_ok());
}
