//! The device over a file.

use crate::calls::{Call, Step};
use crate::deeds::Deed;
use crate::trials::{FAILED, Trial, Way, try_at};

/// Two sectors of three are written and synced.
const FILL: [Step<'static>; 3] = [
    Step::Done(Call::Write(1, 7), b"sw"),
    Step::Done(Call::Write(2, 8), b"sw"),
    Step::Done(Call::Sync, b"y"),
];

/// They read as they were written.
const FILLED: [Step<'static>; 3] = [
    Step::Done(Call::Read(1, 7, 7), b"sr"),
    Step::Done(Call::Read(0, 0, 0), b"sr"),
    Step::Done(Call::Read(2, 8, 8), b"sr"),
];

/// What becomes of a file from when it is made until it is removed.
static LIFE: [Trial; 6] = [
    Trial::At(Deed::Remove),
    Trial::On(Way::MakeFile(3), &FILL),
    Trial::At(Deed::Holds(&[[0; 512], [7; 512], [8; 512]])),
    Trial::Got(Way::OpenFile, Ok(3), b"om"),
    Trial::On(Way::OpenFile, &FILLED),
    Trial::At(Deed::Remove),
];

#[test]
fn a_file_is_made_written_closed_opened_and_read(rt: HostRuntime) {
    try_at(&rt, "file-life", &LIFE);
}

/// A file that is long enough is synced too: its length may be that of a call that was cut short.
const LONG_ENOUGH: [u8; 6] = *b"omyoym";

/// It is opened, measured, lengthened, its length and then its folder synced, and measured.
const LENGTHENED: [u8; 7] = *b"omlyoym";

/// A file is never shortened, what it holds stays, and zeros follow it.
static EXTENDED: [Trial; 8] = [
    Trial::At(Deed::Write(&[6; 1024])),
    Trial::Got(Way::MakeFile(1), Ok(2), &LONG_ENOUGH),
    Trial::Got(Way::MakeFile(0), Ok(2), &LONG_ENOUGH),
    Trial::Got(Way::MakeFile(2), Ok(2), &LONG_ENOUGH),
    Trial::Got(Way::MakeFile(4), Ok(4), &LENGTHENED),
    Trial::Got(Way::MakeFile(3), Ok(4), &LONG_ENOUGH),
    Trial::At(Deed::Holds(&[[6; 512], [6; 512], [0; 512], [0; 512]])),
    Trial::At(Deed::Remove),
];

/// The bytes of a part of a sector stay, and zeros follow them.
const PART: [Step<'static>; 1] = [Step::Done(Call::Read(0, 6, 0), b"sr")];

/// Whole sectors count.
static PARTS: [Trial; 16] = [
    Trial::At(Deed::Write(b"")),
    Trial::Got(Way::OpenFile, Ok(0), b"om"),
    Trial::At(Deed::Write(&[6; 1])),
    Trial::Got(Way::OpenFile, Ok(0), b"om"),
    Trial::At(Deed::Write(&[6; 511])),
    Trial::Got(Way::OpenFile, Ok(0), b"om"),
    Trial::At(Deed::Write(&[6; 512])),
    Trial::Got(Way::OpenFile, Ok(1), b"om"),
    Trial::At(Deed::Write(&[6; 1023])),
    Trial::Got(Way::OpenFile, Ok(1), b"om"),
    Trial::At(Deed::Write(&[6; 1024])),
    Trial::Got(Way::OpenFile, Ok(2), b"om"),
    // A device of no sectors can be made too.
    Trial::At(Deed::Write(&[6; 511])),
    Trial::Got(Way::MakeFile(0), Ok(0), &LONG_ENOUGH),
    Trial::On(Way::MakeFile(1), &PART),
    Trial::At(Deed::Remove),
];

#[test]
fn lengths(rt: HostRuntime) {
    try_at(&rt, "file-extended", &EXTENDED);
    try_at(&rt, "file-parts", &PARTS);
}

/// Nothing is there, and nothing is made.
static MISSING: [Trial; 3] = [
    Trial::At(Deed::Remove),
    Trial::Got(Way::OpenFile, FAILED, b"o"),
    Trial::Got(Way::OpenFile, FAILED, b"o"),
];

/// A folder is there.
static FOLDER: [Trial; 2] = [
    Trial::Got(Way::OpenFile, FAILED, b"o"),
    Trial::Got(Way::MakeFile(3), FAILED, b"o"),
];

#[test]
fn no_device_over_it(rt: HostRuntime) {
    try_at(&rt, "file-missing", &MISSING);
    try_at(&rt, ".", &FOLDER);
}

/// A file is shortened while a device of two sectors is open, so its last sector can't be read.
const SHORTENED: [Step<'static>; 6] = [
    Step::At(Deed::SetLength(700)),
    Step::Fault(Call::Read(1, 0, 0), b"srr"),
    Step::Done(Call::Read(0, 0, 0), b"sr"),
    Step::Done(Call::Sync, b"y"),
    // A write makes it whole again.
    Step::Done(Call::Write(1, 4), b"sw"),
    Step::Done(Call::Read(1, 4, 4), b"sr"),
];

/// What is done in `a_read_that_fails`.
static SHORTEN: [Trial; 3] = [
    Trial::At(Deed::Remove),
    Trial::On(Way::MakeFile(2), &SHORTENED),
    Trial::At(Deed::Remove),
];

#[test]
fn a_read_that_fails(rt: HostRuntime) {
    try_at(&rt, "file-shortened", &SHORTEN);
}

/// A write is one seek and one write of the whole sector, a read one seek and one read, a sync one sync. Each of them that fails is a fault.
const EACH: [Step<'static>; 6] = [
    Step::Fails(Call::Write(1, 7), b"sw", 0, 2),
    Step::Done(Call::Write(1, 7), b"sw"),
    Step::Fails(Call::Read(1, 7, 7), b"sr", 0, 2),
    Step::Done(Call::Read(1, 7, 7), b"sr"),
    Step::Fails(Call::Sync, b"y", 0, 1),
    Step::Done(Call::Sync, b"y"),
];

/// No device is made if one of the calls fails.
static CALLED: [Trial; 7] = [
    Trial::At(Deed::Remove),
    Trial::StoppedAtEach(Way::MakeFile(3), &LENGTHENED),
    Trial::Got(Way::MakeFile(3), Ok(3), &LENGTHENED),
    Trial::Got(Way::MakeFile(3), Ok(3), &LONG_ENOUGH),
    Trial::Got(Way::OpenFile, Ok(3), b"om"),
    Trial::On(Way::OpenFile, &EACH),
    Trial::At(Deed::Remove),
];

#[test]
fn each_call_of_a_file(rt: HostRuntime) {
    try_at(&rt, "file-calls", &CALLED);
}
