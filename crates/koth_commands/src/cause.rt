//! What failed, and why, as people read it.

ghost use Rattle.std.specs.Prelude.{◌≡◌, ◌++◌, codes, decimal, IfOk, OnOk};
ghost use Rattle.koth_commands.specs.{Cause.{cause_told, error_reason, reason_text, reason_told, subject_name}, Name.shown_name};

use crate::name::put_name;
use koth_text::put_number;
use std::alloc::{AllocError, Allocator};
use std::io::ErrorKind;

/// Why something failed.
#[derive(Clone, Copy, PartialEq, Eq)]
pub enum Reason {
    /// There is no such file or folder.
    Missing,
    /// The system doesn't permit it.
    NotPermitted,
    /// A part of the path is no folder.
    NoFolder,
    /// It is a folder, and not a file.
    Folder,
    /// It is a stream that is closed, or a folder in its place.
    Closed,
    /// The file system is read-only.
    ReadOnly,
    /// The links of the path go in a circle.
    Circle,
    /// The name is too long.
    LongName,
    /// The name of the file is no text.
    NoText,
    /// The folder has no source of a warrior.
    NoSources,
    /// The hill has no warrior with this entry.
    NoEntry,
    /// The disk is full.
    Full,
    /// The file would be too large, or is too short.
    Size,
    /// It is no file that a hill can be in.
    NoFile,
    /// Another program uses it.
    InUse,
    /// Another program has the lock of a hill's file.
    Locked,
    /// It has the lock of the file of a hill to which a source is submitted.
    LockedNow,
    /// The same, and it had that for as long as a submission waits.
    LockedStill,
    /// Another file has this name by now.
    Replaced,
    /// The name under which a new file is made first is taken.
    Taken,
    /// The file system keeps no locks, or has no links.
    Unfit,
    /// The address is not of this machine.
    Elsewhere,
    /// The system doesn't listen at the address, as at a link-local one without its interface.
    NoListening,
    /// No one reads what is written.
    ReaderGone,
    /// No more can be written.
    NoRoom,
    /// There was no answer in time.
    Late,
    /// The name of a machine is not known.
    NoName,
    /// The machine isn't reached.
    Unreached,
    /// Nothing is served at the port.
    NoService,
    /// The connection ended without an answer.
    NoAnswer,
    /// The file is too short for its hill.
    TooShort,
    /// The file isn't empty.
    NotEmpty,
    /// Something has the name of a new file.
    NameInUse,
    /// The file holds no hill.
    NoHill,
    /// The file holds a hill of the old format.
    OldHill,
    /// The file holds a hill of the new format, where one of the old format is wanted.
    NewHill,
    /// One of the headers in the file can't be read.
    Header,
    /// A warrior in the file can't be read.
    Damaged,
    /// It can't be read.
    Unreadable,
    /// Reading or writing failed.
    Device,
    /// Memory ran out.
    Memory,
    /// The system reports another error.
    Other,
}

impl Reason {
    /// The reason in a few words.
    pub(crate) fn text(self) -> &'static str
        ensures { result.now ≡ reason_text self }
    {
        match self {
            Reason::Missing => "no such file or folder",
            Reason::NotPermitted => "no permission",
            Reason::NoFolder => "a part of the path is no folder",
            Reason::Folder => "it is a folder",
            Reason::Closed => "it is closed, or a folder",
            Reason::ReadOnly => "the file system is read-only",
            Reason::Circle => "its links go in a circle",
            Reason::LongName => "the name is too long",
            Reason::NoText => "its name is not UTF-8",
            Reason::NoSources => "no file in it ends with .red",
            Reason::NoEntry => "no warrior on the hill has this entry; koth show FILE has them",
            Reason::Full => "the disk is full",
            Reason::Size => "the file would be too large",
            Reason::NoFile => "it is no plain file",
            Reason::InUse => "another program uses it",
            Reason::Locked => { "another program uses it; koth submit --wait SECONDS waits for it" }
            Reason::LockedNow => {
                "another program uses it: if it is served, submit to its port, as (echo SUBMIT; cat SOURCE; echo .; echo QUIT) | nc 127.0.0.1 PORT does; if another submission is under way, --wait SECONDS waits for it"
            }
            Reason::LockedStill => {
                "another program uses it: if it is served, submit to its port, as (echo SUBMIT; cat SOURCE; echo .; echo QUIT) | nc 127.0.0.1 PORT does"
            }
            Reason::Replaced => "another file has this name",
            Reason::Taken => {
                "its name with .new after it is taken; remove that file, unless another koth is at work"
            }
            Reason::Unfit => {
                "its file system lacks locks or links that a hill needs; take a local disk"
            }
            Reason::Elsewhere => "it is not of this machine",
            Reason::NoListening => {
                "the system doesn't listen at its address; one of fe80::/10 needs an interface, which --listen doesn't take"
            }
            Reason::ReaderGone => "its reader is gone",
            Reason::NoRoom => "no more can be written",
            Reason::Late => "there was no answer in time",
            Reason::NoName => "its name is not known",
            Reason::Unreached => "it can't be reached",
            Reason::NoService => "nothing is served there",
            Reason::NoAnswer => "no answer came",
            Reason::TooShort => "it is too short for a hill; is it the right file?",
            Reason::NotEmpty =>
                "it isn't empty; koth create --overwrite makes a hill of it all the same",
            Reason::NameInUse => "something has this name; take a new one",
            Reason::NoHill => "it holds no hill",
            Reason::OldHill => {
                "a hill of the old format; koth migrate FILE NEW moves it to a new file"
            }
            Reason::NewHill => "it is a hill of the new format already",
            Reason::Header => {
                "one of its headers can't be read, so its last submission may be missing; compare it with a copy"
            }
            Reason::Damaged => "a warrior in it can't be read; go back to a copy",
            Reason::Unreadable => "it can't be read; go back to a copy",
            Reason::Device => "reading or writing it failed",
            Reason::Memory => "memory ran out",
            Reason::Other => "the system reports an error",
        }
    }
}

/// The reason for an error of the system.
pub fn reason_of(kind: ErrorKind) -> Reason
    ensures { result ≡ error_reason kind }
{
    match kind {
        ErrorKind::NotFound => Reason::Missing,
        ErrorKind::PermissionDenied => Reason::NotPermitted,
        ErrorKind::NotADirectory => Reason::NoFolder,
        ErrorKind::IsADirectory => Reason::Folder,
        ErrorKind::NotConnected => Reason::Closed,
        ErrorKind::ReadOnlyFilesystem => Reason::ReadOnly,
        ErrorKind::FilesystemLoop => Reason::Circle,
        ErrorKind::InvalidFilename => Reason::LongName,
        ErrorKind::StorageFull | ErrorKind::QuotaExceeded => Reason::Full,
        ErrorKind::FileTooLarge => Reason::Size,
        ErrorKind::InvalidInput => Reason::NoFile,
        ErrorKind::AddrInUse | ErrorKind::ResourceBusy => Reason::InUse,
        ErrorKind::StaleNetworkFileHandle => Reason::Replaced,
        ErrorKind::AlreadyExists => Reason::Taken,
        ErrorKind::Unsupported => Reason::Unfit,
        ErrorKind::AddrNotAvailable => Reason::Elsewhere,
        ErrorKind::BrokenPipe => Reason::ReaderGone,
        ErrorKind::WriteZero => Reason::NoRoom,
        ErrorKind::UnexpectedEof => Reason::TooShort,
        ErrorKind::TimedOut => Reason::Late,
        _ => Reason::Other,
    }
}

/// What a command worked on when it failed.
#[derive(Clone, Copy)]
pub enum Subject<'s> {
    /// The file at this path.
    File(&'s str),
    /// The warrior with this entry, of the hill in the file at this path.
    Warrior(&'s str, u64),
    /// A port of this machine.
    Port(u16),
    /// Standard output.
    Output,
}

/// What failed, and why.
#[derive(Clone, Copy)]
pub struct Cause<'s> {
    pub subject: Subject<'s>,
    pub reason: Reason,
}

impl<'s> Cause<'s> {
    /// A file, and why it failed.
    pub fn file(path: &'s str, reason: Reason) -> Cause<'s>
        ensures { cause_told result ≡ reason_told (shown_name path.now) reason }
    {
        Cause {
            subject: Subject::File(path),
            reason,
        }
    }

    /// Standard output, and why it failed.
    pub fn output(reason: Reason) -> Cause<'s>
        ensures { cause_told result ≡ reason_told (codes "standard output") reason }
    {
        Cause {
            subject: Subject::Output,
            reason,
        }
    }
}

/// The line that says what failed, and why.
pub(crate) fn cause_text<A: Allocator>(alloc: A, cause: Cause<'_>) -> Result<Vec<u8, A>, AllocError>
    ensures { IfOk result (λ text. text.items ≡ cause_told cause.entry) }
{
    let mut text = Vec::new(alloc);
    put_subject(&mut text, cause.subject)?;
    put_reason(&mut text, cause.reason)?;
    Ok(text)
}

/// Puts what a command worked on.
fn put_subject<A: Allocator>(text: &mut Vec<u8, A>, subject: Subject<'_>) -> Result<(), AllocError>
    ensures { OnOk result (text.new.items ≡ text.old.items ++ subject_name subject.entry) }
{
    match subject {
        Subject::File(path) => put_name(text, path),
        Subject::Warrior(path, entry) => put_warrior(text, path, entry),
        Subject::Port(port) => put_port(text, port),
        Subject::Output => text.extend_from_slice(b"standard output"),
    }
}

/// Puts a warrior of the hill in the file at this path.
fn put_warrior<A: Allocator>(
    text: &mut Vec<u8, A>,
    path: &str,
    entry: u64,
) -> Result<(), AllocError>
    ensures { OnOk result (text.new.items ≡ text.old.items
        ++ (shown_name path.now ++ (codes ", warrior " ++ decimal entry))) }
{
    put_name(text, path)?;
    text.extend_from_slice(b", warrior ")?;
    put_number(text, entry)
}

/// Puts a port of this machine.
fn put_port<A: Allocator>(text: &mut Vec<u8, A>, port: u16) -> Result<(), AllocError>
    ensures { OnOk result (text.new.items ≡ text.old.items ++ (codes "port " ++ decimal port)) }
{
    text.extend_from_slice(b"port ")?;
    put_number(text, u64::from(port))
}

/// Puts the end of the line, with the reason.
fn put_reason<A: Allocator>(text: &mut Vec<u8, A>, reason: Reason) -> Result<(), AllocError>
    ensures { OnOk result (text.new.items ≡ reason_told text.old.items reason) }
{
    text.extend_from_slice(b": ")?;
    text.extend_from_slice(reason.text().as_bytes())?;
    text.extend_from_slice(b"\n")
}
