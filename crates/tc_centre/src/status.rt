//! How the process ends.
ghost use Rattle.std.specs.Prelude.{◌≡◌, ◌+◌, ◌≤◌, ◌++◌, length, decimal};
ghost use Rattle.arrayvec.specs.ArrayString.{array_string_len};
ghost use Rattle.tc_centre.specs.Ends.{status_after, store_status};
ghost use Rattle.zb_text.specs.Words.{then};

use arrayvec::ArrayString;
use itoa::Buffer;
use zb_disk::FileFault;
use zb_live::LiveFault;

/// How the process ends. Its number is the status of the process.
#[derive(Clone, Copy, Debug, PartialEq, Eq)]
pub enum Status {
    /// The input ended, and all its lines were answered; or a text was written that was asked for.
    Ok,
    /// There isn't exactly one word.
    Usage,
    /// The source failed.
    ReadFault,
    /// The sink failed.
    WriteFault,
    /// There was no memory left.
    NoMemory,
    /// The store failed.
    DiskFault,
    /// The store isn't empty, and no record is in it.
    NoStore,
    /// A line has more than 1,048,576 bytes.
    TooLong,
    /// What is in the store is no record of a centre.
    BadStore {
        /// The place of the first fault, from 0.
        at: u32,
    },
    /// No generation is left for a further whole record in the store.
    Worn,
    /// Another process has the store open.
    Busy,
}

/// Returns how a process ends whose session came to this end, where this failed first on the store's file.
///
/// The store is busy if its file couldn't be opened because another process has it open. Any other failed call on it
/// is a fault of the store.
pub(crate) fn status_after(session: Result<(), LiveFault>, first: Option<FileFault>) -> Status
    ensures { result ≡ status_after session first }
{
    match session {
        Ok(()) => Status::Ok,
        Err(LiveFault::Read) => Status::ReadFault,
        Err(LiveFault::Write) => Status::WriteFault,
        Err(LiveFault::NoMemory) => Status::NoMemory,
        Err(LiveFault::Disk) => store_status(first),
        Err(LiveFault::NoStore) => Status::NoStore,
        Err(LiveFault::TooLong) => Status::TooLong,
        Err(LiveFault::BadStore { at }) => Status::BadStore { at },
        Err(LiveFault::Worn) => Status::Worn,
    }
}

/// Returns how a process ends whose store failed, first by this fault of its file.
fn store_status(first: Option<FileFault>) -> Status
    ensures { result ≡ store_status first }
{
    match first {
        Some(fault) => {
            if fault.is_taken {
                Status::Busy
            } else {
                Status::DiskFault
            }
        }
        None => Status::DiskFault,
    }
}

impl Status {
    ghost use Rattle.std.specs.Prelude.{◌≡◌};
    ghost use Rattle.tc_centre.specs.Statuses.{number_of, text_of};

    /// Returns the status of the process.
    pub fn number(&self) -> u8
        ensures { result ≡ number_of self.now }
    {
        match self {
            Status::Ok => 0,
            Status::Usage => 2,
            Status::ReadFault => 3,
            Status::WriteFault => 4,
            Status::NoMemory => 6,
            Status::DiskFault => 7,
            Status::NoStore => 8,
            Status::TooLong => 9,
            Status::BadStore { .. } => 11,
            Status::Worn => 12,
            Status::Busy => 13,
        }
    }

    /// Returns how the process ended, for standard output, without a line feed. Nothing is said of `Ok` and
    /// `WriteFault`.
    pub(crate) fn text(&self) -> ArrayString<32>
        ensures { result.bytes ≡ text_of self.now }
    {
        match self {
            Status::Ok | Status::WriteFault => ArrayString::new(),
            Status::Usage => word("usage"),
            Status::ReadFault => word("read fault"),
            Status::NoMemory => word("no memory"),
            Status::DiskFault => word("store fault"),
            Status::NoStore => word("no store"),
            Status::TooLong => word("too long 1048576"),
            Status::BadStore { at } => {
                let mut text = word("bad store");
                add_number(&mut text, *at);
                text
            }
            Status::Worn => word("worn"),
            Status::Busy => word("busy"),
        }
    }
}

/// Makes a text of some words.
fn word(words: &str) -> ArrayString<32>
    requires { length words.now ≤ 20 }
    ensures bytes { result.bytes ≡ words.now }
    ensures len { array_string_len result ≡ length words.now }
{
    let mut text = ArrayString::new();
    text.push_str(words);
    text
}

/// Adds a number in decimal digits after a space.
#[tactic(auto, using(std::proofs::Common::append_assoc))]
fn add_number(text: &mut ArrayString<32>, number: u32)
    requires { array_string_len text.old ≤ 20 }
    ensures { text.new.bytes ≡ text.old.bytes ++ then (decimal number) }
{
    let mut digits = Buffer::new();
    text.push_str(" ");
    text.push_str(digits.format(number));
}
