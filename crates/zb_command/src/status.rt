//! How the program ends.
ghost use Rattle.std.specs.Prelude.{◌≡◌, ◌+◌, ◌≤◌, ◌++◌, ◌∷◌, [], length, decimal};
ghost use Rattle.hex.specs.Hex.{encode_upper};
ghost use Rattle.arrayvec.specs.ArrayString.{array_string_len};
ghost use Rattle.zb_text.specs.Fields.{short_text};
ghost use Rattle.zb_text.specs.Words.{then};

use arrayvec::ArrayString;
use itoa::Buffer;
use zb_capture::CaptureCause;
use zb_install::CodeError;
use zb_pcap::PcapCause;
use zb_sched::SchedCause;
use zb_script::ScriptCause;
use zb_text::hexadecimal::digits_of;

/// How a run ended. Its number is the status of the process.
#[derive(Clone, Copy, Debug, PartialEq, Eq)]
pub enum Status {
    /// The whole output was written, and the input of a command that has one was read to its end.
    Ok,
    /// The words are no command.
    Usage,
    /// The source failed.
    ReadFault,
    /// The sink failed.
    WriteFault,
    /// The input, or a word, isn't what the command takes. Nothing was written.
    Refused {
        /// The number of the line, from 1, or of the record; 0 is the header of a file.
        line: u32,
        /// What is wrong with it.
        cause: Cause,
    },
    /// There was no memory left.
    NoMemory,
    /// The store failed.
    DiskFault,
    /// The store isn't empty, and no record stands in it.
    NoStore,
    /// The input has more bytes than an input may have.
    TooLong {
        /// How many bytes an input may have.
        limit: u32,
    },
    /// A claim of a transcript doesn't hold. Nothing was written.
    Broken {
        /// The number of the first line that breaks one, from 1.
        line: u32,
        /// The number of the first claim that it breaks, 1 to 6.
        clause: u8,
    },
    /// What stands in the store is no record of a centre.
    BadStore {
        /// The place of the first fault, from 0.
        at: u32,
    },
    /// No generation is left for a further whole record in the store.
    Worn,
}

/// Why an input or a word is refused.
#[derive(Clone, Copy, Debug, PartialEq, Eq)]
pub enum Cause {
    /// The line is of no form that the command takes, or a declaration after an event.
    Syntax,
    /// A name, EUI or short address is taken, or a declaration stands twice for one node.
    DuplicateNode,
    /// The link key of an install code is known to others.
    DuplicateCode,
    /// A key of the supply or a network key is known already.
    DrawRepeated,
    /// A node isn't declared, or its part doesn't allow the line.
    UnknownNode,
    /// No node is the centre.
    NoCentre,
    /// Bytes are no install code.
    BadCode,
    /// A block of counters is out of its range.
    Block,
    /// There are more of a kind than there may be:
    /// - the 65th node or the 100,001st event of a schedule
    /// - the 257th key or the 100,001st frame of a capture
    /// - the 100,001st record of a file
    TooMany,
    /// The file doesn't begin as a capture file does.
    Magic,
    /// The version of the file isn't 2.4.
    Version,
    /// The packets of the file are of another link.
    Link,
    /// A record of the file isn't whole.
    Cut,
    /// The short address of the line is in one before it.
    AddressTaken,
    /// The text of a restore is no backup.
    Backup,
    /// The code has an odd number of characters, or one of them is no hexadecimal digit.
    NotHex {
        /// The place of that character, or how many there are.
        at: u32,
    },
    /// The code has a length that no install code has.
    Length {
        /// How many bytes it has.
        len: u32,
    },
    /// The code's last two bytes aren't the CRC of the others.
    Crc {
        /// These two bytes.
        kept: u16,
        /// The CRC of the others.
        found: u16,
    },
}

impl From<SchedCause> for Cause {
    ghost use Rattle.std.specs.Prelude.{◌≡◌};
    ghost use Rattle.zb_command.specs.Statuses.{schedule_cause};

    ghost from_gives = { λ e c. c ≡ schedule_cause e };

    fn from(cause: SchedCause) -> Cause {
        match cause {
            SchedCause::Syntax => Cause::Syntax,
            SchedCause::DuplicateNode => Cause::DuplicateNode,
            SchedCause::DuplicateCode => Cause::DuplicateCode,
            SchedCause::DrawRepeated => Cause::DrawRepeated,
            SchedCause::UnknownNode => Cause::UnknownNode,
            SchedCause::NoCentre => Cause::NoCentre,
            SchedCause::BadCode => Cause::BadCode,
            SchedCause::Block => Cause::Block,
            SchedCause::TooMany => Cause::TooMany,
        }
    }
}

impl From<CaptureCause> for Cause {
    ghost use Rattle.std.specs.Prelude.{◌≡◌};
    ghost use Rattle.zb_command.specs.Statuses.{capture_cause};

    ghost from_gives = { λ e c. c ≡ capture_cause e };

    fn from(cause: CaptureCause) -> Cause {
        match cause {
            CaptureCause::Syntax => Cause::Syntax,
            CaptureCause::BadCode => Cause::BadCode,
            CaptureCause::TooMany => Cause::TooMany,
            CaptureCause::AddressTaken => Cause::AddressTaken,
        }
    }
}

impl From<ScriptCause> for Cause {
    ghost use Rattle.std.specs.Prelude.{◌≡◌};
    ghost use Rattle.zb_command.specs.Statuses.{script_cause};

    ghost from_gives = { λ e c. c ≡ script_cause e };

    fn from(cause: ScriptCause) -> Cause {
        match cause {
            ScriptCause::Syntax => Cause::Syntax,
            ScriptCause::DuplicateNode => Cause::DuplicateNode,
            ScriptCause::Block => Cause::Block,
            ScriptCause::UnknownNode => Cause::UnknownNode,
            ScriptCause::BadCode => Cause::BadCode,
            ScriptCause::Backup => Cause::Backup,
            ScriptCause::TooMany => Cause::TooMany,
            ScriptCause::NoCentre => Cause::NoCentre,
        }
    }
}

impl From<PcapCause> for Cause {
    ghost use Rattle.std.specs.Prelude.{◌≡◌};
    ghost use Rattle.zb_command.specs.Statuses.{pcap_cause};

    ghost from_gives = { λ e c. c ≡ pcap_cause e };

    fn from(cause: PcapCause) -> Cause {
        match cause {
            PcapCause::Magic => Cause::Magic,
            PcapCause::Version => Cause::Version,
            PcapCause::Link => Cause::Link,
            PcapCause::Cut => Cause::Cut,
            PcapCause::TooMany => Cause::TooMany,
        }
    }
}

impl From<CodeError> for Cause {
    ghost use Rattle.std.specs.Prelude.{◌≡◌};
    ghost use Rattle.zb_command.specs.Statuses.{cause_of};

    ghost from_gives = { λ e c. c ≡ cause_of e };

    fn from(error: CodeError) -> Cause {
        match error {
            CodeError::NotHex { at } => Cause::NotHex { at },
            CodeError::Length { len } => Cause::Length { len },
            CodeError::Crc { kept, found } => Cause::Crc { kept, found },
        }
    }
}

impl Status {
    ghost use Rattle.std.specs.Prelude.{◌≡◌};
    ghost use Rattle.zb_command.specs.Statuses.{number_of, text_of};

    /// Returns the status of the process.
    pub fn number(&self) -> u8
        ensures { result ≡ number_of self.now }
    {
        match self {
            Status::Ok => 0,
            Status::Usage => 2,
            Status::ReadFault => 3,
            Status::WriteFault => 4,
            Status::Refused { .. } => 5,
            Status::NoMemory => 6,
            Status::DiskFault => 7,
            Status::NoStore => 8,
            Status::TooLong { .. } => 9,
            Status::Broken { .. } => 10,
            Status::BadStore { .. } => 11,
            Status::Worn => 12,
        }
    }

    /// Returns how the run ended, for standard output, without a line feed. Nothing is said of `Ok` and `WriteFault`.
    pub fn text(&self) -> ArrayString<64>
        ensures { result.bytes ≡ text_of self.now }
    {
        match self {
            Status::Ok | Status::WriteFault => ArrayString::new(),
            Status::Usage => word("usage"),
            Status::ReadFault => word("read fault"),
            Status::NoMemory => word("no memory"),
            Status::DiskFault => word("store fault"),
            Status::NoStore => word("no store"),
            Status::Worn => word("worn"),
            Status::Refused { line, cause } => {
                let mut text = word("refused");
                add_number(&mut text, *line);
                cause.add_to(&mut text);
                text
            }
            Status::TooLong { limit } => {
                let mut text = word("too long");
                add_number(&mut text, *limit);
                text
            }
            Status::Broken { line, clause } => {
                let mut text = word("broken");
                add_number(&mut text, *line);
                add_number(&mut text, u32::from(*clause));
                text
            }
            Status::BadStore { at } => {
                let mut text = word("bad store");
                add_number(&mut text, *at);
                text
            }
        }
    }
}

impl Cause {
    ghost use Rattle.std.specs.Prelude.{◌≡◌, ◌≤◌, ◌++◌};
    ghost use Rattle.arrayvec.specs.ArrayString.{array_string_len};
    ghost use Rattle.zb_command.specs.Statuses.{cause_text};

    /// Adds the cause's word and its details, each after a space.
    #[tactic(auto, using(std::proofs::Common::append_assoc))]
    fn add_to(&self, text: &mut ArrayString<64>)
        requires { array_string_len text.old ≤ 20 }
        ensures { text.new.bytes ≡ text.old.bytes ++ cause_text self.now }
    {
        match self {
            Cause::Syntax => add_word(text, "syntax"),
            Cause::DuplicateNode => add_word(text, "duplicate-node"),
            Cause::DuplicateCode => add_word(text, "duplicate-code"),
            Cause::DrawRepeated => add_word(text, "draw-repeated"),
            Cause::UnknownNode => add_word(text, "unknown-node"),
            Cause::NoCentre => add_word(text, "no-centre"),
            Cause::BadCode => add_word(text, "bad-code"),
            Cause::Block => add_word(text, "block"),
            Cause::TooMany => add_word(text, "too-many"),
            Cause::AddressTaken => add_word(text, "address-taken"),
            Cause::Backup => add_word(text, "backup"),
            Cause::Magic => add_word(text, "magic"),
            Cause::Version => add_word(text, "version"),
            Cause::Link => add_word(text, "link"),
            Cause::Cut => add_word(text, "cut"),
            Cause::NotHex { at } => {
                add_word(text, "not-hex");
                add_number(text, *at);
            }
            Cause::Length { len } => {
                add_word(text, "length");
                add_number(text, *len);
            }
            Cause::Crc { kept, found } => {
                add_word(text, "crc");
                add_digits(text, *kept);
                add_digits(text, *found);
            }
        }
    }
}

/// Makes a text of some words.
pub(crate) fn word(words: &str) -> ArrayString<64>
    requires { length words.now ≤ 20 }
    ensures bytes { result.bytes ≡ words.now }
    ensures len { array_string_len result ≡ length words.now }
{
    let mut text = ArrayString::new();
    text.push_str(words);
    text
}

/// Adds a word after a space.
#[tactic(auto, using(std::proofs::Common::append_assoc))]
fn add_word(text: &mut ArrayString<64>, word: &str)
    requires { array_string_len text.old + length word.now ≤ 60 }
    ensures bytes { text.new.bytes ≡ text.old.bytes ++ then word.now }
    ensures len { array_string_len text.new ≡ array_string_len text.old + length word.now + 1 }
{
    text.push_str(" ");
    text.push_str(word);
}

/// Adds a number in decimal digits after a space.
fn add_number(text: &mut ArrayString<64>, number: u32)
    requires { array_string_len text.old ≤ 50 }
    ensures bytes { text.new.bytes ≡ text.old.bytes ++ then (decimal number) }
    ensures len { array_string_len text.new ≤ array_string_len text.old + 11 }
{
    let mut digits = Buffer::new();
    add_word(text, digits.format(number));
}

/// Adds a number in four hexadecimal digits after a space.
#[tactic(auto, using(std::proofs::Common::append_assoc), unfolding(hex::specs::Hex::encode_with))]
fn add_digits(text: &mut ArrayString<64>, number: u16)
    requires { array_string_len text.old ≤ 50 }
    ensures bytes { text.new.bytes ≡ text.old.bytes ++ then (short_text number) }
    ensures len { array_string_len text.new ≡ array_string_len text.old + 5 }
{
    let [high, low] = number.to_be_bytes();
    text.push_str(" ");
    add_pair(text, high);
    add_pair(text, low);
}

/// Adds a byte in two hexadecimal digits.
#[tactic(auto, using(std::proofs::Common::append_assoc))]
fn add_pair(text: &mut ArrayString<64>, byte: u8)
    requires { array_string_len text.old ≤ 60 }
    ensures bytes { text.new.bytes ≡ text.old.bytes ++ encode_upper (byte ∷ []) }
    ensures len { array_string_len text.new ≡ array_string_len text.old + 2 }
{
    let [first, second] = digits_of(byte);
    text.push(char::from(first));
    text.push(char::from(second));
}
