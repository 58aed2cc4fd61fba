//! The words of the command line.
ghost use Rattle.std.specs.Prelude.{◌≡◌, map, string_bytes, IfSome, ◌≤◌};
ghost use Rattle.std.specs.Option.{option_map};
ghost use Rattle.zb_command.specs.Commands.{campaign_words, count_of, lone_word, sniff_words, invocation_of, word_and_operand, word_and_three};
ghost use Rattle.zb_command.specs.Words.{invocation, Fits};

use zb_base::{LAST_START, MOST_JOBS, MOST_KEYS, MOST_MADE, MOST_RUNS};
use zb_input::are_keys;
use zb_text::numbers::number;

/// A command of the program.
#[derive(Drop)]
pub(crate) enum Command<'a> {
    /// Plays the schedule on the input, and writes its transcript.
    Play,
    /// Writes the link key of an install code.
    Install {
        /// The digits of the code.
        code: &'a str,
    },
    /// Writes the made schedule for `count` routers and devices.
    Make {
        /// How many routers and devices there are.
        count: u32,
    },
    /// Writes the report on the capture on the input, worked out by `jobs` jobs.
    Inspect {
        /// How many jobs there are.
        jobs: u32,
    },
    /// Writes the report on the capture file on the input, under the keys that the words represent.
    Sniff {
        /// How many jobs there are.
        jobs: u32,
        /// The words that represent keys.
        words: &'a [String],
    },
    /// Writes what `count` made schedules come to, played by `jobs` jobs.
    Campaign {
        /// How many runs there are.
        count: u32,
        /// The start value of the first one.
        start: u32,
        /// How many jobs there are.
        jobs: u32,
    },
    /// Judges the transcript on the input.
    Audit,
    /// Carries out the script on the input on a store.
    Admin,
}

/// Reads the words after the program's name as a command.
pub(crate) fn read_words<'a>(words: &'a [String]) -> Option<Command<'a>>
    ensures value { option_map invocation result ≡ invocation_of (map string_bytes words.now) }
    ensures fits { IfSome result Fits }
{
    match words {
        [word] => lone(word.as_str()),
        [word, operand, keys @ ..] if word.as_str() == "sniff" => sniff(operand.as_str(), keys),
        [word, operand] => with_operand(word.as_str(), operand.as_str()),
        [word, first, second, third] => with_three(
            word.as_str(),
            first.as_str(),
            second.as_str(),
            third.as_str(),
        ),
        _ => None,
    }
}

fn sniff<'a>(operand: &str, words: &'a [String]) -> Option<Command<'a>>
    ensures value { option_map invocation result ≡ sniff_words operand.now (map string_bytes words.now) }
    ensures fits { IfSome result Fits }
{
    if words.len() > MOST_KEYS || !are_keys(words) {
        return None;
    }
    let jobs = count(operand, MOST_JOBS)?;
    Some(Command::Sniff { jobs, words })
}

fn lone<'a>(word: &str) -> Option<Command<'a>>
    ensures value { option_map invocation result ≡ lone_word word.now }
    ensures fits { IfSome result Fits }
{
    if word == "play" {
        Some(Command::Play)
    } else if word == "audit" {
        Some(Command::Audit)
    } else {
        None
    }
}

fn with_operand<'a>(word: &str, operand: &'a str) -> Option<Command<'a>>
    ensures value { option_map invocation result ≡ word_and_operand word.now operand.now }
    ensures fits { IfSome result Fits }
{
    if word == "install" && operand.len() < u32::MAX as usize {
        Some(Command::Install { code: operand })
    } else if word == "make" {
        let count = count(operand, MOST_MADE)?;
        Some(Command::Make { count })
    } else if word == "inspect" {
        let jobs = count(operand, MOST_JOBS)?;
        Some(Command::Inspect { jobs })
    } else if word == "admin" {
        Some(Command::Admin)
    } else {
        None
    }
}

fn with_three<'a>(word: &str, first: &str, second: &str, third: &str) -> Option<Command<'a>>
    ensures value { option_map invocation result ≡ word_and_three word.now first.now second.now third.now }
    ensures fits { IfSome result Fits }
{
    if word == "campaign" {
        campaign(first, second, third)
    } else {
        None
    }
}

fn campaign<'a>(runs: &str, start: &str, jobs: &str) -> Option<Command<'a>>
    ensures value { option_map invocation result ≡ campaign_words runs.now start.now jobs.now }
    ensures fits { IfSome result Fits }
{
    let runs = count(runs, MOST_RUNS)?;
    let start = number(LAST_START, start.as_bytes())?;
    let jobs = count(jobs, MOST_JOBS)?;
    Some(Command::Campaign {
        count: runs,
        start,
        jobs,
    })
}

/// Reads a word as a number from 1 to `limit`.
fn count(word: &str, limit: u32) -> Option<u32>
    ensures value { result ≡ count_of limit word.now }
    ensures range { IfSome result (λ count. (1 ≤ count) × (count ≤ limit)) }
{
    match number(limit, word.as_bytes()) {
        Some(0) | None => None,
        Some(count) => Some(count),
    }
}
