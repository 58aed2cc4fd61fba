//! The lines of an input, as they come.
ghost use Rattle.std.specs.Prelude.{◌≡◌, ◌≢◌, ◌≤◌, ◌<◌, ◌==◌, ◌⊎◌, ◌++◌, ◌∷◌, [], ℕ, List, Some, Err, false, length, position, get_or, IfOk, IfErr};
ghost use Rattle.zb_base.specs.Outside.{Rose, Unrisen, risen};
ghost use Rattle.zb_live.specs.Feeding.{IsTakeFault, IsNext, TakesFew};
ghost use Rattle.zb_live.specs.declared.fault.LiveFault.TheVariants.{NoMemory as lacks, Read as read_fault};

use crate::LiveFault;
use std::alloc::Global;
use std::mem;
use zb_base::{Failed, Source};

/// The bytes that came and weren't taken yet.
#[derive(Drop)]
pub(crate) struct Feed {
    held: Vec<u8>,
}

// How many bytes a line has at most, before its line feed.
const LONGEST_LINE: usize = 1_048_576;

// Finds the first line feed.
fn line_feed(bytes: &[u8]) -> Option<usize>
    ensures { result ≡ position (λ byte. byte == 10) bytes.now }
{
    bytes.iter().position(|byte| *byte == b'\n')
}

impl Feed {
    /// Makes a feed of which nothing came yet.
    pub fn new(alloc: Global) -> Feed
        ensures { result.held.items ≡ [] }
    {
        Feed {
            held: Vec::new(alloc),
        }
    }

    // Takes the line that ends at that place.
    fn cut(&mut self, end: usize) -> Result<Vec<u8>, LiveFault>
        requires end { end < length self.old.held.items }
        ensures line { IfOk result (λ line. self.old.held.items
            ≡ line.items ++ get_or self.old.held.items end 0 ∷ self.new.held.items) }
        ensures long { IfOk result (λ line. length line.items ≡ end) }
        ensures fault { IfErr result (λ fault. fault ≡ lacks) }
    {
        let rest = self.held.split_off(end + 1)?;
        self.held.truncate(end);
        Ok(mem::replace(&mut self.held, rest))
    }

    /// Takes the next whole line off what came, without its line feed. It returns None if none is whole.
    ///
    /// # Errors
    /// `TooLong`; `NoMemory`.
    pub fn take_line(&mut self) -> Result<Option<Vec<u8>>, LiveFault>
        ensures next { IfOk result (λ line. IsNext self.old.held.items line self.new.held.items) }
        ensures fault { IfErr result (IsTakeFault self.old.held.items) }
    {
        if let Some(end) = line_feed(self.held.as_slice()) {
            if end > LONGEST_LINE {
                return Err(LiveFault::TooLong);
            }
            let line = self.cut(end)?;
            return Ok(Some(line));
        }
        if self.held.len() > LONGEST_LINE {
            return Err(LiveFault::TooLong);
        }
        Ok(None)
    }

    /// Reads once, and returns whether something came.
    ///
    /// # Errors
    /// `Read`; `NoMemory`.
    pub fn read_on<R: Source>(&mut self, input: &mut R) -> Result<bool, LiveFault>
        ensures called { R.calls input.new ≡ risen (R.calls input.old) 1 }
        ensures few { (bytes : List ℕ) → R.rest input.old ≡ Some bytes → TakesFew bytes (R.rest input.new) }
        ensures bytes { IfOk result (λ came. (bytes : List ℕ) → R.rest input.old ≡ Some bytes
            → (left : List ℕ) × (R.rest input.new ≡ Some left)
            × (self.old.held.items ++ bytes ≡ self.new.held.items ++ left) × (came ≡ false → left ≡ [])) }
        ensures none { IfOk result (λ came. came ≡ false → self.new.held.items ≡ self.old.held.items) }
        ensures read { IfErr result (λ fault. fault ≡ read_fault → Rose (R.faults input.old) (R.faults input.new)) }
        ensures other { IfErr result (λ fault. (fault ≡ read_fault) ⊎ (fault ≡ lacks)) }
        ensures later { R.faults input.old ≤ R.faults input.new }
        ensures unrisen { result ≢ Err read_fault → Unrisen (R.faults input.old) (R.faults input.new) }
    {
        let mut buffer = [0; 4_096];
        match input.read(&mut buffer) {
            Ok(count) => {
                self.held.extend_from_slice(&buffer[..count])?;
                Ok(count > 0)
            }
            Err(Failed) => Err(LiveFault::Read),
        }
    }
}
