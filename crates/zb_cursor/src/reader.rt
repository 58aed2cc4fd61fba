//! Reading fields from the start of bytes: a `Reader` is at a place in them and moves forward field by field.
ghost use Rattle.std.specs.Prelude.{◌≡◌, [], ◌+◌, ◌*◌, ◌<◌, ◌≤◌, ◌^◌, ◌++◌, length, IfOk, OnOk, OnErr, IfSome, is_some};
ghost use Rattle.std.specs.Int.{w16, w32, w64};
ghost use Rattle.zb_cursor.specs.Spelling.{byte, number, short, eui, key, optional};
ghost use Rattle.zb_cursor.specs.Reading.{Gives, GivesBy, read_into, byte_at, body_and_mic_at, bytes_at, number_at, short_at, eui_at, key_at, optional_at, times_at};
ghost use Rattle.std.specs.List.{flat_map, AllByRecursion};
ghost use Rattle.zb_base.specs.Limits.{longest_frame};

use crate::writing::fill;
use arrayvec::ArrayVec;
use zb_base::{Eui, Frame, Key, Short};

/// A place in bytes that are read field by field from the start.
///
/// Each method returns the next field and moves to its end.
///
/// # Errors
/// `cut` if the bytes run out; the place then stays as it was, except for `shorts`.
#[derive(Drop)]
pub struct Reader<'a, E> {
    /// The bytes that are still to be read.
    pub rest: &'a [u8],
    /// The fault at a field whose bytes are not all there.
    pub cut: E,
}

impl<'a, E: Copy + Drop> Reader<'a, E> {
    /// Reads one byte.
    ///
    /// # Errors
    /// `cut` if the bytes run out.
    pub fn byte(&mut self) -> Result<u8, E>
        ensures exact { Gives result self.new.rest.now (byte_at self.old.cut self.old.rest.now) }
        ensures spelled { IfOk result (λ x. self.old.rest.now ≡ byte x ++ self.new.rest.now) }
        ensures in_range { IfOk result (λ x. x < 2 ^ 8) }
        ensures stays { OnErr result (self.new.rest.now ≡ self.old.rest.now) }
        ensures used { OnOk result (length self.new.rest.now + 1 ≡ length self.old.rest.now) }
        ensures cut { self.new.cut ≡ self.old.cut }
    {
        match self.rest {
            [] => Err(self.cut),
            [first, rest @ ..] => {
                self.rest = rest;
                Ok(*first)
            }
        }
    }

    /// Reads the next `count` bytes, as they are.
    ///
    /// # Errors
    /// `cut` if the bytes run out.
    #[tactic(auto, unfolding(crate::specs::Reading::bytes_at))]
    pub fn bytes(&mut self, count: usize) -> Result<&'a [u8], E>
        ensures exact { GivesBy (λ xs. xs.now) result self.new.rest.now
            (bytes_at count self.old.cut self.old.rest.now) }
        ensures spelled { IfOk result (λ xs. self.old.rest.now ≡ xs.now ++ self.new.rest.now) }
        ensures length { IfOk result (λ xs. length xs.now ≡ count) }
        ensures stays { OnErr result (self.new.rest.now ≡ self.old.rest.now) }
        ensures used { OnOk result (length self.new.rest.now + count ≡ length self.old.rest.now) }
        ensures cut { self.new.cut ≡ self.old.cut }
    {
        if self.rest.len() < count {
            return Err(self.cut);
        }
        let (front, rest) = self.rest.split_at(count);
        self.rest = rest;
        Ok(front)
    }

    /// Reads all bytes that are left.
    pub fn all(&mut self) -> &'a [u8]
        ensures spelled { result.now ≡ self.old.rest.now }
        ensures nothing { self.new.rest.now ≡ [] }
        ensures cut { self.new.cut ≡ self.old.cut }
    {
        let rest = self.rest;
        self.rest = &[];
        rest
    }

    /// Reads all bytes that are left: a body, and after it a MIC of 4 bytes.
    ///
    /// Requires at most 127 bytes to be left.
    ///
    /// # Errors
    /// `cut` if fewer than 4 bytes are left.
    #[tactic(auto, unfolding(crate::specs::Reading::body_and_mic_at))]
    pub fn body_and_mic_into(&mut self, body: &mut Frame, mic: &mut [u8; 4]) -> Result<(), E>
        requires { length self.old.rest.now ≤ longest_frame }
        ensures exact { Gives (read_into result (body.new.items, mic.new)) self.new.rest.now
            (body_and_mic_at self.old.cut self.old.rest.now) }
        ensures spelled { OnOk result (self.old.rest.now ≡ body.new.items ++ mic.new) }
        ensures mic { OnOk result (length mic.new ≡ 4) }
        ensures cut { self.new.cut ≡ self.old.cut }
    {
        if self.rest.len() < 4 {
            return Err(self.cut);
        }
        let (front, code) = self.rest.split_at(self.rest.len() - 4);
        mic.copy_from_slice(code);
        self.rest = &[];
        fill(body, front);
        Ok(())
    }

    /// Reads a number of 2 bytes.
    ///
    /// # Errors
    /// `cut` if the bytes run out.
    #[tactic(auto, unfolding(crate::specs::Reading::number_at))]
    pub fn number16(&mut self) -> Result<u16, E>
        ensures exact { Gives result self.new.rest.now (number_at w16 self.old.cut self.old.rest.now) }
        ensures spelled { IfOk result (λ x. self.old.rest.now ≡ number w16 x ++ self.new.rest.now) }
        ensures in_range { IfOk result (λ x. x < 2 ^ 16) }
        ensures stays { OnErr result (self.new.rest.now ≡ self.old.rest.now) }
        ensures used { OnOk result (length self.new.rest.now + 2 ≡ length self.old.rest.now) }
        ensures cut { self.new.cut ≡ self.old.cut }
    {
        if self.rest.len() < 2 {
            return Err(self.cut);
        }
        let (front, rest) = self.rest.split_at(2);
        self.rest = rest;
        Ok(u16::from_le_bytes([front[0], front[1]]))
    }

    /// Reads a number of 4 bytes.
    ///
    /// # Errors
    /// `cut` if the bytes run out.
    #[tactic(auto, unfolding(crate::specs::Reading::number_at))]
    pub fn number32(&mut self) -> Result<u32, E>
        ensures exact { Gives result self.new.rest.now (number_at w32 self.old.cut self.old.rest.now) }
        ensures spelled { IfOk result (λ x. self.old.rest.now ≡ number w32 x ++ self.new.rest.now) }
        ensures in_range { IfOk result (λ x. x < 2 ^ 32) }
        ensures stays { OnErr result (self.new.rest.now ≡ self.old.rest.now) }
        ensures used { OnOk result (length self.new.rest.now + 4 ≡ length self.old.rest.now) }
        ensures cut { self.new.cut ≡ self.old.cut }
    {
        if self.rest.len() < 4 {
            return Err(self.cut);
        }
        let (front, rest) = self.rest.split_at(4);
        self.rest = rest;
        Ok(u32::from_le_bytes([front[0], front[1], front[2], front[3]]))
    }

    /// Reads a number of 8 bytes.
    ///
    /// # Errors
    /// `cut` if the bytes run out.
    #[tactic(auto, unfolding(crate::specs::Reading::number_at))]
    pub fn number64(&mut self) -> Result<u64, E>
        ensures exact { Gives result self.new.rest.now (number_at w64 self.old.cut self.old.rest.now) }
        ensures spelled { IfOk result (λ x. self.old.rest.now ≡ number w64 x ++ self.new.rest.now) }
        ensures in_range { IfOk result (λ x. x < 2 ^ 64) }
        ensures stays { OnErr result (self.new.rest.now ≡ self.old.rest.now) }
        ensures used { OnOk result (length self.new.rest.now + 8 ≡ length self.old.rest.now) }
        ensures cut { self.new.cut ≡ self.old.cut }
    {
        if self.rest.len() < 8 {
            return Err(self.cut);
        }
        let (front, rest) = self.rest.split_at(8);
        self.rest = rest;
        Ok(u64::from_le_bytes([
            front[0], front[1], front[2], front[3], front[4], front[5], front[6], front[7],
        ]))
    }

    /// Reads a short address.
    ///
    /// # Errors
    /// `cut` if the bytes run out.
    #[tactic(auto, unfolding(crate::specs::Reading::short_at))]
    pub fn short(&mut self) -> Result<Short, E>
        ensures exact { Gives result self.new.rest.now (short_at self.old.cut self.old.rest.now) }
        ensures spelled { IfOk result (λ x. self.old.rest.now ≡ short x ++ self.new.rest.now) }
        ensures in_range { IfOk result (λ x. x.0 < 2 ^ 16) }
        ensures stays { OnErr result (self.new.rest.now ≡ self.old.rest.now) }
        ensures used { OnOk result (length self.new.rest.now + 2 ≡ length self.old.rest.now) }
        ensures cut { self.new.cut ≡ self.old.cut }
    {
        let number = self.number16()?;
        Ok(Short(number))
    }

    /// Reads an EUI.
    ///
    /// # Errors
    /// `cut` if the bytes run out.
    #[tactic(auto, unfolding(crate::specs::Reading::eui_at))]
    pub fn eui(&mut self) -> Result<Eui, E>
        ensures exact { Gives result self.new.rest.now (eui_at self.old.cut self.old.rest.now) }
        ensures spelled { IfOk result (λ x. self.old.rest.now ≡ eui x ++ self.new.rest.now) }
        ensures in_range { IfOk result (λ x. x.0 < 2 ^ 64) }
        ensures stays { OnErr result (self.new.rest.now ≡ self.old.rest.now) }
        ensures used { OnOk result (length self.new.rest.now + 8 ≡ length self.old.rest.now) }
        ensures cut { self.new.cut ≡ self.old.cut }
    {
        let number = self.number64()?;
        Ok(Eui(number))
    }

    /// Reads a key, in the order of its bytes.
    ///
    /// # Errors
    /// `cut` if the bytes run out.
    #[tactic(auto, unfolding(crate::specs::Reading::key_at))]
    pub fn key(&mut self) -> Result<Key, E>
        ensures exact { Gives result self.new.rest.now (key_at self.old.cut self.old.rest.now) }
        ensures spelled { IfOk result (λ x. self.old.rest.now ≡ key x ++ self.new.rest.now) }
        ensures in_range { IfOk result (λ x. length x.0 ≡ 16) }
        ensures stays { OnErr result (self.new.rest.now ≡ self.old.rest.now) }
        ensures used { OnOk result (length self.new.rest.now + 16 ≡ length self.old.rest.now) }
        ensures cut { self.new.cut ≡ self.old.cut }
    {
        let front = self.bytes(16)?;
        let mut key = [0; 16];
        key.copy_from_slice(front);
        Ok(Key(key))
    }

    /// Reads one byte, if it is present.
    ///
    /// # Errors
    /// `cut` if the bytes run out.
    pub fn optional_byte(&mut self, present: bool) -> Result<Option<u8>, E>
        ensures exact { Gives result self.new.rest.now (optional_at present byte_at self.old.cut self.old.rest.now) }
        ensures spelled { IfOk result (λ o. self.old.rest.now ≡ optional byte o ++ self.new.rest.now) }
        ensures present { IfOk result (λ o. is_some o ≡ present) }
        ensures in_range { IfOk result (λ o. IfSome o (λ x. x < 2 ^ 8)) }
        ensures stays { OnErr result (self.new.rest.now ≡ self.old.rest.now) }
        ensures shorter { length self.new.rest.now ≤ length self.old.rest.now }
        ensures cut { self.new.cut ≡ self.old.cut }
    {
        if !present {
            return Ok(None);
        }
        let field = self.byte()?;
        Ok(Some(field))
    }

    /// Reads a number of 2 bytes, if it is present.
    ///
    /// # Errors
    /// `cut` if the bytes run out.
    pub fn optional_number16(&mut self, present: bool) -> Result<Option<u16>, E>
        ensures exact { Gives result self.new.rest.now
            (optional_at present (number_at w16) self.old.cut self.old.rest.now) }
        ensures spelled { IfOk result (λ o. self.old.rest.now ≡ optional (number w16) o ++ self.new.rest.now) }
        ensures present { IfOk result (λ o. is_some o ≡ present) }
        ensures in_range { IfOk result (λ o. IfSome o (λ x. x < 2 ^ 16)) }
        ensures stays { OnErr result (self.new.rest.now ≡ self.old.rest.now) }
        ensures shorter { length self.new.rest.now ≤ length self.old.rest.now }
        ensures cut { self.new.cut ≡ self.old.cut }
    {
        if !present {
            return Ok(None);
        }
        let field = self.number16()?;
        Ok(Some(field))
    }

    /// Reads an EUI, if it is present.
    ///
    /// # Errors
    /// `cut` if the bytes run out.
    pub fn optional_eui(&mut self, present: bool) -> Result<Option<Eui>, E>
        ensures exact { Gives result self.new.rest.now (optional_at present eui_at self.old.cut self.old.rest.now) }
        ensures spelled { IfOk result (λ o. self.old.rest.now ≡ optional eui o ++ self.new.rest.now) }
        ensures present { IfOk result (λ o. is_some o ≡ present) }
        ensures in_range { IfOk result (λ o. IfSome o (λ x. x.0 < 2 ^ 64)) }
        ensures stays { OnErr result (self.new.rest.now ≡ self.old.rest.now) }
        ensures shorter { length self.new.rest.now ≤ length self.old.rest.now }
        ensures cut { self.new.cut ≡ self.old.cut }
    {
        if !present {
            return Ok(None);
        }
        let field = self.eui()?;
        Ok(Some(field))
    }

    /// Reads the next `count` short addresses.
    ///
    /// Requires that the array has room for all that the bytes to come can hold.
    ///
    /// # Errors
    /// `cut` if the bytes run out; the reader is then after the last whole address.
    pub fn shorts<const N: usize>(&mut self, count: u8) -> Result<ArrayVec<Short, N>, E>
        requires { length self.old.rest.now ≤ 2 * N + 1 }
        ensures exact { GivesBy (λ v. v.items) result self.new.rest.now
            (times_at short_at count self.old.cut self.old.rest.now) }
        ensures spelled { IfOk result (λ v. self.old.rest.now ≡ flat_map short v.items ++ self.new.rest.now) }
        ensures number { IfOk result (λ v. length v.items ≡ count) }
        ensures in_range { IfOk result (λ v. AllByRecursion (λ s. s.0 < 2 ^ 16) v.items) }
        ensures shorter { length self.new.rest.now ≤ length self.old.rest.now }
        ensures cut { self.new.cut ≡ self.old.cut }
    {
        let mut shorts = ArrayVec::new();
        for _ in 0..count {
            let short = self.short()?;
            shorts.push(short);
        }
        Ok(shorts)
    }
}
