//! The record of tables: what a disk keeps of them.
ghost use Rattle.std.specs.Prelude.{◌≡◌, ◌≤◌, length, take};
ghost use Rattle.zb_keys.specs.Tables.{heading_of, state_of, IsSound};
ghost use Rattle.zb_model.specs.Record.{record_of};
ghost use Rattle.zb_base.specs.Sizes.{record_room};
ghost use Rattle.zb_record.specs.Sizes.{greatest_record};

use crate::Tables;
use crate::contents::Contents;
use zb_record::{Heading, write_record};

impl Contents {
    /// Returns what stands before the rows in the record.
    fn heading(&self) -> Heading
        ensures { result ≡ heading_of self.now }
    {
        Heading {
            role: self.role,
            state: self.state,
            declared: self.declared,
            aps_limit: self.aps_limit,
            rolling: self.rolling,
            active: self.active,
        }
    }

    /// Writes the whole record.
    fn put_record(&self, into: &mut [u8]) -> u32
        requires sound { IsSound self.now }
        requires room { record_room ≤ length into.old }
        ensures bytes { take result into.new ≡ record_of (state_of self.now) }
        ensures greatest { result ≤ greatest_record }
    {
        let heading = self.heading();
        write_record(
            &heading,
            self.nets.as_slice(),
            self.links.as_slice(),
            self.pairs.as_slice(),
            into,
        )
    }
}

impl Tables {
    /// Writes the record of the tables, and returns its length.
    ///
    /// Requires room for `RECORD_ROOM` bytes. The greatest record has 46,358.
    pub fn record_bytes(&self, into: &mut [u8]) -> u32
        requires { record_room ≤ length into.old }
        ensures bytes { take result into.new ≡ record_of self.now }
        ensures greatest { result ≤ greatest_record }
    {
        self.contents.put_record(into)
    }
}
