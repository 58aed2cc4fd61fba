//! The install codes of the nodes, each of which stands in two lines.

ghost use Rattle.std.specs.Prelude.{◌≡◌, ◌*◌, ◌+◌, ◌≤◌, ◌++◌, length, IfOk, OnOk};
ghost use Rattle.std.specs.Int.{w16, to_le_bytes};
ghost use Rattle.arrayvec.specs.ArrayVec.{array_vec_len};
ghost use Rattle.zb_install.specs.Crc.{crc};
ghost use Rattle.zb_gen.specs.Codes.{code_bytes};
ghost use Rattle.zb_base.specs.Limits.{most_made};
ghost use Rattle.zb_install.specs.Code.{longest_code};

use crate::words::Words;
use arrayvec::ArrayVec;
use std::alloc::{AllocError, Global};
use std::marker::Model;
use zb_base::Key;
use zb_install::{InstallCode, crc};

/// The install codes of the nodes but the centre, without their CRCs.
#[derive(Drop)]
pub struct Codes {
    start: u32,
    keys: Vec<Key>,
}

impl Model for Codes {
    ghost use Rattle.std.specs.Prelude.{length};
    ghost use Rattle.zb_gen.specs.Codes.{AreKeysOf, CodesOf};

    ghost Value = { CodesOf };

    ghost view = { λ c. record { start = c.start; count = length c.keys.items } };

    ghost invariant = { λ c. AreKeysOf c.start c.keys.items };
}

impl Codes {
    /// Takes the codes of `n` nodes from the words of a generator.
    ///
    /// # Errors
    /// Out of memory.
    pub fn take(alloc: Global, words: &mut Words, n: u32) -> Result<Codes, AllocError>
        requires { (n ≤ most_made) × (words.old.place ≡ 0) }
        ensures codes { IfOk result (λ codes. codes ≡ record { start = words.old.start; count = n }) }
        ensures words { OnOk result (words.new ≡ record { start = words.old.start; place = 4 * n }) }
    {
        let start = words.start();
        let mut keys = Vec::with_capacity(alloc, n as usize)?;
        for i in 0..n {
            keys.push(words.key())?;
        }
        Ok(Codes { start, keys })
    }

    /// Returns the code of a node, from 1.
    pub fn code(&self, i: u32) -> InstallCode
        requires { (1 ≤ i) × (i ≤ self.now.count) }
        ensures { result ≡ code_bytes self.now.start i }
    {
        install_code(&self.keys[(i - 1) as usize])
    }
}

/// Makes the install code of a key by putting its CRC after it.
fn install_code(key: &Key) -> InstallCode
    ensures { result ≡ key.now.0 ++ to_le_bytes w16 (crc key.now.0) }
{
    let mut bytes: ArrayVec<u8, 18> = ArrayVec::new();
    add(&mut bytes, &key.0);
    add(&mut bytes, &crc(&key.0).to_le_bytes());
    match InstallCode::from_bytes(bytes.as_slice()) {
        Ok(code) => code,
        Err(_) => unreachable!(),
    }
}

fn add(bytes: &mut ArrayVec<u8, 18>, piece: &[u8])
    requires { array_vec_len bytes.old + length piece.now ≤ longest_code }
    ensures items { bytes.new.items ≡ bytes.old.items ++ piece.now }
    ensures len { array_vec_len bytes.new ≡ array_vec_len bytes.old + length piece.now }
{
    match bytes.try_extend_from_slice(piece) {
        Ok(()) => {}
        Err(_) => unreachable!(),
    }
}
