//! The command `install`.
ghost use Rattle.std.specs.Prelude.{◌≡◌, ◌≢◌, ◌<◌, ◌-◌, ◌^◌, ◌∷◌, ◌++◌, [], length, IfOk, Some};
ghost use Rattle.hex.specs.Hex.{encode_upper};
ghost use Rattle.zb_base.specs.Outside.{Unrisen};
ghost use Rattle.zb_install.specs.Code.{code_of_text};
ghost use Rattle.zb_command.specs.Answers.{install_answer};
ghost use Rattle.zb_command.specs.Outcomes.{Ends};

use crate::status::{Cause, Status};
use std::alloc::{AllocError, Global};
use zb_base::{Key, Sink};
use zb_install::InstallCode;
use zb_text::fields::put_key;
use zb_text::page::{end_line, hand_out};

/// Writes the link key of an install code.
pub(crate) fn install_code<W: Sink>(alloc: Global, code: &str, output: &mut W) -> Status
    requires { length code.now < 2 ^ 32 - 1 }
    ensures ends { Ends result (Some (install_answer (code_of_text code.now))) (W.taken output.old)
        (W.taken output.new) (W.faults output.old) (W.faults output.new) }
    ensures read_fault { result ≡ Status.ReadFault → ⊥ }
    ensures no_write_fault { result ≢ Status.WriteFault → Unrisen (W.faults output.old) (W.faults output.new) }
{
    let code = match InstallCode::from_hex(code) {
        Ok(code) => code,
        Err(error) => {
            return Status::Refused {
                line: 1,
                cause: Cause::from(error),
            };
        }
    };
    let Ok(mut page) = key_page(alloc, &code.link_key()) else {
        return Status::NoMemory;
    };
    match hand_out(&mut page, output) {
        Ok(()) => Status::Ok,
        Err(_) => Status::WriteFault,
    }
}

/// Prints the digits of a key, and a line feed.
fn key_page(alloc: Global, key: &Key) -> Result<Vec<u8>, AllocError>
    ensures { IfOk result (λ page. page.items ≡ encode_upper key.now.0 ++ 10 ∷ []) }
{
    let mut page = Vec::new(alloc);
    put_key(&mut page, key)?;
    end_line(&mut page)?;
    Ok(page)
}
