//! Why a text gives no tables.
ghost use Rattle.std.specs.Prelude.{◌≡◌};
ghost use Rattle.zb_backup.specs.declared.error.BackupError.TheVariants.{NoMemory as lacks};

use std::alloc::{AllocError, AllocFailed};

/// Why a text gives no tables.
#[derive(Clone, Copy, Debug, PartialEq, Eq)]
pub enum BackupError {
    /// The text is no backup.
    Form,
    /// There was no memory left.
    NoMemory,
}

impl From<AllocError> for BackupError {
    ghost from_gives = { λ _ e. e ≡ lacks };

    fn from(_error: AllocError) -> BackupError {
        BackupError::NoMemory
    }
}

impl<T: Drop> From<AllocFailed<T>> for BackupError {
    ghost from_gives = { λ _ e. e ≡ lacks };

    fn from(_error: AllocFailed<T>) -> BackupError {
        BackupError::NoMemory
    }
}
