// Why a disk isn't put back.
use sdr_base::NoMemory;
use sdr_disk::DiskFault;
use thiserror::Error;

/// Why a disk isn't put back.
#[derive(Clone, Copy, Debug, PartialEq, Eq, Error)]
pub enum BackError {
    /// The disk gives no heap for these regions. Nothing was written.
    #[error("the disk gives no heap for these regions")]
    BadLog,
    /// The disk failed. Opening it gives the same heap as before.
    #[error("the disk failed")]
    DiskFault,
    /// There is no memory for the log region or its records. Nothing was written.
    #[error("no memory")]
    NoMemory,
}

impl From<DiskFault> for BackError {
    ghost use Rattle.std.specs.Prelude.{◌≡◌};
    ghost use Rattle.sdr_log.specs.declared.error.BackError.TheVariants as errors;

    ghost from_gives = { λ _ e. e ≡ errors.DiskFault };

    fn from(_: DiskFault) -> BackError {
        BackError::DiskFault
    }
}

impl From<NoMemory> for BackError {
    ghost use Rattle.std.specs.Prelude.{◌≡◌};
    ghost use Rattle.sdr_log.specs.declared.error.BackError.TheVariants as errors;

    ghost from_gives = { λ _ e. e ≡ errors.NoMemory };

    fn from(_: NoMemory) -> BackError {
        BackError::NoMemory
    }
}
