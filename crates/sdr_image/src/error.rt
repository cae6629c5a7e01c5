// Why a disk isn't formatted or opened.
use sdr_base::NoMemory;
use sdr_disk::DiskFault;
use thiserror::Error;

/// Why a disk isn't formatted.
#[derive(Clone, Copy, Debug, PartialEq, Eq, Error)]
pub enum FormatError {
    /// The head and the regions take more bytes than the disk has. No call of it was made.
    #[error("the regions take {need} bytes, and the disk has {have}")]
    TooSmall { need: u64, have: u64 },
    /// The disk failed, and holds what was written by then.
    #[error("the disk failed")]
    DiskFault,
}

impl From<DiskFault> for FormatError {
    ghost use Rattle.std.specs.Prelude.{◌≡◌};
    ghost use Rattle.sdr_image.specs.declared.error.FormatError.TheVariants as errors;

    ghost from_gives = { λ _ e. e ≡ errors.DiskFault };

    fn from(_: DiskFault) -> FormatError {
        FormatError::DiskFault
    }
}

/// Why a disk isn't opened.
#[derive(Clone, Copy, Debug, PartialEq, Eq, Error)]
pub enum ImageError {
    /// The disk gives no heap: it has no head, is shorter than its head tells, or has open batches
    /// that are wrong.
    #[error("the disk is not formatted")]
    NotFormatted,
    /// The disk failed. Its open batches may have been put back in part; opening it again goes on.
    #[error("the disk failed")]
    DiskFault,
    /// There is no memory for the heap region, for the undo of a transaction, or for the open batches.
    #[error("no memory")]
    NoMemory,
}

impl From<DiskFault> for ImageError {
    ghost use Rattle.std.specs.Prelude.{◌≡◌};
    ghost use Rattle.sdr_image.specs.declared.error.ImageError.TheVariants as errors;

    ghost from_gives = { λ _ e. e ≡ errors.DiskFault };

    fn from(_: DiskFault) -> ImageError {
        ImageError::DiskFault
    }
}

impl From<NoMemory> for ImageError {
    ghost use Rattle.std.specs.Prelude.{◌≡◌};
    ghost use Rattle.sdr_image.specs.declared.error.ImageError.TheVariants as errors;

    ghost from_gives = { λ _ e. e ≡ errors.NoMemory };

    fn from(_: NoMemory) -> ImageError {
        ImageError::NoMemory
    }
}

/// A disk that isn't opened, and why. Its bytes are as before, unless it failed.
#[derive(Drop)]
pub struct ImageShut<D> {
    pub why: ImageError,
    pub disk: D,
}
