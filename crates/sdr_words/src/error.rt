// Why no script, and no step of a line, was read.
ghost use Rattle.std.specs.Prelude.{◌≡◌};

use sdr_base::{NoMemory, SourceFault};
use std::alloc::AllocFailed;
use thiserror::Error;

/// Why no script was read.
#[derive(Drop, Debug, Error)]
pub enum ScriptError {
    /// The input failed.
    #[error("input fault")]
    Input,
    /// The first line that the grammar refuses, counted from 1 over all lines.
    #[error("line {line}")]
    Line { line: u64 },
    #[error("no memory")]
    NoMemory,
}

impl From<NoMemory> for ScriptError {
    ghost use Rattle.sdr_words.specs.declared.error.ScriptError.TheVariants as errors;

    ghost from_gives = { λ _ e. e ≡ errors.NoMemory };

    fn from(_: NoMemory) -> ScriptError {
        ScriptError::NoMemory
    }
}

impl<T: Drop> From<AllocFailed<T>> for ScriptError {
    ghost use Rattle.sdr_words.specs.declared.error.ScriptError.TheVariants as errors;

    ghost from_gives = { λ _ e. e ≡ errors.NoMemory };

    fn from(_: AllocFailed<T>) -> ScriptError {
        ScriptError::NoMemory
    }
}

impl From<SourceFault> for ScriptError {
    ghost use Rattle.sdr_words.specs.declared.error.ScriptError.TheVariants as errors;

    ghost from_gives = { λ _ e. e ≡ errors.Input };

    fn from(_: SourceFault) -> ScriptError {
        ScriptError::Input
    }
}

/// Why a line gives no step.
#[derive(Clone, Copy)]
pub enum LineError {
    /// The grammar refuses it.
    Refused,
    NoMemory,
}

impl From<NoMemory> for LineError {
    ghost use Rattle.sdr_words.specs.declared.error.LineError.TheVariants as errors;

    ghost from_gives = { λ _ e. e ≡ errors.NoMemory };

    fn from(_: NoMemory) -> LineError {
        LineError::NoMemory
    }
}

impl<T: Drop> From<AllocFailed<T>> for LineError {
    ghost use Rattle.sdr_words.specs.declared.error.LineError.TheVariants as errors;

    ghost from_gives = { λ _ e. e ≡ errors.NoMemory };

    fn from(_: AllocFailed<T>) -> LineError {
        LineError::NoMemory
    }
}
