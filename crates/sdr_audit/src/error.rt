// Why an audit of a heap came to no good end.
ghost use Rattle.std.specs.Prelude.{◌≡◌};

use audit_blocks::{Check, Damage};
use sdr_base::{NoMemory, Stop};

/// Why an audit came to no good end.
#[derive(Clone, Copy, Debug, PartialEq, Eq)]
pub enum AuditError {
    /// The bytes stand for no world, by what is wrong first at a place in the heap region.
    Damaged { place: u64, why: Check },
    /// The disk failed.
    DiskFault,
    /// It had failed before.
    Failed,
    /// Memory was wanting. Nothing is known of the heap.
    NoMemory,
}

impl From<Stop> for AuditError {
    ghost use Rattle.sdr_audit.specs.Errors.{HasStop};

    ghost from_gives = { λ stop e. HasStop e stop };

    fn from(stop: Stop) -> AuditError {
        match stop {
            Stop::DiskFault => AuditError::DiskFault,
            _ => AuditError::Failed,
        }
    }
}

impl From<NoMemory> for AuditError {
    ghost use Rattle.sdr_audit.specs.declared.error.AuditError.TheVariants.{NoMemory};

    ghost from_gives = { λ _ e. e ≡ NoMemory };

    fn from(_want: NoMemory) -> AuditError {
        AuditError::NoMemory
    }
}

impl From<Damage> for AuditError {
    ghost use Rattle.sdr_audit.specs.declared.error.AuditError.TheVariants.{Damaged};

    ghost from_gives = { λ damage e. e ≡ Damaged damage.place damage.why };

    fn from(damage: Damage) -> AuditError {
        AuditError::Damaged {
            place: damage.place,
            why: damage.why,
        }
    }
}
