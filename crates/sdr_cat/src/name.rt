// Names as they stand in the entries of the catalogue.
ghost use Rattle.std.specs.Prelude.{◌≡◌, ◌≤◌, length, IfErr, OnOk};
ghost use Rattle.sdr_base.specs.Catalogue.{name_bytes};
ghost use Rattle.sdr_cat.specs.Names.{IsName, IsBadName};

use sdr_base::limits::LONGEST_NAME;
use sdr_base::{Refusal, Stop};

// Refuses a name of no byte or of too many.
pub fn check_name(name: &[u8]) -> Result<(), Stop>
    ensures fits { OnOk result (IsName name.now) }
    ensures refused { IfErr result (IsBadName name.now) }
{
    if name.is_empty() || name.len() as u64 > LONGEST_NAME {
        return Err(Stop::Refused(Refusal::BadLength {
            length: name.len() as u64,
            most: LONGEST_NAME,
        }));
    }
    Ok(())
}

// The length of a name, the name, and zeros.
pub fn stored(name: &[u8]) -> [u8; 32]
    requires short { length name.now ≤ LONGEST_NAME }
    ensures { result ≡ name_bytes name.now }
{
    let mut bytes = [0; 32];
    bytes[0] = name.len() as u8;
    bytes[1..1 + name.len()].copy_from_slice(name);
    bytes
}
