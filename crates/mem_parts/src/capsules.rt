// Headers and trailers.
ghost use Rattle.std.specs.Prelude.{◌≡◌, ◌≤◌, ◌^◌};
ghost use Rattle.mem_parts.specs.Bounds.{AreFewTexts};
ghost use Rattle.sdr_model.specs.Charges.{capsule_bytes};
ghost use Rattle.sdr_model.specs.Zco.{capsules_length};

use sdr_model::Capsule;

/// What a header or trailer of so many bytes charges: the words that it fills, with the link before it.
pub fn capsule_bytes(bytes: u64) -> u64
    requires small { bytes ≤ 2 ^ 62 }
    ensures { result ≡ capsule_bytes bytes }
{
    8 * ((15 + bytes) / 8)
}

/// The bytes of these headers or trailers together.
pub fn capsules_length(capsules: &[Capsule]) -> u64
    requires few { AreFewTexts capsules.now }
    ensures { result ≡ capsules_length capsules.now }
{
    let mut bytes = 0;
    for capsule in capsules {
        bytes += capsule.text.as_slice().len() as u64;
    }
    bytes
}
