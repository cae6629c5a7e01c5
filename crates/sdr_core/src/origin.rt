// What a core begins from.
ghost use Rattle.sdr_core.specs.CoreKept.{RunStart, bare_begins};

use std::marker::Brand;

/// What the facts of a core begin from. The caller that makes one picks it.
pub trait Origin {
    ghost begins: { RunStart };
}

impl Origin for Brand {
    ghost begins = { bare_begins };
}
