// The catalogue in the making, which can be put back to what it was at the begin.
ghost use Rattle.std.specs.Prelude.{◌≡◌, ◌++◌, ◌∷◌, [], None, OnOk, OnErr, take};
ghost use Rattle.mem_store.specs.Catalogue.{names_kept};
ghost use Rattle.sdr_model.specs.Names.{name_of, without_name};

use crate::{Named, Names};
use sdr_base::NoMemory;
use std::alloc::Global;
use std::marker::Model;
use std::mem;

/// What the catalogue was at the begin of the open transaction.
#[derive(Drop)]
pub enum KeptNames {
    /// The first so many entries, where none was taken out since.
    Front(usize),
    /// These entries.
    All(Names),
}

/// The catalogue now and at the begin of the open transaction. It is copied once in a transaction, when
/// the first entry is taken out.
#[derive(Drop)]
pub struct Catalogue {
    alloc: Global,
    names: Names,
    kept: KeptNames,
}

impl Model for Catalogue {
    ghost use Rattle.mem_store.specs.Catalogue as catalogue;

    ghost Value = { catalogue.Catalogue };

    ghost coded = { catalogue.coded_catalogue };

    ghost view = { λ s. record { begun = catalogue.names_kept s.names s.kept; now = s.names } };

    ghost invariant = { λ s. catalogue.HasFront s.names s.kept };
}

impl Catalogue {
    /// An empty catalogue. It takes no memory.
    pub fn new(alloc: Global) -> Catalogue
        ensures { result ≡ record { begun = []; now = [] } }
    {
        Catalogue {
            alloc,
            names: Names::new(alloc),
            kept: KeptNames::Front(0),
        }
    }

    /// The entries now.
    pub fn names(&self) -> &Names
        ensures { result.now ≡ self.now.now }
    {
        &self.names
    }

    /// Adds an entry at the end. Want of memory leaves all as before.
    pub fn push(&mut self, name: &[u8], entry: Named) -> Result<(), NoMemory>
        requires new { name_of self.old.now name.now ≡ None }
        ensures ok { OnOk result (self.new.now ≡ self.old.now
            ++ record { block = entry.block; name = name.now; kind = entry.kind; object = entry.object } ∷ []) }
        ensures begun { self.new.begun ≡ self.old.begun }
        ensures same { OnErr result (self.new.now ≡ self.old.now) }
    {
        self.names.push(self.alloc, name, entry)
    }

    /// Takes the entry of a name out. Want of memory leaves all as before.
    pub fn remove(&mut self, name: &[u8]) -> Result<(), NoMemory>
        ensures ok { OnOk result (self.new.now ≡ without_name self.old.now name.now) }
        ensures begun { self.new.begun ≡ self.old.begun }
        ensures same { OnErr result (self.new.now ≡ self.old.now) }
    {
        if let KeptNames::Front(len) = self.kept {
            let mut begun = self.names.copied()?;
            begun.truncate(len);
            self.kept = KeptNames::All(begun);
        }
        self.names.remove(name);
        Ok(())
    }

    /// Takes the entries now as those to begin from.
    pub fn keep(&mut self)
        ensures { self.new ≡ record { begun = self.old.now; now = self.old.now } }
    {
        self.kept = KeptNames::Front(self.names.len());
    }

    /// Rolls the entries back to what they were at the begin.
    pub fn roll_back(&mut self)
        ensures { self.new ≡ record { begun = self.old.begun; now = self.old.begun } }
    {
        match mem::replace(&mut self.kept, KeptNames::Front(0)) {
            KeptNames::Front(len) => self.names.truncate(len),
            KeptNames::All(names) => self.names = names,
        }
        self.kept = KeptNames::Front(self.names.len());
    }
}
