// Tables.
ghost use Rattle.std.specs.Prelude.{◌≡◌, ◌*◌, ◌<◌, ◌^◌, IfOk, length, replicate};
ghost use Rattle.sdr_base.specs.Parts.{overwrite, part};

use sdr_base::{Bytes, NoMemory};
use std::alloc::Global;
use std::marker::Model;

/// A table of rows of one size, with a number of the user's.
#[derive(Drop)]
pub struct SdrTable {
    user: u64,
    rows: u64,
    /// The bytes of a row.
    size: u64,
    /// The rows one after another.
    bytes: Bytes,
}

impl Model for SdrTable {
    ghost use Rattle.std.specs.Prelude.{◌≡◌, ◌*◌, ◌<◌, ◌^◌, length};
    ghost use Rattle.sdr_model.specs.Tables as tables;

    ghost Value = { tables.Table };

    ghost coded = { tables.coded_table };

    ghost view = { λ s. record { user = s.user; rows = s.rows; size = s.size; bytes = s.bytes } };

    ghost invariant = { λ s. (length s.bytes ≡ s.rows * s.size) × (length s.bytes < 2 ^ 63) };
}

impl SdrTable {
    /// A table of zero bytes.
    pub fn new(alloc: Global, user: u64, rows: u64, size: u64) -> Result<SdrTable, NoMemory>
        requires small { rows * size < 2 ^ 32 }
        ensures { IfOk result (λ table. table
            ≡ record { user = user; rows = rows; size = size; bytes = replicate (rows * size) 0 }) }
    {
        Ok(SdrTable {
            user,
            rows,
            size,
            bytes: Bytes::zeros(alloc, (rows * size) as usize)?,
        })
    }

    pub fn copied(&self, alloc: Global) -> Result<SdrTable, NoMemory>
        ensures { IfOk result (λ copy. copy ≡ self.now) }
    {
        Ok(SdrTable {
            user: self.user,
            rows: self.rows,
            size: self.size,
            bytes: Bytes::copied(alloc, self.bytes.as_slice())?,
        })
    }

    /// A table of these bytes, the rows one after another.
    pub fn of(user: u64, rows: u64, size: u64, bytes: Bytes) -> SdrTable
        requires whole { length bytes ≡ rows * size }
        requires below { length bytes < 2 ^ 63 }
        ensures { result ≡ record { user = user; rows = rows; size = size; bytes = bytes } }
    {
        SdrTable {
            user,
            rows,
            size,
            bytes,
        }
    }

    pub fn user(&self) -> u64
        ensures { result ≡ self.now.user }
    {
        self.user
    }

    pub fn rows(&self) -> u64
        ensures { result ≡ self.now.rows }
    {
        self.rows
    }

    pub fn size(&self) -> u64
        ensures { result ≡ self.now.size }
    {
        self.size
    }

    pub fn bytes(&self) -> &Bytes
        ensures { result.now ≡ self.now.bytes }
    {
        &self.bytes
    }

    /// The bytes of a row, from 0.
    pub fn row(&self, row: u64) -> &[u8]
        requires inside { row < self.now.rows }
        ensures { result.now ≡ part (self.now.size * row) self.now.size self.now.bytes }
    {
        let size = self.size as usize;
        let place = size * row as usize;
        &self.bytes.as_slice()[place..place + size]
    }

    /// Sets the bytes of a row, from 0.
    pub fn set_row(&mut self, row: u64, from: &[u8])
        requires inside { row < self.old.rows }
        requires size { length from.now ≡ self.old.size }
        ensures { self.new ≡ record self.old { bytes = overwrite (self.old.size * row) from.now self.old.bytes } }
    {
        self.bytes.overwrite((self.size * row) as usize, from);
    }
}
