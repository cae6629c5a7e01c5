// Sources of bytes, and zero-copy objects.
ghost use Rattle.std.specs.Prelude.{◌≡◌, ◌<◌, ◌^◌, IfOk, length, map};
ghost use Rattle.sdr_model.specs.Zco.{raw_of, space_of};
ghost use Rattle.sdr_model.specs.Things.{block_among, block_for_capsule, block_for_extent, object_blocks, own_block, path_length};
ghost use Rattle.sdr_model.specs.declared.things.Thing.TheVariants as things;

use crate::UsedBlock;
use sdr_base::{Acct, Addr, Bytes, Items, Kind, NoMemory, Space};
use std::alloc::Global;

/// What the bytes of a source are.
#[derive(Drop)]
pub enum Subject {
    /// Those of a file, by its path.
    File(Bytes),
    /// Those of an item of bulk storage, by its number.
    Bulk(u64),
    /// Those of a raw object that the source has taken over.
    Heap(Addr),
    /// Those of a raw object that stays with its owner.
    Obj(Addr),
}

/// A source of bytes, which extents name parts of.
#[derive(Drop)]
pub struct ZcoSource {
    pub subject: Subject,
    /// In bytes.
    pub length: u64,
    /// Whether it goes with its last extent, and no extent may be added.
    pub flagged: bool,
}

/// A part of a source in an object.
#[derive(Clone, Copy)]
pub struct Extent {
    /// The extent's own address.
    pub block: Addr,
    /// The source's address.
    pub source: Addr,
    /// In bytes of the source.
    pub offset: u64,
    pub length: u64,
}

/// A header or a trailer of an object.
#[derive(Drop)]
pub struct Capsule {
    /// The capsule's own address.
    pub block: Addr,
    pub text: Bytes,
}

/// A part of the bytes of an object's extents.
#[derive(Clone, Copy)]
pub struct Part {
    pub offset: u64,
    pub length: u64,
}

/// A zero-copy object.
#[derive(Drop)]
pub struct ZcoObject {
    pub account: Acct,
    /// The first one first on the wire.
    pub headers: Items<Capsule>,
    pub extents: Items<Extent>,
    pub trailers: Items<Capsule>,
    pub part: Part,
}

// Copies of headers or trailers.
fn copied(alloc: Global, capsules: &[Capsule]) -> Result<Items<Capsule>, NoMemory>
    ensures { IfOk result (λ copy. copy ≡ capsules.now) }
{
    let mut copy = Items::new(alloc);
    for capsule in capsules {
        copy.push(capsule.copied(alloc)?)?;
    }
    Ok(copy)
}

impl Subject {
    /// The space that the bytes are in.
    pub fn space(&self) -> Space
        ensures { result ≡ space_of self.now }
    {
        match self {
            Subject::File(_) => Space::File,
            Subject::Bulk(_) => Space::Bulk,
            Subject::Heap(_) | Subject::Obj(_) => Space::Heap,
        }
    }

    /// The raw object, where the bytes are those of one.
    pub fn raw(&self) -> Option<Addr>
        ensures { result ≡ raw_of self.now }
    {
        match self {
            Subject::Heap(raw) | Subject::Obj(raw) => Some(*raw),
            _ => None,
        }
    }

    fn copied(&self, alloc: Global) -> Result<Subject, NoMemory>
        ensures { IfOk result (λ copy. copy ≡ self.now) }
    {
        Ok(match self {
            Subject::File(path) => Subject::File(Bytes::copied(alloc, path.as_slice())?),
            Subject::Bulk(item) => Subject::Bulk(*item),
            Subject::Heap(raw) => Subject::Heap(*raw),
            Subject::Obj(raw) => Subject::Obj(*raw),
        })
    }

    // The bytes of a file's path, 0 where it is no file.
    fn path_length(&self) -> u64
        ensures value { result ≡ path_length self.now }
        ensures bound { result < 2 ^ 63 }
    {
        match self {
            Subject::File(path) => path.as_slice().len() as u64,
            _ => 0,
        }
    }
}

impl ZcoSource {
    pub fn copied(&self, alloc: Global) -> Result<ZcoSource, NoMemory>
        ensures { IfOk result (λ copy. copy ≡ self.now) }
    {
        Ok(ZcoSource {
            subject: self.subject.copied(alloc)?,
            length: self.length,
            flagged: self.flagged,
        })
    }

    /// The source's own block, where it stands at this address.
    pub fn block(&self, addr: Addr) -> UsedBlock
        ensures { result ≡ own_block addr (things.Source self.now) }
    {
        UsedBlock {
            addr,
            kind: Kind::Source,
            bytes: 48 + self.subject.path_length(),
        }
    }
}

impl Extent {
    fn block(&self) -> UsedBlock
        ensures { result ≡ block_for_extent self.now }
    {
        UsedBlock {
            addr: self.block,
            kind: Kind::Extent,
            bytes: 32,
        }
    }
}

impl Capsule {
    pub fn copied(&self, alloc: Global) -> Result<Capsule, NoMemory>
        ensures { IfOk result (λ copy. copy ≡ self.now) }
    {
        Ok(Capsule {
            block: self.block,
            text: Bytes::copied(alloc, self.text.as_slice())?,
        })
    }

    fn block(&self) -> UsedBlock
        ensures { result ≡ block_for_capsule self.now }
    {
        UsedBlock {
            addr: self.block,
            kind: Kind::Capsule,
            bytes: 8 + self.text.as_slice().len() as u64,
        }
    }
}

// The block at an address among those of headers or trailers.
fn capsule_among(capsules: &[Capsule], addr: Addr) -> Option<UsedBlock>
    ensures { result ≡ block_among addr (map block_for_capsule capsules.now) }
{
    for capsule in capsules {
        if capsule.block == addr {
            return Some(capsule.block());
        }
    }
    None
}

// The block at an address among those of extents.
fn extent_among(extents: &[Extent], addr: Addr) -> Option<UsedBlock>
    ensures { result ≡ block_among addr (map block_for_extent extents.now) }
{
    for extent in extents {
        if extent.block == addr {
            return Some(extent.block());
        }
    }
    None
}

impl ZcoObject {
    pub fn copied(&self, alloc: Global) -> Result<ZcoObject, NoMemory>
        ensures { IfOk result (λ copy. copy ≡ self.now) }
    {
        Ok(ZcoObject {
            account: self.account,
            headers: copied(alloc, self.headers.as_slice())?,
            extents: Items::copied(alloc, self.extents.as_slice())?,
            trailers: copied(alloc, self.trailers.as_slice())?,
            part: self.part,
        })
    }

    /// The block at an address among those of headers, extents and trailers.
    pub fn block(&self, addr: Addr) -> Option<UsedBlock>
        ensures { result ≡ block_among addr (object_blocks self.now) }
    {
        if let Some(block) = capsule_among(self.headers.as_slice(), addr) {
            return Some(block);
        }
        if let Some(block) = extent_among(self.extents.as_slice(), addr) {
            return Some(block);
        }
        capsule_among(self.trailers.as_slice(), addr)
    }
}
