// Who owns a chain of blocks, and where the links of a chain stand.
ghost use Rattle.std.specs.Prelude.{◌≡◌, ◌≤◌, ◌<◌, ◌^◌, length, IfSome};
ghost use Rattle.sdr_base.specs.Cells.{IsRegionSize};
ghost use Rattle.sdr_base.specs.KeptHeap.{block_in};
ghost use Rattle.audit_owners.specs.Owners.{account_word, first_site, kind_in, last_site, names_owner, next_field, site_place, told_at};
ghost use Rattle.audit_owners.specs.View.{view_in};

use crate::region::{root, word};
use sdr_base::control::{FIRST_NAME, FIRST_TICKET, INBOUND, LAST_NAME, LAST_TICKET, OUTBOUND};
use sdr_base::layout::{capsule, element, extent, hash_entry, list, name, object, ticket};
use sdr_base::{Acct, Addr, Kind, WORD};

/// A word that holds a link: the address of a block, or 0.
#[derive(Clone, Copy)]
pub enum Site {
    /// The control word of this number.
    Control(u64),
    /// A word of the block at an address, counted from 0.
    Block { addr: Addr, field: u64 },
}

/// Who owns a chain of blocks.
#[derive(Clone, Copy)]
pub enum Owner {
    /// The catalogue, of its entries.
    Catalogue,
    /// An account, of its tickets.
    Queue(Acct),
    /// The list at an address, of its elements.
    List(Addr),
    /// The hash at an address, of the entries of the bucket whose front stands in this word.
    Bucket { hash: Addr, front: u64 },
    /// The object at an address, of its headers.
    Headers(Addr),
    /// The object at an address, of its extents.
    Extents(Addr),
    /// The object at an address, of its trailers.
    Trailers(Addr),
}

impl Site {
    /// The number in the word.
    pub fn read(self, heap: &[u8]) -> u64
        requires region { IsRegionSize (length heap.now) }
        ensures { result ≡ told_at (view_in heap.now) self }
    {
        match self {
            Site::Control(number) => root(heap, number),
            Site::Block { addr, field } => word(heap, addr, field),
        }
    }

    /// Where it is told that the word is wrong: at the control word, or at the block's address.
    pub fn place(self) -> u64
        requires placed { site_place self < 2 ^ 64 }
        ensures { result ≡ site_place self }
    {
        match self {
            Site::Control(number) => WORD * number,
            Site::Block { addr, .. } => addr,
        }
    }
}

// The control word with which those of an account begin.
fn account_word(account: Acct) -> u64
    ensures is { result ≡ account_word account }
    ensures most { result ≤ OUTBOUND }
{
    match account {
        Acct::Inbound => INBOUND,
        Acct::Outbound => OUTBOUND,
    }
}

impl Owner {
    /// The word with the link to the first block.
    pub fn first(self) -> Site
        ensures is { result ≡ first_site self }
        ensures placed { site_place result < 2 ^ 64 }
    {
        match self {
            Owner::Catalogue => Site::Control(FIRST_NAME),
            Owner::Queue(account) => Site::Control(account_word(account) + FIRST_TICKET),
            Owner::List(addr) => Site::Block {
                addr,
                field: list::FIRST,
            },
            Owner::Bucket { hash, front } => Site::Block {
                addr: hash,
                field: front,
            },
            Owner::Headers(addr) => Site::Block {
                addr,
                field: object::FIRST_HEADER,
            },
            Owner::Extents(addr) => Site::Block {
                addr,
                field: object::FIRST_EXTENT,
            },
            Owner::Trailers(addr) => Site::Block {
                addr,
                field: object::FIRST_TRAILER,
            },
        }
    }

    /// The word with the address of the last block. A bucket has none.
    pub fn last(self) -> Option<Site>
        ensures is { result ≡ last_site self }
        ensures placed { IfSome result (λ site. site_place site < 2 ^ 64) }
    {
        match self {
            Owner::Catalogue => Some(Site::Control(LAST_NAME)),
            Owner::Queue(account) => Some(Site::Control(account_word(account) + LAST_TICKET)),
            Owner::List(addr) => Some(Site::Block {
                addr,
                field: list::LAST,
            }),
            Owner::Bucket { .. } => None,
            Owner::Headers(addr) => Some(Site::Block {
                addr,
                field: object::LAST_HEADER,
            }),
            Owner::Extents(addr) => Some(Site::Block {
                addr,
                field: object::LAST_EXTENT,
            }),
            Owner::Trailers(addr) => Some(Site::Block {
                addr,
                field: object::LAST_TRAILER,
            }),
        }
    }

    /// The kind of the blocks.
    pub fn kind(self) -> Kind
        ensures { result ≡ kind_in self }
    {
        match self {
            Owner::Catalogue => Kind::Name,
            Owner::Queue(_) => Kind::Ticket,
            Owner::List(_) => Kind::Element,
            Owner::Bucket { .. } => Kind::HashEntry,
            Owner::Headers(_) => Kind::Capsule,
            Owner::Extents(_) => Kind::Extent,
            Owner::Trailers(_) => Kind::Capsule,
        }
    }

    /// The word of each block that links to the next one.
    pub fn next_field(self) -> u64
        ensures { result ≡ next_field self }
    {
        match self {
            Owner::Catalogue => name::NEXT,
            Owner::Queue(_) => ticket::NEXT,
            Owner::List(_) => element::NEXT,
            Owner::Bucket { .. } => hash_entry::NEXT,
            Owner::Headers(_) => capsule::NEXT,
            Owner::Extents(_) => extent::NEXT,
            Owner::Trailers(_) => capsule::NEXT,
        }
    }

    /// Whether the block at an address names its owner, and the block before it, where its kind does.
    pub fn is_named(self, heap: &[u8], before: Addr, addr: Addr) -> bool
        requires region { IsRegionSize (length heap.now) }
        ensures { result ≡ names_owner self before (block_in heap.now addr) }
    {
        match self {
            Owner::Catalogue => true,
            Owner::Queue(account) => word(heap, addr, ticket::ACCOUNT) == account.number(),
            Owner::List(list) => {
                word(heap, addr, element::LIST) == list
                    && word(heap, addr, element::PREVIOUS) == before
            }
            Owner::Bucket { .. } => true,
            Owner::Headers(_) => true,
            Owner::Extents(_) => true,
            Owner::Trailers(_) => true,
        }
    }
}
