// The lists of free blocks.
ghost use Rattle.std.specs.Prelude.{◌≡◌, ◌≢◌, ◌≤◌, ◌<◌, ◌+◌, ◌-◌, ◌*◌, ◌^◌, ℕ, List, false, length, IfErr, IfOk, IfSome, OnOk, None};
ghost use Rattle.std.specs.List.{list_any};
ghost use Rattle.sdr_base.specs.LargePool.{order_of};
ghost use Rattle.sdr_base.specs.Stored.{leader_words};
ghost use Rattle.sdr_base.specs.declared.control.TheConstants.{LARGE_LISTS, LOW, MOST_ORDER};
ghost use Rattle.sdr_base.specs.declared.line.TheConstants.{WORD};
ghost use Rattle.audit_blocks.specs.Auditing.{DamagedIn};
ghost use Rattle.audit_blocks.specs.Control.{control_word};
ghost use Rattle.audit_blocks.specs.Free.{AreListed, IsListWord, IsWrongFree, IsWrongList};
ghost use Rattle.audit_blocks.specs.Labels.{IsLabel};
ghost use Rattle.audit_blocks.specs.Listed.{IsFirstLost, Leaves, ListWalked, ListsWalked, frame_at, frame_in, free_left, has_previous, is_listed, is_lost, is_small_list, is_told_free, list_of, may_follow};
ghost use Rattle.audit_blocks.specs.Spots.{is_free_spot};
ghost use Rattle.audit_blocks.specs.Walk.{OfBlocks};
ghost use Rattle.audit_blocks.specs.Walked.{IsBuilt, IsSurveyed};

use crate::control::{Edges, control_word};
use crate::error::{Check, Damage};
use crate::label::{Label, read_label};
use crate::number::number_at;
use crate::spot::{Spot, is_free};
use sdr_base::WORD;
use sdr_base::control::{LARGE_LISTS, MOST_ORDER, MOST_SMALL, SMALL_LISTS};

/// A link of a list of free blocks.
#[derive(Clone, Copy)]
pub struct Link {
    /// The control word in which the front of the list stands.
    pub word: u64,
    /// The address of the block in which the link stands, 0 for the front.
    pub before: u64,
    /// The address of the block to which it leads, 0 where the list ends.
    pub addr: u64,
}

// Whether the list whose front stands in a control word is one of small blocks.
fn is_small_list(word: u64) -> bool
    ensures { result ≡ is_small_list word }
{
    word <= SMALL_LISTS + MOST_SMALL
}

// How far before its address the leader of a block stands that is in the list of a control word.
fn frame_in(word: u64) -> u64
    ensures { result ≡ frame_in word }
{
    if is_small_list(word) { WORD } else { 2 * WORD }
}

// How far before its address the leader of a block stands that begins at a place, where small blocks end at `low`.
fn frame_at(place: u64, low: u64) -> u64
    ensures { result ≡ frame_at place low }
{
    if place < low { WORD } else { 2 * WORD }
}

// The order of a large block of so many words.
fn order_of(words: u64) -> u64
    ensures order { result ≡ order_of words }
    ensures most { result ≤ MOST_ORDER }
{
    u64::from(words.max(1).ilog2()).min(MOST_ORDER)
}

// The control word of the list in which the block with this leader is, if it is free, where small blocks end at `low`.
fn list_of(label: &Label, place: u64, low: u64) -> u64
    requires words { label.now.words < 2 ^ 32 }
    ensures { (bytes : List ℕ) → IsLabel bytes place label.now → control_word bytes LOW ≡ low →
        result ≡ list_of bytes place }
{
    if place < low {
        SMALL_LISTS + label.words
    } else {
        LARGE_LISTS + order_of(label.words)
    }
}

// Whether it is told that a free block begins at a place.
fn is_told_free(spots: &[Spot], place: u64) -> bool
    ensures { result ≡ is_told_free spots.now place }
{
    place % WORD == 0 && is_free(spots, place / WORD)
}

// Whether it is told that a free block of the list of a control word has this address.
fn is_listed(heap: &[u8], edges: &Edges, spots: &[Spot], word: u64, addr: u64) -> bool
    requires built { IsBuilt heap.now edges.now }
    requires spots { length spots.now * WORD ≡ length heap.now }
    ensures { result ≡ is_listed heap.now spots.now word addr }
{
    let frame = frame_in(word);
    if addr < frame || !is_told_free(spots, addr - frame) {
        return false;
    }
    let label = read_label(heap, addr - frame);
    list_of(&label, addr - frame, edges.low) == word
}

// Whether the large block to which a link leads has a right link to the one before it.
fn has_previous(heap: &[u8], link: &Link) -> bool
    requires large { is_small_list link.now.word ≡ false }
    requires frame { 2 * WORD ≤ link.now.addr }
    requires inside { link.now.addr + WORD * leader_words (link.now.addr - 2 * WORD) heap.now
        + WORD
        ≤ length heap.now }
    ensures { result ≡ has_previous heap.now link.now.word link.now.before link.now.addr }
{
    let label = read_label(heap, link.addr - 2 * WORD);
    number_at(heap, link.addr + WORD * label.words) == link.before
}

// Whether the block to which a link leads is a free one of its list that was not reached yet, with a right link to the one before it.
fn may_follow(heap: &[u8], edges: &Edges, spots: &[Spot], link: &Link) -> bool
    requires built { IsBuilt heap.now edges.now }
    requires left { Leaves heap.now spots.now
        (λ told reached. ListWalked heap.now told reached link.now) }
    ensures { result ≡ may_follow heap.now spots.now link.now.word link.now.before link.now.addr }
{
    is_listed(heap, edges, spots, link.word, link.addr)
        && (is_small_list(link.word) || has_previous(heap, link))
}

// Strikes out the block to which a link leads, and answers the link that stands in it.
fn follow(heap: &[u8], edges: &Edges, spots: &mut [Spot], link: Link) -> Result<Link, Damage>
    requires built { IsBuilt heap.now edges.now }
    requires more { link.addr ≢ 0 }
    requires left { Leaves heap.now spots.old
        (λ told reached. ListWalked heap.now told reached link) }
    ensures left { IfOk result (λ next. Leaves heap.now spots.new
        (λ told reached. ListWalked heap.now told reached next)) }
    ensures word { IfOk result (λ next. next.word ≡ link.word) }
    ensures fewer { OnOk result (free_left spots.new < free_left spots.old) }
    ensures damaged { IfErr result (DamagedIn Check.Free IsWrongList heap.now) }
{
    if !may_follow(heap, edges, spots, &link) {
        return Err(Damage {
            place: WORD * link.word,
            why: Check::Free,
        });
    }
    let place = link.addr - frame_in(link.word);
    spots[(place / WORD) as usize] = Spot::Nothing;
    Ok(Link {
        word: link.word,
        before: link.addr,
        addr: number_at(heap, place + WORD),
    })
}

// Walks over the list of a control word, and strikes out its blocks. A block that is reached again ends the walk, so that it takes
// no more steps than there are blocks.
fn walk_list(heap: &[u8], edges: &Edges, spots: &mut [Spot], word: u64) -> Result<(), Damage>
    requires built { IsBuilt heap.now edges.now }
    requires list { IsListWord word }
    requires left { Leaves heap.now spots.old
        (λ told reached. ListsWalked heap.now told reached word) }
    ensures left { OnOk result (Leaves heap.now spots.new
        (λ told reached. ListsWalked heap.now told reached (word + 1))) }
    ensures damaged { IfErr result (DamagedIn Check.Free IsWrongList heap.now) }
{
    let mut link = Link {
        word,
        before: 0,
        addr: control_word(heap, word),
    };
    while link.addr != 0 {
        link = follow(heap, edges, spots, link)?;
    }
    Ok(())
}

// Walks over all lists.
fn walk_lists(heap: &[u8], edges: &Edges, spots: &mut [Spot]) -> Result<(), Damage>
    requires surveyed { IsSurveyed heap.now edges.now spots.old }
    ensures left { OnOk result (Leaves heap.now spots.new
        (λ told reached. ListsWalked heap.now told reached (LARGE_LISTS + MOST_ORDER + 1))) }
    ensures damaged { IfErr result (DamagedIn Check.Free IsWrongList heap.now) }
{
    for word in SMALL_LISTS + 1..LARGE_LISTS + MOST_ORDER + 1 {
        walk_list(heap, edges, spots, word)?;
    }
    Ok(())
}

// Whether a free block begins with any of these words.
fn has_free(spots: &[Spot]) -> bool
    ensures { result ≡ list_any is_free_spot spots.now }
{
    let mut found = false;
    for spot in spots {
        found |= matches!(spot, Spot::Free);
    }
    found
}

// The first word that is left with which a free block begins. Mostly there is none, which is found out without a branch for each word.
fn first_lost(spots: &[Spot]) -> Option<usize>
    ensures none { result ≡ None → (word : ℕ) → word < length spots.now →
        is_lost spots.now word ≡ false }
    ensures some { IfSome result (IsFirstLost spots.now) }
{
    if !has_free(spots) {
        return None;
    }
    for word in 0..spots.len() {
        if is_free(spots, word as u64) {
            return Some(word);
        }
    }
    None
}

/// Checks the lists of the free blocks that were found, of both pools. It strikes out the blocks that a list reached, so that what is
/// told of words is of no use afterwards. By rising control word, each list reaches only free blocks of its own words, or of its own
/// order, each once, and a large one's previous link is right; what is wrong is told by the control word in which the list's front
/// stands. Then each free block was reached; the first that wasn't is told by its address. It is linear in the region, for each block
/// is followed once, and takes no memory.
pub fn check_free(heap: &[u8], edges: &Edges, spots: &mut [Spot]) -> Result<(), Damage>
    requires surveyed { IsSurveyed heap.now edges.now spots.old }
    ensures right { OnOk result (OfBlocks AreListed heap.now) }
    ensures damaged { IfErr result (DamagedIn Check.Free IsWrongFree heap.now) }
{
    walk_lists(heap, edges, spots)?;
    match first_lost(spots) {
        None => Ok(()),
        Some(word) => {
            let place = WORD * word as u64;
            Err(Damage {
                place: place + frame_at(place, edges.low),
                why: Check::Free,
            })
        }
    }
}
