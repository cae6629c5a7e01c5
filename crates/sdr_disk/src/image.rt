// How the image of a crash is made from the bytes now and the changes that are kept.
ghost use Rattle.std.specs.Prelude.{◌≡◌, ◌≤◌, ◌+◌, ◌/◌, ◌%◌, length, replicate, take};
ghost use Rattle.sdr_base.specs.Parts.{overwrite};
ghost use Rattle.sdr_disk.specs.History.{image_of};
ghost use Rattle.sdr_disk.specs.Image.{AllFit, Fits, SplitsAtSync, is_good_sync};
ghost use Rattle.sdr_disk.specs.Image.{tear_change, tear_changes};
ghost use Rattle.sdr_disk.specs.Kept.{LeadsBytes, changes_of, history_of, undone, undone_all};

use crate::Torn;
use crate::change::{Change, KeptChange, Outcome};
use sdr_base::put_at;

/// Makes of the bytes now the image of a crash at a moment: the bytes at the last good sync that
/// had returned, with each write that had begun since torn.
pub fn crash(kept: &[KeptChange], moment: u64, torn: Torn, image: &mut [u8])
    requires { LeadsBytes (undone_all kept.now image.old) kept.now image.old }
    ensures { image.new ≡ image_of torn (history_of kept.now image.old) moment }
{
    let last = synced(returned(kept, moment));
    undo_all(&kept[last..], image);
    tear_all(&begun(kept, moment)[last..], torn, image);
}

// The changes that had returned by a moment: each takes two, its begin and its return.
fn returned(kept: &[KeptChange], moment: u64) -> &[KeptChange]
    ensures { result.now ≡ take (moment / 2) kept.now }
{
    &kept[..(moment / 2).min(kept.len() as u64) as usize]
}

// The changes that had begun by a moment.
fn begun(kept: &[KeptChange], moment: u64) -> &[KeptChange]
    ensures { result.now ≡ take (moment / 2 + moment % 2) kept.now }
{
    &kept[..(moment / 2 + moment % 2).min(kept.len() as u64) as usize]
}

// How many changes there are up to the last good sync, itself among them.
fn synced(kept: &[KeptChange]) -> usize
    ensures { SplitsAtSync kept.now result }
{
    let mut count = kept.len();
    while count > 0 && !is_good_sync(&kept[count - 1].change) {
        count -= 1;
    }
    count
}

// Whether it is a sync that was done.
fn is_good_sync(change: &Change) -> bool
    ensures { result ≡ is_good_sync change.now }
{
    matches!(change, Change::Sync(Outcome::Done))
}

// Puts back what stood where these changes wrote, the last one first.
#[tactic(auto, using(crate::proofs::ImageLemmas::undoing))]
fn undo_all(kept: &[KeptChange], image: &mut [u8])
    requires { AllFit (length image.old) kept.now }
    ensures { image.new ≡ undone_all kept.now image.old }
{
    let mut rest = kept;
    while let Some((last, earlier)) = rest.split_last() {
        undo(last, image);
        rest = earlier;
    }
}

// Puts back what stood where a change wrote.
fn undo(kept: &KeptChange, image: &mut [u8])
    requires { Fits (length image.old) kept.now.change kept.now.before }
    ensures { image.new ≡ undone kept.now.change kept.now.before image.old }
{
    if let Change::Write { place, .. } = &kept.change {
        put_at(image, *place as usize, kept.before.as_slice());
    }
}

// Puts into an image what a crash leaves of these changes, the first one first.
fn tear_all(kept: &[KeptChange], torn: Torn, image: &mut [u8])
    requires { AllFit (length image.old) kept.now }
    ensures { image.new ≡ tear_changes torn (changes_of kept.now) image.old }
{
    let mut rest = kept;
    while let Some((first, later)) = rest.split_first() {
        tear(first, torn, image);
        rest = later;
    }
}

// Puts into an image what a crash leaves of a change.
fn tear(kept: &KeptChange, torn: Torn, image: &mut [u8])
    requires { Fits (length image.old) kept.now.change kept.now.before }
    ensures { image.new ≡ tear_change torn kept.now.change image.old }
{
    if let Change::Write { place, from, .. } = &kept.change {
        let place = *place as usize;
        match torn {
            Torn::Old => {}
            Torn::New => put_at(image, place, from.as_slice()),
            Torn::Filled(byte) => fill_at(image, place, from.len(), byte),
        }
    }
}

// Puts one byte at so many places from one on.
#[tactic(auto, using(std::proofs::lemmas::Slice::overwrites))]
fn fill_at(bytes: &mut [u8], place: usize, count: usize, byte: u8)
    requires { place + count ≤ length bytes.old }
    ensures { bytes.new ≡ overwrite place (replicate count byte) bytes.old }
{
    bytes[place..place + count].fill(byte);
}
