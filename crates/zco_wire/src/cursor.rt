// How far the pieces of an object were gone over.
ghost use Rattle.std.specs.Prelude.{◌≡◌, ◌≤◌, ◌+◌, ◌-◌, min};

use sdr_model::Part;

// How many bytes ahead are passed over before any is given, and how many bytes of the buffer were
// given.
#[derive(Clone, Copy)]
pub struct Cursor {
    pub skip: u64,
    pub given: u64,
}

// Which bytes of a piece of so many are to be given, where the buffer has so much room.
pub fn window(at: Cursor, bytes: u64, room: u64) -> Part
    requires room { at.given ≤ room }
    ensures offset { result.offset ≡ min at.skip bytes }
    ensures length { result.length ≡ min (room - at.given) (bytes - at.skip) }
{
    let offset = at.skip.min(bytes);
    Part {
        offset,
        length: (room - at.given).min(bytes - offset),
    }
}

// The cursor behind a piece of which these bytes were given.
pub fn behind(at: Cursor, part: Part) -> Cursor
    requires passed { part.offset ≤ at.skip }
    requires few { at.given + part.length ≤ 4096 }
    ensures skip { result.skip ≡ at.skip - part.offset }
    ensures given { result.given ≡ at.given + part.length }
{
    Cursor {
        skip: at.skip - part.offset,
        given: at.given + part.length,
    }
}
