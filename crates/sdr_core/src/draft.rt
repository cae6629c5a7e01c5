// An event that is about to be made.
ghost use Rattle.std.specs.Prelude.{◌≡◌, ◌≤◌, ◌++◌, [], ℕ, List, IfOk, OnOk, length, true, vec_capacity, if◌then◌else◌};
ghost use Rattle.sdr_machine.specs.Transaction.{bytes_given};
ghost use Rattle.sdr_core.specs.Drafting.{FitsIn, IsBlank, IsDraft};
ghost use Rattle.sdr_core.specs.Noting.{said_noted};

use crate::Noted;
use crate::copying::copy_of;
use sdr_base::{Bytes, Items, Move, NoMemory};
use sdr_machine::{Came, Room};
use sdr_model::{Answer, Event, Moves, Reply, Said};
use std::alloc::Global;

/// An event that is about to be made, and the memory that a log will need for it.
#[derive(Drop)]
pub struct Draft {
    pub event: Event,
    /// Room for the moves of its call.
    pub moves: Vec<Move>,
    /// Room for the bytes that its call gives.
    pub bytes: Vec<u8>,
}

// The moves of the call that was made, if one was. Room that it has left is given back.
fn moves_of(mut room: Vec<Move>, came: Came, moves: &[Move]) -> Moves
    requires blank { room.items ≡ [] }
    requires fit { length (if came.called then moves.now else []) ≤ vec_capacity room }
    ensures { result ≡ (if came.called then moves.now else []) }
{
    if came.called {
        let Ok(()) = room.extend_from_slice(moves) else {
            unreachable!();
        };
    }
    room.shrink_to_fit();
    Items::of(room)
}

// Whether a call that is answered so gives bytes.
fn gives_bytes(answer: Answer) -> bool
    ensures { (shown : List ℕ) → bytes_given answer shown ≡ (if result then shown else []) }
{
    match answer {
        Answer::Reply(Reply::Refused(_)) => false,
        Answer::Reply(Reply::MediaFault) => false,
        _ => true,
    }
}

// The bytes that the call gave, if one was made. Room that it has left is given back.
fn bytes_of(mut room: Vec<u8>, came: Came, shown: &[u8]) -> Bytes
    requires blank { room.items ≡ [] }
    requires fit { length (if came.called then bytes_given came.answer shown.now else []) ≤
        vec_capacity room }
    ensures { result ≡ (if came.called then bytes_given came.answer shown.now else []) }
{
    if came.called && gives_bytes(came.answer) {
        let Ok(()) = room.extend_from_slice(shown) else {
            unreachable!();
        };
    }
    room.shrink_to_fit();
    Bytes::of(room)
}

impl Draft {
    /// Takes the memory for what an event may come to.
    pub fn new(alloc: Global, event: &Event, room: Room) -> Result<Draft, NoMemory>
        ensures { IfOk result (λ draft. IsDraft draft event.now room) }
    {
        Ok(Draft {
            event: copy_of(alloc, event)?,
            moves: Vec::with_capacity(alloc, room.moves)?,
            bytes: Vec::with_capacity(alloc, room.bytes)?,
        })
    }

    /// What was said in the event. It takes no memory.
    pub fn said(self, noted: &Noted, moves: &[Move], shown: &[u8]) -> Said
        requires blank { IsBlank self }
        requires fit { FitsIn self (said_noted noted.now self.event moves.now shown.now) }
        ensures { result ≡ said_noted noted.now self.event moves.now shown.now }
    {
        Said {
            line: noted.line,
            event: self.event,
            answer: noted.came.answer,
            bytes: bytes_of(self.bytes, noted.came, shown),
            moves: moves_of(self.moves, noted.came, moves),
        }
    }
}
