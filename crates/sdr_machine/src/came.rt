// What a lock answers.
use sdr_model::Answer;

/// An answer, and whether a call was made for it, whose moves and bytes the ground then shows.
#[derive(Clone, Copy)]
pub struct Came {
    pub answer: Answer,
    pub called: bool,
}
