// The marks of a transaction.
ghost use Rattle.std.specs.Prelude.{◌≡◌, ◌*◌, ◌/◌, ◌%◌, ◌<◌, ℕ, true, false, IfOk};
ghost use Rattle.std.specs.Prelude.{length, replicate, set, get_or};
ghost use Rattle.std.specs.List.{All, Contains};
ghost use Rattle.sdr_heap.specs.Noted.{marked_in};

use sdr_base::{Addr, NoMemory, WORD};
use std::alloc::Global;
use std::marker::Model;

// The list has an entry for so many words.
const WORDS_PER_ENTRY: usize = 64;

/// A mark for each word of a heap region, which contracts see.
#[derive(Drop)]
pub struct Marks {
    /// Of each word, whether it is marked.
    words: Vec<bool>,
    /// The marked words; once it is full, some of them.
    listed: Vec<u64>,
    /// How many words the list has room for.
    room: usize,
}

impl Model for Marks {
    ghost use Rattle.std.specs.Prelude.{Bool, List, vec_capacity};
    ghost use Rattle.sdr_heap.specs.Noted.{ListsMarked};

    ghost Value = { List Bool };

    ghost view = { λ s. s.words.items };

    ghost invariant = { λ s.
        ListsMarked s.words.items s.listed.items s.room (vec_capacity s.listed) };
}

// Takes the marks of these words off, which are all that there are.
fn unmark(marks: &mut [bool], listed: &[u64])
    requires inside { All (λ word. word < length marks.old) listed.now }
    requires all { (word : ℕ) → get_or marks.old word false ≡ true → Contains listed.now word }
    ensures { marks.new ≡ replicate (length marks.old) false }
{
    for word in listed {
        marks[*word as usize] = false;
    }
}

impl Marks {
    /// No mark, in a region of so many words, with all the memory that marking takes.
    pub fn new(alloc: Global, words: usize) -> Result<Marks, NoMemory>
        ensures { IfOk result (λ marks. marks ≡ replicate words false) }
    {
        let room = words / WORDS_PER_ENTRY + 1;
        Ok(Marks {
            words: vec![in alloc; false; words]?,
            listed: Vec::with_capacity(alloc, room)?,
            room,
        })
    }

    /// Marks an address, which is that of a whole word.
    pub fn mark(&mut self, addr: Addr)
        requires inside { addr / WORD < length self.old }
        ensures { self.new ≡ set self.old (addr / WORD) true }
    {
        let word = addr / WORD;
        if self.words[word as usize] {
            return;
        }
        self.words[word as usize] = true;
        if self.listed.len() < self.room {
            self.listed.push_reserved(word);
        }
    }

    /// Whether an address is marked.
    pub fn is_marked(&self, addr: Addr) -> bool
        ensures { result ≡ marked_in self.now addr }
    {
        addr % WORD == 0 && self.words.get((addr / WORD) as usize) == Some(&true)
    }

    /// Takes all marks off. This writes a byte for each word that is marked, or, where at least one
    /// in 64 is, a byte for each word.
    pub fn clear(&mut self)
        ensures { self.new ≡ replicate (length self.old) false }
    {
        if self.listed.len() < self.room {
            unmark(&mut self.words, &self.listed);
        } else {
            self.words.fill(false);
        }
        self.listed.clear();
    }
}
