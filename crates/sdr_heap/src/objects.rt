// A heap as `Objects`.
ghost use Rattle.std.specs.Prelude.{◌≡◌};

use crate::Heap;
use crate::blocks::{get, kind_of, label, put};
use crate::choosing::choose;
use crate::giving::give_back;
use sdr_base::{
    Addr, Cells, HasHeap, Kind, Move, Objects, Refusal, Stop, WORD, read_number, write_number,
};

impl<C: Cells> HasHeap for Heap<C> {
    ghost use Rattle.std.specs.Prelude.{◌≡◌};
    ghost use Rattle.sdr_base.specs.Moves as moves;
    ghost use Rattle.sdr_base.specs.KeptHeap as kept;
    ghost use Rattle.sdr_heap.specs.Noted as noted;

    ghost heap = { λ s. record {
      size = s.size;
      blocks = kept.block_in (C.bytes s.cells);
      roots = kept.root_in (C.bytes s.cells);
      marks = noted.marked_in s.marks;
      moves = s.moves;
      spare = s.spare;
    } };

    ghost keeps = { λ s. kept.KeepsRegion s.size (C.bytes s.cells) };

    ghost transaction = { λ s. C.transaction s.cells };

    ghost quiet = { λ a b. C.quiet a.cells b.cells × (b.size ≡ a.size) };

    ghost moved = { λ a b. moves.Moves (kept.KeepsRegion a.size (C.bytes a.cells))
        (kept.KeepsRegion b.size (C.bytes b.cells)) a.moves b.moves };
}

impl<C: Cells> Objects for Heap<C> {
    ghost use Rattle.std.specs.Prelude.{refl};
    ghost use Rattle.std.proofs.Common.{◌∙◌};
    ghost use Rattle.sdr_base.proofs.MovesLemmas as lemmas;
    ghost use Rattle.sdr_base.specs.KeptHeap as kept;
    ghost use Rattle.sdr_base.proofs.FewLemmas as few_lemmas;

    fn take(&mut self, kind: Kind, need: u64) -> Result<Addr, Stop> {
        let words = need.div_ceil(WORD).max(1);
        let Some(addr) = choose(&mut self.cells, words)? else {
            self.moves.push(Move::Short { need });
            return Err(Stop::Refused(Refusal::NoBlock { need }));
        };
        label(&mut self.cells, addr, kind, need)?;
        self.marks.mark(addr);
        self.moves.push(Move::Took { need, addr });
        Ok(addr)
    }

    fn give(&mut self, addr: Addr) -> Result<(), Stop> {
        give_back(&mut self.cells, addr)?;
        self.moves.push(Move::Gave { addr });
        Ok(())
    }

    fn kind(&mut self, addr: Addr) -> Result<Option<(Kind, u64)>, Stop> {
        kind_of(&mut self.cells, addr)
    }

    fn get(&mut self, addr: Addr, place: u64, into: &mut [u8]) -> Result<(), Stop> {
        get(&mut self.cells, addr, place, into)
    }

    fn put(&mut self, addr: Addr, place: u64, from: &[u8]) -> Result<(), Stop> {
        put(&mut self.cells, addr, place, from)
    }

    fn root(&mut self, word: u64) -> Result<u64, Stop> {
        read_number(&mut self.cells, WORD * word)
    }

    fn set_root(&mut self, word: u64, value: u64) -> Result<(), Stop> {
        write_number(&mut self.cells, WORD * word, value)
    }

    fn mark(&mut self, addr: Addr) {
        self.marks.mark(addr);
    }

    fn marked(&self, addr: Addr) -> bool {
        self.marks.is_marked(addr)
    }

    ghost quiet_refl = { λ a. (C.quiet_refl a.cells, refl) };

    ghost quiet_trans = { λ a b c f g. (C.quiet_trans a.cells b.cells c.cells f.0 g.0, g.1 ∙ f.1) };

    ghost quiet_size = { λ a b f. f.1 };

    ghost moved_refl = { λ a. lemmas.Moves-none (kept.KeepsRegion a.size (C.bytes a.cells))
        (kept.KeepsRegion a.size (C.bytes a.cells)) a.moves (λ pools keeps. keeps) };

    ghost moved_trans = { λ a b c f g. lemmas.Moves-then
        (kept.KeepsRegion a.size (C.bytes a.cells)) (kept.KeepsRegion b.size (C.bytes b.cells))
        (kept.KeepsRegion c.size (C.bytes c.cells)) a.moves b.moves c.moves f g };

    ghost moved_leads = { λ a b f. f };

    ghost few = { λ a kept. kept.keeps.few };

    ghost small = { λ a kept.
        few_lemmas.region_small a.size (C.bytes a.cells) kept.pools kept.keeps };
}
