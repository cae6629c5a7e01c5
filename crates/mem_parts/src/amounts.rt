// Amounts that are summed up, as far as words hold the sums.
ghost use Rattle.std.specs.Prelude.{◌≡◌, ◌+◌, ℕ};
ghost use Rattle.sdr_base.specs.declared.kind.Space.{Space};
ghost use Rattle.sdr_model.specs.Amounts.{amount, amounts_by, minus};
ghost use Rattle.mem_parts.specs.Capped.{capped_by};

use sdr_base::Amounts;

/// Space by space, the sum of two amounts, or the greatest word where it is more.
pub fn capped_plus(a: &Amounts, b: &Amounts) -> Amounts
    ensures { result ≡ capped_by (λ space. amount a.now space + amount b.now space) }
{
    Amounts {
        file: a.file.saturating_add(b.file),
        bulk: a.bulk.saturating_add(b.bulk),
        heap: a.heap.saturating_add(b.heap),
    }
}

/// Space by space, what of the maxima isn't occupied, where more may be occupied than words hold.
pub fn room_beside(maxima: &Amounts, occupied: &Amounts) -> Amounts
    ensures { (of : Space → ℕ) → occupied.now ≡ capped_by of → result ≡ minus maxima.now (amounts_by of) }
{
    Amounts {
        file: maxima.file.saturating_sub(occupied.file),
        bulk: maxima.bulk.saturating_sub(occupied.bulk),
        heap: maxima.heap.saturating_sub(occupied.heap),
    }
}
