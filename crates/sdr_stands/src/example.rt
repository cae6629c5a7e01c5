// A small world in blocks, and where the control words stand.
ghost use Rattle.std.specs.Prelude.{◌≡◌, [], ◌∷◌};
ghost use Rattle.sdr_stands.specs.Example.{bundle_entries, bundle_roots, bundle_world};
ghost use Rattle.sdr_stands.specs.Standing.{entries_of, roots_of};
ghost use Rattle.sdr_base.specs.Roots.{roots_by};
ghost use Rattle.sdr_base.specs.declared.control.TheConstants as control;
ghost use Rattle.sdr_base.specs.declared.line.TheConstants.{START_BITS};

/// A law: the world of a string, a list, a name, a source and an object is kept by just these blocks and control
/// words, byte by byte. It does nothing.
pub fn bundle_is_kept_so()
    ensures blocks { entries_of bundle_world ≡ bundle_entries }
    ensures words { roots_of bundle_world ≡ roots_by bundle_roots }
{}

/// A law: the size, the first block's place, the end of the small pool and the begin of the large one stand in the
/// words 0 to 3; the fronts of 64 lists of small blocks in those behind 3, and of lists of large blocks up to
/// order 20 in those from 68 on; the world's own words from 89 up to 127; and the start bits from byte 1,024 on. It
/// does nothing.
pub fn control_words_stand_so()
    ensures pools { (control.SIZE ∷ control.START ∷ control.LOW ∷ control.HIGH ∷ [])
        ≡ (0 ∷ 1 ∷ 2 ∷ 3 ∷ []) }
    ensures lists { (control.SMALL_LISTS ∷ control.MOST_SMALL ∷ control.LARGE_LISTS ∷
        control.MOST_ORDER ∷ [])
        ≡ (3 ∷ 64 ∷ 68 ∷ 20 ∷ []) }
    ensures world { (control.FIRST_NAME ∷ control.CONTROL_WORDS ∷ START_BITS ∷ [])
        ≡ (89 ∷ 128 ∷ 1024 ∷ []) }
{}
