// Parts of the blocks in use.
ghost use Rattle.std.specs.FinMap as finite;
ghost use Rattle.std.specs.Prelude.{◌≡◌, ℕ, List, [], ◌++◌, None, Option, Some, map};
ghost use Rattle.sdr_stands.specs.Rows.{name_row};
ghost use Rattle.sdr_stands.specs.Standing.{entries_of, queue_entries, roots_of, thing_entries};
ghost use Rattle.sdr_stands.specs.Ties.{NoneIsTied, TieAlike, Ties, ties_of};
ghost use Rattle.sdr_base.specs.Blocks.{Blocks};
ghost use Rattle.sdr_base.specs.Catalogue.{catalogue_entries};
ghost use Rattle.sdr_base.specs.Entries.{Changes, Entries, BlocksAre, Swaps};
ghost use Rattle.sdr_base.specs.Section.{section};
ghost use Rattle.sdr_base.specs.Tickets.{ticket_entries};
ghost use Rattle.sdr_base.specs.declared.account.Acct.{Acct};
ghost use Rattle.sdr_model.specs.Accounts.{with_tickets};
ghost use Rattle.sdr_model.specs.Steps.{with_thing, without_thing};
ghost use Rattle.sdr_model.specs.Things.{Things, with_at};
ghost use Rattle.sdr_model.specs.TicketRows.{ticket_row};
ghost use Rattle.sdr_model.specs.World.{World, thing_at};
ghost use Rattle.sdr_model.specs.declared.accounts.Ticket.{Ticket};
ghost use Rattle.sdr_model.specs.declared.name.Name.{Name};
ghost use Rattle.sdr_model.specs.declared.things.Thing.{Thing};

/// A law: a part of the blocks in use becomes another, wherever it stands, and whatever else stood stands as it
/// did; and so where two parts do. It does nothing.
pub fn parts_change()
    ensures one { (old new : Blocks) (es es' part part' : Entries) →
        BlocksAre old es → Swaps es es' part part' → Changes old new part part' → BlocksAre new es' }
    ensures two { (old new : Blocks) (xs xs' ys ys' p p' q q' : Entries) →
        BlocksAre old (xs ++ ys) → Swaps xs xs' p p' → Swaps ys ys' q q' →
        Changes old new (p ++ q) (p' ++ q') → BlocksAre new (xs' ++ ys') }
{}

/// A law: where a thing comes to an address, changes or goes, its blocks are the part of the things' blocks that
/// comes, changes or goes, while what other things say of each stays. It does nothing.
pub fn things_change()
    ensures comes { (ties : Ties) (all : Things) (addr : ℕ) (thing : Thing) →
        finite.get all addr ≡ None →
        Swaps (section (thing_entries ties) all)
        (section (thing_entries ties) (finite.insert all addr thing))
        [] (thing_entries ties addr thing) }
    ensures changes { (ties : Ties) (all : Things) (addr : ℕ) (thing other : Thing) →
        finite.get all addr ≡ Some thing →
        Swaps (section (thing_entries ties) all)
        (section (thing_entries ties) (finite.insert all addr other))
        (thing_entries ties addr thing) (thing_entries ties addr other) }
    ensures goes { (ties : Ties) (all : Things) (addr : ℕ) (thing : Thing) →
        finite.get all addr ≡ Some thing →
        Swaps (section (thing_entries ties) all)
        (section (thing_entries ties) (finite.remove all addr))
        (thing_entries ties addr thing) [] }
{}

/// A law: where what is at an address now, if anything, is a source of the same raw object as what was there, and names
/// each source as often, no source's count and no raw object's source changes. It does nothing.
pub fn alike_things_tie_alike()
    ensures { (w : World) (addr : ℕ) (now : Option Thing) → TieAlike (thing_at w addr) now →
        ties_of (record w { things = with_at w.things addr now }) ≡ ties_of w }
{}

/// A law: where what was at an address, if anything, was neither a source nor a zero-copy object, and so with what is
/// there now, no source's count, no raw object's source, and no control word changes. It does nothing.
pub fn untied_things_stay_apart()
    ensures ties { (w : World) (addr : ℕ) (now : Option Thing) →
        NoneIsTied (thing_at w addr) → NoneIsTied now →
        ties_of (record w { things = with_at w.things addr now }) ≡ ties_of w }
    ensures roots { (w : World) (addr : ℕ) (now : Option Thing) →
        NoneIsTied (thing_at w addr) → NoneIsTied now →
        roots_of (record w { things = with_at w.things addr now }) ≡ roots_of w }
{}

/// A law: where a thing comes to a world, changes or goes, and what is at its address then names what was named there
/// before, the blocks of the thing are the part of the world's that comes, changes or goes. It does nothing.
pub fn alike_things_are_parts()
    ensures comes { (w : World) (addr : ℕ) (thing : Thing) →
        thing_at w addr ≡ None → TieAlike None (Some thing) →
        Swaps (entries_of w) (entries_of (with_thing w addr thing))
        [] (thing_entries (ties_of w) addr thing) }
    ensures changes { (w : World) (addr : ℕ) (thing other : Thing) →
        thing_at w addr ≡ Some thing → TieAlike (Some thing) (Some other) →
        Swaps (entries_of w) (entries_of (with_thing w addr other))
        (thing_entries (ties_of w) addr thing) (thing_entries (ties_of w) addr other) }
    ensures goes { (w : World) (addr : ℕ) (thing : Thing) →
        thing_at w addr ≡ Some thing → TieAlike (Some thing) None →
        Swaps (entries_of w) (entries_of (without_thing w addr))
        (thing_entries (ties_of w) addr thing) [] }
{}

/// A law: the catalogue, and the queue of each account, is a part of the world's blocks that becomes another where the
/// names or the tickets do. It does nothing.
pub fn names_and_tickets_change()
    ensures names { (w : World) (names : List Name) →
        Swaps (entries_of w) (entries_of (record w { names = names }))
        (catalogue_entries (map name_row w.names)) (catalogue_entries (map name_row names)) }
    ensures tickets { (w : World) (acct : Acct) (tickets : List Ticket) →
        Swaps (entries_of w) (entries_of (record w { accounts = with_tickets w.accounts acct tickets }))
        (queue_entries w.accounts acct) (ticket_entries acct (map ticket_row tickets)) }
{}
