// The verbs of a load.
ghost use Rattle.std.specs.Prelude.{◌≡◌};
ghost use Rattle.sdr_load.specs.VerbWords.{verb_word};
ghost use Rattle.sdr_load.specs.VerbPlaces.{place_of};

/// What a statement of a load asks for.
#[derive(Clone, Copy)]
pub enum Verb {
    Begin,
    End,
    Cancel,
    Malloc,
    Free,
    Write,
    List,
    InsertLast,
    Delete,
    First,
    Datum,
    Catlg,
    Find,
}

impl Verb {
    /// The place of the verb in the grammar's table of verbs, from 0.
    #[tactic(auto, unfolding(crate::specs::VerbPlaces::place_of, sdr_words::specs::Verbs::verb_names))]
    pub fn place(self) -> u64
        ensures { result ≡ place_of (verb_word self) }
    {
        match self {
            Verb::Begin => 0,
            Verb::End => 1,
            Verb::Cancel => 2,
            Verb::Malloc => 5,
            Verb::Free => 6,
            Verb::Write => 9,
            Verb::List => 15,
            Verb::InsertLast => 21,
            Verb::Delete => 26,
            Verb::First => 27,
            Verb::Datum => 31,
            Verb::Catlg => 46,
            Verb::Find => 47,
        }
    }
}
