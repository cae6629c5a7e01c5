ghost use Rattle.std.specs.Prelude.{◌≡◌, [], IfOk};
ghost use Rattle.sdr_board.specs.Known.{published, told};

use crate::pass::{Pass, pass_at};
use crate::rule::{Posts, Tells};
use crate::totals::Totals;
use crate::view::View;
use crate::writer::Writer;
use atomic_table::Table;
use sdr_base::NoMemory;
use std::alloc::Global;
use std::marker::Model;

/// The words that the writer and the readers share.
#[derive(Drop)]
pub struct Board {
    pub(crate) table: Table<(), View, (), Posts, Global>,
}

impl Model for Board {
    ghost use Rattle.std.specs.Prelude.{◌≡◌};
    ghost use Rattle.atomic_table.specs.Seated.{TableId};

    ghost Value = { TableId };

    ghost view = { λ b. b.table.shared.table_id };

    ghost invariant = { λ b. b.table.shared.table_id.words ≡ 11 };
}

impl Board {
    /// A board of the totals of no entry, its writer, and a pass.
    pub fn new(alloc: Global) -> Result<(Board, Writer, Pass), NoMemory>
        ensures writer { IfOk result (λ b. b.1 ≡ published b.0 []) }
        ensures pass { IfOk result (λ b. b.2 ≡ told b.0 []) }
    {
        let (board, mut writer) = Board::empty(alloc)?;
        let pass = board.split(&mut writer);
        Ok((board, writer, pass))
    }

    fn empty(alloc: Global) -> Result<(Board, Writer), NoMemory>
        ensures { IfOk result (λ b. b.1 ≡ published b.0 []) }
    {
        let (table, place) = Table::of_words(alloc, &[0; 11], &())?;
        let last = Totals::NONE;
        Ok((Board { table }, Writer { last, place }))
    }

    /// A pass that has seen all that the writer published. It costs one load.
    pub fn split(&self, writer: &mut Writer) -> Pass
        requires board { writer.old.board ≡ self.now }

        ensures pass { result ≡ told self.now writer.old.entries }
        ensures writer { writer.new ≡ writer.old }
    {
        let place = self.table.shared.split_seat::<Tells>(&mut writer.place);
        pass_at(place, writer.last)
    }
}
