// A piece of the bytes of an object.
ghost use Rattle.std.specs.Prelude.{◌≡◌, ◌≤◌};
ghost use Rattle.sdr_model.specs.Pieces.{piece_length};

use sdr_base::Bytes;

/// A piece of the bytes of an object.
#[derive(Drop)]
pub enum Piece {
    /// Bytes that the world keeps.
    Known(Bytes),
    /// Bytes of a file.
    File {
        path: Bytes,
        offset: u64,
        length: u64,
    },
    /// Bytes of an item of bulk storage.
    Bulk {
        item: u64,
        offset: u64,
        length: u64,
    },
}

impl Piece {
    /// How many bytes it has, of at most a page.
    pub fn len(&self) -> usize
        requires page { piece_length self.now ≤ 4096 }
        ensures { result ≡ piece_length self.now }
    {
        match self {
            Piece::Known(bytes) => bytes.len(),
            Piece::File { length, .. } | Piece::Bulk { length, .. } => *length as usize,
        }
    }
}
