// How long the regions of a disk are.
ghost use Rattle.std.specs.Prelude.{◌≡◌, ◌↔◌, IsTrue, IfSome};
ghost use Rattle.sdr_log.specs.Frame.{IsInLimits, room_of, heap_place, disk_bytes, head_of};
ghost use Rattle.sdr_log.specs.Frame.{frame_in, frame_of};

use byteorder::{BigEndian, ByteOrder};
use sdr_base::{LEAST_LINES, LINE, MOST_LINES};

/// The fewest and the most lines of a log region.
pub const LEAST_LOG: u64 = 2;

pub const MOST_LOG: u64 = 65_536;

/// How many lines of 64 bytes the log region and the heap region have.
#[derive(Clone, Copy, Debug, PartialEq, Eq)]
pub struct Frame {
    pub log_lines: u64,
    pub heap_lines: u64,
}

impl Frame {
    /// Whether both regions are as long as is allowed.
    pub fn is_in_limits(&self) -> bool
        ensures { IsTrue result ↔ IsInLimits self.now }
    {
        (LEAST_LOG..=MOST_LOG).contains(&self.log_lines)
            && (LEAST_LINES..=MOST_LINES).contains(&self.heap_lines)
    }

    /// How many lines a transaction may touch: as many as the log region has room for, even where
    /// each of them stands in a batch of its own.
    pub fn room(&self) -> u64
        requires { IsInLimits self.now }
        ensures { result ≡ room_of self.now }
    {
        (LINE * self.log_lines - 1) / 73
    }

    /// Where the heap region begins, in bytes.
    pub fn heap_place(&self) -> u64
        requires { IsInLimits self.now }
        ensures { result ≡ heap_place self.now }
    {
        LINE + LINE * self.log_lines
    }

    /// How many bytes of a disk the head and both regions take.
    pub fn disk_bytes(&self) -> u64
        requires { IsInLimits self.now }
        ensures { result ≡ disk_bytes self.now }
    {
        LINE * (1 + self.log_lines + self.heap_lines)
    }

    /// The head of a disk with these regions.
    pub fn head(&self) -> [u8; 64]
        requires { IsInLimits self.now }
        ensures { result ≡ head_of self.now }
    {
        let mut head = [0; 64];
        head[..8].copy_from_slice(b"SDRHEAP1");
        BigEndian::write_u32(&mut head[8..], 1);
        BigEndian::write_u32(&mut head[12..], self.log_lines as u32);
        BigEndian::write_u32(&mut head[16..], self.heap_lines as u32);
        head
    }

    // The lengths that stand in a head.
    #[tactic(auto, using(std::proofs::lemmas::Slice::between_to_end))]
    fn in_head(head: &[u8; 64]) -> Frame
        ensures { result ≡ frame_in head.now }
    {
        Frame {
            log_lines: BigEndian::read_u32(&head[12..]) as u64,
            heap_lines: BigEndian::read_u32(&head[16..]) as u64,
        }
    }

    /// The regions that a head tells of, where it is a head.
    #[tactic(auto, using(crate::proofs::FrameLemmas::heads))]
    pub fn from_head(head: &[u8; 64]) -> Option<Frame>
        ensures frame { result ≡ frame_of head.now }
        ensures limits { IfSome result (λ frame. IsInLimits frame) }
    {
        let frame = Frame::in_head(head);
        if frame.is_in_limits() && frame.head() == *head {
            Some(frame)
        } else {
            None
        }
    }
}
