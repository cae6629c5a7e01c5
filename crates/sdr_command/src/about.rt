// What the program says of itself.
ghost use Rattle.std.specs.Prelude.{◌≡◌, ◌≢◌, ◌⊎◌, MatchOption, None, Some};
ghost use Rattle.std.specs.Io.KnownBytes.{Appends};
ghost use Rattle.sdr_base.specs.Causes.{Rose};
ghost use Rattle.sdr_base.specs.Written.{AppendsPart};
ghost use Rattle.sdr_command.specs.Ending.{about_text};

use sdr_base::{Sink, write_all};
use sdr_forms::{DONE, OUTPUT_FAULT};
use std::rc::RcStr;

pub const VERSION: &str = "sdrtool 0.1.0 (disk format 2, script format 1)\n";

pub const HELP: &str = "\
sdrtool formats a heap on a disk, runs the script of its daemons on it, and
puts it back after a power loss.

    sdrtool DISK format L H      makes an empty heap of the disk: L lines of log
                                 (2 to 65536), H lines of heap (32 to 262144)
    sdrtool DISK replay < SCRIPT runs the script on the heap of the disk
    sdrtool DISK run < SCRIPT    runs the daemons of the script side by side on the
                                 heap of the disk, and prints the journal
    sdrtool DISK run totals < SCRIPT
                                 the same, and a line of totals behind the journal
    sdrtool DISK load N          runs a generated load of N rounds (1 to 10000) on the
                                 heap of the disk, and prints a summary of it
    sdrtool DISK inspect         prints the world that the disk keeps: accounts,
                                 tickets, names and things; the disk is only read
    sdrtool DISK recover         puts back what a power loss cut short, and says
                                 how many lines that were
    sdrtool DISK dry < SCRIPT    runs the script on a machine with no disk, and opens
                                 none
    sdrtool --help
    sdrtool --version

DISK    PATH      a file
        PATH=N    a file that is made, or lengthened with zero bytes, to N bytes,
                  but for inspect and dry
        -         an empty disk in memory

A line has 64 bytes, and the head of a disk is one line more.

Status    When                                           Last line printed
0         all was done: of a script, each line was
          answered, with a refusal too
1         the disk can't be opened                       sdrtool: cannot open, on
                                                         standard error
2         the words are none of these forms              usage
3         the input failed                               input fault
4         the output failed
5         the disk failed                                disk fault, or behind
                                                         answers or a journal no
                                                         last line
6         the disk has no heap                           not formatted
7         the heap of the disk isn't taken               damaged PLACE WHY
8         line N of the script is refused                line N
9         out of memory                                  no memory
10        the disk has HAVE bytes and NEED are needed    too small NEED HAVE

Standard error says more: why a disk can't be opened, the forms where the words
are none of them, why a file that begins as a heap gives none, and what `format`
is about to overwrite.

The manual, where it is installed: man sdrtool, and man 5 sdr for scripts,
answers and the bytes of a disk.

An example: a disk of 81984 bytes has 256 lines of log and 1024 of heap.

    $ sdrtool heap.disk=81984 format 256 1024
    formatted 256 1024
    $ echo '1: begin' | sdrtool heap.disk replay
    1 1 lock 1
    $ sdrtool heap.disk inspect
    heap 65536 low 2048 high 65536
    account in file 0 1099511627776 bulk 0 1099511627776 heap 0 32768
    account out file 0 1099511627776 bulk 0 1099511627776 heap 0 32768
    blocks 0 small 0 large 0
    $ sdrtool heap.disk recover
    recovered 0 lines
";

/// The forms, as standard error tells them.
pub const FORMS: &str = "\
sdrtool: the words are none of these forms:
    sdrtool DISK format L H        L is 2 to 65536, H is 32 to 262144
    sdrtool DISK replay < SCRIPT
    sdrtool DISK run < SCRIPT
    sdrtool DISK run totals < SCRIPT
    sdrtool DISK load N            N is 1 to 10000
    sdrtool DISK inspect
    sdrtool DISK recover
    sdrtool DISK dry < SCRIPT
    sdrtool --help
    sdrtool --version";

/// The text about the program that the words of a command line ask for, if they ask for one.
pub fn about_text(words: &[RcStr]) -> Option<&'static str>
    ensures { MatchOption result (about_text words.now ≡ None)
        (λ text. about_text words.now ≡ Some text.now) }
{
    match words {
        [word] if word.as_str() == "--help" => Some(HELP),
        [word] if word.as_str() == "--version" => Some(VERSION),
        _ => None,
    }
}

/// Prints a text, and gives the status.
pub fn print<K: Sink>(output: &mut K, text: &str) -> u8
    ensures known { (result ≡ DONE) ⊎ (result ≡ OUTPUT_FAULT) }
    ensures done { result ≡ DONE → Appends (K.taken output.old) (K.taken output.new) text.now }
    ensures part { result ≡ OUTPUT_FAULT →
        AppendsPart (K.taken output.old) (K.taken output.new) text.now }
    ensures cause { result ≡ OUTPUT_FAULT → Rose (K.faults output.old) (K.faults output.new) }
{
    match write_all(output, text.as_bytes()) {
        Ok(()) => DONE,
        Err(_) => OUTPUT_FAULT,
    }
}
