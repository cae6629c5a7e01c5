// Sources, sinks and media: that calls succeed with ample memory, and which calls fail.
use sdr_base::{
    Bytes, IdleSink, Media, MemorySink, MemorySource, NoMedia, NoMemory, Sink, SinkFault, Source,
    SourceFault, write_all,
};
use std::alloc::Global;

// What a read of three bytes answers, and what the buffer holds then.
type Read = (Result<u64, SourceFault>, [u8; 3]);

// Reads of `hello`, of which the second fails.
const READS: [Read; 4] = [
    (Ok(3), *b"hel"),
    (Err(SourceFault), *b"hel"),
    (Ok(2), *b"lol"),
    (Ok(0), *b"lol"),
];

// The first read that answers something else.
fn wrong_read(alloc: Global) -> Result<Option<(usize, Read)>, NoMemory> {
    let bytes = Bytes::copied(alloc, b"hello")?;
    let mut source = MemorySource::new(bytes, [2].to_vec(alloc)?);
    let mut piece = [0; 3];
    for (row, want) in READS.iter().enumerate() {
        let got = (source.read(&mut piece), piece);
        if got != *want {
            return Ok(Some((row, got)));
        }
    }
    Ok(None)
}

// What is written, of which the second call fails.
const WRITES: [(&[u8], Result<(), SinkFault>); 3] = [
    (b"one", Ok(())),
    (b"two", Err(SinkFault)),
    (b"three", Ok(())),
];

// The first write that answers something else, or the number of rows where the sink took something else.
fn wrong_write(alloc: Global) -> Result<Option<usize>, NoMemory> {
    let mut sink = MemorySink::new(alloc, [2].to_vec(alloc)?);
    for (row, (text, answer)) in WRITES.iter().enumerate() {
        if write_all(&mut sink, text) != *answer {
            return Ok(Some(row));
        }
    }
    if sink.taken() == b"onethree".as_slice() && sink.starved() == 0 {
        Ok(None)
    } else {
        Ok(Some(WRITES.len()))
    }
}

// What media with no file answer, and what the buffer holds then.
fn read_nothing() -> ([Result<u64, sdr_base::MediaFault>; 2], [u8; 3]) {
    let mut media = NoMedia::new();
    let mut piece = [7; 3];
    let answers = [
        media.file_read(b"data.bin", 0, &mut piece),
        media.bulk_read(1, 0, &mut piece),
    ];
    (answers, piece)
}

#[test]
fn sources_and_sinks_fail_where_they_are_told_to_and_media_with_no_file_give_nothing(
    rt: HostRuntime,
) {
    assert_eq!(rt; wrong_read(rt.alloc()), Ok(None));
    assert_eq!(rt; wrong_write(rt.alloc()), Ok(None));
    assert_eq!(rt; write_all(&mut IdleSink::new(), b"one"), Err(SinkFault));
    assert_eq!(rt; read_nothing(), ([Ok(0), Ok(0)], [7, 7, 7]));
}
