// Scripts that are read from bytes in memory.
use sdr_base::{Bytes, MemorySource};
use sdr_model::Script;
use sdr_words::{ScriptError, read_script};
use std::alloc::Global;

/// The script that bytes spell.
pub fn script_of(alloc: Global, input: &[u8]) -> Result<Script, ScriptError> {
    let mut source = MemorySource::new(Bytes::copied(alloc, input)?, Vec::new(alloc));
    read_script(alloc, &mut source)
}
