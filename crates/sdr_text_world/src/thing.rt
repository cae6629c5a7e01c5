// What is printed of things.
ghost use Rattle.std.specs.Prelude.{◌≡◌, ◌≤◌, ◌<◌, ◌+◌, ◌^◌, ◌++◌, [], OnOk, OnErr, codes, decimal, flat_map, length};
ghost use Rattle.std.specs.Io.KnownBytes.{Appends};
ghost use Rattle.sdr_base.specs.Causes.{HasCause};
ghost use Rattle.sdr_base.specs.Written.{AppendsPart};
ghost use Rattle.sdr_model.specs.ObjectSteps.{wire_length};
ghost use Rattle.sdr_model.specs.World.{World};
ghost use Rattle.sdr_model.specs.Zco.{capsules_length, extents_length};
ghost use Rattle.sdr_text_world.specs.Tied.{TellsTies};
ghost use Rattle.sdr_text_world.specs.ThingText.{behind_subject, element_text, hash_on, list_front_on, list_on, object_on, raw_on, source_on, string_on, table_on, thing_line, HasSmallWire};

use crate::account::add_account;
use crate::tied::Tied;
use sdr_base::{Acct, Addr, Sink, SinkFault, write_all};
use sdr_model::{
    Capsule, Element, Extent, SdrHash, SdrList, SdrTable, Subject, Thing, ZcoObject, ZcoSource,
};
use sdr_text::{Line, write_given, write_literal};

// Writes a line that ends here.
fn write_line<K: Sink>(out: &mut K, mut line: Line) -> Result<(), SinkFault>
    requires { length line ≤ 900 }
    ensures ok { OnOk result (Appends (K.taken out.old) (K.taken out.new) (line ++ codes "\n")) }
    ensures err { OnErr result (AppendsPart (K.taken out.old) (K.taken out.new)
        (line ++ codes "\n")) }
    ensures cause { HasCause (K.faults out.old) (K.faults out.new) result }
{
    line.push(b"\n");
    write_all(out, line.as_slice())
}

// The line of a raw object of so many bytes that a source names, 0 for none.
fn add_raw(line: &mut Line, bytes: &[u8], source: Addr)
    requires { length line.old ≤ 500 }
    ensures text { line.new ≡ raw_on line.old bytes.now source }
    ensures len { length line.new ≤ length line.old + 50 }
{
    line.push(b" raw");
    line.field(bytes.len() as u64);
    line.field(source);
}

// Writes the rest of the line of a string.
fn write_string<K: Sink>(out: &mut K, mut line: Line, text: &[u8]) -> Result<(), SinkFault>
    requires { length line ≤ 500 }
    ensures ok { OnOk result (Appends (K.taken out.old) (K.taken out.new)
        (string_on line text.now ++ codes "\n")) }
    ensures err { OnErr result (AppendsPart (K.taken out.old) (K.taken out.new)
        (string_on line text.now ++ codes "\n")) }
    ensures cause { HasCause (K.faults out.old) (K.faults out.new) result }
{
    line.push(b" string x");
    write_given(out, line.as_slice(), text, b"\n")
}

// Writes an element of a list.
fn write_element<K: Sink>(out: &mut K, element: &Element) -> Result<(), SinkFault>
    ensures ok { OnOk result (Appends (K.taken out.old) (K.taken out.new)
        (element_text element.now)) }
    ensures err { OnErr result (AppendsPart (K.taken out.old) (K.taken out.new)
        (element_text element.now)) }
    ensures cause { HasCause (K.faults out.old) (K.faults out.new) result }
{
    let mut piece = Line::new();
    piece.field(element.block);
    piece.push(b":");
    piece.number(element.datum);
    write_all(out, piece.as_slice())
}

// Writes the elements of a list, in order.
fn write_elements<K: Sink>(out: &mut K, elements: &[Element]) -> Result<(), SinkFault>
    ensures ok { OnOk result (Appends (K.taken out.old) (K.taken out.new)
        (flat_map element_text elements.now)) }
    ensures err { OnErr result (AppendsPart (K.taken out.old) (K.taken out.new)
        (flat_map element_text elements.now)) }
    ensures cause { HasCause (K.faults out.old) (K.faults out.new) result }
{
    let mut rest = elements;
    while let Some((element, after)) = rest.split_first() {
        write_element(out, element)?;
        rest = after;
    }
    Ok(())
}

// The line of a list, up to its elements.
fn add_list(line: &mut Line, list: &SdrList)
    requires { length line.old ≤ 500 }
    ensures text { line.new ≡ list_front_on line.old list.now }
    ensures len { length line.new ≤ length line.old + 50 }
{
    line.push(b" list");
    line.field(list.user);
    line.field(list.elements.len() as u64);
}

// Writes the rest of the line of a list.
fn write_list<K: Sink>(out: &mut K, mut line: Line, list: &SdrList) -> Result<(), SinkFault>
    requires { length line ≤ 500 }
    ensures ok { OnOk result (Appends (K.taken out.old) (K.taken out.new)
        (list_on line list.now ++ codes "\n")) }
    ensures err { OnErr result (AppendsPart (K.taken out.old) (K.taken out.new)
        (list_on line list.now ++ codes "\n")) }
    ensures cause { HasCause (K.faults out.old) (K.faults out.new) result }
{
    add_list(&mut line, list);
    write_all(out, line.as_slice())?;
    write_elements(out, list.elements.as_slice())?;
    write_all(out, b"\n")
}

// The line of a table.
fn add_table(line: &mut Line, table: &SdrTable)
    requires { length line.old ≤ 500 }
    ensures text { line.new ≡ table_on line.old table.now }
    ensures len { length line.new ≤ length line.old + 80 }
{
    line.push(b" table");
    line.field(table.user());
    line.field(table.rows());
    line.field(table.size());
}

// The line of a hash.
fn add_hash(line: &mut Line, hash: &SdrHash)
    requires { length line.old ≤ 500 }
    ensures text { line.new ≡ hash_on line.old hash.now }
    ensures len { length line.new ≤ length line.old + 50 }
{
    line.push(b" hash");
    line.field(hash.key_length());
    line.field(hash.entries().len() as u64);
}

// What stands behind the subject of a source that so many extents of each account name.
fn add_behind(line: &mut Line, source: &ZcoSource, inbound: u64, outbound: u64)
    requires { length line.old ≤ 500 }
    ensures text { line.new ≡ line.old ++ behind_subject source.now inbound outbound }
    ensures len { length line.new ≤ length line.old + 84 }
{
    line.field(source.length);
    line.field(inbound);
    line.field(outbound);
    line.field(u64::from(source.flagged));
}

// Writes the rest of the line of a source that so many extents of each account name.
fn write_source<K: Sink>(
    out: &mut K,
    mut line: Line,
    source: &ZcoSource,
    inbound: u64,
    outbound: u64,
) -> Result<(), SinkFault>
    requires { length line ≤ 400 }
    ensures ok { OnOk result (Appends (K.taken out.old) (K.taken out.new)
        (source_on line source.now inbound outbound ++ codes "\n")) }
    ensures err { OnErr result (AppendsPart (K.taken out.old) (K.taken out.new)
        (source_on line source.now inbound outbound ++ codes "\n")) }
    ensures cause { HasCause (K.faults out.old) (K.faults out.new) result }
{
    line.push(b" source ");
    let (word, number): (&[u8], u64) = match &source.subject {
        Subject::File(path) => {
            line.push(b"file ");
            let mut end = Line::new();
            add_behind(&mut end, source, inbound, outbound);
            end.push(b"\n");
            return write_literal(out, line, path.as_slice(), end.as_slice());
        }
        Subject::Bulk(item) => (b"bulk", *item),
        Subject::Heap(raw) => (b"heap", *raw),
        Subject::Obj(raw) => (b"obj", *raw),
    };
    line.push(word);
    line.field(number);
    add_behind(&mut line, source, inbound, outbound);
    write_line(out, line)
}

// The bytes of these headers or trailers together.
fn capsules_length(capsules: &[Capsule]) -> u64
    requires { capsules_length capsules.now < 2 ^ 64 }
    ensures { result ≡ capsules_length capsules.now }
{
    let mut bytes = 0;
    let mut rest = capsules;
    while let Some((capsule, after)) = rest.split_first() {
        bytes += capsule.text.as_slice().len() as u64;
        rest = after;
    }
    bytes
}

// The bytes of these extents together.
fn extents_length(extents: &[Extent]) -> u64
    requires { extents_length extents.now < 2 ^ 64 }
    ensures { result ≡ extents_length extents.now }
{
    let mut bytes = 0;
    let mut rest = extents;
    while let Some((extent, after)) = rest.split_first() {
        bytes += extent.length;
        rest = after;
    }
    bytes
}

// The bytes of an object on the wire.
fn wire_length(z: &ZcoObject) -> u64
    requires { wire_length z.now < 2 ^ 64 }
    ensures { result ≡ wire_length z.now }
{
    capsules_length(z.headers.as_slice())
        + extents_length(z.extents.as_slice())
        + capsules_length(z.trailers.as_slice())
}

// The line of an object.
fn add_object(line: &mut Line, z: &ZcoObject)
    requires short { length line.old ≤ 500 }
    requires small { wire_length z.now < 2 ^ 64 }
    ensures text { line.new ≡ object_on line.old z.now }
    ensures len { length line.new ≤ length line.old + 140 }
{
    line.push(b" object");
    add_account(line, z.account);
    line.field(z.extents.len() as u64);
    line.field(z.headers.len() as u64);
    line.field(z.trailers.len() as u64);
    line.field(wire_length(z));
    line.field(z.part.offset);
    line.field(z.part.length);
}

/// Writes the line of a thing of a world at an address, of which it was counted what ties it to
/// others: whole, or a part of it from the front where the sink fails.
pub fn write_thing<K: Sink>(
    out: &mut K,
    tied: &Tied,
    addr: Addr,
    thing: &Thing,
) -> Result<(), SinkFault>
    requires small { HasSmallWire thing.now }
    ensures ok { OnOk result ((w : World) → TellsTies w tied.now →
        Appends (K.taken out.old) (K.taken out.new) (thing_line w (addr, thing.now))) }
    ensures err { OnErr result ((w : World) → TellsTies w tied.now →
        AppendsPart (K.taken out.old) (K.taken out.new) (thing_line w (addr, thing.now))) }
    ensures cause { HasCause (K.faults out.old) (K.faults out.new) result }
{
    let mut line = Line::new();
    line.number(addr);
    match thing {
        Thing::Raw(bytes) => add_raw(&mut line, bytes.as_slice(), tied.source_on(addr)),
        Thing::Text(text) => return write_string(out, line, text.as_slice()),
        Thing::List(list) => return write_list(out, line, list),
        Thing::Table(table) => add_table(&mut line, table),
        Thing::Hash(hash) => add_hash(&mut line, hash),
        Thing::Source(source) => {
            let inbound = tied.uses(addr, Acct::Inbound);
            let outbound = tied.uses(addr, Acct::Outbound);
            return write_source(out, line, source, inbound, outbound);
        }
        Thing::Object(z) => add_object(&mut line, z),
    }
    write_line(out, line)
}
