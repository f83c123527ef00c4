// 01, Rewriting: a contract file checked and written into lent memory.
#![tactic(auto)]

ghost use Rattle.std.specs.Prelude.{◌≡◌, ◌≤◌};
ghost use Rattle.kit.specs.Names.{length};
ghost use Rattle.definitions.specs.ContractFile.{node_count};
ghost use Rattle.definitions.specs.Numbers.{check_number};
ghost use Rattle.definitions.specs.Crossings.{crossings_after_writing};
ghost use Rattle.definitions.specs.Rewriting.{write_number, written_length, output_after_writing};
ghost use Rattle.file_bytes.specs.Layout.{IsLayout};
ghost use Rattle.file_accepted.specs.Context.{Source};
ghost use Rattle.write_parts.specs.Parts.{Ready, Scratch};
ghost use Rattle.write_output.specs.Answers.{Promised};

use check_contract::check_in;
use check_refusals::is_refused;
use file_bytes::{Layout, read_layout};
use file_decoded::{
    COLUMN_NUMBERS, NODE_NUMBERS, SHORT_COLUMN_NUMBERS, SHORT_NODE_NUMBERS, numbers_room,
};
use write_crossings::no_counts;
use write_extents::{is_short, is_tiny};
use write_output::{Answer, hand_out};
use write_parts::write_parts;

// Both parts are made in buffers that suffice for the file's nodes; what is handed out is copied from them.
fn write_in(
    file: &[u8],
    source: &[u16],
    log: &mut [u16],
    roots: &mut [u16],
    numbers: &mut [u16],
    headings: &mut [u8],
    nodes: &mut [u8],
    out: &mut [u8],
) -> Answer
    requires { (Source file.now source.now)
        × (Ready file.now headings.old nodes.old)
        × (Scratch file.now log.old roots.old numbers.old) }
    ensures { Promised file.now out.old out.new result.number result.length
        result.counts.crossings }
{
    let parts = write_parts(file, source, log, roots, numbers, headings, nodes);
    let end = parts.extent.end;
    let count = parts.extent.nodes;
    let bytes = 8 * count;
    hand_out(&headings[..end], &nodes[..bytes], count, parts.counts, out)
}

// Most contracts are short, and some have a few nodes alone: what they need costs less to clear.
fn write_accepted_tiny(file: &[u8], source: &[u16], out: &mut [u8]) -> Answer
    requires { (check_number file.now ≡ 0) × (Source file.now source.now) × (length file.now ≤ 112) }
    ensures { Promised file.now out.old out.new result.number result.length
        result.counts.crossings }
{
    let mut log = [0u16; 140];
    let mut roots = [0u16; 29];
    let mut numbers = [0u16; 56];
    let mut headings = [0u8; 2016];
    let mut nodes = [0u8; 2016];
    write_in(
        file,
        source,
        &mut log[..],
        &mut roots[..],
        &mut numbers[..],
        &mut headings[..],
        &mut nodes[..],
        out,
    )
}

fn write_accepted_short(file: &[u8], source: &[u16], out: &mut [u8]) -> Answer
    requires { (check_number file.now ≡ 0) × (Source file.now source.now) × (node_count file.now ≤ 64) }
    ensures { Promised file.now out.old out.new result.number result.length
        result.counts.crossings }
{
    let mut log = [0u16; 640];
    let mut roots = [0u16; 104];
    let mut numbers = [0u16; 256];
    let mut headings = [0u8; 2130];
    let mut nodes = [0u8; 9172];
    write_in(
        file,
        source,
        &mut log[..],
        &mut roots[..],
        &mut numbers[..],
        &mut headings[..],
        &mut nodes[..],
        out,
    )
}

fn write_accepted_long(file: &[u8], source: &[u16], out: &mut [u8]) -> Answer
    requires { (check_number file.now ≡ 0) × (Source file.now source.now) }
    ensures { Promised file.now out.old out.new result.number result.length
        result.counts.crossings }
{
    let mut log = [0u16; 5120];
    let mut roots = [0u16; 776];
    let mut numbers = [0u16; 2048];
    let mut headings = [0u8; 4818];
    let mut nodes = [0u8; 37844];
    write_in(
        file,
        source,
        &mut log[..],
        &mut roots[..],
        &mut numbers[..],
        &mut headings[..],
        &mut nodes[..],
        out,
    )
}

fn write_accepted(file: &[u8], source: &[u16], out: &mut [u8]) -> Answer
    requires { (check_number file.now ≡ 0) × (Source file.now source.now) × (node_count file.now ≤ 64) }
    ensures { Promised file.now out.old out.new result.number result.length
        result.counts.crossings }
{
    if is_tiny(file.len()) {
        write_accepted_tiny(file, source, out)
    } else {
        write_accepted_short(file, source, out)
    }
}

// The nodes that the check decoded are those that are written.
fn write_short(file: &[u8], l: Layout, out: &mut [u8]) -> Answer
    requires { (IsLayout file.now l) × (l.nodes ≤ 64) }
    ensures { Promised file.now out.old out.new result.number result.length
        result.counts.crossings }
{
    let mut source = numbers_room::<SHORT_NODE_NUMBERS>();
    let mut owners = numbers_room::<SHORT_COLUMN_NUMBERS>();
    let number = check_in(file, l, &mut source[..], &mut owners[..]);
    if is_refused(number) {
        return Answer {
            number,
            length: 0,
            counts: no_counts(),
        };
    }
    let count = 5 * l.nodes;
    write_accepted(file, &source[..count], out)
}

fn write_long(file: &[u8], l: Layout, out: &mut [u8]) -> Answer
    requires { IsLayout file.now l }
    ensures { Promised file.now out.old out.new result.number result.length
        result.counts.crossings }
{
    let mut source = numbers_room::<NODE_NUMBERS>();
    let mut owners = numbers_room::<COLUMN_NUMBERS>();
    let number = check_in(file, l, &mut source[..], &mut owners[..]);
    if is_refused(number) {
        return Answer {
            number,
            length: 0,
            counts: no_counts(),
        };
    }
    let count = 5 * l.nodes;
    write_accepted_long(file, &source[..count], out)
}

// Wrong writers that this rules out: one that writes a byte before it refuses; one that leaves a byte behind the written file changed; one
// that counts a guard, or tells a refused file's counts.
pub fn write(file: &[u8], out: &mut [u8]) -> Answer
    ensures { (result.number ≡ write_number file.now (length out.old))
        × ((result.length ≡ written_length file.now (length out.old))
        × ((result.counts.crossings ≡ crossings_after_writing file.now (length out.old))
        × (out.new ≡ output_after_writing file.now out.old))) }
{
    let layout = read_layout(file);
    if is_short(layout.nodes) {
        write_short(file, layout, out)
    } else {
        write_long(file, layout, out)
    }
}
