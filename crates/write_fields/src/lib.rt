// 01, Rewriting: the fields as they are written, "Fields keep their layout; private ones get type 3 (cell)".
#![tactic(auto)]

ghost use Rattle.std.specs.Prelude.{◌≡◌, ◌+◌, ◌*◌, ◌≤◌};
ghost use Rattle.kit.specs.Names.{true, length};
ghost use Rattle.definitions.specs.ContractFile.{field_count};
ghost use Rattle.definitions.specs.Numbers.{field_in_tables};
ghost use Rattle.memory_append.specs.Append.{Appended};
ghost use Rattle.write_fields.specs.Fields.{field_read, written_type, written_field, fields_from, field_section, FieldsListed};

use file_bytes::byte_at;
use file_kinds::{CELL, EVERYONE_CODE};
use memory_append::append_byte;

fn written_type(kind: usize, owner: usize) -> usize
    requires { kind ≤ 255 }
    ensures value { result ≡ written_type kind owner }
    ensures upper_bound { result ≤ 255 }
{
    if owner == EVERYONE_CODE { kind } else { CELL }
}

fn append_field(shape: usize, kind: usize, owner: usize, out: &mut [u8], at: usize) -> usize
    requires { (field_in_tables (field_read shape kind owner) ≡ true)
        × ((shape ≤ 255) × ((kind ≤ 255) × ((owner ≤ 255) × (at + 3 ≤ length out.old)))) }
    ensures { Appended out.old out.new at (written_field (field_read shape kind owner)) result }
{
    let next = append_byte(shape as u8, out, at);
    let last = append_byte(written_type(kind, owner) as u8, out, next);
    append_byte(owner as u8, out, last)
}

// The first `count` fields of a file.
fn append_fields(file: &[u8], count: usize, out: &mut [u8], from: usize) -> usize
    requires { (FieldsListed file.now count) × (from + 3 * count ≤ length out.old) }
    ensures { Appended out.old out.new from (fields_from count file.now 1) result }
{
    let mut at = from;
    for i in 0..count {
        let place = 1 + 3 * i;
        at = append_field(
            byte_at(file, place),
            byte_at(file, place + 1),
            byte_at(file, place + 2),
            out,
            at,
        );
    }
    at
}

// The section of the fields, behind its count.
pub fn append_field_section(file: &[u8], out: &mut [u8], at: usize) -> usize
    requires { (FieldsListed file.now (field_count file.now)) × (at + 1 + 3 * field_count file.now ≤ length out.old) }
    ensures { Appended out.old out.new at (field_section file.now) result }
{
    let count = byte_at(file, 0);
    let next = append_byte(count as u8, out, at);
    append_fields(file, count, out, next)
}
