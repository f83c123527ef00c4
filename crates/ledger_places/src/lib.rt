// 01, Runs and views: "places in field order (a mapping is 16)": where a place stands, and numbers read and replaced there.
#![tactic(auto)]

ghost use Rattle.std.specs.Prelude.{◌≡◌, ◌+◌, ◌*◌, ◌≤◌, ◌<◌};
ghost use Rattle.kit.specs.Names.{get_or, set};
ghost use Rattle.definitions.specs.ContractFile.{field_at, field_count};
ghost use Rattle.definitions.specs.Original.{place_count, position};
ghost use Rattle.file_accepted.specs.Context.{fields_in};

use file_bytes::byte_at;
use file_kinds::MAPPING;

// How many places field f has.
pub fn place_count(file: &[u8], f: usize) -> usize
    requires { (f < field_count file.now) × (field_count file.now ≤ 64) }
    ensures value { result ≡ place_count (field_at (fields_in file.now) f) }
    ensures upper_bound { result ≤ 16 }
{
    if byte_at(file, 1 + 3 * f) < MAPPING {
        1
    } else {
        16
    }
}

// Where field f's place at a key stands.
pub fn position(file: &[u8], f: usize, key: usize) -> usize
    requires { (field_count file.now ≤ 64) × (key ≤ 4294967295) }
    ensures { result ≡ position (fields_in file.now) f key }
{
    let count = byte_at(file, 0);
    let mut at = key;
    for i in 0..f.min(count) {
        at += place_count(file, i);
    }
    at
}

// The number at a place; one that is not there reads as 0.
pub fn number_at(numbers: &[u32], p: usize) -> u32
    ensures { result ≡ get_or numbers.now p 0 }
{
    numbers.get(p).copied().unwrap_or(0)
}

// A place that is not there takes no number.
pub fn put_number(numbers: &mut [u32], p: usize, value: u32)
    ensures { numbers.new ≡ set numbers.old p value }
{
    if p < numbers.len() {
        numbers[p] = value;
    }
}
