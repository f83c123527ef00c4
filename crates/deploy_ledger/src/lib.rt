// The deployed ledger of a file: finals are given, all else is 0, private places being cells of serial 0, 0.
#![tactic(auto)]

ghost use Rattle.std.specs.Prelude.{◌≡◌, ◌+◌, ◌*◌, ◌<◌, ◌≤◌};
ghost use Rattle.kit.specs.Names.{length, get_or, replicate};
ghost use Rattle.memory_buffer.specs.Buffer.{stored};
ghost use Rattle.definitions.specs.ContractFile.{field_count};
ghost use Rattle.definitions.specs.Original.{deployed_numbers};
ghost use Rattle.definitions.specs.Ledger.{deployed};
ghost use Rattle.file_accepted.specs.Context.{fields_in};
ghost use Rattle.ledger_struct.specs.Whole.{padded, struct_of};
ghost use Rattle.deploy_ledger.specs.Deployments.{Numbers, Deployable, FieldStands, PlacesStand};

use file_kinds::FINAL;
use ledger_contents::{Content, Place};
use ledger_struct::Ledger;

// An address that is not given reads as 0.
fn address_at(addresses: &[u8], a: usize) -> u32
    ensures { result ≡ get_or addresses.now a 0 }
{
    u32::from(addresses.get(a).copied().unwrap_or(0))
}

// The numbers of all places at deployment, and how many there are.
fn put_numbers(file: &[u8], addresses: &[u8], numbers: &mut [u32]) -> usize
    requires { (field_count file.now ≤ 64) × (1024 ≤ length numbers.old) }
    ensures { Numbers (deployed_numbers (fields_in file.now) addresses.now)
        numbers.old numbers.new result }
{
    let count = file_bytes::byte_at(file, 0);
    let mut p: usize = 0;
    let mut a: usize = 0;
    for f in 0..count {
        if file_bytes::byte_at(file, 1 + 3 * f) == FINAL {
            numbers[p] = address_at(addresses, a);
            p += 1;
            a += 1;
        } else {
            let many = ledger_places::place_count(file, f);
            numbers[p..p + many].fill(0);
            p += many;
        }
    }
    p
}

// The contents of field f's places, which stand from p on.
fn put_field(
    file: &[u8],
    numbers: &[u32],
    f: usize,
    p: usize,
    count: usize,
    places: [Place; 1024],
) -> [Place; 1024]
    requires deployable { Deployable file.now numbers.now }
    requires f_bound { f < field_count file.now }
    requires count_in_bounds { (p + count ≤ length numbers.now) × (count ≤ 16) }
    ensures { FieldStands file.now numbers.now f p count places result }
{
    let mut made = places;
    for key in 0..count {
        let reader = ledger_readers::place_reader(file, f, key as u32, numbers);
        let content = ledger_readers::content_for(reader, 0, 0, numbers[p + key]);
        made[p + key] = Place { content };
    }
    made
}

// The contents of all places at deployment.
fn put_places(file: &[u8], numbers: &[u32]) -> [Place; 1024]
    requires { Deployable file.now numbers.now }
    ensures { PlacesStand file.now numbers.now result }
{
    let zero = Place {
        content: Content::Plain(0),
    };
    let mut places = [zero; 1024];
    let count = file_bytes::byte_at(file, 0);
    let mut p: usize = 0;
    for f in 0..count {
        let many = ledger_places::place_count(file, f);
        let made = put_field(file, numbers, f, p, many, places);
        places = made;
        p += many;
    }
    places
}

// The file at the front of an array of zeros.
fn copied(file: &[u8]) -> [u8; 4596]
    requires { length file.now ≤ 4596 }
    ensures { result ≡ padded 4596 0 file.now }
{
    let mut bytes = [0u8; 4596];
    bytes[..file.len()].copy_from_slice(file);
    bytes
}

// The ledger that a deployment of a checked file gives.
pub fn deployed(file: &[u8], addresses: &[u8]) -> Ledger
    requires { (field_count file.now ≤ 64) × (length file.now ≤ 4596) }
    ensures { result ≡ struct_of (deployed file.now addresses.now) }
{
    let bytes = copied(file);
    let mut numbers = [0u32; 1024];
    let count = put_numbers(file, addresses, &mut numbers[..]);
    let places = put_places(file, &numbers[..count]);
    let zero = Place {
        content: Content::Plain(0),
    };
    let parameters = [zero; 8];
    let variables = [zero; 1024];
    Ledger {
        file: bytes,
        file_length: file.len(),
        call: 0,
        function: 0,
        caller: 0,
        outcome: 0,
        parameters,
        parameter_count: 0,
        variables,
        variable_count: 0,
        places,
        place_count: count,
    }
}
