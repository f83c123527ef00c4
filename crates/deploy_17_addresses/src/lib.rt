// "17. Deployment gives other than one address, 0 to 15, for each final."
#![tactic(auto)]

ghost use Rattle.std.specs.Prelude.{◌≡◌, ◌<◌, ◌≤◌};
ghost use Rattle.kit.specs.Names.{cond, ltb};
ghost use Rattle.definitions.specs.Basics.{any, count_if};
ghost use Rattle.definitions.specs.ContractFile.{field_at, is_final, field_count};
ghost use Rattle.file_accepted.specs.Context.{fields_in};
ghost use Rattle.deploy_17_addresses.specs.Addresses.{addresses_number};

use file_kinds::FINAL;

// 1 for a final, which is known by the byte of its shape.
pub fn final_bit(file: &[u8], f: usize) -> usize
    requires { (f < field_count file.now) × (f ≤ 255) }
    ensures value { result ≡ cond (is_final (field_at (fields_in file.now) f).shape) 1 0 }
    ensures upper_bound { result ≤ 1 }
{
    if file_bytes::byte_at(file, 1 + 3 * f) == FINAL {
        1
    } else {
        0
    }
}

// How many finals a file declares.
pub fn final_count(file: &[u8]) -> usize
    ensures { result ≡ count_if (λ d. is_final d.shape) (fields_in file.now) }
{
    let count = file_bytes::byte_at(file, 0);
    let mut finals: usize = 0;
    for f in 0..count {
        finals += final_bit(file, f);
    }
    finals
}

// "one address, 0 to 15"
pub fn any_too_high(addresses: &[u8]) -> bool
    ensures { result ≡ any (ltb 15) addresses.now }
{
    addresses.iter().any(|address| 15 < *address)
}

// "17. Deployment gives other than one address, 0 to 15, for each final."
pub fn addresses_number(file: &[u8], addresses: &[u8]) -> u8
    ensures { result ≡ addresses_number file.now addresses.now }
{
    if addresses.len() != final_count(file) {
        return 17;
    }
    if any_too_high(addresses) { 17 } else { 0 }
}
