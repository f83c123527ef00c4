// Whether all places of a ledger have the types and the owners that the file asks.
#![tactic(auto)]

ghost use Rattle.std.specs.Prelude.{◌≡◌, ◌+◌, ◌<◌, ◌≤◌};
ghost use Rattle.kit.specs.Names.{drop};
ghost use Rattle.definitions.specs.ContractFile.{field_count};
ghost use Rattle.definitions.specs.Ledger.{fits, all_fit};
ghost use Rattle.file_accepted.specs.Context.{fields_in};
ghost use Rattle.ledger_contents.specs.Contents.{contents_of};
ghost use Rattle.ledger_18_forms.specs.Forms.{front_fits};
ghost use Rattle.ledger_18_places.specs.Places.{field_forms, forms_of_places};

// The places of field f, which stand from p on.
fn field_fits(file: &[u8], numbers: &[u32], f: usize, p: usize, count: usize, flat: &[u32]) -> bool
    requires f_bound { (f < field_count file.now) × (field_count file.now ≤ 64) }
    requires p_bound { (p ≤ 2000) × (count ≤ 16) }
    ensures { result ≡ front_fits fits (field_forms (fields_in file.now) numbers.now f 0 count)
        (drop p (contents_of flat.now)) }
{
    let code = ledger_types::field_type(file, f);
    for key in 0..count {
        let reader = ledger_readers::place_reader(file, f, key as u32, numbers);
        if !ledger_18_forms::fits_at(flat, p + key, code, reader) {
            return false;
        }
    }
    true
}

// All places, whose plain numbers are given.
pub fn places_fit(file: &[u8], numbers: &[u32], flat: &[u32]) -> bool
    requires { field_count file.now ≤ 64 }
    ensures { result ≡ all_fit fits (forms_of_places (fields_in file.now) numbers.now)
        (contents_of flat.now) }
{
    let count = file_bytes::byte_at(file, 0);
    let mut p: usize = 0;
    for f in 0..count {
        let many = ledger_places::place_count(file, f);
        if !field_fits(file, numbers, f, p, many, flat) {
            return false;
        }
        p += many;
    }
    flat.len() / 5 <= p
}
