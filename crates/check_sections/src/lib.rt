// "Each section, count included, is handed back on request": numbers 1, 2 and 22, and the part of the file.
#![tactic(auto)]

ghost use Rattle.std.specs.Prelude.{◌≡◌};
ghost use Rattle.definitions.specs.Numbers.{section_number, section_answer};

use check_01_02_counts::{count_off_limits, ends_wrongly};
use file_bytes::read_layout;

// The number given for a request of section n.
pub fn section_number(file: &[u8], n: u8) -> u8
    ensures { result ≡ section_number file.now n }
{
    let l = read_layout(file);
    if ends_wrongly(file, l) {
        return 1;
    }
    if count_off_limits(file, l) {
        return 2;
    }
    if 2 < n {
        return 22;
    }
    0
}

// "Each section, count included, is handed back on request as that part of the caller's file (0 fields, 1 functions, 2 nodes)."
pub fn section<'a>(file: &'a [u8], n: u8) -> &'a [u8]
    ensures { result.now ≡ section_answer file.now n }
{
    if section_number(file, n) != 0 {
        return &file[0..0];
    }
    let l = read_layout(file);
    let functions_at = l.functions_at;
    let nodes_at = l.nodes_at;
    if n == 0 {
        &file[0..functions_at]
    } else if n == 1 {
        &file[functions_at..nodes_at]
    } else {
        &file[nodes_at..]
    }
}
