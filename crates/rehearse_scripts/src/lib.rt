// A rehearsal script's bytes: whether they are one, and where its parts lie.
#![tactic(auto)]

ghost use Rattle.std.specs.Prelude.{◌≡◌, ◌+◌, ◌*◌, ◌≤◌};
ghost use Rattle.kit.specs.Names.{length, take};
ghost use Rattle.definitions.specs.ContractFile.{two_bytes_at};
ghost use Rattle.rehearse_scripts.specs.Scripts.{four_bytes_at, calls_end, is_script, file_of, addresses_of, argument_at, numbers_at};
ghost use Rattle.rehearse_scripts.specs.Parts.{IsScriptParts, IsCall, ArgumentsStand};

use file_bytes::{byte_at, two_bytes_at};

// The file stands from 2 to `file_end`, the addresses from behind the next byte to `addresses_end`, the calls from `calls_at` on.
#[derive(Clone, Copy)]
pub struct Script {
    pub file_end: usize,
    pub addresses_end: usize,
    pub party: u8,
    pub calls: u8,
    pub calls_at: usize,
}

// A call's function, caller and count of arguments, and where its arguments begin.
#[derive(Clone, Copy)]
pub struct Call {
    pub function: u8,
    pub caller: u8,
    pub arguments: u8,
    pub arguments_at: usize,
}

// The number of the two bytes that stand two places behind.
fn two_bytes_behind(bytes: &[u8], at: usize) -> usize
    ensures value { result ≡ two_bytes_at bytes.now (at + 2) }
    ensures upper_bound { result ≤ 65535 }
{
    if bytes.len() < 2 {
        return 0;
    }
    if bytes.len() - 2 <= at {
        return 0;
    }
    two_bytes_at(bytes, at + 2)
}

// The number of four bytes at a place, low byte first.
pub fn four_bytes_at(bytes: &[u8], at: usize) -> u32
    ensures { result ≡ four_bytes_at bytes.now at }
{
    let low = two_bytes_at(bytes, at);
    let high = two_bytes_behind(bytes, at);
    (low + 65536 * high) as u32
}

// Where the last of some calls ends.
fn calls_end(bytes: &[u8], from: usize, count: usize) -> usize
    requires { from + 1023 * count ≤ 399997 }
    ensures value { result ≡ calls_end count bytes.now from }
    ensures upper_bound { result ≤ from + 1023 * count }
{
    let mut at = from;
    for _ in 0..count {
        at += 3 + 4 * byte_at(bytes, at + 2);
    }
    at
}

// Where the parts of a script lie, whatever the bytes are.
pub fn read_script(bytes: &[u8]) -> Script
    ensures { IsScriptParts bytes.now result }
{
    let file_end = 2 + two_bytes_at(bytes, 0);
    let addresses_end = file_end + 1 + byte_at(bytes, file_end);
    let party = byte_at(bytes, addresses_end);
    let calls = byte_at(bytes, addresses_end + 1);
    Script {
        file_end,
        addresses_end,
        party: party as u8,
        calls: calls as u8,
        calls_at: addresses_end + 2,
    }
}

// The script ends where the bytes do.
pub fn is_script(bytes: &[u8]) -> bool
    ensures { result ≡ is_script bytes.now }
{
    let script = read_script(bytes);
    bytes.len() == calls_end(bytes, script.calls_at, script.calls as usize)
}

// The contract file in a script.
pub fn file_of<'a>(bytes: &'a [u8]) -> &'a [u8]
    ensures { result.now ≡ file_of bytes.now }
{
    if is_script(bytes) {
        let script = read_script(bytes);
        let end = script.file_end;
        &bytes[2..end]
    } else {
        &bytes[0..0]
    }
}

// The addresses in a script.
pub fn addresses_of<'a>(bytes: &'a [u8]) -> &'a [u8]
    ensures { result.now ≡ addresses_of bytes.now }
{
    if is_script(bytes) {
        let script = read_script(bytes);
        let start = script.file_end + 1;
        let end = script.addresses_end;
        &bytes[start..end]
    } else {
        &bytes[0..0]
    }
}

// Call k of a script; past its last call, what would be read there.
pub fn read_call(bytes: &[u8], k: u8) -> Call
    ensures { IsCall bytes.now k result }
{
    let script = read_script(bytes);
    let at = calls_end(bytes, script.calls_at, k as usize);
    let function = byte_at(bytes, at);
    let caller = byte_at(bytes, at + 1);
    let arguments = byte_at(bytes, at + 2);
    Call {
        function: function as u8,
        caller: caller as u8,
        arguments: arguments as u8,
        arguments_at: at + 3,
    }
}

// Argument j of call k.
pub fn argument(bytes: &[u8], k: u8, j: u8) -> u32
    ensures { result ≡ argument_at bytes.now k j }
{
    let call = read_call(bytes, k);
    four_bytes_at(bytes, call.arguments_at + 4 * j as usize)
}

// Numbers of four bytes, as many as told, from a place on, at the front of an array that has room for the most that a call can have.
pub fn numbers_at(bytes: &[u8], at: usize, count: usize) -> [u32; 255]
    requires { (at ≤ 400000) × (count ≤ 255) }
    ensures { (255 ≡ length result) × (take count result ≡ numbers_at count bytes.now at) }
{
    let mut made = [0u32; 255];
    for i in 0..count {
        made[i] = four_bytes_at(bytes, at + 4 * i);
    }
    made
}

// The arguments of call k at the front of an array.
pub fn arguments(bytes: &[u8], k: u8) -> [u32; 255]
    ensures { ArgumentsStand bytes.now k result }
{
    let call = read_call(bytes, k);
    numbers_at(bytes, call.arguments_at, call.arguments as usize)
}
