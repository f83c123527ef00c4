// 01, Runs and views: a call's arguments against its function's parameters, and the numbers of a ledger's contents.
#![tactic(auto)]

ghost use Rattle.std.specs.Prelude.{◌≡◌, ◌/◌, ◌≤◌};
ghost use Rattle.kit.specs.Names.{length};
ghost use Rattle.definitions.specs.ContractFile.{is_of_type, data_type_of};
ghost use Rattle.definitions.specs.Ledger.{plain_number, opened_number};
ghost use Rattle.file_accepted.specs.Context.{parameters_in};
ghost use Rattle.ledger_numbers.specs.Arguments.{arguments_off_for};
ghost use Rattle.ledger_numbers.specs.Numbers.{Numbered, TellsNumber};

use file_bytes::byte_at;
use ledger_contents::{Content, content_at, opened_number, plain_number};
use ledger_readers::Reader;

fn is_of_type(code: usize, value: u32) -> bool
    ensures { result ≡ is_of_type (data_type_of code) value }
{
    let content = Content::Plain(value);
    ledger_readers::fits(code, Reader::Anyone, content)
}

// "19. Arguments differ in number from the parameters, or one is outside its type."
pub fn arguments_off(file: &[u8], function_at: usize, arguments: &[u32]) -> bool
    requires { function_at ≤ 200000 }
    ensures { result ≡ arguments_off_for (parameters_in file.now function_at) arguments.now }
{
    if arguments.len() != byte_at(file, function_at) {
        return true;
    }
    for (k, value) in arguments.iter().enumerate() {
        let code = byte_at(file, function_at + 1 + 2 * k);
        if !is_of_type(code, *value) {
            return true;
        }
    }
    false
}

// A number of each content, taken from it as `number` does.
fn put_numbers<F: Fn(Content) -> u32>(flat: &[u32], number: F, out: &mut [u32])
    requires room { length flat.now / 5 ≤ length out.old }
    requires always { F.IsAlwaysCallable number }
    ensures { (told : _) → TellsNumber (F.post number) told → Numbered told flat.now out.old out.new }
{
    for i in 0..flat.len() / 5 {
        out[i] = number(content_at(flat, i));
    }
}

// The numbers that a walk may use.
pub fn plain_numbers(flat: &[u32], out: &mut [u32])
    requires { length flat.now / 5 ≤ length out.old }
    ensures { Numbered plain_number flat.now out.old out.new }
{
    put_numbers(flat, plain_number, out);
}

// The numbers opened.
pub fn opened_numbers(flat: &[u32], out: &mut [u32])
    requires { length flat.now / 5 ≤ length out.old }
    ensures { Numbered opened_number flat.now out.old out.new }
{
    put_numbers(flat, opened_number, out);
}
