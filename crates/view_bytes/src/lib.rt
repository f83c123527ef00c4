// A party's view of a ledger, as bytes over a lent output.
#![tactic(auto)]

ghost use Rattle.std.specs.Prelude.{◌≡◌, ◌≤◌};
ghost use Rattle.kit.specs.Names.{List, ℕ, length};
ghost use Rattle.memory_buffer.specs.Buffer.{stored};
ghost use Rattle.definitions.specs.View.{view_bytes};
ghost use Rattle.ledger_contents.specs.Contents.{contents_of};
ghost use Rattle.ledger_struct.specs.Ledgers.{ledger_from};
ghost use Rattle.view_bytes.specs.Views.{head_bytes, view_size};

use ledger_struct::LastCall;
use view_items::put_items;

// How long a view is, whoever looks.
pub fn view_length(parameters: &[u32], variables: &[u32], places: &[u32]) -> usize
    requires { (length parameters.now ≤ 40) × (length variables.now ≤ 5120) × (length places.now ≤ 5120) }
    ensures { result ≡ view_size (length parameters.now) (length variables.now) (length places.now) }
{
    5 + 10 * (parameters.len() / 5) + 10 * (variables.len() / 5) + 10 * (places.len() / 5)
}

// Call, function, caller and outcome.
fn put_head(out: &mut [u8], last: LastCall)
    requires { 5 ≤ length out.old }
    ensures { out.new ≡ stored out.old 0 (head_bytes last) }
{
    let call = last.call;
    out[0] = (call % 256) as u8;
    out[1] = (call / 256 % 256) as u8;
    out[2] = last.function;
    out[3] = last.caller;
    out[4] = last.outcome;
}

// The view's bytes at the front of an output with room for them. It is the same whatever the ledger's file.
pub fn view_bytes(
    last: LastCall,
    parameters: &[u32],
    variables: &[u32],
    places: &[u32],
    party: u8,
    out: &mut [u8],
)
    requires { view_size (length parameters.now) (length variables.now) (length places.now) ≤ length out.old }
    ensures { (file : List ℕ) → out.new ≡ stored out.old 0 (view_bytes party
        (ledger_from file last parameters.now variables.now (contents_of places.now))) }
{
    let second = 5 + 10 * (parameters.len() / 5);
    let third = second + 10 * (variables.len() / 5);
    put_head(out, last);
    put_items(parameters, party, out, 5);
    put_items(variables, party, out, second);
    put_items(places, party, out, third);
}
