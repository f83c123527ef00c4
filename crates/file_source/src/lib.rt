// The nodes of an accepted contract, decoded for those who read them.
#![tactic(auto)]

ghost use Rattle.std.specs.Prelude.{◌≡◌, ◌≤◌};
ghost use Rattle.kit.specs.Names.{length, take};
ghost use Rattle.definitions.specs.Numbers.{check_number};
ghost use Rattle.file_accepted.specs.Context.{Source};

use file_bytes::read_layout;
use file_decoder::decode_nodes;

// They stand at the front of the room, which holds as many as number 2 lets pass; the answer is how many numbers they are.
pub fn decode_source(file: &[u8], room: &mut [u16]) -> usize
    requires { (check_number file.now ≡ 0) × (2560 ≤ length room.old) }
    ensures source { Source file.now (take result room.new) }
    ensures upper_bound { (result ≤ length room.new) × (result ≡ length (take result room.new)) }
{
    let layout = read_layout(file);
    let count = 5 * layout.nodes;
    decode_nodes(file, layout.nodes_at + 2, &mut room[..count]);
    count
}
