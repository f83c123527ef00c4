// Document 01's number of a contract file: 0 accepted, else 1 to 15. The file is decoded once, where its counts are right; all that follows
// reads the decoded numbers alone.
#![tactic(auto)]

ghost use Rattle.std.specs.Prelude.{◌≡◌, ◌*◌, ◌≤◌};
ghost use Rattle.kit.specs.Names.{length, take};
ghost use Rattle.definitions.specs.ContractFile.{sections_of};
ghost use Rattle.definitions.specs.Numbers.{check_number};
ghost use Rattle.file_bytes.specs.Layout.{IsLayout};
ghost use Rattle.file_decoded.specs.Sections.{sections_held};
ghost use Rattle.file_accepted.specs.Context.{Source};
ghost use Rattle.check_contract.specs.Decoding.{contract_number, HeldIn, Room, Counted, Enough};

use check_01_02_counts::{count_off_limits, ends_wrongly};
use check_03_to_07::sections_number;
use file_bytes::{Layout, read_layout};
use file_decoded::{
    COLUMN_NUMBERS, DecodedSections, FIELD_NUMBERS, FUNCTION_NUMBERS, NODE_NUMBERS,
    PARAMETER_NUMBERS, SHORT_COLUMN_NUMBERS, SHORT_NODE_NUMBERS, numbers_room,
};
use file_decoder::decode;
use rules_contract::rules_number;

// The first of the sentences 3 to 15 that holds of the sections that four slices hold, or 0.
fn slices_number(sections: &DecodedSections, owners: &mut [u16]) -> u8
    requires { HeldIn sections.now owners.old }
    ensures { result ≡ contract_number (sections_held sections.now) }
{
    let shape = sections_number(sections);
    if 0 < shape {
        return shape;
    }
    rules_number(sections, owners)
}

// The same of a file of right counts, decoded into lent slices. Its nodes stay where they were decoded.
fn decoded_number(
    file: &[u8],
    l: Layout,
    fields: &mut [u16],
    functions: &mut [u16],
    parameters: &mut [u16],
    nodes: &mut [u16],
    owners: &mut [u16],
) -> u8
    requires { Room file.now l fields.old functions.old parameters.old nodes.old owners.old }
    ensures { (result ≡ contract_number (sections_of file.now)) × (Source file.now nodes.new) }
{
    decode(file, l, fields, functions, parameters, nodes);
    let sections = DecodedSections {
        fields,
        functions,
        parameters,
        nodes,
    };
    slices_number(&sections, owners)
}

// The same in room for the largest sections that number 2 lets pass, of which that for the nodes is lent.
fn number_in_room(file: &[u8], l: Layout, nodes: &mut [u16], owners: &mut [u16]) -> u8
    requires { (Counted file.now l) × (5 * l.nodes ≤ length nodes.old) × (l.nodes ≤ length owners.old) }
    ensures { (result ≡ contract_number (sections_of file.now))
        × (Source file.now (take (5 * l.nodes) nodes.new)) }
{
    let mut fields = numbers_room::<FIELD_NUMBERS>();
    let mut functions = numbers_room::<FUNCTION_NUMBERS>();
    let mut parameters = numbers_room::<PARAMETER_NUMBERS>();
    let field_numbers = 3 * l.fields;
    let function_numbers = 3 * l.functions;
    let parameter_numbers = l.nodes_at - (l.functions_at + 1 + function_numbers);
    let node_numbers = 5 * l.nodes;
    decoded_number(
        file,
        l,
        &mut fields[..field_numbers],
        &mut functions[..function_numbers],
        &mut parameters[..parameter_numbers],
        &mut nodes[..node_numbers],
        owners,
    )
}

// The number of a file, in room that is lent for its nodes and their owners. The nodes of an accepted file stand at the front of the room
// then, for whoever goes on with them.
pub fn check_in(file: &[u8], l: Layout, nodes: &mut [u16], owners: &mut [u16]) -> u8
    requires { (IsLayout file.now l) × (Enough l nodes.old owners.old) }
    ensures { (result ≡ check_number file.now)
        × (result ≡ 0 → Source file.now (take (5 * l.nodes) nodes.new)) }
{
    if ends_wrongly(file, l) {
        return 1;
    }
    if count_off_limits(file, l) {
        return 2;
    }
    number_in_room(file, l, nodes, owners)
}

// In room for so many nodes and owners, which is as much as number 2 lets pass or as the file needs.
fn check_with<const NODES: usize, const OWNERS: usize>(file: &[u8], l: Layout) -> u8
    requires layout { IsLayout file.now l }
    requires enough { l.nodes ≤ 512 → (5 * l.nodes ≤ NODES) × (l.nodes ≤ OWNERS) }
    requires small { (NODES ≤ 2560) × (OWNERS ≤ 512) }
    ensures { result ≡ check_number file.now }
{
    let mut nodes = numbers_room::<NODES>();
    let mut owners = numbers_room::<OWNERS>();
    check_in(file, l, &mut nodes, &mut owners)
}

// Most contracts are short. A wrong checker that this rules out: one that refuses every file (file A has 0); one that stops at the first
// fault that it meets, and gives 11 where a later node has 9.
pub fn check(file: &[u8]) -> u8
    ensures { result ≡ check_number file.now }
{
    let l = read_layout(file);
    if l.nodes <= 64 {
        check_with::<SHORT_NODE_NUMBERS, SHORT_COLUMN_NUMBERS>(file, l)
    } else {
        check_with::<NODE_NUMBERS, COLUMN_NUMBERS>(file, l)
    }
}
