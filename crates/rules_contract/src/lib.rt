// Numbers 8 to 15 of a contract that numbers 1 to 7 let pass, from its decoded slices; the owners of all its expressions in a column.
#![tactic(auto)]

ghost use Rattle.std.specs.Prelude.{◌≡◌, ◌/◌, ◌<◌, ◌≤◌};
ghost use Rattle.kit.specs.Names.{length};
ghost use Rattle.definitions.specs.Basics.{first_that_holds};
ghost use Rattle.definitions.specs.ContractFile.{contract_of};
ghost use Rattle.definitions.specs.Numbers.{contract_sentences};
ghost use Rattle.file_decoded.specs.Sections.{sections_held};
ghost use Rattle.rules_scopes.specs.Slices.{scope_of, nodes_of, node_count_of};
ghost use Rattle.rules_contract.specs.Sections.{FunctionJudged, PassedIn, JudgedIn, marked_in};

use file_decoded::{DecodedSections, number_from};
use rules_fields::fields_fault;
use rules_links::{class_room, no_links};
use rules_scopes::FunctionSlices;
use rules_statements::judge_statement;

// One function, from its own parameters and its root, with no links at its start.
fn function_fault(slices: &FunctionSlices, owners: &mut [u16], root: usize) -> u8
    requires { (root < node_count_of slices.now) × (node_count_of slices.now ≤ length owners.old) }
    ensures { FunctionJudged (scope_of slices.now) (nodes_of slices.now) root owners.old owners.new result }
{
    let count = 10 + slices.fields.len() / 3;
    let mut room = class_room();
    let classes = &mut room[..count];
    no_links(classes);
    let checked = judge_statement(slices, classes, owners, root);
    checked.fault
}

fn functions_fault(sections: &DecodedSections, owners: &mut [u16]) -> u8
    requires { (PassedIn sections.now) × (length sections.now.nodes.now / 5 ≤ length owners.old) }
    ensures { JudgedIn sections.now owners.old owners.new result }
{
    let mut fault: u8 = 16;
    for f in 0..sections.functions.len() / 3 {
        let from = number_from(sections.functions, 3 * f);
        let to = from + 2 * number_from(sections.functions, 3 * f + 1);
        let root = number_from(sections.functions, 3 * f + 2);
        let slices = FunctionSlices {
            fields: sections.fields,
            parameters: &sections.parameters[from..to],
            nodes: sections.nodes,
        };
        fault = fault.min(function_fault(&slices, owners, root));
    }
    fault
}

// The first of the sentences 8 to 15 that holds, 0 for none.
pub fn rules_number(sections: &DecodedSections, owners: &mut [u16]) -> u8
    requires { (PassedIn sections.now) × (length sections.now.nodes.now / 5 ≤ length owners.old) }
    ensures value { result ≡ first_that_holds 8 (contract_sentences (contract_of (sections_held sections.now))) }
    ensures owners_after { owners.new ≡ marked_in sections.now owners.old }
{
    let fault = fields_fault(sections.fields).min(functions_fault(sections, owners));
    if fault == 16 { 0 } else { fault }
}
