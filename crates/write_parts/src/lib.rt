// 01, Rewriting: the written file in two buffers, one of fields and functions' headings, one of nodes.
#![tactic(auto)]

ghost use Rattle.definitions.specs.ContractFile.{function_count};
ghost use Rattle.file_accepted.specs.Context.{Source};
ghost use Rattle.write_parts.specs.Parts.{Ready, Scratch, FunctionsReady, FunctionsPut, PartsPut};

use file_accepted::CheckedFunction;
use file_bytes::{function_end, read_layout};
use memory_append::append_byte;
use write_crossings::{Counts, no_counts, with_crossings};
use write_extents::{Extent, behind};
use write_fields::append_field_section;
use write_functions::{Start, write_function};

// All functions once they are written: how far they reach, and what is counted of each.
#[derive(Drop)]
pub struct Functions {
    pub extent: Extent,
    pub counts: Counts,
}

// The functions, whose first begins at a place of the file: their headings from a place on, their nodes from the front.
fn write_functions(
    file: &[u8],
    first: usize,
    count: usize,
    source: &[u16],
    log: &mut [u16],
    roots: &mut [u16],
    numbers: &mut [u16],
    headings: &mut [u8],
    from: usize,
    nodes: &mut [u8],
) -> Functions
    requires { (FunctionsReady file.now first count source.now from headings.old nodes.old)
        × (Scratch file.now log.old roots.old numbers.old) }
    ensures { FunctionsPut file.now (function_count file.now) from
        headings.old headings.new nodes.old nodes.new
        result.extent.end result.extent.nodes result.counts.crossings }
{
    let mut function_at = first;
    let mut all = Extent {
        end: from,
        nodes: 0,
    };
    let mut counts = no_counts();
    for f in 0..count {
        let function = CheckedFunction {
            file,
            at: function_at,
            source,
        };
        let written = write_function(
            &function,
            Start {
                from: all.end,
                base: all.nodes,
            },
            log,
            roots,
            numbers,
            headings,
            nodes,
        );
        all = behind(all, written.extent);
        counts = with_crossings(counts, f, written.crossings);
        function_at = function_end(file, function_at);
    }
    Functions {
        extent: all,
        counts,
    }
}

// The whole file: fields, count of functions, functions. The nodes are decoded, and the first three buffers are scratch space.
pub fn write_parts(
    file: &[u8],
    source: &[u16],
    log: &mut [u16],
    roots: &mut [u16],
    numbers: &mut [u16],
    headings: &mut [u8],
    nodes: &mut [u8],
) -> Functions
    requires { (Source file.now source.now)
        × (Ready file.now headings.old nodes.old)
        × (Scratch file.now log.old roots.old numbers.old) }
    ensures { PartsPut file.now headings.old headings.new
        nodes.old nodes.new result.extent.end result.extent.nodes result.counts.crossings }
{
    let layout = read_layout(file);
    let fields = append_field_section(file, headings, 0);
    let from = append_byte(layout.functions as u8, headings, fields);
    write_functions(
        file,
        layout.functions_at + 1,
        layout.functions,
        source,
        log,
        roots,
        numbers,
        headings,
        from,
        nodes,
    )
}
