// Recorded runs, as two modules read them. A record begins as a rehearsal's script does: length of a contract file (2), the file, count of
// addresses (1), the addresses, party (1), count of calls (1). Of each call it has function (1), caller (1), count of arguments (1), each
// argument (4) and the call's number (1); what else it has is its module's. It serves document 01's "Runs and views".
ghost use Rattle.std.specs.Prelude.{◌≡◌, ◌&&◌, ◌+◌, ◌<◌, ◌≤◌};
ghost use Rattle.kit.specs.Names.{cond, length};
ghost use Rattle.test_shared.specs.Parts.{part_in};
ghost use Rattle.test_ledgers.specs.Records.{IsBegun, IsRecordedCall, CalledIn};
ghost use Rattle.test_ledgers.specs.Tallies.{no_runs, Counted};

use file_bytes::byte_at;
use ledger_struct::Ledger;
use test_shared::part;

// How far a run is: the place in its record, the calls that are left, its party, whether all was as recorded so far, and its ledger.
#[derive(Clone, Copy)]
pub struct Run {
    pub place: usize,
    pub left: usize,
    pub party: u8,
    pub same: bool,
    pub ledger: Ledger,
}

// A call's function, caller and arguments, of which the array holds as many as counted, and the place behind them.
#[derive(Drop)]
pub struct RecordedCall {
    pub function: u8,
    pub caller: u8,
    pub count: usize,
    pub arguments: [u32; 255],
    pub end: usize,
}

// How many runs there were and how many of them differ, and the place behind them.
#[derive(Clone, Copy)]
pub struct Tally {
    pub runs: usize,
    pub different: usize,
    pub place: usize,
}

// A record's deployment. One that is refused is not as recorded.
pub fn begun(bytes: &[u8]) -> Run
    ensures { IsBegun bytes.now result }
{
    let script = rehearse_scripts::read_script(bytes);
    let file = part(bytes, 2, script.file_end);
    let addresses = part(bytes, script.file_end + 1, script.addresses_end);
    let deployment = deploy::deploy(file, addresses);
    let ledger = deployment.ledger;
    Run {
        place: script.calls_at,
        left: script.calls as usize,
        party: script.party,
        same: deployment.number == 0,
        ledger,
    }
}

// The call with which some bytes begin.
pub fn read_call(bytes: &[u8]) -> RecordedCall
    ensures { IsRecordedCall bytes.now result }
{
    let function = byte_at(bytes, 0);
    let caller = byte_at(bytes, 1);
    let count = byte_at(bytes, 2);
    let arguments = rehearse_scripts::numbers_at(bytes, 3, count);
    RecordedCall {
        function: function as u8,
        caller: caller as u8,
        count,
        arguments,
        end: 3 + 4 * count,
    }
}

fn both(first: bool, second: bool) -> bool
    ensures { result ≡ (first && second) }
{
    if first { second } else { false }
}

// The run after the next call of its record: the call is made, and its number compared.
pub fn called(bytes: &[u8], run: Run) -> Run
    requires { (run.place ≤ 100000000) × (0 < run.left) }
    ensures { CalledIn (part_in run.place (length bytes.now) bytes.now) run result }
{
    let rest = part(bytes, run.place, bytes.len());
    let recorded = read_call(rest);
    let given = recorded.arguments;
    let count = recorded.count;
    let before = run.ledger;
    let made = call::call(before, recorded.function, recorded.caller, &given[..count]);
    let after = made.ledger;
    let number = byte_at(rest, recorded.end);
    Run {
        place: run.place + recorded.end + 1,
        left: run.left - 1,
        party: run.party,
        same: both(run.same, made.number as usize == number),
        ledger: after,
    }
}

pub fn no_runs() -> Tally
    ensures { result ≡ no_runs }
{
    Tally {
        runs: 0,
        different: 0,
        place: 0,
    }
}

fn difference(same: bool) -> usize
    ensures { (result ≡ cond same 0 1) × (result ≤ 1) }
{
    if same { 0 } else { 1 }
}

// One run more, of a record from which on there are so many bytes. A record that is cut short is not as recorded.
pub fn counted(tally: Tally, run: Run, length: usize) -> Tally
    requires { (tally.different ≤ tally.runs) × ((tally.runs ≤ tally.place) × (tally.place + run.place ≤ 1000000000)) }
    ensures { Counted tally run.place run.same length result }
{
    let same = both(run.same, run.place <= length);
    Tally {
        runs: tally.runs + 1,
        different: tally.different + difference(same),
        place: tally.place + run.place,
    }
}
