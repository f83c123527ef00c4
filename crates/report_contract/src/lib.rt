// 01, File A, whole: the report of any file, "function number and count of variables with origins 0 to 3", or the number that refuses it.
// 02, Note 2: it prints the counts that writing hands back, and counts nothing itself. Note 3: their total stands last.
#![tactic(auto)]

ghost use Rattle.std.specs.Prelude.{◌≡◌, ◌≤◌};
ghost use Rattle.kit.specs.Names.{length};
ghost use Rattle.definitions.specs.Crossings.{sixteen, crossings_in};
ghost use Rattle.definitions.specs.Numbers.{check_number};
ghost use Rattle.definitions.specs.Report.{report_text, report_number, report_length, output_after_report};
ghost use Rattle.definitions.specs.Rewriting.{written_file};
ghost use Rattle.memory_append.specs.Append.{Appended};

use check_refusals::is_refused;
use file_bytes::read_layout;
use memory_answer::Answer;
use report_output::hand_out;
use report_text::report_lines;
use write_contract::write;
use write_output::written_room;

// Room for the longest text: the heading, sixteen lines and the total.
fn text_room() -> [u8; 131]
    ensures { 131 ≡ length result }
{
    [0; 131]
}

// The text of an accepted file: of the sixteen counts, those of its functions.
fn append_counts(file: &[u8], counts: &[u16], text: &mut [u8]) -> usize
    requires { (check_number file.now ≡ 0) × (counts.now ≡ sixteen (crossings_in (written_file file.now)))
        × (131 ≤ length text.old) }
    ensures { Appended text.old text.new 0 (report_text file.now) result }
{
    let layout = read_layout(file);
    let functions = layout.functions;
    report_lines(&counts[..functions], text)
}

// The report, in the lent output. Wrong reports that this rules out: one that writes where it refuses, be it a line that tells the refusal;
// one that writes a part of the text where the rest does not fit.
pub fn report(file: &[u8], out: &mut [u8]) -> Answer
    ensures { (result.number ≡ report_number file.now (length out.old))
        × (result.length ≡ report_length file.now (length out.old))
        × (out.new ≡ output_after_report file.now out.old) }
{
    let mut room = written_room();
    let written = write(file, &mut room);
    if is_refused(written.number) {
        return Answer {
            number: written.number,
            length: 0,
        };
    }
    let counts = written.counts.crossings;
    let mut text = text_room();
    let length = append_counts(file, &counts, &mut text);
    hand_out(&text[..length], out)
}
