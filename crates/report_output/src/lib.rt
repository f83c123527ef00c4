// "16. The lent output is too short": the report's text handed out where it fits.
#![tactic(auto)]

ghost use Rattle.write_output.specs.Answers.{HandedOut};

use memory_answer::Answer;
use memory_append::append;

// A text that fits stands at the front of the output; of one that does not, nothing is written.
pub fn hand_out(text: &[u8], out: &mut [u8]) -> Answer
    ensures { HandedOut text.now out.old out.new result.number result.length }
{
    if out.len() < text.len() {
        return Answer {
            number: 16,
            length: 0,
        };
    }
    append(text, out, 0);
    Answer {
        number: 0,
        length: text.len(),
    }
}
