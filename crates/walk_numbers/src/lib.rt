// What an expression of a written body gives, and the number that a walk may use of it: no cell is opened.
#![tactic(auto)]

ghost use Rattle.std.specs.Prelude.{◌≡◌};
ghost use Rattle.definitions.specs.Ledger.{plain_number};
ghost use Rattle.ledger_contents.specs.Contents.{content_of_code};

use ledger_contents::{Content, plain_number};

// Whether an expression was walked to its end, and its content.
#[derive(Clone, Copy)]
pub struct Walked {
    pub walked: bool,
    pub content: Content,
}

// The number that the walk may use.
pub fn number_of(part: Walked) -> u32
    ensures { result ≡ plain_number (content_of_code part.content) }
{
    let content = part.content;
    plain_number(content)
}
