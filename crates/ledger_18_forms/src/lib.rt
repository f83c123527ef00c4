// Whether the content at a position is what a form asks.
#![tactic(auto)]

ghost use Rattle.std.specs.Prelude.{◌≡◌};
ghost use Rattle.definitions.specs.Ledger.{fits, is_plain_zero};
ghost use Rattle.ledger_contents.specs.Contents.{content_of_code, contents_of};
ghost use Rattle.ledger_readers.specs.Readers.{form_of};
ghost use Rattle.ledger_18_forms.specs.Forms.{fits_or_zero, fits_at};

use ledger_contents::Content;
use ledger_readers::Reader;

fn is_plain_zero(content: Content) -> bool
    ensures { result ≡ is_plain_zero (content_of_code content) }
{
    match content {
        Content::Plain(value) => value == 0,
        Content::Cell(_) => false,
    }
}

// The content at a position is there and has the form.
pub fn fits_at(flat: &[u32], p: usize, code: usize, reader: Reader) -> bool
    ensures { result ≡ fits_at fits (contents_of flat.now) p (form_of code reader) }
{
    if p < flat.len() / 5 {
        let content = ledger_contents::content_at(flat, p);
        ledger_readers::fits(code, reader, content)
    } else {
        false
    }
}

// The same for a variable, which may be plain 0.
pub fn variable_fits_at(flat: &[u32], p: usize, code: usize, reader: Reader) -> bool
    ensures { result ≡ fits_at fits_or_zero (contents_of flat.now) p (form_of code reader) }
{
    if p < flat.len() / 5 {
        let content = ledger_contents::content_at(flat, p);
        if is_plain_zero(content) {
            true
        } else {
            ledger_readers::fits(code, reader, content)
        }
    } else {
        false
    }
}
