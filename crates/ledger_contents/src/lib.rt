// What a place, a parameter or a variable holds, and a list of such contents as flat numbers, five a content.
#![tactic(auto)]

ghost use Rattle.std.specs.Prelude.{◌≡◌, ◌+◌, ◌*◌, ◌<◌, ◌≤◌};
ghost use Rattle.kit.specs.Names.{length, set};
ghost use Rattle.definitions.specs.Ledger.{content_at, plain_number, opened_number};
ghost use Rattle.memory_buffer.specs.Buffer.{stored};
ghost use Rattle.ledger_contents.specs.Contents.{content_of_code, contents_of, five};

// A cell: its owner's address, its serial (call and index) and its value.
#[derive(Clone, Copy)]
pub struct Cell {
    pub owner: u8,
    pub call: u16,
    pub index: u16,
    pub value: u32,
}

// "plain number or cell struct": what a place, a parameter or a variable holds.
#[derive(Clone, Copy)]
pub enum Content {
    Plain(u32),
    Cell(Cell),
}

// "a place or variable is a struct whose content is an enum"
#[derive(Clone, Copy)]
pub struct Place {
    pub content: Content,
}

// The number that a walk may use: that of a cell is not to be had there.
pub fn plain_number(content: Content) -> u32
    ensures { result ≡ plain_number (content_of_code content) }
{
    match content {
        Content::Plain(value) => value,
        Content::Cell(_) => 0,
    }
}

// The number of a content whoever owns it: the original is worked out on opened places.
pub fn opened_number(content: Content) -> u32
    ensures { result ≡ opened_number (content_of_code content) }
{
    match content {
        Content::Plain(value) => value,
        Content::Cell(cell) => cell.value,
    }
}

// The content at a position; one that is not there reads as plain 0.
pub fn content_at(flat: &[u32], p: usize) -> Content
    ensures { content_of_code result ≡ content_at (contents_of flat.now) p }
{
    if p < flat.len() / 5 {
        let at = 5 * p;
        if flat[at] == 0 {
            Content::Plain(flat[at + 4])
        } else {
            Content::Cell(Cell {
                owner: (flat[at + 1] % 256) as u8,
                call: (flat[at + 2] % 65536) as u16,
                index: (flat[at + 3] % 65536) as u16,
                value: flat[at + 4],
            })
        }
    } else {
        Content::Plain(0)
    }
}

// Five numbers from a place on.
fn put_five(flat: &mut [u32], at: usize, tag: u32, cell: Cell)
    requires { at + 5 ≤ length flat.old }
    ensures { flat.new ≡ stored flat.old at (five tag cell.owner cell.call cell.index cell.value) }
{
    flat[at] = tag;
    flat[at + 1] = cell.owner as u32;
    flat[at + 2] = cell.call as u32;
    flat[at + 3] = cell.index as u32;
    flat[at + 4] = cell.value;
}

// Replaces the content at a position; a position that is not there changes nothing.
pub fn put_content(flat: &mut [u32], p: usize, content: Content)
    ensures { contents_of flat.new ≡ set (contents_of flat.old) p (content_of_code content) }
{
    if p < flat.len() / 5 {
        match content {
            Content::Plain(value) => put_five(
                flat,
                5 * p,
                0,
                Cell {
                    owner: 0,
                    call: 0,
                    index: 0,
                    value,
                },
            ),
            Content::Cell(cell) => put_five(flat, 5 * p, 1, cell),
        }
    }
}

// The number at a position that a walk may use.
pub fn plain_at(flat: &[u32], p: usize) -> u32
    ensures { result ≡ plain_number (content_at (contents_of flat.now) p) }
{
    let content = content_at(flat, p);
    plain_number(content)
}

// The number at a position, opened.
pub fn opened_at(flat: &[u32], p: usize) -> u32
    ensures { result ≡ opened_number (content_at (contents_of flat.now) p) }
{
    let content = content_at(flat, p);
    opened_number(content)
}
