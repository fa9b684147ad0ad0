// Lines of text in a lent buffer, added piece by piece as far as there is room.
#![tactic(auto)]

ghost use Rattle.std.specs.Prelude.{◌≡◌, ◌++◌, ◌<◌, length, take, IsOk};
ghost use Rattle.condition.specs.declared.Condition.{Condition};
ghost use Rattle.interpreter.specs.declared.Tally.{Tally};
ghost use Rattle.interpreter.specs.Run.{ran};
ghost use Rattle.lines.specs.Lines.{Adds, hex_digit, hex_of, last_digit, numbered, Ends};
ghost use Rattle.lines.specs.Lines.{separator_of, hex_line, cell_lines, refused_line};

mod system;

use interpreter::{Ran, Tally};
use refusals::Refusal;
use std::fmt;
pub use system::{EIO, PATH, arg, fail, has_args, path, read_full, say};

const CELLS: usize = 40;

const LINE: usize = 20;

// Text of so many bytes at the start of a lent buffer. What has no room is cut.
#[derive(Drop)]
pub struct Text<'a> {
    pub out: &'a mut [u8],
    pub size: usize,
}

fn hex_digit(n: u8) -> u8
    requires { n < 16 }
    ensures { result ≡ hex_digit n }
{
    if n < 10 { b'0' + n } else { b'A' + (n - 10) }
}

// What follows the code at i of n codes: a space, or a new line after the last.
fn separator(i: usize, n: usize) -> u8
    requires { i < n }
    ensures { result ≡ separator_of i n }
{
    if n - i == 1 { b'\n' } else { b' ' }
}

impl<'a> Text<'a> {
    pub fn new(out: &'a mut [u8]) -> Text<'a>
        ensures same { result.out.ghost_name ≡ out.entry.ghost_name }
        ensures empty { (result.out.now ≡ out.old) × (result.size ≡ 0) }
    {
        Text { out, size: 0 }
    }

    // The text so far.
    pub fn written(&self) -> &[u8]
        ensures { result.now ≡ take self.now.size self.now.out.now }
    {
        let size = self.size.min(self.out.len());
        &self.out[..size]
    }

    pub fn word(&mut self, word: &[u8])
        ensures { Adds self.old word.now self.new }
    {
        let start = self.size.min(self.out.len());
        let room = &mut self.out[start..];
        row::copy(room, word);
        self.size += word.len().min(room.len());
    }

    // A word, and a number in decimal.
    pub fn number(&mut self, word: &[u8], n: u64)
        ensures { Adds self.old (numbered word.now n) self.new }
    {
        let mut digits = [0u8; 20];
        let d = io::decimal(n, &mut digits);
        self.word(word);
        self.word(&digits[..d]);
    }

    // A word, and a byte in two-digit hex.
    pub fn hex(&mut self, word: &[u8], b: u8)
        ensures { Adds self.old (word.now ++ hex_of b) self.new }
    {
        self.word(word);
        self.word(&[hex_digit(b / 16), hex_digit(b % 16)]);
    }

    // A byte's last hex digit.
    pub fn digit(&mut self, b: u8)
        ensures { Adds self.old (last_digit b) self.new }
    {
        self.word(&[hex_digit(b % 16)]);
    }

    // The codes in hex with one space between, and a new line.
    pub fn codes(&mut self, codes: &[u8])
        ensures { Adds self.old (hex_line codes.now) self.new }
    {
        for (i, code) in codes.iter().enumerate() {
            self.hex(b"", *code);
            self.word(&[separator(i, codes.len())]);
        }
    }

    // The codes of a picture by line: 40 places, two lines of 20.
    pub fn cells(&mut self, codes: &[u8; CELLS])
        ensures { Adds self.old (cell_lines codes.now) self.new }
    {
        self.codes(&codes[..LINE]);
        self.codes(&codes[LINE..]);
    }

    // `refused N`
    pub fn refused(&mut self, n: u32)
        ensures { Adds self.old (refused_line n) self.new }
    {
        self.number(b"refused ", n as u64);
        self.word(b"\n");
    }

    // What ends the print of a run: its tally, or its refusal alone.
    pub fn end(&mut self, run: Result<Ran, Refusal>)
        ensures { (c : Condition) (t : Tally) → Ends self.old (ran c t run) self.new }
    {
        match run {
            Ok(ran) => self.end_by(0, ran.tally),
            Err(refusal) => self.end_by(refusal.into(), Tally::zero()),
        }
    }

    // The same by a refusal's number, whatever it is, and a tally: the tally where the number is 0, or the refusal alone.
    pub fn end_by(&mut self, refusal: u32, tally: Tally)
        ensures { (c : Condition) → Ends self.old (record { refusal = refusal; condition = c; tally = tally }) self.new }
    {
        if refusal != 0 {
            self.size = 0;
            return self.refused(refusal);
        }
        self.number(b"bytes ", tally.bytes as u64);
        self.number(b" busy ", tally.busy as u64);
        self.number(b" flickerless ", tally.flickerless as u64);
        self.number(b" worst ", tally.worst as u64);
        self.word(b"\n");
    }
}

// What is written to a text is a word of it, and it is always taken.
impl<'a> fmt::Write for Text<'a> {
    ghost write_str_gives = { Adds };

    fn write_str(&mut self, s: &str) -> fmt::Result
        ensures taken { IsOk result }
        ensures added { Adds self.old s.now self.new }
    {
        self.word(s.as_bytes());
        Ok(())
    }
}
