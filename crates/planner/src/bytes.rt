// The bytes of a plan.
ghost use Rattle.std.specs.Prelude.{◌≡◌, [], ◌∷◌, ◌++◌, ◌+◌, ◌<◌, ◌≤◌, length};
ghost use Rattle.std.proofs.lemmas.List.Edits.{sets};
ghost use Rattle.moves.specs.Ways.{path};
ghost use Rattle.planner.specs.Plan.{at_start};
ghost use Rattle.planner.specs.Fonts.{switch};
ghost use Rattle.planner.specs.Clear.{clearing, fonts_by, either_fonts_plan};

use crate::cells::{codes_at, differs, fonts_at};
use crate::counts::CLEAR;
use crate::task::Task;

// Puts the way from p to q at k; answers the place behind it. (The output and the place are two parameters, here and below: the
// plan is put into a lent slice, and a struct of both would be made for three functions.)
fn put_way(out: &mut [u8], k: usize, p: u8, q: u8) -> usize
    requires { (p < 40) × (q < 40) × (k + length (path p q) ≤ length out.old) }
    ensures { (result ≡ k + length (path p q)) × (out.new ≡ sets out.old k (path p q)) }
{
    let n = moves::put_way(&mut out[k..], p, q);
    k + n as usize
}

// Puts the switch from a font to another at k; answers the place behind it.
fn put_switch(out: &mut [u8], k: usize, euro: bool, from: u8, to: u8) -> usize
    requires { k + length (switch euro from to) ≤ length out.old }
    ensures { (result ≡ k + length (switch euro from to))
        × (out.new ≡ sets out.old k (switch euro from to)) }
{
    if from == to {
        return k;
    }
    if to == 1 {
        out[k] = 0x19;
        return k + 1;
    }
    out[k] = 0x18;
    if euro {
        out[k + 1] = 0x1a;
        return k + 2;
    }
    k + 1
}

// Puts a code at k, and ahead of it the switch that it needs; answers the place behind it.
fn put_code(out: &mut [u8], k: usize, euro: bool, from: u8, to: u8, code: u8) -> usize
    requires { k + length (switch euro from to) < length out.old }
    ensures { (result ≡ k + length (switch euro from to ++ code ∷ []))
        × (out.new ≡ sets out.old k (switch euro from to ++ code ∷ [])) }
{
    let at = put_switch(out, k, euro, from, to);
    out[at] = code;
    at + 1
}

// Puts 0Eh at the start of out, or nothing; answers the place behind it.
fn put_clear(out: &mut [u8], clear: bool) -> usize
    requires { length (clearing clear) ≤ length out.old }
    ensures { (result ≡ length (clearing clear)) × (out.new ≡ sets out.old 0 (clearing clear)) }
{
    if clear {
        out[0] = CLEAR;
    }
    usize::from(clear)
}

impl Task<'_> {
    // Puts the plan at the start of out, with the clear or without it; answers its length.
    fn put_by(self, clear: bool, out: &mut [u8]) -> usize
        requires { length (fonts_by clear self.start.now self.codes.now self.fonts.now self.cursor) ≤ length out.old }
        ensures { let t = self.entry in
            (result ≡ length (fonts_by clear t.start.now t.codes.now t.fonts.now t.cursor))
            × (out.new ≡ at_start (fonts_by clear t.start.now t.codes.now t.fonts.now t.cursor) out.old) }
    {
        let c = self.start;
        let codes = codes_at(*c, clear);
        let standing = fonts_at(*c, clear);
        let euro = c.euro;
        let fonts = self.fonts;
        let mut p = c.cursor;
        let mut selected = c.font;
        let mut k = put_clear(out, clear);
        for (j, code) in self.codes.iter().enumerate() {
            let font = fonts[j];
            if differs(codes[j], standing[j], *code, font) {
                let i = j as u8;
                let at = put_way(out, k, p, i);
                k = put_code(out, at, euro, selected, font, *code);
                p = moves::next(i);
                selected = font;
            }
        }
        put_way(out, k, p, self.cursor)
    }

    // Puts the plan at the start of out: with the clear where that is shorter, else without it. Answers its length.
    pub fn put(self, out: &mut [u8]) -> usize
        requires { length (either_fonts_plan self.start.now self.codes.now self.fonts.now self.cursor) ≤ length out.old }
        ensures { let t = self.entry in
            (result ≡ length (either_fonts_plan t.start.now t.codes.now t.fonts.now t.cursor))
            × (out.new ≡ at_start (either_fonts_plan t.start.now t.codes.now t.fonts.now t.cursor) out.old) }
    {
        self.put_by(self.clear_wins(), out)
    }
}
