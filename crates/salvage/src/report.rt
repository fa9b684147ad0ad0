// What is printed, from the source of each block: the block that was written for it, counted from 1, or 0 for the power-up block.
ghost use Rattle.std.specs.Prelude.{◌≡◌, ◌≤◌, ◌<◌, length, get_or};
ghost use Rattle.lines.specs.Lines.{Adds, each};
ghost use Rattle.salvage.specs.Salvage.{tail_line, counts_line, count_of};
ghost use Rattle.salvage.specs.Steps.{line_by, own_source, report_by};

use lines::Text;

// A line where the block has another source than itself.
fn change(text: &mut Text<'_>, number: usize, source: u16)
    requires { number < 10000 }
    ensures { Adds text.old (line_by number source) text.new }
{
    if source as usize == number + 1 {
        return;
    }
    text.number(b"block ", number as u64);
    if source == 0 {
        return text.word(b" power-up\n");
    }
    text.number(b" repeated ", (source - 1) as u64);
    text.word(b"\n");
}

// The lines of all blocks.
fn changes(text: &mut Text<'_>, sources: &[u16])
    requires { length sources.now ≤ 10000 }
    ensures { Adds text.old (each (λ k. line_by k (get_or sources.now k 0)) (length sources.now)) text.new }
{
    for (i, source) in sources.iter().enumerate() {
        change(text, i, *source);
    }
}

// How many blocks are good.
fn count_kept(sources: &[u16]) -> usize
    requires { length sources.now ≤ 10000 }
    ensures { (result ≡ count_of (own_source sources.now) (length sources.now)) × (result ≤ length sources.now) }
{
    let mut kept = 0;
    for (i, source) in sources.iter().enumerate() {
        kept += usize::from(*source as usize == i + 1);
    }
    kept
}

// The line of a short tail, if there is one.
fn tail_line(text: &mut Text<'_>, tail: usize)
    ensures { Adds text.old (tail_line tail) text.new }
{
    if tail == 0 {
        return;
    }
    text.number(b"tail ", tail as u64);
    text.word(b" dropped\n");
}

// The last line: how many blocks are good, and how many were replaced.
fn counts(text: &mut Text<'_>, kept: usize, changed: usize)
    ensures { Adds text.old (counts_line kept changed) text.new }
{
    text.number(b"kept ", kept as u64);
    text.number(b" changed ", changed as u64);
    text.word(b"\n");
}

// All that is printed of a file with these sources and so many bytes behind its blocks.
pub(crate) fn report(text: &mut Text<'_>, sources: &[u16], tail: usize)
    requires { length sources.now ≤ 10000 }
    ensures { Adds text.old (report_by sources.now (length sources.now) tail) text.new }
{
    let kept = count_kept(sources);
    changes(text, sources);
    tail_line(text, tail);
    let changed = sources.len() - kept;
    counts(text, kept, changed);
}
