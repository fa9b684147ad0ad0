// A picture is two lines of 20 cells, 40 places in one row: 0 to 19 the top line, 20 to 39 the bottom one.
// What moves whole rows stands here once, for codes, for fonts or marks, and for the bytes of user characters, of both devices;
// whether a row is in range, and whether two are the same.
#![tactic(auto)]

ghost use Rattle.std.specs.Prelude.{◌≡◌, ◌≤◌, length, set, replicate};
ghost use Rattle.row.specs.Row.{line_start, scrolled, shifted, cleared_line, on_picture, advanced, laid};
ghost use Rattle.row.specs.Row.{all_up_to, same_bytes};

// Column 0 of the line of a place.
pub fn line_start(at: u8) -> u8
    ensures { (result ≡ line_start at) × (result ≤ 20) }
{
    if at < 20 { 0 } else { 20 }
}

// v stands at the place `at`; past the end nothing changes.
pub fn put(cells: &mut [u8], at: u8, v: u8)
    ensures { cells.new ≡ set cells.old at v }
{
    let place = at as usize;
    if place < cells.len() {
        cells[place] = v;
    }
}

// Every cell is v.
pub fn clear(cells: &mut [u8], v: u8)
    ensures { cells.new ≡ replicate (length cells.old) v }
{
    cells.fill(v);
}

// Top takes bottom, and the bottom line is v. What is not a picture stays as it is.
pub fn scroll(cells: &mut [u8], v: u8)
    ensures { cells.new ≡ on_picture (scrolled v) cells.old }
{
    if cells.len() != 40 {
        return;
    }
    cells.copy_within(20.., 0);
    cells[20..].fill(v);
}

// The line of the place `at` shifts left one, and v comes to its column 19. What is not a picture stays as it is.
pub fn shift(cells: &mut [u8], at: u8, v: u8)
    ensures { cells.new ≡ on_picture (shifted (line_start at) v) cells.old }
{
    if cells.len() != 40 {
        return;
    }
    let start = line_start(at) as usize;
    cells.copy_within(start + 1..start + 20, start);
    cells[start + 19] = v;
}

// Every place of the line of the place `at` is v. What is not a picture stays as it is.
pub fn clear_line(cells: &mut [u8], at: u8, v: u8)
    ensures { cells.new ≡ on_picture (cleared_line (line_start at) v) cells.old }
{
    if cells.len() != 40 {
        return;
    }
    let start = line_start(at) as usize;
    cells[start..start + 20].fill(v);
}

// Each place takes what stands `by` places further on; the last `by` places keep what they hold.
pub fn advance(bytes: &mut [u8], by: usize)
    ensures { bytes.new ≡ advanced by bytes.old }
{
    if by <= bytes.len() {
        bytes.copy_within(by.., 0);
    }
}

// The bytes of `from` stand at the start of `to`, as far as there is room.
pub fn copy(to: &mut [u8], from: &[u8])
    ensures { to.new ≡ laid from.now to.old }
{
    let n = to.len().min(from.len());
    to[..n].copy_from_slice(&from[..n]);
}

// Every byte of s is at most n. All are looked at, where `all` would stop at the first above n: a chain that does not leave early is
// compiled to take many at a time, and takes a tenth of the time of one that does.
pub fn up_to(n: u8, s: &[u8]) -> bool
    ensures { result ≡ all_up_to n s.now }
{
    s.iter().fold(0, |most, x| most.max(*x)) <= n
}

// Two rows are the same. All bytes are looked at, where `a == b` is compiled to a call that takes them one by one.
pub fn same(a: &[u8], b: &[u8]) -> bool
    ensures { result ≡ same_bytes a.now b.now }
{
    if a.len() != b.len() {
        return false;
    }
    let mut alike = true;
    for (i, x) in a.iter().enumerate() {
        alike &= *x == b[i];
    }
    alike
}
