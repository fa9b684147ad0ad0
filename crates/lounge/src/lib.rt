// The lounge module, the CU20026MCPB: its condition, what pairs of bytes do to it, and what a cell shows.
#![tactic(auto)]

ghost use Rattle.std.specs.Prelude.{◌≡◌};
ghost use Rattle.lounge.specs.Condition.{held_of, is_area, area_formed, numbers_formed, scroll_formed, well_formed, reset_of};
ghost use Rattle.lounge.specs.Run.{kinds_formed, ran, RunPromise};
ghost use Rattle.lounge.specs.Shows.{shows_of, level_of, seen, view_answer};
ghost use Rattle.lounge.specs.Marks.{has_mark};

use refusals::Refusal;
use users::UserList;

mod cells;
mod controls;
pub mod heads;
mod marking;
mod pairs;
mod sequences;

// What is half received: nothing; ESC; a user character's data, with its code and the count of bytes held; an area code that
// awaits its first position; one that awaits its second, with the first.
#[derive(Clone, Copy)]
pub enum Pending {
    Nothing,
    Escape,
    UserData(u8, u8),
    First(u8),
    Second(u8, u8),
}

#[derive(Clone, Copy)]
pub struct Lounge {
    // The 40 characters: a code each, and its marks: 1 bright, 2 blink, 4 underline, added. (One byte for each, because `well_formed`
    // speaks of marks above 7 too, and a loop over bytes is compiled to take many at a time.)
    pub codes: [u8; Lounge::CELLS],
    pub marks: [u8; Lounge::CELLS],
    pub cursor: u8,
    // 1 or 2: DC1, DC2. (A number, because `well_formed` speaks of conditions in no mode too.)
    pub mode: u8,
    // Scroll-on.
    pub scrolling: bool,
    // Whether characters without the bright mark show at level B.
    pub dimming: bool,
    // The readable last byte.
    pub last: u8,
    // The user characters, in places of six bytes, oldest first, and how many there are. (Two public fields, by which the theorems
    // name them; `user_list` has both.)
    pub users: [u8; Lounge::USERS],
    pub count: u8,
    pub pending: Pending,
    // The data bytes held of a user character that is being received.
    pub held: [u8; Lounge::HELD],
}

// What a cell shows: nothing, the user character of a code, or a built-in code.
#[derive(Clone, Copy)]
pub enum Shows {
    Blank,
    User(u8),
    BuiltIn(u8),
}

// The luminance: A, or B, which is 40 % of it.
#[derive(Clone, Copy)]
pub enum Level {
    A,
    B,
}

// What is seen of a cell.
#[derive(Clone, Copy)]
pub struct Seen {
    pub shows: Shows,
    pub level: Level,
    pub blinking: bool,
    pub underlined: bool,
}

impl Pending {
    // How many bytes are held of a user character's data.
    fn held(self) -> u8
        ensures { result ≡ held_of self }
    {
        match self {
            Pending::UserData(_, n) => n,
            _ => 0,
        }
    }

    // A half-received area code is one of them.
    fn area_formed(self) -> bool
        ensures { result ≡ area_formed self }
    {
        match self {
            Pending::First(area) | Pending::Second(area, _) => is_area(area),
            _ => true,
        }
    }
}

fn is_area(b: u8) -> bool
    ensures { result ≡ is_area b }
{
    matches!(b, Lounge::LUMINANCE | Lounge::BLINK | Lounge::UNDERLINE)
}

impl Lounge {
    // The cells and the last place, the columns of a line and the last of them.
    pub const CELLS: usize = 40;

    pub const LAST_PLACE: u8 = 39;

    pub const COLUMNS: u8 = 20;

    pub const LAST_COLUMN: u8 = 19;

    // The modes.
    pub const DC1: u8 = 1;

    pub const DC2: u8 = 2;

    // The bytes of eight user characters, the bound of a fifth byte, whose top five bits are dropped, and the bytes held of one
    // that is being received.
    pub const USERS: usize = 48;

    pub const FIFTH: u8 = 8;

    pub const HELD: usize = 4;

    pub const MOST_PAIRS: usize = 32768;

    // The kind of a command write; a data write has the kind 0.
    const COMMAND: u8 = 1;

    // The area codes, and the marks that they give.
    pub const LUMINANCE: u8 = 0x17;

    pub const BLINK: u8 = 0x19;

    pub const UNDERLINE: u8 = 0x1c;

    pub const BRIGHT_MARK: u8 = 1;

    pub const BLINK_MARK: u8 = 2;

    pub const UNDERLINE_MARK: u8 = 4;

    pub const ALL_MARKS: u8 = 7;

    // The condition after a reset.
    pub fn reset() -> Lounge
        ensures { result ≡ reset_of }
    {
        Lounge {
            codes: [0x20u8; Lounge::CELLS],
            marks: [0u8; Lounge::CELLS],
            cursor: 0,
            mode: Lounge::DC1,
            scrolling: false,
            dimming: false,
            last: 0,
            users: [0u8; Lounge::USERS],
            count: 0,
            pending: Pending::Nothing,
            held: [0u8; Lounge::HELD],
        }
    }

    // Cursor and mode in range.
    fn numbers_formed(&self) -> bool
        ensures { result ≡ numbers_formed self.now }
    {
        ((self.cursor as usize) < Lounge::CELLS)
            & (Lounge::DC1 <= self.mode)
            & (self.mode <= Lounge::DC2)
    }

    // Scroll-on only in DC2 at column 19.
    fn scroll_formed(&self) -> bool
        ensures { result ≡ scroll_formed self.now }
    {
        !self.scrolling
            | ((self.mode == Lounge::DC2) & (self.cursor % Lounge::COLUMNS == Lounge::LAST_COLUMN))
    }

    // Whether the condition is well formed.
    pub fn well_formed(self) -> bool
        ensures { result ≡ well_formed self }
    {
        self.is_well_formed()
    }

    // The same of a condition where it stands.
    pub fn is_well_formed(&self) -> bool
        ensures { result ≡ well_formed self.now }
    {
        self.numbers_formed()
            & self.scroll_formed()
            & row::up_to(Lounge::ALL_MARKS, &self.marks)
            & self.user_list().are_formed(Lounge::FIFTH)
            & users::held_formed(self.pending.held(), &self.held)
            & self.pending.area_formed()
    }

    // The user characters.
    pub(crate) fn user_list(&self) -> UserList
        ensures { (result.bytes.now ≡ self.now.users) × (result.count ≡ self.now.count) }
    {
        UserList {
            bytes: &self.users,
            count: self.count,
        }
    }

    // What the cells of a code show.
    fn shows(&self, code: u8) -> Shows
        ensures { result ≡ shows_of self.now code }
    {
        if self.user_list().is_user(code) {
            Shows::User(code)
        } else if code < 0x20 {
            Shows::Blank
        } else {
            Shows::BuiltIn(code)
        }
    }

    // The luminance of a character with these marks.
    fn level(&self, m: u8) -> Level
        ensures { result ≡ level_of self.now m }
    {
        if self.dimming & !has_mark(Lounge::BRIGHT_MARK, m) {
            Level::B
        } else {
            Level::A
        }
    }
}

// No kind is above 1; a byte without its pair at the end is no kind. All are looked at, as in row::up_to, and by their places: a loop
// that leaves at the first above 1, and one over chunks too, is compiled pair by pair, which takes six times as long.
pub fn kinds_formed(pairs: &[u8]) -> bool
    ensures { result ≡ kinds_formed pairs.now }
{
    let mut most = 0;
    for k in 0..pairs.len() / 2 {
        most = pairs[2 * k].max(most);
    }
    most <= Lounge::COMMAND
}

// The pairs are carried out in turn: a kind, 0 for a data or 1 for a command write, and the byte written. It answers the condition
// after them.
pub fn run(c: Lounge, pairs: &[u8]) -> Result<Lounge, Refusal>
    ensures { RunPromise c pairs.now (ran c result) }
{
    if pairs.len() % 2 == 1 {
        return Err(Refusal::WrongLength);
    }
    if !c.is_well_formed() {
        return Err(Refusal::OutOfRange);
    }
    if !kinds_formed(pairs) {
        return Err(Refusal::OutOfRange);
    }
    if Lounge::MOST_PAIRS < pairs.len() / 2 {
        return Err(Refusal::TooLong);
    }
    let mut after = c;
    after.run_in(pairs);
    Ok(after)
}

fn has_mark(k: u8, m: u8) -> bool
    ensures { result ≡ has_mark k m }
{
    m & k == k
}

// What is seen of the cell at a position.
pub fn view(c: Lounge, position: u32) -> Result<Seen, Refusal>
    ensures { seen result ≡ view_answer c position }
{
    if !c.is_well_formed() {
        return Err(Refusal::OutOfRange);
    }
    let i = position as usize;
    if Lounge::CELLS <= i {
        return Err(Refusal::OutOfRange);
    }
    let m = c.marks[i];
    Ok(Seen {
        shows: c.shows(c.codes[i]),
        level: c.level(m),
        blinking: has_mark(Lounge::BLINK_MARK, m),
        underlined: has_mark(Lounge::UNDERLINE_MARK, m),
    })
}
