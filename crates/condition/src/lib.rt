// A module's condition: what it holds, when it is well formed, and power-up.
#![tactic(auto)]

ghost use Rattle.std.specs.Prelude.{◌≡◌};
ghost use Rattle.condition.specs.Condition.{idle, held_of, numbers_good};
ghost use Rattle.condition.specs.Condition.{scroll_good, well_formed, power_up, outcome, power_up_answer};
ghost use Rattle.condition.specs.Rows.{rows_good};

use refusals::Refusal;
use users::{UserList, Users};

// The half-received command. A user character's data has its code and the count of bytes held.
#[derive(Clone, Copy)]
pub enum Pending {
    Nothing,
    Escape,
    Position,
    Luminance,
    Speed,
    UserCode,
    UserData(u8, u8),
}

// Mode and fonts are numbers, and no enums: a condition may be given with any, and `well_formed` says which are right.
#[derive(Clone, Copy)]
pub struct Condition {
    // The 40 cells: a code each, and a font each.
    pub codes: [u8; Condition::CELLS],
    pub fonts: [u8; Condition::CELLS],
    pub cursor: u8,
    pub mode: u8,
    // Scroll-on.
    pub scrolling: bool,
    // Whether the cursor is shown.
    pub shown: bool,
    // The selected font, and the default one (link J6).
    pub font: u8,
    pub link: u8,
    pub euro: bool,
    pub luminance: u8,
    pub speed: u8,
    pub flickerless: bool,
    pub users: Users,
    // For each code its place in their list, counted from 1, or 0 where it has none.
    pub index: [u8; index::ENTRIES],
    pub pending: Pending,
    // The data bytes held of a user character that is being received.
    pub held: [u8; Condition::HELD],
}

// A byte's busy time, in microseconds: the quick figure, and the worst one, which flickerless mode may reach.
#[derive(Clone, Copy)]
pub struct Figures {
    pub quick: u8,
    pub worst: u16,
}

impl Pending {
    // No command is half received.
    pub fn is_idle(self) -> bool
        ensures { result ≡ idle self }
    {
        matches!(self, Pending::Nothing)
    }

    // How many bytes are held of a user character's data.
    pub fn held(self) -> u8
        ensures { result ≡ held_of self }
    {
        match self {
            Pending::UserData(_, n) => n,
            _ => 0,
        }
    }
}

// The rows of a condition are as they should be: the cells' fonts, the user characters, and what is held of one that is being
// received. They may stand in a condition or in bytes; more than 16 user characters, or a row of another length, never are.
pub fn rows_good(fonts: &[u8], users: &UserList, pending: Pending, held: &[u8]) -> bool
    ensures { result ≡ rows_good fonts.now users.now.count users.now.bytes.now pending held.now }
{
    if fonts.len() != Condition::CELLS {
        return false;
    }
    if users.bytes.len() != Users::BYTES {
        return false;
    }
    if held.len() != Condition::HELD {
        return false;
    }
    if Condition::MOST_USERS < users.count {
        return false;
    }
    row::up_to(Condition::LAST_FONT, fonts)
        & users.are_formed(Condition::FIFTH)
        & users::held_formed(pending.held(), held)
        & (pending.is_idle() | !users.is_user(0x1b))
}

fn numbers_good(c: &Condition) -> bool
    ensures { result ≡ numbers_good c.now }
{
    ((c.cursor as usize) < Condition::CELLS)
        & (1 <= c.mode)
        & (c.mode <= Condition::LAST_MODE)
        & (c.font <= Condition::LAST_FONT)
        & (c.link <= Condition::LAST_FONT)
        & (c.luminance <= Condition::FULL_LUMINANCE)
        & (c.users.count <= Condition::MOST_USERS)
}

fn scroll_good(c: &Condition) -> bool
    ensures { result ≡ scroll_good c.now }
{
    !c.scrolling | ((c.mode == 3) & (c.cursor % Condition::COLUMNS == Condition::LAST_COLUMN))
}

impl Condition {
    // The cells and the last place, the columns of a line and the last of them, and the data bytes that may be held of a user
    // character.
    pub const CELLS: usize = 40;

    pub const LAST_PLACE: u8 = 39;

    pub const COLUMNS: u8 = 20;

    pub const LAST_COLUMN: u8 = 19;

    pub const HELD: usize = 4;

    // The highest of each number that has a range.
    pub const LAST_MODE: u8 = 3;

    pub const LAST_FONT: u8 = 1;

    pub const FULL_LUMINANCE: u8 = 3;

    pub const MOST_USERS: u8 = Users::MOST;

    // A user character's fifth byte is below this: the underline and three dots.
    pub const FIFTH: u8 = 16;

    // Power-up for a font, whatever its number.
    pub fn powered(font: u8) -> Condition
        ensures { result ≡ power_up font }
    {
        Condition {
            codes: [0x20; Condition::CELLS],
            fonts: [font; Condition::CELLS],
            cursor: 0,
            mode: 1,
            scrolling: false,
            shown: false,
            font,
            link: font,
            euro: false,
            luminance: Condition::FULL_LUMINANCE,
            speed: 0x14,
            flickerless: false,
            users: Users {
                bytes: [0; Users::BYTES],
                count: 0,
            },
            index: [0; index::ENTRIES],
            pending: Pending::Nothing,
            held: [0; Condition::HELD],
        }
    }

    // Power-up for a default font.
    pub fn power_up(font: u32) -> Result<Condition, Refusal>
        ensures { outcome result ≡ power_up_answer font }
    {
        if u32::from(Condition::LAST_FONT) < font {
            return Err(Refusal::OutOfRange);
        }
        Ok(Condition::powered(font as u8))
    }

    // Whether the condition is well formed. (Written out where it is called, it would copy the condition onto that caller's stack.)
    #[inline(never)]
    pub fn well_formed(self) -> bool
        ensures { result ≡ well_formed self }
    {
        self.is_well_formed()
    }

    // The same of a condition where it stands: none is copied onto the stack of a caller that was lent one. (The list is made here, and
    // not by `Users::list`, because it is then known how many bytes it has.)
    pub fn is_well_formed(&self) -> bool
        ensures { result ≡ well_formed self.now }
    {
        let users = UserList {
            bytes: &self.users.bytes,
            count: self.users.count,
        };
        numbers_good(self)
            & scroll_good(self)
            & rows_good(&self.fonts, &users, self.pending, &self.held)
            & index::agrees(&users, &self.index)
    }
}
