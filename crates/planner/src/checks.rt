// The refusals of the planners.
ghost use Rattle.std.specs.Prelude.{◌≡◌};
ghost use Rattle.refusals.specs.Refusals.{refusal_in};
ghost use Rattle.users.specs.Users.{users_in};
ghost use Rattle.planner.specs.Answer.{on_move, on_switch, lacks, some_lacks, refusal_by, plan_refusal, fonts_refusal};

use condition::Condition;
use refusals::Refusal;
use users::UserList;

// The last place, as wide as what is asked.
const LAST: u32 = Condition::LAST_PLACE as u32;

// A user character sits on a code that the planner moves with.
fn on_move(users: &UserList) -> bool
    ensures { result ≡ on_move (users_in users.now.bytes.now users.now.count) }
{
    [0x08, 0x09, 0x0a, 0x0c, 0x0d, 0x1b]
        .iter()
        .any(|code| users.is_user(*code))
}

// A user character sits on a code that the planner for two fonts switches with.
fn on_switch(users: &UserList) -> bool
    ensures { result ≡ on_switch (users_in users.now.bytes.now users.now.count) }
{
    [0x18, 0x19, 0x1a].iter().any(|code| users.is_user(*code))
}

// A wanted code below 20h has no user character.
fn some_lacks(users: &UserList, wanted: &[u8]) -> bool
    ensures { result ≡ some_lacks (users_in users.now.bytes.now users.now.count) wanted.now }
{
    wanted
        .iter()
        .any(|code| *code < 0x20 && !users.is_user(*code))
}

// What a planner refuses by, in the order of the numbers, with what differs between the planners given.
fn check(
    long: bool,
    ranged: bool,
    blocked: bool,
    short: bool,
    c: &Condition,
    wanted: &[u8],
) -> Result<(), Refusal>
    ensures { refusal_in result ≡ refusal_by long ranged blocked short c.now wanted.now }
{
    if !long {
        return Err(Refusal::WrongLength);
    }
    if !c.is_well_formed() || !ranged {
        return Err(Refusal::OutOfRange);
    }
    if !c.pending.is_idle() {
        return Err(Refusal::HalfReceived);
    }
    if c.mode != 1 {
        return Err(Refusal::WrongMode);
    }
    if blocked {
        return Err(Refusal::UserOnMove);
    }
    if some_lacks(&c.users.list(), wanted) {
        return Err(Refusal::NoCharacter);
    }
    if short {
        return Err(Refusal::NoRoom);
    }
    Ok(())
}

// What a plan in one font is refused by.
pub(crate) fn check_plan(
    c: &Condition,
    wanted: &[u8],
    asked: u32,
    room: usize,
) -> Result<(), Refusal>
    ensures { refusal_in result ≡ plan_refusal c.now wanted.now asked room }
{
    check(
        wanted.len() == Condition::CELLS,
        asked <= LAST,
        on_move(&c.users.list()),
        room < crate::ROOM,
        c,
        wanted,
    )
}

// What a plan in two fonts is refused by.
pub(crate) fn check_fonts(
    c: &Condition,
    wanted: &[u8],
    fonts: &[u8],
    asked: u32,
    room: usize,
) -> Result<(), Refusal>
    ensures { refusal_in result ≡ fonts_refusal c.now wanted.now fonts.now asked room }
{
    let users = c.users.list();
    check(
        wanted.len() == Condition::CELLS && fonts.len() == Condition::CELLS,
        asked <= LAST && row::up_to(Condition::LAST_FONT, fonts),
        on_move(&users) || on_switch(&users),
        room < crate::ROOM_FONTS,
        c,
        wanted,
    )
}
