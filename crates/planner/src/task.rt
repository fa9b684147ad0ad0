// What is planned: the wanted codes in the wanted fonts and the asked cursor, and the condition that the plan starts from.
ghost use Rattle.planner.specs.Given.{Given};

use condition::Condition;

#[derive(Clone, Copy)]
pub(crate) struct Task<'a> {
    pub start: &'a Condition,
    pub codes: &'a [u8],
    pub fonts: &'a [u8],
    pub cursor: u8,
    // There are 40 codes and 40 fonts, and both cursors are places.
    ghost given: { Given start.now codes.now fonts.now cursor },
}
