// The registers of 01: the answers, which writes and reads are refused, and what a write does.
#![tactic(auto)]

ghost use Rattle.std.specs.Prelude.{◌≡◌};
ghost use Rattle.registers.specs.Answers.{refusal_number, number, place, accepted};
ghost use Rattle.registers.specs.Refused.{reserved_code, not_modelled, lack_at, answer_at, read_answer};
ghost use Rattle.registers.specs.Deeds.{is_reset, motion_restarting, gravity_restarting, slow_restarting, deeds_of, deeds_when, judgement_at, judgement};
ghost use Rattle.laws.specs.Lists.{is_in};

use codes::{
    AXES_AT, CONTROL_AT, ENABLES_AT, FRAMES_AT, HIGH_DELAY_AT, HIGH_THRESHOLD_AT, HYSTERESES_AT,
    LATCH_AT, LOW_DELAY_AT, LOW_THRESHOLD_AT, POINTS_AT, POWER_AT, RANGE_AT, RESET_AT, SHADOW_AT,
    SLOW_AT, SLOW_THRESHOLD_AT, THRESHOLD_AT, is_reserved_mode, is_reserved_range,
    is_reserved_wait, mode_of, range_of,
};
use laws::{bit, both};
use table::{Row, merge, row_at};

// The longest read.
pub const LONGEST_READ: usize = 192;

// The byte that at 0x14 is a soft reset.
pub const SOFT_RESET: u8 = 0xB6;

// Why an event is refused; its number is `u8::from`. The last three name what the twin lacks; the third of them is self-test, memory,
// calibration or offset reset.
#[derive(Clone, Copy, Debug, PartialEq, Eq)]
pub enum Refusal {
    NoAddress,
    ReservedCode,
    OutOfRange,
    BadLength,
    PastEnd,
    NoDetector,
    NoPowerMode,
    NoTestOrTrim,
}

// What an event is answered: that it is done, or why it is refused. `number_of` gives its number.
pub type Answer = Result<(), Refusal>;

// Which detectors a write starts anew: any-motion; low-g and high-g; slow motion and no-motion.
#[derive(Clone, Copy)]
pub struct Restarts {
    pub motion: bool,
    pub gravity: bool,
    pub slow: bool,
}

// What a write does: its byte is stored; the FIFO is emptied and its overrun cleared; the locks are released; the previous sample is
// forgotten; detectors start anew; everything goes back to power-up.
#[derive(Clone, Copy)]
pub struct Deeds {
    pub stores: bool,
    pub empties: bool,
    pub releases: bool,
    pub forgets: bool,
    pub restarts: Restarts,
    pub resets: bool,
}

// What a refused write does.
const NO_DEEDS: Deeds = Deeds {
    stores: false,
    empties: false,
    releases: false,
    forgets: false,
    restarts: Restarts {
        motion: false,
        gravity: false,
        slow: false,
    },
    resets: false,
};

// What the registers say of a write: its answer, what it does, and the byte that is stored where one is.
#[derive(Clone, Copy)]
pub struct Judged {
    pub answer: Answer,
    pub deeds: Deeds,
    pub stored: u8,
}

// Which of the refusals it is, in the order of their numbers, from 1 on.
fn place_of(refusal: Refusal) -> u8
    ensures { result ≡ place refusal }
{
    match refusal {
        Refusal::NoAddress => 1,
        Refusal::ReservedCode => 2,
        Refusal::OutOfRange => 3,
        Refusal::BadLength => 4,
        Refusal::PastEnd => 5,
        Refusal::NoDetector => 6,
        Refusal::NoPowerMode => 7,
        Refusal::NoTestOrTrim => 8,
    }
}

// The number: 1, 2, 4 to 6 and 11 to 13. A match that gave these themselves would be compiled to a table, and the entry for C would
// then copy the device once more at each event.
impl From<Refusal> for u8 {
    ghost from_gives = { λ refusal number. number ≡ refusal_number refusal };

    fn from(refusal: Refusal) -> u8 {
        let place = place_of(refusal);
        if place < 3 {
            return place;
        }
        if place < 6 {
            return place + 1;
        }
        place + 5
    }
}

// The number: 0 where the event is done.
pub fn number_of(answer: Answer) -> u8
    ensures { result ≡ number answer }
{
    match answer {
        Ok(()) => 0,
        Err(refusal) => u8::from(refusal),
    }
}

pub fn is_accepted(answer: Answer) -> bool
    ensures { result ≡ accepted answer }
{
    answer.is_ok()
}

// Whether a write is of a code that the sheet reserves, or would bring no-motion and a code without a meaning for it together.
#[tactic(auto, unfolding(crate::specs::Refused::reserved_code))]
fn is_reserved_code(regs: &[u8; 64], address: u8, byte: u8) -> bool
    ensures { result ≡ reserved_code regs.now address byte }
{
    let at = address as usize;
    match at {
        RANGE_AT => is_reserved_range(range_of(byte)),
        CONTROL_AT => is_reserved_mode(mode_of(byte)),
        SLOW_AT => both(bit(byte, 3), is_reserved_wait(regs[POINTS_AT])),
        POINTS_AT => both(bit(regs[SLOW_AT], 3), is_reserved_wait(byte)),
        _ => false,
    }
}

// Whether a write is of a setting that is not modelled.
#[tactic(auto, unfolding(crate::specs::Refused::not_modelled))]
fn is_not_modelled(regs: &[u8; 64], row: Row, address: u8, byte: u8) -> bool
    ensures { result ≡ not_modelled regs.now row address byte }
{
    byte & row.2 != 0
}

// What the twin lacks where a register has a setting that is not modelled.
#[tactic(auto, unfolding(crate::specs::Refused::lack_at))]
fn lack_at(address: u8) -> Refusal
    ensures { result ≡ lack_at address }
{
    let at = address as usize;
    match at {
        POWER_AT => Refusal::NoPowerMode,
        AXES_AT => Refusal::NoDetector,
        _ => Refusal::NoTestOrTrim,
    }
}

// What a write is answered.
#[tactic(auto, unfolding(crate::specs::Refused::answer_at))]
fn write_answer(regs: &[u8; 64], row: Row, address: u8, byte: u8) -> Answer
    ensures { result ≡ answer_at regs.now row address byte }
{
    if address as usize > FRAMES_AT {
        return Err(Refusal::NoAddress);
    }
    if is_reserved_code(regs, address, byte) {
        return Err(Refusal::ReservedCode);
    }
    if is_not_modelled(regs, row, address, byte) {
        return Err(lack_at(address));
    }
    Ok(())
}

// What a read of count bytes is answered.
#[tactic(auto, unfolding(crate::specs::Refused::read_answer))]
pub fn read_answer(address: u8, count: usize) -> Answer
    ensures { result ≡ read_answer address count }
{
    let first = address as usize;
    if first > FRAMES_AT {
        return Err(Refusal::NoAddress);
    }
    if count == 0 || count > LONGEST_READ {
        return Err(Refusal::BadLength);
    }
    if first < FRAMES_AT && first + count > FRAMES_AT {
        return Err(Refusal::PastEnd);
    }
    Ok(())
}

// Whether a write is a soft reset.
fn is_reset(address: u8, byte: u8) -> bool
    ensures { result ≡ is_reset address byte }
{
    both(address as usize == RESET_AT, byte == SOFT_RESET)
}

// Whether any-motion starts anew at an accepted write.
fn restarts_motion(address: u8) -> bool
    ensures { result ≡ is_in motion_restarting address }
{
    matches!(
        address as usize,
        RANGE_AT | AXES_AT | LATCH_AT | POINTS_AT | THRESHOLD_AT
    )
}

// Whether low-g and high-g start anew at an accepted write.
fn restarts_gravity(address: u8) -> bool
    ensures { result ≡ is_in gravity_restarting address }
{
    matches!(
        address as usize,
        RANGE_AT
            | ENABLES_AT
            | LATCH_AT
            | LOW_DELAY_AT
            | LOW_THRESHOLD_AT
            | HYSTERESES_AT
            | HIGH_DELAY_AT
            | HIGH_THRESHOLD_AT
    )
}

// Whether slow motion and no-motion start anew at an accepted write.
fn restarts_slow(address: u8) -> bool
    ensures { result ≡ is_in slow_restarting address }
{
    matches!(
        address as usize,
        RANGE_AT | SLOW_AT | LATCH_AT | POINTS_AT | SLOW_THRESHOLD_AT
    )
}

// What an accepted write does.
#[tactic(auto, unfolding(crate::specs::Deeds::deeds_of))]
fn deeds_of(regs: &[u8; 64], row: Row, address: u8, byte: u8) -> Deeds
    ensures { result ≡ deeds_of regs.now row address byte }
{
    let at = address as usize;
    let resets = is_reset(address, byte);
    let restarts = Restarts {
        motion: restarts_motion(address),
        gravity: restarts_gravity(address),
        slow: restarts_slow(address),
    };
    Deeds {
        stores: row.1 != 0,
        empties: (at == CONTROL_AT) | resets,
        releases: both(at == SHADOW_AT, bit(byte, 6)),
        forgets: at == RANGE_AT,
        restarts,
        resets,
    }
}

// What a write does: nothing where it is refused.
fn deeds_when(accepted: bool, regs: &[u8; 64], row: Row, address: u8, byte: u8) -> Deeds
    ensures { result ≡ deeds_when accepted regs.now row address byte }
{
    if !accepted {
        return NO_DEEDS;
    }
    deeds_of(regs, row, address, byte)
}

fn judge_at(regs: &[u8; 64], row: Row, address: u8, byte: u8) -> Judged
    ensures { result ≡ judgement_at regs.now row address byte }
{
    let answer = write_answer(regs, row, address, byte);
    let deeds = deeds_when(is_accepted(answer), regs, row, address, byte);
    Judged {
        answer,
        deeds,
        stored: merge(row, byte),
    }
}

// What the registers, lent as they are before it, say of a write.
#[tactic(auto, unfolding(crate::specs::Deeds::judgement))]
pub fn judge_write(regs: &[u8; 64], address: u8, byte: u8) -> Judged
    ensures { result ≡ judgement regs.now address byte }
{
    judge_at(regs, row_at(address), address, byte)
}
