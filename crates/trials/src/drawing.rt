// Drawing problems and calls.
use crate::dice::Dice;
use crate::plain::counters::{Reading, counter_of};
use crate::plain::fillings::sequence_of;
use crate::plain::rounds::Masks;
use crate::problem::{CELLS, Call, Kind, Posted, Problem, Request, Sense, WORKSPACE};
use std::alloc::{AllocError, Global};

// How large a problem may be: at the most so many cells with rules, duties, rules of each kind and
// counts of a tally; and whether its calls are mostly marks, which is a yes or no of its own.
#[derive(Clone, Copy)]
pub struct Scale {
    pub cells: u64,
    pub duties: u64,
    pub rules: u64,
    pub counts: u64,
    pub deep: bool,
}

pub const TINY: Scale = Scale {
    cells: 3,
    duties: 2,
    rules: 1,
    counts: 3,
    deep: false,
};

pub const SMALL: Scale = Scale {
    cells: 5,
    duties: 4,
    rules: 3,
    counts: 6,
    deep: false,
};

pub const DEEP: Scale = Scale {
    cells: 3,
    duties: 3,
    rules: 1,
    counts: 4,
    deep: true,
};

// Rows of up to 64 cells, of which few have a choice.
pub const WIDE: Scale = Scale {
    cells: 64,
    duties: 4,
    rules: 2,
    counts: 63,
    deep: false,
};

// (The dice and the scale stay apart: the dice are the bench's, and each trial has its own scale.)
fn draw_sense(dice: &mut Dice) -> Sense {
    match dice.below(3) {
        0 => Sense::AtMost,
        1 => Sense::AtLeast,
        _ => Sense::Exactly,
    }
}

// A row of so many cells on end, which may go past the last and on from the first.
fn draw_long_row(heap: Global, dice: &mut Dice, cells: u64) -> Result<Vec<u8>, AllocError> {
    let first = dice.below(cells);
    let whole = dice.one_in(2);
    let length = if whole { cells } else { dice.between(1, cells) };
    (0..length)
        .map(|i| first.saturating_add(i).checked_rem(cells).unwrap_or(0))
        .map(|cell| (cell % 192) as u8)
        .collect(heap)
}

// A row of different cells in any order: one at the least.
fn draw_row(heap: Global, dice: &mut Dice, scale: Scale) -> Result<Vec<u8>, AllocError> {
    if scale.cells > 8 {
        return draw_long_row(heap, dice, scale.cells);
    }
    let mut row = Vec::new(heap);
    let least = if dice.one_in(4) { 1 } else { scale.cells };
    for _ in 0..dice.between(least, 2 * scale.cells.min(64)) {
        let cell = (dice.below(scale.cells) % 192) as u8;
        if !row.as_slice().contains(&cell) {
            row.push(cell)?;
        }
    }
    Ok(row)
}

// Counts of any shape, all up to one, or just one.
fn draw_tally(dice: &mut Dice, counts: u64) -> u64 {
    let count = dice.between(0, counts) % 64;
    match dice.below(4) {
        0 => 1 << count,
        1 => u64::MAX >> (63 - count),
        _ => dice.some(counts.saturating_add(1)),
    }
}

// The total of a row, where each cell has the duty that the filling gives it.
fn total_of(
    heap: Global,
    problem: &Problem,
    kind: Kind,
    cells: &[u8],
    filling: &[u8; CELLS],
) -> Result<u64, AllocError> {
    let sequence = sequence_of(heap, cells, filling)?;
    let mut reading = Reading::new(heap);
    reading.read(counter_of(problem, kind), sequence.as_slice())?;
    Ok(reading.total)
}

// A tally with a count that the total meets, and mostly few others, so that rules bind and yet agree; sometimes any.
fn draw_tight_tally(dice: &mut Dice, counts: u64, total: u64) -> u64 {
    let met = 1 << (total % 64);
    match dice.below(8) {
        0 => draw_tally(dice, counts),
        1 | 2 => met | dice.set(counts.saturating_add(1)),
        3 => met << 1 | met,
        4 => met >> 1 | met,
        _ => met,
    }
}

// Rules of one kind, most of which accept the filling.
fn draw_rules(
    heap: Global,
    dice: &mut Dice,
    scale: Scale,
    kind: Kind,
    filling: &[u8; CELLS],
    problem: &mut Problem,
) -> Result<(), AllocError> {
    for _ in 0..dice.between(0, scale.rules) {
        let sense = draw_sense(dice);
        let cells = draw_row(heap, dice, scale)?;
        let total = total_of(heap, problem, kind, cells.as_slice(), filling)?;
        let tally = draw_tight_tally(dice, scale.counts, total);
        problem.rules.push(Posted {
            kind,
            sense,
            tally,
            cells,
        })?;
    }
    Ok(())
}

// Mostly up to a few, sometimes up to 16.
fn draw_length(dice: &mut Dice, few: u64) -> u64 {
    let most = if dice.one_in(8) { 16 } else { few };
    dice.between(1, most)
}

// A word over the lowest classes, which repeats itself after a while.
fn draw_word(heap: Global, dice: &mut Dice, duties: u64) -> Result<Vec<u8>, AllocError> {
    let mut word = Vec::new(heap);
    let period = dice.between(1, 4);
    for i in 0..draw_length(dice, 4) {
        let new = (dice.below(duties) % 16) as u8;
        let before = i.wrapping_sub(period) as usize;
        let letter = word.get(before).copied().unwrap_or(new);
        word.push(letter)?;
    }
    Ok(word)
}

// The classes of the duties from the lowest in use on; sometimes any.
fn draw_classes(dice: &mut Dice, duties: u64, lowest: u64) -> [u8; 16] {
    let mut classes = [0; 16];
    let any = dice.one_in(3);
    for (duty, class) in classes.iter_mut().enumerate() {
        let drawn = if any {
            dice.below(duties)
        } else {
            (duty as u64).saturating_sub(lowest)
        };
        *class = (drawn % 16) as u8;
    }
    classes
}

// The steps of a table: mostly small increases, sometimes any.
fn draw_steps(heap: Global, dice: &mut Dice, states: u64) -> Result<Vec<u8>, AllocError> {
    let mut steps = Vec::new(heap);
    let most = if dice.one_in(4) { 16 } else { 3 };
    for _ in 0..states.min(16) * 16 {
        let next = dice.below(states) % 16;
        let increase = dice.below(most) % 16;
        steps.push((16 * next + increase) as u8)?;
    }
    Ok(steps)
}

// The masks of the cells in use; in all other cells every duty is open.
fn draw_cells(dice: &mut Dice, scale: Scale, lowest: u64) -> [u16; CELLS] {
    let mut cells = [0xffff; CELLS];
    for (cell, mask) in cells.iter_mut().enumerate() {
        if (cell as u64) < scale.cells {
            let fixed = scale.cells > 8 && !dice.one_in(20);
            let set = if fixed {
                1 << (dice.below(scale.duties) % 16)
            } else {
                dice.some(scale.duties) | dice.set(scale.duties)
            };
            *mask = ((set << (lowest % 16)) & 0xffff) as u16;
        }
    }
    cells
}

// A duty for each cell, of those that are open.
fn draw_filling(dice: &mut Dice, cells: &[u16; CELLS]) -> [u8; CELLS] {
    let mut filling = [0; CELLS];
    for (duty, mask) in filling.iter_mut().zip(cells.iter()) {
        let turn = (dice.below(16) % 16) as u32;
        let first = mask.rotate_right(turn).trailing_zeros();
        *duty = ((first.min(16) + turn) % 16) as u8;
    }
    filling
}

pub fn draw_problem(heap: Global, dice: &mut Dice, scale: Scale) -> Result<Problem, AllocError> {
    let lowest = if dice.one_in(4) {
        16u64.saturating_sub(scale.duties)
    } else {
        0
    };
    let mut problem = Problem::new(heap);
    problem.cells = draw_cells(dice, scale, lowest);
    problem.set = ((dice.set(scale.duties) << (lowest % 16)) & 0xffff) as u16;
    problem.word = draw_word(heap, dice, scale.duties)?;
    problem.classes = draw_classes(dice, scale.duties, lowest);
    let states = draw_length(dice, 3);
    problem.states = (states % 256) as u8;
    problem.steps = draw_steps(heap, dice, states)?;
    let filling = draw_filling(dice, &problem.cells);
    draw_rules(heap, dice, scale, Kind::Among, &filling, &mut problem)?;
    draw_rules(heap, dice, scale, Kind::Word, &filling, &mut problem)?;
    draw_rules(heap, dice, scale, Kind::Table, &filling, &mut problem)?;
    Ok(problem)
}

// A cell, mostly one with rules in which there is something to decide; sometimes one that there is not.
fn draw_cell(dice: &mut Dice, scale: Scale, masks: &Masks) -> usize {
    match dice.below(16) {
        0 => return dice.between(192, 300) as usize,
        1 => return dice.below(192) as usize,
        _ => {}
    }
    let mut cell = 0;
    for _ in 0..8 {
        cell = dice.below(scale.cells) as usize;
        if masks.cell(cell).count_ones() > 1 {
            break;
        }
    }
    cell
}

// A value of a mask, or several; all of them where none was drawn.
fn draw_part(dice: &mut Dice, mask: u64) -> u64 {
    let part = mask & dice.roll();
    if part == 0 {
        mask
    } else if dice.one_in(2) {
        part & part.wrapping_neg()
    } else {
        part
    }
}

// A mask, mostly of duties that are open in the cell; sometimes any, or none.
fn draw_mask(dice: &mut Dice, masks: &Masks, cell: usize) -> u16 {
    let mask = match dice.below(16) {
        0 => 0,
        1 | 2 => dice.roll(),
        _ => draw_part(dice, u64::from(masks.cell(cell))),
    };
    (mask & 0xffff) as u16
}

// A rule; sometimes one that there is not.
fn draw_rule(dice: &mut Dice, problem: &Problem) -> usize {
    let rules = problem.rules.len() as u64;
    if dice.one_in(12) {
        dice.between(rules, 80) as usize
    } else {
        dice.below(rules) as usize
    }
}

// A tally, mostly of counts that are open in the rule; sometimes any, or none.
fn draw_bound(dice: &mut Dice, scale: Scale, masks: &Masks, rule: usize) -> u64 {
    match dice.below(16) {
        0 => 0,
        1 | 2 => draw_tally(dice, scale.counts),
        _ => draw_part(dice, masks.tally(rule)),
    }
}

// A request of a plan with these masks.
pub fn draw_request(dice: &mut Dice, scale: Scale, problem: &Problem, masks: &Masks) -> Request {
    if scale.deep && !dice.one_in(4) {
        return Request::Mark;
    }
    match dice.below(24) {
        0..=11 => {
            let cell = draw_cell(dice, scale, masks);
            let mask = draw_mask(dice, masks, cell);
            Request::Decide { cell, mask }
        }
        12..=14 => {
            let rule = draw_rule(dice, problem);
            let tally = draw_bound(dice, scale, masks, rule);
            Request::Bound { rule, tally }
        }
        15..=17 => Request::Mark,
        18..=20 => Request::Back,
        21 => Request::Cell(draw_cell(dice, scale, masks)),
        22 => Request::Tally(draw_rule(dice, problem)),
        _ => Request::Figures(draw_rule(dice, problem)),
    }
}

// How much workspace is lent: mostly enough, and not more than there is.
pub fn draw_workspace(dice: &mut Dice, most: usize) -> usize {
    if dice.one_in(16) {
        dice.between(0, WORKSPACE as u64 - 1) as usize
    } else {
        dice.between(WORKSPACE as u64, most as u64) as usize
    }
}

pub fn draw_call(
    dice: &mut Dice,
    scale: Scale,
    problem: &Problem,
    masks: &Masks,
    most: usize,
) -> Call {
    Call {
        request: draw_request(dice, scale, problem, masks),
        workspace: draw_workspace(dice, most),
    }
}
