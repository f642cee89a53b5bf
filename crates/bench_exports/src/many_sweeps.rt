// Many sweeps with one automaton.
use crate::fields::{mapped_word, table};
use automata::{Among, CounterAutomaton};
use measures::{Greatest, Least, Measure, Totals};

// The last code of a forward sweep at state 0; none where the codes are too few.
fn forward<M: Measure, C: CounterAutomaton>(
    automaton: &C,
    masks: &[u16],
    codes: &mut [u64],
) -> Option<u64> {
    sweeps::forward::<M, C>(automaton, masks, codes).ok()?;
    codes.get(16 * masks.len()).copied()
}

// The first code of a backward sweep; none where the codes are too few.
fn backward<M: Measure, C: CounterAutomaton>(
    automaton: &C,
    masks: &[u16],
    codes: &mut [u64],
) -> Option<u64> {
    sweeps::backward::<M, C>(automaton, masks, codes).ok()?;
    codes.first().copied()
}

// Sweeps over each row of so many masks, and answers a number that depends on every sweep.
fn sum_rows<S: FnMut(&[u16], &mut [u64]) -> Option<u64>>(
    len: usize,
    rows: &[u16],
    codes: &mut [u64],
    mut sweep: S,
) -> u64
    requires { (s : _) (masks : _) (codes : _) → S.pre s masks codes }
{
    let mut sum = 0u64;
    if len == 0 {
        return 0;
    }
    for masks in rows.chunks_exact(len) {
        if let Some(code) = sweep(masks, codes) {
            sum = sum.rotate_left(1) ^ code;
        }
    }
    sum
}

// The sweep of a number, which comes from C: forward with the least, the greatest and the totals, and then backward.
fn sweep_rows<C: CounterAutomaton>(
    automaton: &C,
    number: u32,
    len: usize,
    rows: &[u16],
    codes: &mut [u64],
) -> u64 {
    match number {
        0 => sum_rows(len, rows, codes, |masks, codes| {
            forward::<Least, C>(automaton, masks, codes)
        }),
        1 => sum_rows(len, rows, codes, |masks, codes| {
            forward::<Greatest, C>(automaton, masks, codes)
        }),
        2 => sum_rows(len, rows, codes, |masks, codes| {
            forward::<Totals, C>(automaton, masks, codes)
        }),
        3 => sum_rows(len, rows, codes, |masks, codes| {
            backward::<Least, C>(automaton, masks, codes)
        }),
        4 => sum_rows(len, rows, codes, |masks, codes| {
            backward::<Greatest, C>(automaton, masks, codes)
        }),
        5 => sum_rows(len, rows, codes, |masks, codes| {
            backward::<Totals, C>(automaton, masks, codes)
        }),
        _ => 0,
    }
}

#[unsafe(no_mangle)]
pub extern "C" fn kernel_sweep_set(
    set: u16,
    sweep: u32,
    len: usize,
    rows: &[u16],
    codes: &mut [u64],
) -> u64 {
    sweep_rows(&Among::new(set), sweep, len, rows, codes)
}

// One for a word and one for a table: the C interface.
#[unsafe(no_mangle)]
pub extern "C" fn kernel_sweep_word(
    word: &[u8],
    sweep: u32,
    len: usize,
    rows: &[u16],
    codes: &mut [u64],
) -> u64 {
    mapped_word(word).map_or(0, |word| sweep_rows(&word, sweep, len, rows, codes))
}

#[unsafe(no_mangle)]
pub extern "C" fn kernel_sweep_table(
    steps: &[u8],
    sweep: u32,
    len: usize,
    rows: &[u16],
    codes: &mut [u64],
) -> u64 {
    table(steps).map_or(0, |table| sweep_rows(&table, sweep, len, rows, codes))
}
