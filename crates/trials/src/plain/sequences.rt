// All sequences over a row of masks, one after the other, as an odometer shows numbers.
use std::alloc::{AllocError, Global};

// A wheel for each mask, with its open duties.
#[derive(Drop)]
pub struct Odometer {
    wheels: Vec<Vec<u8>>,
}

// The open duties of a mask.
fn wheel(heap: Global, mask: u16) -> Result<Vec<u8>, AllocError> {
    (0..16u8)
        .filter(|duty| (mask >> *duty) & 1 == 1)
        .collect(heap)
}

impl Odometer {
    pub fn new(heap: Global, masks: &[u16]) -> Result<Odometer, AllocError> {
        let wheels = masks
            .iter()
            .map(|mask| wheel(heap, *mask))
            .try_collect(heap)?;
        Ok(Odometer { wheels })
    }

    // How many sequences there are: one over no mask, none over an empty one.
    pub fn count(&self) -> u64 {
        self.wheels.iter().fold(1u64, |count, wheel| {
            count.saturating_mul(wheel.len() as u64)
        })
    }

    // The sequence of a number: the first wheel turns fastest.
    fn show(&self, number: u64, sequence: &mut Vec<u8>) -> Result<(), AllocError> {
        sequence.clear();
        let mut rest = number;
        for wheel in self.wheels.iter() {
            let size = wheel.len() as u64;
            let at = rest.checked_rem(size).unwrap_or(0);
            rest = rest.checked_div(size).unwrap_or(0);
            sequence.push(wheel.get(at as usize).copied().unwrap_or(0))?;
        }
        Ok(())
    }

    // Visits every sequence.
    pub fn each<F: FnMut(&[u8]) -> Result<(), AllocError>>(
        &self,
        heap: Global,
        mut visit: F,
    ) -> Result<(), AllocError>
        requires { (f : _) (sequence : _) → F.pre f sequence }
    {
        let mut sequence = Vec::new(heap);
        for number in 0..self.count() {
            self.show(number, &mut sequence)?;
            visit(sequence.as_slice())?;
        }
        Ok(())
    }
}
