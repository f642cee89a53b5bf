// Trials of whole files: what the interpreter prints of a file, beside the plain reading of it.
use crate::answer::{Answer, FINE};
use crate::bench::Bench;
use crate::counts::more;
use crate::plain::reading::roster_text;
use crate::problem::{CELLS, RULES};
use crate::stop::{Stop, What, agree};
use interpreter::file::{FilePlan, FileRoster, Told};
use interpreter::read;
use posting::drafting::{Drafted, FileDraft};
use posting::kept::KeptTable;
use printing::{CellText, Entry, FaultText, MemoryText, RuleText};
use refusals::{FileFault, LineError};
use std::alloc::{AllocError, Global};
use std::fmt::Display;
use wire::digits::FrameBytes;
use wire::lines::{Line, LineBuffer};
use wire::order::Phase;
use wire::reader::{at_line, read_line};

// The lines of a file, one by one, and what was printed of them. (The roster program has the like over
// its standard input and output; this one is apart from it, so that neither hides a fault of the other.)
#[derive(Drop)]
struct Desk<'a> {
    heap: Global,
    rest: &'a [u8],
    line: LineBuffer,
    number: u64,
    out: String,
}

impl<'a> Desk<'a> {
    // Reads up to the end of the next line: whether it has a newline.
    fn fill(&mut self) -> bool {
        self.line.clear();
        let rest = self.rest;
        let end = self.line.extend(rest);
        self.rest = match end {
            Some(place) => &rest[place + 1..],
            None => &[],
        };
        end.is_some()
    }

    // The next line; none where the file is at its end.
    fn next(&mut self) -> Option<Line<'_>> {
        let ended = self.fill();
        self.number = self.number.saturating_add(1);
        if !ended && self.line.is_empty() {
            return None;
        }
        Some(self.line.line(ended))
    }

    // Prints a line.
    fn print<T: Display>(&mut self, text: &T) -> Result<(), AllocError> {
        let text = format!(in self.heap; "{text}\n")?;
        self.out.push_str(text.as_str())
    }

    fn tell(&mut self, told: Told) -> Result<(), AllocError> {
        self.print(&Entry {
            line: self.number,
            told,
        })
    }

    // Prints a fault of the line.
    fn stop(&mut self, fault: FileFault) -> Result<(), AllocError> {
        self.print(&FaultText(fault))
    }

    // The same of a line before the start, for which there may be no memory.
    fn stop_draft(&mut self, error: LineError) -> Result<(), AllocError> {
        let line = self.number;
        match error {
            LineError::Fault(fault) => self.stop(FileFault { line, fault }),
            LineError::Memory => self.print(&MemoryText { line }),
        }
    }
}

// The lines before the start: whether there is one.
fn draft_all(desk: &mut Desk<'_>, draft: &mut FileDraft) -> Result<bool, AllocError> {
    let heap = desk.heap;
    // Nothing bounds how many lines a file has.
    for _ in 0..u64::MAX {
        let Some(line) = desk.next() else {
            break;
        };
        match read::draft_line(draft, heap, line) {
            Ok(Drafted::Posted) => {}
            Ok(Drafted::Start) => return Ok(true),
            Err(error) => {
                desk.stop_draft(error)?;
                break;
            }
        }
    }
    Ok(false)
}

// The lines after the start: whether the plan is published.
fn plan_all(
    desk: &mut Desk<'_>,
    plan: &mut FilePlan<'_>,
    workspace: &mut [u64],
) -> Result<bool, AllocError> {
    // Nothing bounds how many lines a file has.
    for _ in 0..u64::MAX {
        let Some(line) = desk.next() else {
            break;
        };
        let answer = read::plan_line(plan, line, workspace);
        match at_line(desk.number, answer) {
            Ok(told) => {
                desk.tell(told)?;
                if let Told::Publish = told {
                    return Ok(true);
                }
            }
            Err(fault) => {
                desk.stop(fault)?;
                break;
            }
        }
    }
    Ok(false)
}

fn tell_roster(
    desk: &mut Desk<'_>,
    roster: &FileRoster<'_>,
    workspace: &mut [u64],
) -> Result<(), AllocError> {
    for line in (0..CELLS).map_while(|cell| roster.cell(cell)) {
        desk.print(&CellText(line))?;
    }
    for line in (0..RULES).map_while(|rule| roster.rule(rule, workspace)) {
        desk.print(&RuleText(line))?;
    }
    Ok(())
}

// A line after publishing.
fn finish(desk: &mut Desk<'_>) -> Result<(), AllocError> {
    let Some(line) = desk.next() else {
        return Ok(());
    };
    let mut bytes = FrameBytes::new();
    let answer = read_line(Phase::Published, line, &mut bytes);
    match at_line(desk.number, answer) {
        Ok(_) => Ok(()),
        Err(fault) => desk.stop(fault),
    }
}

// The whole file by the interpreter.
fn carry_out(desk: &mut Desk<'_>, workspace: &mut [u64]) -> Result<(), AllocError> {
    let heap = desk.heap;
    let Some(line) = desk.next() else {
        return Ok(());
    };
    let answer = read::open(heap, line);
    // (The other arm prints.)
    let mut draft = match at_line(desk.number, answer) {
        Ok(draft) => draft,
        Err(fault) => return desk.stop(fault),
    };
    if !draft_all(desk, &mut draft)? {
        return Ok(());
    }
    let mut room = KeptTable::blank();
    let (mut plan, start) = FilePlan::start(draft, &mut room, workspace);
    desk.tell(Told::Started(start))?;
    if !plan_all(desk, &mut plan, workspace)? {
        return Ok(());
    }
    let roster = plan.publish();
    tell_roster(desk, &roster, workspace)?;
    finish(desk)
}

// Carries a file out by both, and compares what is printed.
pub fn try_whole(bench: &mut Bench, file: &[u8]) -> Result<(), Stop> {
    let mut desk = Desk {
        heap: bench.heap,
        rest: file,
        line: LineBuffer::new(),
        number: 0,
        out: String::new(bench.heap),
    };
    carry_out(&mut desk, bench.workspace.as_mut_slice())?;
    let plain = roster_text(bench.heap, file)?;
    let same = desk.out.as_str() == plain.as_str();
    agree(0, What::File, Answer::from(same), FINE)?;
    more(&mut bench.counts.whole_files);
    Ok(())
}
