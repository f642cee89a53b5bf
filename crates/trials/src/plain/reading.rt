// A file of frames carried out by the plain implementation alone: the text that it has to print.
use crate::answer::{Answer, refused};
use crate::plain::drafted::Drafted;
use crate::plain::frames::{Frame, Halt, Line, Stage, byte, lines_of, number, part, read_frame};
use crate::plain::log::Log;
use crate::plain::rounds::Masks;
use crate::problem::{Call, Request, WORKSPACE};
use std::alloc::{AllocError, Global};
use std::fmt;

// An empty mask: of a cell, or of a rule's tally.
#[derive(Clone, Copy)]
enum Spot {
    Cell(usize),
    Tally(usize),
}

impl fmt::Display for Spot {
    fn fmt<W: fmt::Write>(&self, f: &mut fmt::Formatter<W>) -> fmt::Result {
        match self {
            Spot::Cell(cell) => write!(f, "cell {cell}"),
            Spot::Tally(rule) => write!(f, "tally {rule}"),
        }
    }
}

// A line of the answer.
fn tell(out: &mut String, line: usize, text: &str) -> Result<(), AllocError> {
    let heap = *out.allocator();
    out.push_str(format!(in heap; "{line} {text}\n")?.as_str())
}

// The fault of a line, which ends the work unless memory does.
fn tell_halt(out: &mut String, line: usize, halt: Halt) -> Result<(), AllocError> {
    match halt {
        Halt::Memory => Err(AllocError),
        Halt::Fault(refusal) => {
            let heap = *out.allocator();
            let text = format!(in heap; "{refusal}")?;
            tell(out, line, text.as_str())
        }
    }
}

// Reads a line, and posts it unless it is the start: whether it is.
fn draft_line(
    heap: Global,
    line: &Line,
    stage: &mut Stage,
    drafted: &mut Drafted,
) -> Result<bool, Halt> {
    let frame = read_frame(heap, line, stage)?;
    drafted.post(heap, &frame)?;
    Ok(frame.kind == 0x08)
}

// Posts lines up to the start, and answers that line's number; none where it does not come to that.
fn draft(
    heap: Global,
    lines: &[Line],
    drafted: &mut Drafted,
    out: &mut String,
) -> Result<Option<usize>, AllocError> {
    let mut stage = Stage::First;
    for (i, line) in lines.iter().enumerate() {
        let at = i.saturating_add(1);
        match draft_line(heap, line, &mut stage, drafted) {
            Ok(true) => return Ok(Some(at)),
            Ok(false) => {}
            Err(halt) => {
                tell_halt(out, at, halt)?;
                return Ok(None);
            }
        }
    }
    Ok(None)
}

// The name of a request, and what it names.
fn named(request: Request) -> (&'static str, Spot) {
    match request {
        Request::Decide { cell, mask: _ } => ("decide", Spot::Cell(cell)),
        Request::Bound { rule, tally: _ } => ("bound", Spot::Tally(rule)),
        Request::Mark => ("mark", Spot::Cell(0)),
        _ => ("back", Spot::Cell(0)),
    }
}

// What is said of an answer to a call: its name, how a failure is called, and what the call names.
fn said(
    heap: Global,
    name: &str,
    fails: &str,
    spot: Spot,
    answer: Answer,
) -> Result<String, AllocError> {
    match answer {
        Answer::Settled(work) => {
            let runs = work.runs;
            let removed = work.removed;
            format!(in heap; "{name} ok runs {runs} removed {removed}")
        }
        Answer::Failed(failure) => {
            let rule = failure.rule;
            let runs = failure.work.runs;
            let empty = failure.cell.map_or(Spot::Tally(rule), Spot::Cell);
            format!(in heap; "{name} {fails} rule {rule} {empty} runs {runs}")
        }
        Answer::Own => format!(in heap; "{name} {fails} own {spot} runs 0"),
        Answer::Level(level) => format!(in heap; "{name} ok level {level}"),
        Answer::Refused(refusal) => format!(in heap; "{refusal}"),
        _ => format!(in heap; "{name} ok"),
    }
}

// The request of a frame after the start.
impl From<&Frame> for Request {
    fn from(frame: &Frame) -> Request {
        let body = frame.body.as_slice();
        let first = usize::from(byte(body, 0));
        match frame.kind {
            0x09 => Request::Decide {
                cell: first,
                mask: (number(part(body, 1, 3)) & 0xffff) as u16,
            },
            0x0a => Request::Bound {
                rule: first,
                tally: number(part(body, 1, 9)),
            },
            0x0b => Request::Mark,
            _ => Request::Back,
        }
    }
}

// The figures of a rule as they are printed.
fn figures_text(heap: Global, answer: Answer) -> Result<String, AllocError> {
    match answer {
        Answer::Told(Some(figures)) => {
            let least = figures.least;
            let greatest = figures.greatest;
            format!(in heap; "{least} {greatest}")
        }
        _ => String::from_str(heap, "none none"),
    }
}

// A plan of a file: how many cells and rules it has, how far the file has come, and what was printed.
#[derive(Drop)]
struct Running<'a> {
    heap: Global,
    size: usize,
    rules: usize,
    log: Log<'a>,
    stage: Stage,
    out: String,
}

impl<'a> Running<'a> {
    // The cells of the plan in a published roster.
    fn publish_cells(&mut self, masks: &Masks) -> Result<(), AllocError> {
        for (cell, mask) in masks.cells.iter().enumerate().take(self.size) {
            let text = format!(in self.heap; "cell {cell} {mask:04x}\n")?;
            self.out.push_str(text.as_str())?;
        }
        Ok(())
    }

    // What a published roster shows: each cell of the plan, and each rule.
    fn publish(&mut self) -> Result<(), AllocError> {
        let masks = self.log.masks(self.heap)?;
        self.publish_cells(&masks)?;
        for (rule, tally) in masks.tallies.iter().enumerate().take(self.rules) {
            let call = Call::from(Request::Figures(rule));
            let answer = self.log.make(self.heap, call)?;
            let figures = figures_text(self.heap, answer)?;
            let text = format!(in self.heap; "rule {rule} {tally:016x} {figures}\n")?;
            self.out.push_str(text.as_str())?;
        }
        Ok(())
    }

    // The answer to a request. A cell that is none of the file's is refused.
    fn answer(&mut self, request: Request) -> Result<Answer, AllocError> {
        match request {
            Request::Decide { cell, mask: _ } if cell >= self.size => Ok(refused(6)),
            _ => self.log.make(self.heap, Call::from(request)),
        }
    }

    // Carries out a line, and prints its answer.
    fn carry_out(&mut self, line: &Line, at: usize) -> Result<(), Halt> {
        let frame = read_frame(self.heap, line, &mut self.stage)?;
        if frame.kind == 0x0d {
            tell(&mut self.out, at, "publish ok")?;
            return Ok(self.publish()?);
        }
        let request = Request::from(&frame);
        let answer = self.answer(request)?;
        let (name, spot) = named(request);
        let text = said(self.heap, name, "fails", spot, answer)?;
        Ok(tell(&mut self.out, at, text.as_str())?)
    }

    // Carries out the lines after the start.
    fn carry_on(&mut self, lines: &[Line], started: usize) -> Result<(), AllocError> {
        for (i, line) in lines.iter().enumerate().skip(started) {
            let at = i.saturating_add(1);
            if let Err(halt) = self.carry_out(line, at) {
                return tell_halt(&mut self.out, at, halt);
            }
        }
        Ok(())
    }
}

// The text that carrying out a file prints.
pub fn roster_text(heap: Global, file: &[u8]) -> Result<String, AllocError> {
    let lines = lines_of(heap, file)?;
    let mut out = String::new(heap);
    let mut drafted = Drafted::new(heap);
    let Some(started) = draft(heap, lines.as_slice(), &mut drafted, &mut out)? else {
        return Ok(out);
    };
    let size = drafted.size;
    let problem = drafted.problem(heap)?;
    let (log, answer) = Log::start(heap, &problem, WORKSPACE)?;
    let text = said(heap, "start", "void", Spot::Cell(0), answer)?;
    tell(&mut out, started, text.as_str())?;
    let mut running = Running {
        heap,
        size,
        rules: problem.rules.len(),
        log,
        stage: Stage::Running,
        out,
    };
    running.carry_on(lines.as_slice(), started)?;
    let Running { out, .. } = running;
    Ok(out)
}
