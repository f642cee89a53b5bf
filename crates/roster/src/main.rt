// The roster program: reads a file of frames from standard input, carries it out, and prints an answer
// for each call.
//
// It only reads, hands over and prints: what each line does is the interpreter's. Input and output are
// buffered, and what was printed is on its way before the program waits for more input. It ends with
// status 0, unless a line of the file stopped it: then with 1.
#![tactic(auto)]

use anyhow::anyhow;
use interpreter::file::{FilePlan, FileRoster, Told};
use interpreter::read;
use posting::drafting::{Drafted, FileDraft};
use posting::kept::KeptTable;
use printing::{CellText, Entry, FaultText, MemoryText, RuleText};
use refusals::{FileFault, LineError};
use std::alloc::Global;
use std::io;
use std::io::{BufRead, BufReader, BufWriter, Stdin, Stdout, Write};
use wire::digits::FrameBytes;
use wire::lines::{Line, LineBuffer};
use wire::order::Phase;
use wire::reader::{at_line, read_line};

// Standard input by lines, and standard output.
#[derive(Drop)]
struct Desk {
    input: BufReader<Stdin>,
    output: BufWriter<Stdout>,
    line: LineBuffer,
    number: u64,
}

impl Desk {
    fn new(rt: &HostRuntime) -> io::Result<Desk> {
        Ok(Desk {
            input: BufReader::new(rt.alloc(), rt.stdin())?,
            output: BufWriter::new(rt.alloc(), rt.stdout())?,
            line: LineBuffer::new(),
            number: 0,
        })
    }

    // Reads up to the end of the next line: whether it has a newline.
    fn fill(&mut self) -> io::Result<bool> {
        self.line.clear();
        // Nothing bounds how many chunks a line comes in.
        for _ in 0..u64::MAX {
            if self.input.buffer().is_empty() {
                self.output.flush()?;
            }
            let chunk = self.input.fill_buf()?;
            let number = chunk.len();
            if number == 0 {
                break;
            }
            match self.line.extend(chunk) {
                Some(place) => {
                    self.input.consume(place.saturating_add(1));
                    return Ok(true);
                }
                None => self.input.consume(number),
            }
        }
        Ok(false)
    }

    // The next line; none where the input is at its end.
    fn next(&mut self) -> io::Result<Option<Line<'_>>> {
        let ended = self.fill()?;
        self.number = self.number.saturating_add(1);
        if !ended && self.line.is_empty() {
            return Ok(None);
        }
        Ok(Some(self.line.line(ended)))
    }

    // Prints what came of the line.
    fn tell(&mut self, told: Told) -> io::Result<()> {
        let entry = Entry {
            line: self.number,
            told,
        };
        writeln!(self.output, "{entry}")
    }

    // Prints a fault of the line, which ends the program with status 1.
    fn stop(&mut self, fault: FileFault) -> anyhow::Result<()> {
        let fault = FaultText(fault);
        writeln!(self.output, "{fault}")?;
        self.end()
    }

    // The same of a line before the start, for which there may be no memory.
    fn stop_draft(&mut self, error: LineError) -> anyhow::Result<()> {
        let line = self.number;
        match error {
            LineError::Fault(fault) => self.stop(FileFault { line, fault }),
            LineError::Memory => {
                let text = MemoryText { line };
                writeln!(self.output, "{text}")?;
                self.end()
            }
        }
    }

    // Ends the program with status 1.
    fn end(&mut self) -> anyhow::Result<()> {
        self.output.flush()?;
        Err(anyhow!("the file was refused"))
    }
}

// The lines before the start. Answers whether the file asks for it.
fn draft_all(desk: &mut Desk, heap: Global, draft: &mut FileDraft) -> anyhow::Result<bool> {
    // Nothing bounds how many lines a file has.
    for _ in 0..u64::MAX {
        let Some(line) = desk.next()? else {
            break;
        };
        match read::draft_line(draft, heap, line) {
            Ok(Drafted::Posted) => {}
            Ok(Drafted::Start) => return Ok(true),
            Err(error) => desk.stop_draft(error)?,
        }
    }
    Ok(false)
}

// The lines from the start up to publishing. Answers whether the file asks for that.
fn plan_all(
    desk: &mut Desk,
    plan: &mut FilePlan<'_>,
    workspace: &mut [u64],
) -> anyhow::Result<bool> {
    // Nothing bounds how many lines a file has.
    for _ in 0..u64::MAX {
        let Some(line) = desk.next()? else {
            break;
        };
        let answer = read::plan_line(plan, line, workspace);
        match at_line(desk.number, answer) {
            Ok(told) => {
                desk.tell(told)?;
                if let Told::Publish = told {
                    return Ok(true);
                }
            }
            Err(fault) => desk.stop(fault)?,
        }
    }
    Ok(false)
}

// Every cell and every rule of the roster.
fn print_roster(desk: &mut Desk, roster: &FileRoster<'_>, workspace: &mut [u64]) -> io::Result<()> {
    for line in (0..192).map_while(|cell| roster.cell(cell)) {
        let text = CellText(line);
        writeln!(desk.output, "{text}")?;
    }
    for line in (0..families::MOST_RULES).map_while(|rule| roster.rule(rule, workspace)) {
        let text = RuleText(line);
        writeln!(desk.output, "{text}")?;
    }
    Ok(())
}

// What comes after the roster is out of order, if anything does.
fn finish(desk: &mut Desk) -> anyhow::Result<()> {
    let Some(line) = desk.next()? else {
        return Ok(());
    };
    let mut bytes = FrameBytes::new();
    let answer = read_line(Phase::Published, line, &mut bytes);
    match at_line(desk.number, answer) {
        Ok(_) => Ok(()),
        Err(fault) => desk.stop(fault),
    }
}

// The file from its first line on.
fn serve(rt: &HostRuntime, desk: &mut Desk) -> anyhow::Result<()> {
    let heap = rt.alloc();
    let Some(line) = desk.next()? else {
        return Ok(());
    };
    let answer = read::open(heap, line);
    // (The other arm prints.)
    let mut draft = match at_line(desk.number, answer) {
        Ok(draft) => draft,
        Err(fault) => return desk.stop(fault),
    };
    if !draft_all(desk, heap, &mut draft)? {
        return Ok(());
    }
    let mut room = KeptTable::blank();
    let mut workspace = vec![in heap; 0u64; families::WORKSPACE]?;
    let workspace = workspace.as_mut_slice();
    let (mut plan, start) = FilePlan::start(draft, &mut room, workspace);
    desk.tell(Told::Started(start))?;
    if !plan_all(desk, &mut plan, workspace)? {
        return Ok(());
    }
    let roster = plan.publish();
    print_roster(desk, &roster, workspace)?;
    finish(desk)
}

fn main(rt: HostRuntime) -> anyhow::Result<()> {
    let mut desk = Desk::new(&rt)?;
    serve(&rt, &mut desk)?;
    desk.output.flush()?;
    Ok(())
}
