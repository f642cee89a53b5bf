// What a program prints of a file, as text.
//
// Each type here is one line, or a part of one. Proved: the text of each, character by character.
// Most wrap a type of a crate below, which does not know how a program prints it: a Display can stand
// only beside its trait or its type.
#![tactic(auto)]

ghost use Rattle.std.specs.Prelude.{◌++◌, Some, codes, decimal};
ghost use Rattle.refusals.specs.Reports.{file_report};
ghost use Rattle.printing.specs.Text.{work_text, failure_text, layer_text, refusal_text, try_text, start_text, level_text, told_text, fault_text, memory_text, cell_text, rule_text};

use interpreter::file::{CellLine, RuleLine, Told};
use planning::plan::{Start, Try};
use refusals::{FileFault, Layer, PlanFault, Report};
use settling::{Failure, Spot, Work};
use std::fmt;
use std::fmt::Display;

// Work that ended well.
#[derive(Clone, Copy)]
struct WorkText(Work);

impl Display for WorkText {
    ghost output = { λ x. Some (work_text x.0) };

    fn fmt<W: fmt::Write>(&self, f: &mut fmt::Formatter<W>) -> fmt::Result {
        let runs = self.0.runs;
        let removed = self.0.removed;
        write!(f, "ok runs {runs} removed {removed}")
    }
}

// Where settling failed.
#[derive(Clone, Copy)]
struct FailureText(Failure);

impl Display for FailureText {
    ghost output = { λ x. Some (failure_text x.0) };

    fn fmt<W: fmt::Write>(&self, f: &mut fmt::Formatter<W>) -> fmt::Result {
        let rule = self.0.rule;
        let runs = self.0.work.runs;
        match self.0.spot {
            Spot::Cell(cell) => write!(f, "rule {rule} cell {cell} runs {runs}"),
            Spot::Tally => write!(f, "rule {rule} tally {rule} runs {runs}"),
        }
    }
}

#[derive(Clone, Copy)]
struct LayerText(Layer);

impl Display for LayerText {
    ghost output = { λ x. Some (layer_text x.0) };

    fn fmt<W: fmt::Write>(&self, f: &mut fmt::Formatter<W>) -> fmt::Result {
        match self.0 {
            Layer::Line => write!(f, "line"),
            Layer::Frame => write!(f, "frame"),
            Layer::Post => write!(f, "post"),
            Layer::Plan => write!(f, "plan"),
        }
    }
}

// A refusal: its number, its layer and its place.
#[derive(Clone, Copy)]
struct RefusalText(Report);

impl Display for RefusalText {
    ghost output = { λ x. Some (refusal_text x.0) };

    fn fmt<W: fmt::Write>(&self, f: &mut fmt::Formatter<W>) -> fmt::Result {
        let number = self.0.number;
        let layer = LayerText(self.0.layer);
        let place = self.0.place;
        write!(f, "refused {number} {layer} {place}")
    }
}

// A try: the call, the mask that it names, and what came of it.
#[derive(Clone, Copy)]
struct TryText {
    call: &'static str,
    mask: &'static str,
    index: usize,
    answer: Result<Try, PlanFault>,
}

impl Display for TryText {
    ghost output = { λ x. Some (try_text x.call.now x.mask.now x.index x.answer) };

    fn fmt<W: fmt::Write>(&self, f: &mut fmt::Formatter<W>) -> fmt::Result {
        let call = self.call;
        let mask = self.mask;
        let index = self.index;
        match self.answer {
            Ok(Try::Settled(work)) => {
                let work = WorkText(work);
                write!(f, "{call} {work}")
            }
            Ok(Try::Failed(failure)) => {
                let failure = FailureText(failure);
                write!(f, "{call} fails {failure}")
            }
            Ok(Try::Own) => write!(f, "{call} fails own {mask} {index} runs 0"),
            Err(fault) => RefusalText(fault.report()).fmt(f),
        }
    }
}

// One line for a frame from the start on: the number of its line, and what it came to.
#[derive(Clone, Copy)]
pub struct Entry {
    pub line: u64,
    pub told: Told,
}

impl Display for Entry {
    ghost output = { λ x. Some (decimal x.line ++ (codes " " ++ told_text x.told)) };

    fn fmt<W: fmt::Write>(&self, f: &mut fmt::Formatter<W>) -> fmt::Result {
        let line = self.line;
        let told = ToldText(self.told);
        write!(f, "{line} {told}")
    }
}

#[derive(Clone, Copy)]
struct StartText(Start);

impl Display for StartText {
    ghost output = { λ x. Some (start_text x.0) };

    fn fmt<W: fmt::Write>(&self, f: &mut fmt::Formatter<W>) -> fmt::Result {
        match self.0 {
            Start::Settled(work) => {
                let work = WorkText(work);
                write!(f, "start {work}")
            }
            Start::Void(failure) => {
                let failure = FailureText(failure);
                write!(f, "start void {failure}")
            }
            Start::Short => "start void runs 0".fmt(f),
        }
    }
}

// A mark or a step back: the call, and how many levels are open.
#[derive(Clone, Copy)]
struct LevelText {
    call: &'static str,
    answer: Result<usize, PlanFault>,
}

impl Display for LevelText {
    ghost output = { λ x. Some (level_text x.call.now x.answer) };

    fn fmt<W: fmt::Write>(&self, f: &mut fmt::Formatter<W>) -> fmt::Result {
        let call = self.call;
        match self.answer {
            Ok(levels) => write!(f, "{call} ok level {levels}"),
            Err(fault) => RefusalText(fault.report()).fmt(f),
        }
    }
}

#[derive(Clone, Copy)]
struct ToldText(Told);

impl Display for ToldText {
    ghost output = { λ x. Some (told_text x.0) };

    fn fmt<W: fmt::Write>(&self, f: &mut fmt::Formatter<W>) -> fmt::Result {
        match self.0 {
            Told::Started(start) => StartText(start).fmt(f),
            Told::Decided { cell, answer } => {
                let text = TryText {
                    call: "decide",
                    mask: "cell",
                    index: cell,
                    answer,
                };
                text.fmt(f)
            }
            Told::Bounded { rule, answer } => {
                let text = TryText {
                    call: "bound",
                    mask: "tally",
                    index: rule,
                    answer,
                };
                text.fmt(f)
            }
            Told::Marked(answer) => {
                let call = "mark";
                LevelText { call, answer }.fmt(f)
            }
            Told::Backed(answer) => {
                let call = "back";
                LevelText { call, answer }.fmt(f)
            }
            Told::Publish => "publish ok".fmt(f),
        }
    }
}

// A fault with the number of its line.
#[derive(Clone, Copy)]
pub struct FaultText(pub FileFault);

impl Display for FaultText {
    ghost output = { λ x. Some (fault_text x.0.line (file_report x.0)) };

    fn fmt<W: fmt::Write>(&self, f: &mut fmt::Formatter<W>) -> fmt::Result {
        let line = self.0.line;
        let refusal = RefusalText(self.0.report());
        write!(f, "{line} {refusal}")
    }
}

// Want of memory at a line, which is no fault: it is told in words.
#[derive(Clone, Copy)]
pub struct MemoryText {
    pub line: u64,
}

impl Display for MemoryText {
    ghost output = { λ x. Some (memory_text x.line) };

    fn fmt<W: fmt::Write>(&self, f: &mut fmt::Formatter<W>) -> fmt::Result {
        let line = self.line;
        write!(f, "{line} out of memory")
    }
}

// A cell of a roster and its mask.
#[derive(Clone, Copy)]
pub struct CellText(pub CellLine);

impl Display for CellText {
    ghost output = { λ x. Some (cell_text x.0.cell x.0.mask) };

    fn fmt<W: fmt::Write>(&self, f: &mut fmt::Formatter<W>) -> fmt::Result {
        let cell = self.0.cell;
        let mask = self.0.mask;
        write!(f, "cell {cell} {mask:04x}")
    }
}

// A rule of a roster, its tally, and its least and greatest total.
#[derive(Clone, Copy)]
pub struct RuleText(pub RuleLine);

impl Display for RuleText {
    ghost output = { λ x. Some (rule_text x.0.rule x.0.tally x.0.figures) };

    fn fmt<W: fmt::Write>(&self, f: &mut fmt::Formatter<W>) -> fmt::Result {
        let rule = self.0.rule;
        let tally = self.0.tally;
        match self.0.figures {
            Some(figures) => {
                let least = figures.least;
                let greatest = figures.greatest;
                write!(f, "rule {rule} {tally:016x} {least} {greatest}")
            }
            None => write!(f, "rule {rule} {tally:016x} none none"),
        }
    }
}
