// Files that are refused, line by line, as tests: a program that stops at a fault ends with status 1,
// and the gate runs only programs that end well.
#![tactic(auto)]

#[cfg(test)]
mod tests {
    use interpreter::file::{CellLine, FilePlan, RuleLine, Told};
    use interpreter::read;
    use measures::Figures;
    use planning::plan::{Start, Try};
    use posting::drafting::FileDraft;
    use posting::kept::KeptTable;
    use refusals::{FileFault, Layer, LineError, LineFault, PlanFault, Report};
    use settling::Work;
    use std::alloc::Global;
    use std::test::Fail;
    use wire::lines::Line;

    fn told(number: u8, layer: Layer, place: usize) -> Option<Report> {
        Some(Report {
            number,
            layer,
            place,
        })
    }

    fn report(fault: LineFault) -> Report {
        FileFault { line: 1, fault }.report()
    }

    fn line(text: &[u8]) -> Line<'_> {
        Line { text, ended: true }
    }

    // Why a file cannot begin so.
    fn opening(heap: Global, text: &[u8]) -> Option<Report> {
        read::open(heap, line(text)).err().map(report)
    }

    // Why a line before the start is refused.
    fn posting(heap: Global, draft: &mut FileDraft, text: &[u8]) -> Result<Option<Report>, Fail> {
        match read::draft_line(draft, heap, line(text)) {
            Ok(_) => Ok(None),
            Err(LineError::Fault(fault)) => Ok(Some(report(fault))),
            Err(LineError::Memory) => Err(Fail::new("there is no memory")),
        }
    }

    #[test]
    fn a_first_line_is_judged_from_its_characters_up(rt: HostRuntime) {
        let heap = rt.alloc();
        assert_eq!(rt; opening(heap, b""), told(1, Layer::Line, 0));
        assert_eq!(rt; opening(heap, b"010G"), told(2, Layer::Line, 3));
        assert_eq!(rt; opening(heap, b"010"), told(2, Layer::Line, 3));
        assert_eq!(rt; opening(heap, b"0e"), told(3, Layer::Frame, 0));
        assert_eq!(rt; opening(heap, b"08ff"), told(21, Layer::Frame, 0));
        assert_eq!(rt; opening(heap, b"0101ff"), told(4, Layer::Frame, 0));
        assert_eq!(rt; opening(heap, b"01c1"), told(5, Layer::Frame, 0));
        assert_eq!(rt; opening(heap, b"01c0"), None);
    }

    #[test]
    fn a_post_is_refused_for_the_first_thing_wrong(rt: HostRuntime) -> Result<(), Fail> {
        let heap = rt.alloc();
        let mut draft = read::open(heap, line(b"0103"))?;
        let d = &mut draft;
        assert_eq!(rt; posting(heap, d, b"0200040000")?, told(6, Layer::Post, 0));
        assert_eq!(rt; posting(heap, d, b"0200030000")?, told(7, Layer::Post, 0));
        assert_eq!(rt; posting(heap, d, b"0500")?, told(8, Layer::Post, 0));
        assert_eq!(rt; posting(heap, d, b"040010")?, told(9, Layer::Post, 1));
        assert_eq!(rt; posting(heap, d, b"030002")?, None);
        assert_eq!(rt; posting(heap, d, b"030004")?, told(22, Layer::Post, 0));
        let row = b"0703000000000000000000000102030303";
        assert_eq!(rt; posting(heap, d, row)?, told(6, Layer::Post, 3));
        let row = b"07060300000000000000000001020001";
        assert_eq!(rt; posting(heap, d, row)?, told(10, Layer::Post, 3));
        let kind = b"0706000000000000000000000102";
        assert_eq!(rt; posting(heap, d, kind)?, told(11, Layer::Post, 0));
        let tally = b"0704000000000000000000000102";
        assert_eq!(rt; posting(heap, d, tally)?, told(12, Layer::Post, 0));
        let word = b"0704000000000000000003000102";
        assert_eq!(rt; posting(heap, d, word)?, told(23, Layer::Post, 0));
        let good = b"0703000000000000000003000102";
        for _ in 0..24 {
            assert_eq!(rt; posting(heap, d, good)?, None);
        }
        assert_eq!(rt; posting(heap, d, good)?, told(24, Layer::Post, 0));
        Ok(())
    }

    #[test]
    fn a_void_plan_refuses_its_calls(rt: HostRuntime) -> Result<(), Fail> {
        let heap = rt.alloc();
        let mut draft = read::open(heap, line(b"0101"))?;
        assert_eq!(rt; posting(heap, &mut draft, b"0200010001")?, None);
        assert_eq!(rt; posting(heap, &mut draft, b"030001")?, None);
        let none = b"070300000000000000000100";
        assert_eq!(rt; posting(heap, &mut draft, none)?, None);
        let mut room = KeptTable::blank();
        let mut workspace = vec![in heap; 0u64; families::WORKSPACE]?;
        let workspace = workspace.as_mut_slice();
        let (mut plan, start) = FilePlan::start(draft, &mut room, workspace);
        assert!(rt; matches!(start, Start::Void(_)));
        let answer = read::plan_line(&mut plan, line(b"0b"), workspace)?;
        assert!(rt; matches!(answer, Told::Marked(Err(PlanFault::Void))));
        let answer = read::plan_line(&mut plan, line(b"09000001"), workspace)?;
        assert!(rt;
            matches!(
                answer,
                Told::Decided {
                    cell: 0,
                    answer: Err(PlanFault::Void)
                }
            )
        );
        let answer = read::plan_line(&mut plan, line(b"0a000000000000000001"), workspace)?;
        assert!(rt;
            matches!(
                answer,
                Told::Bounded {
                    rule: 0,
                    answer: Err(PlanFault::Void)
                }
            )
        );
        let answer = read::plan_line(&mut plan, line(b"0c"), workspace)?;
        assert!(rt; matches!(answer, Told::Backed(Err(PlanFault::Void))));
        let Err(fault) = read::plan_line(&mut plan, line(b"08"), workspace) else {
            return Err(Fail::new("a second start was taken"));
        };
        assert_eq!(rt; Some(report(fault)), told(21, Layer::Frame, 0));
        let roster = plan.publish();
        assert!(rt; matches!(roster.cell(0), Some(CellLine { cell: 0, mask: 0 })));
        let rule = roster.rule(0, workspace);
        assert!(rt;
            matches!(
                rule,
                Some(RuleLine {
                    rule: 0,
                    tally: 0,
                    figures: None
                })
            )
        );
        Ok(())
    }

    #[test]
    fn ten_lines_are_answered(rt: HostRuntime) -> Result<(), Fail> {
        let heap = rt.alloc();
        let mut draft = read::open(heap, line(b"0103"))?;
        assert_eq!(rt; posting(heap, &mut draft, b"0200030003")?, None);
        assert_eq!(rt; posting(heap, &mut draft, b"030002")?, None);
        let rule = b"0703000000000000000003000102";
        assert_eq!(rt; posting(heap, &mut draft, rule)?, None);
        let mut room = KeptTable::blank();
        let mut workspace = vec![in heap; 0u64; families::WORKSPACE]?;
        let workspace = workspace.as_mut_slice();
        let (mut plan, start) = FilePlan::start(draft, &mut room, workspace);
        assert!(rt;
            matches!(
                start,
                Start::Settled(Work {
                    runs: 1,
                    removed: 0
                })
            )
        );
        let answer = read::plan_line(&mut plan, line(b"09000002"), workspace)?;
        let Told::Decided { cell, answer } = answer else {
            return Err(Fail::new("it is no decision"));
        };
        assert_eq!(rt; cell, 0);
        assert!(rt;
            matches!(
                answer,
                Ok(Try::Settled(Work {
                    runs: 2,
                    removed: 3
                }))
            )
        );
        let answer = read::plan_line(&mut plan, line(b"0b"), workspace)?;
        assert!(rt; matches!(answer, Told::Marked(Ok(1))));
        let answer = read::plan_line(&mut plan, line(b"09010002"), workspace)?;
        assert!(rt;
            matches!(
                answer,
                Told::Decided {
                    cell: 1,
                    answer: Ok(Try::Own)
                }
            )
        );
        let answer = read::plan_line(&mut plan, line(b"0c"), workspace)?;
        assert!(rt; matches!(answer, Told::Backed(Ok(0))));
        let answer = read::plan_line(&mut plan, line(b"0d"), workspace)?;
        assert!(rt; matches!(answer, Told::Publish));
        let roster = plan.publish();
        assert!(rt; matches!(roster.cell(0), Some(CellLine { cell: 0, mask: 2 })));
        assert!(rt; matches!(roster.cell(1), Some(CellLine { cell: 1, mask: 1 })));
        assert!(rt; matches!(roster.cell(2), Some(CellLine { cell: 2, mask: 1 })));
        assert!(rt; roster.cell(3).is_none());
        let Some(rule) = roster.rule(0, workspace) else {
            return Err(Fail::new("there is no rule"));
        };
        assert_eq!(rt; (rule.rule, rule.tally), (0, 2));
        let figures = Figures {
            least: 1,
            greatest: 1,
            totals: 2,
        };
        assert_eq!(rt; rule.figures, Some(figures));
        Ok(())
    }
}
