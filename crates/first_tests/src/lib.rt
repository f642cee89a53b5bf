// What a reader would try first, as tests that are proved and then run.
#![tactic(auto)]

#[cfg(test)]
mod tests {
    use automata::{Among, CounterAutomaton, Map, Table};
    use measures::Figures;
    use refusals::{Layer, PlanFault, PostFault, Report};
    use std::test::Fail;
    use words::Word;

    #[test]
    fn words_are_counted_without_overlap(rt: HostRuntime) -> Result<(), Fail> {
        let word = Word::new(&[0, 1, 0, 1])?;
        assert_eq!(rt; automata::total_of(&word, &[0, 1, 0, 1, 0, 1]), 1);
        assert_eq!(rt; automata::total_of(&word, &[0, 1, 0, 1, 0, 1, 0, 1]), 2);
        Ok(())
    }

    #[test]
    fn a_class_stands_for_its_duties(rt: HostRuntime) {
        let mut classes = [0; 16];
        classes[5] = 1;
        let map = Map::new(classes, Among::new(2));
        assert_eq!(rt; automata::total_of(&map, &[5, 1, 5]), 2);
    }

    #[test]
    fn a_table_is_refused_where_a_state_is_missing(rt: HostRuntime) -> Result<(), Fail> {
        let mut steps = [0u8; 32];
        steps[17] = 0x20;
        let Err(fault) = Table::new(2, &steps) else {
            return Err(Fail::new("the table was taken"));
        };
        let told = Report {
            number: 8,
            layer: Layer::Post,
            place: 17,
        };
        assert_eq!(rt; fault.report(), told);
        Ok(())
    }

    #[test]
    fn a_row_has_its_figures(rt: HostRuntime) -> Result<(), Fail> {
        let steps = [0, 3, 5, 0, 0, 0, 0, 0, 0, 0, 0, 0, 0, 0, 0, 0];
        let table = Table::new(1, &steps)?;
        let mut codes = [7; 48];
        let figures = sweeps::row_figures(&table, &[3, 5], &mut codes)?;
        assert_eq!(rt;
            figures,
            Some(Figures {
                least: 0,
                greatest: 8,
                totals: 297,
            })
        );
        Ok(())
    }

    #[test]
    fn short_codes_are_refused(rt: HostRuntime) {
        let mut codes = [7; 47];
        let answer = sweeps::row_figures(&Among::new(1), &[3, 5], &mut codes);
        assert_eq!(rt; answer, Err(PlanFault::Workspace));
        assert_eq!(rt; codes[46], 7);
    }
}
