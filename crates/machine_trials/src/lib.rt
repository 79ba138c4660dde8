// Trials of the machine on trays, in wrapped words and in ledger words.
#![tactic(auto)]

#[cfg(test)]
mod tests {
    use arithmetic::Arithmetic;
    use arithmetic::ledger::Ledger;
    use arithmetic::wrapped::Wrapped;
    use host::Host;
    use host::mark::Mark;
    use host::tray::Tray;
    use machine::registers::Registers;
    use machine::word::{asked, decode, encode};
    use runs::instruction::Instruction;
    use runs::status::Status;

    const STOP: u16 = 0xa003;

    // What a run leaves: its registers, the cells, the mark, the line that waits and how many instructions were carried out.
    #[derive(Clone, Copy, PartialEq, Eq, Debug)]
    struct Outcome {
        registers: Registers,
        cells: [i32; 3],
        mark: Mark,
        waits: Option<i64>,
        done: u32,
    }

    fn at(address: u16, accumulator: i32, status: Status) -> Registers {
        Registers {
            address,
            accumulator,
            status,
        }
    }

    // One step on a word at address 1 of three, with 7 and -3 in the cells in use, the line 40 and paper for one mark.
    fn one<N: Arithmetic>(word: u16, accumulator: i32) -> Outcome {
        let code = [STOP, word, STOP];
        let mut cells = [7, -3, 11];
        let lines = [40];
        let mut marks = [Mark::LineEnd];
        let mut registers = at(1, accumulator, Status::Running);
        let mut tray = Tray::new(&lines, &mut marks);
        let done = registers.run::<Tray, N>(&code, &mut cells, 2, &mut tray, 1);
        let waits = tray.take();
        Outcome {
            registers,
            cells,
            mark: marks[0],
            waits,
            done,
        }
    }

    // What a step leaves that changes registers alone.
    fn only(registers: Registers, done: u32) -> Outcome {
        Outcome {
            registers,
            cells: [7, -3, 11],
            mark: Mark::LineEnd,
            waits: Some(40),
            done,
        }
    }

    fn goes(address: u16, accumulator: i32) -> Outcome {
        only(at(address, accumulator, Status::Running), 1)
    }

    fn corrupt(accumulator: i32) -> Outcome {
        only(at(1, accumulator, Status::Corrupt(1)), 0)
    }

    #[test]
    fn jumps(rt: HostRuntime) {
        assert_eq!(rt; one::<Wrapped>(0x0000, 5), goes(0, 5));
        assert_eq!(rt; one::<Wrapped>(0x1000, 0), goes(0, 0));
        assert_eq!(rt; one::<Wrapped>(0x1000, 5), goes(2, 5));
        assert_eq!(rt; one::<Wrapped>(0x2000, -5), goes(0, -5));
        assert_eq!(rt; one::<Wrapped>(0x2000, 0), goes(2, 0));
        assert_eq!(rt; one::<Wrapped>(0x3000, 5), goes(0, 5));
        assert_eq!(rt; one::<Wrapped>(0x3000, 0), goes(2, 0));
    }

    #[test]
    fn work(rt: HostRuntime) {
        assert_eq!(rt; one::<Wrapped>(0x4001, 5), goes(2, 2));
        assert_eq!(rt; one::<Wrapped>(0x5001, 5), goes(2, 8));
        assert_eq!(rt; one::<Wrapped>(0x6001, 5), goes(2, -15));
        assert_eq!(rt; one::<Wrapped>(0x7001, 5), goes(2, -1));
        assert_eq!(rt; one::<Wrapped>(0x8000, 5), goes(2, 7));
        assert_eq!(rt; one::<Wrapped>(0x4000, 2147483647), goes(2, -2147483642));
        assert_eq!(rt; one::<Ledger>(0x4000, 99999999), goes(2, 99999999));
        let stored = Outcome {
            cells: [7, 5, 11],
            ..goes(2, 5)
        };
        assert_eq!(rt; one::<Ledger>(0x9001, 5), stored);
    }

    #[test]
    fn calls(rt: HostRuntime) {
        let read = Outcome {
            waits: None,
            ..goes(2, 40)
        };
        assert_eq!(rt; one::<Wrapped>(0xa000, 5), read);
        let printed = Outcome {
            mark: Mark::Number(5),
            ..goes(2, 5)
        };
        assert_eq!(rt; one::<Wrapped>(0xa001, 5), printed);
        assert_eq!(rt; one::<Wrapped>(0xa002, 5), goes(2, 5));
        assert_eq!(rt;
            one::<Wrapped>(0xa003, 5),
            only(at(1, 5, Status::Stopped), 1)
        );
    }

    #[test]
    fn corrupt_words(rt: HostRuntime) {
        // An operation above 10, a call above 3.
        assert_eq!(rt; one::<Wrapped>(0xb000, 5), corrupt(5));
        assert_eq!(rt; one::<Wrapped>(0xffff, 5), corrupt(5));
        assert_eq!(rt; one::<Wrapped>(0xa004, 5), corrupt(5));
        // A jump out of the code, taken or not.
        assert_eq!(rt; one::<Wrapped>(0x0003, 5), corrupt(5));
        assert_eq!(rt; one::<Wrapped>(0x1003, 5), corrupt(5));
        assert_eq!(rt; one::<Wrapped>(0x2fff, 5), corrupt(5));
        assert_eq!(rt; one::<Wrapped>(0x3003, 5), corrupt(5));
        // A cell that is there and not in use.
        assert_eq!(rt; one::<Wrapped>(0x4002, 5), corrupt(5));
        assert_eq!(rt; one::<Wrapped>(0x8002, 5), corrupt(5));
        assert_eq!(rt; one::<Wrapped>(0x9002, 5), corrupt(5));
    }

    // A run of three words from these registers, on a cell that holds no ledger word, without lines and without paper.
    fn bare<N: Arithmetic>(word: u16, start: Registers, budget: u32) -> (Registers, i32, u32) {
        let code = [word, word, word];
        let mut cells = [2147483647];
        let lines = [];
        let mut marks = [];
        let mut registers = start;
        let mut tray = Tray::new(&lines, &mut marks);
        let done = registers.run::<Tray, N>(&code, &mut cells, 9, &mut tray, budget);
        (registers, cells[0], done)
    }

    fn left(registers: Registers, done: u32) -> (Registers, i32, u32) {
        (registers, 2147483647, done)
    }

    #[test]
    fn noes(rt: HostRuntime) {
        let start = at(1, 5, Status::Running);
        assert_eq!(rt;
            bare::<Wrapped>(0xa000, start, 9),
            left(at(1, 5, Status::NoLine), 1)
        );
        assert_eq!(rt;
            bare::<Wrapped>(0xa001, start, 9),
            left(at(1, 5, Status::NoPaper), 1)
        );
        assert_eq!(rt;
            bare::<Wrapped>(0xa002, start, 9),
            left(at(1, 5, Status::NoPaper), 1)
        );
    }

    #[test]
    fn outside(rt: HostRuntime) {
        let past = at(3, 5, Status::Running);
        assert_eq!(rt;
            bare::<Wrapped>(STOP, past, 9),
            left(at(3, 5, Status::Corrupt(3)), 0)
        );
        let far = at(65535, 5, Status::Running);
        assert_eq!(rt;
            bare::<Wrapped>(STOP, far, 9),
            left(at(65535, 5, Status::Corrupt(65535)), 0)
        );
        // A budget that is used up does not look at the next word.
        assert_eq!(rt; bare::<Wrapped>(STOP, far, 0), left(far, 0));
        assert_eq!(rt;
            bare::<Wrapped>(0x1000, at(0, 5, Status::Running), 3),
            left(past, 3)
        );
        // More cells are said to be in use than there are.
        assert_eq!(rt;
            bare::<Wrapped>(0x9001, at(0, 5, Status::Running), 9),
            left(at(0, 5, Status::Corrupt(0)), 0)
        );
    }

    #[test]
    fn closed(rt: HostRuntime) {
        let ends = [
            Status::Stopped,
            Status::NoLine,
            Status::NoPaper,
            Status::Corrupt(7),
        ];
        for status in ends {
            let end = at(0, 5, status);
            assert_eq!(rt; bare::<Wrapped>(0x9000, end, 9), left(end, 0));
        }
    }

    #[test]
    fn fitted_cells(rt: HostRuntime) {
        let start = at(2, 1, Status::Running);
        assert_eq!(rt;
            bare::<Wrapped>(0x8000, start, 1),
            left(at(3, 2147483647, Status::Running), 1)
        );
        assert_eq!(rt;
            bare::<Ledger>(0x8000, start, 1),
            left(at(3, 99999999, Status::Running), 1)
        );
        assert_eq!(rt;
            bare::<Ledger>(0x5000, start, 1),
            left(at(3, -99999998, Status::Running), 1)
        );
    }

    // Words beyond the 4,096th are no part of the code.
    #[test]
    fn long_code(rt: HostRuntime) {
        let code = [0x9000; 4_200];
        let mut cells = [0];
        let lines = [];
        let mut marks = [];
        let mut registers = at(4090, 5, Status::Running);
        let mut tray = Tray::new(&lines, &mut marks);
        let done = registers.run::<Tray, Ledger>(&code, &mut cells, 1, &mut tray, 100);
        assert_eq!(rt; registers, at(4096, 5, Status::Corrupt(4096)));
        assert_eq!(rt; done, 6);
    }

    #[test]
    fn words(rt: HostRuntime) {
        assert_eq!(rt; encode(Instruction::Stop), Some(0xa003));
        assert_eq!(rt; encode(Instruction::Sta(4095)), Some(0x9fff));
        assert_eq!(rt; encode(Instruction::Sta(4096)), None);
        assert_eq!(rt; decode(0x9fff), Some(Instruction::Sta(4095)));
        assert_eq!(rt; decode(0xa004), None);
        assert_eq!(rt; asked(0x1002, 3, 0), Some(Instruction::Brz(2)));
        assert_eq!(rt; asked(0x1002, 2, 9), None);
    }

    // Reads a number, prints it and each lower one down to 1, and ends two lines: 20 instructions on the line 3.
    const COUNTDOWN: [u16; 10] = [
        0xa000, 0x9000, 0x8000, 0xa001, 0x5001, 0x9000, 0x3002, 0xa002, 0xa002, STOP,
    ];

    // The countdown, in runs that end after each instruction whose bit is set, and at the end.
    fn in_parts<N: Arithmetic>(
        cuts: u32,
        code: &[u16],
        cells: &mut [i32],
        marks: &mut [Mark],
    ) -> (Registers, u32) {
        let lines = [3, 8];
        let mut tray = Tray::new(&lines, marks);
        let mut registers = at(0, 0, Status::Running);
        let mut done: u32 = 0;
        let mut budget: u32 = 0;
        for i in 0..25u32 {
            budget = budget.saturating_add(1);
            if cuts >> i & 1 == 1 {
                let more = registers.run::<Tray, N>(code, cells, 2, &mut tray, budget);
                done = done.saturating_add(more);
                budget = 0;
            }
        }
        let more = registers.run::<Tray, N>(code, cells, 2, &mut tray, budget);
        (registers, done.saturating_add(more))
    }

    fn countdown<N: Arithmetic>(cuts: u32) -> (Registers, i32, [Mark; 5], u32) {
        let mut cells = [0, 1];
        let mut marks = [Mark::LineEnd; 5];
        let (registers, done) = in_parts::<N>(cuts, &COUNTDOWN, &mut cells, &mut marks);
        (registers, cells[0], marks, done)
    }

    #[test]
    fn cut_budgets(rt: HostRuntime) {
        let (registers, cell, marks, done) = countdown::<Wrapped>(0);
        assert_eq!(rt; registers, at(9, 0, Status::Stopped));
        assert_eq!(rt; cell, 0);
        assert_eq!(rt;
            marks,
            [
                Mark::Number(3),
                Mark::Number(2),
                Mark::Number(1),
                Mark::LineEnd,
                Mark::LineEnd,
            ]
        );
        assert_eq!(rt; done, 20);
        for cuts in 0..1 << 20 {
            assert!(rt; countdown::<Wrapped>(cuts) == (registers, cell, marks, done));
        }
        for cuts in 0..1 << 10 {
            assert!(rt; countdown::<Ledger>(cuts * 1023) == (registers, cell, marks, done));
        }
    }
}
