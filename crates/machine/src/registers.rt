// The registers of a machine, and runs of code over lent memory.
ghost use Rattle.std.specs.Prelude.{◌≡◌, ◌<◌, ◌≤◌, min, true, length, take, drop, if◌then◌else◌, is_ok};
ghost use Rattle.runs.specs.Events.{world};
ghost use Rattle.runs.specs.Machine.{fetch as fetched, inside, held as holds, carry_out, step as stepped, counted, run as ran, count};
ghost use Rattle.runs.specs.declared.status.Status.TheVariants.{Running, NoPaper as no_paper};
ghost use Rattle.machine.specs.States.{whole};

use super::program::Program;
use arithmetic::Arithmetic;
use arithmetic::operations::{difference, product, quotient, sum};
use host::{Host, NoPaper};
use runs::instruction::Instruction;
use runs::status::Status;

// Where a run stands: the address of the next word, the accumulator, and whether the run is open.
#[derive(Clone, Copy, PartialEq, Eq, Debug)]
pub struct Registers {
    pub address: u16,
    pub accumulator: i32,
    pub status: Status,
}

// What a cell holds, fitted to a word.
fn held<N: Arithmetic>(cells: &[i32], cell: u16) -> i32
    requires { cell < length cells.now }
    ensures { result ≡ holds N.Arithmetic.words cells.now cell }
{
    N::fit(cells[cell as usize] as i64)
}

impl Registers {
    // A word into the accumulator, and on at the next address.
    fn load(&mut self, word: i32, next: u16)
        ensures accumulator { self.new.accumulator ≡ word }
        ensures address { self.new.address ≡ next }
        ensures status { self.new.status ≡ self.old.status }
    {
        self.accumulator = word;
        self.address = next;
    }

    // On at an address where the jump is taken, and else on at the next.
    fn branch(&mut self, taken: bool, address: u16, next: u16)
        ensures address { self.new.address ≡ (if taken then address else next) }
        ensures accumulator { self.new.accumulator ≡ self.old.accumulator }
        ensures status { self.new.status ≡ self.old.status }
    {
        self.address = if taken { address } else { next };
    }

    // On at the next address where a mark was printed; where there was no paper for it the run closes.
    fn after_mark(&mut self, printed: Result<(), NoPaper>, next: u16)
        ensures address { self.new.address ≡ (if is_ok printed then next else self.old.address) }
        ensures accumulator { self.new.accumulator ≡ self.old.accumulator }
        ensures status { self.new.status ≡ (if is_ok printed then self.old.status else no_paper) }
    {
        match printed {
            Ok(()) => self.address = next,
            Err(NoPaper) => self.status = Status::NoPaper,
        }
    }

    // Carries out an instruction whose cell is there. Cells and host stay two parameters here and below: a struct of the two loans would
    // be taken apart again at each cell that is written and each call of the host.
    fn carry_out<H: Host, N: Arithmetic>(
        &mut self,
        instruction: Instruction,
        cells: &mut [i32],
        host: &mut H,
    )
        requires address { self.old.address < 4096 }
        requires inside { inside 4096 (length cells.old) instruction ≡ true }
        ensures state { whole self.new cells.new (H.Host.meaning host.new) ≡ carry_out (world N.Arithmetic.words H.Host.weight) instruction (whole self.old cells.old (H.Host.meaning host.old)) }
        ensures kept { H.Host.keeps host.old host.new }
    {
        let accumulator = self.accumulator;
        let next = self.address + 1;
        // Instructions come from words in memory, which hold no closures: they are told apart here, each once.
        match instruction {
            Instruction::Bru(a) => self.address = a,
            Instruction::Brz(a) => self.branch(accumulator == 0, a, next),
            Instruction::Brn(a) => self.branch(accumulator < 0, a, next),
            Instruction::Brp(a) => self.branch(accumulator > 0, a, next),
            Instruction::Ada(a) => self.load(sum::<N>(accumulator, held::<N>(cells, a)), next),
            Instruction::Sub(a) => self.load(
                difference::<N>(accumulator, held::<N>(cells, a)),
                next,
            ),
            Instruction::Mul(a) => self.load(product::<N>(accumulator, held::<N>(cells, a)), next),
            Instruction::Div(a) => self.load(quotient::<N>(accumulator, held::<N>(cells, a)), next),
            Instruction::Lda(a) => self.load(held::<N>(cells, a), next),
            Instruction::Sta(a) => {
                cells[a as usize] = accumulator;
                self.address = next;
            }
            Instruction::Read => match host.take() {
                Some(line) => self.load(N::fit(line), next),
                None => self.status = Status::NoLine,
            },
            Instruction::Convert => self.after_mark(host.put(accumulator), next),
            Instruction::Newline => self.after_mark(host.close(), next),
            Instruction::Stop => self.status = Status::Stopped,
        }
    }

    // One step: an open run carries out what is fetched, or closes as corrupt where nothing is. Answers whether an instruction
    // was carried out.
    fn step<H: Host, N: Arithmetic>(
        &mut self,
        program: &Program<'_>,
        cells: &mut [i32],
        host: &mut H,
    ) -> bool
        requires { program.now.used ≤ length cells.old }
        ensures state { whole self.new cells.new (H.Host.meaning host.new) ≡ stepped (world N.Arithmetic.words H.Host.weight) program.now.code.now program.now.used (whole self.old cells.old (H.Host.meaning host.old)) }
        ensures count { (if result then 1 else 0) ≡ counted self.old.status (fetched program.now.code.now program.now.used self.old.address) }
        ensures kept { H.Host.keeps host.old host.new }
    {
        if self.status != Status::Running {
            return false;
        }
        let Some(instruction) = program.fetch(self.address) else {
            self.status = Status::Corrupt(self.address);
            return false;
        };
        self.carry_out::<H, N>(instruction, cells, host);
        true
    }

    // Steps, at most as many as the budget, while instructions are carried out. Answers how many were.
    fn advance<H: Host, N: Arithmetic>(
        &mut self,
        program: &Program<'_>,
        cells: &mut [i32],
        host: &mut H,
        budget: u32,
    ) -> u32
        requires { program.now.used ≤ length cells.old }
        ensures state { whole self.new cells.new (H.Host.meaning host.new) ≡ ran (world N.Arithmetic.words H.Host.weight) program.now.code.now program.now.used budget (whole self.old cells.old (H.Host.meaning host.old)) }
        ensures count { result ≡ count (world N.Arithmetic.words H.Host.weight) program.now.code.now program.now.used budget (whole self.old cells.old (H.Host.meaning host.old)) }
        ensures kept { H.Host.keeps host.old host.new }
    {
        for done in 0..budget {
            if !self.step::<H, N>(program, cells, host) {
                return done;
            }
        }
        budget
    }

    // Runs code over cells and a host: as many instructions as the budget, fewer only if the run closes, and none once it
    // is closed. Answers how many were carried out.
    //
    // The code is the first 4,096 words of `code`, since no address is above 4,095. The cells in use are the first `used`
    // of `cells`, or all where there are fewer; no other is read or written.
    pub fn run<H: Host, N: Arithmetic>(
        &mut self,
        code: &[u16],
        cells: &mut [i32],
        used: usize,
        host: &mut H,
        budget: u32,
    ) -> u32
        ensures state { whole self.new cells.new (H.Host.meaning host.new) ≡ ran (world N.Arithmetic.words H.Host.weight) (take 4096 code.now) (min used (length cells.old)) budget (whole self.old cells.old (H.Host.meaning host.old)) }
        ensures count { result ≡ count (world N.Arithmetic.words H.Host.weight) (take 4096 code.now) (min used (length cells.old)) budget (whole self.old cells.old (H.Host.meaning host.old)) }
        ensures full { self.new.status ≡ Running → result ≡ budget }
        ensures others { drop used cells.new ≡ drop used cells.old }
        ensures kept { H.Host.keeps host.old host.new }
    {
        let program = Program::new(code, used.min(cells.len()));
        self.advance::<H, N>(&program, cells, host, budget)
    }
}
