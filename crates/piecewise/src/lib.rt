// The solver in whole pieces (document 001, section 6): what crate solver says of a table, number by number, by another way. The equations are
// taken in whole runs (run_classes), and the answer is made from runs (run_answers); where taking gives up, crate solver answers from the start.
#![tactic(auto)]

ghost use Rattle.std.specs.Prelude.{◌≡◌, ◌≤◌, suc, length};
ghost use Rattle.answers.specs.Solve.{solve_record, answer_after, work_after};
ghost use Rattle.solver.specs.inner.Call.{AnswersTable};

use solver::Solving;
use terms::Record;

// The answer of an accepted table, from the classes of its bits.
fn answer_table(
    table: &[u16],
    widths: &[u16],
    places: &[u16],
    bits: usize,
    links: &mut [u16],
    form: &mut [u16],
    answer: &mut [u16],
) -> Record
    ensures { length links.old ≡ suc (suc bits) → AnswersTable table.now widths.now places.now bits (length form.old) answer.old answer.new result }
{
    let mut last = [0u16; 4098];
    let mut first = [0u16; 4098];
    let Some(taken) = run_classes::take_copy(
        table,
        widths,
        places,
        form,
        links,
        &mut last[..],
        &mut first[..],
    ) else {
        return solver::solve_placed(table, widths, places, bits, form, answer);
    };
    run_answers::answer_taken(
        table,
        bits,
        taken.row,
        taken.ties,
        links,
        &mut last[..],
        &mut first[..],
        form,
        answer,
    )
}

// The way of this crate: the classes of whole runs of bits.
pub struct InPieces;

impl Solving for InPieces {
    fn answer(
        table: &[u16],
        widths: &[u16],
        places: &[u16],
        bits: usize,
        form: &mut [u16],
        answer: &mut [u16],
    ) -> Record {
        let mut links = [0u16; 4098];
        let sources = bits.min(terms::MAX_BITS) + 2;
        answer_table(
            table,
            widths,
            places,
            bits,
            &mut links[..sources],
            form,
            answer,
        )
    }
}

// Solves a table: the record, for outcome 2 the answer table, and a work area that is 0 again.
pub fn solve(table: &[u16], answer: &mut [u16], work: &mut [u16]) -> Record
    ensures record { result ≡ solve_record table.now (length answer.old) (length work.old) }
    ensures answer { answer.new ≡ answer_after table.now answer.old (length work.old) }
    ensures work { work.new ≡ work_after table.now (length answer.old) work.old }
{
    solver::solve_by::<InPieces>(table, answer, work)
}
