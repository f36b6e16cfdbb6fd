// The calls of a job kept open (document 02, (viii)): a table's equations are taken one by one. A job is two numbers, the next row and the
// ties so far, and a work area with what holds each variable bit. Nothing lent is written before all is known.
#![tactic(auto)]

ghost use Rattle.std.specs.Prelude.{◌≡◌, cond, suc, eqb, length};
ghost use Rattle.jobs.specs.Call.{open_record, open_job, open_work, step_record, step_job, step_work, job_answer_record, job_answer_after};
ghost use Rattle.steps.specs.inner.Steps.{goes_on, StepsPlaced, PreviewsPlaced, Begins, OpensArea, AnswersPlaced};

use jobs::Job;
use records::Refusal;
use steps::Step;
use terms::Record;

// How each call of a job begins, with a work area of so many numbers: 10, the table's refusals, 43; where none of these is met, the table is
// placed.
fn begin(table: &[u16], room: usize, widths: &mut [u16], places: &mut [u16]) -> Result<(), Refusal>
    ensures { Begins table.now room (length widths.old) (length places.old) widths.new places.new result }
{
    if room < solver::MEMORY {
        return Err(Refusal::Room);
    }
    checker::check_and_place(table, widths, places)?;
    if states::lined(table) {
        return Err(Refusal::Lined);
    }
    Ok(())
}

// Whether a record is that of a step that leaves a pattern.
fn goes_on(outcome: u32) -> bool
    ensures { result ≡ goes_on outcome }
{
    outcome == 0 || outcome == 2
}

// A step on a job, with a link for each source. The work area is written only where a pattern is left.
fn step_with(
    table: &[u16],
    widths: &[u16],
    places: &[u16],
    bits: usize,
    job: Job,
    work: &mut [u16],
    links: &mut [u16],
) -> Step
    ensures { length links.old ≡ suc (suc bits) → StepsPlaced table.now widths.now places.now bits job.next job.ties work.old work.new result.found result.job.next result.job.ties }
{
    let step = steps::try_step(table, widths, places, bits, job, work, links);
    if goes_on(step.found.outcome) {
        areas::put_holders(links, work);
    }
    step
}

// A step on a job of a table that was checked and placed.
fn step_placed(
    table: &[u16],
    widths: &[u16],
    places: &[u16],
    bits: usize,
    job: Job,
    work: &mut [u16],
) -> Step
    ensures { StepsPlaced table.now widths.now places.now bits job.next job.ties work.old work.new result.found result.job.next result.job.ties }
{
    let mut links = [0u16; 4098];
    let sources = bits.min(terms::MAX_BITS) + 2;
    step_with(
        table,
        widths,
        places,
        bits,
        job,
        work,
        &mut links[..sources],
    )
}

// Takes the next equation of a job.
pub fn step_at(table: &[u16], job: Job, work: &mut [u16]) -> Step
    ensures record { result.found ≡ step_record table.now job.next job.ties work.old }
    ensures next { result.job.next ≡ (step_job table.now job.next job.ties work.old).next }
    ensures ties { result.job.ties ≡ (step_job table.now job.next job.ties work.old).ties }
    ensures work { work.new ≡ step_work table.now job.next job.ties work.old }
{
    let mut widths = [0u16; 512];
    let mut places = [0u16; 578];
    if let Err(refusal) = begin(table, work.len(), &mut widths[..], &mut places[..]) {
        return Step {
            found: refusal.record(),
            job,
        };
    }
    let bits = usize::from(places[checker::BITS]);
    step_placed(table, &widths[..], &places[..], bits, job, work)
}

// The record of a step on a job of a table that was checked and placed. The links are an array of its own, of which nothing is kept.
fn preview_placed(
    table: &[u16],
    widths: &[u16],
    places: &[u16],
    bits: usize,
    job: Job,
    work: &[u16],
) -> Record
    ensures { PreviewsPlaced table.now widths.now places.now bits job.next job.ties work.now result }
{
    let mut links = [0u16; 4098];
    let sources = bits.min(terms::MAX_BITS) + 2;
    steps::try_step(
        table,
        widths,
        places,
        bits,
        job,
        work,
        &mut links[..sources],
    )
    .found
}

// What the next step of a job would return. Nothing that is lent is written.
pub fn preview_at(table: &[u16], job: Job, work: &[u16]) -> Record
    ensures record { result ≡ step_record table.now job.next job.ties work.now }
{
    let mut widths = [0u16; 512];
    let mut places = [0u16; 578];
    if let Err(refusal) = begin(table, work.len(), &mut widths[..], &mut places[..]) {
        return refusal.record();
    }
    let bits = usize::from(places[checker::BITS]);
    preview_placed(table, &widths[..], &places[..], bits, job, work)
}

// The work area of a job that is opened: each place holds itself, and all else is 0.
fn open_area(bits: usize, work: &mut [u16])
    ensures { OpensArea bits work.old work.new }
{
    work.fill(0);
    let n = bits.min(work.len());
    linking::unlink(&mut work[..n]);
}

// Opens a job.
pub fn open_at(table: &[u16], job: Job, work: &mut [u16]) -> Step
    ensures record { result.found ≡ open_record table.now (length work.old) }
    ensures next { result.job.next ≡ (open_job table.now job.next job.ties (length work.old)).next }
    ensures ties { result.job.ties ≡ (open_job table.now job.next job.ties (length work.old)).ties }
    ensures work { work.new ≡ open_work table.now work.old }
{
    let mut widths = [0u16; 512];
    let mut places = [0u16; 578];
    if let Err(refusal) = begin(table, work.len(), &mut widths[..], &mut places[..]) {
        return Step {
            found: refusal.record(),
            job,
        };
    }
    let bits = usize::from(places[checker::BITS]);
    open_area(bits, work);
    let next = numbers::short(sides::next_equation(table, 0, table.len() / 4));
    Step {
        found: records::complete(0, numbers::short(bits)),
        job: Job { next, ties: 0 },
    }
}

// The row at which the equations of a job's answer end: after a never the row at which no pattern is left, else all rows.
fn answer_row(next: u32, r: usize, rows: usize) -> usize
    ensures { result ≡ cond (eqb next 1000) r rows }
{
    if next == states::NEVER { r } else { rows }
}

// The answer so far of a job, with a link for each source.
fn answer_with(
    table: &[u16],
    widths: &[u16],
    places: &[u16],
    bits: usize,
    job: Job,
    work: &[u16],
    links: &mut [u16],
    answer: &mut [u16],
) -> Record
    ensures { length links.old ≡ suc (suc bits) → AnswersPlaced table.now widths.now places.now bits job.next job.ties work.now answer.old answer.new result }
{
    let mut short = [0u16; 2048];
    let mut left = [0u16; 4096];
    let mut right = [0u16; 4096];
    let len = copies::copy(table, &mut short[..]);
    let Some(r) = states::read_state(
        table,
        &short[..len],
        widths,
        places,
        job,
        work,
        &mut left[..],
        &mut right[..],
        links,
    ) else {
        return Refusal::NoJob.record();
    };
    let row = answer_row(job.next, r, table.len() / 4);
    solver::answer_taken(
        table,
        bits,
        row,
        job.ties as usize,
        links,
        &mut left[..],
        answer,
    )
}

// The answer so far of a job of a table that was checked and placed.
fn answer_placed(
    table: &[u16],
    widths: &[u16],
    places: &[u16],
    bits: usize,
    job: Job,
    work: &[u16],
    answer: &mut [u16],
) -> Record
    ensures { AnswersPlaced table.now widths.now places.now bits job.next job.ties work.now answer.old answer.new result }
{
    let mut links = [0u16; 4098];
    let sources = bits.min(terms::MAX_BITS) + 2;
    answer_with(
        table,
        widths,
        places,
        bits,
        job,
        work,
        &mut links[..sources],
        answer,
    )
}

// The answer so far of a job.
pub fn answer_at(table: &[u16], job: Job, work: &[u16], answer: &mut [u16]) -> Record
    ensures record { result ≡ job_answer_record table.now job.next job.ties work.now (length answer.old) }
    ensures answer { answer.new ≡ job_answer_after table.now job.next job.ties work.now answer.old }
{
    if answer.len() < solver::ANSWER {
        return Refusal::Room.record();
    }
    let mut widths = [0u16; 512];
    let mut places = [0u16; 578];
    if let Err(refusal) = begin(table, work.len(), &mut widths[..], &mut places[..]) {
        return refusal.record();
    }
    let bits = usize::from(places[checker::BITS]);
    answer_placed(table, &widths[..], &places[..], bits, job, work, answer)
}
