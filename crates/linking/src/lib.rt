// The classes of a table's bits (document 01, "The solver's answer": tied bits), as a link for each source: the equations of a copy of the
// table (crate copies) are taken (taking) from sources that link to themselves; then each link is its source's representative.
#![tactic(auto)]

ghost use Rattle.std.specs.Prelude.{◌%◌, ◌≤◌, length};
ghost use Rattle.linking.specs.inner.Classes.{Unlinks, SettlesTies, TableClasses, ClassesWith};

use taking::Taken;

// Links each source to itself.
pub fn unlink(links: &mut [u16])
    ensures { Unlinks links.old links.new }
{
    for (i, link) in links.iter_mut().enumerate() {
        *link = (i % 65536) as u16;
    }
}

// The closing sweep, where no conflict was met. Without ties each source links to itself already.
fn settle_ties(table: &[u16], row: usize, ties: usize, links: &mut [u16])
    ensures { SettlesTies table.now row ties links.old links.new }
{
    if table.len() / 4 <= row && 0 < ties {
        classes::settle(links);
    }
}

// The classes of a table's bits, with room for a copy of the table: its equations are taken from sources that link to themselves; then
// each link is its source's representative, unless two different fixed bits met. The left sides' forms are written to `form`.
fn classes_with(
    table: &[u16],
    widths: &[u16],
    places: &[u16],
    short: &mut [u16],
    form: &mut [u16],
    links: &mut [u16],
) -> Taken
    ensures { ClassesWith table.now widths.now places.now (length short.old) (length form.old) links.old links.new result.row result.ties }
{
    let len = copies::copy(table, short);
    let lows = places.len().min(terms::MAX_ROWS + 1);
    let mut right = [0u16; 4096];
    unlink(links);
    let taken = taking::take_equations(
        &short[..len],
        widths,
        places,
        &places[lows..],
        0,
        table.len() / 4,
        form,
        &mut right[..],
        links,
    );
    settle_ties(table, taken.row, taken.ties, links);
    taken
}

// The same with a copy of room for so many numbers: each of them is set to 0 first, so a small table has a short copy.
fn classes_in<const COPY: usize>(
    table: &[u16],
    widths: &[u16],
    places: &[u16],
    form: &mut [u16],
    links: &mut [u16],
) -> Taken
    requires in_bounds { COPY ≤ 2048 }
    ensures { ClassesWith table.now widths.now places.now COPY (length form.old) links.old links.new result.row result.ties }
{
    let mut short = [0u16; COPY];
    classes_with(table, widths, places, &mut short[..], form, links)
}

// The classes of a table's bits: at most 32 rows have a copy of their own.
pub fn table_classes(
    table: &[u16],
    widths: &[u16],
    places: &[u16],
    form: &mut [u16],
    links: &mut [u16],
) -> Taken
    ensures { TableClasses table.now widths.now places.now (length form.old) links.old links.new result.row result.ties }
{
    if table.len() <= 128 {
        classes_in::<128>(table, widths, places, form, links)
    } else {
        classes_in::<2048>(table, widths, places, form, links)
    }
}
