// The classes of a table's bits in whole runs: the equations of a copy of the table (crate copies) are taken in runs (run_equations), from
// sources that link to themselves, each variable one run (runs).
#![tactic(auto)]

ghost use Rattle.std.specs.Prelude.{length, IfSome};
ghost use Rattle.run_classes.specs.inner.Classes.{BeginsRuns, TakesCopy};

use run_equations::Taken;

// Each source links to itself, and each variable is one run.
fn begin(places: &[u16], links: &mut [u16], last: &mut [u16], first: &mut [u16])
    ensures { BeginsRuns places.now links.old last.old first.old links.new last.new first.new }
{
    let from = terms::MAX_ROWS.min(places.len());
    linking::unlink(links);
    let sources = numbers::narrow(links.len());
    runs::start(&places[from..], sources, last, first);
}

// The equations of a copy of the table are taken in runs, from sources that link to themselves. It may give up (None): that is never
// wrong, and only slower.
pub fn take_copy(
    table: &[u16],
    widths: &[u16],
    places: &[u16],
    form: &mut [u16],
    links: &mut [u16],
    last: &mut [u16],
    first: &mut [u16],
) -> Option<Taken>
    ensures { IfSome result (λ t. TakesCopy table.now widths.now places.now (length form.old) links.old (length last.old) (length first.old)
        links.new last.new first.new t.row t.ties) }
{
    let mut short = [0u16; 2048];
    let mut right = [0u16; 4096];
    let mut cuts = [0u16; 3072];
    let len = copies::copy(table, &mut short[..]);
    let lows = (terms::MAX_ROWS + 1).min(places.len());
    begin(places, links, last, first);
    run_equations::take_equations(
        &short[..len],
        widths,
        places,
        &places[lows..],
        table.len() / 4,
        form,
        &mut right[..],
        &mut cuts[..],
        links,
        last,
        first,
    )
}
