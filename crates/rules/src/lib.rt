// The rules of a row: document 01's 12 to 17 and document 02's 40, the row's width, and the bits that it adds. A table is lent as numbers,
// four to a row. A row's rules ask only for the kinds and widths of earlier rows and for three totals.
#![tactic(auto)]

ghost use Rattle.std.specs.Prelude.{◌≡◌, Some, ◌+◌, ◌-◌, ◌%◌, ◌≤◌, get_or};
ghost use Rattle.terms.specs.Table.{rows_of, width_in, bits_in};
ghost use Rattle.terms.specs.Faults.{unused_column, not_term, misnamed, outside, wrong_width, wrong_value, wrong_bounds, too_many, first_rule};
ghost use Rattle.rules.specs.inner.Rules.{rules_in};
ghost use Rattle.rules.specs.inner.Kinds.{HasNumber};

use terms::{Fault, Row};

// The kinds of a row.
#[derive(Clone, Copy, PartialEq, Eq)]
pub enum Kind {
    Variable,
    Constant,
    Concat,
    Extract,
    Equation,
    Value,
}

impl Kind {
    // The kind that has a number, if there is one.
    pub fn of(number: u16) -> Option<Kind>
        ensures { HasNumber result number }
    {
        match number {
            terms::VARIABLE => Some(Kind::Variable),
            terms::CONSTANT => Some(Kind::Constant),
            terms::CONCAT => Some(Kind::Concat),
            terms::EXTRACT => Some(Kind::Extract),
            terms::EQUATION => Some(Kind::Equation),
            terms::VALUE => Some(Kind::Value),
            _ => None,
        }
    }
}

// Rule 13: an unused column is not 0.
fn unused(kind: Kind, row: Row) -> bool
    requires { HasNumber (Some kind) row.kind }
    ensures { result ≡ unused_column row }
{
    match kind {
        Kind::Variable => row.b != 0 || row.c != 0,
        Kind::Constant | Kind::Concat | Kind::Value => row.c != 0,
        Kind::Extract | Kind::Equation => false,
    }
}

// Whether x names no term before row r.
pub fn not_term(table: &[u16], r: usize, x: usize) -> bool
    ensures { result ≡ not_term (rows_of table.now) r x }
{
    r <= x || rows::row_at(table, x).kind == terms::EQUATION
}

// Rule 14: a named row is not earlier, or is an equation.
fn bad_names(table: &[u16], r: usize, kind: Kind, row: Row) -> bool
    requires { HasNumber (Some kind) row.kind }
    ensures { result ≡ misnamed (rows_of table.now) r row }
{
    match kind {
        Kind::Variable | Kind::Constant | Kind::Value => false,
        Kind::Extract => not_term(table, r, row.a.into()),
        Kind::Concat | Kind::Equation => {
            not_term(table, r, row.a.into()) || not_term(table, r, row.b.into())
        }
    }
}

// The width of row x, 0 past the end.
fn width_at(widths: &[u16], x: u16) -> usize
    ensures { (result ≡ get_or widths.now x 0) × (result ≤ 65535) }
{
    widths.get(usize::from(x)).copied().unwrap_or(0).into()
}

// A row's width, from the widths of the rows that it names.
pub fn row_width(widths: &[u16], row: Row) -> usize
    ensures { (result ≡ width_in widths.now row) × (result ≤ 131070) }
{
    let Some(kind) = Kind::of(row.kind) else {
        return row.b.into();
    };
    match kind {
        Kind::Variable => row.a.into(),
        Kind::Constant | Kind::Value => row.b.into(),
        Kind::Concat => width_at(widths, row.a) + width_at(widths, row.b),
        Kind::Extract => (usize::from(row.b) + 1).saturating_sub(row.c.into()),
        Kind::Equation => 0,
    }
}

// Rule 15: a width outside 1 to 1,024, or a constant's bit above 1.
fn bad_width(kind: Kind, row: Row, width: usize) -> bool
    requires { HasNumber (Some kind) row.kind }
    ensures { result ≡ wrong_width row width }
{
    match kind {
        Kind::Variable | Kind::Concat | Kind::Value => outside(width),
        Kind::Constant => outside(width) || 1 < row.a,
        Kind::Extract | Kind::Equation => false,
    }
}

fn outside(width: usize) -> bool
    ensures { result ≡ outside width }
{
    width == 0 || terms::MAX_WIDTH < width
}

// Rule 40: a value's width is above 16, or its number does not fit the width.
fn bad_value(row: Row) -> bool
    ensures { result ≡ wrong_value row }
{
    let width = usize::from(row.b);
    row.kind == terms::VALUE
        && (terms::MAX_VALUE_WIDTH < width || 1usize << width <= usize::from(row.a))
}

// Rule 16: an extraction's high is not below the width of the row it is cut from, or low is above high.
fn bad_bounds(row: Row, width: usize) -> bool
    ensures { result ≡ wrong_bounds row width }
{
    row.kind == terms::EXTRACT && (width <= usize::from(row.b) || row.b < row.c)
}

// Rule 17: too many variables, variable bits or equations.
fn too_many(variables: usize, bits: usize, equations: usize) -> bool
    ensures { result ≡ too_many variables bits equations }
{
    terms::MAX_VARIABLES < variables || terms::MAX_BITS < bits || terms::MAX_EQUATIONS < equations
}

// The first rule that row r breaks; the totals count it too.
pub fn row_fault(
    table: &[u16],
    widths: &[u16],
    r: usize,
    row: Row,
    variables: usize,
    bits: usize,
    equations: usize,
) -> Result<(), Fault>
    ensures { result ≡ first_rule (rules_in (rows_of table.now) widths.now r row variables bits equations) }
{
    let at = numbers::narrow(r);
    let Some(kind) = Kind::of(row.kind) else {
        return Err(Fault::Kind(at));
    };
    if unused(kind, row) {
        return Err(Fault::Unused(at));
    }
    if bad_names(table, r, kind, row) {
        return Err(Fault::Named(at));
    }
    if bad_width(kind, row, row_width(widths, row)) {
        return Err(Fault::Width(at));
    }
    if bad_value(row) {
        return Err(Fault::Value(at));
    }
    if bad_bounds(row, width_at(widths, row.a)) {
        return Err(Fault::Bounds(at));
    }
    if too_many(variables, bits, equations) {
        return Err(Fault::Count(at));
    }
    Ok(())
}

// The variable bits that a row adds.
pub fn row_bits(row: Row) -> u32
    ensures { (result ≡ bits_in row) × (result ≤ 65535) }
{
    if row.kind == terms::VARIABLE {
        row.a.into()
    } else {
        0
    }
}
