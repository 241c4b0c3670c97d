//! Numbers at which spans stop to grow: those that stand in a chart, and the ends of sorts.
use actions::{Expr, Sort, Stmt};
use checked_chart::{BlockKind, Chart, ListKind, Trans};
use fixed_point::Num;
use range_spans::all_of;
use range_worlds::Lack;
use std::alloc::Global;

/// Puts a number behind others.
pub(crate) fn put<T: Drop>(all: &mut Vec<T>, number: T) -> Result<(), Lack> {
    match all.push(number) {
        Ok(()) => Ok(()),
        Err(_) => Err(Lack::Memory),
    }
}

/// Puts the literals of an expression behind others.
fn of_expr(all: &mut Vec<Num>, expr: &Expr) -> Result<(), Lack> {
    match expr {
        Expr::Lit(number) => put(all, *number),
        Expr::Flag(_) | Expr::Read(_) | Expr::Active(_) => Ok(()),
        Expr::Neg(inner) => of_expr(all, inner),
        Expr::Not(inner) => of_expr(all, inner),
        Expr::Bin(_, left, right) => {
            of_expr(all, left)?;
            of_expr(all, right)
        }
    }
}

/// Puts the literals of statements behind others.
fn of_stmts(all: &mut Vec<Num>, stmts: &[Stmt]) -> Result<(), Lack> {
    for stmt in stmts {
        match stmt {
            Stmt::Assign(_, expr) => of_expr(all, expr)?,
            Stmt::Send(_) | Stmt::SendTo(..) | Stmt::Emit(_) => {}
        }
    }
    Ok(())
}

/// Puts the literals of transitions behind others.
fn of_list(all: &mut Vec<Num>, list: &[Trans]) -> Result<(), Lack> {
    for transition in list {
        match &transition.guard {
            Some(guard) => of_expr(all, guard)?,
            None => {}
        }
        of_stmts(all, transition.cond.items())?;
        of_stmts(all, transition.act.items())?;
    }
    Ok(())
}

/// The literals of a chart.
fn literals(alloc: Global, chart: &Chart) -> Result<Vec<Num>, Lack> {
    let mut all = Vec::new(alloc);
    for state in 0..chart.shape().len() {
        of_stmts(&mut all, chart.block(state, BlockKind::Entry))?;
        of_stmts(&mut all, chart.block(state, BlockKind::During))?;
        of_stmts(&mut all, chart.block(state, BlockKind::Exit))?;
        of_list(&mut all, chart.list(state, ListKind::Outer))?;
        of_list(&mut all, chart.list(state, ListKind::Inner))?;
        of_list(&mut all, chart.list(state, ListKind::Default))?;
    }
    for junction in 0..chart.junctions() {
        of_list(&mut all, chart.junction(junction))?;
    }
    Ok(all)
}

/// The mantissa of a number at a fraction, towards 0, where it fits 128 bits.
fn mantissa_at(number: Num, frac: u32) -> Option<i128> {
    let mut mantissa = number.mantissa;
    for _ in number.frac..frac {
        mantissa = mantissa.checked_mul(2)?;
    }
    for _ in frac..number.frac {
        mantissa = mantissa.checked_div(2)?;
    }
    Some(mantissa)
}

/// Puts a number and those beside it behind others.
fn put_around(stops: &mut Vec<i128>, mantissa: i128) -> Result<(), Lack> {
    put(stops, mantissa)?;
    put(stops, mantissa.saturating_sub(1))?;
    put(stops, mantissa.saturating_add(1))
}

/// The numbers at which the span of a datum of a sort stops to grow.
fn stops_of(alloc: Global, literals: &[Num], sort: Sort) -> Result<Vec<i128>, Lack> {
    let mut stops = Vec::new(alloc);
    let ends = all_of(sort);
    put(&mut stops, ends.low)?;
    put(&mut stops, ends.high)?;
    match sort {
        Sort::Flag => {}
        Sort::Number(scale) => {
            for number in literals {
                match mantissa_at(*number, u32::from(scale.frac)) {
                    Some(mantissa) => put_around(&mut stops, mantissa)?,
                    None => {}
                }
            }
        }
    }
    Ok(stops)
}

/// For each datum of a chart the numbers at which its span stops to grow.
pub(crate) fn all_stops(alloc: Global, chart: &Chart) -> Result<Vec<Vec<i128>>, Lack> {
    let literals = literals(alloc, chart)?;
    let mut all = Vec::new(alloc);
    for var in chart.names().vars.items() {
        let stops = stops_of(alloc, &literals, var.sort)?;
        put(&mut all, stops)?;
    }
    Ok(all)
}
