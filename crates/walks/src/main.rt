// Runs what has no C export, on a log from standard input: a query with its reader in one call, and the walker. Prints the answer to
// kind 0 with at most 4 rows, the first four rows as the reader returned them, and the walker's answers after 0 to 5 steps; then the
// answer to kind 0 by three scenes, and the walker's answers after 0 to 4 steps.
#![tactic(auto)]

use input::read_full;
use model::{Answer, Bound, Query, Refusal, Row, Written};
use std::io;

fn print_refusal(rt: &impl Print, refusal: Refusal) -> io::Result<()> {
    println!(rt; "{} {}", u8::from(refusal.question), refusal.index)
}

// Printed here, since the host prints text and no more is promised of it.
fn print_row(rt: &impl Print, row: Row) -> io::Result<()> {
    println!(rt; "{} {} {} {}", row.group, row.first, row.last, row.value)
}

fn print_answer(rt: &impl Print, answer: Answer<Written>) -> io::Result<()> {
    match answer {
        Ok(written) => { println!(rt; "{} {} {}", written.rows, written.error, written.weighed) }
        Err(refusal) => print_refusal(rt, refusal),
    }
}

// What a walker over the slot answers after so many steps.
fn print_walked(rt: &impl Print, slot: &[u8], steps: usize) -> io::Result<()> {
    match lent::walker::walked(slot, steps) {
        Ok(Some(row)) => print_row(rt, row),
        Ok(None) => println!(rt; "end"),
        Err(refusal) => print_refusal(rt, refusal),
    }
}

// The answer for a log by three scenes, and the walker's after 0 to 4 steps.
fn print_scenes(rt: &impl Print, log: &[u8]) -> io::Result<()> {
    let mut slot = common::no_slot();
    let query = rules::scenes(0, &[0, 2, 7], &[1, 6, 65535]);
    print_answer(rt, pacer::query(query, log, &mut slot))?;
    for steps in 0..5 {
        print_walked(rt, &slot, steps)?;
    }
    Ok(())
}

fn main(rt: HostRuntime) -> io::Result<()> {
    let mut input = [0u8; 4096];
    let n = read_full(&mut rt.stdin(), &mut input)?;
    let mut slot = common::no_slot();
    let query = Query {
        kind: 0,
        bound: Bound::Rows(4),
        width: 1,
    };
    let log = &input[..n];
    let queried = pacer::query_and_read(query, log, &mut slot);
    print_answer(&rt, queried.answer)?;
    // as `report` has it, which this program has no other use for
    let rows = match queried.reading {
        Ok(reading) => reading.rows,
        Err(_) => common::no_rows(),
    };
    for row in &rows[..4] {
        print_row(&rt, *row)?;
    }
    for steps in 0..6 {
        print_walked(&rt, &slot, steps)?;
    }
    print_scenes(&rt, log)
}
