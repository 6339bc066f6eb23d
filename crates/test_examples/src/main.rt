// The starred examples, run on the grid: what each says, and the shared word that each step touches.
#![tactic(auto)]

mod example;
mod touch;

use example::Example;
use numbers::{Place, Process, Terms};
use std::fmt::Display;
use steps::{Lent, LentMut};

// A write that fails is not told.
fn say(rt: &impl Print, text: impl Display + Drop) {
    let _ = rt.print(text);
}

fn place(rt: &impl Print, example: u32, n: u64) {
    let s = numbers::segment_of(Place(n));
    let o = numbers::offset_of(Place(n));
    say(
        rt,
        format_args!("{example} place {n}: segment {s} offset {o}\n"),
    );
}

// A link's process and place.
fn pair(w: u64) -> (u32, u64) {
    (numbers::process_of(w).0, numbers::place_of(w).0)
}

fn fill_zero(p: u32, m: u32) -> Terms {
    Terms {
        p,
        m,
        first: 0,
        step: 0,
    }
}

// Examples 5 and 6: fill 0, p 1.
fn alone(rt: &impl Print) {
    let mut e = Example::<2, 17, 10>::opened(fill_zero(1, 2));
    say(rt, "5 ");
    e.write(rt, 0, 0, 7);
    e.walk(rt, 0, 9);
    let (q, n) = pair(e.links[0]);
    let marks = e.state.lanes[0].marks;
    say(
        rt,
        format_args!("link 0 is ({q}, {n}), marks in force {marks}\n"),
    );
    say(rt, "6 ");
    e.write(rt, 0, 1, 8);
    e.walk(rt, 0, 10);
}

fn refused_open(rt: &impl Print, p: u32, m: u32) {
    let lent = Lent {
        readings: &[0; 1],
        links: &[0; 1],
        directory: &[0; 1],
        pool: &[0; 1],
    };
    let o = grid::open(fill_zero(p, m), lent);
    say(rt, format_args!("7 p {p} m {m}"));
    if let Err(r) = o.opening {
        let n = refusals::number(r);
        say(rt, format_args!(": refused {n}\n"));
    }
}

// Example 8: step with short pool and process 16.
fn short_pool(rt: &impl Print) {
    let e = Example::<1, 17, 6>::opened(fill_zero(1, 1));
    let mut lent = LentMut {
        readings: &mut [0; 1],
        links: &mut [0; 1],
        directory: &mut [0; 17],
        pool: &mut [0; 5],
    };
    let r = grid::step(e.state, Process(16), &mut lent);
    say(rt, "8 short pool, process 16: ");
    example::answered(rt, r.answer);
}

// Example 9: fill 0, p 2, m 2.
fn race(rt: &impl Print) {
    let mut e = Example::<2, 34, 12>::opened(fill_zero(2, 2));
    say(rt, "9 ");
    // process 0 writes cell 0, and halts before the swap of its write of cell 1;
    e.write(rt, 0, 0, 7);
    e.walk(rt, 0, 9);
    e.write(rt, 0, 1, 8);
    e.walk(rt, 0, 9);
    // process 1 writes cell 1, and process 0 goes on
    e.write(rt, 1, 1, 9);
    e.walk(rt, 1, 10);
    say(rt, "process 0 goes on\n");
    e.walk(rt, 0, 2);
    let l = e.state.lanes[0].marks;
    let m = e.state.lanes[1].marks;
    let top = e.state.top;
    say(
        rt,
        format_args!("marks in force {l} and {m}; drawn {top}\n"),
    );
}

fn main(rt: HostRuntime) {
    place(&rt, 1, 1);
    place(&rt, 1, 2);
    place(&rt, 1, 5);
    place(&rt, 2, 131072);
    let (q, n) = pair(0);
    say(&rt, format_args!("3 link 0: ({q}, {n})\n"));
    let (q, _) = pair(u64::MAX);
    say(&rt, format_args!("3 all one bits: process {q}\n"));
    let zero = numbers::fill(4294967295, 2, 0);
    let one = numbers::fill(4294967295, 2, 1);
    say(&rt, format_args!("4 f(0) {zero} f(1) {one}\n"));
    alone(&rt);
    refused_open(&rt, 17, 0);
    refused_open(&rt, 16, 65537);
    short_pool(&rt);
    race(&rt);
}
