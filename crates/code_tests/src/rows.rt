//! Files of rows: which lines are rows, and which of them agree.
use scripts::got::{Bad, Got};
use scripts::play::{Player, Tally};
use std::io;

/// Gives a step back, `no` excepted, which it can't read.
fn echo(step: &str, got: &mut Got) {
    match step {
        "no" => got.bad(Bad::Step),
        _ => got.text(step),
    }
}

/// Makes the steps of a row; how many there are.
fn made(steps: &str, got: &mut Got) -> u64 {
    let mut count: u64 = 0;
    got.clear();
    for step in steps.split("; ") {
        got.begin();
        echo(step, got);
        count = count.saturating_add(1);
    }
    count
}

/// How many rows of a text agree and differ, and how many steps were made.
fn counts_of(rt: HostRuntime, text: &str) -> io::Result<(u64, u64, u64)> {
    let mut got = Got::new(rt.alloc());
    let mut player = Player::new(rt.alloc(), "rows");
    let mut steps: u64 = 0;
    for line in text.lines() {
        if player.reads(line)? {
            steps = steps.saturating_add(made(player.steps(), &mut got));
            player.judge(&rt, &got)?;
        }
    }
    let Tally { passed, failed } = player.tally();
    Ok((passed, failed, steps))
}

/// Files, and how many of their rows agree and differ, and how many steps they make.
const FILES: &[(&str, (u64, u64, u64))] = &[
    ("", (0, 0, 0)),
    ("# a heading\n\n# a -> b\n", (0, 0, 0)),
    ("a -> a\n", (1, 0, 1)),
    ("# a heading\na -> b\n", (0, 1, 1)),
    ("a\n", (0, 1, 1)),
    ("a ->\n", (0, 1, 1)),
    ("no -> no such step\nno -> no\n", (1, 1, 2)),
    ("a; b -> a; b\na; b -> b; a\n", (1, 1, 4)),
    ("a; no; b -> a; no such step; b\n", (1, 0, 3)),
    ("a -> \\a\n", (0, 1, 1)),
    ("a b -> a\\sb\n", (1, 0, 1)),
    ("given a -> a\n+ b -> b\n+ c -> b\n", (2, 1, 5)),
    ("given a -> b\n+ b -> b\n", (0, 2, 3)),
    ("given a ->\n+ b -> a; b\n+ c\n", (1, 2, 5)),
    ("+ b -> b\n", (1, 0, 1)),
];

#[test]
fn files_of_rows(rt: HostRuntime) {
    for (text, wanted) in FILES {
        same!(&rt; (*text, counts_of(rt, text).ok()), (*text, Some(*wanted)));
    }
}
