//! `run`: its words, its schedules, what its events print, and how it ends.
use crate::run_texts::{MAPS, MAPS_SHOWN, MAPS_SHOWN_ON, SETS, SETS_SHOWN, SETS_SHOWN_ON};
use crate::tests::{Call, REPLAY, expect};
use px_world::Bytes;
use std::alloc::Global;
use std::process::Abort;
use std::test::Fail;

/// The run of a schedule of sets, or of maps. Where no derivation is given, it is that of the program.
const RUN: Call<'static> = Call {
    words: &["run", "p", "d", "s"],
    program: SETS,
    derivation: b"",
    ..REPLAY
};

/// The same, in which each merge may take one call.
const ONE_CALL: Call<'static> = Call {
    words: &["run", "p", "d", "s", "--calls", "1"],
    ..RUN
};

/// A message is lost, one comes twice, and one after a later one.
const ASTRAY: &[u8] =
    b"replicas s 2\nupdate 0 Cons(5, Nil)\nupdate 1 Cons(3, Nil)\nsend 0\nsend 1\n\
update 0 Cons(9, Nil)\nsend 0\nsend 1\ndeliver 1 0\ndeliver 2 1\ndeliver 0 1\ndeliver 2 1\nshow 0\nshow 1\n";

/// What a message holds is what its sender held when it was sent.
const SENT: &[u8] =
    b"replicas s 2\nupdate 0 Cons(1, Nil)\nsend 0\nupdate 0 Cons(2, Nil)\ndeliver 0 1\nshow 1\nshow 0\n";

/// What that schedule prints.
const SENT_SHOWN: &str = "1 [0] Cons(1, Nil)\n0 [0,1] Cons(1, Cons(2, Nil))\n";

/// Calls over schedules, each with its status, its output and its errors.
const RUNS: [(Call<'static>, u8, &str, &str); 6] = [
    (
        Call {
            schedule: ASTRAY,
            ..RUN
        },
        0,
        "0 [0,1,2] Cons(3, Cons(5, Cons(9, Nil)))\n1 [0,1,2] Cons(3, Cons(5, Cons(9, Nil)))\n",
        "",
    ),
    (
        Call {
            schedule: SENT,
            ..RUN
        },
        0,
        SENT_SHOWN,
        "",
    ),
    (
        Call {
            words: &["run", "p", "d", "s", "--calls", "1000000000"],
            schedule: SENT,
            ..RUN
        },
        0,
        SENT_SHOWN,
        "",
    ),
    // The second update takes two calls.
    (
        Call {
            schedule: SENT,
            ..ONE_CALL
        },
        7,
        "",
        "spent: event 3\n",
    ),
    // A line that was printed before stays.
    (
        Call {
            schedule: b"replicas s 1\nupdate 0 Cons(1, Nil)\nshow 0\nupdate 0 Cons(2, Nil)\nshow 0\n",
            ..ONE_CALL
        },
        7,
        "0 [0] Cons(1, Nil)\n",
        "spent: event 3\n",
    ),
    (
        Call {
            program: MAPS,
            schedule: b"replicas g 2\nupdate 0 Bind(0, 3, Empty)\nupdate 1 Bind(1, 4, Empty)\nsend 0\ndeliver 0 1\nshow 1\n",
            ..RUN
        },
        0,
        "1 [0,1] Bind(0, 3, Bind(1, 4, Empty))\n",
        "",
    ),
];

/// Further calls over schedules.
const MORE_RUNS: [(Call<'static>, u8, &str, &str); 6] = [
    // The larger of two values of one word.
    (
        Call {
            program: MAPS,
            schedule: b"replicas g 2\nupdate 0 Bind(7, 3, Empty)\nupdate 1 Bind(7, 4, Empty)\nsend 0\nsend 1\ndeliver 0 1\ndeliver 1 0\n\
deliver 0 0\nshow 0\nshow 1\n",
            ..RUN
        },
        0,
        "0 [0,1] Bind(7, 4, Empty)\n1 [0,1] Bind(7, 4, Empty)\n",
        "",
    ),
    // The derivation is replayed before the schedule is opened.
    (
        Call {
            words: &["run", "p", "d", "q"],
            derivation: b"same 0\n",
            ..RUN
        },
        5,
        "",
        "rejected: line 1 order\n",
    ),
    (
        Call {
            words: &["run", "p", "d", "q"],
            ..RUN
        },
        8,
        "",
        "read fault\n",
    ),
    (
        Call {
            words: &["run", "p", "q", "s"],
            program: b"def f(",
            ..RUN
        },
        3,
        "",
        "source: parse at 6\n",
    ),
    // A program without a replica has a derivation, and no schedule.
    (
        Call {
            words: &["run", "p", "d", "s"],
            schedule: b"replicas s 1\n",
            ..REPLAY
        },
        6,
        "",
        "schedule: line 1 unknown-replica-type\n",
    ),
    (
        Call {
            words: &["run", "p", "d"],
            ..RUN
        },
        2,
        "",
        "usage: propel check F | replay F D | eval F NAME V.. [--calls N] | run F D S [--calls N]\n",
    ),
];

/// Schedules of sets, and what is printed where all their lines are right, or what is told of the first that is wrong.
const SCHEDULES: [(&[u8], &str, &str); 24] = [
    (b"replicas s 1\n", "", ""),
    (b"replicas s 1\nshow 0\n", "0 [] Nil\n", ""),
    (b"replicas s 64\nshow 63\n", "63 [] Nil\n", ""),
    (
        b"replicas s 1\nupdate 0  Cons( 007 ,Nil ) \nshow 0\n",
        "0 [0] Cons(7, Nil)\n",
        "",
    ),
    (
        b"replicas s 1\nupdate 0 Nil\nupdate 0 Nil\nshow 0\n",
        "0 [0,1] Nil\n",
        "",
    ),
    (b"", "", "schedule: line 1 form\n"),
    (b"\n", "", "schedule: line 1 form\n"),
    (b"replicas s 1", "", "schedule: line 1 form\n"),
    (b"replicas s 01\n", "", "schedule: line 1 form\n"),
    (b"show 0\n", "", "schedule: line 1 form\n"),
    (
        b"replicas s 1\nreplicas s 1\n",
        "",
        "schedule: line 2 form\n",
    ),
    (b"replicas s 1\nshow  0\n", "", "schedule: line 2 form\n"),
    (b"replicas s 1\nupdate 0\n", "", "schedule: line 2 form\n"),
    (
        b"replicas s 1\nshow 0\nshow 0",
        "",
        "schedule: line 3 form\n",
    ),
    (
        b"replicas t 2\n",
        "",
        "schedule: line 1 unknown-replica-type\n",
    ),
    (
        b"replicas union 2\n",
        "",
        "schedule: line 1 unknown-replica-type\n",
    ),
    (
        b"replicas t 65\n",
        "",
        "schedule: line 1 unknown-replica-type\n",
    ),
    (b"replicas s 65\n", "", "schedule: line 1 too-many\n"),
    (b"replicas s 0\n", "", "schedule: line 1 too-many\n"),
    (
        b"replicas s 2\ndeliver 0 1\n",
        "",
        "schedule: line 2 no-such-message\n",
    ),
    (
        b"replicas s 2\nsend 0\ndeliver 1 2\n",
        "",
        "schedule: line 3 no-such-message\n",
    ),
    (
        b"replicas s 2\nsend 0\ndeliver 0 2\n",
        "",
        "schedule: line 3 no-such-replica\n",
    ),
    (
        b"replicas s 2\nupdate 2 Cons\n",
        "",
        "schedule: line 2 no-such-replica\n",
    ),
    (
        b"replicas s 2\nupdate 1 Cons(Nil, Nil)\n",
        "",
        "schedule: line 2 bad-value\n",
    ),
];

/// The derivation of the program of maps, or else that of the program of sets.
fn derivation_of(alloc: Global, program: &[u8]) -> Result<Bytes, Fail> {
    let (front, rest) = if program == MAPS {
        (MAPS_SHOWN, MAPS_SHOWN_ON)
    } else {
        (SETS_SHOWN, SETS_SHOWN_ON)
    };
    let mut text = Bytes::new(alloc);
    text.extend_from_slice(front)?;
    text.extend_from_slice(rest)?;
    Ok(text)
}

/// Makes the call, with the derivation of its program where it has none, and compares the status and both outputs.
fn expect_run(
    rt: &impl Abort,
    alloc: Global,
    call: &Call,
    wanted: u8,
    printed: &str,
    told: &str,
) -> Result<(), Fail> {
    let derivation = derivation_of(alloc, call.program)?;
    let given = call.derivation;
    let shown = derivation.as_slice();
    let derivation = if given.is_empty() { shown } else { given };
    let whole = Call {
        derivation,
        ..*call
    };
    expect(rt, alloc, &whole, wanted, printed, told)
}

#[test]
fn each_run_has_its_end(rt: HostRuntime) -> Result<(), Fail> {
    for (call, wanted, printed, told) in RUNS {
        expect_run(&rt, rt.alloc(), &call, wanted, printed, told)?;
    }
    for (call, wanted, printed, told) in MORE_RUNS {
        expect_run(&rt, rt.alloc(), &call, wanted, printed, told)?;
    }
    Ok(())
}

#[test]
fn each_schedule_has_its_lines_or_its_fault(rt: HostRuntime) -> Result<(), Fail> {
    for (schedule, printed, told) in SCHEDULES {
        let wanted = if told.is_empty() { 0 } else { 6 };
        expect_run(
            &rt,
            rt.alloc(),
            &Call { schedule, ..RUN },
            wanted,
            printed,
            told,
        )?;
    }
    Ok(())
}

/// A schedule of one replica with so many sendings.
fn sendings(alloc: Global, count: usize) -> Result<Bytes, Fail> {
    let mut text = Bytes::new(alloc);
    text.extend_from_slice(b"replicas s 1\n")?;
    for _ in 0..count {
        text.extend_from_slice(b"send 0\n")?;
    }
    Ok(text)
}

/// The call over the schedule ends so, and prints nothing.
fn expect_silent(
    rt: &impl Abort,
    alloc: Global,
    schedule: &[u8],
    wanted: u8,
    told: &str,
) -> Result<(), Fail> {
    expect_run(rt, alloc, &Call { schedule, ..RUN }, wanted, "", told)
}

#[test]
fn limits_of_schedules_are_kept(rt: HostRuntime) -> Result<(), Fail> {
    let alloc = rt.alloc();
    let full = sendings(alloc, 20_000)?;
    expect_silent(&rt, alloc, full.as_slice(), 0, "")?;
    let more = sendings(alloc, 20_001)?;
    expect_silent(
        &rt,
        alloc,
        more.as_slice(),
        6,
        "schedule: line 20002 too-many\n",
    )?;
    let feeds = vec![in alloc; b'\n'; 8_388_609]?;
    expect_silent(&rt, alloc, &feeds[1..], 6, "schedule: line 1 form\n")?;
    expect_silent(&rt, alloc, &feeds, 11, "too long: schedule\n")
}

#[test]
fn each_write_of_a_run_may_fail(rt: HostRuntime) -> Result<(), Fail> {
    let alloc = rt.alloc();
    // A line is one write; in pieces of one byte each byte is one.
    for (piece, first, counts, whole) in [
        (4096, 19, [0, 1, 1, 1], 2),
        (1, 1, [0, 1, 19, 40], SENT_SHOWN.len()),
    ] {
        for count in counts {
            let printed = SENT_SHOWN.split_at(count * first).0;
            let call = Call {
                schedule: SENT,
                piece,
                failing_writes: &[count as u64],
                ..RUN
            };
            expect_run(&rt, alloc, &call, 9, printed, "write fault\n")?;
        }
        let call = Call {
            schedule: SENT,
            piece,
            failing_writes: &[whole as u64],
            ..RUN
        };
        expect_run(&rt, alloc, &call, 0, SENT_SHOWN, "")?;
    }
    Ok(())
}

#[test]
fn each_read_of_a_run_may_fail(rt: HostRuntime) -> Result<(), Fail> {
    let alloc = rt.alloc();
    // The program and the schedule are opened and read in three calls each, the derivation in five.
    for count in 0..11 {
        let call = Call {
            schedule: SENT,
            failing_calls: &[count],
            ..RUN
        };
        expect_run(&rt, alloc, &call, 8, "", "read fault\n")?;
    }
    let call = Call {
        schedule: SENT,
        failing_calls: &[11],
        ..RUN
    };
    expect_run(&rt, alloc, &call, 0, SENT_SHOWN, "")
}
