//! The least plan of worked lists of runs, and its cost beside that of every plan of short lists.

use krl_plan::{Group, Sort, least_plan, put_least_plan};
use serial_set::Spans;
use span_sets::Held;
use std::alloc::{AllocError, Global};
use std::process::Abort;
use test_fixtures::EIGHT_AND_ONE;

// The ends of a run of serials.
type Run = (u64, u64);

// The length of a subsection, as PROTOCOL.krl lays it out, or none if it is not allowed.
fn bytes_of(sort: Sort, runs: &[Run]) -> Option<u64> {
    let (first, _) = runs.first()?;
    let (_, last) = runs.last()?;
    let reach = last.checked_sub(*first)?;
    match sort {
        Sort::Serials => {
            let mut bytes: u64 = 5;
            for (lo, hi) in runs {
                let serials = hi.checked_sub(*lo)?.checked_add(1)?;
                if serials > 2 {
                    return None;
                }
                bytes = bytes.checked_add(8 * serials)?;
            }
            Some(bytes)
        }
        Sort::Range => if runs.len() == 1 { Some(21) } else { None },
        Sort::Bitmap => if reach < 2048 {
            Some(18 + (reach + 1) / 8)
        } else {
            None
        },
    }
}

// The lowest cost of all plans, found by trying every one.
fn least_cost(runs: &[Run]) -> Option<u64> {
    if runs.is_empty() {
        return Some(0);
    }
    let mut least: Option<u64> = None;
    for count in 1..=runs.len() {
        let Some(rest) = least_cost(&runs[count..]) else {
            continue
        };
        for sort in [Sort::Serials, Sort::Range, Sort::Bitmap] {
            if let Some(bytes) = bytes_of(sort, &runs[..count]) {
                let cost = bytes.saturating_add(rest);
                least = Some(least.map_or(cost, |so_far| so_far.min(cost)));
            }
        }
    }
    least
}

// The cost of a plan of the runs.
fn cost_of(plan: &[Group], runs: &[Run]) -> Option<u64> {
    let mut at: usize = 0;
    let mut cost: u64 = 0;
    for group in plan {
        let end = at.checked_add(group.count as usize)?;
        cost = cost.checked_add(bytes_of(group.sort, runs.get(at..end)?)?)?;
        at = end;
    }
    if at == runs.len() { Some(cost) } else { None }
}

// A set with these runs.
fn set_of(alloc: Global, runs: &[Run]) -> Result<Held, AllocError> {
    let mut set = Held::empty(alloc)?;
    for (lo, hi) in runs {
        if 0 < *lo && *lo <= *hi {
            set.add(*lo, *hi)?;
        }
    }
    Ok(set)
}

// The least plan of a set with these runs.
fn plan_of(alloc: Global, runs: &[Run]) -> Result<Vec<Group>, AllocError> {
    let set = set_of(alloc, runs)?;
    least_plan(alloc, &set)
}

// A list of runs, and the sorts and counts of its least plan.
type Row = (&'static [Run], &'static [(Sort, u16)]);

// The groups with these sorts and counts.
fn groups_of(alloc: Global, expected: &[(Sort, u16)]) -> Result<Vec<Group>, AllocError> {
    let mut groups = Vec::new(alloc);
    for (sort, count) in expected {
        groups.push(Group {
            sort: *sort,
            count: *count,
        })?;
    }
    Ok(groups)
}

// The least plan of a list of runs is this one.
fn is_planned(
    rt: &impl Abort,
    alloc: Global,
    runs: &[Run],
    expected: &[(Sort, u16)],
) -> Result<(), AllocError> {
    let plan = plan_of(alloc, runs)?;
    let groups = groups_of(alloc, expected)?;
    assert!(rt; plan.as_slice() == groups.as_slice());
    Ok(())
}

const ROWS: [Row; 10] = [
    (&[], &[]),
    (&[(5, 5)], &[(Sort::Serials, 1)]),
    (&[(5, 6)], &[(Sort::Bitmap, 1)]),
    (&[(1, 9)], &[(Sort::Bitmap, 1)]),
    (&[(1, 24)], &[(Sort::Range, 1)]),
    (&[(1, 10_000)], &[(Sort::Range, 1)]),
    (&[(1, u64::MAX)], &[(Sort::Range, 1)]),
    (&[(1, 1), (1_000_000, 1_000_000)], &[(Sort::Serials, 2)]),
    (&[(1, 2), (4, 5)], &[(Sort::Bitmap, 2)]),
    (EIGHT_AND_ONE, &[(Sort::Serials, 1), (Sort::Bitmap, 8)]),
];

#[test]
fn plans_worked_lists(rt: HostRuntime) {
    for (runs, expected) in &ROWS {
        is_planned(&rt, rt.alloc(), *runs, *expected).expect(&rt, "there is memory");
    }
}

// The least plan of the runs costs the same as the cheapest of all plans. Returns that cost.
fn least_of(rt: &impl Abort, alloc: Global, runs: &[Run]) -> Result<u64, AllocError> {
    let plan = plan_of(alloc, runs)?;
    let cost = cost_of(&plan, runs);
    assert!(rt; cost.is_some());
    let least = least_cost(runs);
    assert!(rt; cost == least);
    Ok(least.unwrap_or(0))
}

// The length of the subsections of the least plan of the runs.
fn bytes_put(alloc: Global, runs: &[Run]) -> Result<u64, AllocError> {
    let set = set_of(alloc, runs)?;
    let mut out = Vec::new(alloc);
    put_least_plan(alloc, &mut out, &set)?;
    Ok(out.len() as u64)
}

// The least plan of a set costs the same as the cheapest of all plans, and its subsections have
// exactly that length.
fn costs_least(rt: &impl Abort, alloc: Global, runs: &[Run]) -> Result<(), AllocError> {
    let least = least_of(rt, alloc, runs)?;
    let bytes = bytes_put(alloc, runs)?;
    assert!(rt; bytes == least);
    Ok(())
}

// The runs whose bit is set in the number.
fn chosen_runs(alloc: Global, chosen: u32) -> Result<Vec<Run>, AllocError> {
    let all = [
        (1, 1),
        (3, 4),
        (10, 40),
        (2049, 2049),
        (5000, 9000),
        (1_000_000, 1_000_000),
    ];
    let mut left = chosen;
    let mut runs = Vec::new(alloc);
    for (lo, hi) in all {
        if left % 2 == 1 {
            runs.push((lo, hi))?;
        }
        left /= 2;
    }
    Ok(runs)
}

#[test]
fn no_plan_of_a_short_list_costs_less(rt: HostRuntime) {
    for chosen in 0..64u32 {
        let runs = chosen_runs(rt.alloc(), chosen).expect(&rt, "there is memory");
        costs_least(&rt, rt.alloc(), &runs).expect(&rt, "there is memory");
    }
}

// `count` serials, each `apart` above the one before.
fn serials_apart(alloc: Global, apart: u64, count: u64) -> Result<Vec<Run>, AllocError> {
    let mut runs = Vec::new(alloc);
    let mut serial: u64 = 1;
    for _ in 0..count {
        runs.push((serial, serial))?;
        serial = serial.saturating_add(apart);
    }
    Ok(runs)
}

// Many serials with this distance, the plan of the longest groups of a sort, and the length of
// their subsections: 5 and 8 for each serial, or 18 and an eighth of the reach.
#[test]
fn plans_long_lists(rt: HostRuntime) {
    for (apart, sort, bytes) in [
        (2, Sort::Bitmap, 3 * 18 + 255 + 255 + 112),
        (5000, Sort::Serials, 3 * 5 + 8 * 2500),
    ] {
        let runs = serials_apart(rt.alloc(), apart, 2500).expect(&rt, "there is memory");
        let expected = [(sort, 1024), (sort, 1024), (sort, 452)];
        is_planned(&rt, rt.alloc(), &runs, &expected).expect(&rt, "there is memory");
        assert!(rt; bytes_put(rt.alloc(), &runs).expect(&rt, "there is memory") == bytes);
    }
}
