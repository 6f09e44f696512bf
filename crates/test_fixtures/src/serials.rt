//! Runs of serials that the tests of several crates write and plan.

/// The ends of runs of one serial each: eight that a bitmap takes, and one far below them.
pub const EIGHT_AND_ONE: &[(u64, u64)] = &[
    (1_000_000, 1_000_000),
    (1_000_002, 1_000_002),
    (1_000_004, 1_000_004),
    (1_000_006, 1_000_006),
    (1_000_008, 1_000_008),
    (1_000_010, 1_000_010),
    (1_000_012, 1_000_012),
    (1_000_014, 1_000_014),
    (1, 1),
];
