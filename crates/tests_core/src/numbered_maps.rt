//! A map by number shows its values in the order of the numbers, in whatever order they came. What it has is said in `worked_cases`.

use crate::asserting::{made, same};
use crate::values::line_of;
use capbits::Numbered;

// Values that come, or are put in place of another, and what the map then shows.
const COMING: &[(u64, u64, &str)] = &[
    (9, 90, "{9: 90}"),
    (1048577, 20, "{9: 90, 1048577: 20}"),
    (1, 10, "{1: 10, 9: 90, 1048577: 20}"),
    (9, 91, "{1: 10, 9: 91, 1048577: 20}"),
    // Its lower 32 bits are those of 9.
    (
        4294967305,
        30,
        "{1: 10, 9: 91, 1048577: 20, 4294967305: 30}",
    ),
];

// Numbers whose values go, and what the map then shows.
const GOING: &[(u64, &str)] = &[
    (9, "{1: 10, 1048577: 20, 4294967305: 30}"),
    (9, "{1: 10, 1048577: 20, 4294967305: 30}"),
    (1, "{1048577: 20, 4294967305: 30}"),
    (4294967305, "{1048577: 20}"),
    (1048577, "{}"),
];

#[test]
fn values_are_printed_by_number(rt: HostRuntime) {
    let mut map = Numbered::new(rt.alloc());
    for (number, value, line) in COMING {
        made(&rt, map.insert(*number, *value), *number);
        same(&rt, line_of(&rt, rt.alloc(), &map).as_str(), *line, *value);
    }
    for (number, line) in GOING {
        map.remove(*number);
        same(&rt, line_of(&rt, rt.alloc(), &map).as_str(), *line, *number);
    }
}
