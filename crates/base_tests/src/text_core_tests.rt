//! Tests of `text_core`.

use text_core::{digits_len, number_of};

/// A base, digits, the largest number that is let pass, and the answer that is wanted.
static NUMBERS: [(u8, &[u8], u128, Option<u128>); 8] = [
    (10, b"", u128::MAX, Some(0)),
    (10, b"007", u128::MAX, Some(7)),
    (10, b"4611686018427387904", 1 << 62, Some(1 << 62)),
    (10, b"4611686018427387904", (1 << 62) - 1, None),
    (
        10,
        b"340282366920938463463374607431768211455",
        u128::MAX,
        Some(u128::MAX),
    ),
    (
        10,
        b"340282366920938463463374607431768211456",
        u128::MAX,
        None,
    ),
    (16, b"fF", u128::MAX, Some(255)),
    (16, b"100000000000000000000000000000000", u128::MAX, None),
];

#[test]
fn digits_in_front_stand_for_a_number_up_to_the_largest_one(rt: HostRuntime) {
    assert!(rt; digits_len(10, b"12ab") == 2 && digits_len(16, b"12ab") == 4);
    for (i, (base, digits, most, wanted)) in NUMBERS.iter().enumerate() {
        let is = 1 <= *base && *base <= 16 && number_of(*base, digits, *most) == *wanted;
        assert!(rt; is, "case {i}");
    }
}
