//! Known values, and each call once where it succeeds.

use crate::{Mono, bezout};
use std::cmp::Ordering;
use std::test::Fail;

/// The greatest coefficient, 2^127 - 1.
const MOST: i128 = i128::MAX;

#[test]
fn bezout_gives_known_factors(rt: HostRuntime) {
    let rows = [
        ((4, 6), (2, 2, -1)),
        ((6, 4), (2, 1, -1)),
        ((1, 1), (1, 0, 1)),
        ((5, 3), (1, 2, -3)),
        ((3, 5), (1, 2, -1)),
        ((12, 4), (4, 0, 1)),
        ((4, 12), (4, 1, 0)),
        ((240, 46), (2, 14, -73)),
        ((MOST, MOST), (MOST, 0, 1)),
        ((MOST, 1), (1, 0, 1)),
        ((1, MOST), (1, 1, 0)),
        ((MOST, MOST - 1), (1, 1, -1)),
        ((MOST - 1, MOST), (1, MOST - 1, -(MOST - 2))),
    ];
    for ((c1, c2), wanted) in rows {
        assert!(rt; c1 > 0);
        assert!(rt; c2 > 0);
        assert_eq!(rt; bezout(c1, c2), wanted);
    }
}

#[test]
fn integer_vectors_split_by_sign(rt: HostRuntime) -> Result<(), Fail> {
    let m = Mono::of_exponents(&[-3, 2]).ok_or("too steep")?;
    assert_eq!(rt; m.degree(), 5);
    for at in 0..48 {
        let wanted = match at {
            1 => 3,
            2 => 2,
            _ => 0,
        };
        assert_eq!(rt; m.exp(at), wanted);
    }
    assert!(rt; Mono::of_exponents(&[]) == Some(Mono::one()));
    assert!(rt; Mono::of_exponents(&[0, 1]) == Some(Mono::of_generator(1, true)));
    assert!(rt; Mono::of_exponents(&[0, -1]) == Some(Mono::of_generator(1, false)));
    Ok(())
}

#[test]
fn degrees_end_at_60000(rt: HostRuntime) -> Result<(), Fail> {
    assert!(rt; Mono::of_exponents(&[60_000]).is_some());
    assert!(rt; Mono::of_exponents(&[-30_000, 30_000]).is_some());
    assert!(rt; Mono::of_exponents(&[60_001]).is_none());
    assert!(rt; Mono::of_exponents(&[-30_000, 30_001]).is_none());
    assert!(rt; Mono::of_exponents(&[i32::MIN; 24]).is_none());

    let a = Mono::of_generator(0, true);
    let below = Mono::of_exponents(&[59_999]).ok_or("too steep")?;
    let most = below.times(&a).ok_or("too steep")?;
    assert_eq!(rt; most.degree(), 60_000);
    assert!(rt; most.times(&a).is_none());
    assert!(rt; most.times(&Mono::one()) == Some(most));

    let b = Mono::of_generator(1, true);
    assert_eq!(rt; most.lcm_degree(&b), 60_001);
    assert!(rt; most.lcm(&b).is_none());
    assert!(rt; most.lcm(&a) == Some(most));
    Ok(())
}

#[test]
fn the_order_goes_by_degree_and_then_by_exponents(rt: HostRuntime) -> Result<(), Fail> {
    // Rising: 1, y_1, x_1, y_0, x_0, x_1^2, x_0 x_1, x_0 y_0, x_0^2.
    let x_0 = Mono::of_generator(0, true);
    let rising = [
        Mono::one(),
        Mono::of_generator(1, false),
        Mono::of_generator(1, true),
        Mono::of_generator(0, false),
        x_0,
        Mono::of_exponents(&[0, 2]).ok_or("too steep")?,
        Mono::of_exponents(&[1, 1]).ok_or("too steep")?,
        x_0.times(&Mono::of_generator(0, false)).ok_or("too steep")?,
        Mono::of_exponents(&[2]).ok_or("too steep")?,
    ];
    for (i, a) in rising.iter().enumerate() {
        for (j, b) in rising.iter().enumerate() {
            let wanted: Ordering = i.cmp(&j);
            assert!(rt; a.compare(b) == wanted);
            assert!(rt; a.cmp(b) == wanted);
        }
    }
    Ok(())
}

#[test]
fn multiples_divide_and_multiply_back(rt: HostRuntime) -> Result<(), Fail> {
    let m = Mono::of_exponents(&[2, -1]).ok_or("too steep")?;
    let n = Mono::of_exponents(&[1, -3, 4]).ok_or("too steep")?;
    assert!(rt; !m.divides(&n));
    assert!(rt; !n.divides(&m));
    assert_eq!(rt; m.lcm_degree(&n), 9);
    let multiple = m.lcm(&n).ok_or("too steep")?;
    assert!(rt; Mono::of_exponents(&[2, -3, 4]) == Some(multiple));
    assert!(rt; m.divides(&multiple));
    let rest = multiple.quotient(&m);
    assert!(rt; Mono::of_exponents(&[0, -2, 4]) == Some(rest));
    assert!(rt; m.times(&rest) == Some(multiple));
    assert!(rt; m.degree() + rest.degree() <= 60_000);
    assert!(rt; m.product(&rest) == multiple);
    Ok(())
}
