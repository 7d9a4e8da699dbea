//! The constituent coder's steps: a worked row, and the tails of all states.
use lte_bits::Bit;
use rsc_trellis::{State, next, parity, previous, tail_path};

#[test]
fn one_followed_by_zeros_gives_the_worked_parities(rt: HostRuntime) {
    let mut s = State::ZERO;
    let mut u = Bit::One;
    for (k, z) in [1, 1, 1, 1, 0, 0, 1, 0, 1, 1, 1].iter().enumerate() {
        assert_eq!(rt; u8::from(parity(s, u)), *z, "place {k}");
        s = next(s, u);
        u = Bit::Zero;
    }
}

#[test]
fn the_tail_of_each_state_is_coded_and_ends_in_state_0(rt: HostRuntime) {
    for n in 0..8 {
        let mut s = State::new(n).expect(&rt, "a state");
        assert_eq!(rt; s.number(), n);
        for (x, z) in tail_path(s) {
            assert_eq!(rt; parity(s, x), z, "state {n}");
            s = next(s, x);
        }
        assert_eq!(rt; s.number(), 0, "state {n}");
    }
    assert!(rt; State::new(8).is_none());
}

#[test]
fn each_state_has_two_before_it(rt: HostRuntime) {
    for n in 0..8 {
        let s = State::new(n).expect(&rt, "a state");
        let (zero, one) = (previous(s, Bit::Zero), previous(s, Bit::One));
        assert!(rt; zero.0 != one.0, "state {n}");
        assert_eq!(rt; next(zero.0, zero.1), s, "state {n}");
        assert_eq!(rt; next(one.0, one.1), s, "state {n}");
    }
}
