//! Words that are accepted, and the commands that they give.
use coded_stream::Version;
use model_receiver::DecoderLimits;
use rate_match::{Buffer, Match, Sends};
use soft_channel::NoiseChannel;
use std::test::Fail;
use test_runs::words_of;
use turbo_run::{Command, read_words};

#[test]
fn commands_hold_what_their_words_give(rt: HostRuntime) -> Result<(), Fail> {
    let first = Match::new(2, 1, 132, Buffer::Limited(64)).expect(&rt, "a matching");
    let second = Match::new(4, 2, 8, Buffer::Limited(64)).expect(&rt, "a matching");
    let mut sends = Sends::one(first, 0).expect(&rt, "a transmission");
    assert!(rt; sends.add(second, 3));
    let words = words_of(
        rt.alloc(),
        "encode rv=0,3 nir=64 nl=1,2 tb=2 qm=2,4 g=132,8",
    )?;
    let want = Ok(Command::Encode {
        version: Version::Two,
        tb: 2,
        sends,
    });
    assert!(rt; read_words(&words) == want);

    let m = Match::new(6, 1, 1_000_000 - 4, Buffer::Full).expect(&rt, "a matching");
    let words = words_of(rt.alloc(), "codeword rv=3 qm=6 g=999996")?;
    assert!(rt; read_words(&words) == Ok(Command::Codeword { m, rv: 3 }));
    Ok(())
}

#[test]
fn the_version_depends_on_how_many_numbers_are_given(rt: HostRuntime) -> Result<(), Fail> {
    let rows = [
        ("encode tb=2 g=132 qm=2 rv=0,1", Version::One),
        ("encode tb=2 g=132 qm=2 nl=1 rv=0,1", Version::One),
        ("encode tb=2 g=132,132 qm=2 rv=0,1", Version::Two),
        ("encode tb=2 g=132 qm=2 nl=1,1 rv=0,1", Version::Two),
    ];
    for (line, want) in rows {
        let words = words_of(rt.alloc(), line)?;
        match read_words(&words) {
            Ok(Command::Encode { version, .. }) => assert!(rt; version == want, "of {line}"),
            _ => assert!(rt; false, "of {line}"),
        }
    }
    Ok(())
}

#[test]
fn numbers_that_are_not_given_have_their_defaults(rt: HostRuntime) -> Result<(), Fail> {
    let m = Match::new(2, 1, 132, Buffer::Full).expect(&rt, "a matching");
    let sends = Sends::one(m, 0).expect(&rt, "a transmission");
    let rows = [
        (
            "decode",
            Command::Decode {
                limits: DecoderLimits {
                    windows: 8,
                    limit: 8,
                },
                workers: 1,
            },
        ),
        (
            "decode workers=16 limit=3 windows=64",
            Command::Decode {
                limits: DecoderLimits {
                    windows: 64,
                    limit: 3,
                },
                workers: 16,
            },
        ),
        (
            "batch",
            Command::Batch {
                pipes: 2,
                limits: DecoderLimits {
                    windows: 8,
                    limit: 8,
                },
            },
        ),
        (
            "channel seed=18446744073709551615 noise=0 amp=127",
            Command::Channel(NoiseChannel {
                amp: 127,
                noise: 0,
                seed: u64::MAX,
            }),
        ),
        ("upgrade", Command::Upgrade),
        (
            "trial seed=1 blocks=3 tb=2 g=132 qm=2 rv=0 amp=40 noise=20",
            Command::Trial {
                blocks: 3,
                tb: 2,
                sends,
                channel: NoiseChannel {
                    amp: 40,
                    noise: 20,
                    seed: 1,
                },
                limits: DecoderLimits {
                    windows: 8,
                    limit: 8,
                },
            },
        ),
        (
            "scramble cell=503 slot=19 q=1 rnti=65535",
            Command::Scramble {
                rnti: 65_535,
                q: 1,
                slot: 19,
                cell: 503,
            },
        ),
        (
            "points amp=40 noise=20 seed=5",
            Command::Points(NoiseChannel {
                amp: 40,
                noise: 20,
                seed: 5,
            }),
        ),
    ];
    for (line, want) in rows {
        let words = words_of(rt.alloc(), line)?;
        assert!(rt; read_words(&words) == Ok(want), "of {line}");
    }
    Ok(())
}
