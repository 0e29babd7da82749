use super::*;
use std::alloc::{AllocError, Global};
use std::test::Fail;
use word_core::Player;

/// The words of a text, one between two bars each.
fn split(alloc: Global, text: &str) -> Result<Vec<String>, AllocError> {
    let mut words = Vec::new(alloc);
    for word in text.split('|') {
        words.push(String::from_str(alloc, word)?)?;
    }
    Ok(words)
}

/// What `synth` means for these values.
fn synth(
    alloc: Global,
    name: &str,
    bounds: (u32, u32, u32),
    workers: u32,
    as_written: bool,
) -> Result<Order, AllocError> {
    Ok(Order::Synth {
        name: String::from_str(alloc, name)?,
        bounds,
        workers,
        as_written,
    })
}

#[test]
fn orders_to_synthesize(rt: HostRuntime) -> Result<(), Fail> {
    let alloc = rt.alloc();
    let cases = [
        ("synth|t1", "t1", (0, 1, 8), 1, false),
        ("synth|-", "-", (0, 1, 8), 1, false),
        ("synth|--|-x", "-x", (0, 1, 8), 1, false),
        ("synth|--|--", "--", (0, 1, 8), 1, false),
        (
            "synth|t1|--bound|10000|--workers|64",
            "t1",
            (0, 1, 10_000),
            64,
            false,
        ),
        (
            "synth|--bound=9|--first=9|t1|--step|10000",
            "t1",
            (9, 10_000, 9),
            1,
            false,
        ),
        ("synth|--as-written|t1|--bound|0", "t1", (0, 1, 0), 1, true),
    ];
    for (text, name, bounds, workers, as_written) in cases {
        let words = split(alloc, text)?;
        let found = read_words(alloc, &words);
        let wanted = synth(alloc, name, bounds, workers, as_written)?;
        assert_eq!(rt; found, Ok(wanted), "{text}");
    }
    Ok(())
}

#[test]
fn other_orders(rt: HostRuntime) -> Result<(), Fail> {
    let alloc = rt.alloc();
    let t = || String::from_str(alloc, "t");
    let m = || String::from_str(alloc, "m");
    let cases = vec![in alloc;
        (
            "downset|t|--player|system|--bound|3",
            Order::Downset {
                name: t()?,
                player: Player::System,
                bound: 3,
                as_written: false
            }
        ),
        (
            "downset|--bound=0|--player=environment|--as-written|t",
            Order::Downset {
                name: t()?,
                player: Player::Environment,
                bound: 0,
                as_written: true
            }
        ),
        (
            "check|t|m|--bound|1",
            Order::Check {
                name: t()?,
                machine: m()?,
                bound: 1,
                as_written: false
            }
        ),
        (
            "eval|t|--as-written|m",
            Order::Eval {
                name: t()?,
                lasso: m()?,
                as_written: true
            }
        ),
        (
            "gen|4",
            Order::Gen {
                clients: 4,
                workers: 1
            }
        ),
        (
            "gen|8|--workers|2",
            Order::Gen {
                clients: 8,
                workers: 2
            }
        ),
    ]?;
    for (text, wanted) in cases {
        let words = split(alloc, text)?;
        assert_eq!(rt; read_words(alloc, &words), Ok(wanted), "{text}");
    }
    Ok(())
}

/// Words that are no order.
const REFUSED: [&str; 52] = [
    "",
    "synth",
    "synth|",
    "synth|t|t",
    "--|synth|t",
    "Synth|t",
    "syn|t",
    "help",
    "synth|--help",
    "synth|t|-h",
    "synth|t|--version",
    "synth|t|-V",
    "synth|t|-x",
    "synth|t|--first|9",
    "synth|t|--bound|10001",
    "synth|t|--bound|4294967304",
    "synth|t|--bound|08",
    "synth|t|--bound|00",
    "synth|t|--bound|+8",
    "synth|t|--bound|-8",
    "synth|t|--bound=-8",
    "synth|t|--bound|-",
    "synth|t|--bound|--|1",
    "synth|--bound|--|1",
    "synth|t|--bound|",
    "synth|t|--bound=",
    "synth|t|--bound",
    "synth|t|--bound|8 ",
    "synth|t|--bound|0x8",
    "synth|t|--bound|1|--bound|1",
    "synth|t|--bound|1|--bound=1",
    "synth|t|--bou|1",
    "synth|t|--Bound|1",
    "synth|t|-bound|1",
    "synth|t|--step|0",
    "synth|t|--workers|0",
    "synth|t|--workers|65",
    "synth|t|--as-written|--as-written",
    "synth|t|--as-written=",
    "synth|t|--as-written=true",
    "synth|t|--as-written|true",
    "synth|t|--conjuncts",
    "synth|t|--log",
    "downset|t|--player|system",
    "downset|t|--bound|1",
    "downset|t|--player|System|--bound|1",
    "downset|t|--player|system|--bound|1|--begun",
    "check|t|m",
    "eval|t|m|--bound|1",
    "gen|0",
    "gen|9",
    "model|t|m",
];

#[test]
fn words_that_are_no_order(rt: HostRuntime) -> Result<(), Fail> {
    let alloc = rt.alloc();
    assert_eq!(rt; read_words(alloc, &[]), Err(WordsError::Usage));
    for text in REFUSED {
        let words = split(alloc, text)?;
        assert_eq!(rt; read_words(alloc, &words), Err(WordsError::Usage), "{text}");
    }
    Ok(())
}
