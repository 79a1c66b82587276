//! Words and what they mean (docs/CALLS.md, "Words").
use crate::{Options, Words, read_words};
use std::alloc::{AllocError, Global};
use std::test::Fail;

const NO_OPTIONS: Options = Options {
    workers: 1,
    turns: 1_000_000,
    port: 2049,
    down: false,
    accept_loss: false,
};

// The words of a line.
fn words_of(alloc: Global, line: &str) -> Result<Vec<String>, AllocError> {
    let mut words = Vec::new(alloc);
    for word in line.split(' ') {
        words.push(String::from_str(alloc, word)?)?;
    }
    Ok(words)
}

fn is_refused(alloc: Global, line: &str) -> Result<bool, AllocError> {
    let words = words_of(alloc, line)?;
    Ok(read_words(alloc, &words)?.is_none())
}

fn has_options(words: &Words<'_>, wanted: Options) -> bool {
    let options = words.options;
    options.workers == wanted.workers
        && options.turns == wanted.turns
        && options.port == wanted.port
        && options.down == wanted.down
        && options.accept_loss == wanted.accept_loss
}

// Whether the place-th volume is named by this word, and has this disk and board.
fn has_volume(
    words: &Words<'_>,
    place: usize,
    word: &str,
    disk: &str,
    board: Option<&str>,
) -> bool {
    match words.volumes.get(place) {
        Some(volume) => volume.word == word && volume.disk == disk && volume.board == board,
        None => false,
    }
}

// Whether the line means the disk `d` alone with these options.
fn asks_for_d(alloc: Global, line: &str, wanted: Options) -> Result<bool, AllocError> {
    let words = words_of(alloc, line)?;
    match read_words(alloc, &words)? {
        Some(read) => Ok(
            read.volumes.len() == 1
                && has_volume(&read, 0, "d", "d", None)
                && has_options(&read, wanted),
        ),
        None => Ok(false),
    }
}

#[test]
fn options_stand_before_or_after_in_both_forms(rt: HostRuntime) -> Result<(), Fail> {
    let two_turns = Options {
        turns: 2,
        ..NO_OPTIONS
    };
    let all = Options {
        workers: 1,
        turns: 1_000_000_000,
        port: 65_535,
        down: true,
        accept_loss: true,
    };
    let down = Options {
        down: true,
        ..NO_OPTIONS
    };
    let accept_loss = Options {
        accept_loss: true,
        ..NO_OPTIONS
    };
    let port = Options {
        port: 1,
        ..NO_OPTIONS
    };
    for (line, wanted) in [
        ("d", NO_OPTIONS),
        ("d --turns=2", two_turns),
        ("--turns 2 d", two_turns),
        ("--turns=0000000002 d", two_turns),
        ("--workers=1 d", NO_OPTIONS),
        ("d --workers 1", NO_OPTIONS),
        ("d --port 1", port),
        ("--port=1 d", port),
        ("d --down", down),
        ("--accept-loss d", accept_loss),
        (
            "--down --port 65535 d --accept-loss --turns 1000000000",
            all,
        ),
    ] {
        assert!(rt; asks_for_d(rt.alloc(), line, wanted)?, "{line}");
    }
    Ok(())
}

#[test]
fn one_to_four_volumes_are_cut_at_the_last_colon(rt: HostRuntime) -> Result<(), Fail> {
    let alloc = rt.alloc();
    let words = words_of(alloc, "--turns 9 d:b a:b:c e f --down")?;
    let Some(read) = read_words(alloc, &words)? else {
        return Err(Fail::from("refused"));
    };
    assert_eq!(rt; read.volumes.len(), 4);
    assert!(rt; has_volume(&read, 0, "d:b", "d", Some("b")));
    assert!(rt; has_volume(&read, 1, "a:b:c", "a:b", Some("c")));
    assert!(rt; has_volume(&read, 2, "e", "e", None));
    assert!(rt; has_volume(&read, 3, "f", "f", None));
    assert!(rt; is_refused(alloc, "a b c e f")?);
    Ok(())
}

#[test]
fn other_words_are_refused(rt: HostRuntime) -> Result<(), Fail> {
    for line in [
        "",
        "d --turns 1 --turns 2",
        "d d",
        "d:b e:b",
        "d:b b",
        "d:d",
        "d: e",
        ":b",
        "d --help",
        "d -h",
        "d --version",
        "d --turns 0",
        "d --turns",
        "d --turns=",
        "d --turns +1",
        "d --turns 00000000001",
        "d --turns 1000000001",
        "d --port 0",
        "d --port 65536",
        "d --workers 0",
        "d --workers 2",
        "d --workers 17",
        "d --down --down",
        "d --down=true",
        "--turns 2",
    ] {
        assert!(rt; is_refused(rt.alloc(), line)?, "{line}");
    }
    let none = Vec::new(rt.alloc());
    assert!(rt; read_words(rt.alloc(), &none)?.is_none());
    Ok(())
}

// A word of so many letters.
fn long_word(alloc: Global, count: u32) -> Result<Vec<String>, AllocError> {
    let mut word = String::new(alloc);
    for _ in 0..count {
        word.push('d')?;
    }
    let mut words = Vec::new(alloc);
    words.push(word)?;
    Ok(words)
}

#[test]
fn a_part_has_at_most_200_bytes(rt: HostRuntime) -> Result<(), Fail> {
    let alloc = rt.alloc();
    assert!(rt; read_words(alloc, &long_word(alloc, 200)?)?.is_some());
    assert!(rt; read_words(alloc, &long_word(alloc, 201)?)?.is_none());
    Ok(())
}
