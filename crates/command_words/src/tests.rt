//! Words that are commands, and words that are none.

use crate::*;
use std::alloc::{AllocError, Global};
use std::process::Abort;
use std::test::Fail;

// What the options of a command choose, but for the folder. The numbers of the config are the replicas,
// shards, orderers and gatherers.
#[derive(Clone, Copy)]
struct Chosen {
    config: [u8; 4],
    run: u32,
    brief: bool,
    workers: u8,
}

// What is chosen where nothing is said.
const DEFAULTS: Chosen = Chosen {
    config: [2, 2, 3, 1],
    run: 1,
    brief: false,
    workers: 2,
};

// The words, the folder, where there is one, and what else is chosen.
const RUNS: [(&str, &str, Chosen); 5] = [
    ("run", "", DEFAULTS),
    (
        "run --replicas 1 --shards 1",
        "",
        Chosen {
            config: [1, 1, 3, 1],
            ..DEFAULTS
        },
    ),
    (
        "run --shards 8 --run 1000000 --replicas 4 --gatherers 4 --orderers 7",
        "",
        Chosen {
            config: [4, 8, 7, 4],
            run: 1_000_000,
            ..DEFAULTS
        },
    ),
    (
        "run --brief --folder ./disks",
        "./disks",
        Chosen {
            brief: true,
            ..DEFAULTS
        },
    ),
    (
        "run --folder run --run 2",
        "run",
        Chosen { run: 2, ..DEFAULTS },
    ),
];

const CLUSTERS: [(&str, &str, Chosen); 2] = [
    ("cluster", "", DEFAULTS),
    (
        "cluster --workers 8 --folder 0 --run 7 --orderers 1",
        "0",
        Chosen {
            config: [2, 2, 1, 1],
            run: 7,
            workers: 8,
            ..DEFAULTS
        },
    ),
];

// The seed, the count, and the config.
const MAKES: [(&str, u32, u32, [u8; 4]); 3] = [
    ("make 7 1000", 7, 1000, [2, 2, 3, 1]),
    ("make 0 1 --shards 6 --replicas 5", 0, 1, [5, 6, 3, 1]),
    (
        "make 4294967295 60000 --gatherers 2 --orderers 5",
        4_294_967_295,
        60_000,
        [2, 2, 5, 2],
    ),
];

const NONE: [&str; 52] = [
    "",
    "walk",
    "Run",
    "run ",
    " run",
    "--help",
    "run --help",
    "run 2",
    "run --brief 1",
    "run --replicas",
    "run --replicas 0",
    "run --replicas 6",
    "run --replicas 258",
    "run --shards 8 --replicas 5",
    "run --shards 9",
    "run --shards two",
    "run --shards 1 1",
    "run --orderers 2",
    "run --orderers 9",
    "run --gatherers 0",
    "run --gatherers 5",
    "run --run",
    "run --run=2",
    "run --run 0",
    "run --run 02",
    "run --run 00000000002",
    "run --run +2",
    "run --run -2",
    "run --run 2x",
    "run --run 1000001",
    "run --run 4294967298",
    "run --run 99999999999",
    "run --run 2 --run 2",
    "run --brief --brief",
    "run --folder",
    "run --folder ",
    "run --folder -",
    "run --folder a --folder b",
    "run --workers 2",
    "cluster --brief",
    "cluster --workers 0",
    "cluster --workers 9",
    "check --brief",
    "check check",
    "make",
    "make 7",
    "make 7 0",
    "make 7 60001",
    "make 4294967296 1",
    "make 07 1",
    "make 7 1 --run 2",
    "make --shards 1 7 1",
];

#[test]
fn words_of_runs(rt: HostRuntime) -> Result<(), Fail> {
    for (text, folder, chosen) in &RUNS {
        match read_words(rt.alloc(), &words(rt.alloc(), text)?)? {
            Command::Run(options) => chooses(&rt, text, &options, folder, chosen),
            _ => panic!(rt; "{text}"),
        }
    }
    Ok(())
}

#[test]
fn words_of_other_commands(rt: HostRuntime) -> Result<(), Fail> {
    for (text, folder, chosen) in &CLUSTERS {
        match read_words(rt.alloc(), &words(rt.alloc(), text)?)? {
            Command::Cluster(options) => chooses(&rt, text, &options, folder, chosen),
            _ => panic!(rt; "{text}"),
        }
    }
    for (text, made_from, made, config) in &MAKES {
        let chosen = Chosen {
            config: *config,
            ..DEFAULTS
        };
        match read_words(rt.alloc(), &words(rt.alloc(), text)?)? {
            Command::Make {
                options,
                seed,
                count,
            } => {
                chooses(&rt, text, &options, "", &chosen);
                assert_eq!(rt; seed, *made_from, "{text}");
                assert_eq!(rt; count, *made, "{text}");
            }
            _ => panic!(rt; "{text}"),
        }
    }
    let check = read_words(rt.alloc(), &words(rt.alloc(), "check")?)?;
    assert!(rt; matches!(check, Command::Check));
    one_command();
    Ok(())
}

#[test]
fn words_of_no_command(rt: HostRuntime) -> Result<(), Fail> {
    for text in &NONE {
        let read = read_words(rt.alloc(), &words(rt.alloc(), text)?);
        assert!(rt; matches!(read, Err(WordsFault::NoCommand)), "{text}");
    }
    let read = read_words(rt.alloc(), &[]);
    assert!(rt; matches!(read, Err(WordsFault::NoCommand)));
    Ok(())
}

#[test]
fn served_so_far(rt: HostRuntime) -> Result<(), Fail> {
    for (text, brief) in [("run --run 3 --shards 4", false), ("run --brief", true)] {
        match read_offered(rt.alloc(), &words(rt.alloc(), text)?)? {
            Offered::Run(options) => assert_eq!(rt; options.brief, brief, "{text}"),
            _ => panic!(rt; "{text}"),
        }
    }
    match read_offered(rt.alloc(), &words(rt.alloc(), "cluster --workers 3")?)? {
        Offered::Cluster(options) => assert_eq!(rt; options.workers, 3),
        _ => panic!(rt; "cluster"),
    }
    match read_offered(rt.alloc(), &words(rt.alloc(), "make 7 1000")?)? {
        Offered::Make { seed, count, .. } => assert_eq!(rt; (seed, count), (7, 1000)),
        _ => panic!(rt; "make"),
    }
    match read_offered(rt.alloc(), &words(rt.alloc(), "check")?)? {
        Offered::Check => {}
        _ => panic!(rt; "check"),
    }
    for text in [
        "run --folder disks",
        "cluster --folder disks",
        "cluster --brief",
    ] {
        let read = read_offered(rt.alloc(), &words(rt.alloc(), text)?);
        assert!(rt; matches!(read, Err(WordsFault::NoCommand)), "{text}");
    }
    Ok(())
}

// The words of a text, with one space between them.
fn words(alloc: Global, text: &str) -> Result<Vec<String>, AllocError> {
    let mut words = Vec::new(alloc);
    for word in text.split(' ') {
        words.push(String::from_str(alloc, word)?)?;
    }
    Ok(words)
}

fn chooses(rt: &impl Abort, text: &str, options: &Options, folder: &str, chosen: &Chosen) {
    let config = &options.config;
    let numbers = [
        config.replicas(),
        config.shards(),
        config.orderers(),
        config.gatherers(),
    ];
    assert_eq!(rt; numbers, chosen.config, "{text}");
    assert_eq!(rt; options.run, chosen.run, "{text}");
    assert_eq!(rt; options.brief, chosen.brief, "{text}");
    assert_eq!(rt; options.workers, chosen.workers, "{text}");
    let named = match &options.folder {
        Some(named) => named.get(),
        None => "",
    };
    assert_eq!(rt; named, folder, "{text}");
}
