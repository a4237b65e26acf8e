//! Lines of every kind, and texts that are none.

use crate::*;
use log_base::{Config, NodeId};
use std::process::Abort;
use std::test::Fail;

// A line of every kind, for the cluster of the first test.
const LINES: [(&[u8], Fault); 12] = [
    (b"hold", Fault::Hold),
    (b"settle", Fault::Settle),
    (b"tick 10", Fault::Tick { node: NodeId(10) }),
    (b"deliver 0", Fault::Deliver { letter: 0 }),
    (b"drop 1000000", Fault::Drop { letter: 1_000_000 }),
    (b"again 70", Fault::Again { letter: 70 }),
    (b"stop 6", Fault::Stop { node: NodeId(6) }),
    (
        b"stop 0 after 12 keep 3",
        Fault::StopAfter {
            node: NodeId(0),
            after: 12,
            keep: 3,
        },
    ),
    (
        b"lose 8 after 1000000",
        Fault::Lose {
            node: NodeId(8),
            after: 1_000_000,
        },
    ),
    (b"restart 7", Fault::Restart { node: NodeId(7) }),
    (b"lead 2", Fault::Lead { orderer: 2 }),
    (b"resubmit", Fault::Resubmit),
];

// Texts that are no line of the same cluster, and how far each begins one.
const NONE: [(&[u8], usize); 30] = [
    (b"", 0),
    (b"hol", 3),
    (b"holds", 4),
    (b"Hold", 0),
    (b"wait", 0),
    (b"settle ", 6),
    (b"tick", 4),
    (b"tick ", 5),
    (b"tick  1", 5),
    (b"tick 01", 6),
    (b"tick 11", 6),
    (b"tick 99", 6),
    (b"tick 1x", 6),
    (b"tock 1", 1),
    (b"deliver 1000001", 14),
    (b"drop 10000000", 12),
    (b"drop 12345678", 11),
    (b"again -1", 6),
    (b"stop 6 after 1 keep 1", 6),
    (b"stop 5 after", 12),
    (b"stop 0 after 1", 14),
    (b"stop 0 after 1 keep", 19),
    (b"stop 0 after 1 keep 00", 21),
    (b"lose 7 after 0", 5),
    (b"lose 1", 6),
    (b"lose 1 after 0 keep 1", 14),
    (b"restart 10 ", 10),
    (b"lead 3", 5),
    (b"leave", 3),
    (b"resume", 4),
];

// Texts that are no line where the nodes 1 to 4 are gatherers and 10 is an orderer.
const MANY_GATHERERS: [(&[u8], usize); 4] = [
    (b"lose 1 after 0", 6),
    (b"lose 2 after 0", 5),
    (b"stop 1 after 0 keep 0", 6),
    (b"lose 12 after 0", 6),
];

// Two replicas of three shards are the nodes 0 to 5, two gatherers 6 and 7, three orderers 8 to 10.
#[test]
fn lines_of_every_kind(rt: HostRuntime) -> Result<(), Fail> {
    let config = Config::new(2, 3, 3, 2)?;
    for (text, fault) in &LINES {
        assert_eq!(rt; read_fault(&config, text), Ok(*fault), "{text:?}");
    }
    one_text_each();
    Ok(())
}

#[test]
fn texts_that_are_no_line(rt: HostRuntime) -> Result<(), Fail> {
    refused(&rt, &Config::new(2, 3, 3, 2)?, &NONE);
    refused(&rt, &Config::new(1, 1, 7, 4)?, &MANY_GATHERERS);
    Ok(())
}

#[test]
fn gatherer_number_begins_another(rt: HostRuntime) -> Result<(), Fail> {
    let config = Config::new(1, 1, 7, 4)?;
    let lose = Fault::Lose {
        node: NodeId(10),
        after: 3,
    };
    assert_eq!(rt; read_fault(&config, b"lose 10 after 3"), Ok(lose));
    Ok(())
}

fn refused(rt: &impl Abort, config: &Config, rows: &[(&[u8], usize)]) {
    for (text, at) in rows {
        let expected = Err(FaultLine { at: *at });
        assert_eq!(rt; read_fault(config, text), expected, "{text:?}");
    }
}
