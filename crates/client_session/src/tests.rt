//! A session, drawn to its end, and positions noted out of order.

use crate::*;
use log_base::{Client, NodeId, Number, Position};

#[test]
fn numbers_rise_to_the_last_draw(rt: HostRuntime) {
    let mut session = Session::new(Client(3), 2);
    assert_eq!(rt; session.last(), None);
    let first = session.draw(NodeId(7));
    let want = Pair {
        client: Client(3),
        number: Number(8_589_934_592),
        node: NodeId(7),
    };
    assert_eq!(rt; first, want);
    assert!(rt; session.may_resubmit(&first));
    let mut last = first;
    for drawn in 1..65_536_u64 {
        last = session.draw(NodeId(1));
        assert_eq!(rt; last.number, Number(8_589_934_592 + drawn));
    }
    assert_eq!(rt; session.last(), Some(last));
    assert!(rt; session.may_resubmit(&last));
    assert!(rt; !session.may_resubmit(&first));
    numbers_differ();
}

#[test]
fn the_greatest_position_stays(rt: HostRuntime) {
    let mut session = Session::new(Client(0), 1_000_000);
    assert_eq!(rt; session.greatest(), None);
    for (noted, greatest) in [(5, 5), (2, 5), (9, 9), (9, 9), (0, 9)] {
        session.note(Position(noted));
        assert_eq!(rt; session.greatest(), Some(Position(greatest)), "{noted}");
    }
    greatest_is_noted();
}
