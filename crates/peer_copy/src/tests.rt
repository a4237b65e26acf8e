//! The spans of one replica of a shard of three.

use crate::*;
use log_base::{Config, Replica};
use std::test::Fail;

#[test]
fn copies_are_taken_in_order(rt: HostRuntime) {
    assert_eq!(rt; take(3, 2), Taking::Gap);
    assert_eq!(rt; take(2, 2), Taking::Put);
    assert_eq!(rt; take(1, 2), Taking::Have);
    note_opens_the_rest();
    offsets_within();
}

// The peer holds five entries of seven, then says three, five and six.
#[test]
fn the_window_follows_what_is_held(rt: HostRuntime) -> Result<(), Fail> {
    let config = Config::new(3, 1, 1, 1)?;
    let mut state = CopyState::new(&config, Replica(1));
    let peer = Replica(2);
    assert_eq!(rt; state.window(peer, 2), Span { from: 0, to: 2 });
    assert_eq!(rt; state.window(peer, 7), Span { from: 0, to: 4 });
    let table = [
        (5, 5, Span { from: 5, to: 7 }),
        (3, 5, Span { from: 5, to: 5 }),
        (5, 5, Span { from: 5, to: 5 }),
        (6, 6, Span { from: 9, to: 7 }),
    ];
    for (held, acked, span) in table {
        assert_eq!(rt; state.note(peer, held, 7), span, "{held}");
        assert_eq!(rt; state.acked(peer), acked, "{held}");
    }
    assert_eq!(rt; state.window(peer, 7), Span { from: 6, to: 7 });
    state.reset();
    assert_eq!(rt; state.acked(peer), 0);
    Ok(())
}
