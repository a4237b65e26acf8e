//! What holds of every spelling. Each function does nothing: its contract is the law.

ghost use Rattle.history_frame.specs.Laws.{IsSized, OneFrame, OneEvent, OneKept, OneHead};
ghost use Rattle.history_frame.specs.Merging.{OneOrder};

/// The size of an event is that of its frame, at whatever place and node.
pub fn event_sized()
    ensures { IsSized }
{}

/// No frame begins another, and each has one meaning.
pub fn one_history()
    ensures frame { OneFrame }
    ensures event { OneEvent }
    ensures kept { OneKept }
    ensures head { OneHead }
{}

/// The events of lists have one order.
pub fn one_order()
    ensures { OneOrder }
{}
