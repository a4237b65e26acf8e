//! What holds of every spelling.

ghost use Rattle.reply_frame.specs.Laws.{OneReply, OneReplyFrame};

/// No spelling of a reply begins another; nor does the frame of a reply.
pub fn one_reply_spelling()
    ensures reply { OneReply }
    ensures frame { OneReplyFrame }
{}
