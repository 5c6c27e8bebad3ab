//! What a framer and an adapter owe to an editor, in the protocol's own words.

ghost use Rattle.dap_link.specs.Laws.{FirstIsOne, MoreIsBehind, PiecesAreOneText};
ghost use Rattle.dap_link.specs.Answers.{AnsweredInOrder, ConversationIsOne, FailedChangeNothing, FramedAreMessages, OthersSayNothing};

/// The law of frames: what is first in a text is one thing; more bytes behind it do not change it; and however a text is cut into pieces,
/// the messages that are taken off the pieces are those of the whole text. Computes nothing.
pub fn pieces_are_one_text()
    ensures one { FirstIsOne }
    ensures more { MoreIsBehind }
    ensures pieces { PiecesAreOneText }
{}

/// The law of a conversation: each message that is framed is answered, in order and once, by a response and at most one event behind one that
/// did not fail, up to the `disconnect`; the numbers of what is written rise by one; and other bytes say nothing. Computes nothing.
pub fn messages_are_answered_in_order()
    ensures order { AnsweredInOrder }
    ensures framed { FramedAreMessages }
    ensures others { OthersSayNothing }
{}

/// The law that a command that fails leaves all as it was, the breakpoints too, but for the count of requests; and nothing happens. Computes
/// nothing.
pub fn what_fails_changes_nothing()
    ensures { FailedChangeNothing }
{}

/// The law that a text has one conversation: where its messages are taken off up to the last of them, what is written is one text. Computes
/// nothing.
pub fn a_conversation_is_one()
    ensures { ConversationIsOne }
{}
