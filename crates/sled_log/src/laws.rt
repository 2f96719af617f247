//! Theorems about the definitions that the contract of a log cites.

ghost use Rattle.std.specs.Prelude.{◌≡◌, List, map};
ghost use Rattle.sled_log.specs.Chains.{chains_after};
ghost use Rattle.sled_log.specs.Contents.{Content, Update, contents_after, effect_of_update, content_of};
ghost use Rattle.sled_log.specs.Events.{Event};
ghost use Rattle.sled_log.specs.Messages.{Message, Entry, Messages, effect_of, effect_of_entry};
ghost use Rattle.sled_log.specs.Reading.{IsUpdate, Makes, AreEvents, Hold, AreLeft};
ghost use Rattle.sled_log.specs.LogState.{LogState, Adds, IsLeft, unplaced_state};
ghost use Rattle.sled_log.specs.Reading.{message_of, CanWrite};
ghost use Rattle.sled_log.specs.Messages.{unplaced_events};

/// Proves that folding chains and folding contents agree: the contents of the chains after some events are the contents of the
/// chains before them, changed by the same events.
pub fn chains_fold_to_contents()
    ensures { (chains : List (List Update)) (events : List (Event Update))
        → map content_of (chains_after effect_of_update chains events)
        ≡ contents_after (map content_of chains) events }
{}

/// Proves that a message is at most one change of its page: its payload does not decode to two.
pub fn a_message_is_one_change()
    ensures { (message : Message) (u v : Update) → IsUpdate message u → IsUpdate message v → u ≡ v }
{}

/// Proves that a change within the limits is decoded from the message that encodes it.
pub fn what_was_written_is_read()
    ensures { (update : Update) → CanWrite update → IsUpdate (message_of update) update }
{}

/// Proves that the messages of a page make at most one content.
pub fn a_page_holds_one_content()
    ensures { (messages : Messages) (c d : Content) → Makes messages c → Makes messages d → c ≡ d }
{}

/// Proves that pages which hold some contents hold, after more messages, these contents after the changes that the messages are.
pub fn messages_change_contents()
    ensures { (pages : List Messages) (contents : List Content) (messages : List (Event Message))
        (events : List (Event Update))
        → Hold pages contents
        → AreEvents contents messages events
        → Hold (chains_after effect_of pages messages) (contents_after contents events) }
{}

/// Proves that a log adds the same events if the places of the messages are left out.
pub fn places_are_forgotten()
    ensures { (old new : LogState Entry) (events : List (Event Entry))
        → Adds effect_of_entry old events new
        → Adds effect_of (unplaced_state old) (unplaced_events events) (unplaced_state new) }
{}

/// Proves what the pages of a crash state hold: the durable contents, changed by a prefix of the pending changes and of those
/// that had begun. That prefix splits no batch, except a cancelled one.
pub fn crashes_leave_contents()
    ensures { (old : LogState Message) (begun : List (Event Message)) (pages : List Messages)
        (stable : List Content) (pending events : List (Event Update))
        → Hold old.stable stable
        → AreEvents stable old.pending pending
        → AreEvents (contents_after stable pending) begun events
        → IsLeft effect_of old begun pages
        → AreLeft stable pending events pages }
{}
