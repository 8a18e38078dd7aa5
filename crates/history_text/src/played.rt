//! What was played.
use bucket_api::Event;
use bucket_plain::Plain;
use io_ports::{Bytes, Row};
use mount_model::{CallId, JournalEntry};
use std::marker::Model;

/// A history that was played. Clauses see it as plain data, its rows as their lists.
#[derive(Drop)]
pub struct Played {
    /// The reply frame of each call; one of no bytes where the call got no reply.
    pub replies: Row<Bytes>,
    /// The calls, one for each reply.
    pub calls: Row<CallId>,
    /// The bucket as it was last.
    pub bucket: Plain,
    /// All operations on the bucket, in order.
    pub log: Row<Event>,
    /// The mount's journal.
    pub journal: Row<JournalEntry>,
}

impl Model for Played {
    ghost use Rattle.history_text.specs.HistoryText.{History};

    ghost Value = { History };

    ghost use Rattle.mount_model.specs.Journal.{entries};

    ghost view = { λ p. record { replies = p.replies.items; calls = p.calls.items; bucket = p.bucket; log = p.log.items; journal = entries p.journal.items } };
}
