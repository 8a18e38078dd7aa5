//! A page of a listing.
use crate::objects::Meta;
use io_ports::{Row, Text};
use std::marker::Model;

/// One page of a listing. Clauses see it as plain data, its rows as their lists.
#[derive(Drop)]
pub struct Page {
    /// What is told of each object whose whole name is a key of the page, by rising names.
    pub items: Row<Meta>,
    /// The keys that end at a slash after the prefix, rising. Each stands for all names that begin with it.
    pub prefixes: Row<Text>,
    /// The page's last key where more keys follow it, to be asked for as `after`.
    pub next: Option<Text>,
}

impl Model for Page {
    ghost use Rattle.bucket_api.specs.PageData.{PageData};

    ghost Value = { PageData };

    ghost view = { λ p. record { items = p.items.items; prefixes = p.prefixes.items; next = p.next } };
}
