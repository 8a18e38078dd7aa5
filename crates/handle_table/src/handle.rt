//! An open handle.
use io_ports::Row;
use object_names::DirItem;
use std::marker::Model;

/// An open file or directory. Contracts see the node and the entries.
#[derive(Debug, Drop)]
pub struct Handle {
    /// The node that is open.
    pub node: u64,
    /// The entries of a directory as they were when it was opened; none for a file.
    pub items: Option<Row<DirItem>>,
}

impl Model for Handle {
    ghost use Rattle.std.specs.Option.{option_map};
    ghost use Rattle.handle_table.specs.Handles.{Opened, opened_code};

    ghost Value = { Opened };

    ghost coded = { opened_code };

    ghost view = { λ h. record { node = h.node; items = option_map (λ row. row.items) h.items } };
}
