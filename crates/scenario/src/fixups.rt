//! The fixups of a call.
ghost use Rattle.std.specs.Prelude.{◌≡◌, ◌≤◌, ◌&&◌};
ghost use Rattle.scenario.specs.Checks.{is_earlier, has_room};

use crate::call::Fix;
use crate::fault::ScenarioFault;
use crate::form::Form;
use crate::items::{items, take_all};
use crate::listed::Listed;
use crate::members::{MUST, Member, needed, object};
use crate::spot::Spot;
use crate::values::{Choice, Range};
use io_ports::Row;
use mount_model::CallId;
use serde_json::Value;
use std::alloc::Global;

const MEMBERS: [Member; 4] = [("at", MUST), ("lane", MUST), ("call", MUST), ("take", MUST)];

const TAKES: [(&str, bool); 2] = [("node", false), ("fh", true)];

/// A place behind a frame's length, where 8 bytes still end in the longest frame.
const PLACE: Range = Range {
    least: 4,
    most: 135_160,
};

const LANE: Range = Range {
    least: 1,
    most: 4_294_967_295,
};

const CALL: Range = Range {
    least: 1,
    most: 65_536,
};

/// A fixup of the call of this index, whose frame has this length.
#[derive(Drop)]
pub(crate) struct Fixup<'a> {
    pub(crate) spot: &'a Spot<'a>,
    pub(crate) index: u64,
    pub(crate) size: u64,
}

impl<'a> Form for Fixup<'a> {
    ghost use Rattle.scenario.specs.declared.call.Fix.{Fix};
    ghost use Rattle.scenario.specs.Lawful.{IsFix};
    ghost use Rattle.scenario.specs.Format as format;

    type Part = Fix;

    ghost Found = { Fix };

    ghost found = { λ fix. fix };

    ghost reads = { λ f. format.fixup f.spot.now f.index f.size };

    ghost good = { λ f. IsFix f.spot.now f.index f.size };

    fn read(&self, alloc: Global, value: &Value) -> Result<Fix, ScenarioFault> {
        object(alloc, value, &MEMBERS)?;
        let at = needed(alloc, value, "at", &PLACE)?;
        let lane = needed(alloc, value, "lane", &LANE)?;
        let index = needed(alloc, value, "call", &CALL)?;
        let handle = needed(alloc, value, "take", &Choice { rows: &TAKES })?;
        if !self.may_be(at, lane, index) {
            return Err(ScenarioFault::here(alloc, 13));
        }
        let call = CallId { lane, index };
        Ok(Fix { at, call, handle })
    }
}

impl<'a> Fixup<'a> {
    /// Whether the named call is earlier, and the 8 bytes lie in the frame.
    fn may_be(&self, at: u64, lane: u64, index: u64) -> bool
        requires { at ≤ 135160 }
        ensures { result ≡ (is_earlier self.now.spot.now self.now.index lane index && has_room at self.now.size) }
    {
        self.spot.is_earlier(self.index, lane, index) && at + 8 <= self.size
    }
}

/// The fixups of a call.
#[derive(Drop)]
pub(crate) struct Fixups<'a> {
    pub(crate) each: Fixup<'a>,
}

impl<'a> Form for Fixups<'a> {
    ghost use Rattle.std.specs.Prelude.{List, All};
    ghost use Rattle.scenario.specs.declared.call.Fix.{Fix};
    ghost use Rattle.scenario.specs.Lawful.{IsFix};
    ghost use Rattle.scenario.specs.Format as format;

    type Part = Row<Fix>;

    ghost Found = { List Fix };

    ghost found = { λ fixes. fixes.items };

    ghost reads = { λ f. format.fixups f.each.spot.now f.each.index f.each.size };

    ghost good = { λ f. All (IsFix f.each.spot.now f.each.index f.each.size) };

    fn read(&self, alloc: Global, value: &Value) -> Result<Row<Fix>, ScenarioFault> {
        let found = items(alloc, value)?;
        let mut fixes = Listed {
            form: &self.each,
            parts: Vec::new(alloc),
        };
        take_all(alloc, found, &mut fixes)?;
        Ok(Row::from_vec(fixes.parts))
    }
}
