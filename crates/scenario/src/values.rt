//! Single values.
ghost use Rattle.std.specs.Prelude.{◌≡◌, ◌↔◌, Ok, IfOk, IfErr, IsTrue};
ghost use Rattle.bucket_api.specs.Names.{IsObjectName};
ghost use Rattle.fuse_head.specs.Head.{IsWholeFrame};
ghost use Rattle.serde_json.specs.View.{view};
ghost use Rattle.scenario.specs.Checks.{is_object_name, is_whole_frame};
ghost use Rattle.scenario.specs.Told.{TellsFault};
ghost use Rattle.scenario.specs.Format as format;
ghost use Rattle.scenario.specs.Walks as walk;

use crate::fault::ScenarioFault;
use crate::form::Form;
use bucket_api::allowed;
use fuse_head::whole_frame;
use io_ports::{Bytes, Text};
use serde_json::Value;
use std::alloc::Global;

/// `true` or `false`.
#[derive(Drop)]
pub(crate) struct Flag;

impl Form for Flag {
    ghost use Rattle.std.specs.Prelude.{Bool};
    ghost use Rattle.scenario.specs.Format as format;

    type Part = bool;

    ghost Found = { Bool };

    ghost found = { λ b. b };

    ghost reads = { λ _. format.flag };

    ghost good = { λ _ _. Unit {0} };

    fn read(&self, alloc: Global, value: &Value) -> Result<bool, ScenarioFault> {
        match value.as_bool() {
            Some(flag) => Ok(flag),
            None => Err(ScenarioFault::here(alloc, 4)),
        }
    }
}

/// A whole number from the least to the most.
#[derive(Drop)]
pub(crate) struct Range {
    pub(crate) least: u64,
    pub(crate) most: u64,
}

impl Form for Range {
    ghost use Rattle.std.specs.Prelude.{ℕ, ◌≤◌};
    ghost use Rattle.scenario.specs.Walks as walk;

    type Part = u64;

    ghost Found = { ℕ };

    ghost found = { λ n. n };

    ghost reads = { λ r. walk.number_in r.least r.most };

    ghost good = { λ r n. (r.least ≤ n) × (n ≤ r.most) };

    fn read(&self, alloc: Global, value: &Value) -> Result<u64, ScenarioFault> {
        let Some(number) = value.as_u64() else {
            return Err(ScenarioFault::here(alloc, 4));
        };
        if self.least <= number && number <= self.most {
            return Ok(number);
        }
        Err(ScenarioFault::here(alloc, 5))
    }
}

/// A second that the mount can show.
pub(crate) const SECOND: Range = Range {
    least: 0,
    most: 249_999_999_999,
};

/// One of the texts of a table, each with its meaning.
#[derive(Drop)]
pub(crate) struct Choice<'a, T> {
    pub(crate) rows: &'a [(&'static str, T)],
}

impl<'a, T: Copy> Form for Choice<'a, T> {
    ghost use Rattle.std.specs.Prelude.{map, Contains};
    ghost use Rattle.scenario.specs.Walks as walk;

    type Part = T;

    ghost Found = { T };

    ghost found = { λ x. x };

    ghost reads = { λ c. walk.choice (map (λ row. (row.0.now, row.1)) c.rows.now) };

    ghost good = { λ c x. Contains (map (λ row. row.1) c.rows.now) x };

    fn read(&self, alloc: Global, value: &Value) -> Result<T, ScenarioFault> {
        let word = text(alloc, value)?;
        for (name, meaning) in self.rows {
            if *name == word {
                return Ok(*meaning);
            }
        }
        Err(ScenarioFault::here(alloc, 4))
    }
}

/// A text that may name an object.
#[derive(Drop)]
pub(crate) struct ObjectName;

impl Form for ObjectName {
    ghost use Rattle.std.specs.Prelude.{List, ℕ};
    ghost use Rattle.bucket_api.specs.Names.{IsObjectName};
    ghost use Rattle.scenario.specs.Format as format;

    type Part = Text;

    ghost Found = { List ℕ };

    ghost found = { λ name. name };

    ghost reads = { λ _. format.object_name };

    ghost good = { λ _. IsObjectName };

    fn read(&self, alloc: Global, value: &Value) -> Result<Text, ScenarioFault> {
        let name = text(alloc, value)?;
        if !is_name(name) {
            return Err(ScenarioFault::here(alloc, 7));
        }
        Ok(Text::of(alloc, name)?)
    }
}

/// The content of an object.
#[derive(Drop)]
pub(crate) struct Content;

impl Form for Content {
    ghost use Rattle.std.specs.Prelude.{List, ℕ, ◌≤◌, length};
    ghost use Rattle.bucket_api.specs.Operation.{max_content};
    ghost use Rattle.scenario.specs.Format as format;

    type Part = Bytes;

    ghost Found = { List ℕ };

    ghost found = { λ bytes. bytes };

    ghost reads = { λ _. format.content };

    ghost good = { λ _ bytes. length bytes ≤ max_content };

    fn read(&self, alloc: Global, value: &Value) -> Result<Bytes, ScenarioFault> {
        let bytes = digits(alloc, value)?;
        if bytes.len() > MOST_CONTENT {
            return Err(ScenarioFault::here(alloc, 9));
        }
        Ok(Bytes::from_vec(bytes))
    }
}

/// A whole request frame.
#[derive(Drop)]
pub(crate) struct Frame;

impl Form for Frame {
    ghost use Rattle.std.specs.Prelude.{List, ℕ};
    ghost use Rattle.fuse_head.specs.Head.{IsWholeFrame};
    ghost use Rattle.scenario.specs.Format as format;

    type Part = Bytes;

    ghost Found = { List ℕ };

    ghost found = { λ bytes. bytes };

    ghost reads = { λ _. format.frame };

    ghost good = { λ _. IsWholeFrame };

    fn read(&self, alloc: Global, value: &Value) -> Result<Bytes, ScenarioFault> {
        let bytes = digits(alloc, value)?;
        if !is_frame(bytes.as_slice()) {
            return Err(ScenarioFault::here(alloc, 14));
        }
        Ok(Bytes::from_vec(bytes))
    }
}

/// Whether the text may name an object.
fn is_name(name: &str) -> bool
    ensures value { result ≡ is_object_name name.now }
    ensures is { IsTrue result ↔ IsObjectName name.now }
{
    allowed(name)
}

/// Whether the bytes are one whole request frame.
fn is_frame(bytes: &[u8]) -> bool
    ensures value { result ≡ is_whole_frame bytes.now }
    ensures is { IsTrue result ↔ IsWholeFrame bytes.now }
{
    whole_frame(bytes)
}

/// The most bytes of a content.
const MOST_CONTENT: usize = 16_777_216;

/// A text.
pub(crate) fn text<'v>(alloc: Global, value: &'v Value) -> Result<&'v str, ScenarioFault>
    ensures ok { IfOk result (λ t. walk.text (view value.now) ≡ Ok t.now) }
    ensures err { IfErr result (λ e. TellsFault e (walk.text (view value.now))) }
{
    match value.as_str() {
        Some(text) => Ok(text),
        None => Err(ScenarioFault::here(alloc, 4)),
    }
}

/// The bytes that a text of hexadecimal digits has.
fn digits(alloc: Global, value: &Value) -> Result<Vec<u8>, ScenarioFault>
    ensures ok { IfOk result (λ bytes. format.digits (view value.now) ≡ Ok bytes.items) }
    ensures err { IfErr result (λ e. TellsFault e (format.digits (view value.now))) }
{
    let word = text(alloc, value)?;
    match hex::decode(alloc, word) {
        Ok(bytes) => Ok(bytes),
        Err(hex::FromHexError::OutOfMemory) => Err(ScenarioFault::NoMemory),
        Err(_) => Err(ScenarioFault::here(alloc, 6)),
    }
}
