//! How many claims are on each node and on each name.
ghost use Rattle.std.specs.Prelude.{◌≡◌, ◌≤◌, ◌<◌, ◌+◌, ◌^◌, ◌==◌, ℕ, OnOk, OnErr, All, length, count_by, if◌then◌else◌};
ghost use Rattle.std.specs.FinMap as fin;
ghost use Rattle.std.specs.List.{list_any};
ghost use Rattle.claims.specs.HeldClaims.{Fits, is_name, is_named};
ghost use Rattle.claims.specs.TallyWords.{no_tally, one_tally, plus, less, tally_conflict};
ghost use Rattle.claims.specs.Tallies.{tally_at, tally_in, tally_by, tally_of};

use crate::name_tallies::NameTallies;
use crate::tally::Tally;
use claim_spec::{Claim, ClaimKey};
use io_ports::NoMemory;
use spare_maps::NumberMap;
use std::alloc::Global;

/// How many claims are on each key that is claimed.
#[derive(Drop)]
pub struct Tallies {
    pub nodes: NumberMap<Tally>,
    pub names: NameTallies,
}

impl Tallies {
    /// No claims, and no room.
    pub fn new(alloc: Global) -> Tallies
        ensures nodes { result.nodes.map ≡ fin.empty }
        ensures node_room { result.nodes.spare ≡ 0 }
        ensures names { result.names.map ≡ fin.empty }
        ensures name_room { result.names.spare ≡ 0 }
    {
        Tallies {
            nodes: NumberMap::new(alloc),
            names: NameTallies::new(alloc),
        }
    }

    /// Whether one of the claims conflicts with those that are tallied.
    pub fn conflict_with(&self, wanted: &[Claim]) -> bool
        ensures { result ≡ list_any (λ claim. tally_conflict (tally_at self.now.nodes.map self.now.names.map claim.key) claim.exclusive) wanted.now }
    {
        wanted
            .iter()
            .any(|claim| self.tally(&claim.key).conflicts(claim.exclusive))
    }

    /// The tally of a key.
    fn tally(&self, key: &ClaimKey) -> Tally
        ensures { result ≡ tally_at self.now.nodes.map self.now.names.map key.now }
    {
        match key {
            ClaimKey::Node(number) => self.nodes.get(*number).copied().unwrap_or(Tally::NONE),
            ClaimKey::Name(name) => self.names.tally(name.as_str()),
        }
    }

    /// One more claim.
    fn add(&mut self, claim: &Claim)
        requires nodes { 1 ≤ self.old.nodes.spare }
        requires names { (if is_named claim.now then 1 else 0) ≤ self.old.names.spare }
        requires fits { Fits claim.now.key }
        requires claims { (tally_at self.old.nodes.map self.old.names.map claim.now.key).claims < 2 ^ 63 }
        requires exclusive { (tally_at self.old.nodes.map self.old.names.map claim.now.key).exclusive < 2 ^ 63 }
        ensures tallies { (key : ClaimKey) → tally_at self.new.nodes.map self.new.names.map key ≡ plus (tally_at self.old.nodes.map self.old.names.map key) (tally_by key claim.now) }
        ensures node_room { self.old.nodes.spare ≤ self.new.nodes.spare + 1 }
        ensures name_room { self.old.names.spare ≤ self.new.names.spare + (if is_named claim.now then 1 else 0) }
    {
        match &claim.key {
            ClaimKey::Node(number) => add_node(&mut self.nodes, *number, claim.exclusive),
            ClaimKey::Name(name) => self.names.add(name.as_str(), claim.exclusive),
        }
    }

    /// One claim less.
    fn take_away(&mut self, claim: &Claim)
        ensures tallies { (key : ClaimKey) → tally_at self.new.nodes.map self.new.names.map key ≡ less (tally_at self.old.nodes.map self.old.names.map key) (tally_by key claim.now) }
        ensures node_room { self.new.nodes.spare ≡ self.old.nodes.spare }
        ensures name_room { self.new.names.spare ≡ self.old.names.spare }
    {
        match &claim.key {
            ClaimKey::Node(number) => take_node_away(&mut self.nodes, *number, claim.exclusive),
            ClaimKey::Name(name) => self.names.take_away(name.as_str(), claim.exclusive),
        }
    }

    /// The claims of a call more.
    pub fn add_all(&mut self, wanted: &[Claim])
        requires nodes { length wanted.now ≤ self.old.nodes.spare }
        requires names { count_by is_named wanted.now ≤ self.old.names.spare }
        requires fits { All (λ claim. Fits claim.key) wanted.now }
        requires claims { (key : ClaimKey) → (tally_at self.old.nodes.map self.old.names.map key).claims + length wanted.now < 2 ^ 63 }
        requires exclusive { (key : ClaimKey) → (tally_at self.old.nodes.map self.old.names.map key).exclusive + length wanted.now < 2 ^ 63 }
        ensures tallies { (key : ClaimKey) → tally_at self.new.nodes.map self.new.names.map key ≡ plus (tally_at self.old.nodes.map self.old.names.map key) (tally_of key wanted.now) }
        ensures node_room { self.old.nodes.spare ≤ self.new.nodes.spare + length wanted.now }
        ensures name_room { self.old.names.spare ≤ self.new.names.spare + count_by is_named wanted.now }
    {
        for claim in wanted {
            self.add(claim);
        }
    }

    /// The claims of a call less.
    pub fn take_all_away(&mut self, claims: &[Claim])
        ensures tallies { (key : ClaimKey) → tally_at self.new.nodes.map self.new.names.map key ≡ less (tally_at self.old.nodes.map self.old.names.map key) (tally_of key claims.now) }
        ensures node_room { self.new.nodes.spare ≡ self.old.nodes.spare }
        ensures name_room { self.new.names.spare ≡ self.old.names.spare }
    {
        for claim in claims {
            self.take_away(claim);
        }
    }
}

/// One more claim on a node.
fn add_node(nodes: &mut NumberMap<Tally>, number: u64, exclusive: bool)
    requires spare { 1 ≤ nodes.old.spare }
    requires claims { (tally_in nodes.old.map number).claims < 2 ^ 63 }
    requires exclusive { (tally_in nodes.old.map number).exclusive < 2 ^ 63 }
    ensures tallies { (q : ℕ) → tally_in nodes.new.map q ≡ plus (tally_in nodes.old.map q) (if q == number then one_tally exclusive else no_tally) }
    ensures spare { nodes.old.spare ≤ nodes.new.spare + 1 }
{
    let tally = nodes.get(number).copied().unwrap_or(Tally::NONE);
    nodes.put(number, tally.with(exclusive));
}

/// One claim less on a node. A node that has none left is taken away.
fn take_node_away(nodes: &mut NumberMap<Tally>, number: u64, exclusive: bool)
    ensures tallies { (q : ℕ) → tally_in nodes.new.map q ≡ less (tally_in nodes.old.map q) (if q == number then one_tally exclusive else no_tally) }
    ensures spare { nodes.new.spare ≡ nodes.old.spare }
{
    let Some(tally) = nodes.get(number).copied() else {
        return;
    };
    let rest = tally.without(exclusive);
    if rest.is_none() {
        nodes.remove(number);
        return;
    }
    *nodes.value_mut(number) = rest;
}
