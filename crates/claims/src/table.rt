//! The table of the claims that calls hold.
ghost use Rattle.std.specs.Prelude.{◌≡◌, ◌↔◌, false, IsTrue, IsSome, OnOk, OnErr, IfOk, IfErr, IsErr};
ghost use Rattle.std.specs.FinMap as fin;
ghost use Rattle.claims.specs.HeldClaims.{HasRoom, IsReserved, HasAsMuchRoom, IsTable, Adds, no_claims, dropped, any_conflict_held};

use crate::tallies::Tallies;
use claim_spec::Claim;
use io_ports::{NoMemory, Row};
use spare_maps::NumberMap;
use std::alloc::Global;
use std::marker::Model;

/// What a call asked for, kept until it is done.
#[derive(Drop)]
struct Call {
    wanted: Row<Claim>,
}

impl Model for Call {
    ghost use Rattle.std.specs.Prelude.{List};
    ghost use Rattle.std.specs.Coded.{coded_list};
    ghost use Rattle.claim_spec.specs.declared.claim.Claim.{Claim};
    ghost use Rattle.claims.specs.ClaimCode.{claim_code};

    ghost Value = { List Claim };

    ghost coded = { coded_list claim_code };

    ghost view = { λ c. c.wanted.items };
}

/// The claims that calls hold, by call and by key. A call claims all that it wants, or nothing. Contracts see the claims
/// by the calls' numbers; the next number; and for how many more calls, claims on nodes and claims on names there is
/// room. To try a call takes one look-up for each claim that it wants, however many are held; to drop it takes one for
/// each of its own.
#[derive(Drop)]
pub struct Claims {
    calls: NumberMap<Call>,
    tallies: Tallies,
    next: u64,
}

impl Model for Claims {
    ghost use Rattle.claims.specs.HeldClaims.{HeldClaims, held_claims_code};
    ghost use Rattle.claims.specs.TalliedTable.{IsTallied};

    ghost Value = { HeldClaims };

    ghost coded = { held_claims_code };

    ghost view = { λ t. record { held = t.calls.map; next = t.next; calls = t.calls.spare; nodes = t.tallies.nodes.spare; names = t.tallies.names.spare } };

    ghost invariant = { λ t. IsTallied t.calls.map t.tallies.nodes.map t.tallies.names.map t.next };
}

impl Claims {
    /// The most claims on names for which one `reserve` makes room.
    pub const MOST_NAMES: u64 = 64;

    /// A table without claims and without room.
    pub fn new(alloc: Global) -> Claims
        ensures ok { result ≡ no_claims }
    {
        Claims {
            calls: NumberMap::new(alloc),
            tallies: Tallies::new(alloc),
            next: 0,
        }
    }

    /// Makes room: afterwards the table takes at least `more` further calls and `more` further claims, of which at least
    /// 64 may be on names, or all of them where they are fewer, and never fewer than before. `NoMemory` where memory for
    /// them was refused, which comes only where there is less room than that.
    pub fn reserve(&mut self, more: u64) -> Result<(), NoMemory>
        ensures ok { OnOk result (IsReserved self.new more) }
        ensures full { OnErr result (¬ IsReserved self.old more) }
        ensures spare { HasAsMuchRoom self.old self.new }
        ensures kept { self.new ≡ record self.old { calls = self.new.calls; nodes = self.new.nodes; names = self.new.names } }
    {
        self.calls.reserve(more)?;
        self.tallies.nodes.reserve(more)?;
        self.tallies.names.reserve(more.min(Claims::MOST_NAMES))?;
        Ok(())
    }

    /// Claims all that is wanted, unless one of the wanted claims conflicts with one that is held; then it gives them
    /// back, and nothing changes. A key that is wanted twice counts once, exclusive where either is. Answers the number
    /// by which the claims are dropped. No memory is asked for.
    pub fn try_claim(&mut self, wanted: Row<Claim>) -> Result<u64, Row<Claim>>
        requires { HasRoom self.old wanted.items }
        ensures refused { IsErr result ↔ IsTrue (any_conflict_held self.old wanted.items) }
        ensures ok { IfOk result (λ number. (number ≡ self.old.next) × Adds self.old self.new wanted.items) }
        ensures err { IfErr result (λ back. (back ≡ wanted) × (self.new ≡ self.old)) }
        ensures apart { IsTable self.new.held self.new.next }
    {
        if self.conflicts(wanted.as_slice()) {
            return Err(wanted);
        }
        Ok(self.hold(wanted))
    }

    /// Whether one of the claims conflicts with one that is held.
    fn conflicts(&self, wanted: &[Claim]) -> bool
        ensures ok { result ≡ any_conflict_held self.now wanted.now }
        ensures apart { IsTable self.now.held self.now.next }
    {
        self.tallies.conflict_with(wanted)
    }

    /// Keeps what a call wants, which conflicts with nothing that is held.
    fn hold(&mut self, wanted: Row<Claim>) -> u64
        requires room { HasRoom self.old wanted.items }
        requires free { any_conflict_held self.old wanted.items ≡ false }
        ensures number { result ≡ self.old.next }
        ensures table { Adds self.old self.new wanted.items }
        ensures apart { IsTable self.new.held self.new.next }
    {
        let number = self.next;
        self.next += wanted.len() + 1;
        self.tallies.add_all(wanted.as_slice());
        self.calls.put(number, Call { wanted });
        number
    }

    /// Drops the claims of a call that holds some. No memory is asked for.
    pub fn drop_claim(&mut self, number: u64)
        requires { IsSome (fin.get self.old.held number) }
        ensures ok { self.new ≡ dropped self.old number }
        ensures apart { IsTable self.new.held self.new.next }
    {
        let call = self.calls.remove(number).unwrap();
        self.tallies.take_all_away(call.wanted.as_slice());
    }
}
