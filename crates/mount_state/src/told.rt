//! What a request was told by its bucket.
ghost use Rattle.std.specs.Prelude.{◌≡◌, ◌≤◌, ◌-◌, ◌++◌, ◌∷◌, [], OnOk};
ghost use Rattle.mount_rules.specs.Plans.{answers_of, last_moment};
ghost use Rattle.mount_state.specs.Telling.{told_by};

use bucket_api::Answer;
use io_ports::{NoMemory, Row};
use std::alloc::Global;
use std::marker::Model;

/// What a request was told by its bucket: the answers, in order, and the moment of the last one. What a request comes to is
/// told by these alone, since its plan asked the operations that were answered so; so no operation is kept. Contracts see
/// it as observations, all at the moment of the last, of which the operations are no matter; and for how many more answers
/// there is room.
#[derive(Drop)]
pub struct Told {
    answers: Row<Answer>,
    moment: u64,
}

impl Model for Told {
    ghost use Rattle.mount_state.specs.Telling.{told_by, ToldList, IsTold};

    ghost Value = { ToldList };

    ghost view = { λ t. record { items = told_by t.answers.items t.moment; spare = t.answers.spare } };

    ghost invariant = { λ t. IsTold t.answers.items t.moment };
}

impl Told {
    /// Nothing was told yet, and there is no room. It takes no memory.
    pub fn new(alloc: Global) -> Told
        ensures { result ≡ record { items = []; spare = 0 } }
    {
        Told {
            answers: Row::new(alloc),
            moment: 0,
        }
    }

    /// Makes room for one answer more. `NoMemory` where memory for it was refused.
    pub fn reserve(&mut self) -> Result<(), NoMemory>
        ensures ok { OnOk result (1 ≤ self.new.spare) }
        ensures kept { self.new ≡ record self.old { spare = self.new.spare } }
    {
        self.answers.reserve(1)
    }

    /// Puts an answer behind the others, with its moment, into the room: no memory is asked for.
    pub fn push(&mut self, moment: u64, answer: Answer)
        requires { 1 ≤ self.old.spare }
        ensures { self.new ≡ record { items = told_by (answers_of self.old.items ++ answer ∷ []) moment; spare = self.old.spare - 1 } }
    {
        self.answers.push(answer);
        self.moment = moment;
    }

    /// The answers, in order.
    pub fn answers(&self) -> &[Answer]
        ensures { result.now ≡ answers_of self.now.items }
    {
        self.answers.as_slice()
    }

    /// The moment of the last answer, 0 where there is none.
    pub(crate) fn moment(&self) -> u64
        ensures { result ≡ last_moment self.now.items }
    {
        self.moment
    }

    /// The answers, in order: no memory is asked for.
    pub(crate) fn into_answers(self) -> Row<Answer>
        ensures { result.items ≡ answers_of self.items }
    {
        let Told { answers, moment: _ } = self;
        answers
    }
}
