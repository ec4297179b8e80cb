//! The methods of a book over any desk: where the desk is sound, its state is what the trail leads to from the base.
ghost use Rattle.std.specs.Prelude.{◌≡◌, ◌+◌, ◌<◌, ◌≤◌, [], ◌∷◌, ◌++◌, Ok, IfOk, IfErr, OnOk, OnErr};
ghost use Rattle.adr_text.specs.Refusals.{IsRefusalOf};
ghost use Rattle.adr_queries.specs.Listed.{IsListed};
ghost use Rattle.adr_book.specs.Trail.{LeadsTo};
ghost use Rattle.adr_book.specs.Words.{base_of, since_of, trail_of, turn_of, state_of, settings_of, IsSound, IsKept, seen_by, taken_by};
ghost use Rattle.adr_book.specs.Same.{IsSame, IsUntouched};
ghost use Rattle.adr_book.specs.Receipts.{receipt_of, IsOf, Confirms};
ghost use Rattle.adr_book.specs.Refused.{MayRefuse, MayRefuseQuery};
ghost use Rattle.adr_book.specs.Entry.{is_full, entry_to_ask, entry_to_step, step_in, reply_in, EndsAfter};

use crate::kept::{Book, MOST_TURNS, Pass, Receipt};
use crate::trail::Trail;
use adr_machine::{Answer, Command, Desk, Query, Settings};
use adr_text::{Moment, Refusal};
use std::alloc::Global;
use std::sync::ledger::{Blank, Ledger, Share};

impl<L: Ledger> Pass<L> {
    /// The last turn that its holder was told of.
    pub fn turn(&self) -> u64
        ensures { result ≡ seen_by self.now }
    {
        self.turn
    }
}

impl<D: Desk, T: Trail<D>, L: Ledger> Book<D, T, L> {
    /// What a book keeps whenever nobody holds it.
    pub fn is_kept(&self)
        ensures { IsKept self.now }
    {}

    /// Who has the base and the trail can take the trail by the machine, and comes to the book's state with the answers
    /// that `replay` gives.
    pub fn is_replayed(&self)
        ensures { IsSound self.now → LeadsTo (settings_of self.now) (base_of self.now) (trail_of self.now) (state_of self.now) }
    {}

    /// What the desk is set to.
    pub fn settings(&self) -> &Settings
        ensures { result.now ≡ settings_of self.now }
    {
        self.desk.settings()
    }

    /// How many commands were accepted since the book was opened.
    pub fn turn(&self) -> u64
        ensures { result ≡ turn_of self.now }
    {
        self.turn
    }

    /// Whether it takes no command more.
    fn is_full(&self) -> bool
        ensures { result ≡ is_full self.now }
    {
        let limit = self.settings().limits.trail.get();
        self.trail.is_full(limit) || MOST_TURNS <= self.turn
    }

    /// Whether who comes with the pass may ask: nobody was told of a later turn than the book's.
    fn admit(&self, pass: &Pass<L>) -> Result<(), Refusal>
        ensures { result ≡ entry_to_ask self.now pass.now }
    {
        if self.turn < pass.turn {
            return Err(Refusal::Stale(pass.turn));
        }
        Ok(())
    }

    /// Whether who comes with the pass may take a step.
    fn admit_step(&self, pass: &Pass<L>) -> Result<(), Refusal>
        ensures { result ≡ entry_to_step self.now pass.now }
    {
        self.admit(pass)?;
        if self.is_full() {
            return Err(Refusal::TrailFull);
        }
        Ok(())
    }

    /// Takes one step, and answers it. An accepted command takes one turn, and is copied where the trail keeps it.
    pub fn take(
        &mut self,
        pass: &mut Pass<L>,
        now: Moment,
        command: &Command,
    ) -> Result<Answer, Refusal>
        ensures machine { IfOk result (λ answer. IsSound self.new → step_in self.old pass.old now command.now ≡ Ok (answer, state_of self.new)) }
        ensures trail { OnOk result (trail_of self.new ≡ trail_of self.old ++ (now, command.now) ∷ []) }
        ensures base { OnOk result ((base_of self.new ≡ base_of self.old) × (since_of self.new ≡ since_of self.old)) }
        ensures turn { OnOk result (turn_of self.new ≡ turn_of self.old + 1) }
        ensures share { OnOk result (taken_by pass.new ≡ taken_by pass.old + 1) }
        ensures seen { OnOk result ((seen_by pass.new ≡ turn_of self.new) × (seen_by pass.old < turn_of self.new)) }
        ensures refused { IfErr result (λ refusal. IsSound self.new → IsRefusalOf refusal (step_in self.old pass.old now command.now)) }
        ensures entry { EndsAfter (entry_to_step self.old pass.old) result }
        ensures listed { IfErr result (MayRefuse D.may_refuse (seen_by pass.old) command.now) }
        ensures unchanged { OnErr result (IsSame self.old self.new × (pass.new ≡ pass.old)) }
        ensures placed { IfOk result (λ answer. IsSound self.new → IsOf self.new (receipt_of (turn_of self.new) command.now answer)) }
        ensures confirms { IsSound self.new → Confirms self.old self.new }
        ensures same_settings { settings_of self.new ≡ settings_of self.old }
        ensures was_sound { IsSound self.new → IsSound self.old }
    {
        self.admit_step(pass)?;
        let Book {
            trail,
            turn,
            desk,
            total,
        } = self;
        let copy = trail.ready(command)?;
        let answer = desk.apply(now, command)?;
        trail.note(now, command, copy);
        *turn += 1;
        pass.turn = *turn;
        total.add(&mut pass.share, 1);
        Ok(answer)
    }

    /// Takes one step, and gives the receipt of it.
    pub fn step(
        &mut self,
        pass: &mut Pass<L>,
        now: Moment,
        command: &Command,
    ) -> Result<Receipt, Refusal>
        ensures machine { IfOk result (λ r. IsSound self.new → step_in self.old pass.old now command.now ≡ Ok (r.answer, state_of self.new)) }
        ensures trail { OnOk result (trail_of self.new ≡ trail_of self.old ++ (now, command.now) ∷ []) }
        ensures base { OnOk result ((base_of self.new ≡ base_of self.old) × (since_of self.new ≡ since_of self.old)) }
        ensures turn { OnOk result (turn_of self.new ≡ turn_of self.old + 1) }
        ensures receipt { IfOk result (λ r. (r.turn ≡ turn_of self.new) × (r.command ≡ command.now)) }
        ensures share { OnOk result (taken_by pass.new ≡ taken_by pass.old + 1) }
        ensures seen { IfOk result (λ r. (seen_by pass.new ≡ r.turn) × (seen_by pass.old < r.turn)) }
        ensures refused { IfErr result (λ refusal. IsSound self.new → IsRefusalOf refusal (step_in self.old pass.old now command.now)) }
        ensures entry { EndsAfter (entry_to_step self.old pass.old) result }
        ensures listed { IfErr result (MayRefuse D.may_refuse (seen_by pass.old) command.now) }
        ensures unchanged { OnErr result (IsSame self.old self.new × (pass.new ≡ pass.old)) }
        ensures placed { IfOk result (λ r. IsSound self.new → IsOf self.new r) }
        ensures confirms { IsSound self.new → Confirms self.old self.new }
        ensures same_settings { settings_of self.new ≡ settings_of self.old }
        ensures was_sound { IsSound self.new → IsSound self.old }
    {
        self.admit_step(pass)?;
        let given = command.copy()?;
        let answer = self.take(pass, now, command)?;
        Ok(Receipt {
            turn: self.turn,
            command: given,
            answer,
        })
    }

    /// Answers a query in the book's state.
    pub fn ask(&mut self, pass: &mut Pass<L>, query: &Query) -> Result<Answer, Refusal>
        ensures machine { IfOk result (λ answer. IsSound self.new → reply_in self.old pass.old query.now ≡ Ok answer) }
        ensures turn { OnOk result ((seen_by pass.new ≡ turn_of self.old) × (seen_by pass.old ≤ turn_of self.old)) }
        ensures refused { IfErr result (λ refusal. IsSound self.new → IsRefusalOf refusal (reply_in self.old pass.old query.now)) }
        ensures entry { EndsAfter (entry_to_ask self.old pass.old) result }
        ensures listed { IfErr result (MayRefuseQuery D.may_refuse (seen_by pass.old) query.now) }
        ensures book { IsSame self.old self.new }
        ensures share { taken_by pass.new ≡ taken_by pass.old }
        ensures unchanged { OnErr result (pass.new ≡ pass.old) }
        ensures same_settings { settings_of self.new ≡ settings_of self.old }
        ensures was_sound { IsSound self.new → IsSound self.old }
    {
        self.admit(pass)?;
        let answer = self.desk.ask(query)?;
        pass.turn = self.turn;
        Ok(answer)
    }

    /// Answers a query in the book's state, with the book's turn.
    pub fn look(&mut self, pass: &mut Pass<L>, query: Query) -> Result<(u64, Answer), Refusal>
        ensures machine { IfOk result (λ r. IsSound self.new → reply_in self.old pass.old query ≡ Ok r.1) }
        ensures turn { IfOk result (λ r. (r.0 ≡ turn_of self.old) × (seen_by pass.new ≡ r.0) × (seen_by pass.old ≤ r.0)) }
        ensures refused { IfErr result (λ refusal. IsSound self.new → IsRefusalOf refusal (reply_in self.old pass.old query)) }
        ensures entry { EndsAfter (entry_to_ask self.old pass.old) result }
        ensures listed { IfErr result (MayRefuseQuery D.may_refuse (seen_by pass.old) query) }
        ensures book { IsSame self.old self.new }
        ensures share { taken_by pass.new ≡ taken_by pass.old }
        ensures unchanged { OnErr result (pass.new ≡ pass.old) }
        ensures same_settings { settings_of self.new ≡ settings_of self.old }
        ensures was_sound { IsSound self.new → IsSound self.old }
    {
        let answer = self.ask(pass, &query)?;
        Ok((self.turn, answer))
    }

    /// A book whose trail begins with the desk's state, and one share with every part.
    pub fn open(alloc: Global, blank: Blank, mut desk: D) -> Result<(Self, Share<L>), Refusal>
    where
        D: Drop,
        requires name { blank.name ≡ L.name }
        requires parts { blank.parts ≡ L.parts }
        ensures base { IfOk result (λ r. IsSound r.0 → base_of r.0 ≡ D.state desk) }
        ensures trail { IfOk result (λ r. (trail_of r.0 ≡ []) × (turn_of r.0 ≡ 0)) }
        ensures state { IfOk result (λ r. IsSound r.0 → state_of r.0 ≡ D.state desk) }
        ensures settings { IfOk result (λ r. settings_of r.0 ≡ D.settings desk) }
        ensures was_sound { IfOk result (λ r. IsSound r.0 → D.is_sound desk) }
        ensures share { IfOk result (λ r. (r.1.parts ≡ L.parts) × (r.1.amount ≡ 0)) }
        ensures listed { IfErr result (IsListed D.may_refuse []) }
    {
        let trail = T::open(alloc, &mut desk)?;
        let (total, share) = blank.open::<L>();
        let book = Book {
            trail,
            turn: 0,
            desk,
            total,
        };
        Ok((book, share))
    }

    /// Who has every part has the whole turn. The book and the share stay as they were.
    pub fn settle(&mut self, all: &mut Share<L>) -> u64
        requires { all.old.parts ≡ L.parts }
        ensures turn { result ≡ turn_of self.old }
        ensures amount { result ≡ all.old.amount }
        ensures share { (all.new.parts ≡ all.old.parts) × (all.new.amount ≡ all.old.amount) }
        ensures unchanged { IsUntouched self.old self.new }
    {
        self.total.audit(all);
        self.turn
    }
}
