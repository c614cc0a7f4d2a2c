ghost use Rattle.std.specs.Prelude.{ℕ, ◌≡◌, ◌≢◌, ◌+◌, ◌-◌, ◌^◌, ◌<◌, ◌≤◌, true, false, [], ◌∷◌, ◌++◌, length, Some, IfOk, IfSome, IsOk, OnOk, OnErr};
ghost use Rattle.std.specs.Option.{option_copied};
ghost use Rattle.kte_find.specs.Rule.{HasWord};
ghost use Rattle.kte_jobs.specs.Jobs.{least_waiting, rule_of};
ghost use Rattle.kte_core.specs.Jobs.{taken_at};
ghost use Rattle.kte_core.specs.Requests.{IsAllowed, HasNumbers};
ghost use Rattle.kte_core.specs.Shown.{IsOf, Reacts};

use crate::event::{Journal, Step};
use crate::present::{Present, answer, kept_after};
use crate::request::Request;
use kte_doc::Doc;
use kte_find::Rule;
use kte_fold::Folds;
use kte_jobs::Jobs;
use kte_text::{Eol, Lines, Loaded, Text, save};
use kte_undo::Undo;
use std::alloc::{AllocError, Global};
use std::marker::Model;

/// One editing session, which carries out one request at a time.
///
/// Contracts see it as what it began from and its events; its state is their replay.
#[derive(Drop)]
pub struct Core {
    // As it was loaded: the replay of the events begins there.
    loaded: Loaded,
    limit: u64,
    present: Present,
    journal: Journal,
    // For so many events there is always room: for the first close of the session, and for the
    // return of each job that is taken.
    kept: u64,
}

impl Model for Core {
    ghost use Rattle.kte_core.specs.Replay.{Session};

    ghost Value = { Session };

    ghost use Rattle.kte_core.specs.Inside.{session_of, IsSound};

    ghost view = { session_of };

    ghost invariant = { IsSound };
}

impl Core {
    ghost use Rattle.kte_undo.specs.Steps.{redo_of};
    ghost use Rattle.kte_fold.specs.Folds.{is_fold};
    ghost use Rattle.kte_fold.specs.Tree.{KeepsTree};
    ghost use Rattle.kte_core.specs.Editing.{text_of, saved_form};
    ghost use Rattle.kte_core.specs.Folds.{folds_of, spans_now};
    ghost use Rattle.kte_core.specs.Replay.{beginning, Answered, present, primitives_in, transactions};

    /// Creates a session at revision 0, without ranges and jobs. At most `revisions` primitives can
    /// be made.
    pub fn new(alloc: Global, loaded: Loaded, revisions: u64) -> Result<Core, AllocError>
        requires { revisions ≤ 2 ^ 31 }
        ensures { IfOk result (λ core. core
            ≡ record { loaded = loaded; limit = revisions; events = [] }) }
    {
        // Called for its contract alone: what is loaded is a text.
        let _lines = loaded.text.lines();
        let doc = Doc::new(alloc, loaded.text.copy(alloc)?, revisions)?;
        let mut journal = Journal::new(alloc);
        journal.reserve(1)?;
        Ok(Core {
            loaded,
            limit: revisions,
            present: Present {
                doc,
                undo: Undo::new(alloc),
                jobs: Jobs::new(alloc),
                folds: Folds::new(alloc),
                is_closed: false,
            },
            journal,
            kept: 1,
        })
    }

    /// Carries out a request of a seat, and returns the reply with the primitives that were made. A
    /// request that is refused is an event too. After an error nothing has changed.
    ///
    /// Where memory runs out between two primitives, the reply is `Cut`: it has the number of those
    /// that were made. An undo and a redo that are cut leave the rest of the group in its list.
    ///
    /// The first close of the session does not allocate, nor does the return of a job by the seat
    /// that has taken it.
    pub fn step(&mut self, alloc: Global, seat: u32, request: Request) -> Result<Step, AllocError>
        requires allowed { IsAllowed seat request }
        requires numbers { HasNumbers (present self.old) request }
        ensures reacts { IfOk result (λ step.
            Reacts (present self.old) seat request step (present self.new)) }
        ensures event { IfOk result (λ step. self.new ≡ record self.old {
          events = self.old.events
              ++ record { seat = seat; request = request; reply = step.reply } ∷ [];
        }) }
        ensures err { OnErr result (self.new ≡ self.old) }
        ensures closes { request ≡ Request.Close → (present self.old).closed ≡ false
            → IsOk result }
        ensures returns { (job revision : _) → request ≡ Request.GiveBack job
            → taken_at (present self.old).jobs seat job ≡ Some revision → IsOk result }
    {
        let is_kept = self.present.keeps_room(seat, &request);
        make_room(&mut self.journal, self.kept, is_kept)?;
        let step = answer(alloc, &mut self.present, seat, &request)?;
        let reply = step.reply.copy(alloc)?;
        self.kept = kept_after(self.kept, &reply);
        self.journal.note(seat, request, reply);
        Ok(step)
    }

    /// Returns all events, in order.
    pub fn journal(&self) -> &Journal
        ensures events { result.now.events ≡ self.now.events }
        ensures answered { Answered (beginning self.now.loaded self.now.limit) self.now.events }
        ensures transactions { (present self.now).editing.trail
            ≡ primitives_in
            (transactions (beginning self.now.loaded self.now.limit) self.now.events)
            ++ redo_of (present self.now).editing.edits.current }
    {
        &self.journal
    }

    /// Returns the document: the present text, revision and ranges.
    pub fn doc(&self) -> &Doc
        ensures { IsOf (present self.now) result.now }
    {
        &self.present.doc
    }

    /// Returns the folds, whose spans are those of the ranges of [`Core::doc`].
    pub fn folds(&self) -> &Folds
        ensures numbers { (id : ℕ) → is_fold result.now.numbers id
            ≡ is_fold (folds_of (present self.now).ranges) id }
        ensures tree { KeepsTree (spans_now (present self.now)) result.now.numbers
            result.now.inside }
    {
        &self.present.folds
    }

    /// Returns how many transactions are open, each in the one before.
    pub fn depth(&self) -> u32
        ensures { result ≡ (present self.now).editing.edits.depth }
    {
        self.present.undo.depth()
    }

    /// Returns how many groups may be undone, and how many may be redone.
    pub fn undo_counts(&self) -> (u64, u64)
        ensures undo { result.0 ≡ length (present self.now).editing.edits.undo }
        ensures redo { result.1 ≡ length (present self.now).editing.edits.redo }
    {
        self.present.undo.counts()
    }

    /// Returns the least number of a job that waits, if one does.
    pub fn waiting(&self) -> Option<u32>
        ensures { result ≡ least_waiting (present self.now).jobs }
    {
        self.present.jobs.waiting()
    }

    /// Returns the rule of a job; `None` if there is no job of this number.
    pub fn rule(&self, job: u32) -> Option<&Rule>
        ensures value { option_copied result ≡ rule_of (present self.now).jobs job }
        ensures word { IfSome result (λ rule. HasWord rule.now) }
    {
        self.present.jobs.rule(job)
    }

    /// Returns whether the session is closed.
    pub fn is_closed(&self) -> bool
        ensures { result ≡ (present self.now).closed }
    {
        self.present.is_closed
    }

    /// Returns the line end that the text is saved with, and whether a byte order mark is: those of
    /// the loaded file.
    pub fn line_end(&self) -> (Eol, bool)
        ensures eol { result.0 ≡ (present self.now).editing.loaded.eol }
        ensures bom { result.1 ≡ (present self.now).editing.loaded.bom }
    {
        (self.loaded.eol, self.loaded.bom)
    }

    /// Returns a copy of the present text.
    pub fn copy_text(&self, alloc: Global) -> Result<Text, AllocError>
        ensures { IfOk result (λ text. text ≡ text_of (present self.now).editing) }
    {
        self.present.doc.copy_text(alloc)
    }

    /// Returns the bytes that saving writes now: the present text with the line end and the byte
    /// order mark of the loaded file.
    pub fn saved_form(&self, alloc: Global) -> Result<Vec<u8>, AllocError>
        ensures { IfOk result (λ bytes. bytes.items ≡ saved_form (present self.now).editing) }
    {
        save(alloc, &self.present.doc, self.loaded.eol, self.loaded.bom)
    }
}

/// Makes room for one event more beside those for which room is kept, and for one that may have to
/// be kept then. For an event for which room is kept this does not allocate.
fn make_room(journal: &mut Journal, kept: u64, is_kept: bool) -> Result<(), AllocError>
    requires number { kept < 2 ^ 64 - 2 }
    requires room { kept ≤ journal.old.room }
    ensures kept { is_kept ≡ true → IsOk result }
    ensures ok { OnOk result (is_kept ≡ false → kept + 2 ≤ journal.new.room) }
    ensures room { kept ≤ journal.new.room }
    ensures events { journal.new.events ≡ journal.old.events }
{
    if is_kept {
        return Ok(());
    }
    journal.reserve(kept + 2)
}
