ghost use Rattle.std.specs.Prelude.{◌≡◌, ◌≢◌, ℕ, ◌+◌, ◌-◌, ◌^◌, ◌<◌, ◌≤◌, [], ◌∷◌, ◌++◌, length, All, Some, None, IfOk, IfErr, IsOk, IsSome, OnErr, vec_capacity};
ghost use mathlib.Core.List.{IsPrefix};
ghost use Rattle.kte_turn.specs.Known.{events_of, left};
ghost use Rattle.kte_turn.specs.Passes.{IsPassOf, IsStayOf, pass_known, pass_turn, stay_known, turn_id};
ghost use Rattle.kte_jobs.specs.Jobs.{least_waiting};
ghost use Rattle.kte_core.specs.Editing.{saved_form};
ghost use Rattle.kte_core.specs.JobsInWords.{NoneWaits};
ghost use Rattle.kte_core.specs.Replay.{Legal, present};
ghost use Rattle.kte_core.specs.Requests.{HasNumbers, IsAllowed};
ghost use Rattle.kte_desk.specs.Calls.{Adds, AddsNone, AreFound, AreFresh, AreMade, Delivers, Found, HasTook, IsOfEditor, Leaves, Returns, Stays, Takes, Turns, beginning_of, fresh, own_calls};
ghost use Rattle.kte_desk.specs.Passes.{AreAll, IsCheckerOf, IsEditorOf, checker_known, editor_known, work_of};
ghost use Rattle.kte_desk.specs.Seen.{SeesState, first_state, seat_of};

use crate::bell::Bell;
use crate::pass::{CheckerPass, EditorPass, Taking};
use crate::recorded::{Recorded, made_fits};
use crate::work::Work;
use crossbeam_utils::CachePadded;
use kte_core::{Core, Reply, Request, Step};
use kte_find::Rule;
use kte_place::Spans;
use kte_text::{Lines, Text};
use kte_turn::{Pass, Stay, Turn, TurnFail};
use std::alloc::{AllocError, Global};
use std::sync::Wait;

/// A core at which an editor and checkers make their requests, one after another.
#[derive(Drop)]
pub struct Desk {
    turn: Turn<Recorded>,
    // one for each checker, by its seat
    bells: Vec<CachePadded<Bell>>,
}

/// Memory ran out.
#[derive(Drop)]
pub struct StartFail {
    /// The core that was to be shared, as it was.
    pub core: Core,
}

impl Desk {
    /// Shares a core without events between the editor and so many checkers. Returns the desk and
    /// their passes; the checkers have the seats from 1 on, in order. If memory runs out, the core
    /// is handed back as it was.
    pub fn start(
        alloc: Global,
        core: Core,
        checkers: u32,
    ) -> Result<(Desk, EditorPass, Vec<CheckerPass>), StartFail>
        requires empty { core.events ≡ [] }
        requires few { checkers < 2 ^ 32 - 1 }
        ensures all { IfOk result (λ made. AreAll made.0 made.1 made.2.items) }
        ensures editor { IfOk result (λ made. editor_known made.1 ≡ fresh (checkers + 1) core) }
        ensures count { IfOk result (λ made. length made.2.items ≡ checkers) }
        ensures checkers { IfOk result (λ made. AreFresh (editor_known made.1) made.2.items) }
        ensures err { IfErr result (λ fail. fail.core ≡ core) }
    {
        let Ok(bells) = make_bells(alloc, checkers) else {
            return Err(StartFail { core });
        };
        let Ok(room) = Vec::with_capacity(alloc, checkers as usize) else {
            return Err(StartFail { core });
        };
        match Turn::new(alloc, unused(core), checkers + 1) {
            Ok((turn, pass)) => {
                let (pass, others) = split_off(&turn, pass, checkers, room);
                Ok((Desk { turn, bells }, EditorPass { pass }, others))
            }
            Err(TurnFail { value }) => Err(StartFail { core: value.core }),
        }
    }

    /// Carries out a request of the editor: a command, the close, or what came of a call outside.
    /// After an error no event was made.
    ///
    /// The first close does not allocate.
    pub fn command<R: Wait>(
        &self,
        rt: &R,
        alloc: Global,
        pass: EditorPass,
        request: Request,
    ) -> (Result<Step, AllocError>, EditorPass)
        requires own { IsEditorOf self.now pass }
        requires of_editor { IsOfEditor request }
        requires allowed { IsAllowed 0 request }
        requires few { length (editor_known pass).own < 2 ^ 31 }
        ensures own { IsEditorOf self.now result.1 }
        ensures turns { Turns (editor_known pass) (editor_known result.1) }
        ensures event { IfOk result.0 (λ step. Adds (editor_known pass) (editor_known result.1)
            (record { seat = 0; request = request; reply = step.reply })) }
        ensures made { IfOk result.0 (λ step. AreMade (editor_known result.1)
            (record { seat = 0; request = request; reply = step.reply }) step.made) }
        ensures err { IfErr result.0 (λ _. AddsNone (editor_known pass) (editor_known result.1)) }
        ensures closes { request ≡ Request.Close
            → All (λ event. event.request ≢ Request.Close) (editor_known pass).own
            → IsOk result.0 }
    {
        let EditorPass { pass } = pass;
        let (mut core, stay) = self.enter(rt, pass);
        made_fits(&core);
        match core.step(alloc, 0, request) {
            Ok(step) => {
                made_fits(&core);
                let wakes = wakes(&step.reply);
                let pass = self.leave(core, stay);
                self.ring_if(rt, wakes);
                (Ok(step), EditorPass { pass })
            }
            Err(fail) => {
                let pass = self.leave_unchanged(core, stay);
                (Err(fail), EditorPass { pass })
            }
        }
    }

    /// Returns the bytes that a save of the present text writes. Makes no event, and fails only if
    /// memory runs out.
    pub fn saved_form<R: Wait>(
        &self,
        rt: &R,
        alloc: Global,
        pass: EditorPass,
    ) -> (Result<Vec<u8>, AllocError>, EditorPass)
        requires own { IsEditorOf self.now pass }
        ensures own { IsEditorOf self.now result.1 }
        ensures turns { Turns (editor_known pass) (editor_known result.1) }
        ensures none { AddsNone (editor_known pass) (editor_known result.1) }
        ensures bytes { IfOk result.0 (λ bytes. SeesState (editor_known result.1) (λ state.
            bytes.items ≡ saved_form state.editing)) }
    {
        let EditorPass { pass } = pass;
        let (core, stay) = self.enter(rt, pass);
        let bytes = core.saved_form(alloc);
        let pass = self.leave_unchanged(core, stay);
        (bytes, EditorPass { pass })
    }

    /// Takes the least job that waits, if one does. After an error no event was made.
    ///
    /// Where no job waits this does not allocate.
    pub fn take<R: Wait>(
        &self,
        rt: &R,
        alloc: Global,
        pass: CheckerPass,
    ) -> (Result<Taking, AllocError>, CheckerPass)
        requires own { IsCheckerOf self.now pass }
        requires free { work_of pass ≡ None }
        ensures own { IsCheckerOf self.now result.1 }
        ensures turns { Turns (checker_known pass) (checker_known result.1) }
        ensures taken { IfOk result.0 (λ taking. Takes pass result.1 taking) }
        ensures err { IfErr result.0 (λ _. Stays pass result.1) }
        ensures none { SeesState (checker_known result.1) (λ state.
            NoneWaits state → IsOk result.0) }
    {
        let CheckerPass { pass, .. } = pass;
        let seat = pass.seat();
        let (mut core, stay) = self.enter(rt, pass);
        let Some(job) = core.waiting() else {
            let closed = core.is_closed();
            let pass = self.leave_unchanged(core, stay);
            let pass = CheckerPass { pass, work: None };
            return (Ok(Taking::NoJob { closed }), pass);
        };
        match take_least(alloc, &mut core, seat, job) {
            Ok((rule, revision, text)) => {
                let pass = self.leave(core, stay);
                let work = Work { job, revision };
                let taking = Taking::Took {
                    job,
                    rule,
                    revision,
                    text,
                };
                let pass = CheckerPass {
                    pass,
                    work: Some(work),
                };
                (Ok(taking), pass)
            }
            Err(fail) => {
                let pass = self.leave_unchanged(core, stay);
                (Err(fail), CheckerPass { pass, work: None })
            }
        }
    }

    /// Waits until there may be a job; does not wait if one waits or the session is closed. A
    /// checker is woken after a job is posted or given back, and after the close. Makes no event.
    /// Another checker may take the job first.
    pub fn rest<R: Wait>(&self, rt: &R, pass: CheckerPass) -> CheckerPass
        requires own { IsCheckerOf self.now pass }
        ensures own { IsCheckerOf self.now result }
        ensures turns { Turns (checker_known pass) (checker_known result) }
        ensures stays { Stays pass result }
    {
        let CheckerPass { pass, work } = pass;
        let seat = pass.seat();
        let (core, stay) = self.enter(rt, pass);
        let goes_on = core.is_closed() || core.waiting().is_some();
        let pass = self.leave_unchanged(core, stay);
        if !goes_on {
            self.wait(rt, seat);
        }
        CheckerPass { pass, work }
    }

    /// Delivers what the rule of the checker's job finds. If memory runs out, no event is made, and
    /// the checker still has the job.
    pub fn deliver<R: Wait>(
        &self,
        rt: &R,
        alloc: Global,
        pass: CheckerPass,
        findings: Spans,
    ) -> (Result<Reply, AllocError>, CheckerPass)
        requires own { IsCheckerOf self.now pass }
        requires has { IsSome (work_of pass) }
        requires found { AreFound pass findings }
        ensures own { IsCheckerOf self.now result.1 }
        ensures turns { Turns (checker_known pass) (checker_known result.1) }
        ensures delivered { IfOk result.0 (λ reply. Delivers pass result.1 findings reply) }
        ensures err { IfErr result.0 (λ _. Stays pass result.1) }
    {
        let CheckerPass { pass, work } = pass;
        let seat = pass.seat();
        let Work { job, .. } = work.unwrap();
        let (mut core, stay) = self.enter(rt, pass);
        // Called for its contract alone: the job's rule has its word, so what it finds is in reach.
        let _rule = core.rule(job);
        match core.step(alloc, seat, Request::Deliver { job, findings }) {
            Ok(step) => {
                let pass = self.leave(core, stay);
                (Ok(step.reply), CheckerPass { pass, work: None })
            }
            Err(fail) => {
                let pass = self.leave_unchanged(core, stay);
                (Err(fail), CheckerPass { pass, work })
            }
        }
    }

    /// Gives back the job that the checker has, so that it waits again. This does not allocate.
    pub fn give_back<R: Wait>(&self, rt: &R, alloc: Global, pass: CheckerPass) -> CheckerPass
        requires own { IsCheckerOf self.now pass }
        requires has { IsSome (work_of pass) }
        ensures own { IsCheckerOf self.now result }
        ensures turns { Turns (checker_known pass) (checker_known result) }
        ensures returned { Returns pass result }
    {
        let CheckerPass { pass, work } = pass;
        let seat = pass.seat();
        let Work { job, .. } = work.unwrap();
        let (mut core, stay) = self.enter(rt, pass);
        let Ok(step) = core.step(alloc, seat, Request::GiveBack { job }) else {
            unreachable!()
        };
        let wakes = wakes(&step.reply);
        let pass = self.leave(core, stay);
        self.ring_if(rt, wakes);
        CheckerPass { pass, work: None }
    }

    /// Takes the desk apart, and gives the core back to the one who holds all passes.
    ///
    /// The journal begins with what each pass has seen, and its events of each seat are those that
    /// the passes made: none is missing, none is there twice, and they are in order.
    pub fn close(self, editor: EditorPass, checkers: Vec<CheckerPass>) -> Core
        requires { AreAll self editor checkers.items }
        ensures origin { (editor_known editor).origin ≡ Some (beginning_of result) }
        ensures legal { Legal (first_state (beginning_of result)) result.events }
        ensures editor_seen { IsPrefix (editor_known editor).seen result.events }
        ensures seen { All (λ pass. IsPrefix (checker_known pass).seen result.events)
            checkers.items }
        ensures calls { (seat : ℕ) → events_of seat_of seat result.events
            ≡ events_of seat_of seat (own_calls (editor_known editor).own checkers.items) }
    {
        let Desk { turn, bells: _ } = self;
        let EditorPass { mut pass } = editor;
        for checker in checkers {
            let CheckerPass { pass: other, .. } = checker;
            pass = turn.join(pass, other);
        }
        let Recorded { core } = turn.close(pass);
        core
    }

    /// Waits for the turn, and takes the core.
    fn enter<R: Wait>(&self, rt: &R, pass: Pass<Recorded>) -> (Core, Stay<Recorded>)
        requires own { IsPassOf self.now.turn pass }
        ensures own { IsStayOf self.now.turn result.1 }
        ensures found { Found (pass_known pass) result.0 }
        ensures stay { stay_known result.1
            ≡ record (pass_known pass) { seen = result.0.events } }
    {
        let (recorded, stay) = self.turn.enter(rt, pass);
        let Recorded { core } = recorded;
        (core, stay)
    }

    /// Gives the core back with one event more.
    fn leave(&self, core: Core, stay: Stay<Recorded>) -> Pass<Recorded>
        requires own { IsStayOf self.now.turn stay }
        requires leaves { Leaves (stay_known stay) core }
        ensures own { IsPassOf self.now.turn result }
        ensures pass { pass_known result ≡ left core.events (stay_known stay) }
    {
        self.turn.leave(recorded(core), stay)
    }

    /// Gives the core back as it was found.
    fn leave_unchanged(&self, core: Core, stay: Stay<Recorded>) -> Pass<Recorded>
        requires own { IsStayOf self.now.turn stay }
        requires same { core.events ≡ (stay_known stay).seen }
        requires origin { (stay_known stay).origin ≡ Some (beginning_of core) }
        requires legal { Legal (first_state (beginning_of core)) core.events }
        requires few { length (events_of seat_of 0 core.events) ≤ 2 ^ 31 }
        ensures own { IsPassOf self.now.turn result }
        ensures pass { pass_known result
            ≡ record (stay_known stay) { turns = (stay_known stay).turns + 1 } }
    {
        self.turn.leave_unchanged(recorded(core), stay)
    }

    /// Rings all bells, if a checker may go on.
    fn ring_if<R: Wait>(&self, rt: &R, wakes: bool) {
        if !wakes {
            return;
        }
        for bell in &self.bells {
            bell.ring(rt);
        }
    }

    /// Waits at the bell of a checker's seat.
    fn wait<R: Wait>(&self, rt: &R, seat: u32) {
        let Some(n) = seat.checked_sub(1) else {
            return;
        };
        if let Some(bell) = self.bells.get(n as usize) {
            bell.wait(rt);
        }
    }
}

/// Returns a core without events as a value with a story.
fn unused(core: Core) -> Recorded
    requires { core.events ≡ [] }
    ensures { result.core ≡ core }
{
    Recorded { core }
}

/// Returns a core as a value with a story.
fn recorded(core: Core) -> Recorded
    requires legal { Legal (first_state (beginning_of core)) core.events }
    requires few { length (events_of seat_of 0 core.events) ≤ 2 ^ 31 }
    ensures { result.core ≡ core }
{
    // Called for its contract alone: a journal is shorter than 2^63.
    let _len = core.journal().len();
    Recorded { core }
}

/// Makes so many bells.
fn make_bells(alloc: Global, count: u32) -> Result<Vec<CachePadded<Bell>>, AllocError> {
    let mut bells = Vec::with_capacity(alloc, count as usize)?;
    for _ in 0..count {
        bells.push(CachePadded::new(Bell::new()))?;
    }
    Ok(bells)
}

/// Splits off passes for so many checkers from the first pass of a turn.
fn split_off(
    turn: &Turn<Recorded>,
    pass: Pass<Recorded>,
    checkers: u32,
    room: Vec<CheckerPass>,
) -> (Pass<Recorded>, Vec<CheckerPass>)
    requires own { IsPassOf turn.now pass }
    requires room { (room.items ≡ []) × (checkers ≤ vec_capacity room) }
    requires first { pass_known pass ≡ record (pass_known pass) {
      seats = checkers + 1;
      seat = 0;
      joined = [];
      share = checkers + 1;
      turns = 0;
      seen = [];
      own = [];
    } }
    ensures own { IsPassOf turn.now result.0 }
    ensures others { All (λ pass. pass_turn pass.pass ≡ turn_id turn.now) result.1.items }
    ensures rest { pass_known result.0 ≡ record (pass_known pass) { share = 1 } }
    ensures count { length result.1.items ≡ checkers }
    ensures fresh { AreFresh (pass_known result.0) result.1.items }
{
    let mut pass = pass;
    let mut passes = room;
    for _ in 0..checkers {
        let (rest, other) = turn.split(pass);
        pass = rest;
        passes.push_reserved(CheckerPass {
            pass: other,
            work: None,
        });
    }
    (pass, passes)
}

/// Returns whether checkers that rest may go on after this reply.
fn wakes(reply: &Reply) -> bool {
    matches!(
        reply,
        Reply::Posted { .. } | Reply::Returned { .. } | Reply::Closed
    )
}

/// Takes the least job that waits, for a seat. Returns its rule, the revision, and the text at it.
/// After an error nothing has changed.
fn take_least(
    alloc: Global,
    core: &mut Core,
    seat: u32,
    job: u32,
) -> Result<(Rule, u64, Text), AllocError>
    requires numbers { HasNumbers (present core.old) Request.Take }
    requires least { least_waiting (present core.old).jobs ≡ Some job }
    ensures took { IfOk result (λ told. HasTook seat job told.1 told.0 told.2 core.old core.new) }
    ensures err { OnErr result (core.new ≡ core.old) }
{
    let Some(rule) = core.rule(job) else {
        unreachable!()
    };
    let rule = rule.copy(alloc)?;
    let text = core.copy_text(alloc)?;
    // Called for its contract alone: the present text is a text.
    let _lines = text.lines();
    let step = core.step(alloc, seat, Request::Take)?;
    let Reply::Took { revision, .. } = step.reply else {
        unreachable!()
    };
    Ok((rule, revision, text))
}
