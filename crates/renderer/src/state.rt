ghost use Rattle.std.specs.Prelude.{◌≡◌, ◌<◌, ◌^◌, ◌∷◌, ℕ, length, true, false, None, Some, Ok, MatchOption, IfSome, IfOk, OnOk, OnErr, IsOk};
ghost use Rattle.tree_log.specs.Log.{entry_at};
ghost use Rattle.tree_log.specs.Tree.{tree_of, is_active};
ghost use Rattle.agent_terms.specs.Limits.{most_acts, most_steps};
ghost use Rattle.agent_terms.specs.declared.act.Act.TheVariants.{Step as StepAct, LostTask};
ghost use Rattle.agent_terms.specs.declared.act.Answer.{Answer as AnswerOf};
ghost use Rattle.agent_terms.specs.declared.act.Answer.TheVariants.{Lost};
ghost use Rattle.agent_terms.specs.declared.act.Move.TheVariants.{Asks, Takes};
ghost use Rattle.agent_terms.specs.declared.request.Request.TheVariants.{Next};
ghost use Rattle.agent_terms.specs.declared.request.ReplyOutcome.TheVariants as outcomes;
ghost use Rattle.agent_laws.specs.Actors.{has_no_asker};
ghost use Rattle.object_access.specs.Registers.{to_of};
ghost use Rattle.object_access.specs.StepAnswer.{perform};
ghost use Rattle.single_agent.specs.Lengths.{has_stopped, newest_length};
ghost use Rattle.single_agent.specs.NextAct.{answer_of};
ghost use Rattle.single_agent.specs.NextMove.{move_by, move_request, op_of};
ghost use Rattle.single_agent.specs.Running.{left_at, made_before, next_point};
ghost use Rattle.step_ranges.specs.Ranges.{are_pages_short, is_step_short, is_request_short};
ghost use Rattle.link_wire.specs.Links.{is_fit, is_some_task};
ghost use Rattle.renderer.specs.declared.turn.Turn.TheVariants.{Acted, Full, Idle};
ghost use Rattle.renderer.specs.Calls.{GivesUp, IsHonest, Keeps, StopsByFault};
ghost use Rattle.renderer.specs.Fitting.{IsFor};
ghost use Rattle.renderer.specs.Held.{held, IsFit};
ghost use Rattle.renderer.specs.Holding.{fresh, hearing, left_in, move_in, resting, sight_in, stepped};
ghost use Rattle.renderer.specs.Sound.{IsSound};
ghost use Rattle.renderer.specs.Turning.{Converses, IsTaken, Moves, Steps, is_step_outcome, is_task_outcome};

use crate::answers::{answer_of, name_of, target_of, write_answer};
use crate::record::Record;
use crate::tasks::{kind_of, started, write_task};
use crate::turn::Turn;
use agent_terms::{
    Act, Answer, OpName, Page, Performed, Point, ReplyOutcome, Request, Running, Step,
};
use link_exchange::{EmptyView, End, Replica, exchange};
use link_wire::Link;
use page_index::Pages;
use script_steps::{Registers, Stores, local};
use std::alloc::{AllocError, Global};
use step_ranges::know_request;

/// What a renderer holds.
#[derive(Drop)]
pub struct State<'a, V: EmptyView> {
    alloc: Global,
    pub renderer: u16,
    pages: Pages<'a>,
    pub acts: Record,
    /// What was heard.
    replica: Replica<V>,
    /// How many entries were heard, but for those of an exchange that failed.
    pub heard: u32,
    run: Option<Running>,
    registers: Registers,
    stores: Stores,
    /// Whether memory ran out in the middle of an exchange.
    spent: bool,
}

/// The point of the next step.
fn next_point(point: Point) -> Point
    requires { made_before point < most_steps }
    ensures { result ≡ next_point point }
{
    match point {
        Point::Script(made) => Point::Script(made + 1),
        Point::Handler(place, made) => Point::Handler(place, made + 1),
    }
}

impl<'a, V: EmptyView> State<'a, V> {
    pub fn new(alloc: Global, renderer: u16, pages: &'a [Page]) -> Result<Self, AllocError>
        requires short { are_pages_short pages.now ≡ true }
        ensures held { IfOk result (λ w. held w ≡ fresh renderer pages.now) }
        ensures fit { IfOk result (λ w. IsFit w) }
    {
        let pages = Pages::new(alloc, pages)?;
        Ok(State {
            alloc,
            renderer,
            pages,
            acts: Record::new(alloc),
            replica: Replica::new(alloc),
            heard: 0,
            run: None,
            registers: Registers::new(alloc),
            stores: Stores::new(alloc),
            spent: false,
        })
    }

    /// The step that is to be made next, and what runs.
    fn left(&self) -> Option<(Running, &'a Step)>
        requires pages_short { are_pages_short self.now.pages ≡ true }
        requires sound { IsSound (held self.now) }
        ensures left { MatchOption result (left_in (held self.now) ≡ None) (λ p. left_in (held self.now) ≡ Some (left_at p.0 p.1.now)) }
        ensures run { IfSome result (λ p. self.now.run ≡ Some p.0) }
        ensures short { IfSome result (λ p. is_step_short p.1.now ≡ true) }
        ensures made { IfSome result (λ p. made_before p.0.point < most_steps) }
        ensures active { IfSome result (λ p. is_active (tree_of self.now.replica) p.0.doc ≡ true) }
    {
        let run = self.run?;
        match self.pages.step_left(self.replica.view(), run) {
            Some(step) => Some((run, step)),
            None => None,
        }
    }

    /// Adds the act of a step that answered, and goes on to the next one.
    fn advance(&mut self, run: Running, op: OpName, answer: Answer)
        requires room { 0 < self.old.acts.room }
        requires few { length self.old.acts.acts < most_acts }
        requires made { made_before run.point < most_steps }
        requires run { self.old.run ≡ Some run }
        ensures now { held self.new ≡ stepped run.doc run.point op answer None (held self.old) }
        ensures spent { self.new.spent ≡ self.old.spent }
    {
        self.acts.add(Act::Step {
            at: self.heard,
            doc: run.doc,
            point: run.point,
            op,
            answer,
        });
        self.run = Some(Running {
            doc: run.doc,
            point: next_point(run.point),
        });
    }

    /// Counts all that was heard.
    fn settle(&mut self)
        ensures now { held self.new ≡ hearing self.old.replica (held self.old) }
        ensures room { self.new.acts.room ≡ self.old.acts.room }
        ensures spent { self.new.spent ≡ false }
    {
        self.heard = self.replica.len();
        self.spent = false;
    }

    /// Adds a lost act: the renderer has stopped for good.
    fn lose(&mut self, act: Act)
        requires room { 0 < self.old.acts.room }
        requires few { length self.old.acts.acts < most_acts }
        ensures now { held self.new ≡ record (held self.old) { acts = act ∷ self.old.acts.acts } }
        ensures spent { self.new.spent ≡ false }
    {
        self.acts.add(act);
        self.spent = false;
    }

    /// A step that answers from what was heard.
    fn answered(&mut self, run: Running, step: &Step, answer: Answer) -> Result<Turn, AllocError>
        requires room { 0 < self.old.acts.room }
        requires few { length self.old.acts.acts < most_acts }
        requires made { made_before run.point < most_steps }
        requires run { self.old.run ≡ Some run }
        ensures ok { IfOk result (λ turn. (turn ≡ Acted) × (held self.new ≡ stepped run.doc run.point (op_of step.now) answer (Some (left_at run step.now)) (held self.old))) }
        ensures err { OnErr result (held self.new ≡ held self.old) }
        ensures none { to_of step.now ≡ None → IsOk result }
        ensures renderer { self.new.renderer ≡ self.old.renderer }
        ensures pages { self.new.pages ≡ self.old.pages }
        ensures spent { self.new.spent ≡ self.old.spent }
    {
        write_answer(&mut self.registers, run.doc, target_of(step), &answer)?;
        self.advance(run, name_of(step), answer);
        Ok(Turn::Acted)
    }

    /// The link failed, or gave no reply, at a step of a document.
    fn lose_step(&mut self, run: Running, step: &Step)
        requires room { 0 < self.old.acts.room }
        requires few { length self.old.acts.acts < most_acts }
        ensures acts { held self.new ≡ record (held self.old) { acts = StepAct (newest_length self.old.acts.acts) run.doc run.point (op_of step.now) Lost ∷ self.old.acts.acts } }
        ensures spent { self.new.spent ≡ false }
    {
        let act = Act::Step {
            at: self.acts.newest_length(),
            doc: run.doc,
            point: run.point,
            op: name_of(step),
            answer: Answer::Lost,
        };
        self.lose(act);
    }

    /// What a step that asked was told.
    fn told(
        &mut self,
        run: Running,
        step: &Step,
        outcome: &ReplyOutcome,
    ) -> Result<Turn, AllocError>
        requires room { 0 < self.old.acts.room }
        requires few { length self.old.acts.acts < most_acts }
        requires made { made_before run.point < most_steps }
        requires run { self.old.run ≡ Some run }
        requires step { is_step_outcome outcome.now ≡ true }
        ensures full { (len : ℕ) → outcome.now ≡ outcomes.Full len → IfOk result (λ turn. (turn ≡ Full len) × (held self.new ≡ hearing self.old.replica (held self.old))) }
        ensures answer { (given : AnswerOf) → answer_of (op_of step.now) outcome.now ≡ Some given →
            IfOk result (λ turn. (turn ≡ Acted) × (held self.new ≡ stepped run.doc run.point (op_of step.now) given (Some (left_at run step.now)) (hearing self.old.replica (held self.old)))) }
        ensures err { OnErr result (held self.new ≡ held self.old) }
        ensures renderer { self.new.renderer ≡ self.old.renderer }
        ensures pages { self.new.pages ≡ self.old.pages }
        ensures replica { self.new.replica ≡ self.old.replica }
        ensures spent { OnOk result (self.new.spent ≡ false) }
        ensures starved { OnErr result (self.new.spent ≡ self.old.spent) }
    {
        if let ReplyOutcome::Full { len } = outcome {
            self.settle();
            return Ok(Turn::Full { len: *len });
        }
        let op = name_of(step);
        match answer_of(op, outcome) {
            Some(answer) => {
                write_answer(&mut self.registers, run.doc, target_of(step), &answer)?;
                self.settle();
                self.advance(run, op, answer);
                Ok(Turn::Acted)
            }
            None => Ok(Turn::ActsFull),
        }
    }

    /// A step of a document asks over the link.
    fn ask<L: Link>(
        &mut self,
        link: &mut L,
        run: Running,
        step: &Step,
        request: &Request,
    ) -> Result<Turn, AllocError>
        requires goes_on { has_stopped self.old.acts.acts ≡ false }
        requires room { 0 < self.old.acts.room }
        requires few { length self.old.acts.acts < most_acts }
        requires made { made_before run.point < most_steps }
        requires run { self.old.run ≡ Some run }
        requires asker { has_no_asker request.now ≡ false }
        requires short { is_request_short request.now ≡ true }
        requires sound { IsSound (held self.old) }
        requires fit { is_fit self.old.renderer self.old.replica request.now ≡ true }
        requires link { IsFor L.Link (held self.old) link.old }
        ensures ok { IfOk result (λ turn. Converses L.Link (held self.old) (Some (left_at run step.now)) (Asks run.doc run.point (op_of step.now) request.now) request.now link.old turn (held self.new) link.new) }
        ensures err { OnErr result (GivesUp L.Link (held self.old) (Some request.now) link.old (held self.new) link.new) }
        ensures stopped { IfOk result (λ turn. StopsByFault L.Link (held self.old) link.old turn link.new) }
        ensures honest { IfOk result (λ turn. IsHonest L.Link link.old turn link.new) }
        ensures again { OnOk result (IsFor L.Link (held self.new) link.new) }
        ensures sound { OnOk result (has_stopped self.new.acts.acts ≡ false → IsSound (held self.new)) }
        ensures renderer { self.new.renderer ≡ self.old.renderer }
        ensures pages { self.new.pages ≡ self.old.pages }
        ensures spent { OnOk result (self.new.spent ≡ false) }
        ensures starved { OnErr result (self.new.spent ≡ true) }
    {
        know_request(request);
        self.spent = true;
        match exchange(self.alloc, &mut self.replica, self.renderer, link, request)? {
            End::Told(outcome) => {
                let turn = self.told(run, step, &outcome)?;
                let _heard = self.replica.view();
                Ok(turn)
            }
            End::Failed => {
                self.lose_step(run, step);
                Ok(Turn::Stopped)
            }
            End::Strays { place } => {
                self.lose_step(run, step);
                Ok(Turn::BadReply { place })
            }
        }
    }

    /// The step that is left is made.
    fn perform<L: Link>(
        &mut self,
        link: &mut L,
        run: Running,
        step: &Step,
    ) -> Result<Turn, AllocError>
        requires goes_on { has_stopped self.old.acts.acts ≡ false }
        requires room { 0 < self.old.acts.room }
        requires few { length self.old.acts.acts < most_acts }
        requires made { made_before run.point < most_steps }
        requires run { self.old.run ≡ Some run }
        requires short { is_step_short step.now ≡ true }
        requires active { is_active (tree_of self.old.replica) run.doc ≡ true }
        requires sound { IsSound (held self.old) }
        requires spent { self.old.spent ≡ false }
        requires link { IsFor L.Link (held self.old) link.old }
        ensures ok { IfOk result (λ turn. Moves L.Link (Some (left_at run step.now)) (move_by run.doc run.point (op_of step.now) (perform (sight_in (held self.old)) run.doc step.now))
            (held self.old) link.old turn (held self.new) link.new) }
        ensures err { OnErr result (GivesUp L.Link (held self.old) (move_request (move_by run.doc run.point (op_of step.now) (perform (sight_in (held self.old)) run.doc step.now)))
            link.old (held self.new) link.new) }
        ensures stopped { IfOk result (λ turn. StopsByFault L.Link (held self.old) link.old turn link.new) }
        ensures honest { IfOk result (λ turn. IsHonest L.Link link.old turn link.new) }
        ensures again { OnOk result (IsFor L.Link (held self.new) link.new) }
        ensures sound { OnOk result (has_stopped self.new.acts.acts ≡ false → IsSound (held self.new)) }
        ensures renderer { self.new.renderer ≡ self.old.renderer }
        ensures pages { self.new.pages ≡ self.old.pages }
        ensures spent { OnOk result (self.new.spent ≡ false) }
        ensures starved { OnErr result (self.new.spent ≡ false → IsSound (held self.new)) }
    {
        let heard = self.replica.view();
        let performed = local(
            self.alloc,
            step,
            heard,
            &mut self.stores,
            &self.registers,
            run.doc,
        )?;
        match performed {
            Performed::Answer(outcome) => self.answered(run, step, Answer::Outcome(outcome)),
            Performed::Ask(request) => self.ask(link, run, step, &request),
        }
    }

    /// Takes the task whose entry stands at the place.
    fn start(&mut self, place: u32) -> Result<Turn, AllocError>
        requires room { 0 < self.old.acts.room }
        requires few { length self.old.acts.acts < most_acts }
        requires task { is_some_task self.old.renderer self.old.replica (entry_at self.old.replica place) ≡ true }
        ensures ok { IfOk result (λ turn. (turn ≡ Acted) × IsTaken (held self.old) self.old.replica place (held self.new)) }
        ensures err { OnErr result (Keeps (held self.old) (held self.new)) }
        ensures renderer { self.new.renderer ≡ self.old.renderer }
        ensures pages { self.new.pages ≡ self.old.pages }
        ensures replica { self.new.replica ≡ self.old.replica }
        ensures spent { OnOk result (self.new.spent ≡ false) }
        ensures starved { OnErr result (self.new.spent ≡ self.old.spent) }
    {
        let Some(entry) = self.replica.at(place) else {
            return Ok(Turn::ActsFull);
        };
        let run = started(place, &entry.what);
        let kind = kind_of(&entry.what);
        write_task(self.alloc, &mut self.registers, &self.replica, &entry.what)?;
        self.settle();
        self.run = run;
        self.acts.add(Act::Task {
            at: self.heard,
            kind,
            place,
        });
        Ok(Turn::Acted)
    }

    /// What a question for a task was told.
    fn told_task(&mut self, outcome: &ReplyOutcome) -> Result<Turn, AllocError>
        requires room { 0 < self.old.acts.room }
        requires few { length self.old.acts.acts < most_acts }
        requires task { is_task_outcome outcome.now ≡ true }
        requires there { (place : ℕ) → outcome.now ≡ outcomes.Task place → is_some_task self.old.renderer self.old.replica (entry_at self.old.replica place) ≡ true }
        ensures full { (len : ℕ) → outcome.now ≡ outcomes.Full len → IfOk result (λ turn. (turn ≡ Full len) × (held self.new ≡ hearing self.old.replica (held self.old))) }
        ensures nothing { outcome.now ≡ outcomes.Nothing → IfOk result (λ turn. (turn ≡ Idle) × (held self.new ≡ resting (hearing self.old.replica (held self.old)))) }
        ensures task { (place : ℕ) → outcome.now ≡ outcomes.Task place → IfOk result (λ turn. (turn ≡ Acted) × IsTaken (held self.old) self.old.replica place (held self.new)) }
        ensures err { OnErr result (Keeps (held self.old) (held self.new)) }
        ensures renderer { self.new.renderer ≡ self.old.renderer }
        ensures pages { self.new.pages ≡ self.old.pages }
        ensures replica { self.new.replica ≡ self.old.replica }
        ensures spent { OnOk result (self.new.spent ≡ false) }
        ensures starved { OnErr result (self.new.spent ≡ self.old.spent) }
    {
        match outcome {
            ReplyOutcome::Task { place } => self.start(*place),
            ReplyOutcome::Full { len } => {
                self.settle();
                Ok(Turn::Full { len: *len })
            }
            _ => {
                self.run = None;
                self.settle();
                Ok(Turn::Idle)
            }
        }
    }

    /// The link failed, or gave no reply, as the renderer asked for a task.
    fn lose_task(&mut self)
        requires room { 0 < self.old.acts.room }
        requires few { length self.old.acts.acts < most_acts }
        ensures acts { held self.new ≡ record (held self.old) { acts = LostTask self.old.heard ∷ self.old.acts.acts } }
        ensures spent { self.new.spent ≡ false }
    {
        self.lose(Act::LostTask { at: self.heard });
    }

    /// Asks over the link for the next task.
    fn take<L: Link>(&mut self, link: &mut L) -> Result<Turn, AllocError>
        requires seat { self.old.renderer < 2 ^ 16 }
        requires goes_on { has_stopped self.old.acts.acts ≡ false }
        requires room { 0 < self.old.acts.room }
        requires few { length self.old.acts.acts < most_acts }
        requires sound { IsSound (held self.old) }
        requires link { IsFor L.Link (held self.old) link.old }
        ensures ok { IfOk result (λ turn. Converses L.Link (held self.old) None Takes Next link.old turn (held self.new) link.new) }
        ensures err { OnErr result (GivesUp L.Link (held self.old) (Some Next) link.old (held self.new) link.new) }
        ensures stopped { IfOk result (λ turn. StopsByFault L.Link (held self.old) link.old turn link.new) }
        ensures honest { IfOk result (λ turn. IsHonest L.Link link.old turn link.new) }
        ensures again { OnOk result (IsFor L.Link (held self.new) link.new) }
        ensures sound { OnOk result (has_stopped self.new.acts.acts ≡ false → IsSound (held self.new)) }
        ensures renderer { self.new.renderer ≡ self.old.renderer }
        ensures pages { self.new.pages ≡ self.old.pages }
        ensures spent { OnOk result (self.new.spent ≡ false) }
        ensures starved { OnErr result (self.new.spent ≡ true) }
    {
        let request = Request::Next;
        know_request(&request);
        self.spent = true;
        match exchange(self.alloc, &mut self.replica, self.renderer, link, &request)? {
            End::Told(outcome) => {
                let turn = self.told_task(&outcome)?;
                let _heard = self.replica.view();
                Ok(turn)
            }
            End::Failed => {
                self.lose_task();
                Ok(Turn::Stopped)
            }
            End::Strays { place } => {
                self.lose_task();
                Ok(Turn::BadReply { place })
            }
        }
    }

    /// The next move of a renderer that goes on.
    fn make_move<L: Link>(&mut self, link: &mut L) -> Result<Turn, AllocError>
        requires seat { self.old.renderer < 2 ^ 16 }
        requires short { are_pages_short self.old.pages ≡ true }
        requires goes_on { has_stopped self.old.acts.acts ≡ false }
        requires room { 0 < self.old.acts.room }
        requires few { length self.old.acts.acts < most_acts }
        requires sound { IsSound (held self.old) }
        requires spent { self.old.spent ≡ false }
        requires link { IsFor L.Link (held self.old) link.old }
        ensures ok { IfOk result (λ turn. Moves L.Link (left_in (held self.old)) (move_in (held self.old)) (held self.old) link.old turn (held self.new) link.new) }
        ensures err { OnErr result (GivesUp L.Link (held self.old) (move_request (move_in (held self.old))) link.old (held self.new) link.new) }
        ensures stopped { IfOk result (λ turn. StopsByFault L.Link (held self.old) link.old turn link.new) }
        ensures honest { IfOk result (λ turn. IsHonest L.Link link.old turn link.new) }
        ensures again { OnOk result (IsFor L.Link (held self.new) link.new) }
        ensures sound { OnOk result (has_stopped self.new.acts.acts ≡ false → IsSound (held self.new)) }
        ensures renderer { self.new.renderer ≡ self.old.renderer }
        ensures pages { self.new.pages ≡ self.old.pages }
        ensures spent { OnOk result (self.new.spent ≡ false) }
        ensures starved { OnErr result (self.new.spent ≡ false → IsSound (held self.new)) }
    {
        match self.left() {
            Some((run, step)) => self.perform(link, run, step),
            None => self.take(link),
        }
    }

    /// One step, as [`Worker::step`](crate::Worker::step) says.
    pub fn step<L: Link>(&mut self, link: &mut L) -> Result<Turn, AllocError>
        requires fit { IsFit self.old }
        requires link { IsFor L.Link (held self.old) link.old }
        ensures ok { IfOk result (λ turn. Steps L.Link (held self.old) link.old turn (held self.new) link.new) }
        ensures err { OnErr result (GivesUp L.Link (held self.old) (move_request (move_in (held self.old))) link.old (held self.new) link.new) }
        ensures stopped { IfOk result (λ turn. StopsByFault L.Link (held self.old) link.old turn link.new) }
        ensures honest { IfOk result (λ turn. IsHonest L.Link link.old turn link.new) }
        ensures again { OnOk result (IsFor L.Link (held self.new) link.new) }
        ensures fit { IsFit self.new }
    {
        if self.spent {
            return Err(AllocError);
        }
        if self.acts.is_full() {
            return Ok(Turn::ActsFull);
        }
        if self.acts.has_stopped() {
            return Ok(Turn::Stopped);
        }
        self.acts.reserve()?;
        self.make_move(link)
    }
}
