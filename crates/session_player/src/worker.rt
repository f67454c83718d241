ghost use Rattle.std.specs.Prelude.{◌≡◌, ◌++◌, ◌+◌, ◌-◌, ◌^◌, ◌<◌, ◌≤◌, [], ◌∷◌, List, ℕ, Option, None, Some, MatchOption, IsTrue, false, length, reverse, vec_len, option_and_then, OnOk, IfOk, IfSome, is_some, true};
ghost use Rattle.std.specs.Option.{option_map, option_copied};
ghost use Rattle.tree_log.specs.declared.entry.Entry.{Entry as EntryValue};
ghost use Rattle.tree_log.specs.Tree.{tree_of};
ghost use Rattle.tree_log.specs.Urls.{url_of};
ghost use Rattle.agent_terms.specs.declared.act.Running.{Running};
ghost use Rattle.object_access.specs.Registers as register_spec;
ghost use Rattle.object_access.specs.Registers.{unset};
ghost use Rattle.single_agent.specs.NextAct as act_spec;
ghost use Rattle.single_agent.specs.Running.{made_before, left_at, left_on, next_point, one_more, starts};
ghost use Rattle.single_agent.specs.NextAct.{kind_of};
ghost use Rattle.single_agent.specs.NextMove.{op_of};
ghost use Rattle.coordinator_rules.specs.Decision.{asker_of};
ghost use Rattle.agent_terms.specs.Limits.{most_acts};
ghost use Rattle.agent_terms.specs.declared.request.ReplyOutcome.{ReplyOutcome as OutcomeOf};
ghost use Rattle.session_player.specs.Serves.{Replies};
ghost use Rattle.session_player.specs.Growing.{grow, grow_urls, AllFollow};
ghost use Rattle.agent_terms.specs.Built.{is_built, is_made, AreBuilt};
ghost use Rattle.script_steps.specs.Kept.{kept};
ghost use Rattle.script_steps.specs.Stored.{stored};
ghost use Rattle.script_steps.specs.Reached.{IsValueThere};
ghost use Rattle.object_access.specs.StepAnswer.{first_stores};
ghost use Rattle.session_player.specs.There.{AllThere};
ghost use Rattle.session_player.specs.ThereProps.{all_there-prop};

use crate::desk::{AskReply, Desk, NextReply};
use crate::replica::Replica;
use crate::requests::Replied;
use crate::script::left_on;
use crate::writes::write;
use agent_terms::{
    Act, Answer, OpName, Outcome, Performed, Point, Request, Running, Session, Step, TaskKind,
};
use plain_data::{Data, Text};
use script_steps::{Registers, Stores, local};
use std::alloc::{AllocError, Global};
use tree_log::{Entry, What};
use tree_view::View;
use window_props::Value;

/// How many acts a record has at most.
pub const MOST_ACTS: usize = 40_000;

/// What a step of a worker did.
#[derive(Clone, Copy, Debug, PartialEq, Eq)]
pub enum Turn {
    /// It added an act.
    Acted,
    /// No step was left, and no task waited.
    Idle,
    /// The log had no room.
    Full,
    /// The record has as many acts as it may have.
    ActsFull,
    /// The coordinator told an entry that can't follow, or an answer names a window or a document that isn't there.
    BadReply,
}

/// A renderer, with its replica of the tree and its record, the oldest act first.
#[derive(Drop)]
pub struct Worker<V: Replica> {
    pub renderer: u16,
    pub acts: Vec<Act>,
    pub heard: u32,
    pub view: V,
    pub run: Option<Running>,
    pub registers: Registers,
    pub stores: Stores,
    ghost there: { (r : Running) → run ≡ Some r → r.doc < (V.tree view).docs },
    ghost named: { AllThere (V.tree view) (kept registers) } by { all_there-prop (V.tree view) (kept registers) },
    ghost counted: { (r : Running) → run ≡ Some r → made_before r.point ≤ length acts.items },
}

/// What the newest of the entries starts, which stands at the place.
fn started<V: View>(view: &V, place: u32, news: &[Entry]) -> Option<Running>
    ensures there { (r : Running) → result ≡ Some r → r.doc < (V.tree view.now).docs }
    ensures first { (r : Running) → result ≡ Some r → made_before r.point ≡ 0 }
    ensures value { (before : List EntryValue) → (entry : EntryValue) → news.now ≡ before ++ entry ∷ []
        → ((r : Running) → starts place entry.what ≡ Some r → r.doc < (V.tree view.now).docs) → result ≡ starts place entry.what }
{
    let entry = news.last()?;
    let (doc, point) = match &entry.what {
        What::Commit { doc, .. } => (*doc, Point::Script(0)),
        What::Fire { doc, .. } => (*doc, Point::Handler(place, 0)),
        _ => return None,
    };
    if doc < view.docs() {
        Some(Running { doc, point })
    } else {
        None
    }
}

/// The kind of the task whose entry is the newest of these.
fn kind_of(news: &[Entry]) -> TaskKind
    ensures { (before : List EntryValue) → (entry : EntryValue) → news.now ≡ before ++ entry ∷ [] → result ≡ kind_of entry.what }
{
    let Some(entry) = news.last() else {
        return TaskKind::Commit;
    };
    match &entry.what {
        What::Fire { .. } => TaskKind::Fire,
        What::Lapse { .. } => TaskKind::Lapse,
        What::Gone { .. } => TaskKind::Gone,
        _ => TaskKind::Commit,
    }
}

/// The point of the next step.
fn next_point(point: Point) -> Point
    requires { made_before point < 2 ^ 32 - 1 }
    ensures { result ≡ next_point point }
{
    match point {
        Point::Script(made) => Point::Script(made + 1),
        Point::Handler(place, made) => Point::Handler(place, made + 1),
    }
}

/// Applies entries to a view, and answers whether each could follow.
fn hear<V: View>(view: &mut V, news: &[Entry]) -> Result<bool, AllocError>
    ensures tree { IfOk result (λ all. IsTrue all → V.tree view.new ≡ grow (V.tree view.old) news.now) }
    ensures urls { IfOk result (λ all. IsTrue all → V.urls view.new ≡ grow_urls (V.urls view.old) news.now) }
    ensures all { IfOk result (λ all. AllFollow (V.tree view.old) news.now → IsTrue all) }
    ensures more { (V.tree view.old).docs ≤ (V.tree view.new).docs }
    ensures navs { (V.tree view.old).navs ≤ (V.tree view.new).navs }
{
    for entry in news {
        if !view.admits(entry) {
            return Ok(false);
        }
        view.apply(entry)?;
    }
    Ok(true)
}

/// The name of a step.
fn name_of(step: &Step) -> OpName
    ensures { result ≡ op_of step.now }
{
    match step {
        Step::Let { .. } => OpName::Let,
        Step::Get { .. } => OpName::Get,
        Step::Has { .. } => OpName::Has,
        Step::Describe { .. } => OpName::Describe,
        Step::Keys { .. } => OpName::Keys,
        Step::Proto { .. } => OpName::Proto,
        Step::SetProto { .. } => OpName::SetProto,
        Step::Extensible { .. } => OpName::Extensible,
        Step::Prevent { .. } => OpName::Prevent,
        Step::Set { .. } => OpName::Set,
        Step::Define { .. } => OpName::Define,
        Step::Delete { .. } => OpName::Delete,
        Step::Call { .. } => OpName::Call,
        Step::Sync => OpName::Sync,
        Step::Frame { .. } => OpName::Frame,
        Step::Drop { .. } => OpName::Drop,
        Step::Open { .. } => OpName::Open,
        Step::Link { .. } => OpName::Link,
        Step::Domain { .. } => OpName::Domain,
    }
}

/// The register that a step's answer goes to.
fn target_of(step: &Step) -> Option<&Text>
    ensures { option_copied result ≡ register_spec.to_of step.now }
{
    match step {
        Step::Let { to, .. }
        | Step::Get { to, .. }
        | Step::Call { to, .. }
        | Step::Frame { to, .. }
        | Step::Open { to, .. } => to.as_ref(),
        _ => None,
    }
}

/// What a step answers where the coordinator has decided.
fn answer_of(op: OpName, reply: Replied) -> Answer
    ensures value { (outcome : OutcomeOf) → Replies reply outcome → Some result ≡ act_spec.answer_of op outcome }
{
    match reply {
        Replied::Done => match op {
            OpName::Set => Answer::Outcome(Outcome::Truth(true)),
            _ => Answer::Outcome(Outcome::Value(Value::Plain(Data::Undefined))),
        },
        Replied::Made { nav } => Answer::Outcome(Outcome::Value(Value::Window(nav))),
        Replied::Unloaded => Answer::Unloaded,
    }
}

/// Whether the window that an answer holds is there.
fn is_there<V: View>(view: &V, answer: &Answer) -> bool
    ensures yes { IsTrue result → IsValueThere (V.tree view.now) (register_spec.value_in answer.now) }
    ensures no { result ≡ false → IsValueThere (V.tree view.now) (register_spec.value_in answer.now) → ⊥ }
{
    match answer {
        Answer::Outcome(Outcome::Value(Value::Window(nav))) => *nav < view.navs(),
        Answer::Outcome(Outcome::Value(Value::Location(doc))) => *doc < view.docs(),
        _ => true,
    }
}

impl<V: Replica> Worker<V> {
    ghost use Rattle.session_player.specs.Serves.{Ledger, ledger};
    ghost use Rattle.session_player.specs.Steps.{IsTied, ActsLocally, TakeEnds, AskEnds, StepsTo, left_now, stores_then};
    ghost use Rattle.session_player.specs.Held.{held};

    pub fn new(alloc: Global, renderer: u16) -> Self
        ensures renderer { result.renderer ≡ renderer }
        ensures acts { result.acts.items ≡ [] }
        ensures heard { result.heard ≡ 0 }
        ensures tree { V.tree result.view ≡ tree_of [] }
        ensures urls { V.urls result.view ≡ url_of [] }
        ensures run { result.run ≡ None }
        ensures registers { kept result.registers ≡ unset }
        ensures stores { stored result.stores ≡ first_stores }
    {
        Worker {
            renderer,
            acts: Vec::new(alloc),
            heard: 0,
            view: V::empty(alloc),
            run: None,
            registers: Registers::new(alloc),
            stores: Stores::new(alloc),
        }
    }

    /// The step that is to be made next, and what runs.
    fn left<'a>(&self, session: &'a Session) -> Option<(Running, &'a Step)>
        requires { AreBuilt session.now }
        ensures left { MatchOption result (option_and_then (left_on session.now (V.tree self.now.view) (V.urls self.now.view)) self.now.run ≡ None)
            (λ p. (option_and_then (left_on session.now (V.tree self.now.view) (V.urls self.now.view)) self.now.run ≡ Some (left_at p.0 p.1.now)) × (self.now.run ≡ Some p.0)) }
        ensures built { IfSome result (λ p. IsTrue (is_built p.1.now)) }
    {
        let run = self.run?;
        match left_on(&self.view, session, run) {
            Some(step) => Some((run, step)),
            None => None,
        }
    }

    /// Notes a step with its answer, and writes the answer to the register that it goes to.
    fn keep(
        &mut self,
        run: Running,
        op: OpName,
        to: Option<&Text>,
        answer: Answer,
    ) -> Result<(), AllocError>
        requires run { self.old.run ≡ Some run }
        requires few { length self.old.acts.items < most_acts }
        requires named { IsValueThere (V.tree self.old.view) (register_spec.value_in answer) }
        ensures acts { OnOk result (self.new.acts.items ≡ self.old.acts.items ++ Act.Step self.old.heard run.doc run.point op answer ∷ []) }
        ensures run { OnOk result (self.new.run ≡ option_map one_more self.old.run) }
        ensures registers { OnOk result (kept self.new.registers ≡ register_spec.written_to run.doc (option_copied to.entry) (register_spec.value_in answer) (kept self.old.registers)) }
        ensures stores { stored self.new.stores ≡ stored self.old.stores }
        ensures renderer { self.new.renderer ≡ self.old.renderer }
        ensures heard { self.new.heard ≡ self.old.heard }
        ensures tree { V.tree self.new.view ≡ V.tree self.old.view }
        ensures urls { V.urls self.new.view ≡ V.urls self.old.view }
    {
        write(&mut self.registers, run.doc, to, &answer)?;
        self.acts.push(Act::Step {
            at: self.heard,
            doc: run.doc,
            point: run.point,
            op,
            answer,
        })?;
        self.run = Some(Running {
            doc: run.doc,
            point: next_point(run.point),
        });
        Ok(())
    }

    /// Asks the coordinator for a step.
    fn asks(
        &mut self,
        alloc: Global,
        desk: &mut Desk<V>,
        session: &Session,
        run: Running,
        step: &Step,
        request: Request,
    ) -> Result<Turn, AllocError>
        requires seat { self.old.renderer < vec_len desk.old.told }
        requires some { 0 < session.now.renderers }
        requires run { self.old.run ≡ Some run }
        requires few { length self.old.acts.items < most_acts }
        requires made { IsTrue (is_made request) }
        ensures asks { IfOk result (λ turn. asker_of request ≡ run.doc → IsTied self.old.renderer (held V.View self.old) (ledger desk.old.log.entries desk.old.told.items)
            → left_now session.now (held V.View self.old) ≡ Some (left_at run step.now)
            → stores_then (Some (left_at run step.now)) (held V.View self.old) ≡ stored self.old.stores
            → AskEnds session.now self.old.renderer run.doc run.point (op_of step.now) request
            (held V.View self.old) (ledger desk.old.log.entries desk.old.told.items) turn
            (held V.View self.new) (ledger desk.new.log.entries desk.new.told.items)) }
        ensures renderer { self.new.renderer ≡ self.old.renderer }
        ensures count { vec_len desk.new.told ≡ vec_len desk.old.told }
    {
        let op = name_of(step);
        match desk.ask(alloc, session, self.renderer, request)? {
            AskReply::NotYours => Ok(Turn::BadReply),
            AskReply::Full => Ok(Turn::Full),
            AskReply::Answered { reply, told } => {
                if !self.hear(told.upto, &told.news)? {
                    return Ok(Turn::BadReply);
                }
                let answer = answer_of(op, reply);
                if !is_there(&self.view, &answer) {
                    return Ok(Turn::BadReply);
                }
                self.keep(run, op, target_of(step), answer)?;
                Ok(Turn::Acted)
            }
        }
    }

    /// Takes the next task.
    fn takes(&mut self, alloc: Global, desk: &mut Desk<V>) -> Result<Turn, AllocError>
        requires { self.old.renderer < vec_len desk.old.told }
        ensures takes { IfOk result (λ turn. IsTied self.old.renderer (held V.View self.old) (ledger desk.old.log.entries desk.old.told.items)
            → TakeEnds self.old.renderer
            (held V.View self.old) (ledger desk.old.log.entries desk.old.told.items) turn
            (held V.View self.new) (ledger desk.new.log.entries desk.new.told.items)) }
        ensures renderer { self.new.renderer ≡ self.old.renderer }
        ensures count { vec_len desk.new.told ≡ vec_len desk.old.told }
    {
        match desk.next(alloc, self.renderer)? {
            NextReply::Full => Ok(Turn::Full),
            NextReply::Nothing(told) => {
                if !self.hear(told.upto, &told.news)? {
                    return Ok(Turn::BadReply);
                }
                self.run = None;
                Ok(Turn::Idle)
            }
            NextReply::Task { place, told } => {
                if !self.hear(told.upto, &told.news)? {
                    return Ok(Turn::BadReply);
                }
                self.run = started(&self.view, place, &told.news);
                self.acts.push(Act::Task {
                    at: self.heard,
                    kind: kind_of(&told.news),
                    place,
                })?;
                Ok(Turn::Acted)
            }
        }
    }

    /// Hears what the coordinator told, and answers whether each entry could follow.
    fn hear(&mut self, upto: u32, news: &[Entry]) -> Result<bool, AllocError>
        ensures tree { IfOk result (λ all. IsTrue all → V.tree self.new.view ≡ grow (V.tree self.old.view) news.now) }
        ensures urls { IfOk result (λ all. IsTrue all → V.urls self.new.view ≡ grow_urls (V.urls self.old.view) news.now) }
        ensures all { IfOk result (λ all. AllFollow (V.tree self.old.view) news.now → IsTrue all) }
        ensures heard { IfOk result (λ all. IsTrue all → self.new.heard ≡ upto) }
        ensures renderer { self.new.renderer ≡ self.old.renderer }
        ensures acts { self.new.acts.items ≡ self.old.acts.items }
        ensures run { self.new.run ≡ self.old.run }
        ensures registers { kept self.new.registers ≡ kept self.old.registers }
        ensures stores { stored self.new.stores ≡ stored self.old.stores }
    {
        let all = hear(&mut self.view, news)?;
        if all {
            self.heard = upto;
        }
        Ok(all)
    }

    /// One step, which makes one exchange with the coordinator at most.
    pub fn step(
        &mut self,
        alloc: Global,
        desk: &mut Desk<V>,
        session: &Session,
    ) -> Result<Turn, AllocError>
        requires seat { self.old.renderer < vec_len desk.old.told }
        requires some { 0 < session.now.renderers }
        requires built { AreBuilt session.now }
        ensures step { IfOk result (λ turn. IsTied self.old.renderer (held V.View self.old) (ledger desk.old.log.entries desk.old.told.items)
            → StepsTo session.now self.old.renderer
            (held V.View self.old) (ledger desk.old.log.entries desk.old.told.items) turn
            (held V.View self.new) (ledger desk.new.log.entries desk.new.told.items)) }
        ensures renderer { self.new.renderer ≡ self.old.renderer }
        ensures count { vec_len desk.new.told ≡ vec_len desk.old.told }
    {
        if self.acts.len() >= MOST_ACTS {
            return Ok(Turn::ActsFull);
        }
        match self.left(session) {
            None => self.takes(alloc, desk),
            Some((run, step)) => {
                let heard = &self.view;
                let stores = &mut self.stores;
                let performed = local(alloc, step, heard, stores, &self.registers, run.doc)?;
                match performed {
                    Performed::Answer(outcome) => {
                        let answer = Answer::Outcome(outcome);
                        if !is_there(&self.view, &answer) {
                            return Ok(Turn::BadReply);
                        }
                        self.keep(run, name_of(step), target_of(step), answer)?;
                        Ok(Turn::Acted)
                    }
                    Performed::Ask(request) => {
                        self.asks(alloc, desk, session, run, step, request)
                    }
                }
            }
        }
    }
}
