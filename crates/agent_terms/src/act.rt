use crate::outcome::Outcome;
use crate::request::Request;
use crate::step::OpName;
use plain_data::Text;
use window_props::Value;

/// Where a step stands in its page.
#[derive(Clone, Copy, Debug, PartialEq, Eq)]
pub enum Point {
    /// The step of the script with this number, from 0.
    Script(u32),
    /// The step with the second number of the handler that the message fired at the first place started.
    Handler(u32, u32),
}

/// What a step answered.
#[derive(Drop)]
pub enum Answer {
    /// An outcome other than `Ask`.
    Outcome(Outcome),
    /// The document was no longer active on the log.
    Unloaded,
    /// The link to the coordinator failed.
    Lost,
}

/// The kind of a task.
#[derive(Clone, Copy, Debug, PartialEq, Eq)]
pub enum TaskKind {
    /// A document that was loaded becomes the active one, and its script starts.
    Commit,
    /// A message is delivered, and the handler of its document starts.
    Fire,
    /// A message is given up.
    Lapse,
    /// A window closes.
    Gone,
}

/// A line of a renderer's record. `at` is the number of entries of the log that the renderer had heard.
#[derive(Drop)]
pub enum Act {
    /// A step of a document's script or handler, and what it answered.
    Step {
        at: u32,
        doc: u32,
        point: Point,
        op: OpName,
        answer: Answer,
    },
    /// A task was taken. Its entry stands at the place.
    Task {
        at: u32,
        kind: TaskKind,
        place: u32,
    },
    /// The link to the coordinator failed as the renderer asked for a task.
    LostTask {
        at: u32,
    },
}

/// A script or a handler that runs: its document, and where its next step stands.
#[derive(Clone, Copy, Debug, PartialEq, Eq)]
pub struct Running {
    pub doc: u32,
    pub point: Point,
}

/// A write to a register of a document.
#[derive(Drop)]
pub struct Write {
    pub doc: u32,
    pub name: Text,
    pub value: Value,
}

/// What a step is on what its renderer heard.
#[derive(Drop)]
pub enum Performed {
    /// It answers.
    Answer(Outcome),
    /// It asks the coordinator.
    Ask(Request),
}

/// What a renderer does at its turn.
#[derive(Drop)]
pub enum Move {
    /// A step answers from what the renderer heard.
    Answers {
        doc: u32,
        point: Point,
        op: OpName,
        answer: Outcome,
    },
    /// A step asks the coordinator.
    Asks {
        doc: u32,
        point: Point,
        op: OpName,
        request: Request,
    },
    /// No step is left, so the renderer takes its next task, if there is one.
    Takes,
    /// The renderer has stopped: its link to the coordinator failed.
    Stays,
}

/// How a play ended.
#[derive(Clone, Copy, Debug, PartialEq, Eq)]
pub enum Ending {
    /// Every script ran to its end, and no task waits.
    Done,
    /// The log had no room for what a renderer did at its turn.
    LogFull,
    /// A renderer had as many acts at its turn as a record may have.
    ActsFull { renderer: u16 },
}
