ghost use Rattle.std.specs.Prelude.{◌≡◌, ◌++◌, OnOk, IfOk, string_bytes, reverse};
ghost use Rattle.trace_text.specs.RecordText.{point_words, kind_words, act_line, record_words};
ghost use Rattle.std.specs.Prelude.{Some};

use crate::answer_text::answer_text;
use agent_terms::{Act, Point, TaskKind};
use plain_data::Text;
use std::alloc::{AllocError, Global};
use std::fmt;

#[derive(Clone, Copy)]
struct At(Point);

impl fmt::Display for At {
    ghost output = { λ p. Some (point_words p.0) };

    fn fmt<W: fmt::Write>(&self, f: &mut fmt::Formatter<W>) -> fmt::Result {
        match self.0 {
            Point::Script(made) => write!(f, "s{made}"),
            Point::Handler(place, made) => write!(f, "h{place}.{made}"),
        }
    }
}

#[tactic(auto, unfolding(crate::specs::RecordText::kind_words))]
fn kind_text(kind: TaskKind) -> &'static str
    ensures { result.now ≡ kind_words kind }
{
    match kind {
        TaskKind::Commit => "commit",
        TaskKind::Fire => "fire",
        TaskKind::Lapse => "lapse",
        TaskKind::Gone => "gone",
    }
}

#[tactic(auto, unfolding(crate::specs::RecordText::act_line))]
fn push_act(alloc: Global, out: &mut String, act: &Act) -> Result<(), AllocError>
    ensures { OnOk result (string_bytes out.new ≡ string_bytes out.old ++ act_line act.now) }
{
    match act {
        Act::Step {
            at,
            doc,
            point,
            op,
            answer,
        } => {
            let answer = answer_text(alloc, answer)?;
            let (point, op, answer) = (At(*point), op.text(), answer.as_str());
            writeln!(out, "{at} d{doc} {point} {op} -> {answer}")
        }
        Act::Task { at, kind, place } => {
            let kind = kind_text(*kind);
            writeln!(out, "{at} task {kind} {place}")
        }
        Act::LostTask { at } => writeln!(out, "{at} task lost"),
    }
}

/// The text of a renderer's record: `record`, the renderer and the number of acts, and then a line for each act, in
/// order. The line of a step is how many entries the renderer had heard, the document, the place of the step in its
/// page, the step's name and the answer; that of a task its kind and the place of its entry, or `lost` where the link
/// to the coordinator failed.
#[tactic(auto, unfolding(crate::specs::RecordText::record_words))]
pub fn record_text(alloc: Global, renderer: u16, acts: &[Act]) -> Result<Text, AllocError>
    ensures { IfOk result (λ text. text ≡ record_words renderer (reverse acts.now)) }
{
    let mut out = String::new(alloc);
    let count = acts.len();
    writeln!(out, "record {renderer} {count}")?;
    for act in acts {
        push_act(alloc, &mut out, act)?;
    }
    Ok(Text::from_string(out))
}
